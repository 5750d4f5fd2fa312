use gv_gpu::{Gpu, Step};
use gv_types::EngineId;
use std::process::Abort;
use std::test::Fail;

/// A start of a privileged batch, of three dwords.
pub const PRIVILEGED: u32 = 0x1880_0001;

/// The end of a batch.
pub const END: u32 = 0x0500_0000;

/// A user interrupt.
pub const INTERRUPT: u32 = 0x0100_0000;

/// One step of engine 1, with the interrupt bits that it raises.
pub fn ran<G: Gpu>(rt: &impl Abort, gpu: &mut G, words: &[u32], raised: u16) -> Result<(), Fail> {
    gpu.reserve(1)?;
    match gpu.step(EngineId(1))? {
        Step::Ran { command, raise } => {
            assert!(rt; command.words() == words);
            assert_eq!(rt; raise, raised);
        }
        _ => panic!(rt; "no command ran"),
    }
    Ok(())
}
