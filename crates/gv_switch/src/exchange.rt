ghost use Rattle.std.specs.Prelude.{◌≡◌, ◌<◌, ◌≤◌, OnErr, OnOk, length};
ghost use Rattle.gv_gpu.specs.Context.{stopped};
ghost use Rattle.gv_gpu.specs.Device.{counted, with_faults};
ghost use Rattle.gv_switch.specs.Exchange.{AreRegisters, brought, with_registers};

use gv_gpu::{Gpu, GpuFailed};
use gv_types::{EngineId, GuestId};

// The sixteen general registers of an engine.
fn registers<G: Gpu>(gpu: &G, engine: EngineId) -> [u64; 16]
    requires { engine.0 < 4 }
    ensures all { AreRegisters result (G.state gpu.now) engine.0 }
    ensures sixteen { length result ≡ 16 }
{
    let mut kept = [0; 16];
    for n in 0..16u8 {
        kept[n as usize] = gpu.general(engine, n);
    }
    kept
}

// The general registers of an engine become these.
fn set_registers<G: Gpu>(gpu: &mut G, engine: EngineId, kept: &[u64; 16])
    requires { engine.0 < 4 }
    ensures { G.state gpu.new ≡ with_registers (G.state gpu.old) engine.0 kept.now }
{
    for n in 0..16u8 {
        gpu.set_general(engine, n, kept[n as usize]);
    }
}

/// Puts an engine's state away: the sixteen general registers are kept, and the place of the context that is loaded goes
/// into its image, so that none is loaded then. After `GpuFailed` the count of faults has risen, and all else is as before.
pub fn put_away<G: Gpu>(
    gpu: &mut G,
    engine: EngineId,
    kept: &mut [u64; 16],
) -> Result<(), GpuFailed>
    requires { engine.0 < 4 }
    ensures ok { OnOk result (G.state gpu.new ≡ stopped (G.state gpu.old) engine.0) }
    ensures kept { OnOk result (AreRegisters kept.new (G.state gpu.old) engine.0) }
    ensures sixteen { OnOk result (length kept.new ≡ 16) }
    ensures err { OnErr result (G.state gpu.new ≡ with_faults (G.state gpu.old) (G.state gpu.new).faults) }
    ensures same { OnErr result (kept.new ≡ kept.old) }
    ensures cause { OnErr result (counted (G.state gpu.old).faults ≤ (G.state gpu.new).faults) }
{
    let registers = registers(gpu, engine);
    gpu.stop(engine)?;
    *kept = registers;
    Ok(())
}

/// Brings a guest's state to an engine: its general registers, and the context of the guest's descriptor, if there is
/// one, by what its image holds. After `GpuFailed` the count of faults has risen, and the registers are the guest's.
pub fn bring<G: Gpu>(
    gpu: &mut G,
    engine: EngineId,
    guest: GuestId,
    kept: &[u64; 16],
    descriptor: Option<u64>,
) -> Result<(), GpuFailed>
    requires { engine.0 < 4 }
    ensures ok { OnOk result (G.state gpu.new ≡ brought (with_registers (G.state gpu.old) engine.0 kept.now) engine.0 guest.0 descriptor) }
    ensures err { OnErr result (G.state gpu.new ≡ with_faults (with_registers (G.state gpu.old) engine.0 kept.now) (G.state gpu.new).faults) }
    ensures cause { OnErr result (counted (G.state gpu.old).faults ≤ (G.state gpu.new).faults) }
{
    set_registers(gpu, engine, kept);
    match descriptor {
        Some(descriptor) => gpu.submit(engine, guest, descriptor),
        None => Ok(()),
    }
}
