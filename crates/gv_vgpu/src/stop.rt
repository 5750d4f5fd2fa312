ghost use Rattle.std.specs.Prelude.{◌≡◌, IfOk, IfErr, IsErr, Ok};
ghost use Rattle.gv_types.specs.declared.reply.Stop.TheVariants.{DeviceFault};

use gv_gpu::GpuFailed;
use gv_types::Stop;

// A fault of the device stops.
pub(crate) fn or_stop<T>(answer: Result<T, GpuFailed>) -> Result<T, Stop>
    ensures ok { IfOk result (λ value. answer ≡ Ok value) }
    ensures fault { IfErr result (λ stop. (stop ≡ DeviceFault) × IsErr answer) }
{
    match answer {
        Ok(value) => Ok(value),
        Err(GpuFailed) => Err(Stop::DeviceFault),
    }
}
