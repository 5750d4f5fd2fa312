ghost use Rattle.std.specs.Prelude.{◌≡◌, ℕ, length};
ghost use Rattle.gv_mmio.specs.Ports.{no_ports, ports_in};

use crate::port::Port;
use gv_csb::Slots;

/// What is submitted to an engine: half-made submissions, lists, and the status ring.
#[derive(Drop)]
pub struct Ports {
    pub port: Port,
    pub slots: Slots,
}

impl Ports {
    // Nothing is submitted.
    pub(crate) fn new() -> Ports
        ensures { result ≡ no_ports }
    {
        Ports {
            port: Port::Empty,
            slots: Slots::new(),
        }
    }
}

// Nothing is submitted to any of the four.
pub(crate) fn first_ports() -> [Ports; 4]
    ensures ports { (engine : ℕ) → ports_in result engine ≡ no_ports }
    ensures four { length result ≡ 4 }
{
    [Ports::new(), Ports::new(), Ports::new(), Ports::new()]
}
