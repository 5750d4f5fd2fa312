ghost use Rattle.std.specs.Prelude.{◌≡◌, ℕ, ◌<◌, None, length, slice_index_or};
ghost use Rattle.gv_vgpu.specs.Vgpu.{no_engine};

use gv_element::Element;

/// What is kept for an engine: its element at work, and its general registers while another guest owns it.
#[derive(Drop)]
pub struct Engine {
    pub element: Option<Element>,
    pub kept: [u64; 16],
}

impl Engine {
    // Without an element, and with general registers of zeros.
    pub(crate) fn new() -> Engine
        ensures element { result.element ≡ None }
        ensures zeros { (n : ℕ) → slice_index_or result.kept n 0 ≡ 0 }
        ensures sixteen { length result.kept ≡ 16 }
    {
        Engine {
            element: None,
            kept: [0; 16],
        }
    }
}

// Four of them.
pub(crate) fn first_engines() -> [Engine; 4]
    ensures elements { (engine : ℕ) → (slice_index_or result engine no_engine).element ≡ None }
    ensures zeros { (engine n : ℕ) → slice_index_or (slice_index_or result engine no_engine).kept n 0 ≡ 0 }
    ensures sixteen { (engine : ℕ) → engine < 4 → length (slice_index_or result engine no_engine).kept ≡ 16 }
    ensures four { length result ≡ 4 }
{
    [Engine::new(), Engine::new(), Engine::new(), Engine::new()]
}
