ghost use Rattle.std.specs.Prelude.{◌≡◌, ◌+◌, ◌*◌, ◌<◌, length};
ghost use Rattle.gv_gpu.specs.Context.{state_at, state_dword, field_dwords, fields_stored, context_saved, context_of};
ghost use Rattle.gv_ctx.specs.Saved.{fields_of, saved_of};
ghost use Rattle.gv_engine.specs.Soft.{loaded_of};
ghost use Rattle.gv_engine.specs.Whole.{whole};

use crate::SoftGpu;
use gv_ctx::{Descriptor, Saved};
use gv_types::{GuestId, PAGE_BYTES};

/// A context that is loaded on an engine. The root is the number of a host page.
#[derive(Clone, Copy, Debug, PartialEq, Eq)]
pub(crate) struct Context {
    pub descriptor: u64,
    pub owner: GuestId,
    pub place: Saved,
    pub tail: u32,
    pub ring_start: u32,
    pub root: u64,
}

/// The dwords of an image's second page that hold the fields of a place.
const FIELD_DWORDS: [u64; 7] = [0x05, 0x0d, 0x0f, 0x11, 0x13, 0x15, 0x17];

/// The global address of a dword of the image's second page.
fn state_at(descriptor: u64, n: u64) -> u64
    requires { n < 1024 }
    ensures { result ≡ state_at descriptor n }
{
    u64::from(Descriptor::of(descriptor).page) * PAGE_BYTES + PAGE_BYTES + 4 * n
}

impl SoftGpu {
    fn state_dword(&self, descriptor: u64, n: u64) -> u32
        requires { n < 1024 }
        ensures { result ≡ state_dword (whole self.now) descriptor n }
    {
        self.global_dword(state_at(descriptor, n))
    }

    /// The place that an image holds.
    #[tactic(auto, unfolding(gv_gpu::specs::Context::context_of))]
    fn place_of(&self, descriptor: u64) -> Saved
        ensures { result ≡ (context_of (whole self.now) 0 descriptor).place }
    {
        Saved::of([
            self.state_dword(descriptor, 0x05),
            self.state_dword(descriptor, 0x0d),
            self.state_dword(descriptor, 0x0f),
            self.state_dword(descriptor, 0x11),
            self.state_dword(descriptor, 0x13),
            self.state_dword(descriptor, 0x15),
            self.state_dword(descriptor, 0x17),
        ])
    }

    /// The context that an image holds.
    #[tactic(auto, unfolding(gv_gpu::specs::Context::context_of))]
    pub(crate) fn context_of(&self, owner: GuestId, descriptor: u64) -> Context
        ensures { loaded_of result ≡ context_of (whole self.now) owner.0 descriptor }
    {
        let high = u64::from(self.state_dword(descriptor, 0x31));
        let low = u64::from(self.state_dword(descriptor, 0x33));
        Context {
            descriptor,
            owner,
            place: self.place_of(descriptor),
            tail: self.state_dword(descriptor, 0x07),
            ring_start: self.state_dword(descriptor, 0x09),
            root: (high * 0x1_0000_0000 + low) >> 12,
        }
    }

    /// Writes the fields of a place into an image.
    pub(crate) fn store_fields(&mut self, descriptor: u64, fields: [u32; 7])
        ensures { whole self.new ≡ fields_stored (whole self.old) descriptor fields 7 }
    {
        for n in 0..7 {
            let at = state_at(descriptor, FIELD_DWORDS[n]);
            self.store_global_dword(at, fields[n]);
        }
    }

    /// Saves the place of a loaded context into its image.
    pub(crate) fn save(&mut self, engine: u8)
        requires { engine < 4 }
        ensures { whole self.new ≡ context_saved (whole self.old) ((whole self.old).loaded engine) }
    {
        if let Some(context) = self.context(engine) {
            self.store_fields(context.descriptor, context.place.fields());
        }
    }
}
