ghost use Rattle.std.specs.Prelude.{◌≡◌, ℕ, ◌+◌, ◌<◌, ◌≤◌, filter, if◌then◌else◌, IsSome, length, slice_set};
ghost use Rattle.gv_gpu.specs.Device.{poked};
ghost use Rattle.gv_gpu.specs.Part.{outside};
ghost use Rattle.gv_guest.specs.Placed.{memory_in};
ghost use Rattle.gv_sppgtt.specs.State.{own_part, readings_of};
ghost use Rattle.gv_sppgtt.specs.Holding.{Holds};
ghost use Rattle.gv_sppgtt.specs.Serving.{chain_in};
ghost use Rattle.gv_shape.specs.Shadow.{leaf_word};

use crate::Tables;
use crate::tables::leaf_word;
use gv_gpu::Gpu;
use gv_guest::{Frames, Pins};
use gv_rmap::Leaf;

impl Tables {
    // A frame becomes guarded or unguarded: its leaves are writable where the guest's entries have it, unless it is
    // guarded. It pokes those that the guest may write through.
    pub(crate) fn flip<G: Gpu>(
        &mut self,
        gpu: &mut G,
        frames: &Frames,
        pins: &Pins,
        frame: u32,
        guarded: bool,
    )
        requires holds { Holds (G.state gpu.old) frames.now self.old pins.now }
        requires frame { frame < length frames.now.pages }
        ensures holds { Holds (G.state gpu.new) frames.now self.new pins.now }
        ensures told { self.new.told.items ≡ slice_set self.old.told.items frame guarded }
        ensures nodes { self.new.nodes ≡ self.old.nodes }
        ensures readings { (k f i : ℕ) → readings_of (G.state gpu.new) self.new k f i ≡ readings_of (G.state gpu.old) self.old k f i }
        ensures memory { memory_in (G.state gpu.new) frames.now ≡ memory_in (G.state gpu.old) frames.now }
        ensures outside { outside (own_part frames.now.guest self.new) (G.state gpu.new) ≡ outside (own_part frames.now.guest self.old) (G.state gpu.old) }
        ensures pokes { (G.state gpu.new).pokes ≤ (G.state gpu.old).pokes + length (filter (λ leaf. leaf.writable) (chain_in self.old frame)) }
        ensures live { (G.state gpu.new).live ≡ (G.state gpu.old).live }
        ensures guest { self.new.guest ≡ self.old.guest }
        ensures touched { self.new.touched ≡ self.old.touched }
    {
        let host = frames.page(frame);
        for leaf in self.chains.walk(frame) {
            guard_leaf(gpu, host, leaf, guarded);
        }
        self.told[frame as usize] = guarded;
    }
}

// Puts the word of a leaf that the guest may write through. Any other's is the same under guard.
fn guard_leaf<G: Gpu>(gpu: &mut G, host: u64, leaf: Leaf, guarded: bool)
    requires host { host < 131072 }
    requires live { IsSome ((G.state gpu.old).label leaf.page) }
    requires within { leaf.index < 512 }
    ensures { G.state gpu.new ≡ (if leaf.writable then poked (G.state gpu.old) leaf.page leaf.index (leaf_word host leaf.writable guarded) else G.state gpu.old) }
{
    if leaf.writable {
        let word = leaf_word(host, leaf.writable, guarded);
        gpu.poke(leaf.page, leaf.index as usize, word);
    }
}
