ghost use Rattle.std.specs.Prelude.{◌≡◌, ◌<◌, ◌↔◌, length, Ok};
ghost use Rattle.gv_types.specs.declared.reply.Answer.{Answer};
ghost use Rattle.gv_types.specs.declared.reply.Answer.TheVariants.{Kept};
ghost use Rattle.gv_gpu.specs.Change.{ChangesOnly};
ghost use Rattle.gv_gpu.specs.Part.{frames_part};
ghost use Rattle.gv_private.specs.Device.{PrivateDevice};
ghost use Rattle.gv_private.specs.Grants.{move_answer};
ghost use Rattle.gv_guest.specs.Move.{IfMoved, MovesFrame, UnlessMoved};
ghost use Rattle.gv_gtt.specs.Gtt.{frames_of, number_of, ranges_of, nodes_in, over};
ghost use Rattle.gv_gtt.specs.Standing.{Translates};

use crate::Gtt;
use gv_gpu::Gpu;
use gv_guest::PageMove;
use gv_types::OutOfMemory;

impl Gtt {
    /// Moves a frame into another host page. It is kept exactly where a table maps it or an owned page of the global
    /// table grants it.
    pub fn move_page<G: Gpu>(&mut self, gpu: &mut G, frame: u32) -> Result<PageMove, OutOfMemory>
        requires translates { Translates (G.state gpu.old) self.old }
        requires within { frame < length (frames_of self.old).pages }
        requires room { (G.state gpu.old).live < 131072 }
        ensures kept { (p : PrivateDevice) → (result ≡ Ok PageMove.Kept) ↔ (move_answer (over p (G.state gpu.old) self.old) frame ≡ Kept) }
        ensures device { (p : PrivateDevice) → over p (G.state gpu.new) self.new ≡ over p (G.state gpu.old) self.old }
        ensures translates { Translates (G.state gpu.new) self.new }
        ensures ranges { ranges_of self.new ≡ ranges_of self.old }
        ensures nodes { nodes_in self.new ≡ nodes_in self.old }
        ensures changes { ChangesOnly (frames_part (number_of self.old)) 512 (G.state gpu.old) (G.state gpu.new) }
        ensures moved { IfMoved result (MovesFrame (frames_of self.old) (frames_of self.new) frame (G.state gpu.new)) }
        ensures unmoved { UnlessMoved result (frames_of self.new ≡ frames_of self.old) }
    {
        self.memory.move_page(gpu, frame)
    }
}
