ghost use Rattle.std.specs.Prelude.{◌≡◌, ◌<◌, length, IfOk, IfErr, IsErrOf, OnOk, OnErr};
ghost use Rattle.gv_types.specs.declared.reply.Answer.{Answer};
ghost use Rattle.gv_types.specs.declared.reply.Stop.TheVariants.{DeviceFault};
ghost use Rattle.gv_element.specs.Works.{KeepsEngines};
ghost use Rattle.gv_gpu.specs.Change.{ChangesOnly};
ghost use Rattle.gv_gpu.specs.Part.{frames_part};
ghost use Rattle.gv_gtt.specs.Gtt.{frames_of, number_of};
ghost use Rattle.gv_private.specs.Grants.{move_answer};
ghost use Rattle.gv_private.specs.Inputs.{answer};
ghost use Rattle.gv_vgpu.specs.Access.{AccessMayFault, AccessMayLackMemory, AccessMoves, AccessPokes, FrameMoves, IsAccess, Replies};
ghost use Rattle.gv_vgpu.specs.Changes.{Keeps, Stops, replied};
ghost use Rattle.gv_vgpu.specs.Plain.{ChangesAccess, IsPlain, ReadsAlone};
ghost use Rattle.gv_vgpu.specs.Vgpu.{private_of};
ghost use Rattle.gv_vgpu.specs.Owners.{is_here};
ghost use Rattle.gv_vgpu.specs.Standing.{Holds};

use crate::Vgpu;
use crate::notice::Notice;
use gv_gpu::Gpu;
use gv_guest::PageMove;
use gv_types::{Answer, Event, GuestId, Reply, Stop};

impl Notice {
    /// The reply to a guest.
    pub fn reply(self, guest: GuestId, answer: Answer) -> Reply
        ensures { result ≡ replied guest answer self }
    {
        Reply {
            guest,
            answer,
            irq: self.irq,
            failsafe: self.failsafe,
        }
    }
}

impl Vgpu {
    // Moves a frame to another host page, unless it is pinned.
    fn move_page<G: Gpu>(
        &mut self,
        gpu: &mut G,
        here: [bool; 4],
        frame: u32,
    ) -> Result<Answer, Stop>
        requires holds { Holds (G.state gpu.old) self.old (is_here here) }
        requires within { frame < length (frames_of self.old.gtt).pages }
        requires room { (G.state gpu.old).live < 131072 }
        ensures answer { IfOk result (λ moved. moved ≡ move_answer (private_of (G.state gpu.old) self.old (is_here here)) frame) }
        ensures device { OnOk result (private_of (G.state gpu.new) self.new (is_here here) ≡ private_of (G.state gpu.old) self.old (is_here here)) }
        ensures keeps { OnOk result (Keeps (is_here here) (G.state gpu.old) (G.state gpu.new) self.old self.new) }
        ensures stops { IfErr result (λ stop. Stops (is_here here) (G.state gpu.old) (G.state gpu.new) self.old stop) }
        ensures moves { IfOk result (λ moved. FrameMoves (G.state gpu.new) self.old self.new frame moved) }
        ensures memory { OnErr result (result ≡ Err Stop.OutOfMemory) }
        ensures lacks { OnErr result (move_answer (private_of (G.state gpu.old) self.old (is_here here)) frame ≡ Answer.Moved) }
        ensures part { OnOk result (ChangesOnly (frames_part (number_of self.old.gtt)) 512 (G.state gpu.old) (G.state gpu.new)) }
        ensures unsubmitted { KeepsEngines (G.state gpu.old) (G.state gpu.new) }
    {
        match self.gtt.move_page(gpu, frame) {
            Ok(PageMove::Moved) => Ok(Answer::Moved),
            Ok(PageMove::Kept) => Ok(Answer::Kept),
            Err(_) => Err(Stop::OutOfMemory),
        }
    }

    /// Does a read, a write or a move of the guest's, by the engines that it owns, and replies what the guest's private
    /// device does. `DeviceFault` comes only at a write that resets engines and at one by which the guest fails, and
    /// `OutOfMemory` only at a move that isn't kept and at a write of a live table or of notify; no engine's state changed
    /// then. A read changes nothing. A move, and a
    /// write but of a live table, a general register, notify or engine reset, changes the guest's frames and owned
    /// entries alone.
    pub fn access<G: Gpu>(
        &mut self,
        gpu: &mut G,
        here: [bool; 4],
        event: &Event,
    ) -> Result<Reply, Stop>
        requires holds { Holds (G.state gpu.old) self.old (is_here here) }
        requires access { IsAccess (number_of self.old.gtt) (length (frames_of self.old.gtt).pages) event.now }
        requires room { (G.state gpu.old).live < 131072 }
        ensures replies { IfOk result (λ reply. Replies (is_here here) (G.state gpu.old) (G.state gpu.new) self.old self.new (answer (private_of (G.state gpu.old) self.old (is_here here)) event.now) reply) }
        ensures stops { IfErr result (λ stop. Stops (is_here here) (G.state gpu.old) (G.state gpu.new) self.old stop) }
        ensures faults { IsErrOf result Stop.DeviceFault → AccessMayFault (private_of (G.state gpu.old) self.old (is_here here)) event.now }
        ensures lacks { IsErrOf result Stop.OutOfMemory → AccessMayLackMemory (private_of (G.state gpu.old) self.old (is_here here)) event.now }
        ensures unsubmitted { IsErrOf result Stop.OutOfMemory → KeepsEngines (G.state gpu.old) (G.state gpu.new) }
        ensures moves { IfOk result (λ reply. AccessMoves (G.state gpu.new) self.old self.new event.now reply.answer) }
        ensures part { OnOk result (IsPlain (private_of (G.state gpu.old) self.old (is_here here)) event.now → ChangesAccess 512 (G.state gpu.old) (G.state gpu.new) self.old) }
        ensures reads { OnOk result (ReadsAlone (G.state gpu.old) (G.state gpu.new) self.old self.new event.now) }
        ensures pokes { IfOk result (λ reply. AccessPokes (G.state gpu.old) (G.state gpu.new) (private_of (G.state gpu.old) self.old (is_here here)) (private_of (G.state gpu.new) self.new (is_here here)) event.now reply.failsafe) }
    {
        match *event {
            Event::Read {
                guest,
                place,
                width,
                at,
            } => {
                let value = self.read(gpu, here, place, width, at);
                Ok(Notice::none().reply(guest, Answer::Value(value)))
            }
            Event::Write {
                guest,
                place,
                width,
                at,
                value,
            } => {
                let notice = self.write(gpu, here, place, width, at, value)?;
                Ok(notice.reply(guest, Answer::Nothing))
            }
            Event::Move { guest, frame } => {
                let answer = self.move_page(gpu, here, frame)?;
                Ok(Notice::none().reply(guest, answer))
            }
            _ => unreachable!(),
        }
    }
}
