ghost use Rattle.std.specs.Prelude.{◌≡◌, ◌+◌, ◌<◌, ◌^◌, ◌++◌, true, IfOk, OnOk, OnErr};
ghost use Rattle.far_model.specs.Controller as model;
ghost use Rattle.controller_core.specs.ControllerView.{at_state};
ghost use Rattle.controller_core.specs.Notes.{notes_of};
ghost use Rattle.controller_core.specs.Room.{may_store};

use crate::controller::Controller;
use crate::note::Note;
use far_base::{Key, Memory, Out, Packet};

impl Controller {
    /// A key that has grown hot is wanted, unless a round is under way.
    fn hot(&mut self, key: Key) -> Result<(), Memory>
        ensures ok { OnOk result (self.new ≡ at_state self.old (model.wanted key self.old.state)) }
        ensures err { OnErr result (self.new ≡ self.old) }
    {
        if self.has_round() {
            return Ok(());
        }
        self.want(key)
    }

    /// Handles a packet: what it sends goes last in `out`, and the answer is what the log keeps. A packet of a kind
    /// that goes to another party changes nothing, and neither does one that the controller does not wait for. Where
    /// memory is refused, the controller and `out` are as before.
    #[tactic(auto, using(crate::proofs::Telling::told_quiet, crate::proofs::Telling::answered_quiet, crate::proofs::Telling::top_quiet))]
    pub fn deliver(&mut self, packet: &Packet, out: &mut Vec<Out>) -> Result<Note, Memory>
        requires room { may_store packet.now ≡ true → self.old.state.next_job + 1 < 2 ^ 64 }
        ensures state { OnOk result (self.new ≡ at_state self.old
            (model.controller_takes self.old.config self.old.state packet.now).state) }
        ensures out { OnOk result (out.new.items ≡ out.old.items ++
            (model.controller_takes self.old.config self.old.state packet.now).out) }
        ensures notes { IfOk result (λ note. notes_of note self.new.state.last ≡
            (model.controller_takes self.old.config self.old.state packet.now).notes) }
        ensures err { OnErr result (self.new ≡ self.old) }
        ensures err_out { OnErr result (out.new.items ≡ out.old.items) }
    {
        match *packet {
            Packet::Hot { key } => {
                self.hot(key)?;
                Ok(Note::Nothing)
            }
            Packet::AdmitAck { slot, tag } => Ok(self.acknowledged(slot, tag)),
            Packet::PeekAns {
                slot,
                tag,
                latest,
                num,
                body,
            } => self.peek_answered(slot, tag, latest, num, body, out),
            Packet::RemoveAns {
                slot,
                tag,
                done,
                latest,
                num,
                body,
            } => self.removal_answered(slot, tag, done, latest, num, body, out),
            Packet::SnapBegun { id, point } => self.snapshot_begun(id, point, out),
            Packet::SnapPart { id, slot, view } => self.part_came(id, slot, view, out),
            Packet::SnapSame { id, slot } => self.same_came(id, slot, out),
            Packet::Stored { job } => {
                self.store_answered(job, out)?;
                Ok(Note::Nothing)
            }
            Packet::Told {
                round,
                caller,
                total,
                item,
            } => {
                self.client_told(round, caller, total, item, out)?;
                Ok(Note::Nothing)
            }
            Packet::TopIs { round, server, top } => {
                self.top_told(round, server, top);
                Ok(Note::Nothing)
            }
            _ => Ok(Note::Nothing),
        }
    }
}
