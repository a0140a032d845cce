ghost use Rattle.std.specs.Prelude.{◌≡◌, ◌+◌, ◌≤◌, ◌<◌, ◌^◌, ◌++◌, true, false, Some, None, IsTrue, IfSome, OnOk};
ghost use Rattle.std.specs.Prelude.{OnErr, is_some, vec_len, vec_capacity};
ghost use Rattle.far_model.specs.Controller as model;
ghost use Rattle.far_model.specs.Evictions as slots;
ghost use Rattle.controller_core.specs.ControllerView.{at_state};
ghost use Rattle.controller_core.specs.Notes.{notes_of};
ghost use Rattle.controller_core.specs.Staying.{leaves_first_want as leaves};
ghost use Rattle.controller_core.specs.Wants.{first_want};

use crate::controller::Controller;
use crate::evicting::Evicting;
use crate::note::Note;
use crate::sending::send_to_switch;
use far_base::{Key, Memory, Out, Packet, SlotState};

impl Controller {
    /// Whether a held slot could make room for a want.
    #[tactic(auto, using(crate::proofs::Ticks::room_is))]
    fn can_make_room(&self) -> bool
        ensures { result ≡ is_some (model.tick_room self.now.state
            (slots.victim self.now.state.hand self.now.state.slots)) }
    {
        self.eviction.is_none() && self.admission.has_held()
    }

    /// Whether there is something to do for the first want: it is there and no round is under way, and a slot has its
    /// key, or is free, or can be made free.
    #[tactic(auto, using(crate::proofs::Ticks::ready_is, crate::proofs::Ticks::not_ready))]
    pub fn tick_ready(&self) -> bool
        ensures { result ≡ is_some (model.tick self.now.state) }
    {
        let Some(key) = self.wants.first() else {
            return false;
        };
        self.round.is_none()
            && (self.admission.has_free()
                || self.can_make_room()
                || self.admission.holds(&key).is_some())
    }

    /// Whether the packet, once it is taken, leaves `tick_ready` as it is, since it changes nothing that the first want
    /// waits for.
    #[tactic(auto, using(crate::proofs::Staying::first_want_stays))]
    pub fn leaves_first_want(&self, packet: &Packet) -> bool
        ensures kinds { result ≡ leaves self.now.state packet.now }
        ensures stays { IsTrue result → is_some (model.tick (model.controller_takes self.now.config self.now.state
            packet.now).state) ≡ is_some (model.tick self.now.state) }
    {
        match packet {
            Packet::Hot { .. } => self.has_round() || self.has_want(),
            Packet::AdmitAck { .. } => self.busy_evicting(),
            Packet::PeekAns { .. }
            | Packet::SnapBegun { .. }
            | Packet::SnapPart { .. }
            | Packet::SnapSame { .. }
            | Packet::Stored { .. }
            | Packet::Told { .. }
            | Packet::TopIs { .. } => true,
            _ => false,
        }
    }

    /// Serves the first want, which `tick_ready` said can be: it is dropped where a slot has its key; else the lowest
    /// free slot is admitted to it; else a held slot is to be freed for it.
    #[tactic(auto, using(crate::proofs::Ticks::tick_is, crate::proofs::Ticks::want_there))]
    pub fn tick(&mut self, out: &mut Vec<Out>) -> Result<(), Memory>
        requires ready { is_some (model.tick self.old.state) ≡ true }
        requires room { self.old.state.next_tag + 1 < 2 ^ 64 }
        ensures state { OnOk result (IfSome (model.tick self.old.state) (λ turn. self.new
            ≡ at_state self.old turn.state)) }
        ensures out { OnOk result (IfSome (model.tick self.old.state) (λ turn. out.new.items
            ≡ out.old.items ++ turn.out)) }
        ensures err { OnErr result (self.new ≡ self.old) }
        ensures err_out { OnErr result (out.new.items ≡ out.old.items) }
    {
        out.reserve(1)?;
        let Some(key) = self.wants.first() else {
            unreachable!()
        };
        self.serve(key, out);
        Ok(())
    }

    fn serve(&mut self, key: Key, out: &mut Vec<Out>)
        requires ready { is_some (model.tick_want self.old.state key (slots.first_place
            (slots.has_key key) self.old.state.slots)) ≡ true }
        requires room { self.old.state.next_tag + 1 < 2 ^ 64 }
        requires spare { vec_len out.old + 1 ≤ vec_capacity out.old }
        ensures state { IfSome (model.tick_want self.old.state key (slots.first_place
            (slots.has_key key) self.old.state.slots)) (λ turn. self.new ≡ at_state self.old turn.state) }
        ensures out { IfSome (model.tick_want self.old.state key (slots.first_place
            (slots.has_key key) self.old.state.slots)) (λ turn. out.new.items ≡ out.old.items ++ turn.out) }
    {
        match self.admission.holds(&key) {
            Some(_) => self.wants.drop_first(),
            None => self.admit(key, out),
        }
    }

    fn admit(&mut self, key: Key, out: &mut Vec<Out>)
        requires ready { is_some (model.tick_free self.old.state key
            (slots.first_place slots.is_free self.old.state.slots)) ≡ true }
        requires room { self.old.state.next_tag + 1 < 2 ^ 64 }
        requires spare { vec_len out.old + 1 ≤ vec_capacity out.old }
        ensures state { IfSome (model.tick_free self.old.state key
            (slots.first_place slots.is_free self.old.state.slots)) (λ turn. self.new ≡ at_state self.old turn.state) }
        ensures out { IfSome (model.tick_free self.old.state key (slots.first_place slots.is_free self.old.state.slots))
            (λ turn. out.new.items ≡ out.old.items ++ turn.out) }
    {
        match self.admission.next_admit(key) {
            Some((slot, tag)) => {
                self.wants.drop_first();
                let epoch = self.epoch;
                send_to_switch(
                    Packet::Admit {
                        epoch,
                        slot,
                        key,
                        tag,
                    },
                    out,
                );
            }
            None => self.make_room(out),
        }
    }

    fn make_room(&mut self, out: &mut Vec<Out>)
        requires ready { is_some (model.tick_room self.old.state
            (slots.victim self.old.state.hand self.old.state.slots)) ≡ true }
        requires spare { vec_len out.old + 1 ≤ vec_capacity out.old }
        ensures state { IfSome (model.tick_room self.old.state (slots.victim self.old.state.hand self.old.state.slots))
            (λ turn. self.new ≡ at_state self.old turn.state) }
        ensures out { IfSome (model.tick_room self.old.state (slots.victim self.old.state.hand self.old.state.slots))
            (λ turn. out.new.items ≡ out.old.items ++ turn.out) }
    {
        let Some(slot) = self.admission.victim() else {
            unreachable!()
        };
        self.evict(slot, true, out);
    }

    /// A held slot is to be freed.
    fn evict(&mut self, slot: u32, for_want: bool, out: &mut Vec<Out>)
        requires held { IsTrue (slots.is_held (slots.state_at self.old.state.slots slot)) }
        requires spare { vec_len out.old + 1 ≤ vec_capacity out.old }
        ensures state { self.new ≡ at_state self.old (model.evicts self.old.state for_want slot).state }
        ensures out { out.new.items ≡ out.old.items ++ (model.evicts self.old.state for_want slot).out }
    {
        let SlotState::Held { key, tag } = self.admission.state(slot) else {
            unreachable!()
        };
        let (eviction, packet) = Evicting::begin(self.epoch, slot, key, tag, for_want);
        self.admission.evicting(slot);
        self.eviction = Some(eviction);
        send_to_switch(packet, out);
    }

    /// The order to evict a key: the held slot that has it, where there is one, is to be freed. No eviction and no
    /// round is under way.
    pub fn evict_key(&mut self, key: &Key, out: &mut Vec<Out>) -> Result<(), Memory>
        requires eviction { is_some self.old.state.eviction ≡ false }
        requires round { is_some self.old.state.round ≡ false }
        ensures state { OnOk result (self.new ≡ at_state self.old (model.evict_key key.now self.old.state).state) }
        ensures out { OnOk result (out.new.items ≡ out.old.items ++ (model.evict_key key.now self.old.state).out) }
        ensures err { OnErr result (self.new ≡ self.old) }
        ensures err_out { OnErr result (out.new.items ≡ out.old.items) }
    {
        out.reserve(1)?;
        match self.admission.held(key) {
            Some(slot) => {
                self.evict(slot, false, out);
                Ok(())
            }
            None => Ok(()),
        }
    }

    /// An admitting slot with that tag is held.
    pub(crate) fn acknowledged(&mut self, slot: u32, tag: u64) -> Note
        ensures state { self.new ≡ at_state self.old (model.acknowledged self.old.state slot tag).state }
        ensures notes { notes_of result self.new.state.last ≡ (model.acknowledged self.old.state slot tag).notes }
    {
        match self.admission.acked(slot, tag) {
            Some(key) => Note::Admitted { slot, key, tag },
            None => Note::Nothing,
        }
    }
}
