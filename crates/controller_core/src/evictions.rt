ghost use Rattle.std.specs.Prelude.{◌≡◌, ◌+◌, ◌≤◌, ◌<◌, ◌^◌, ◌++◌, Some, IfOk, OnOk, OnErr, is_some, vec_len};
ghost use Rattle.std.specs.Prelude.{vec_capacity};
ghost use Rattle.far_model.specs.Controller as model;
ghost use Rattle.controller_core.specs.ControllerView.{at_state, EvictsSlot};
ghost use Rattle.controller_core.specs.Going.{goes_on_if};
ghost use Rattle.controller_core.specs.Notes.{notes_of};

use crate::controller::Controller;
use crate::evicting::Evicting;
use crate::note::Note;
use crate::sending::{send_store, send_to_switch};
use far_base::{Body, Memory, Out};
use safe_evict::Next;

impl Controller {
    /// What comes next in an eviction, if anything does.
    fn go_on(&mut self, mut eviction: Evicting, next: Option<Next>, out: &mut Vec<Out>) -> Note
        requires slot { EvictsSlot self.old.state.slots (Some eviction) }
        requires room { self.old.state.next_job + 1 < 2 ^ 64 }
        requires spare { vec_len out.old + 1 ≤ vec_capacity out.old }
        ensures state { self.new ≡ at_state self.old (goes_on_if self.old.config self.old.state eviction next).state }
        ensures out { out.new.items ≡ out.old.items ++ (goes_on_if self.old.config self.old.state eviction next).out }
        ensures notes { notes_of result self.new.state.last ≡
            (goes_on_if self.old.config self.old.state eviction next).notes }
    {
        match next {
            None => {
                self.eviction = Some(eviction);
                Note::Nothing
            }
            Some(Next::Send(packet)) => {
                self.eviction = Some(eviction);
                send_to_switch(packet, out);
                Note::Nothing
            }
            Some(Next::Store(item)) => {
                let job = self.next_job;
                eviction.set_job(job);
                self.eviction = Some(eviction);
                self.next_job += 1;
                send_store(&self.config, job, item, out);
                Note::Nothing
            }
            Some(Next::Done { tries }) => {
                let slot = eviction.slot();
                let key = eviction.key();
                self.eviction = None;
                self.admission.freed(slot);
                Note::Evicted { slot, key, tries }
            }
            Some(Next::Kept { last, .. }) => {
                let slot = eviction.slot();
                let key = eviction.key();
                self.eviction = None;
                self.admission.kept(slot);
                self.drop_want_if(eviction.is_for_want());
                Note::Kept {
                    slot,
                    key,
                    num: last.num,
                }
            }
        }
    }

    fn drop_want_if(&mut self, for_want: bool)
        ensures { self.new ≡ at_state self.old (model.drop_want_if for_want self.old.state) }
    {
        if for_want {
            self.wants.drop_first();
        }
    }

    /// The answer to a look at a slot.
    pub(crate) fn peek_answered(
        &mut self,
        slot: u32,
        tag: u64,
        latest: bool,
        num: u64,
        body: Body,
        out: &mut Vec<Out>,
    ) -> Result<Note, Memory>
        requires room { self.old.state.next_job + 1 < 2 ^ 64 }
        ensures state { OnOk result (self.new ≡ at_state self.old
            (model.peek_answered self.old.config self.old.state slot tag latest num body
            self.old.state.eviction).state) }
        ensures out { OnOk result (out.new.items ≡ out.old.items ++
            (model.peek_answered self.old.config self.old.state slot tag latest num body self.old.state.eviction).out) }
        ensures notes { IfOk result (λ note. notes_of note self.new.state.last ≡
            (model.peek_answered self.old.config self.old.state slot tag latest num body
            self.old.state.eviction).notes) }
        ensures err { OnErr result (self.new ≡ self.old) }
        ensures err_out { OnErr result (out.new.items ≡ out.old.items) }
    {
        out.reserve(1)?;
        let Some(mut eviction) = self.eviction.take() else {
            return Ok(Note::Nothing);
        };
        let next = eviction.peek_came(slot, tag, latest, num, body);
        Ok(self.go_on(eviction, next, out))
    }

    /// The answer to a removal of a slot.
    pub(crate) fn removal_answered(
        &mut self,
        slot: u32,
        tag: u64,
        done: bool,
        latest: bool,
        num: u64,
        body: Body,
        out: &mut Vec<Out>,
    ) -> Result<Note, Memory>
        requires room { self.old.state.next_job + 1 < 2 ^ 64 }
        ensures state { OnOk result (self.new ≡ at_state self.old
            (model.removal_answered self.old.config self.old.state slot tag done num body
            self.old.state.eviction).state) }
        ensures out { OnOk result (out.new.items ≡ out.old.items ++
            (model.removal_answered self.old.config self.old.state slot tag done num body
            self.old.state.eviction).out) }
        ensures notes { IfOk result (λ note. notes_of note self.new.state.last ≡
            (model.removal_answered self.old.config self.old.state slot tag done num body
            self.old.state.eviction).notes) }
        ensures err { OnErr result (self.new ≡ self.old) }
        ensures err_out { OnErr result (out.new.items ≡ out.old.items) }
    {
        out.reserve(1)?;
        let Some(mut eviction) = self.eviction.take() else {
            return Ok(Note::Nothing);
        };
        let next = eviction.removal_came(slot, tag, done, latest, num, body);
        Ok(self.go_on(eviction, next, out))
    }
}
