ghost use Rattle.std.specs.Prelude.{◌≡◌, ◌+◌, ◌≤◌, ◌<◌, ◌^◌, ◌++◌, ◌&&◌, [], slice_index_or, None, true, false, Some};
ghost use Rattle.std.specs.Prelude.{IfOk, OnOk, OnErr, is_some, nat_eq, nat_lt, length, vec_len, vec_capacity};
ghost use Rattle.far_model.specs.Controller as model;
ghost use Rattle.far_model.specs.Snapshots as snapshots;
ghost use Rattle.controller_core.specs.ControllerView.{at_state};
ghost use Rattle.controller_core.specs.Notes.{notes_of};
ghost use Rattle.controller_core.specs.Going.{same_with};

use crate::controller::Controller;
use crate::note::Note;
use crate::sending::{send_reads, send_to_clients, send_to_switch};
use far_base::{Memory, Out, Packet, Record};
use snapshot_core::Job;

impl Controller {
    /// Whether the last completed snapshot is of the present epoch, so that a part may refer to it.
    fn is_last_present(&self) -> bool
        ensures { result ≡ model.is_last_present self.now.state }
    {
        self.last_epoch == self.epoch && self.last.id > 0
    }

    /// The packet that begins the next snapshot.
    fn start_packet(&self) -> Packet
        ensures { result ≡ model.start_packet self.now.state }
    {
        let epoch = self.epoch;
        let id = self.next_id;
        if self.is_last_present() {
            let base = self.last.id;
            return Packet::SnapFrom { epoch, id, base };
        }
        Packet::SnapStart { epoch, id }
    }

    /// The order to take a snapshot. No snapshot is gathered, and no round is under way.
    pub fn start_snapshot(&mut self, out: &mut Vec<Out>) -> Result<(), Memory>
        requires job { is_some self.old.state.job ≡ false }
        requires round { is_some self.old.state.round ≡ false }
        requires room { self.old.state.next_id + 1 < 2 ^ 32 }
        ensures state { OnOk result (self.new ≡ at_state self.old (model.start_snapshot self.old.state).state) }
        ensures out { OnOk result (out.new.items ≡ out.old.items ++ (model.start_snapshot self.old.state).out) }
        ensures err { OnErr result (self.new ≡ self.old) }
        ensures err_out { OnErr result (out.new.items ≡ out.old.items) }
    {
        out.reserve(1)?;
        let job = Job::new(self.alloc, self.next_id, self.admission.count())?;
        let packet = self.start_packet();
        self.job = Some(job);
        self.next_id += 1;
        send_to_switch(packet, out);
        Ok(())
    }

    /// A whole job is the last completed snapshot, and all clients are told its point.
    fn complete(&mut self, job: Job, out: &mut Vec<Out>) -> Note
        requires whole { snapshots.is_whole job ≡ true }
        requires places { length job.parts ≡ length self.old.state.slots }
        requires spare { vec_len out.old + self.old.config.clients ≤ vec_capacity out.old }
        ensures state { self.new ≡ at_state self.old (model.completes self.old.config self.old.state
            (snapshots.completed job) job.sames).state }
        ensures out { out.new.items ≡ out.old.items ++ (model.completes self.old.config self.old.state
            (snapshots.completed job) job.sames).out }
        ensures notes { notes_of result self.new.state.last ≡ (model.completes self.old.config self.old.state
            (snapshots.completed job) job.sames).notes }
    {
        let same = job.sames();
        let snapshot = job.complete();
        let point = snapshot.point;
        self.job = None;
        self.last = snapshot;
        self.last_epoch = self.epoch;
        send_to_clients(self.config.clients, &Packet::Release { point }, out);
        Note::Completed { same }
    }

    /// The job goes on, or is complete.
    fn gather(&mut self, job: Job, out: &mut Vec<Out>) -> Note
        requires places { length job.parts ≡ length self.old.state.slots }
        requires spare { vec_len out.old + self.old.config.clients ≤ vec_capacity out.old }
        ensures state { self.new ≡ at_state self.old (model.job_turn self.old.config self.old.state job []).state }
        ensures out { out.new.items ≡ out.old.items ++ (model.job_turn self.old.config self.old.state job []).out }
        ensures notes { notes_of result self.new.state.last ≡
            (model.job_turn self.old.config self.old.state job []).notes }
    {
        if job.is_whole() {
            return self.complete(job, out);
        }
        self.job = Some(job);
        Note::Nothing
    }

    /// The job has begun: each slot without a part is read, or the job is complete.
    fn begin_reads(&mut self, job: Job, out: &mut Vec<Out>) -> Note
        requires places { length job.parts ≡ length self.old.state.slots }
        requires clients { vec_len out.old + self.old.config.clients ≤ vec_capacity out.old }
        requires slots { vec_len out.old + length self.old.state.slots ≤ vec_capacity out.old }
        ensures state { self.new ≡ at_state self.old (model.job_turn self.old.config self.old.state job
            (snapshots.part_reads self.old.state.epoch job.id 0 job.parts)).state }
        ensures out { out.new.items ≡ out.old.items ++ (model.job_turn self.old.config self.old.state job
            (snapshots.part_reads self.old.state.epoch job.id 0 job.parts)).out }
        ensures notes { notes_of result self.new.state.last ≡ (model.job_turn self.old.config self.old.state job
            (snapshots.part_reads self.old.state.epoch job.id 0 job.parts)).notes }
    {
        if job.is_whole() {
            return self.complete(job, out);
        }
        send_reads(self.epoch, &job, self.admission.count(), out);
        self.job = Some(job);
        Note::Nothing
    }

    /// The switch has begun a snapshot.
    pub(crate) fn snapshot_begun(
        &mut self,
        id: u32,
        point: u64,
        out: &mut Vec<Out>,
    ) -> Result<Note, Memory>
        ensures state { OnOk result (self.new ≡ at_state self.old
            (model.snapshot_begun self.old.config self.old.state id point self.old.state.job).state) }
        ensures out { OnOk result (out.new.items ≡ out.old.items ++
            (model.snapshot_begun self.old.config self.old.state id point self.old.state.job).out) }
        ensures notes { IfOk result (λ note. notes_of note self.new.state.last ≡
            (model.snapshot_begun self.old.config self.old.state id point self.old.state.job).notes) }
        ensures err { OnErr result (self.new ≡ self.old) }
        ensures err_out { OnErr result (out.new.items ≡ out.old.items) }
    {
        out.reserve(self.admission.count().max(self.config.clients) as usize)?;
        let Some(mut job) = self.job.take() else {
            return Ok(Note::Nothing);
        };
        if job.id() == id && !job.has_begun() {
            job.begun(point);
            return Ok(self.begin_reads(job, out));
        }
        self.job = Some(job);
        Ok(Note::Nothing)
    }

    /// The part of a slot.
    pub(crate) fn part_came(
        &mut self,
        id: u32,
        slot: u32,
        view: Option<Record>,
        out: &mut Vec<Out>,
    ) -> Result<Note, Memory>
        ensures state { OnOk result (self.new ≡ at_state self.old
            (model.part_came self.old.config self.old.state id slot view self.old.state.job).state) }
        ensures out { OnOk result (out.new.items ≡ out.old.items ++
            (model.part_came self.old.config self.old.state id slot view self.old.state.job).out) }
        ensures notes { IfOk result (λ note. notes_of note self.new.state.last ≡
            (model.part_came self.old.config self.old.state id slot view self.old.state.job).notes) }
        ensures err { OnErr result (self.new ≡ self.old) }
        ensures err_out { OnErr result (out.new.items ≡ out.old.items) }
    {
        out.reserve(self.config.clients as usize)?;
        let Some(mut job) = self.job.take() else {
            return Ok(Note::Nothing);
        };
        if job.id() == id && job.lacks(slot) {
            job.part(slot, view);
            return Ok(self.gather(job, out));
        }
        self.job = Some(job);
        Ok(Note::Nothing)
    }

    /// The part of a slot, which is what the last completed snapshot has of it.
    #[tactic(auto, using(crate::proofs::Sames::no_view, crate::proofs::Sames::with_view))]
    pub(crate) fn same_came(
        &mut self,
        id: u32,
        slot: u32,
        out: &mut Vec<Out>,
    ) -> Result<Note, Memory>
        ensures state { OnOk result (self.new ≡ at_state self.old
            (model.same_came self.old.config self.old.state id slot self.old.state.job).state) }
        ensures out { OnOk result (out.new.items ≡ out.old.items ++
            (model.same_came self.old.config self.old.state id slot self.old.state.job).out) }
        ensures notes { IfOk result (λ note. notes_of note self.new.state.last ≡
            (model.same_came self.old.config self.old.state id slot self.old.state.job).notes) }
        ensures err { OnErr result (self.new ≡ self.old) }
        ensures err_out { OnErr result (out.new.items ≡ out.old.items) }
    {
        out.reserve(self.config.clients as usize)?;
        if !self.has_view(slot) {
            return Ok(Note::Nothing);
        }
        Ok(self.add_same(id, slot, out))
    }

    fn add_same(&mut self, id: u32, slot: u32, out: &mut Vec<Out>) -> Note
        requires view { slot < length self.old.state.last.views }
        requires spare { vec_len out.old + self.old.config.clients ≤ vec_capacity out.old }
        ensures state { self.new ≡ at_state self.old (same_with self.old.config self.old.state id slot
            (slice_index_or self.old.state.last.views slot None) self.old.state.job).state }
        ensures out { out.new.items ≡ out.old.items ++ (same_with self.old.config self.old.state id slot
            (slice_index_or self.old.state.last.views slot None) self.old.state.job).out }
        ensures notes { notes_of result self.new.state.last ≡ (same_with self.old.config self.old.state id slot
            (slice_index_or self.old.state.last.views slot None) self.old.state.job).notes }
    {
        let Some(mut job) = self.job.take() else {
            return Note::Nothing;
        };
        if job.id() == id && job.lacks(slot) {
            job.same(slot, &self.last);
            return self.gather(job, out);
        }
        self.job = Some(job);
        Note::Nothing
    }

    /// Whether the last completed snapshot has a view of the slot.
    fn has_view(&self, slot: u32) -> bool
        ensures { result ≡ nat_lt slot (length self.now.state.last.views) }
    {
        (slot as usize) < self.last.views.len()
    }
}
