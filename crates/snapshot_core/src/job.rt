use crate::parts::Parts;
use crate::snapshot::Snapshot;
use far_base::{Memory, Record};
use std::alloc::Global;
use std::marker::Model;

/// A snapshot while its parts are gathered, one part of each slot. Contracts see the definition's job: its id, the
/// point at which it began, per slot the part that has come, and how many parts are those of the last snapshot.
#[derive(Drop)]
pub struct Job {
    id: u32,
    begun: Option<u64>,
    parts: Parts,
    sames: u32,
}

impl Model for Job {
    ghost use Rattle.far_model.specs.Snapshots.{Job as JobState};

    ghost Value = { JobState };

    ghost use Rattle.snapshot_core.specs.Parts.{AreSome};

    ghost view = { λ j. record { id = j.id; begun = j.begun; parts = j.parts; sames = j.sames } };

    ghost invariant = { λ j. AreSome j.sames j.parts };
}

ghost use Rattle.std.specs.Prelude.{◌≡◌, ◌<◌, length, true, false, Some, IfOk, nat_lt, not, ◌&&◌, slice_index_or, None};
ghost use Rattle.far_model.specs.Snapshots as model;

impl Job {
    /// A job that has not begun, without parts.
    pub fn new(alloc: Global, id: u32, slots: u32) -> Result<Self, Memory>
        ensures { IfOk result (λ job. job ≡ model.new_job id slots) }
    {
        Ok(Job {
            id,
            begun: None,
            parts: Parts::new(alloc, slots)?,
            sames: 0,
        })
    }

    /// The id given to `new`.
    pub fn id(&self) -> u32
        ensures { result ≡ self.now.id }
    {
        self.id
    }

    pub fn has_begun(&self) -> bool
        ensures { result ≡ model.has_begun self.now }
    {
        self.begun.is_some()
    }

    /// Whether the slot is there and has a part.
    pub fn has(&self, slot: u32) -> bool
        ensures { result ≡ model.has_part self.now slot }
    {
        self.parts.has(slot)
    }

    /// Whether the slot is there and has no part.
    pub fn lacks(&self, slot: u32) -> bool
        ensures { result ≡ (nat_lt slot (length self.now.parts) && not (model.has_part self.now slot)) }
    {
        self.parts.has_slot(slot) && !self.parts.has(slot)
    }

    /// How many parts were added by `same`.
    pub fn sames(&self) -> u32
        ensures { result ≡ self.now.sames }
    {
        self.sames
    }

    /// The switch has begun the snapshot at this version number.
    pub fn begun(&mut self, point: u64)
        requires { model.has_begun self.old ≡ false }
        ensures { self.new ≡ record self.old { begun = Some point } }
    {
        self.begun = Some(point);
    }

    /// The part of the slot: the record that it held when the snapshot began, or none.
    pub fn part(&mut self, slot: u32, view: Option<Record>)
        requires slot { slot < length self.old.parts }
        requires first { model.has_part self.old slot ≡ false }
        ensures { self.new ≡ model.with_part self.old slot view }
    {
        self.parts.put(slot, view);
    }

    /// The part of the slot is what the base has of it.
    pub fn same(&mut self, slot: u32, base: &Snapshot)
        requires slot { slot < length self.old.parts }
        requires first { model.has_part self.old slot ≡ false }
        requires base { slot < length base.now.views }
        ensures { self.new ≡ model.with_same self.old slot (slice_index_or base.now.views slot None) }
    {
        self.parts.put(slot, base.views[slot as usize]);
        self.sames += 1;
    }

    /// Whether it has begun and every slot has its part.
    pub fn is_whole(&self) -> bool
        ensures { result ≡ model.is_whole self.now }
    {
        self.begun.is_some() && self.parts.all()
    }

    /// The completed snapshot. It takes no memory.
    pub fn complete(self) -> Snapshot
        requires { model.is_whole self ≡ true }
        ensures { result ≡ model.completed self }
    {
        Snapshot {
            id: self.id,
            point: self.begun.unwrap_or(0),
            views: self.parts.into_views(),
        }
    }
}
