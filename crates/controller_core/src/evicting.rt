use far_base::{Body, Due, Key, Packet};
use safe_evict::{Evict, Next};
use std::marker::Model;

/// The eviction that is under way: whether the slot is freed for a want, and the job of its last store. Contracts see
/// the definition's eviction.
#[derive(Drop)]
pub(crate) struct Evicting {
    evict: Evict,
    for_want: bool,
    job: u64,
}

impl Model for Evicting {
    ghost use Rattle.far_model.specs.Evictions.{Eviction};
    ghost use Rattle.safe_evict.specs.EvictView.{eviction_of};

    ghost Value = { Eviction };

    ghost view = { λ e. eviction_of e.evict e.for_want e.job };
}

ghost use Rattle.std.specs.Prelude.{◌≡◌, ℕ, Some, None, is_some, IfSome, if◌then◌else◌};
ghost use Rattle.far_base.specs.declared.slot_state.Due.TheVariants as due;
ghost use Rattle.far_model.specs.Evictions as model;
ghost use Rattle.safe_evict.specs.EvictView.{next_of};
ghost use Rattle.controller_core.specs.Going.{gone_on_if};

impl Evicting {
    /// An eviction that has just begun, and the look at the slot, which is to be sent.
    pub(crate) fn begin(
        epoch: u32,
        slot: u32,
        key: Key,
        tag: u64,
        for_want: bool,
    ) -> (Evicting, Packet)
        ensures eviction { result.0 ≡ model.begins_eviction epoch slot key tag for_want }
        ensures packet { result.1 ≡ model.peek_of (model.begins_eviction epoch slot key tag for_want) }
    {
        let (evict, packet) = Evict::begin(epoch, slot, key, tag);
        let eviction = Evicting {
            evict,
            for_want,
            job: 0,
        };
        (eviction, packet)
    }

    pub(crate) fn slot(&self) -> u32
        ensures { result ≡ self.now.slot }
    {
        self.evict.slot()
    }

    pub(crate) fn key(&self) -> Key
        ensures { result ≡ self.now.key }
    {
        self.evict.key()
    }

    pub(crate) fn is_for_want(&self) -> bool
        ensures { result ≡ self.now.for_want }
    {
        self.for_want
    }

    /// The record is stored under this job.
    pub(crate) fn set_job(&mut self, job: u64)
        ensures { self.new ≡ record self.old { job = job } }
    {
        self.job = job;
    }

    /// The answer to a look at a slot, where the eviction waits for it.
    #[tactic(auto, using(crate::proofs::Dues::waits_due))]
    pub(crate) fn peek_came(
        &mut self,
        slot: u32,
        tag: u64,
        latest: bool,
        num: u64,
        body: Body,
    ) -> Option<Next>
        ensures waits { is_some result ≡ model.waits_for due.Peeked slot tag self.old }
        ensures next { IfSome result (λ next. next_of next ≡ model.after_peek self.old latest num body) }
        ensures state { self.new ≡ gone_on_if self.old result }
    {
        if !self.evict.waits_for(Due::Peeked, slot, tag) {
            return None;
        }
        Some(self.evict.peeked(latest, num, body))
    }

    /// The answer to a removal of a slot, where the eviction waits for it.
    #[tactic(auto, using(crate::proofs::Dues::waits_due))]
    pub(crate) fn removal_came(
        &mut self,
        slot: u32,
        tag: u64,
        done: bool,
        latest: bool,
        num: u64,
        body: Body,
    ) -> Option<Next>
        ensures waits { is_some result ≡ model.waits_for due.Removed slot tag self.old }
        ensures next { IfSome result (λ next. next_of next ≡ model.after_removal self.old done num body) }
        ensures state { self.new ≡ gone_on_if self.old result }
    {
        if !self.evict.waits_for(Due::Removed, slot, tag) {
            return None;
        }
        Some(self.evict.removed(done, latest, num, body))
    }

    /// The answer to a store, where the eviction waits for it: the removal, which is to be sent.
    pub(crate) fn store_came(&mut self, job: u64) -> Option<Packet>
        ensures waits { is_some result ≡ model.waits_job job self.old }
        ensures packet { IfSome result (λ packet. packet ≡ model.after_store self.old) }
        ensures state { self.new ≡ (if is_some result then model.removing self.old else self.old) }
    {
        if self.evict.due() == Due::Stored && self.job == job {
            return Some(self.evict.stored());
        }
        None
    }
}
