use far_base::{Memory, Record};
use std::alloc::Global;
use std::marker::Model;

/// Per slot whether its part has come, and the part. Contracts see per slot the part, where it has come.
#[derive(Drop)]
pub(crate) struct Parts {
    come: Vec<bool>,
    views: Vec<Option<Record>>,
    missing: u32,
}

impl Model for Parts {
    ghost use Rattle.std.specs.Prelude.{List, Option};
    ghost use Rattle.far_base.specs.declared.record.Record.{Record};
    ghost use Rattle.snapshot_core.specs.Parts.{parts_of, IsCounted};

    ghost Value = { List (Option (Option Record)) };

    ghost view = { λ p. parts_of p.come.items p.views.items };

    ghost invariant = { λ p. IsCounted p.come.items p.views.items p.missing };
}

ghost use Rattle.std.specs.Prelude.{◌≡◌, ◌<◌, ◌^◌, length, map, replicate, true, false, Some, None, IfOk, nat_lt};
ghost use Rattle.std.specs.Prelude.{is_some, slice_index_or, slice_set};
ghost use Rattle.std.specs.List.{list_all};
ghost use Rattle.far_model.specs.Snapshots.{view_in};

impl Parts {
    /// No parts of so many slots.
    pub(crate) fn new(alloc: Global, slots: u32) -> Result<Self, Memory>
        ensures { IfOk result (λ parts. parts ≡ replicate slots None) }
    {
        Ok(Parts {
            come: vec![in alloc; false; slots as usize]?,
            views: vec![in alloc; None; slots as usize]?,
            missing: slots,
        })
    }

    pub(crate) fn has_slot(&self, slot: u32) -> bool
        ensures { result ≡ nat_lt slot (length self.now) }
    {
        (slot as usize) < self.come.len()
    }

    /// Whether the slot is there and has a part.
    pub(crate) fn has(&self, slot: u32) -> bool
        ensures { result ≡ is_some (slice_index_or self.now slot None) }
    {
        self.come.get(slot as usize).copied().unwrap_or(false)
    }

    /// The first part of the slot.
    pub(crate) fn put(&mut self, slot: u32, view: Option<Record>)
        requires slot { slot < length self.old }
        requires first { is_some (slice_index_or self.old slot None) ≡ false }
        ensures { self.new ≡ slice_set self.old slot (Some view) }
    {
        self.come[slot as usize] = true;
        self.views[slot as usize] = view;
        self.missing -= 1;
    }

    /// Whether every slot has its part.
    pub(crate) fn all(&self) -> bool
        ensures { result ≡ list_all is_some self.now }
    {
        self.missing == 0
    }

    /// The parts, once all are there. It takes no memory.
    pub(crate) fn into_views(self) -> Vec<Option<Record>>
        requires { list_all is_some self ≡ true }
        ensures { result.items ≡ map view_in self }
    {
        self.views
    }
}
