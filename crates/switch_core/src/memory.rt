//! Lists with one entry for each slot.

ghost use Rattle.std.specs.Prelude.{◌≡◌, IfOk, length, replicate};
ghost use Rattle.far_model.specs.View.{empty_slot};

use entry_state::Slot;
use std::alloc::{AllocError, Global};

pub(crate) fn filled<T: Copy>(alloc: Global, item: T, count: usize) -> Result<Vec<T>, AllocError>
    ensures { IfOk result (λ items. items.items ≡ replicate count item) }
{
    let mut items = Vec::with_capacity(alloc, count)?;
    for _ in 0..count {
        items.push_reserved(item);
    }
    Ok(items)
}

pub(crate) fn fill<T: Copy>(items: &mut [T], item: T)
    ensures { items.new ≡ replicate (length items.old) item }
{
    for place in items {
        *place = item;
    }
}

pub(crate) fn empty_slots(alloc: Global, count: usize) -> Result<Vec<Slot>, AllocError>
    ensures { IfOk result (λ slots. slots.items ≡ replicate count empty_slot) }
{
    let mut slots = Vec::with_capacity(alloc, count)?;
    for _ in 0..count {
        slots.push_reserved(Slot::empty());
    }
    Ok(slots)
}

pub(crate) fn set_empty(slots: &mut [Slot])
    ensures { slots.new ≡ replicate (length slots.old) empty_slot }
{
    for slot in slots {
        *slot = Slot::empty();
    }
}
