use crate::places::{
    any_held, count_free, first_free, first_that_holds, first_with_key, next_held,
};
use far_base::{Key, Memory, SlotState};
use std::alloc::{AllocError, Global};
use std::marker::Model;

/// What the controller knows of each slot, the tag of the next admission, and the hand: the slot from which on the next
/// victim is sought. Contracts see a list of states and two numbers.
#[derive(Drop)]
pub struct Admission {
    slots: Vec<SlotState>,
    /// The number of free slots.
    free: usize,
    next_tag: u64,
    hand: usize,
}

impl Model for Admission {
    ghost use Rattle.std.specs.Prelude.{◌≡◌, ◌≤◌, ◌<◌, ◌^◌, length};
    ghost use Rattle.admission.specs.AdmissionView.{AdmissionView, free_count};

    ghost Value = { AdmissionView };

    ghost view = { λ a. record { slots = a.slots.items; next_tag = a.next_tag; hand = a.hand } };

    ghost invariant = { λ a. (length a.slots.items < 2 ^ 32) × ((a.hand ≤ length a.slots.items)
        × (a.free ≡ free_count a.slots.items)) };
}

ghost use Rattle.std.specs.Prelude.{◌≡◌, ◌<◌, ◌≤◌, ◌+◌, ◌^◌, length, replicate, None, IsTrue, IfOk, IfSome, is_some};
ghost use Rattle.std.specs.Prelude.{not};
ghost use Rattle.std.specs.List.{list_any};
ghost use Rattle.far_base.specs.declared.slot_state.SlotState.TheVariants.{Free, Held};
ghost use Rattle.far_model.specs.Evictions as model;
ghost use Rattle.admission.specs.AdmissionView.{is_evicting, with_slot, admitted, acked, acked_slot, evicting_slot};
ghost use Rattle.admission.specs.AdmissionView.{passed, emptied, first_of};

/// So many free slots.
fn free_slots(alloc: Global, count: u32) -> Result<Vec<SlotState>, AllocError>
    ensures { IfOk result (λ slots. slots.items ≡ replicate count Free) }
{
    let mut slots = Vec::with_capacity(alloc, count as usize)?;
    for _ in 0..count {
        slots.push(SlotState::Free)?;
    }
    Ok(slots)
}

impl Admission {
    /// So many free slots, next tag 1 and hand 0.
    pub fn new(alloc: Global, slots: u32) -> Result<Self, Memory>
        ensures { IfOk result (λ a. a ≡ record { slots = replicate slots Free; next_tag = 1; hand = 0 }) }
    {
        Ok(Admission {
            slots: free_slots(alloc, slots)?,
            free: slots as usize,
            next_tag: 1,
            hand: 0,
        })
    }

    /// The slot is in that state.
    fn set(&mut self, slot: usize, state: SlotState)
        requires { slot < length self.old.slots }
        ensures { self.new ≡ with_slot self.old slot state }
    {
        self.free = self.free + count_free(&state) - count_free(&self.slots[slot]);
        self.slots[slot] = state;
    }

    /// The number of slots.
    pub fn count(&self) -> u32
        ensures { result ≡ length self.now.slots }
    {
        self.slots.len() as u32
    }

    /// The lowest free slot becomes admitting, with the key and the next tag, and is the answer with that tag. `None`
    /// exactly where no slot is free, and then nothing changes.
    pub fn next_admit(&mut self, key: Key) -> Option<(u32, u64)>
        requires { self.old.next_tag + 1 < 2 ^ 64 }
        ensures place { model.first_place model.is_free self.old.slots ≡ first_of result }
        ensures tag { IfSome result (λ pair. pair.1 ≡ self.old.next_tag) }
        ensures admitted { IfSome result (λ pair. self.new ≡ admitted self.old key pair.0) }
        ensures none { result ≡ None → self.new ≡ self.old }
    {
        if !self.has_free() {
            return None;
        }
        let slot = first_free(&self.slots)?;
        let tag = self.next_tag;
        self.set(slot, SlotState::Admitting { key, tag });
        self.next_tag += 1;
        Some((slot as u32, tag))
    }

    /// The slot, where it is admitting with that tag, becomes held, and its key is the answer; else `None`, and nothing
    /// changes.
    pub fn acked(&mut self, slot: u32, tag: u64) -> Option<Key>
        ensures found { is_some result ≡ model.is_admitting tag (model.state_at self.old.slots slot) }
        ensures key { IfSome result (λ key. key ≡ model.key_in (model.state_at self.old.slots slot)) }
        ensures state { self.new ≡ acked self.old slot tag }
    {
        let at = slot as usize;
        match self.slots.get(at).copied()? {
            SlotState::Admitting { key, tag: own } if own == tag => {
                self.set(at, SlotState::Held { key, tag });
                Some(key)
            }
            _ => None,
        }
    }

    /// The first slot that is not free and has the key.
    pub fn holds(&self, key: &Key) -> Option<u32>
        ensures { result ≡ model.first_place (model.has_key key.now) self.now.slots }
    {
        Some(first_with_key(&self.slots, key)? as u32)
    }

    /// The first slot that is held and has the key.
    pub fn held(&self, key: &Key) -> Option<u32>
        ensures place { result ≡ model.first_place (model.holds_key key.now) self.now.slots }
        ensures held { IfSome result (λ slot. IsTrue (model.is_held (model.state_at self.now.slots slot))) }
    {
        Some(first_that_holds(&self.slots, key)? as u32)
    }

    /// The state of the slot, which is below the number of slots.
    pub fn state(&self, slot: u32) -> SlotState
        requires { slot < length self.now.slots }
        ensures { result ≡ model.state_at self.now.slots slot }
    {
        self.slots[slot as usize]
    }

    /// Whether a slot is free.
    pub fn has_free(&self) -> bool
        ensures { result ≡ is_some (model.first_place model.is_free self.now.slots) }
    {
        self.free != 0
    }

    /// Whether a slot is held.
    #[tactic(auto, using(crate::proofs::Found::some_victim))]
    pub fn has_held(&self) -> bool
        ensures { result ≡ is_some (model.victim self.now.hand self.now.slots) }
    {
        any_held(&self.slots)
    }

    /// The first held slot from the hand on, going round. The hand then stands after it, and after the last slot at 0
    /// again. `None` exactly where no slot is held, and then nothing changes.
    pub fn victim(&mut self) -> Option<u32>
        ensures place { result ≡ model.victim self.old.hand self.old.slots }
        ensures state { self.new ≡ passed self.old result }
        ensures held { IfSome result (λ slot. IsTrue (model.is_held (model.state_at self.old.slots slot))) }
    {
        let slot = next_held(&self.slots, self.hand)?;
        self.hand = if slot + 1 == self.slots.len() {
            0
        } else {
            slot + 1
        };
        Some(slot as u32)
    }

    /// A held slot becomes evicting, with the key and the tag that it has.
    pub fn evicting(&mut self, slot: u32)
        requires { IsTrue (model.is_held (model.state_at self.old.slots slot)) }
        ensures { self.new ≡ evicting_slot self.old slot }
    {
        if let SlotState::Held { key, tag } = self.slots[slot as usize] {
            self.set(slot as usize, SlotState::Evicting { key, tag });
        }
    }

    /// An evicting slot becomes free.
    pub fn freed(&mut self, slot: u32)
        requires { IsTrue (is_evicting (model.state_at self.old.slots slot)) }
        ensures { self.new ≡ with_slot self.old slot Free }
    {
        self.set(slot as usize, SlotState::Free);
    }

    /// An evicting slot becomes held, with the key and the tag that it has.
    pub fn kept(&mut self, slot: u32)
        requires { IsTrue (is_evicting (model.state_at self.old.slots slot)) }
        ensures { self.new ≡ acked_slot self.old slot }
    {
        if let SlotState::Evicting { key, tag } = self.slots[slot as usize] {
            self.set(slot as usize, SlotState::Held { key, tag });
        }
    }

    /// All slots are free and the hand stands at 0; the next tag stays.
    pub fn clear(&mut self)
        ensures { self.new ≡ emptied self.old }
    {
        self.slots.fill(SlotState::Free);
        self.free = self.slots.len();
        self.hand = 0;
    }
}
