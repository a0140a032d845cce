ghost use Rattle.std.specs.Prelude.{◌≡◌, ◌<◌, ◌≤◌, length, IfSome, IsTrue};
ghost use Rattle.std.specs.List.{list_any};
ghost use Rattle.far_model.specs.Evictions as model;
ghost use Rattle.admission.specs.AdmissionView.{free_in};

use far_base::{Key, SlotState};

fn is_free(state: &SlotState) -> bool
    ensures { result ≡ model.is_free state.now }
{
    matches!(state, SlotState::Free)
}

/// 1 where the slot is free, and else 0.
pub(crate) fn count_free(state: &SlotState) -> usize
    ensures count { result ≡ free_in state.now }
    ensures bound { result ≤ 1 }
{
    if is_free(state) { 1 } else { 0 }
}

fn is_held(state: &SlotState) -> bool
    ensures { result ≡ model.is_held state.now }
{
    matches!(state, SlotState::Held { .. })
}

/// Whether the slot is not free and has the key.
fn has_key(state: &SlotState, key: &Key) -> bool
    ensures { result ≡ model.has_key key.now state.now }
{
    match state {
        SlotState::Free => false,
        SlotState::Admitting { key: other, .. }
        | SlotState::Held { key: other, .. }
        | SlotState::Evicting { key: other, .. } => other == key,
    }
}

/// Whether the slot is held and has the key.
fn holds_key(state: &SlotState, key: &Key) -> bool
    ensures { result ≡ model.holds_key key.now state.now }
{
    match state {
        SlotState::Held { key: other, .. } => other == key,
        _ => false,
    }
}

pub(crate) fn first_free(slots: &[SlotState]) -> Option<usize>
    ensures place { result ≡ model.first_place model.is_free slots.now }
    ensures within { IfSome result (λ i. i < length slots.now) }
{
    slots.iter().position(is_free)
}

fn first_held(slots: &[SlotState]) -> Option<usize>
    ensures place { result ≡ model.first_place model.is_held slots.now }
    ensures within { IfSome result (λ i. i < length slots.now) }
{
    slots.iter().position(|state| is_held(state))
}

pub(crate) fn first_with_key(slots: &[SlotState], key: &Key) -> Option<usize>
    ensures place { result ≡ model.first_place (model.has_key key.now) slots.now }
    ensures within { IfSome result (λ i. i < length slots.now) }
{
    slots.iter().position(|state| has_key(state, key))
}

fn place_that_holds(slots: &[SlotState], key: &Key) -> Option<usize>
    ensures place { result ≡ model.first_place (model.holds_key key.now) slots.now }
    ensures within { IfSome result (λ i. i < length slots.now) }
{
    slots.iter().position(|state| holds_key(state, key))
}

/// The first slot that is held and has the key.
pub(crate) fn first_that_holds(slots: &[SlotState], key: &Key) -> Option<usize>
    ensures place { result ≡ model.first_place (model.holds_key key.now) slots.now }
    ensures within { IfSome result (λ i. i < length slots.now) }
    ensures held { IfSome result (λ i. IsTrue (model.is_held (model.state_at slots.now i))) }
{
    place_that_holds(slots, key)
}

pub(crate) fn any_held(slots: &[SlotState]) -> bool
    ensures { result ≡ list_any model.is_held slots.now }
{
    slots.iter().any(is_held)
}

/// The first held slot from the hand on, going round.
pub(crate) fn next_held(slots: &[SlotState], hand: usize) -> Option<usize>
    requires { hand ≤ length slots.now }
    ensures place { result ≡ model.victim hand slots.now }
    ensures within { IfSome result (λ i. i < length slots.now) }
    ensures held { IfSome result (λ i. IsTrue (model.is_held (model.state_at slots.now i))) }
{
    match first_held(&slots[hand..]) {
        Some(ahead) => Some(hand + ahead),
        None => first_held(&slots[..hand]),
    }
}
