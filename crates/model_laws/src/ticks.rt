//! The cases of a tick: each is what the tick does, and where none fits there is no tick.

ghost use Rattle.std.specs.Prelude.{◌≡◌, ◌↔◌, ℕ, true, List, None, Some};
ghost use Rattle.far_base.specs.declared.slot_state.SlotState.{SlotState};
ghost use Rattle.far_model.specs.Controller.{ControllerState, admits_want, first_want_dropped, makes_room, tick};
ghost use Rattle.far_model.specs.Evictions.{has_key, is_free};
ghost use Rattle.far_model.specs.Members.{Among};
ghost use Rattle.far_model.specs.Parties.{idle};
ghost use Rattle.model_laws.specs.Ticks.{HasNoTick, HasWant, IsFirst, IsVictim, NonePasses};

/// A want whose key a slot has is dropped.
pub fn wants_with_slots_are_dropped()
    ensures { (c : ControllerState) (key : List ℕ) (slot : SlotState)
        → HasWant c key → Among slot c.slots → has_key key slot ≡ true → tick c ≡ Some (idle (first_want_dropped c)) }
{}

/// Another want gets the lowest free slot.
pub fn wants_get_free_slots()
    ensures { (c : ControllerState) (key : List ℕ) (i : ℕ)
        → HasWant c key → NonePasses (has_key key) c.slots → IsFirst is_free c.slots i
        → tick c ≡ Some (admits_want c key i) }
{}

/// Where no slot is free and no eviction is under way, the held slot that comes first from the hand on makes room.
pub fn victims_make_room()
    ensures { (c : ControllerState) (key : List ℕ) (i : ℕ)
        → HasWant c key → NonePasses (has_key key) c.slots → NonePasses is_free c.slots → c.eviction ≡ None
        → IsVictim c.hand c.slots i → tick c ≡ Some (makes_room c i) }
{}

/// There is no tick exactly in a round, without a want, and where no slot is free and either an eviction is under way
/// or no slot is held.
pub fn ticks_are_absent()
    ensures { (c : ControllerState) → tick c ≡ None ↔ HasNoTick c }
{}
