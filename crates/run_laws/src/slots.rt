//! Slots, their owners, and admissions on their way.

ghost use Rattle.far_invariants.specs.Slots.{SlotsAreOwned, AdmissionsInFlight};
ghost use Rattle.std.specs.Prelude.{◌≡◌, true};
ghost use Rattle.far_invariants.specs.Always.{Always, AlwaysWith};
ghost use Rattle.far_invariants.specs.DrawnTags.{SlotTagsAreDrawn, TagsAreDrawn};
ghost use Rattle.far_invariants.specs.Evictions.{EvictionsAre, anything};
ghost use Rattle.far_invariants.specs.Past.{past_of};
ghost use Rattle.far_invariants.specs.Seated.{Seated};
ghost use Rattle.far_invariants.specs.SlotMatch.{KeysHaveOneSlot, SlotsMatch};

/// A valid slot is owned by its key under its tag, a key has at most one, and each slot that is being admitted has
/// its one packet on its way; slots match the controller's states of them exactly; each tag was drawn once.
pub fn slots_are_owned()
    ensures seated { Always (λ plan events s. Seated plan s) }
    ensures owned { Always (λ plan events s. s.running ≡ true → SlotsAreOwned plan s) }
    ensures admissions { Always (λ plan events s. s.running ≡ true → AdmissionsInFlight s) }
    ensures exact { Always (λ plan events s. SlotsMatch s) }
    ensures keys { Always (λ plan events s. KeysHaveOneSlot s) }
    ensures tags { Always (λ plan events s. TagsAreDrawn s (past_of plan events).drawn) }
    ensures slot_tags { Always (λ plan events s. SlotTagsAreDrawn s (past_of plan events).drawn) }
{}

/// Whatever keepers answer, slots, admissions and evictions are as they should be.
pub fn slots_stand_with_any_keeper()
    ensures seated { AlwaysWith (λ plan ceiling s. Seated plan s) }
    ensures evictions { AlwaysWith (λ plan ceiling s. EvictionsAre plan anything s) }
{}
