//! What a pass changes, and when a part of a snapshot leaves.

ghost use Rattle.std.specs.Prelude.{◌≡◌, ◌≢◌, ℕ, ◌<◌, true, false, ◌++◌, length, Some};
ghost use Rattle.far_base.specs.declared.packet.Packet.{Packet};
ghost use Rattle.far_model.specs.Pass.{pass, passed_out};
ghost use Rattle.far_model.specs.View.{SwitchView, held_record, is_taken, mark_of, shown_at, slot_at};
ghost use Rattle.model_laws.specs.Passes.{ChangesItsOwn, FreeIsOutdated};
ghost use Rattle.model_laws.specs.Passes.{asked_place, changed_place, part_due, parts_in};

/// A packet changes only what its row of the table names; the slots that it does not concern stay.
pub fn passes_change_their_own()
    ensures { (v : SwitchView) (packet : Packet) → ChangesItsOwn v packet (pass v packet).view }
{}

/// A part leaves exactly where a slot's part was not taken and the pass sets or takes away its record, or the part is
/// asked for: it is what the slot held before, and from then on it is taken, with the mark of that. The records of
/// other slots stay.
pub fn parts_leave_at_first_changes()
    ensures parts { (v : SwitchView) (packet : Packet)
        → parts_in (passed_out (pass v packet))
        ≡ part_due v (changed_place v packet) ++ part_due v (asked_place v packet) }
    ensures changed { (v : SwitchView) (packet : Packet) (i : ℕ)
        → changed_place v packet ≡ Some i → i < length v.taken → is_taken (pass v packet).view i ≡ true }
    ensures asked { (v : SwitchView) (packet : Packet) (i : ℕ)
        → asked_place v packet ≡ Some i → i < length v.taken → is_taken (pass v packet).view i ≡ true }
    ensures changed_mark { (v : SwitchView) (packet : Packet) (i : ℕ)
        → changed_place v packet ≡ Some i → is_taken v i ≡ false → i < length v.shown
        → shown_at (pass v packet).view i ≡ mark_of (held_record (slot_at v i)) }
    ensures asked_mark { (v : SwitchView) (packet : Packet) (i : ℕ)
        → asked_place v packet ≡ Some i → is_taken v i ≡ false → i < length v.shown
        → shown_at (pass v packet).view i ≡ mark_of (held_record (slot_at v i)) }
    ensures records { (v : SwitchView) (packet : Packet) (i : ℕ)
        → FreeIsOutdated v → changed_place v packet ≢ Some i
        → held_record (slot_at (pass v packet).view i) ≡ held_record (slot_at v i) }
{}
