//! Nothing unwritten appears anywhere.

ghost use Rattle.std.specs.Prelude.{◌≡◌};
ghost use Rattle.far_base.specs.declared.record.Record.{Record};
ghost use Rattle.far_invariants.specs.Always.{Always};
ghost use Rattle.far_invariants.specs.Records.{IsRecord, RecordsEverywhere};
ghost use Rattle.far_model.specs.History.{Agree};
ghost use Rattle.far_model.specs.Kept.{kept_records, records_in};
ghost use Rattle.far_model.specs.Members.{Each};
ghost use Rattle.run_laws.specs.KeptItems.{IsKeptItem};

/// Every record that a state holds in a slot, a message, at a server, in a snapshot or preserved by a client is that
/// of a write, and records of one key and number have one body.
pub fn records_are_written()
    ensures everywhere { Always (λ plan events s. RecordsEverywhere plan s) }
    ensures agree { Always (λ plan events s. (r q : Record) → IsRecord plan s r → IsRecord plan s q
        → r.key ≡ q.key → r.num ≡ q.num → r.body ≡ q.body) }
{}

/// What would be kept across a stop of the switch was written, under numbers below 2 to the 28, and at clients of the
/// plan; records of one key and number have one body.
pub fn kept_lists_are_written()
    ensures items { Always (λ plan events s. Each (IsKeptItem plan s) (kept_records s)) }
    ensures agree { Always (λ plan events s. Agree (records_in (kept_records s))) }
{}
