//! Snapshots, gathered by difference.

ghost use Rattle.std.specs.Prelude.{◌≡◌, ℕ, true, List, Option};
ghost use Rattle.far_base.specs.declared.event.Event.{Event};
ghost use Rattle.far_base.specs.declared.record.Record.{Record};
ghost use Rattle.far_model.specs.Events.{happens, is_enabled};
ghost use Rattle.far_model.specs.SnapshotAt.{IsSnapshotAt};
ghost use Rattle.far_invariants.specs.Always.{Always};
ghost use Rattle.far_invariants.specs.Past.{past_of};
ghost use Rattle.far_invariants.specs.SnapshotFlights.{SnapshotsInFlight};
ghost use Rattle.far_invariants.specs.SnapshotLaws.{CompletedIsStart, LogsSnapshots, MarksMatch, PartsAreStarts};
ghost use Rattle.far_invariants.specs.SnapshotLaws.{ReleasedIsCovered, StartCoversPoint};
ghost use Rattle.far_invariants.specs.Snapshots.{SnapshotsStand};

/// A completed snapshot is what all slots held at the one moment at which its start came, whatever packets, evictions
/// and admissions came between; and what a step logs of snapshots is the one that it completes.
pub fn snapshots_are_cuts()
    ensures completed { Always (λ plan events s. CompletedIsStart plan events s) }
    ensures one { Always (λ plan events s. (id : ℕ) (views other : List (Option Record)) (point own : ℕ)
        → IsSnapshotAt plan events id views point → IsSnapshotAt plan events id other own → (views ≡ other)
        × (point ≡ own)) }
    ensures logged { Always (λ plan events s. (e : Event) → is_enabled plan s e ≡ true
        → LogsSnapshots s (happens plan s e)) }
{}

/// While a snapshot is gathered: parts are what the slots held at its start, marks are those of the last completed one,
/// and absorbed numbers up to a point are covered by their servers or the snapshot of that point.
pub fn snapshots_are_gathered()
    ensures stand { Always (λ plan events s. SnapshotsStand true plan s (past_of plan events).starts) }
    ensures parts { Always (λ plan events s. PartsAreStarts plan s (past_of plan events).starts) }
    ensures marks { Always (λ plan events s. MarksMatch plan s (past_of plan events).starts) }
    ensures start { Always (λ plan events s. StartCoversPoint plan s (past_of plan events).starts) }
    ensures released { Always (λ plan events s. ReleasedIsCovered plan s (past_of plan events).starts) }
{}

/// All that a snapshot waits for is on its way: of each slot whose part was taken exactly one part is held or on its
/// way.
pub fn snapshots_are_served()
    ensures { Always (λ plan events s. SnapshotsInFlight plan s (past_of plan events).starts) }
{}
