//! Worked runs in which the switch loses its memory.

ghost use Rattle.std.specs.Prelude.{◌≡◌};
ghost use Rattle.model_examples.specs.Example.{course_of, last_of, table_of, traffic_of};
ghost use Rattle.model_examples.specs.Stops;
ghost use Rattle.model_examples.specs.StopsTraffic;

/// A release overtakes the answer of a write up to its point.
pub fn release_overtakes()
    ensures table { table_of Stops.release_overtakes ≡ Stops.release_overtakes.table }
    ensures course { course_of Stops.release_overtakes ≡ Stops.release_overtakes.course }
    ensures last { last_of Stops.release_overtakes ≡ Stops.release_overtakes.table.map }
{}

/// The switch stops while the answer of a write that another client has read is on its way.
pub fn stop_with_answer()
    ensures table { table_of Stops.stop_with_answer ≡ Stops.stop_with_answer.table }
    ensures course { course_of Stops.stop_with_answer ≡ Stops.stop_with_answer.course }
    ensures last { last_of Stops.stop_with_answer ≡ Stops.stop_with_answer.table.map }
{}

/// The switch stops in the middle of the second snapshot.
pub fn stop_in_snapshot()
    ensures table { table_of Stops.stop_in_snapshot ≡ Stops.stop_in_snapshot.table }
    ensures course { course_of Stops.stop_in_snapshot ≡ Stops.stop_in_snapshot.course }
    ensures last { last_of Stops.stop_in_snapshot ≡ Stops.stop_in_snapshot.table.map }
    ensures traffic { traffic_of Stops.stop_in_snapshot ≡ StopsTraffic.stop_in_snapshot_traffic }
{}

/// The switch stops twice, and an admission of the first epoch arrives after the first restart.
pub fn two_stops()
    ensures table { table_of Stops.two_stops ≡ Stops.two_stops.table }
    ensures course { course_of Stops.two_stops ≡ Stops.two_stops.course }
    ensures last { last_of Stops.two_stops ≡ Stops.two_stops.table.map }
{}

/// After a stop the next snapshot is not by difference, and the one after it is; the second round has the next number.
pub fn stop_between_snapshots()
    ensures table { table_of Stops.stop_between_snapshots ≡ Stops.stop_between_snapshots.table }
    ensures course { course_of Stops.stop_between_snapshots ≡ Stops.stop_between_snapshots.course }
    ensures last { last_of Stops.stop_between_snapshots ≡ Stops.stop_between_snapshots.table.map }
    ensures traffic { traffic_of Stops.stop_between_snapshots ≡ StopsTraffic.stop_between_snapshots_traffic }
{}

/// Three clients tell several records each, in parts that overtake each other.
pub fn records_told_in_parts()
    ensures table { table_of Stops.records_told_in_parts ≡ Stops.records_told_in_parts.table }
    ensures course { course_of Stops.records_told_in_parts ≡ Stops.records_told_in_parts.course }
    ensures traffic { traffic_of Stops.records_told_in_parts ≡ StopsTraffic.records_told_in_parts_traffic }
{}

/// The store of an eviction that a stop cut off is answered while a round is under way.
pub fn late_store_in_round()
    ensures table { table_of Stops.late_store_in_round ≡ Stops.late_store_in_round.table }
    ensures course { course_of Stops.late_store_in_round ≡ Stops.late_store_in_round.course }
    ensures last { last_of Stops.late_store_in_round ≡ Stops.late_store_in_round.table.map }
{}

/// A removal and a store of evictions that stops cut off come to the next epochs.
pub fn late_removal_and_store()
    ensures table { table_of Stops.late_removal_and_store ≡ Stops.late_removal_and_store.table }
    ensures course { course_of Stops.late_removal_and_store ≡ Stops.late_removal_and_store.course }
    ensures last { last_of Stops.late_removal_and_store ≡ Stops.late_removal_and_store.table.map }
{}

/// Orders whose steps have come wait until they are possible.
pub fn orders_before_their_time()
    ensures table { table_of Stops.orders_before_their_time ≡ Stops.orders_before_their_time.table }
    ensures course { course_of Stops.orders_before_their_time ≡ Stops.orders_before_their_time.course }
{}
