//! Worked runs in which slots are freed.

ghost use Rattle.std.specs.Prelude.{◌≡◌};
ghost use Rattle.model_examples.specs.Example.{course_of, last_of, table_of, traffic_of};
ghost use Rattle.model_examples.specs.Evictions;
ghost use Rattle.model_examples.specs.EvictionsTraffic;

/// A write comes between the peek and the removal.
pub fn write_between()
    ensures table { table_of Evictions.write_between ≡ Evictions.write_between.table }
    ensures course { course_of Evictions.write_between ≡ Evictions.write_between.course }
    ensures last { last_of Evictions.write_between ≡ Evictions.write_between.table.map }
    ensures traffic { traffic_of Evictions.write_between ≡ EvictionsTraffic.write_between_traffic }
{}

/// A write comes before each of three removals, and the slot stays.
pub fn three_writes_between()
    ensures table { table_of Evictions.three_writes_between ≡ Evictions.three_writes_between.table }
    ensures course { course_of Evictions.three_writes_between ≡ Evictions.three_writes_between.course }
    ensures last { last_of Evictions.three_writes_between ≡ Evictions.three_writes_between.table.map }
{}

/// A delete is absorbed, evicted and read.
pub fn delete_is_evicted()
    ensures table { table_of Evictions.delete_is_evicted ≡ Evictions.delete_is_evicted.table }
    ensures course { course_of Evictions.delete_is_evicted ≡ Evictions.delete_is_evicted.course }
    ensures last { last_of Evictions.delete_is_evicted ≡ Evictions.delete_is_evicted.table.map }
{}

/// The hand goes round both slots, and evictions for a want and by an order are given up.
pub fn hand_goes_round()
    ensures table { table_of Evictions.hand_goes_round ≡ Evictions.hand_goes_round.table }
    ensures course { course_of Evictions.hand_goes_round ≡ Evictions.hand_goes_round.course }
    ensures last { last_of Evictions.hand_goes_round ≡ Evictions.hand_goes_round.table.map }
{}

/// Slots that are outdated are evicted before, between and after two snapshots.
pub fn outdated_slot_is_evicted()
    ensures table { table_of Evictions.outdated_slot_is_evicted ≡ Evictions.outdated_slot_is_evicted.table }
    ensures course { course_of Evictions.outdated_slot_is_evicted ≡ Evictions.outdated_slot_is_evicted.course }
    ensures last { last_of Evictions.outdated_slot_is_evicted ≡ Evictions.outdated_slot_is_evicted.table.map }
{}
