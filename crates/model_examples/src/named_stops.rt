//! Worked runs in which the switch stops at a packet of a named kind.

ghost use Rattle.std.specs.Prelude.{◌≡◌};
ghost use Rattle.model_examples.specs.Example.{course_of, last_of, table_of};
ghost use Rattle.model_examples.specs.NamedStops;

/// The switch stops once a write has come to it.
pub fn stop_at_write()
    ensures table { table_of NamedStops.stop_at_write ≡ NamedStops.stop_at_write.table }
    ensures course { course_of NamedStops.stop_at_write ≡ NamedStops.stop_at_write.course }
    ensures last { last_of NamedStops.stop_at_write ≡ NamedStops.stop_at_write.table.map }
{}

/// The named packet never comes: the switch stops where nothing else can happen, and the other orders follow.
pub fn stop_at_no_peek()
    ensures table { table_of NamedStops.stop_at_no_peek ≡ NamedStops.stop_at_no_peek.table }
    ensures course { course_of NamedStops.stop_at_no_peek ≡ NamedStops.stop_at_no_peek.course }
    ensures last { last_of NamedStops.stop_at_no_peek ≡ NamedStops.stop_at_no_peek.table.map }
{}

/// The switch stops once three writes have come to it.
pub fn stop_at_third_write()
    ensures table { table_of NamedStops.stop_at_third_write ≡ NamedStops.stop_at_third_write.table }
    ensures course { course_of NamedStops.stop_at_third_write ≡ NamedStops.stop_at_third_write.course }
{}

/// What has come to the switch outlives a stop: the second is due by a write that came before the first.
pub fn stop_after_restart()
    ensures table { table_of NamedStops.stop_after_restart ≡ NamedStops.stop_after_restart.table }
    ensures course { course_of NamedStops.stop_after_restart ≡ NamedStops.stop_after_restart.course }
    ensures last { last_of NamedStops.stop_after_restart ≡ NamedStops.stop_after_restart.table.map }
{}

/// The start of a snapshot by difference counts as a start: the switch stops at the second.
pub fn stop_at_second_start()
    ensures table { table_of NamedStops.stop_at_second_start ≡ NamedStops.stop_at_second_start.table }
    ensures course { course_of NamedStops.stop_at_second_start ≡ NamedStops.stop_at_second_start.course }
    ensures last { last_of NamedStops.stop_at_second_start ≡ NamedStops.stop_at_second_start.table.map }
{}

/// An admission of the first epoch, which the switch drops, counts.
pub fn stop_at_dropped()
    ensures table { table_of NamedStops.stop_at_dropped ≡ NamedStops.stop_at_dropped.table }
    ensures course { course_of NamedStops.stop_at_dropped ≡ NamedStops.stop_at_dropped.course }
    ensures last { last_of NamedStops.stop_at_dropped ≡ NamedStops.stop_at_dropped.table.map }
{}

/// Two stops are due by one write: the second waits until the switch runs again.
pub fn stop_twice_at_write()
    ensures table { table_of NamedStops.stop_twice_at_write ≡ NamedStops.stop_twice_at_write.table }
    ensures course { course_of NamedStops.stop_twice_at_write ≡ NamedStops.stop_twice_at_write.course }
    ensures last { last_of NamedStops.stop_twice_at_write ≡ NamedStops.stop_twice_at_write.table.map }
{}

/// The switch stops at the first packet of each kind that belongs to an operation.
pub fn stop_at_requests()
    ensures table { table_of NamedStops.stop_at_requests ≡ NamedStops.stop_at_requests.table }
    ensures course { course_of NamedStops.stop_at_requests ≡ NamedStops.stop_at_requests.course }
    ensures last { last_of NamedStops.stop_at_requests ≡ NamedStops.stop_at_requests.table.map }
{}

/// The switch stops at a packet of each kind that the controller sends.
pub fn stop_at_control()
    ensures table { table_of NamedStops.stop_at_control ≡ NamedStops.stop_at_control.table }
    ensures course { course_of NamedStops.stop_at_control ≡ NamedStops.stop_at_control.course }
    ensures last { last_of NamedStops.stop_at_control ≡ NamedStops.stop_at_control.table.map }
{}
