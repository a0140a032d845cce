//! Worked runs without slots.

ghost use Rattle.std.specs.Prelude.{◌≡◌};
ghost use Rattle.far_model.specs.History.{IsLegal};
ghost use Rattle.model_examples.specs.Example.{course_of, last_of, log_of, table_of, traffic_of};
ghost use Rattle.model_examples.specs.Plain;
ghost use Rattle.model_examples.specs.PlainTraffic;
ghost use Rattle.model_laws.specs.Placing.{history_of};

/// Nothing is to be done.
pub fn nothing_to_do()
    ensures table { table_of Plain.nothing_to_do ≡ Plain.nothing_to_do.table }
    ensures course { course_of Plain.nothing_to_do ≡ Plain.nothing_to_do.course }
    ensures last { last_of Plain.nothing_to_do ≡ Plain.nothing_to_do.table.map }
{}

/// A put and a get of one key.
pub fn put_and_get()
    ensures table { table_of Plain.put_and_get ≡ Plain.put_and_get.table }
    ensures course { course_of Plain.put_and_get ≡ Plain.put_and_get.course }
    ensures last { last_of Plain.put_and_get ≡ Plain.put_and_get.table.map }
    ensures legal { IsLegal (log_of Plain.put_and_get) (history_of (log_of Plain.put_and_get)) }
    ensures traffic { traffic_of Plain.put_and_get ≡ PlainTraffic.put_and_get_traffic }
{}

/// A read of a key that was never written.
pub fn never_written()
    ensures table { table_of Plain.never_written ≡ Plain.never_written.table }
    ensures course { course_of Plain.never_written ≡ Plain.never_written.course }
    ensures last { last_of Plain.never_written ≡ Plain.never_written.table.map }
{}

/// The second put reaches the server first.
pub fn writes_overtake()
    ensures table { table_of Plain.writes_overtake ≡ Plain.writes_overtake.table }
    ensures course { course_of Plain.writes_overtake ≡ Plain.writes_overtake.course }
    ensures last { last_of Plain.writes_overtake ≡ Plain.writes_overtake.table.map }
    ensures traffic { traffic_of Plain.writes_overtake ≡ PlainTraffic.writes_overtake_traffic }
{}
