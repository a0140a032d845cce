//! Lists of records.

ghost use Rattle.std.specs.Prelude.{◌≡◌, List};
ghost use Rattle.far_base.specs.declared.record.Record.{Record};
ghost use Rattle.far_model.specs.History.{Agree, IsNewestPerKey};

/// Records that agree have one list of the newest per key.
pub fn newest_is_one()
    ensures { (records first second : List Record)
        → Agree records → IsNewestPerKey records first → IsNewestPerKey records second → first ≡ second }
{}
