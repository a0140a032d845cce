use far_base::Key;
use std::marker::Model;

/// What is remembered of a record: its key and number.
#[derive(Clone, Copy, Debug, PartialEq, Eq)]
pub struct Mark {
    key: Key,
    num: u64,
}

impl Model for Mark {
    ghost use Rattle.far_model.specs.View as model;

    ghost Value = { model.Mark };

    ghost view = { λ m. record { key = m.key; num = m.num } };

    ghost inverse = { λ m. record { key = m.key; num = m.num } };
}

ghost use Rattle.std.specs.Prelude.{◌≡◌};
ghost use Rattle.far_model.specs.View.{same_mark};

impl Mark {
    /// The mark of the records of this key and number.
    pub fn new(key: Key, num: u64) -> Self
        ensures { result ≡ record { key = key; num = num } }
    {
        Mark { key, num }
    }

    /// Whether both are of one key and number, or neither is there.
    pub fn same(one: &Option<Self>, other: &Option<Self>) -> bool
        ensures { result ≡ same_mark one.now other.now }
    {
        match (one, other) {
            (None, None) => true,
            (Some(one), Some(other)) => one.key == other.key && one.num == other.num,
            _ => false,
        }
    }
}
