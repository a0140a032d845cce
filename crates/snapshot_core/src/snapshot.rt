use far_base::Record;
use std::alloc::Global;
use std::marker::Model;

/// A completed snapshot: the version number at which it began, and per slot the record that the slot held then, or
/// none.
#[derive(Drop)]
pub struct Snapshot {
    pub id: u32,
    pub point: u64,
    pub views: Vec<Option<Record>>,
}

impl Model for Snapshot {
    ghost use Rattle.far_model.specs.Snapshots.{SnapshotView};

    ghost Value = { SnapshotView };

    ghost view = { λ s. record { id = s.id; point = s.point; views = s.views.items } };
}

ghost use Rattle.std.specs.Prelude.{◌≡◌};
ghost use Rattle.far_model.specs.Snapshots.{no_snapshot};

impl Snapshot {
    /// What stands before the first snapshot: id 0, point 0, no views.
    pub fn none(alloc: Global) -> Self
        ensures { result ≡ no_snapshot }
    {
        Snapshot {
            id: 0,
            point: 0,
            views: Vec::new(alloc),
        }
    }
}
