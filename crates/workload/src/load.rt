use far_base::{Config, Ops, Plan};
use std::alloc::Global;
use std::marker::Model;

/// The greatest number of listed picks.
pub const PICK_LIMIT: u32 = 1_000_000;

/// A plan, and how the next event is chosen: the listed picks in their order, then draws of the
/// generator of the start number `random`, or 0 where there is none. Contracts see the plan, the
/// list of picks and the start number.
#[derive(Drop)]
pub struct Workload {
    /// The sizes, the operations and the orders.
    pub plan: Plan,
    /// The listed picks, at most `PICK_LIMIT` of them in a workload that was read.
    pub picks: Vec<u64>,
    /// The start number of the generator of the picks behind the listed ones.
    pub random: Option<u64>,
}

impl Model for Workload {
    ghost use Rattle.workload.specs.WorkView.{WorkView};

    ghost Value = { WorkView };

    ghost view = { λ w. record { plan = w.plan; picks = w.picks.items; random = w.random } };
}

ghost use Rattle.std.specs.Prelude.{◌≡◌};
ghost use Rattle.workload.specs.Reading.{empty_work};

impl Workload {
    pub(crate) fn empty(alloc: Global, config: Config) -> Self
        ensures { result ≡ empty_work config }
    {
        Workload {
            plan: Plan {
                config,
                ops: Ops::new(alloc),
                orders: Vec::new(alloc),
            },
            picks: Vec::new(alloc),
            random: None,
        }
    }
}
