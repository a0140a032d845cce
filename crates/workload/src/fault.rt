use std::alloc::AllocFailed;

/// A limit that a workload, or its text, may pass.
#[derive(Clone, Copy, Debug, PartialEq, Eq)]
pub enum Limit {
    /// the bytes of the input; a reader of the input names it, `parse` never does
    Input,
    /// the number of clients
    Clients,
    /// the number of servers
    Servers,
    /// the number of slots
    Slots,
    /// the count at which a key grows hot
    Hot,
    /// the bytes of a body
    Body,
    /// the number of operations
    Ops,
    /// the number of orders to admit and to evict, together
    Orders,
    /// the number of orders to take a snapshot
    Snaps,
    /// the number of orders to stop the switch, of both forms together
    Stops,
    /// the number of listed picks
    Picks,
}

/// Why a text was not read as a workload. Lines are counted from 1.
#[derive(Clone, Copy, Debug, PartialEq, Eq)]
pub enum WorkFault {
    /// The line has none of the forms that may stand there, or is missing.
    BadLine(u32),
    /// The line has a form and passes this limit.
    TooLarge(Limit, u32),
    /// Memory was refused.
    Memory,
}

ghost use Rattle.std.specs.Prelude.{◌≡◌};
ghost use Rattle.workload.specs.declared.fault.WorkFault.TheVariants.{Memory};

impl<T: Drop> From<AllocFailed<T>> for WorkFault {
    ghost from_gives = { λ _ e. e ≡ Memory };

    fn from(_refused: AllocFailed<T>) -> Self {
        WorkFault::Memory
    }
}
