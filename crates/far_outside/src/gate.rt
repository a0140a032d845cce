use far_base::Party;

/// What a worker of a run in threads passes before each turn, and is told after it. It may hold a worker up; it changes
/// nothing else of a run.
pub trait Gate {
    /// Is called by a worker outside of the lock before each turn, with the steps that it last read from the board.
    fn pass(&self, who: Party, seen: u64);

    /// Is called after each turn, with the operation that the turn answered.
    fn after(&self, who: Party, answered: Option<u32>);
}

/// The gate that holds nobody up.
#[derive(Clone, Copy, Debug)]
pub struct NoGate;

impl Gate for NoGate {
    fn pass(&self, _who: Party, _seen: u64) {}

    fn after(&self, _who: Party, _answered: Option<u32>) {}
}
