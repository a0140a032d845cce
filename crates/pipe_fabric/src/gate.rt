use far_base::Party;

/// What the workers of pipes pass before each turn, and are held at in it. It may hold a worker up; it changes nothing
/// else of a run.
pub trait PipeGate {
    /// Is called by a worker of the pipe outside of its lock before each turn, with the party whose turn it is first.
    fn pass(&self, pipe: u32, who: Party);

    /// Is called in each turn, while the lock of this pipe is held and no other.
    fn held(&self, pipe: u32);
}

/// The gate that holds nobody up.
#[derive(Clone, Copy, Debug)]
pub struct NoPipeGate;

impl PipeGate for NoPipeGate {
    fn pass(&self, _pipe: u32, _who: Party) {}

    fn held(&self, _pipe: u32) {}
}
