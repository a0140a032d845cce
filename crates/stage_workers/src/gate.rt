/// What a worker of a group passes before each flight. It may hold a worker up; it changes nothing else of a run.
pub trait StageGate {
    /// Is called by the worker of a group, counted from 0, before its flight of this number, counted from 1.
    fn at(&self, group: u32, flight: u32);
}

/// The gate that holds nobody up.
#[derive(Clone, Copy, Debug)]
pub struct NoStageGate;

impl StageGate for NoStageGate {
    fn at(&self, _group: u32, _flight: u32) {}
}
