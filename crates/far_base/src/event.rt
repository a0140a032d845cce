/// One step of the world: what happens next.
#[derive(Clone, Copy, Debug, PartialEq, Eq)]
pub enum Event {
    /// The client sends its next operation.
    Send(u32),
    /// The message at this place of the bag, counted from 0, is taken out and handled whole.
    Deliver(u32),
    /// The controller serves its first want.
    Tick,
    /// Recovery of a stopped switch begins.
    Recover,
    /// The switch runs again.
    Restart,
    /// The order at this place of the plan, counted from 0, is done.
    Order(u32),
}
