//! What is on a board, and what a pass knows of it.

/// How far a run is: the steps that were made, and the operations that are answered.
#[derive(Clone, Copy, Debug, PartialEq, Eq)]
pub struct Figures {
    pub steps: u64,
    pub answered: u32,
}

/// What a pass knows: whether it is the publisher's, the figures that it published last, and the figures that it has
/// seen. No value of it is made.
pub struct View {
    pub publishes: bool,
    pub published: Figures,
    pub seen: Figures,
}
