use crate::key::Key;

/// What the controller knows of a slot. A tag names one admission of one key.
#[derive(Clone, Copy, Debug, PartialEq, Eq)]
pub enum SlotState {
    Free,
    Admitting { key: Key, tag: u64 },
    Held { key: Key, tag: u64 },
    Evicting { key: Key, tag: u64 },
}

/// Which answer an eviction waits for.
#[derive(Clone, Copy, Debug, PartialEq, Eq)]
pub enum Due {
    Peeked,
    Stored,
    Removed,
    Over,
}
