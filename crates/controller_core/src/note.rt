use far_base::Key;

/// What a packet led to that the log keeps.
#[derive(Clone, Copy, Debug, PartialEq, Eq)]
pub enum Note {
    /// Nothing that the log keeps.
    Nothing,
    /// The slot holds the key under this tag.
    Admitted { slot: u32, key: Key, tag: u64 },
    /// The slot is free again, after so many removals were sent.
    Evicted { slot: u32, key: Key, tries: u32 },
    /// The eviction was given up, and the slot holds a record of this version number.
    Kept { slot: u32, key: Key, num: u64 },
    /// A snapshot is complete, and is the controller's last one. Of its parts `same` were those of the one before.
    Completed { same: u32 },
}
