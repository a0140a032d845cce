use far_base::{Packet, Record};

/// How many removals an eviction sends at the most.
pub const TRIES: u32 = 3;

/// What comes next in an eviction.
#[derive(Clone, Copy)]
pub enum Next {
    /// Send this packet to the switch.
    Send(Packet),
    /// Store this record at its server.
    Store(Record),
    /// The slot is free, after so many removals were sent.
    Done { tries: u32 },
    /// The eviction is given up after so many removals, and the slot holds this record.
    Kept { tries: u32, last: Record },
}
