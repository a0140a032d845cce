use crate::record::Record;

/// Where a record is kept that outlives a stop of the switch.
#[derive(Clone, Copy, Debug, PartialEq, Eq)]
pub enum KeptPlace {
    Snap,
    Server(u32),
    Client(u32),
}

/// A record that outlives a stop of the switch, and where it is kept.
#[derive(Clone, Copy, Debug, PartialEq, Eq)]
pub struct KeptItem {
    pub place: KeptPlace,
    pub rec: Record,
}
