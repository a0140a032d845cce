//! The number of each kind, which is the second byte of a packet.

pub const GET_REQ: u8 = 1;

pub const WRITE_REQ: u8 = 2;

pub const GET_FWD: u8 = 3;

pub const WRITE_FWD: u8 = 4;

pub const GET_REP: u8 = 5;

pub const WRITE_REP: u8 = 6;

pub const GET_ANS: u8 = 7;

pub const WRITE_ANS: u8 = 8;

pub const HOT: u8 = 9;

pub const ADMIT: u8 = 10;

pub const ADMIT_ACK: u8 = 11;

pub const PEEK: u8 = 12;

pub const PEEK_ANS: u8 = 13;

pub const REMOVE: u8 = 14;

pub const REMOVE_ANS: u8 = 15;

pub const SNAP_START: u8 = 16;

pub const SNAP_BEGUN: u8 = 17;

pub const SNAP_READ: u8 = 18;

pub const SNAP_PART: u8 = 19;

pub const STORE: u8 = 20;

pub const STORED: u8 = 21;

pub const RELEASE: u8 = 22;

pub const ASK: u8 = 23;

pub const TOLD: u8 = 24;

pub const TOP_ASK: u8 = 25;

pub const TOP_IS: u8 = 26;

pub const SNAP_SAME: u8 = 27;

pub const SNAP_FROM: u8 = 28;

/// The kinds of packets are numbered from 1 to this.
pub const KIND_COUNT: u8 = SNAP_FROM;
