ghost use Rattle.std.specs.Prelude.{◌≡◌, ◌+◌, ◌≤◌, ◌++◌, length, take, drop, is_some, vec_len, vec_capacity};
ghost use Rattle.far_base.specs.Padded.{text_of};
ghost use Rattle.far_base.specs.declared.body.TheConstants.{BODY_LIMIT};
ghost use Rattle.far_history.specs.Stored.{bare_of, body_in, entry_body, entry_with, line_in, stretch_of};

use far_base::{Body, Key, LogEntry, LogLine, Op, OpLine, Record};

/// Where the bytes of a body stand among those of a log, and whether there is a body.
#[derive(Clone, Copy)]
pub(crate) struct Stretch {
    pub present: bool,
    pub len: u16,
    pub at: usize,
}

/// What an operation does, without its body.
#[derive(Clone, Copy)]
pub(crate) struct Doing {
    pub client: u32,
    pub op: Op,
    pub key: Key,
}

/// A log entry without its body.
#[derive(Clone, Copy)]
pub(crate) enum Bare {
    Sent {
        op: u32,
        line: Doing,
    },
    Numbered {
        op: u32,
        num: u64,
    },
    Emitted {
        op: u32,
        num: u64,
        near: bool,
    },
    Answered {
        op: u32,
    },
    Admitted {
        slot: u32,
        key: Key,
        tag: u64,
    },
    Evicted {
        slot: u32,
        key: Key,
        tries: u32,
    },
    Kept {
        slot: u32,
        key: Key,
        num: u64,
    },
    Snapped {
        id: u32,
        point: u64,
        count: u32,
        same: u32,
    },
    SnapItem {
        slot: u32,
        key: Key,
        num: u64,
    },
    Stopped,
    Recovered {
        counter: u64,
        count: u64,
    },
    RecItem {
        key: Key,
        num: u64,
    },
}

/// A log line whose body, where its entry has one, stands among the bytes of the log.
#[derive(Clone, Copy)]
pub(crate) struct Stored {
    pub moment: u64,
    pub bare: Bare,
    pub body: Stretch,
}

/// The entry without its body.
pub(crate) fn bare_of(entry: &LogEntry) -> Bare
    ensures { result ≡ bare_of entry.now }
{
    match entry {
        LogEntry::Sent { op, line } => Bare::Sent {
            op: *op,
            line: Doing {
                client: line.client,
                op: line.op,
                key: line.key,
            },
        },
        LogEntry::Numbered { op, num } => Bare::Numbered { op: *op, num: *num },
        LogEntry::Emitted { op, num, near, .. } => Bare::Emitted {
            op: *op,
            num: *num,
            near: *near,
        },
        LogEntry::Answered { op } => Bare::Answered { op: *op },
        LogEntry::Admitted { slot, key, tag } => Bare::Admitted {
            slot: *slot,
            key: *key,
            tag: *tag,
        },
        LogEntry::Evicted { slot, key, tries } => Bare::Evicted {
            slot: *slot,
            key: *key,
            tries: *tries,
        },
        LogEntry::Kept { slot, key, num } => Bare::Kept {
            slot: *slot,
            key: *key,
            num: *num,
        },
        LogEntry::Snapped {
            id,
            point,
            count,
            same,
        } => {
            Bare::Snapped {
                id: *id,
                point: *point,
                count: *count,
                same: *same,
            }
        }
        LogEntry::SnapItem { slot, item } => Bare::SnapItem {
            slot: *slot,
            key: item.key,
            num: item.num,
        },
        LogEntry::Stopped => Bare::Stopped,
        LogEntry::Recovered { counter, count } => Bare::Recovered {
            counter: *counter,
            count: *count,
        },
        LogEntry::RecItem { item } => Bare::RecItem {
            key: item.key,
            num: item.num,
        },
    }
}

/// Puts the body behind the other bytes, for which there is room.
fn keep(bytes: &mut Vec<u8>, body: &Body) -> Stretch
    requires { vec_len bytes.old + BODY_LIMIT ≤ vec_capacity bytes.old }
    ensures bytes { bytes.new.items ≡ bytes.old.items ++ text_of body.now }
    ensures stretch { result ≡ stretch_of (length bytes.old.items) body.now }
    ensures room { vec_capacity bytes.old ≤ vec_capacity bytes.new }
    ensures used { vec_len bytes.new ≤ vec_len bytes.old + BODY_LIMIT }
    ensures short { length (text_of body.now) ≤ BODY_LIMIT }
{
    let at = bytes.len();
    let text = body.text();
    let _ = bytes.extend_from_slice(text);
    Stretch {
        present: body.is_present(),
        len: text.len() as u16,
        at,
    }
}

/// Puts the body of the entry, where it has one, behind the other bytes, for which there is room.
pub(crate) fn keep_body(bytes: &mut Vec<u8>, entry: &LogEntry) -> Stretch
    requires { vec_len bytes.old + BODY_LIMIT ≤ vec_capacity bytes.old }
    ensures bytes { bytes.new.items ≡ bytes.old.items ++ text_of (entry_body entry.now) }
    ensures stretch { result ≡ stretch_of (length bytes.old.items) (entry_body entry.now) }
    ensures room { vec_capacity bytes.old ≤ vec_capacity bytes.new }
    ensures used { vec_len bytes.new ≤ vec_len bytes.old + BODY_LIMIT }
    ensures short { length (text_of (entry_body entry.now)) ≤ BODY_LIMIT }
{
    match entry {
        LogEntry::Sent { line, .. } => keep(bytes, &line.body),
        LogEntry::Emitted { body, .. } => keep(bytes, body),
        LogEntry::SnapItem { item, .. } => keep(bytes, &item.body),
        LogEntry::RecItem { item } => keep(bytes, &item.body),
        _ => Stretch {
            present: false,
            len: 0,
            at: bytes.len(),
        },
    }
}

/// The bytes that stand there.
pub(crate) fn text_at(bytes: &[u8], stretch: Stretch) -> &[u8]
    ensures { result.now ≡ take stretch.len (drop stretch.at bytes.now) }
{
    let rest = &bytes[stretch.at.min(bytes.len())..];
    &rest[..(stretch.len as usize).min(rest.len())]
}

/// The body that stands there.
pub(crate) fn body_at(bytes: &[u8], stretch: Stretch) -> Body
    ensures { result ≡ body_in bytes.now stretch }
{
    if !stretch.present {
        return Body::absent();
    }
    match Body::from_bytes(text_at(bytes, stretch)) {
        Some(body) => body,
        None => Body::absent(),
    }
}

fn entry_at(bare: &Bare, body: &Body) -> LogEntry
    ensures { result ≡ entry_with body.now bare.now }
{
    match *bare {
        Bare::Sent { op, line } => LogEntry::Sent {
            op,
            line: OpLine {
                client: line.client,
                op: line.op,
                key: line.key,
                body: *body,
            },
        },
        Bare::Numbered { op, num } => LogEntry::Numbered { op, num },
        Bare::Emitted { op, num, near } => LogEntry::Emitted {
            op,
            num,
            body: *body,
            near,
        },
        Bare::Answered { op } => LogEntry::Answered { op },
        Bare::Admitted { slot, key, tag } => LogEntry::Admitted { slot, key, tag },
        Bare::Evicted { slot, key, tries } => LogEntry::Evicted { slot, key, tries },
        Bare::Kept { slot, key, num } => LogEntry::Kept { slot, key, num },
        Bare::Snapped {
            id,
            point,
            count,
            same,
        } => LogEntry::Snapped {
            id,
            point,
            count,
            same,
        },
        Bare::SnapItem { slot, key, num } => LogEntry::SnapItem {
            slot,
            item: Record {
                key,
                num,
                body: *body,
            },
        },
        Bare::Stopped => LogEntry::Stopped,
        Bare::Recovered { counter, count } => LogEntry::Recovered { counter, count },
        Bare::RecItem { key, num } => LogEntry::RecItem {
            item: Record {
                key,
                num,
                body: *body,
            },
        },
    }
}

/// The line with its body.
pub(crate) fn line_at(bytes: &[u8], stored: &Stored) -> LogLine
    ensures { result ≡ line_in bytes.now stored.now }
{
    let body = body_at(bytes, stored.body);
    LogLine {
        moment: stored.moment,
        entry: entry_at(&stored.bare, &body),
    }
}
