use super::*;
use std::alloc::Global;
use std::test::Fail;
use workload::{Limit, WorkFault};

const COPIED: &str = "far 1 link\noffer 020b000000000000000000000001\ncarry 0\ncarry 0\nagain 0\n\
     carry 1\nagain 0\n";

const COPIED_TOLD: &str = "far 1 link out\nsent 0\nup 1 020b000000000000000000000001 1\nseen 1 2\n\
     sent 3\nack 1\nnothing\nunacked 0\nend\n";

/// More bytes than any text here has.
const MANY: usize = 10_000_000;

fn told(alloc: Global, text: &[u8]) -> Result<Vec<u8>, Fail> {
    if text.len() >= MANY {
        return Err(Fail::from("too long"));
    }
    let script = parse(alloc, text).ok().ok_or("not read")?;
    Ok(transcript(alloc, &script).ok().ok_or("not written")?)
}

fn fault_of(alloc: Global, text: &[u8]) -> Option<WorkFault> {
    if text.len() >= MANY {
        return None;
    }
    match parse(alloc, text) {
        Ok(_) => None,
        Err(fault) => Some(fault),
    }
}

#[test]
fn each_event_tells_a_line(rt: HostRuntime) -> Result<(), Fail> {
    let alloc = rt.alloc();
    let text = told(alloc, COPIED.as_bytes())?;
    assert!(rt; text.as_slice() == COPIED_TOLD.as_bytes());
    let empty = told(alloc, b"far 1 link\n")?;
    assert!(rt; empty.as_slice() == b"far 1 link out\nunacked 0\nend\n".as_slice());
    Ok(())
}

#[test]
fn the_first_fault_decides(rt: HostRuntime) {
    for (text, line) in [
        (b"".as_slice(), 1),
        (b"far 1 link".as_slice(), 1),
        (b"far 1 link out\n".as_slice(), 1),
        (b"far 1 link\noffer 02\n".as_slice(), 2),
        (
            b"far 1 link\noffer 020B000000000000000000000001\n".as_slice(),
            2,
        ),
        (
            b"far 1 link\noffer 020b00000000000000000000000\n".as_slice(),
            2,
        ),
        (b"far 1 link\noffer\n".as_slice(), 2),
        (b"far 1 link\nagain 0\ncarry 00\n".as_slice(), 3),
        (b"far 1 link\nagain 0\n\n".as_slice(), 3),
        (b"far 1 link\nagain 0\ncarry 0".as_slice(), 3),
    ] {
        assert_eq!(rt; fault_of(rt.alloc(), text), Some(WorkFault::BadLine(line)));
    }
}

/// As many events as there may be, and one more.
#[test]
fn one_event_too_many(rt: HostRuntime) -> Result<(), Fail> {
    let alloc = rt.alloc();
    let mut text = b"far 1 link\n".to_vec(alloc)?;
    for _ in 0..50_000 {
        text.extend_from_slice(b"carry 0\n")?;
    }
    assert_eq!(rt; fault_of(alloc, &text), None);
    text.extend_from_slice(b"carry 0\n")?;
    let fault = WorkFault::TooLarge(Limit::Ops, 50_002);
    assert_eq!(rt; fault_of(alloc, &text), Some(fault));
    Ok(())
}

/// The window takes 256 messages.
#[test]
fn the_window_is_full(rt: HostRuntime) -> Result<(), Fail> {
    let alloc = rt.alloc();
    let mut text = b"far 1 link\n".to_vec(alloc)?;
    for _ in 0..257 {
        text.extend_from_slice(b"offer 020b000000000000000000000001\n")?;
    }
    let written = told(alloc, &text)?;
    assert!(rt;
        written
            .as_slice()
            .ends_with(b"\nsent 255\nfull\nunacked 256\nend\n")
    );
    Ok(())
}
