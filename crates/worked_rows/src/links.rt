use crate::calls::{answered, answered_in_memory, called};
use crate::tests::expect;
use far_outside::{MemSink, MemSource};
use run_main::{Ended, Limit, Status};
use server_keeper::ScriptedKeeper;
use std::test::Fail;

/// A frame is carried twice, sent again, and acknowledged.
const COPIED: &str = "far 1 link\noffer 020b000000000000000000000001\ncarry 0\ncarry 0\nagain 0\n\
     carry 1\nagain 0\n";

const COPIED_TOLD: &str = "far 1 link out\nsent 0\nup 1 020b000000000000000000000001 1\nseen 1 2\n\
     sent 3\nack 1\nnothing\nunacked 0\nend\n";

/// Events, each with what they tell as it was computed by hand.
const LINKS: [(&str, &str); 4] = [
    (COPIED, COPIED_TOLD),
    ("far 1 link\n", "far 1 link out\nunacked 0\nend\n"),
    // Two messages overtake each other, and the first frame of the first one is lost.
    (
        "far 1 link\noffer 021900000001\noffer 021900000002\ncarry 1\ncarry 2\nagain 0\ncarry 3\n\
         carry 1\ncarry 4\ncarry 9\n",
        "far 1 link out\nsent 0\nsent 1\nup 2 021900000002 2\nack 2\nsent 3\n\
         up 1 021900000001 4\nseen 2 5\nack 1\nnothing\nunacked 0\nend\n",
    ),
    // What is not acknowledged is counted, also where it was handed up.
    (
        "far 1 link\noffer 021900000001\nagain 1\ncarry 0\n",
        "far 1 link out\nsent 0\nnothing\nup 1 021900000001 1\nunacked 1\nend\n",
    ),
];

/// Inputs that are refused, each with the line that is written for it.
const REFUSED: [(&str, &str, Status); 5] = [
    ("", "bad line 1\n", Status::BadLine(1)),
    ("far 1 link\noffer 02\n", "bad line 2\n", Status::BadLine(2)),
    (
        "far 1 link\ncarry 0\nagain 0",
        "bad line 3\n",
        Status::BadLine(3),
    ),
    (
        "far 1 link\noffer 020B000000000000000000000001\n",
        "bad line 2\n",
        Status::BadLine(2),
    ),
    (
        "far 1 link\ncarry 0 \nnothing\n",
        "bad line 2\n",
        Status::BadLine(2),
    ),
];

#[test]
fn events_tell_what_they_do(rt: HostRuntime) -> Result<(), Fail> {
    for (input, output) in LINKS {
        expect(
            &rt,
            rt.alloc(),
            "link",
            input.as_bytes(),
            output.as_bytes(),
            Status::Done,
        )?;
    }
    Ok(())
}

#[test]
fn refused_events_are_one_line(rt: HostRuntime) -> Result<(), Fail> {
    for (input, output, expected) in REFUSED {
        expect(
            &rt,
            rt.alloc(),
            "link",
            input.as_bytes(),
            output.as_bytes(),
            expected,
        )?;
    }
    Ok(())
}

/// The window takes 256 messages, and there may be 50,000 events.
#[test]
fn the_window_and_the_events_are_full(rt: HostRuntime) -> Result<(), Fail> {
    let alloc = rt.alloc();
    let mut input = b"far 1 link\n".to_vec(alloc)?;
    for _ in 0..257 {
        input.extend_from_slice(b"offer 020b000000000000000000000001\n")?;
    }
    let (status, written) = answered(alloc, "link", &input)?;
    assert_eq!(rt; status, Status::Done);
    assert!(rt; written.starts_with(b"far 1 link out\nsent 0\nsent 1\n"));
    assert!(rt; written.ends_with(b"\nsent 255\nfull\nunacked 256\nend\n"));
    for _ in 257..50_000 {
        input.extend_from_slice(b"again 0\n")?;
    }
    let (status, _written) = answered(alloc, "link", &input)?;
    assert_eq!(rt; status, Status::Done);
    input.extend_from_slice(b"again 0\n")?;
    let (status, written) = answered_in_memory(alloc, "link", &input)?;
    assert_eq!(rt; status, Status::TooLarge(Limit::Ops, 50_002));
    assert!(rt; written.as_slice() == b"too large ops line 50002\n".as_slice());
    Ok(())
}

/// A failed read or write is told, and the keeper is not asked.
#[test]
fn a_failed_read_or_write_of_events(rt: HostRuntime) -> Result<(), Fail> {
    let alloc = rt.alloc();
    for (read, write, expected) in [
        (0, 0, Status::Done),
        (1, 0, Status::ReadFault),
        (2, 0, Status::ReadFault),
        (0, 1, Status::WriteFault),
    ] {
        let mut source = MemSource::new(COPIED.as_bytes().to_vec(alloc)?, [read].to_vec(alloc)?);
        let mut sink = MemSink::new(alloc, [write].to_vec(alloc)?);
        let keeper = ScriptedKeeper::new(alloc, [1].to_vec(alloc)?);
        let Ended {
            status,
            keeper: _keeper,
        } = called(alloc, "link", &mut source, &mut sink, keeper)?;
        assert_eq!(rt; status, expected);
        assert_eq!(rt; sink.bytes().is_empty(), expected != Status::Done);
    }
    Ok(())
}
