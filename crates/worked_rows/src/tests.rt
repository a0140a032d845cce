use crate::calls::{answered, called};
use far_outside::{CleanSink, CleanSource, Failed, MemSink, MemSource, Source};
use run_main::{Ended, Limit, Status};
use server_keeper::{MapKeeper, ScriptedKeeper};
use std::alloc::Global;
use std::process::Abort;
use std::test::Fail;
use worked_texts::{ROWS, USAGE};

/// Arguments, input, what is written, and the status, where no text of a command is due.
const REFUSED: [(&str, &str, &str, Status); 21] = [
    ("replay", "", "bad line 1\n", Status::BadLine(1)),
    (
        "replay",
        "far 1\nclients 1\n",
        "bad line 3\n",
        Status::BadLine(3),
    ),
    (
        "replay",
        "far 1\nclients 1\nservers 1\nslots 1025\nhot 0\n",
        "too large slots line 4\n",
        Status::TooLarge(Limit::Slots, 4),
    ),
    (
        "replay",
        "far 1\nclients 1\nservers 1\nslots 1\nhot 0\nget 0 abcdefghijklmnopq\n",
        "bad line 6\n",
        Status::BadLine(6),
    ),
    (
        "replay",
        "far 1\nclients 1\nservers 1\nslots 1\nhot 0\nget 1 a\n",
        "bad line 6\n",
        Status::BadLine(6),
    ),
    (
        "replay",
        "far 1\nclients 1\nservers 1\nslots 1\nhot 0\nget 0 a",
        "bad line 6\n",
        Status::BadLine(6),
    ),
    (
        "replay",
        "far 1\nclients 1\nservers 1\nslots 1\nhot 0\nget 0 a\nget 0  a\n",
        "bad line 7\n",
        Status::BadLine(7),
    ),
    ("run", "far 1\n", USAGE, Status::Usage),
    ("image recover", "far 1\n", USAGE, Status::Usage),
    ("image", "far 1\n", "bad line 2\n", Status::BadLine(2)),
    (
        "recover",
        "far 1\n",
        "bad image line 1\n",
        Status::BadImage(1),
    ),
    (
        "recover",
        "far 1 image\nserver a 3 =x\nclient 0 a 3 =y\nend\n",
        "conflict line 3\n",
        Status::Conflict(3),
    ),
    (
        "recover",
        "far 1 image\nserver a 3 =x\nend",
        "bad image line 3\n",
        Status::BadImage(3),
    ),
    ("bulk", "far 1\n", USAGE, Status::Usage),
    ("bulk 7", "far 1\n", USAGE, Status::Usage),
    ("bulk 07 1", "far 1\n", USAGE, Status::Usage),
    ("bulk 7 10000000000000000000", "", USAGE, Status::Usage),
    (
        "bulk 7 50001",
        "",
        "too large ops line 0\n",
        Status::TooLarge(Limit::Ops, 0),
    ),
    (
        "bulk 9999999999999999999 9999999999999999999",
        "",
        "too large ops line 0\n",
        Status::TooLarge(Limit::Ops, 0),
    ),
    ("Replay", "far 1\n", USAGE, Status::Usage),
    ("", "far 1\n", USAGE, Status::Usage),
];

/// A source that gives one byte at a time.
#[derive(Drop)]
struct OneByOne<S: Source> {
    whole: S,
}

impl<S: Source> Source for OneByOne<S> {
    ghost left = { λ s. S.left s.whole };

    ghost fault_count = { λ s. S.fault_count s.whole };

    fn faults(&self) -> u64 {
        self.whole.faults()
    }

    fn read(&mut self, buf: &mut [u8]) -> Result<u32, Failed> {
        self.whole.read(&mut buf[..1])
    }
}

/// The one answer of a call over memory, where nothing fails.
pub(crate) fn expect(
    rt: &impl Abort,
    alloc: Global,
    line: &str,
    input: &[u8],
    output: &[u8],
    expected: Status,
) -> Result<(), Fail> {
    let (status, written) = answered(alloc, line, input)?;
    assert_eq!(rt; status, expected);
    assert!(rt; written.as_slice() == output);
    Ok(())
}

#[test]
fn rows_are_written_as_computed(rt: HostRuntime) -> Result<(), Fail> {
    for (input, output) in ROWS {
        expect(
            &rt,
            rt.alloc(),
            "replay",
            input.as_bytes(),
            output.as_bytes(),
            Status::Done,
        )?;
    }
    Ok(())
}

#[test]
fn a_refusal_is_one_line(rt: HostRuntime) -> Result<(), Fail> {
    for (line, input, output, expected) in REFUSED {
        expect(
            &rt,
            rt.alloc(),
            line,
            input.as_bytes(),
            output.as_bytes(),
            expected,
        )?;
    }
    Ok(())
}

/// A body may have 256 bytes, and not one more.
#[test]
fn the_longest_body_is_taken(rt: HostRuntime) -> Result<(), Fail> {
    let alloc = rt.alloc();
    let head = ROWS[0].0.as_bytes();
    for (bytes, expected) in [(256, Status::Done), (257, Status::TooLarge(Limit::Body, 6))] {
        let mut input = head.to_vec(alloc)?;
        input.extend_from_slice(b"put 0 a =")?;
        for _ in 0..bytes {
            input.push(b'x')?;
        }
        input.push(10)?;
        let (status, written) = answered(alloc, "replay", &input)?;
        assert_eq!(rt; status, expected);
        let refused = written.as_slice() == "too large body line 6\n".as_bytes();
        assert_eq!(rt; refused, bytes == 257);
    }
    Ok(())
}

#[test]
fn a_failed_read_or_write_is_the_answer(rt: HostRuntime) -> Result<(), Fail> {
    let alloc = rt.alloc();
    let input = ROWS[1].0.as_bytes();
    // The end of the input is seen by the second call.
    for (read, write, expected) in [
        (1, 9, Status::ReadFault),
        (2, 9, Status::ReadFault),
        (9, 1, Status::WriteFault),
    ] {
        let mut source = MemSource::new(input.to_vec(alloc)?, [read].to_vec(alloc)?);
        let mut sink = MemSink::new(alloc, [write].to_vec(alloc)?);
        let Ended {
            status,
            keeper: _keeper,
        } = called(
            alloc,
            "replay",
            &mut source,
            &mut sink,
            MapKeeper::new(alloc),
        )?;
        assert_eq!(rt; status, expected);
        assert!(rt; sink.bytes().is_empty());
    }
    Ok(())
}

/// The put and the get make four calls of the keeper. Where one fails nothing is written, and what
/// comes back serves for another start.
#[test]
fn a_failed_call_of_the_keeper_is_the_answer(rt: HostRuntime) -> Result<(), Fail> {
    let alloc = rt.alloc();
    let input = ROWS[1].0.as_bytes();
    for call in [1, 2, 3, 4] {
        let mut source = CleanSource::new(input.to_vec(alloc)?);
        let mut sink = CleanSink::new(alloc);
        let keeper = ScriptedKeeper::new(alloc, [call].to_vec(alloc)?);
        let Ended { status, keeper } = called(alloc, "replay", &mut source, &mut sink, keeper)?;
        assert_eq!(rt; status, Status::KeeperFault);
        assert!(rt; sink.bytes().is_empty());
        let mut source = CleanSource::new(input.to_vec(alloc)?);
        let Ended {
            status,
            keeper: _keeper,
        } = called(alloc, "replay", &mut source, &mut sink, keeper)?;
        assert_eq!(rt; status, Status::Done);
        assert!(rt; sink.bytes() == ROWS[1].1.as_bytes());
    }
    Ok(())
}

#[test]
fn bytes_may_come_one_by_one(rt: HostRuntime) -> Result<(), Fail> {
    let alloc = rt.alloc();
    let input = ROWS[1].0.as_bytes();
    // The thirtieth read stands in the middle of the input.
    for (fails, expected, output) in [(0, Status::Done, ROWS[1].1), (30, Status::ReadFault, "")] {
        let mut source = OneByOne {
            whole: MemSource::new(input.to_vec(alloc)?, [fails].to_vec(alloc)?),
        };
        let mut sink = CleanSink::new(alloc);
        let Ended {
            status,
            keeper: _keeper,
        } = called(
            alloc,
            "replay",
            &mut source,
            &mut sink,
            MapKeeper::new(alloc),
        )?;
        assert_eq!(rt; status, expected);
        assert!(rt; sink.bytes() == output.as_bytes());
    }
    Ok(())
}
