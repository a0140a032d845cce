use crate::calls::{answered, answered_in_memory, called};
use crate::tests::expect;
use far_outside::{MemSink, MemSource};
use run_main::{Ended, Limit, Status};
use server_keeper::{MapKeeper, ScriptedKeeper};
use std::alloc::Global;
use std::test::Fail;
use worked_texts::{ROWS, USAGE};

/// What is kept where the switch stops in the middle of the second snapshot, and the map of that.
const KEPT: &str = "far 2 image\nsnap a 1 =p\nclient 0 a 2 =q\nend\n";

const RECOVERED: &str = "far 1 recovered\nmap 1\na 2 =q\nend\n";

/// Images, each with the map that its recovery leaves.
const MAPS: [(&str, &str); 7] = [
    (KEPT, RECOVERED),
    (
        "far 2 image\nclient 0 a 1 =p\nend\n",
        "far 1 recovered\nmap 1\na 1 =p\nend\n",
    ),
    ("far 1 image\nend\n", "far 1 recovered\nmap 0\nend\n"),
    (
        "far 1 image\nsnap a 1 =p\nclient 0 a 2 =q\nend\n",
        RECOVERED,
    ),
    // A key that was never written is no entry of the map; one that was deleted is.
    (
        "far 2 image\nserver b 0 -\nserver a 3 -\nsnap a 2 =x\nend\n",
        "far 1 recovered\nmap 1\na 3 -\nend\n",
    ),
    // Lines of one record do not conflict, wherever they stand.
    (
        "far 2 image\nclient 63 b 1 =x\nserver b 1 =x\nsnap a 9999999999999999999 =\nend\n",
        "far 1 recovered\nmap 2\na 9999999999999999999 =\nb 1 =x\nend\n",
    ),
    // The order of keys is that of their bytes.
    (
        "far 2 image\nserver b 1 =x\nserver ab 2 =y\nserver B 3 =z\nend\n",
        "far 1 recovered\nmap 3\nB 3 =z\nab 2 =y\nb 1 =x\nend\n",
    ),
];

/// Arguments, input, what is written, and the status of a refusal.
const REFUSED: [(&str, &str, &str, Status); 15] = [
    ("image", "", "bad line 1\n", Status::BadLine(1)),
    (
        "image",
        "far 1\nclients 1\nservers 1\nslots 1\nhot 0\nget 0 a\nstop\n",
        "bad line 7\n",
        Status::BadLine(7),
    ),
    (
        "image",
        "far 1\nclients 1\nservers 17\nslots 1\nhot 0\n",
        "too large servers line 3\n",
        Status::TooLarge(Limit::Servers, 3),
    ),
    ("image 1", "far 1\n", USAGE, Status::Usage),
    ("recover", "", "bad image line 1\n", Status::BadImage(1)),
    (
        "recover",
        "far 2 image\n",
        "bad image line 2\n",
        Status::BadImage(2),
    ),
    (
        "recover",
        "far 2 image\nserver 0 a 1 =x\nend\n",
        "bad image line 2\n",
        Status::BadImage(2),
    ),
    (
        "recover",
        "far 2 image\nclient 64 a 1 =x\nend\n",
        "bad image line 2\n",
        Status::BadImage(2),
    ),
    (
        "recover",
        "far 2 image\nserver a 0 =x\nend\n",
        "bad image line 2\n",
        Status::BadImage(2),
    ),
    (
        "recover",
        "far 2 image\nend\nend\n",
        "bad image line 3\n",
        Status::BadImage(3),
    ),
    (
        "recover",
        "far 1 image\nserver a 3 =x\nend",
        "bad image line 3\n",
        Status::BadImage(3),
    ),
    (
        "recover",
        "far 1 image\nserver a 3 =x\nclient 0 a 3 =y\nend\n",
        "conflict line 3\n",
        Status::Conflict(3),
    ),
    // The first line with a fault decides.
    (
        "recover",
        "far 2 image\nserver a 3 =x\nserver a 3 -\nserver\n",
        "conflict line 3\n",
        Status::Conflict(3),
    ),
    (
        "recover",
        "far 2 image\nserver a 3 =x\nserver\nserver a 3 -\n",
        "bad image line 3\n",
        Status::BadImage(3),
    ),
    ("recover recover", KEPT, USAGE, Status::Usage),
];

/// The summary of a generated workload without operations.
const NOTHING_DONE: &str = "far 1 summary\noperations 0\nanswered 0\norders 4\nsteps 90\nswitch 0\n\
     server 0\nsnapshots 0\nsame 0\nevicted 0\nkept 0\nrecoveries 2\ncounter 0\nkeys 0\nend\n";

/// The summary of a large one, by another implementation. All are answered, by the switch or by a server, and the
/// counter is the number of the writes among them.
const TWENTY_THOUSAND: &str =
    "far 1 summary\noperations 20000\nanswered 20000\norders 4\nsteps 92598\n\
     switch 10077\nserver 9923\nsnapshots 2\nsame 0\nevicted 351\nkept 0\nrecoveries 2\n\
     counter 10034\nkeys 1602\nend\n";

#[test]
fn an_image_is_what_is_kept(rt: HostRuntime) -> Result<(), Fail> {
    for (input, output) in [
        (ROWS[14].0, KEPT),
        // There is no order to stop; one is added behind all others.
        (ROWS[0].0, "far 2 image\nend\n"),
        (ROWS[1].0, "far 2 image\nserver a 1 =x\nend\n"),
        // The snapshot has the record, which its client let go.
        (ROWS[12].0, "far 2 image\nsnap a 1 =p\nend\n"),
        // The write was answered by the switch, and only its client has it.
        (ROWS[13].0, "far 2 image\nclient 0 a 1 =p\nend\n"),
        // The first of two stops.
        (ROWS[15].0, "far 2 image\nend\n"),
    ] {
        expect(
            &rt,
            rt.alloc(),
            "image",
            input.as_bytes(),
            output.as_bytes(),
            Status::Done,
        )?;
    }
    Ok(())
}

#[test]
fn a_recovery_leaves_the_newest(rt: HostRuntime) -> Result<(), Fail> {
    for (input, output) in MAPS {
        expect(
            &rt,
            rt.alloc(),
            "recover",
            input.as_bytes(),
            output.as_bytes(),
            Status::Done,
        )?;
    }
    Ok(())
}

#[test]
fn a_refused_image_is_one_line(rt: HostRuntime) -> Result<(), Fail> {
    for (line, input, output, expected) in REFUSED {
        expect(
            &rt,
            rt.alloc(),
            line,
            input.as_bytes(),
            output.as_bytes(),
            expected,
        )?;
    }
    Ok(())
}

/// An image of one record, whose body has so many bytes.
fn image_of(alloc: Global, first: &str, bytes: u32) -> Result<Vec<u8>, Fail> {
    let mut text = first.as_bytes().to_vec(alloc)?;
    text.extend_from_slice(b"\nserver a 1 =")?;
    for _ in 0..bytes {
        text.push(b'x')?;
    }
    text.extend_from_slice(b"\nend\n")?;
    Ok(text)
}

/// How long a body may be is told by the first line of the image.
#[test]
fn the_longest_body_of_an_image(rt: HostRuntime) -> Result<(), Fail> {
    let alloc = rt.alloc();
    for (first, bytes, expected) in [
        ("far 1 image", 128, Status::Done),
        ("far 1 image", 129, Status::BadImage(2)),
        ("far 2 image", 129, Status::Done),
        ("far 2 image", 256, Status::Done),
        ("far 2 image", 257, Status::BadImage(2)),
    ] {
        let input = image_of(alloc, first, bytes)?;
        let (status, written) = answered(alloc, "recover", &input)?;
        assert_eq!(rt; status, expected);
        let refused = written.as_slice() == "bad image line 2\n".as_bytes();
        assert_eq!(rt; refused, status != Status::Done);
        let one_key = written.starts_with("far 1 recovered\nmap 1\na 1 =x".as_bytes());
        assert_eq!(rt; one_key, status == Status::Done);
    }
    Ok(())
}

#[test]
fn a_failed_read_or_write_of_a_command(rt: HostRuntime) -> Result<(), Fail> {
    let alloc = rt.alloc();
    for (line, input, read, write, expected) in [
        ("image", ROWS[14].0, 1, 0, Status::ReadFault),
        // The end of the input is seen by the second call.
        ("image", ROWS[14].0, 2, 0, Status::ReadFault),
        ("image", ROWS[14].0, 0, 1, Status::WriteFault),
        ("image", "far 2\n", 0, 1, Status::WriteFault),
        ("recover", KEPT, 1, 0, Status::ReadFault),
        ("recover", KEPT, 2, 0, Status::ReadFault),
        ("recover", KEPT, 0, 1, Status::WriteFault),
        ("recover", "far 1\n", 0, 1, Status::WriteFault),
        ("bulk 7 0", "", 1, 1, Status::WriteFault),
        ("bulk 7 50001", "", 1, 1, Status::WriteFault),
        ("bulk", "", 1, 1, Status::WriteFault),
    ] {
        let mut source = MemSource::new(input.as_bytes().to_vec(alloc)?, [read].to_vec(alloc)?);
        let mut sink = MemSink::new(alloc, [write].to_vec(alloc)?);
        let Ended {
            status,
            keeper: _keeper,
        } = called(alloc, line, &mut source, &mut sink, MapKeeper::new(alloc))?;
        assert_eq!(rt; status, expected);
        assert!(rt; sink.bytes().is_empty());
    }
    Ok(())
}

/// What makes no run asks no keeper, and what reads nothing asks no source: that their first calls fail is not seen.
#[test]
fn a_command_calls_only_what_it_needs(rt: HostRuntime) -> Result<(), Fail> {
    let alloc = rt.alloc();
    for (line, input, read, call, output) in [
        ("recover", KEPT, 0, 1, RECOVERED),
        ("bulk 7 0", "", 1, 0, NOTHING_DONE),
    ] {
        let mut source = MemSource::new(input.as_bytes().to_vec(alloc)?, [read].to_vec(alloc)?);
        let mut sink = MemSink::new(alloc, [0].to_vec(alloc)?);
        let keeper = ScriptedKeeper::new(alloc, [call].to_vec(alloc)?);
        let Ended {
            status,
            keeper: _keeper,
        } = called(alloc, line, &mut source, &mut sink, keeper)?;
        assert_eq!(rt; status, Status::Done);
        assert!(rt; sink.bytes() == output.as_bytes());
    }
    Ok(())
}

#[test]
fn a_summary_of_nothing(rt: HostRuntime) -> Result<(), Fail> {
    let output = NOTHING_DONE.as_bytes();
    expect(&rt, rt.alloc(), "bulk 7 0", b"", output, Status::Done)
}

/// Two runs of a generated workload write the same bytes.
#[test]
fn a_summary_counts_what_was_generated(rt: HostRuntime) -> Result<(), Fail> {
    let output = TWENTY_THOUSAND.as_bytes();
    for _ in 0..2 {
        expect(&rt, rt.alloc(), "bulk 7 20000", b"", output, Status::Done)?;
    }
    Ok(())
}

/// Another start number makes other operations.
#[test]
fn a_summary_is_that_of_the_start_number(rt: HostRuntime) -> Result<(), Fail> {
    let alloc = rt.alloc();
    let (_status, first) = answered(alloc, "bulk 7 2000", b"")?;
    for (line, same) in [("bulk 7 2000", true), ("bulk 8 2000", false)] {
        let (status, written) = answered(alloc, line, b"")?;
        assert_eq!(rt; status, Status::Done);
        assert_eq!(rt; written == first, same);
    }
    Ok(())
}

#[test]
fn the_call_in_memory_answers_the_same(rt: HostRuntime) -> Result<(), Fail> {
    let alloc = rt.alloc();
    for (line, input, output, expected) in [
        ("replay", ROWS[1].0, ROWS[1].1, Status::Done),
        ("image", ROWS[14].0, KEPT, Status::Done),
        ("recover", KEPT, RECOVERED, Status::Done),
        ("bulk 7 0", "", NOTHING_DONE, Status::Done),
        ("replay", "far 1\n", "bad line 2\n", Status::BadLine(2)),
        ("run", ROWS[1].0, USAGE, Status::Usage),
    ] {
        let (status, written) = answered_in_memory(alloc, line, input.as_bytes())?;
        assert_eq!(rt; status, expected);
        assert!(rt; written.as_slice() == output.as_bytes());
    }
    Ok(())
}
