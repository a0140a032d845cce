use crate::calls::called;
use crate::tests::expect;
use far_outside::{MemSink, MemSource};
use run_main::{Ended, Limit, Status};
use server_keeper::ScriptedKeeper;
use std::test::Fail;
use worked_texts::ROWS;

const YES: &str = "audit yes\n";

/// Reports, each with what is written of it, and the status.
const JUDGED: [(&str, &str, Status); 13] = [
    // What the last write of the key wrote is not what was read.
    (
        "far 1 report\nsteps 10\nhistory 2\n1 0 put a 1 =x server 1 5\n\
         2 0 get a 0 - server 6 10\ncontrol 0\nmap 1\na 1 =x\nend\n",
        "audit no line 5\n",
        Status::Wrong(5),
    ),
    // The later line was answered before the earlier one was sent.
    (
        "far 1 report\nsteps 10\nhistory 2\n2 0 put b 2 =y server 6 10\n\
         1 0 put a 1 =x server 1 5\nend\n",
        "audit no line 5\n",
        Status::Wrong(5),
    ),
    // It was answered at the step at which the earlier one was sent.
    (
        "far 1 report\nsteps 10\nhistory 2\n2 0 put b 2 =y server 6 10\n\
         1 0 put a 1 =x server 1 6\nend\n",
        YES,
        Status::Done,
    ),
    // Not the line before was sent later, but the one before that.
    (
        "far 1 report\nsteps 9\nhistory 3\n3 0 put c 3 =z server 7 9\n\
         1 1 put a 1 =x server 1 8\n2 2 put b 2 =y server 2 6\nend\n",
        "audit no line 6\n",
        Status::Wrong(6),
    ),
    // An operation is answered when it was sent.
    (
        "far 1 report\nsteps 10\nhistory 1\n1 0 put a 1 =x server 5 5\nend\n",
        "audit no line 4\n",
        Status::Wrong(4),
    ),
    // Two lines of one operation.
    (
        "far 1 report\nsteps 10\nhistory 2\n1 0 put a 1 =x server 1 5\n\
         1 0 get a 1 =x server 6 10\nend\n",
        "audit no line 5\n",
        Status::Wrong(5),
    ),
    // The number is right and the body is another; the other way round.
    (
        "far 1 report\nsteps 10\nhistory 2\n1 0 put a 1 =x server 1 5\n\
         2 0 get a 1 =y server 6 10\nend\n",
        "audit no line 5\n",
        Status::Wrong(5),
    ),
    (
        "far 1 report\nsteps 10\nhistory 2\n1 0 put a 1 =x server 1 5\n\
         2 0 get a 2 =x server 6 10\nend\n",
        "audit no line 5\n",
        Status::Wrong(5),
    ),
    // A key that was deleted reads the number of the delete and no body.
    (
        "far 1 report\nsteps 20\nhistory 3\n1 0 put a 1 =x server 1 5\n\
         2 0 del a 2 - switch 6 10\n3 63 get a 2 - server 11 20\nend\n",
        YES,
        Status::Done,
    ),
    // A write has no effect on other keys.
    (
        "far 1 report\nsteps 20\nhistory 3\n1 0 put a 1 =x server 1 5\n\
         2 0 get b 0 - server 6 10\n3 0 get a 1 =x server 11 20\nend\n",
        YES,
        Status::Done,
    ),
    // What stands between the history and the last line is not judged.
    (
        "far 1 report\nsteps 0\nhistory 0\nend\n\nmap 7\nend\n",
        YES,
        Status::Done,
    ),
    ("far 1 report\nsteps 0\nhistory 0\nend\n", YES, Status::Done),
    // The greatest numbers, the longest key, and an empty body.
    (
        "far 1 report\nsteps 9999999999999999999\nhistory 1\n\
         9999999999999999999 0 put 0123456789abcdef 9999999999999999999 = server 0 \
         9999999999999999999\nend\n",
        YES,
        Status::Done,
    ),
];

/// Texts that are no report, each with the line that is written of it, and the status.
const REFUSED: [(&str, &str, Status); 24] = [
    ("", "bad line 1\n", Status::BadLine(1)),
    ("far 1 report", "bad line 1\n", Status::BadLine(1)),
    ("far 1 reports\n", "bad line 1\n", Status::BadLine(1)),
    ("far 1 report\n", "bad line 2\n", Status::BadLine(2)),
    (
        "far 1 report\nsteps 01\nhistory 0\nend\n",
        "bad line 2\n",
        Status::BadLine(2),
    ),
    (
        "far 1 report\nsteps 1\nhistory\nend\n",
        "bad line 3\n",
        Status::BadLine(3),
    ),
    (
        "far 1 report\nsteps 1\nhistory 50001\n",
        "too large ops line 3\n",
        Status::TooLarge(Limit::Ops, 3),
    ),
    // The line has no end.
    (
        "far 1 report\nsteps 1\nhistory 50001",
        "bad line 3\n",
        Status::BadLine(3),
    ),
    (
        "far 1 report\nsteps x\nhistory 50001\n",
        "bad line 2\n",
        Status::BadLine(2),
    ),
    (
        "far 1 report\nsteps 1\nhistory 50000\n",
        "bad line 4\n",
        Status::BadLine(4),
    ),
    (
        "far 1 report\nsteps 1\nhistory 0\n",
        "bad line 4\n",
        Status::BadLine(4),
    ),
    (
        "far 1 report\nsteps 1\nhistory 0\nend",
        "bad line 4\n",
        Status::BadLine(4),
    ),
    // The last line is another.
    (
        "far 1 report\nsteps 1\nhistory 0\nend\n\n",
        "bad line 5\n",
        Status::BadLine(5),
    ),
    (
        "far 1 report\nsteps 1\nhistory 0\ncontrol 0\nend\nmap 0\n",
        "bad line 6\n",
        Status::BadLine(6),
    ),
    (
        "far 1 report\nsteps 10\nhistory 3\n2 0 put b 2 =y server 6 10\n\
         1 0 put a 1 =x server 1 5\nend\n",
        "bad line 6\n",
        Status::BadLine(6),
    ),
    // The form of a line comes before what the lines say of each other.
    (
        "far 1 report\nsteps 10\nhistory 2\n1 0 put a 1 =x server 5 5\n\
         2 0 put a 2 =y server 6\nend\n",
        "bad line 5\n",
        Status::BadLine(5),
    ),
    (
        "far 1 report\nsteps 10\nhistory 1\n0 0 put a 1 =x server 1 5\nend\n",
        "bad line 4\n",
        Status::BadLine(4),
    ),
    (
        "far 1 report\nsteps 10\nhistory 1\n1 64 put a 1 =x server 1 5\nend\n",
        "bad line 4\n",
        Status::BadLine(4),
    ),
    (
        "far 1 report\nsteps 10\nhistory 1\n1 0 set a 1 =x server 1 5\nend\n",
        "bad line 4\n",
        Status::BadLine(4),
    ),
    (
        "far 1 report\nsteps 10\nhistory 1\n1 0 put 0123456789abcdefg 1 =x server 1 5\nend\n",
        "bad line 4\n",
        Status::BadLine(4),
    ),
    (
        "far 1 report\nsteps 10\nhistory 1\n1 0 put a 1 - server 1 5\nend\n",
        "bad line 4\n",
        Status::BadLine(4),
    ),
    (
        "far 1 report\nsteps 10\nhistory 1\n1 0 del a 1 =x server 1 5\nend\n",
        "bad line 4\n",
        Status::BadLine(4),
    ),
    (
        "far 1 report\nsteps 10\nhistory 1\n1 0 put a 1 =x client 1 5\nend\n",
        "bad line 4\n",
        Status::BadLine(4),
    ),
    (
        "far 1 report\nsteps 10\nhistory 1\n1 0 put a 1 =x server 1 5 \nend\n",
        "bad line 4\n",
        Status::BadLine(4),
    ),
];

/// What the program writes of a workload is good.
#[test]
fn a_written_report_is_good(rt: HostRuntime) -> Result<(), Fail> {
    for (_, report) in ROWS {
        expect(
            &rt,
            rt.alloc(),
            "audit",
            report.as_bytes(),
            YES.as_bytes(),
            Status::Done,
        )?;
    }
    Ok(())
}

#[test]
fn a_history_is_judged_by_its_lines(rt: HostRuntime) -> Result<(), Fail> {
    for (report, written, status) in JUDGED {
        expect(
            &rt,
            rt.alloc(),
            "audit",
            report.as_bytes(),
            written.as_bytes(),
            status,
        )?;
    }
    Ok(())
}

#[test]
fn a_refused_report_is_one_line(rt: HostRuntime) -> Result<(), Fail> {
    for (report, written, status) in REFUSED {
        expect(
            &rt,
            rt.alloc(),
            "audit",
            report.as_bytes(),
            written.as_bytes(),
            status,
        )?;
    }
    Ok(())
}

/// A failed read or write is told; the keeper is not asked.
#[test]
fn an_audit_may_fail(rt: HostRuntime) -> Result<(), Fail> {
    let alloc = rt.alloc();
    for (input, read, write, expected) in [
        (ROWS[1].1, 1, 0, Status::ReadFault),
        (ROWS[1].1, 2, 0, Status::ReadFault),
        (ROWS[1].1, 0, 1, Status::WriteFault),
        (JUDGED[0].0, 0, 1, Status::WriteFault),
        ("far 1\n", 0, 1, Status::WriteFault),
    ] {
        let mut source = MemSource::new(input.as_bytes().to_vec(alloc)?, [read].to_vec(alloc)?);
        let mut sink = MemSink::new(alloc, [write].to_vec(alloc)?);
        let keeper = ScriptedKeeper::new(alloc, [1].to_vec(alloc)?);
        let Ended {
            status,
            keeper: _keeper,
        } = called(alloc, "audit", &mut source, &mut sink, keeper)?;
        assert_eq!(rt; status, expected);
        assert!(rt; sink.bytes().is_empty());
    }
    Ok(())
}
