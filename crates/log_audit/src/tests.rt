use super::*;
use far_base::Op;
use std::test::Fail;

const REPORT: &[u8] = b"far 1 report\nsteps 16\nhistory 3\n1 0 put a 1 =x server 1 5\n\
    2 63 del b 2 - switch 2 7\n3 0 get a 1 =x server 6 10\ncontrol 1\nstopped 3\nmap 0\nend\n";

#[test]
fn the_lines_of_a_history_are_read(rt: HostRuntime) -> Result<(), Fail> {
    let lines = read_report(rt.alloc(), REPORT).ok().ok_or("not read")?;
    assert_eq!(rt; lines.len(), 3);
    let second = lines[1];
    assert!(rt; second.op == 2 && second.client == 63 && second.kind == Op::Del && second.near);
    assert!(rt; second.num == 2 && second.sent == 2 && second.answered == 7);
    assert!(rt; second.key.text() == b"b".as_slice() && !second.body.is_present());
    let third = lines[2];
    assert!(rt; third.kind == Op::Get && !third.near && third.body.text() == b"x".as_slice());
    Ok(())
}

#[test]
fn the_first_line_that_is_not_good_is_told(rt: HostRuntime) -> Result<(), Fail> {
    let alloc = rt.alloc();
    let lines = read_report(alloc, REPORT).ok().ok_or("not read")?;
    assert_eq!(rt; lines.len(), 3);
    assert!(rt; matches!(audit(alloc, &lines), Ok(None)));
    assert!(rt; matches!(audit(alloc, &[]), Ok(None)));
    let read_first = [lines[2], lines[0]];
    assert!(rt; matches!(audit(alloc, &read_first), Ok(Some(1))));
    let twice = [lines[0], lines[1], lines[1], lines[2]];
    assert!(rt; matches!(audit(alloc, &twice), Ok(Some(3))));
    Ok(())
}

#[test]
fn the_first_fault_of_a_report_is_told(rt: HostRuntime) {
    for (text, fault) in [
        (b"".as_slice(), AuditFault::BadLine(1)),
        (
            b"far 1 report\nsteps 1\nhistory 50001\n".as_slice(),
            AuditFault::TooLarge(3),
        ),
        (
            b"far 1 report\nsteps 1\nhistory 0\nend\nmap 0\n".as_slice(),
            AuditFault::BadLine(5),
        ),
    ] {
        assert!(rt; matches!(read_report(rt.alloc(), text), Err(found) if found == fault));
    }
}
