use crate::calls::passed;
use run_main::{Limit, Status};
use stage_workers::{NoStageGate, StageGate};
use std::sync::atomic::{AtomicBool, Ordering};
use std::test::Fail;
use std::thread;
use worked_texts::USAGE;

const HEAD: &str = "far 1 line\nservers 1\nslots 1\nhot 0\n";

/// A key is admitted, and read: the read goes on to its server with the tag of the slot.
const ADMIT_AND_READ: &str = "far 1 line\nservers 1\nslots 1\nhot 0\n\
    020a0000000100000000610000000000000000000000000000000000000000000001\n\
    0201000000010000000261000000000000000000000000000000\n";

const ADMITTED_AND_READ: &str = "far 1 out\n\
    out 1 controller 020b000000000000000000000001\n\
    out 2 server 0 0203000000010000000261000000000000000000000000000000\
    0000000000000001\n\
    counter 0\nviews 0\nend\n";

/// What is written for a line of packets, and the status.
#[test]
fn a_line_of_packets_is_answered(rt: HostRuntime) -> Result<(), Fail> {
    let rows = [
        (ADMIT_AND_READ, ADMITTED_AND_READ, Status::Done),
        (HEAD, "far 1 out\ncounter 0\nviews 0\nend\n", Status::Done),
        (
            "far 1 line\nservers 1\nslots 1\nhot 0\n0\n",
            "bad line 5\n",
            Status::BadLine(5),
        ),
        (
            "far 1 line\nservers 17\nslots 1\nhot 0\n",
            "too large servers line 2\n",
            Status::TooLarge(Limit::Servers, 2),
        ),
        (
            "far 1 line\nservers 1\nslots 0\nhot 0\n",
            "bad line 3\n",
            Status::BadLine(3),
        ),
        (
            "far 1 line\nservers 1\nslots 1\nhot 0\n020B000000000000000000000001\n",
            "bad line 5\n",
            Status::BadLine(5),
        ),
    ];
    for (input, output, status) in rows {
        let (answer, written) = passed(&rt, rt.alloc(), "line", input.as_bytes(), &NoStageGate)?;
        assert_eq!(rt; answer, status);
        assert!(rt; written.as_slice() == output.as_bytes());
    }
    Ok(())
}

/// Other arguments write the usage line.
#[test]
fn other_arguments_pass_nothing(rt: HostRuntime) -> Result<(), Fail> {
    let (answer, written) = passed(&rt, rt.alloc(), "line line", HEAD.as_bytes(), &NoStageGate)?;
    assert_eq!(rt; answer, Status::Usage);
    assert!(rt; written.as_slice() == USAGE.as_bytes());
    Ok(())
}

/// So many turns of its loop a held worker waits at most.
const TURNS: u32 = 10_000_000;

/// A gate that holds the worker of a group before one of its flights until that of another group has come to one of
/// its own.
#[derive(Drop)]
struct Hold {
    held: (u32, u32),
    until: (u32, u32),
    came: AtomicBool,
    gave_up: AtomicBool,
}

impl StageGate for Hold {
    fn at(&self, group: u32, flight: u32) {
        if group == self.until.0 && flight == self.until.1 {
            self.came.store(true, Ordering::SeqCst);
        }
        if group != self.held.0 || flight != self.held.1 {
            return;
        }
        for _ in 0..TURNS {
            if self.came.load(Ordering::SeqCst) {
                return;
            }
            thread::yield_now();
        }
        self.gave_up.store(true, Ordering::SeqCst);
    }
}

/// The last group passes the first packet before the head lets the second in, and the other way round.
#[test]
fn groups_may_wait_for_one_another(rt: HostRuntime) -> Result<(), Fail> {
    for (held, until) in [((0, 2), (4, 1)), ((4, 1), (0, 2))] {
        let gate = Hold {
            held,
            until,
            came: AtomicBool::new(false),
            gave_up: AtomicBool::new(false),
        };
        let (answer, written) = passed(&rt, rt.alloc(), "line", ADMIT_AND_READ.as_bytes(), &gate)?;
        assert_eq!(rt; answer, Status::Done);
        assert!(rt; written.as_slice() == ADMITTED_AND_READ.as_bytes());
        assert!(rt; !gate.gave_up.load(Ordering::SeqCst));
    }
    Ok(())
}
