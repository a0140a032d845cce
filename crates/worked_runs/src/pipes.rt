use crate::calls::{piped, piped_between};
use far_base::Party;
use far_outside::{MemSink, MemSource};
use pipe_fabric::{NoPipeGate, PipeGate};
use run_main::{Limit, Status};
use std::sync::atomic::{AtomicBool, AtomicU64, Ordering};
use std::test::Fail;
use std::thread;
use worked_texts::{ROWS, USAGE};

/// So many turns of its loop a held worker waits at most.
const TURNS: u32 = 10_000_000;

/// Two keys of two pipes.
const TWO_KEYS: &str = "far 1\nclients 1\nservers 1\nslots 1\nhot 0\nput 0 a =x\nput 0 b =y\n";

const TWO_PIPES: &str =
    "far 1 pipes 2\npipe 0\nfar 1 report\nsteps 5\nhistory 1\n1 0 put b 1 =y server 1 5\n\
     control 0\nmap 1\nb 1 =y\nend\npipe 1\nfar 1 report\nsteps 5\nhistory 1\n1 0 put a 1 =x server 1 5\n\
     control 0\nmap 1\na 1 =x\nend\nend\n";

/// A gate that holds a worker of one pipe, which has that pipe's lock, until a worker has the lock of the other pipe.
#[derive(Drop)]
struct Crossed {
    held: u32,
    other: u32,
    turns_held: AtomicU64,
    other_has_its_lock: AtomicBool,
    gave_up: AtomicBool,
}

impl Crossed {
    fn new(held: u32, other: u32) -> Self {
        Crossed {
            held,
            other,
            turns_held: AtomicU64::new(0),
            other_has_its_lock: AtomicBool::new(false),
            gave_up: AtomicBool::new(false),
        }
    }

    fn wait(&self) {
        for _ in 0..TURNS {
            if self.other_has_its_lock.load(Ordering::SeqCst) {
                return;
            }
            thread::yield_now();
        }
        self.gave_up.store(true, Ordering::SeqCst);
    }
}

impl PipeGate for Crossed {
    fn pass(&self, _pipe: u32, _who: Party) {}

    fn held(&self, pipe: u32) {
        if pipe == self.other {
            self.other_has_its_lock.store(true, Ordering::SeqCst);
        } else if pipe == self.held && self.turns_held.fetch_add(1, Ordering::SeqCst) == 0 {
            self.wait();
        }
    }
}

/// Each pipe has a lock of its own, and pipes run side by side: one waits in its lock for the other to be in its own,
/// whichever it is.
#[test]
fn a_pipe_may_wait_for_another_in_its_lock(rt: HostRuntime) -> Result<(), Fail> {
    for (held, other) in [(0, 1), (1, 0)] {
        let gate = Crossed::new(held, other);
        let (ended, written) = piped(&rt, rt.alloc(), "pipes 2", TWO_KEYS.as_bytes(), &gate)?;
        assert_eq!(rt; ended.status, Status::Done);
        assert!(rt; !gate.gave_up.load(Ordering::SeqCst));
        assert!(rt; written.as_slice() == TWO_PIPES.as_bytes());
    }
    Ok(())
}

/// Each pipe has the report of its part, and the events of its run.
#[test]
fn pipes_have_a_report_each(rt: HostRuntime) -> Result<(), Fail> {
    let (ended, written) = piped(&rt, rt.alloc(), "pipes 2", TWO_KEYS.as_bytes(), &NoPipeGate)?;
    assert_eq!(rt; ended.status, Status::Done);
    assert!(rt; written.as_slice() == TWO_PIPES.as_bytes());
    assert_eq!(rt; ended.events.len(), 2);
    for events in &ended.events {
        assert_eq!(rt; events.len(), 5);
    }
    Ok(())
}

/// One pipe runs the whole workload.
#[test]
fn one_pipe_has_the_whole(rt: HostRuntime) -> Result<(), Fail> {
    let alloc = rt.alloc();
    let (input, report) = ROWS[1];
    let (ended, written) = piped(&rt, alloc, "pipes 1", input.as_bytes(), &NoPipeGate)?;
    assert_eq!(rt; ended.status, Status::Done);
    let output = format!(in alloc; "far 1 pipes 1\npipe 0\n{report}end\n")?;
    assert!(rt; written.as_slice() == output.as_bytes());
    Ok(())
}

#[test]
fn refused_pipes_are_one_line(rt: HostRuntime) -> Result<(), Fail> {
    for (line, input, output, expected) in [
        ("pipes 0", ROWS[1].0, USAGE, Status::Usage),
        ("pipes 9", ROWS[1].0, USAGE, Status::Usage),
        ("pipes 02", ROWS[1].0, USAGE, Status::Usage),
        ("pipes", ROWS[1].0, USAGE, Status::Usage),
        ("pipes 2 2", ROWS[1].0, USAGE, Status::Usage),
        ("run", ROWS[1].0, USAGE, Status::Usage),
        ("pipes 8", "far 1\n", "bad line 2\n", Status::BadLine(2)),
        (
            "pipes 8",
            "far 1\nclients 1\nservers 17\nslots 1\nhot 0\n",
            "too large servers line 3\n",
            Status::TooLarge(Limit::Servers, 3),
        ),
    ] {
        let (ended, written) = piped(&rt, rt.alloc(), line, input.as_bytes(), &NoPipeGate)?;
        assert_eq!(rt; ended.status, expected);
        assert!(rt; ended.events.is_empty());
        assert!(rt; written.as_slice() == output.as_bytes());
    }
    Ok(())
}

/// Where the reports could not be written the events of all pipes are handed back all the same.
#[test]
fn a_failed_read_or_write_of_pipes(rt: HostRuntime) -> Result<(), Fail> {
    let alloc = rt.alloc();
    for (input, read, write, expected, pipes) in [
        (TWO_KEYS, 1, 0, Status::ReadFault, 0),
        (TWO_KEYS, 0, 1, Status::WriteFault, 8),
        ("far 1\n", 0, 1, Status::WriteFault, 0),
    ] {
        let mut source = MemSource::new(input.as_bytes().to_vec(alloc)?, [read].to_vec(alloc)?);
        let mut sink = MemSink::new(alloc, [write].to_vec(alloc)?);
        let ended = piped_between(&rt, alloc, "pipes 8", &mut source, &mut sink, &NoPipeGate)?;
        assert_eq!(rt; ended.status, expected);
        assert_eq!(rt; ended.events.len(), pipes);
        assert!(rt; sink.bytes().is_empty());
    }
    Ok(())
}
