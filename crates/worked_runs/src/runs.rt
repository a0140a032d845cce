use crate::calls::{ran, ran_between};
use crate::replays::report_by;
use far_base::Party;
use far_outside::{Gate, MemSink, MemSource, NoGate};
use run_main::Status;
use std::alloc::Global;
use std::sync::atomic::{AtomicBool, AtomicU64, Ordering};
use std::test::Fail;
use std::thread;
use worked_texts::{ROWS, USAGE};

/// So many turns of its loop a held worker waits at most.
const TURNS: u32 = 10_000_000;

/// A gate that holds one client's worker until the other client was answered.
#[derive(Drop)]
struct Hold {
    held: Party,
    other: Party,
    other_is_answered: AtomicBool,
    gave_up: AtomicBool,
    passes: AtomicU64,
    second_seen: AtomicU64,
}

impl Hold {
    fn new(held: u32, other: u32) -> Self {
        Hold {
            held: Party::Client(held),
            other: Party::Client(other),
            other_is_answered: AtomicBool::new(false),
            gave_up: AtomicBool::new(false),
            passes: AtomicU64::new(0),
            second_seen: AtomicU64::new(0),
        }
    }

    fn wait(&self) {
        for _ in 0..TURNS {
            if self.other_is_answered.load(Ordering::SeqCst) {
                return;
            }
            thread::yield_now();
        }
        self.gave_up.store(true, Ordering::SeqCst);
    }
}

impl Gate for Hold {
    fn pass(&self, who: Party, seen: u64) {
        if who != self.held {
            return;
        }
        if self.passes.fetch_add(1, Ordering::SeqCst) == 1 {
            self.second_seen.store(seen, Ordering::SeqCst);
        }
        self.wait();
    }

    fn after(&self, who: Party, answered: Option<u32>) {
        if who == self.other && answered.is_some() {
            self.other_is_answered.store(true, Ordering::SeqCst);
        }
    }
}

/// A gate that holds workers up for a while, each time for another while.
#[derive(Drop)]
struct Uneven {
    run: u64,
    passes: AtomicU64,
}

/// The greatest number of times that a worker is held up at one pass.
const WHILE: u64 = 8;

impl Gate for Uneven {
    fn pass(&self, _who: Party, seen: u64) {
        let pass = self.passes.fetch_add(1, Ordering::SeqCst);
        let mixed = (self.run ^ seen.rotate_left(17) ^ pass.rotate_left(34)).wrapping_mul(
            0x9E37_79B9_7F4A_7C15,
        );
        for _ in 0..(mixed >> 32) % WHILE {
            thread::yield_now();
        }
    }

    fn after(&self, _who: Party, _answered: Option<u32>) {}
}

const TWO_PUTS: &str = "far 1\nclients 2\nservers 1\nslots 1\nhot 0\nput 0 a =x\nput 1 a =y\n";

/// One event after the other can happen, so there is one report.
#[test]
fn a_run_of_one_client_has_one_order(rt: HostRuntime) -> Result<(), Fail> {
    let (input, output) = ROWS[1];
    let (ended, written) = ran(&rt, rt.alloc(), "run", input.as_bytes(), &NoGate)?;
    assert_eq!(rt; ended.status, Status::Done);
    assert_eq!(rt; ended.events.len(), 10);
    assert!(rt; written.as_slice() == output.as_bytes());
    Ok(())
}

/// Workers run side by side: one waits for another, whichever it is. The steps that the switch's worker publishes are
/// seen by the one that waited.
#[test]
fn a_worker_may_wait_for_another(rt: HostRuntime) -> Result<(), Fail> {
    for (held, other, output) in [
        (
            0,
            1,
            "far 1 report\nsteps 10\nhistory 2\n2 1 put a 1 =y server 1 5\n1 0 put a 2 =x server 6 10\n\
             control 0\nmap 1\na 2 =x\nend\n",
        ),
        (
            1,
            0,
            "far 1 report\nsteps 10\nhistory 2\n1 0 put a 1 =x server 1 5\n2 1 put a 2 =y server 6 10\n\
             control 0\nmap 1\na 2 =y\nend\n",
        ),
    ] {
        let gate = Hold::new(held, other);
        let (ended, written) = ran(&rt, rt.alloc(), "run", TWO_PUTS.as_bytes(), &gate)?;
        assert_eq!(rt; ended.status, Status::Done);
        assert!(rt; !gate.gave_up.load(Ordering::SeqCst));
        assert!(rt; gate.second_seen.load(Ordering::SeqCst) >= 2);
        assert!(rt; written.as_slice() == output.as_bytes());
    }
    Ok(())
}

#[test]
fn a_refused_run_is_one_line(rt: HostRuntime) -> Result<(), Fail> {
    for (line, input, output, expected) in [
        ("replay", TWO_PUTS, USAGE, Status::Usage),
        ("run run", TWO_PUTS, USAGE, Status::Usage),
        ("run", "far 1\n", "bad line 2\n", Status::BadLine(2)),
    ] {
        let (ended, written) = ran(&rt, rt.alloc(), line, input.as_bytes(), &NoGate)?;
        assert_eq!(rt; ended.status, expected);
        assert!(rt; ended.events.is_empty());
        assert!(rt; written.as_slice() == output.as_bytes());
    }
    Ok(())
}

/// Where the report could not be written the events are handed back all the same.
#[test]
fn a_failed_read_or_write_of_a_run(rt: HostRuntime) -> Result<(), Fail> {
    let alloc = rt.alloc();
    for (input, read, write, expected, events) in [
        (ROWS[1].0, 1, 0, Status::ReadFault, 0),
        (ROWS[1].0, 2, 0, Status::ReadFault, 0),
        (ROWS[1].0, 0, 1, Status::WriteFault, 10),
        ("far 1\n", 0, 1, Status::WriteFault, 0),
    ] {
        let mut source = MemSource::new(input.as_bytes().to_vec(alloc)?, [read].to_vec(alloc)?);
        let mut sink = MemSink::new(alloc, [write].to_vec(alloc)?);
        let ended = ran_between(&rt, alloc, "run", &mut source, &mut sink, &NoGate)?;
        assert_eq!(rt; ended.status, expected);
        assert_eq!(rt; ended.events.len(), events);
        assert!(rt; sink.bytes().is_empty());
    }
    Ok(())
}

/// A put of each of 64 clients, on 8 keys of 16 servers.
fn many_clients(alloc: Global) -> Result<String, Fail> {
    let mut text = String::from_str(alloc, "far 1\nclients 64\nservers 16\nslots 4\nhot 0\n")?;
    for client in 0..64 {
        let key = client % 8;
        write!(text, "put {client} k{key} =v{client}\n")?;
    }
    Ok(text)
}

/// The run by the events that it hands back writes the same.
#[test]
fn a_run_of_many_parties_is_its_events(rt: HostRuntime) -> Result<(), Fail> {
    let alloc = rt.alloc();
    let input = many_clients(alloc)?;
    let (ended, written) = ran(&rt, alloc, "run", input.as_bytes(), &NoGate)?;
    assert_eq!(rt; ended.status, Status::Done);
    let report = report_by(alloc, &input, &ended.events)?;
    assert!(rt; report == Some(written));
    Ok(())
}

/// Two stops, one of them at a write, while two clients read and write two keys.
const STOPS: &str =
    "far 1\nclients 2\nservers 2\nslots 1\nhot 2\nput 0 a =p\nput 1 b =q\nget 0 b\nget 1 a\n\
     put 0 a =r\ndel 1 a\nget 0 a\nget 1 b\nadmit 0 a\nsnap 4\nstop 12\nsnap 20\nstop writereq 4\n";

/// So many runs of it are made, in whatever order the threads come.
const RUNS: u64 = 1_000;

#[test]
fn runs_with_stops_are_their_events(rt: HostRuntime) -> Result<(), Fail> {
    let alloc = rt.alloc();
    for run in 0..RUNS {
        let gate = Uneven {
            run,
            passes: AtomicU64::new(0),
        };
        let (ended, written) = ran(&rt, alloc, "run", STOPS.as_bytes(), &gate)?;
        assert_eq!(rt; ended.status, Status::Done);
        let report = report_by(alloc, STOPS, &ended.events)?;
        assert!(rt; report == Some(written), "run {run}");
    }
    Ok(())
}
