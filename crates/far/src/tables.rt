ghost use Rattle.std.specs.Prelude.{◌≡◌, ◌≤◌, OnOk, OnErr};
ghost use Rattle.far_outside.specs.Faults.{Rose};

use far_base::{Key, Record};
use far_outside::{CleanSink, CleanSource, Keeper, KeeperFault};
use run_main::{Ended, Status, top_calm};
use server_keeper::{MapKeeper, TableKeeper};
use std::alloc::Global;
use std::test::Fail;

/// A put and a get.
const PUT_AND_GET: &str = "far 1\nclients 1\nservers 1\nslots 1\nhot 0\nput 0 a =x\nget 0 a\n";

/// A snapshot lets a client drop a record, and then the switch stops.
const RELEASED: &str =
    "far 1\nclients 1\nservers 1\nslots 1\nhot 0\nput 0 a =p\nget 0 a\nadmit 0 a\nsnap 6\n\
     stop 12\npicks 1 1 1 0 0 1 1 1 1 1 0 1 1 1 1 1 1 1 1\n";

/// The switch stops in the middle of a second snapshot.
const BETWEEN: &str =
    "far 1\nclients 1\nservers 1\nslots 1\nhot 0\nput 0 a =p\nput 0 a =q\nget 0 a\nadmit 0 a\n\
     snap 7\nsnap 16\nstop 18\npicks 1 1 1 0 0 0 1 1 1 1 1 0 0 0 1 1 1 1 1 1 1 1 1 1 1 1\n";

/// The workloads, each with its report as it was computed by hand.
const REPORTS: [(&str, &str); 3] = [
    (
        PUT_AND_GET,
        "far 1 report\nsteps 10\nhistory 2\n1 0 put a 1 =x server 1 5\n\
         2 0 get a 1 =x server 6 10\ncontrol 0\nmap 1\na 1 =x\nend\n",
    ),
    (
        RELEASED,
        "far 1 report\nsteps 27\nhistory 2\n1 0 put a 1 =p switch 5 14\n\
         2 0 get a 1 =p server 23 27\ncontrol 4\nadmitted 4 0 a 1\nsnapshot 11 1 1 1\n0 a 1 =p\n\
         stopped 13\nrecovered 22 1 1\na 1 =p\nmap 1\na 1 =p\nend\n",
    ),
    (
        BETWEEN,
        "far 1 report\nsteps 36\nhistory 3\n1 0 put a 1 =p switch 5 7\n\
         2 0 put a 2 =q switch 14 16\n3 0 get a 2 =q server 31 36\ncontrol 4\nadmitted 4 0 a 1\n\
         snapshot 12 1 1 1\n0 a 1 =p\nstopped 19\nrecovered 30 2 1\na 2 =q\nmap 1\na 2 =q\nend\n",
    ),
];

fn words_in(alloc: Global, line: &str) -> Result<Vec<String>, Fail> {
    let mut words = Vec::new(alloc);
    for word in line.split(' ') {
        words.push(String::from_str(alloc, word)?)?;
    }
    Ok(words)
}

/// The status, what is written, and the keeper that comes back, where no read and no write fails.
fn answered_over<K: Keeper + Drop>(
    alloc: Global,
    line: &str,
    input: &str,
    keeper: K,
) -> Result<(Status, Vec<u8>, K), Fail> {
    let words = words_in(alloc, line)?;
    let mut source = CleanSource::new(input.as_bytes().to_vec(alloc)?);
    let mut sink = CleanSink::new(alloc);
    let Ended { status, keeper } = top_calm(alloc, &words, &mut source, &mut sink, keeper);
    Ok((status, sink.bytes().to_vec(alloc)?, keeper))
}

/// A database serves as a map does, for one run after the other.
#[test]
fn a_database_gives_the_same_reports(rt: HostRuntime) -> Result<(), Fail> {
    let alloc = rt.alloc();
    let mut keeper = TableKeeper::new(alloc).map_err(|_| "no database")?;
    for (input, output) in REPORTS {
        let (status, written, same) = answered_over(alloc, "replay", input, keeper)?;
        assert_eq!(rt; status, Status::Done);
        assert!(rt; written.as_slice() == output.as_bytes());
        keeper = same;
    }
    Ok(())
}

#[test]
fn a_database_gives_the_same_images(rt: HostRuntime) -> Result<(), Fail> {
    let alloc = rt.alloc();
    let mut keeper = TableKeeper::new(alloc).map_err(|_| "no database")?;
    for (line, input) in [
        ("image", PUT_AND_GET),
        ("image", RELEASED),
        ("image", BETWEEN),
        ("bulk 7 200", ""),
    ] {
        let (_status, expected, _keeper) = answered_over(
            alloc,
            line,
            input,
            MapKeeper::new(alloc),
        )?;
        let (status, written, same) = answered_over(alloc, line, input, keeper)?;
        assert_eq!(rt; status, Status::Done);
        assert!(rt; written == expected);
        keeper = same;
    }
    Ok(())
}

/// A keeper whose call of one number fails. The calls of `begin`, `get`, `put`, `top` and `list` are counted together,
/// from 1.
#[derive(Drop)]
struct Failing<K: Keeper + Drop> {
    keeper: K,
    calls: u64,
    fails: u64,
    faults: u64,
}

/// Counts a call, which fails where it has the number.
fn count_call(calls: &mut u64, fails: u64, faults: &mut u64) -> Result<(), KeeperFault>
    ensures still { OnOk result (faults.new ≡ faults.old) }
    ensures later { faults.old ≤ faults.new }
    ensures cause { OnErr result (Rose faults.old faults.new) }
{
    *calls = calls.saturating_add(1);
    if *calls == fails {
        *faults = faults.saturating_add(1);
        return Err(KeeperFault::Failed);
    }
    Ok(())
}

/// Counts a failure.
fn noted<T>(faults: &mut u64, answer: Result<T, KeeperFault>) -> Result<T, KeeperFault>
    ensures same { result ≡ answer }
    ensures still { OnOk result (faults.new ≡ faults.old) }
    ensures later { faults.old ≤ faults.new }
    ensures cause { OnErr result (Rose faults.old faults.new) }
{
    if answer.is_err() {
        *faults = faults.saturating_add(1);
    }
    answer
}

impl<K: Keeper + Drop> Keeper for Failing<K> {
    ghost records = { λ k. K.records k.keeper };

    ghost fault_count = { λ k. k.faults };

    ghost server_count = { λ k. K.server_count k.keeper };

    ghost ceiling = { λ k. K.ceiling k.keeper };

    fn faults(&self) -> u64 {
        self.faults
    }

    fn begin(&mut self, servers: u32) -> Result<(), KeeperFault> {
        count_call(&mut self.calls, self.fails, &mut self.faults)?;
        noted(&mut self.faults, self.keeper.begin(servers))
    }

    fn get(&mut self, server: u32, key: &Key) -> Result<Record, KeeperFault> {
        count_call(&mut self.calls, self.fails, &mut self.faults)?;
        noted(&mut self.faults, self.keeper.get(server, key))
    }

    fn put(&mut self, server: u32, rec: &Record) -> Result<(), KeeperFault> {
        count_call(&mut self.calls, self.fails, &mut self.faults)?;
        noted(&mut self.faults, self.keeper.put(server, rec))
    }

    fn top(&mut self, server: u32) -> Result<u64, KeeperFault> {
        count_call(&mut self.calls, self.fails, &mut self.faults)?;
        noted(&mut self.faults, self.keeper.top(server))
    }

    fn list(&mut self, server: u32, into: &mut Vec<Record>) -> Result<(), KeeperFault> {
        count_call(&mut self.calls, self.fails, &mut self.faults)?;
        noted(&mut self.faults, self.keeper.list(server, into))
    }
}

/// How often a command ends with the keeper's fault, where its first call fails, then its second, and so on until it
/// is done. `None` where an end is another one, or something was written before it.
fn failing_calls(alloc: Global, line: &str, input: &str) -> Result<Option<u64>, Fail> {
    for fails in 1..1000 {
        let keeper = Failing {
            keeper: TableKeeper::new(alloc).map_err(|_| "no database")?,
            calls: 0,
            fails,
            faults: 0,
        };
        let (status, written, _keeper) = answered_over(alloc, line, input, keeper)?;
        match status {
            Status::Done => return Ok(Some(fails - 1)),
            Status::KeeperFault if written.is_empty() => {}
            _ => return Ok(None),
        }
    }
    Ok(None)
}

/// Each call of the keeper may fail: to begin, to get, to put, to name the greatest number, and to list.
#[test]
fn each_call_of_the_keeper_may_fail(rt: HostRuntime) -> Result<(), Fail> {
    for (line, input, calls) in [
        ("replay", PUT_AND_GET, 4),
        ("replay", RELEASED, 5),
        ("replay", BETWEEN, 6),
        ("image", PUT_AND_GET, 5),
        ("image", RELEASED, 2),
        ("image", BETWEEN, 2),
        ("recover", "far 2 image\nend\n", 0),
    ] {
        assert_eq!(rt; failing_calls(rt.alloc(), line, input)?, Some(calls));
    }
    Ok(())
}
