use crate::command::{Command, command_of};
use crate::making::made_of;
use crate::saying::{refuse, say};
use crate::starting::Made;
use crate::status::Status;
use crate::task::task_of;
use far_outside::{CleanSink, CleanSource, Keeper, Sink, Source};
use server_keeper::MapKeeper;
use std::alloc::Global;

/// The greatest number of bytes of an input.
pub const INPUT_LIMIT: u32 = 16_777_216;

ghost use Rattle.std.specs.Prelude.{◌≡◌, ◌≢◌, ◌≤◌, Some, map, string_bytes};
ghost use Rattle.far_outside.specs.Faults.{Rose};
ghost use Rattle.run_main.specs.Commands.{HasNumbers, Reads, command_of};
ghost use Rattle.run_main.specs.FaultCounts.{Unfailed};
ghost use Rattle.run_main.specs.Gone.{IsKeptBy};
ghost use Rattle.run_main.specs.Replay.{Tells, TellsLinearizableReport, WroteLinearizableReport};
ghost use Rattle.run_main.specs.Top.{HasCause, IsDecided, IsSettled, MadeNoRun, ReadFirstFor, ReadsNothing};
ghost use Rattle.run_main.specs.Top.{WroteDue};

/// How a top call ended, and the keeper.
pub struct Ended<K: Keeper + Drop> {
    pub status: Status,
    pub keeper: K,
}

/// Does what the command says.
fn obey<S: Source, D: Sink, K: Keeper + Drop>(
    alloc: Global,
    command: Command,
    source: &mut S,
    sink: &mut D,
    keeper: K,
) -> Ended<K>
    requires { HasNumbers command }
    ensures causes { HasCause (Some command) (S.left source.old) (Rose (S.fault_count source.old)
        (S.fault_count source.new)) (Rose (D.fault_count sink.old) (D.fault_count sink.new)) (Rose
        (K.fault_count keeper) (K.fault_count result.keeper)) result.status }
    ensures settled { IsSettled (Some command) (S.left source.old) (¬ Rose (S.fault_count source.old)
        (S.fault_count source.new)) (¬ Rose (D.fault_count sink.old) (D.fault_count sink.new)) (¬ Rose
        (K.fault_count keeper) (K.fault_count result.keeper)) result.status }
    ensures unfailed { Unfailed (S.left source.old) (S.fault_count source.new ≡ S.fault_count source.old)
        (D.fault_count sink.new ≡ D.fault_count sink.old) (K.fault_count result.keeper ≡ K.fault_count keeper)
        result.status }
    ensures written { WroteDue (Some command) (S.left source.old)
        (K.records result.keeper) (D.written sink.old) (D.written sink.new) result.status }
    ensures first { ReadFirstFor (Some command) (S.left source.old) (S.left source.new) result.status }
    ensures untouched { ReadsNothing (Some command) → source.new ≡ source.old }
    ensures no_run { MadeNoRun (Some command) (S.left source.old) result.status → result.keeper ≡ keeper }
    ensures tells { Tells (K.records keeper) → Tells (K.records result.keeper) }
    ensures gone { Tells (K.records keeper) → IsKeptBy (Some command) (S.left source.old) (K.records keeper)
        (K.records result.keeper) }
{
    let task = match task_of(alloc, command, source) {
        Ok(task) => task,
        Err(status) => {
            return Ended {
                status: refuse(alloc, sink, status),
                keeper,
            };
        }
    };
    let Made { text, keeper } = made_of(alloc, task, keeper);
    match text {
        Ok(text) => Ended {
            status: say(sink, &text, Status::Done),
            keeper,
        },
        Err(status) => Ended { status, keeper },
    }
}

/// Does what the arguments say, which is one of these:
///
/// - `replay` reads a workload to its end, runs it by its picks, and writes the report;
/// - `image` reads a workload to its end, runs it by its picks until a recovery begins, and writes the image of what is
///   kept then; a workload without an order to stop is stopped at the greatest step;
/// - `recover` reads an image to its end, and writes the map that a recovery makes of it;
/// - `audit` reads a report to its end, and writes `audit yes` where the lines of its history are good;
/// - `link` reads the events of a link to their end, makes them happen, and writes what each of them tells;
/// - `bulk START OPS` reads nothing, runs the workload that is generated from the number START, with so many
///   operations, and writes the summary.
///
/// A run is made over the keeper, which is begun anew; `recover`, `audit` and `link` make none. The lines of the history
/// of what `replay` writes are good.
///
/// `Usage` where the arguments are none of these; `TooLarge(Ops, 0)` where OPS is more than `OP_LIMIT`; `BadLine` and
/// `TooLarge` where the input is no workload, no report or no events of a link, with its first faulty line, or has more
/// than `INPUT_LIMIT` bytes; `BadImage` and `Conflict` where it is no image, with its first faulty line; `Wrong` where
/// the lines of a report are not good, with the first line of the input up to which they are not: each writes one line.
/// `ReadFault`, `WriteFault` and `KeeperFault` where a read, a write or a call of the keeper failed. The first cause
/// decides, in the order arguments, reading, grammar, run, writing; nothing is written before the run has ended. The
/// keeper comes back with the servers' records at the end of the run, or where it stopped for want of memory or at a
/// fault of the keeper; where no run was made it is as it was.
///
/// The source's count of faults is as before unless the answer is `ReadFault` or `Memory`, or the input has more than
/// `INPUT_LIMIT` bytes; the sink's unless it is `WriteFault` or `Memory`; the keeper's unless it is
/// `KeeperFault` or `Memory`.
pub fn top_calm<S: Source, D: Sink, K: Keeper + Drop>(
    alloc: Global,
    words: &[String],
    source: &mut S,
    sink: &mut D,
    keeper: K,
) -> Ended<K>
    // Each answer has its cause, and the first cause decides.
    ensures causes { HasCause (command_of (map string_bytes words.now)) (S.left source.old) (Rose
        (S.fault_count source.old) (S.fault_count source.new)) (Rose (D.fault_count sink.old) (D.fault_count sink.new))
        (Rose (K.fault_count keeper) (K.fault_count result.keeper)) result.status }
    // Where no count rose the answer is the one that is due, unless memory was refused.
    ensures settled { IsSettled (command_of (map string_bytes words.now)) (S.left source.old) (¬ Rose
        (S.fault_count source.old) (S.fault_count source.new)) (¬ Rose (D.fault_count sink.old)
        (D.fault_count sink.new)) (¬ Rose (K.fault_count keeper) (K.fault_count result.keeper)) result.status }
    // A count of faults is as before where the answer names neither its fault nor want of memory.
    ensures unfailed { Unfailed (S.left source.old) (S.fault_count source.new ≡ S.fault_count source.old)
        (D.fault_count sink.new ≡ D.fault_count sink.old) (K.fault_count result.keeper ≡ K.fault_count keeper)
        result.status }
    // What is written is what was due, and it comes only after all was read.
    ensures written { WroteDue (command_of (map string_bytes words.now)) (S.left source.old) (K.records result.keeper) (D.written sink.old)
        (D.written sink.new) result.status }
    ensures first { ReadFirstFor (command_of (map string_bytes words.now)) (S.left source.old)
        (S.left source.new) result.status }
    // What `replay` has written is a report whose history lines are the operations of the workload, each exactly once,
    // legal and in real-time order as they are printed.
    ensures linearizable { command_of (map string_bytes words.now) ≡ Some Command.Replay → result.status ≡ Status.Done
        → TellsLinearizableReport (S.left source.old) (K.records result.keeper) (D.written sink.old)
        (D.written sink.new) }
    // Where there is nothing to read, nothing is read.
    ensures untouched { ReadsNothing (command_of (map string_bytes words.now)) → source.new ≡ source.old }
    // Where no run was made the keeper is as it was; one that tells its records goes on telling them.
    ensures no_run { MadeNoRun (command_of (map string_bytes words.now)) (S.left source.old) result.status →
        result.keeper ≡ keeper }
    ensures tells { Tells (K.records keeper) → Tells (K.records result.keeper) }
    // However the call ends, the keeper is as it was, or has the servers' records after some events of the run.
    ensures gone { Tells (K.records keeper) → IsKeptBy (command_of (map string_bytes words.now)) (S.left source.old)
        (K.records keeper) (K.records result.keeper) }
{
    match command_of(words) {
        Some(command) => obey(alloc, command, source, sink, keeper),
        None => Ended {
            status: refuse(alloc, sink, Status::Usage),
            keeper,
        },
    }
}

/// The top call over memory, where no read, no write and no call of the keeper fails: the answer is the text of the
/// command, the refusal that is due, or want of memory.
pub fn top_calm_in_memory(
    alloc: Global,
    words: &[String],
    source: &mut CleanSource,
    sink: &mut CleanSink,
    keeper: MapKeeper,
) -> Ended<MapKeeper>
    ensures no_read_fault { result.status ≢ Status.ReadFault }
    ensures no_write_fault { result.status ≢ Status.WriteFault }
    ensures no_keeper_fault { result.status ≢ Status.KeeperFault }
    ensures decided { IsDecided (command_of (map string_bytes words.now)) source.old result.status }
    ensures written { WroteDue (command_of (map string_bytes words.now)) (Some source.old) (Some result.keeper)
        (Some sink.old) (Some sink.new) result.status }
    ensures linearizable { command_of (map string_bytes words.now) ≡ Some Command.Replay → result.status ≡ Status.Done
        → WroteLinearizableReport source.old sink.old sink.new }
    ensures no_run { MadeNoRun (command_of (map string_bytes words.now)) (Some source.old) result.status → result.keeper
        ≡ keeper }
{
    top_calm(alloc, words, source, sink, keeper)
}
