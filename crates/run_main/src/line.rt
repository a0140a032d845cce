ghost use Rattle.std.specs.Prelude.{◌≡◌, ◌≢◌, ◌↔◌, ◌≤◌, length, IsTrue, IfErr, IfOk, IfSome, OnOk, codes, map};
ghost use Rattle.std.specs.Prelude.{string_bytes};
ghost use Rattle.far_base.specs.Limits.{IsConfig};
ghost use Rattle.far_base.specs.declared.plan.TheConstants.{OP_LIMIT};
ghost use Rattle.far_outside.specs.Faults.{Rose};
ghost use Rattle.run_main.specs.FaultCounts.{StoppedReading};
ghost use Rattle.run_main.specs.LineCall.{HasLineCause, IsLineParsingFault, IsLineReadingFault, IsLineSettled};
ghost use Rattle.run_main.specs.LineCall.{IsLineWord, IsPacketLine, IsReadLine, LineWroteDue, SettlesLine};
ghost use Rattle.run_main.specs.LineCall.{line_output};
ghost use Rattle.run_main.specs.Run.{IsUsageAnswer};
ghost use Rattle.run_main.specs.Top.{ReadFirst, ReadToEnd};

use crate::reading::read_text;
use crate::saying::{refuse, say};
use crate::status::Status;
use crate::top::INPUT_LIMIT;
use far_base::Memory;
use far_outside::{Sink, Source};
use line_text::{PacketLine, output_text, parse};
use stage_workers::{StageGate, run_stages};
use std::alloc::Global;
use std::sync::Wait;
use std::thread::Threads;
use switch_staged::StagedSwitch;

fn is_line_word(word: &str) -> bool
    ensures { IsTrue result ↔ (word.now ≡ codes "line") }
{
    word == "line"
}

fn is_line(words: &[String]) -> bool
    ensures { IsTrue result ↔ IsLineWord (map string_bytes words.now) }
{
    match words {
        [word] => is_line_word(word.as_str()),
        _ => false,
    }
}

/// The line of packets that the text is.
fn parsed_line(alloc: Global, text: &[u8]) -> Result<PacketLine, Status>
    requires { length text.now ≤ INPUT_LIMIT }
    ensures line { IfOk result (λ line. IsPacketLine text.now line) }
    ensures config { IfOk result (λ line. IsConfig line.config) }
    ensures few { IfOk result (λ line. length line.packets ≤ OP_LIMIT) }
    ensures cause { IfErr result (IsLineParsingFault text.now) }
    ensures settled { SettlesLine text.now result }
{
    match parse(alloc, text) {
        Ok(line) => Ok(line),
        Err(fault) => Err(Status::from(fault)),
    }
}

/// The line of packets that the source has left, which is read to its end.
fn read_line<S: Source>(alloc: Global, source: &mut S) -> Result<PacketLine, Status>
    ensures read { IfOk result (λ line. IfSome (S.left source.old) (λ input. IsReadLine input line)) }
    ensures config { IfOk result (λ line. IsConfig line.config) }
    ensures few { IfOk result (λ line. length line.packets ≤ OP_LIMIT) }
    ensures end { OnOk result (ReadToEnd (S.left source.old) (S.left source.new)) }
    ensures unfailed { OnOk result (S.fault_count source.new ≡ S.fault_count source.old) }
    ensures unstopped { IfErr result (λ status. ¬ (StoppedReading (S.left source.old) status)
        → S.fault_count source.new ≡ S.fault_count source.old) }
    ensures cause { IfErr result (IsLineReadingFault (S.left source.old) (Rose (S.fault_count source.old)
        (S.fault_count source.new))) }
    ensures first { IfErr result (ReadFirst (S.left source.old) (S.left source.new)) }
    ensures calm { ¬ Rose (S.fault_count source.old) (S.fault_count source.new) → IfSome (S.left source.old)
        (λ input. SettlesLine input result) }
{
    let text = read_text(alloc, source)?;
    parsed_line(alloc, &text)
}

/// What leaves a new switch with the packets, and what it shows afterwards.
fn passed<G: StageGate + Sync, R: Threads + Wait + Sync>(
    rt: &R,
    alloc: Global,
    line: &PacketLine,
    gate: &G,
) -> Result<Vec<u8>, Memory>
    requires config { IsConfig line.now.config }
    requires few { length line.now.packets ≤ OP_LIMIT }
    ensures { IfOk result (λ text. text.items ≡ line_output line.now) }
{
    let mut switch = StagedSwitch::new(alloc, line.config, 1, 0)?;
    let emits = run_stages(rt, alloc, &mut switch, &line.packets, gate)?;
    output_text(alloc, &emits, &switch)
}

/// Does what the arguments say, with a thread for each group of stages: `line` reads the sizes of a switch and packets
/// to the end, passes the packets through a new switch of the first epoch, and writes what left with each of them, the
/// counter, and the records that the switch shows. Each worker passes the gate before each of its flights.
///
/// `Usage` where the arguments are not the one word `line`; `BadLine` and `TooLarge` where the input is no line of
/// packets, with its first faulty line, or has more than `INPUT_LIMIT` bytes: each writes one line. `ReadFault` and
/// `WriteFault` where a read or a write failed. The first cause decides, in the order arguments, reading, grammar,
/// passing, writing; nothing is written before all packets have passed.
///
/// The source's count of faults is as before unless the answer is `ReadFault` or `Memory`, or the input has more than
/// `INPUT_LIMIT` bytes; the sink's unless it is `WriteFault` or `Memory`.
pub fn top_line<S: Source, D: Sink, G: StageGate + Sync, R: Threads + Wait + Sync>(
    rt: &R,
    alloc: Global,
    words: &[String],
    source: &mut S,
    sink: &mut D,
    gate: &G,
) -> Status
    // Each answer has its cause, and the first cause decides.
    ensures causes { HasLineCause (map string_bytes words.now) (S.left source.old) (Rose (S.fault_count source.old)
        (S.fault_count source.new)) (Rose (D.fault_count sink.old) (D.fault_count sink.new)) result }
    // Where no count rose the answer is the one that is due, unless memory was refused.
    ensures settled { IsLineSettled (map string_bytes words.now) (S.left source.old) (¬ Rose (S.fault_count source.old)
        (S.fault_count source.new)) (¬ Rose (D.fault_count sink.old) (D.fault_count sink.new)) result }
    // A count of faults is as before where the answer names neither its fault nor want of memory.
    ensures unfailed_source { ¬ (StoppedReading (S.left source.old) result) → S.fault_count source.new
        ≡ S.fault_count source.old }
    ensures unfailed_sink { result ≢ Status.WriteFault → result ≢ Status.Memory → D.fault_count sink.new
        ≡ D.fault_count sink.old }
    // What is written is what was due, and an output comes only after all was read.
    ensures written { LineWroteDue (map string_bytes words.now) (S.left source.old) (D.written sink.old)
        (D.written sink.new) result }
    ensures first { ReadFirst (S.left source.old) (S.left source.new) result }
    // Other words do nothing but write the usage line.
    ensures other_words { ¬ (IsLineWord (map string_bytes words.now)) → (S.left source.new ≡ S.left source.old)
        × IsUsageAnswer result }
{
    if !is_line(words) {
        return refuse(alloc, sink, Status::Usage);
    }
    let line = match read_line(alloc, source) {
        Ok(line) => line,
        Err(status) => return refuse(alloc, sink, status),
    };
    match passed(rt, alloc, &line, gate) {
        Ok(text) => say(sink, &text, Status::Done),
        Err(_) => Status::Memory,
    }
}
