ghost use Rattle.std.specs.Prelude.{◌≡◌, ◌+◌, ◌<◌, ◌≤◌, ◌^◌, List, length, bytes_eq, None, Some, Ok, Err, IfErr, IfOk};
ghost use Rattle.std.specs.Prelude.{IfSome, OnOk};
ghost use Rattle.far_base.specs.declared.plan.TheConstants.{OP_LIMIT};
ghost use Rattle.far_text.specs.Options.{Shows};
ghost use Rattle.far_text.specs.Pieces.{pieces};
ghost use Rattle.log_audit.specs.Form.{IsReportOf};
ghost use Rattle.log_audit.specs.Reading.{Blames, HasReportFault, IsFoundAs, end_fault, head_of, history_of, report_of};
ghost use Rattle.log_audit.specs.Words.{hist_of, line_as, number_behind, title_of};
ghost use Rattle.log_audit.specs.declared.fault.AuditFault.{AuditFault as Fault};
ghost use Rattle.log_audit.specs.declared.fault.AuditFault.TheVariants.{Memory as NoMemory};
ghost use Rattle.log_audit.specs.declared.line.HistLine.{HistLine as Line};

use crate::fault::AuditFault;
use crate::line::HistLine;
use crate::words::{hist_of, is_word, number_behind};
use far_base::OP_LIMIT;
use far_text::Lines;
use std::alloc::Global;

/// The next line, where it is the first one of a report.
fn next_title<'a>(lines: &mut Lines<'a>) -> Option<&'a [u8]>
    requires { lines.old.read + 1 < 2 ^ 32 }
    ensures line { Shows (λ line. (line.now, lines.new.rest.now)) result (line_as title_of lines.old.rest.now) }
    ensures count { IfSome result (λ _. lines.new.read ≡ lines.old.read + 1) }
    ensures shorter { IfSome result (λ _. length lines.new.rest.now < length lines.old.rest.now) }
{
    let line = lines.next_line()?;
    if is_word(line, b"far 1 report") {
        Some(line)
    } else {
        None
    }
}

/// The number in the next line, where that is the name and a number.
fn next_number(lines: &mut Lines, name: &[u8]) -> Option<u64>
    requires { lines.old.read + 1 < 2 ^ 32 }
    ensures line { Shows (λ number. (number, lines.new.rest.now)) result
        (line_as (number_behind name.now) lines.old.rest.now) }
    ensures count { IfSome result (λ _. lines.new.read ≡ lines.old.read + 1) }
    ensures shorter { IfSome result (λ _. length lines.new.rest.now < length lines.old.rest.now) }
{
    number_behind(name, lines.next_line()?)
}

/// What the next line says of an operation, where it is a line of a history.
fn next_hist(lines: &mut Lines) -> Option<HistLine>
    requires { lines.old.read + 1 < 2 ^ 32 }
    ensures line { Shows (λ line. (line, lines.new.rest.now)) result (line_as hist_of lines.old.rest.now) }
    ensures count { IfSome result (λ _. lines.new.read ≡ lines.old.read + 1) }
    ensures shorter { IfSome result (λ _. length lines.new.rest.now < length lines.old.rest.now) }
{
    hist_of(lines.next_line()?)
}

/// How many lines the history has, by the first three lines.
fn read_head(lines: &mut Lines) -> Result<u32, AuditFault>
    requires { lines.old.read ≡ 0 }
    ensures found { IfOk result (λ count. head_of lines.old.rest.now ≡ Ok (count, lines.new.rest.now)) }
    ensures few { IfOk result (λ count. count ≤ OP_LIMIT) }
    ensures count { OnOk result (lines.new.read ≡ 3) }
    ensures shorter { OnOk result (length lines.new.rest.now ≤ length lines.old.rest.now) }
    ensures fault { IfErr result (λ fault. head_of lines.old.rest.now ≡ Err fault) }
{
    let Some(_title) = next_title(lines) else {
        return Err(AuditFault::BadLine(1));
    };
    let Some(_steps) = next_number(lines, b"steps") else {
        return Err(AuditFault::BadLine(2));
    };
    let Some(count) = next_number(lines, b"history") else {
        return Err(AuditFault::BadLine(3));
    };
    if u64::from(OP_LIMIT) < count {
        return Err(AuditFault::TooLarge(3));
    }
    Ok(count as u32)
}

/// The next lines, so many of them, as lines of a history.
fn read_history(alloc: Global, lines: &mut Lines, count: u32) -> Result<Vec<HistLine>, AuditFault>
    requires { lines.old.read + count + 1 < 2 ^ 32 }
    ensures found { IfOk result (λ history. history_of count (lines.old.read + 1) lines.old.rest.now
        ≡ Ok (history.items, lines.new.rest.now)) }
    ensures count { OnOk result (lines.new.read ≡ lines.old.read + count) }
    ensures shorter { OnOk result (length lines.new.rest.now ≤ length lines.old.rest.now) }
    ensures fault { Blames result (λ fault. history_of count (lines.old.read + 1) lines.old.rest.now ≡ Err fault) }
{
    let mut history = Vec::new(alloc);
    let mut left = count;
    while left > 0 {
        let number = lines.read + 1;
        let Some(line) = next_hist(lines) else {
            return Err(AuditFault::BadLine(number));
        };
        history.extend_from_slice(&[line])?;
        left -= 1;
    }
    Ok(history)
}

/// The first line with a fault of what stands behind the history: the last line is missing, has no end or is another.
fn end_fault(lines: &mut Lines) -> Option<u32>
    requires { lines.old.read + length lines.old.rest.now + 1 < 2 ^ 32 }
    ensures { result ≡ end_fault lines.old.read None (pieces 10 lines.old.rest.now) }
{
    let mut last = None;
    while let Some(line) = lines.next_line() {
        last = Some(is_word(line, b"end"));
    }
    if !lines.rest.is_empty() {
        return Some(lines.read + 1);
    }
    match last {
        Some(true) => None,
        Some(false) => Some(lines.read),
        None => Some(lines.read + 1),
    }
}

fn read_text(alloc: Global, text: &[u8]) -> Result<Vec<HistLine>, AuditFault>
    requires { length text.now ≤ 2 ^ 24 }
    ensures found { IfOk result (λ lines. report_of text.now ≡ Ok lines.items) }
    ensures fault { Blames result (λ fault. report_of text.now ≡ Err fault) }
{
    let mut lines = Lines::new(text);
    let count = read_head(&mut lines)?;
    let history = read_history(alloc, &mut lines, count)?;
    match end_fault(&mut lines) {
        None => Ok(history),
        Some(line) => Err(AuditFault::BadLine(line)),
    }
}

/// The lines of the history of the report that the text is. What stands between them and the last line is not judged.
/// `BadLine` names the first line that has none of the forms, that has no end, or that is missing; of what stands
/// behind the history it is the last line where that is not `end`. `TooLarge(3)` where the first three lines have their
/// forms, and the third one tells of more than `OP_LIMIT` lines.
pub fn read_report(alloc: Global, text: &[u8]) -> Result<Vec<HistLine>, AuditFault>
    requires { length text.now ≤ 2 ^ 24 }
    ensures found { IfOk result (λ lines. IsReportOf text.now lines.items) }
    // A text that is a report is read as it, unless memory is refused.
    ensures only { (lines : List Line) → IsReportOf text.now lines → IfOk result (λ found. found.items ≡ lines) × IfErr
        result (λ fault. fault ≡ NoMemory) }
    // A fault that is named is that of the first faulty line.
    ensures fault { Blames result (HasReportFault text.now) }
    // The first faulty line is named with its fault, unless memory is refused.
    ensures first { (fault : Fault) → HasReportFault text.now fault → IsFoundAs result fault }
{
    read_text(alloc, text)
}
