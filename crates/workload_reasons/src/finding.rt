ghost use Rattle.std.specs.Prelude.{◌≡◌, ◌≤◌, ◌<◌, ◌^◌, ℕ, true, length, IfSome, IsSome};
ghost use Rattle.std.specs.Prelude.{Some, None, Err};
ghost use Rattle.workload.specs.Reading.{reading};
ghost use Rattle.workload.specs.declared.fault.WorkFault.TheVariants.{BadLine};
ghost use Rattle.workload_reasons.specs.Ends.{line_of, clients_of, is_start, first_start};
ghost use Rattle.workload_reasons.specs.Heads.{head_at, IsHead};
ghost use Rattle.workload_reasons.specs.Orders.{client_of};
ghost use Rattle.workload_reasons.specs.Told.{IsReason, IsTold, IsFine};
ghost use Rattle.workload_reasons.specs.declared.reason.HeadLine.{HeadLine as Expected};

use crate::ends::{clients_of, first_start, is_open, is_start, line_of};
use crate::heads::{head_at, head_fault};
use crate::orders::{client_of, form_fault};
use crate::reason::LineReason;

/// What is told where the text has no whole line with this number.
fn end_reason(text: &[u8], number: u32) -> LineReason
    requires counted { 1 ≤ number }
    requires none { line_of text.now number ≡ None }
    ensures { IsTold text.now number result }
{
    if is_open(text, number) {
        return LineReason::NoLineEnd;
    }
    match head_at(number) {
        Some(head) => LineReason::NoHead(head),
        None => LineReason::NoLine,
    }
}

/// Why the line is of a client that is not there.
fn client_reason(text: &[u8], number: u32, line: &[u8]) -> Option<LineReason>
    requires order { head_at number ≡ None }
    requires there { line_of text.now number ≡ Some line.now }
    ensures told { IfSome result (IsTold text.now number) }
    ensures none { result ≡ None → (client clients : ℕ) → client_of line.now ≡ Some client
        → clients_of text.now ≡ Some clients → client < clients }
{
    let client = client_of(line)?;
    let clients = clients_of(text)?;
    if client < clients {
        None
    } else {
        Some(LineReason::NoClient(client, clients))
    }
}

/// Why the line with this number gives a start number that is not the first.
fn again_reason(text: &[u8], number: u32, line: &[u8]) -> Option<LineReason>
    requires short { length text.now < 2 ^ 32 }
    requires there { line_of text.now number ≡ Some line.now }
    ensures told { IfSome result (IsTold text.now number) }
    ensures none { result ≡ None → (first : ℕ) → is_start line.now ≡ true → first_start text.now ≡ Some first
        → number ≤ first }
{
    if !is_start(line) {
        return None;
    }
    let first = first_start(text)?;
    if first < number {
        Some(LineReason::Again(first))
    } else {
        None
    }
}

/// Why the line with this number, behind the head, has none of the forms.
fn order_reason(text: &[u8], number: u32, line: &[u8]) -> Option<LineReason>
    requires short { length text.now < 2 ^ 32 }
    requires order { head_at number ≡ None }
    requires there { line_of text.now number ≡ Some line.now }
    ensures told { IfSome result (IsTold text.now number) }
    ensures none { result ≡ None → IsFine text.now number line.now }
{
    if let Some(fault) = form_fault(line) {
        return Some(LineReason::Form(fault));
    }
    match client_reason(text, number, line) {
        Some(reason) => Some(reason),
        None => again_reason(text, number, line),
    }
}

/// Why the line with this number has none of the forms.
fn whole_reason(text: &[u8], number: u32, line: &[u8]) -> Option<LineReason>
    requires short { length text.now < 2 ^ 32 }
    requires there { line_of text.now number ≡ Some line.now }
    ensures told { IfSome result (IsTold text.now number) }
    ensures head { result ≡ None → (head : Expected) → head_at number ≡ Some head → IsHead head line.now }
    ensures order { result ≡ None → head_at number ≡ None → IsFine text.now number line.now }
{
    match head_at(number) {
        Some(head) => Some(LineReason::Head(head, head_fault(head, line)?)),
        None => order_reason(text, number, line),
    }
}

/// Why `parse` refuses the line with this number of the text, counted from 1, where it names the line as one that has
/// none of the forms. What is told is true of the text. The text is walked over twice.
pub fn explain(text: &[u8], number: u32) -> Option<LineReason>
    requires { length text.now < 2 ^ 32 }
    // What is told is true of the text.
    ensures told { IfSome result (IsReason text.now number) }
    // Something is told of each line that `parse` refuses as one that has none of the forms.
    ensures some { reading text.now ≡ Err (BadLine number) → IsSome result }
{
    if number == 0 {
        return None;
    }
    match line_of(text, number) {
        Some(line) => whole_reason(text, number, line),
        None => Some(end_reason(text, number)),
    }
}
