ghost use Rattle.std.specs.Prelude.{◌≡◌, bytes_eq};
ghost use Rattle.log_audit.specs.Words.{client_of, fits_kind, hist_of, kind_of, near_of, number_behind, op_of};

use crate::line::HistLine;
use far_base::{Body, CLIENT_LIMIT, Op};
use far_text::{body_of, cut, key_of, number_of};

pub(crate) fn is_word(word: &[u8], name: &[u8]) -> bool
    ensures { result ≡ bytes_eq word.now name.now }
{
    word == name
}

/// The number behind the name and a space.
pub(crate) fn number_behind(name: &[u8], line: &[u8]) -> Option<u64>
    ensures { result ≡ number_behind name.now line.now }
{
    let (word, number) = cut(line, b' ')?;
    if !is_word(word, name) {
        return None;
    }
    number_of(number)
}

/// The number of an operation, which is above 0.
fn op_of(word: &[u8]) -> Option<u64>
    ensures { result ≡ op_of word.now }
{
    let op = number_of(word)?;
    if 0 < op { Some(op) } else { None }
}

/// The number of a client.
fn client_of(word: &[u8]) -> Option<u32>
    ensures { result ≡ client_of word.now }
{
    let client = number_of(word)?;
    if client < u64::from(CLIENT_LIMIT) {
        Some(client as u32)
    } else {
        None
    }
}

/// What the operation does.
fn kind_of(word: &[u8]) -> Option<Op>
    ensures { result ≡ kind_of word.now }
{
    if is_word(word, b"get") {
        Some(Op::Get)
    } else if is_word(word, b"put") {
        Some(Op::Put)
    } else if is_word(word, b"del") {
        Some(Op::Del)
    } else {
        None
    }
}

/// Whether the switch answered by itself.
fn near_of(word: &[u8]) -> Option<bool>
    ensures { result ≡ near_of word.now }
{
    if is_word(word, b"switch") {
        Some(true)
    } else if is_word(word, b"server") {
        Some(false)
    } else {
        None
    }
}

/// Whether the body may stand in a line of this kind: that of a put is there, and that of a delete is absent.
fn fits_kind(kind: Op, body: &Body) -> bool
    ensures { result ≡ fits_kind kind body.now }
{
    match kind {
        Op::Get => true,
        Op::Put => body.is_present(),
        Op::Del => !body.is_present(),
    }
}

/// What the line says of an operation. `None` exactly where it is no line of a history.
pub(crate) fn hist_of(line: &[u8]) -> Option<HistLine>
    ensures { result ≡ hist_of line.now }
{
    let (op, rest) = cut(line, b' ')?;
    let op = op_of(op)?;
    let (client, rest) = cut(rest, b' ')?;
    let client = client_of(client)?;
    let (kind, rest) = cut(rest, b' ')?;
    let kind = kind_of(kind)?;
    let (key, rest) = cut(rest, b' ')?;
    let key = key_of(key)?;
    let (num, rest) = cut(rest, b' ')?;
    let num = number_of(num)?;
    let (body, rest) = cut(rest, b' ')?;
    let body = body_of(body)?;
    let (near, rest) = cut(rest, b' ')?;
    let near = near_of(near)?;
    let (sent, answered) = cut(rest, b' ')?;
    let sent = number_of(sent)?;
    let answered = number_of(answered)?;
    if !fits_kind(kind, &body) {
        return None;
    }
    Some(HistLine {
        op,
        client,
        kind,
        key,
        num,
        body,
        near,
        sent,
        answered,
    })
}
