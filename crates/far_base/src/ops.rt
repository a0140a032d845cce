use crate::body::{BODY_LIMIT, Body};
use crate::key::Key;
use crate::memory::Memory;
use crate::plan::{Op, OpLine};
use std::alloc::Global;
use std::marker::Model;

/// An operation whose body, where it has one, stands among the bytes of all bodies.
#[derive(Clone, Copy)]
struct Short {
    client: u32,
    op: Op,
    key: Key,
    present: bool,
    len: u16,
    at: usize,
}

/// Operations in their order. Each takes no more memory than its body needs. Contracts see their list.
#[derive(Drop)]
pub struct Ops {
    lines: Vec<Short>,
    /// The bytes of the bodies of all operations.
    bytes: Vec<u8>,
}

impl Model for Ops {
    ghost use Rattle.std.specs.Prelude.{List, length};
    ghost use Rattle.far_base.specs.declared.plan.OpLine.{OpLine};
    ghost use Rattle.far_base.specs.OpsView.{lines_in, AreWithin};

    ghost Value = { List OpLine };

    ghost view = { λ o. lines_in o.bytes.items o.lines.items };

    ghost invariant = { λ o. AreWithin (length o.bytes.items) o.lines.items };
}

ghost use Rattle.std.specs.Prelude.{◌≡◌, ◌≤◌, ◌<◌, ◌++◌, [], ◌∷◌, length, map, take, drop};
ghost use Rattle.std.specs.Prelude.{slice_get, Some, OnOk, OnErr, IfOk};
ghost use Rattle.far_base.specs.declared.plan.OpLine.{OpLine};
ghost use Rattle.far_base.specs.OpsView.{body_in, short_of};
ghost use Rattle.far_base.specs.Padded.{text_of};

fn text_in<'a>(bytes: &'a [u8], line: &Short) -> &'a [u8]
    ensures { result.now ≡ take line.now.len (drop line.now.at bytes.now) }
{
    let rest = &bytes[line.at.min(bytes.len())..];
    &rest[..(line.len as usize).min(rest.len())]
}

fn body_of(bytes: &[u8], line: &Short) -> Body
    ensures { result ≡ body_in bytes.now line.now }
{
    if !line.present {
        return Body::absent();
    }
    match Body::from_bytes(text_in(bytes, line)) {
        Some(body) => body,
        None => Body::absent(),
    }
}

fn short_at(lines: &[Short], place: usize) -> &Short
    requires { place < length lines.now }
    ensures { slice_get lines.now place ≡ Some result.now }
{
    &lines[place]
}

/// The operation without its body, which is put behind the bytes.
fn short_behind(bytes: &[u8], line: &OpLine) -> Short
    ensures value { result ≡ short_of (length bytes.now) line.now }
    ensures short { length (text_of line.now.body) ≤ BODY_LIMIT }
{
    Short {
        client: line.client,
        op: line.op,
        key: line.key,
        present: line.body.is_present(),
        len: line.body.text().len() as u16,
        at: bytes.len(),
    }
}

impl Ops {
    /// No operations.
    pub fn new(alloc: Global) -> Self
        ensures { result ≡ [] }
    {
        Ops {
            lines: Vec::new(alloc),
            bytes: Vec::new(alloc),
        }
    }

    /// How many there are.
    pub fn len(&self) -> usize
        ensures { result ≡ length self.now }
    {
        self.lines.len()
    }

    /// Adds one behind the others. Where memory is refused nothing is added.
    pub fn push(&mut self, line: &OpLine) -> Result<(), Memory>
        ensures ok { OnOk result (self.new ≡ self.old ++ line.now ∷ []) }
        ensures err { OnErr result (self.new ≡ self.old) }
    {
        let short = short_behind(&self.bytes, line);
        self.lines.reserve(1)?;
        self.bytes.extend_from_slice(line.body.text())?;
        self.lines.push_reserved(short);
        Ok(())
    }

    /// The client that sends the one at the place, counted from 0.
    pub fn client(&self, place: usize) -> u32
        requires { place < length self.now }
        ensures { slice_get (map (λ (l : OpLine). l.client) self.now) place ≡ Some result }
    {
        short_at(&self.lines, place).client
    }

    /// The one at the place, counted from 0.
    pub fn line(&self, place: usize) -> OpLine
        requires { place < length self.now }
        ensures { slice_get self.now place ≡ Some result }
    {
        let line = short_at(&self.lines, place);
        OpLine {
            client: line.client,
            op: line.op,
            key: line.key,
            body: body_of(&self.bytes, line),
        }
    }

    /// The same operations once more.
    pub fn copied(&self, alloc: Global) -> Result<Ops, Memory>
        ensures { IfOk result (λ copy. copy ≡ self.now) }
    {
        let mut lines = Vec::new(alloc);
        lines.extend_from_slice(&self.lines)?;
        let mut bytes = Vec::new(alloc);
        bytes.extend_from_slice(&self.bytes)?;
        Ok(Ops { lines, bytes })
    }
}
