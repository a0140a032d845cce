ghost use Rattle.std.specs.Prelude.{◌≡◌, ◌≢◌, ◌∷◌, ◌++◌, ◌≤◌, [], max, not, true, false, List, length, IfOk, IfSome};
ghost use Rattle.std.specs.Prelude.{OnOk};
ghost use Rattle.std.specs.Ordering.{nat_cmp};
ghost use Rattle.std.specs.BTreeMap.{get};
ghost use Rattle.std.specs.BTreeSet as set;
ghost use Rattle.std.specs.BTreeSet.{contains};
ghost use Rattle.std.specs.Cmp.Lexicographic.{slice_cmp};
ghost use Rattle.far_base.specs.declared.plan.TheConstants.{OP_LIMIT};
ghost use Rattle.far_model.specs.Log.{is_read};
ghost use Rattle.log_audit.specs.Good.{IsGood, IsJudged, held_of};
ghost use Rattle.log_audit.specs.Walk.{HasSeen, HoldsWith, MayFollow, or_nothing};
ghost use Rattle.log_audit.specs.declared.line.HistLine.{HistLine as Line};

use crate::line::HistLine;
use far_base::{Body, Key, Memory, Op, Versioned};
use std::alloc::Global;
use std::collections::{BTreeMap, BTreeSet};

/// What a walk over the first lines of a history has seen: what the keys were set to last, the numbers of the
/// operations, and the greatest moment at which one was sent.
#[derive(Drop)]
struct Seen {
    held: BTreeMap<Key, Versioned>,
    ops: BTreeSet<u64>,
    latest: u64,
}

pub(crate) fn is_read(kind: Op) -> bool
    ensures { result ≡ is_read kind }
{
    match kind {
        Op::Get => true,
        Op::Put | Op::Del => false,
    }
}

/// What the line says that its operation wrote or read.
pub(crate) fn held_of(line: &HistLine) -> Versioned
    ensures { result ≡ held_of line.now }
{
    Versioned {
        num: line.num,
        body: line.body,
    }
}

pub(crate) fn is_same(first: &Versioned, second: &Versioned) -> bool
    ensures same { result ≡ true → first.now ≡ second.now }
    ensures other { result ≡ false → first.now ≢ second.now }
{
    first.num == second.num
        && first.body.is_present() == second.body.is_present()
        && first.body.text() == second.body.text()
}

/// What the key was set to last.
fn held_at(held: &BTreeMap<Key, Versioned>, key: &Key) -> Versioned
    ensures { result ≡ or_nothing (get (slice_cmp nat_cmp) held.now key.now) }
{
    match held.get(key) {
        Some(version) => *version,
        None => Versioned {
            num: 0,
            body: Body::absent(),
        },
    }
}

impl Seen {
    fn new(alloc: Global) -> Self
        ensures { HasSeen [] result }
    {
        Seen {
            held: BTreeMap::new(alloc),
            ops: BTreeSet::new(alloc),
            latest: 0,
        }
    }

    /// Whether the moments of the line go with those of the lines that were seen, and a read with what was written.
    fn allows(&self, line: &HistLine) -> bool
        ensures yes { result ≡ true → MayFollow self.now line.now }
        ensures no { result ≡ false → ¬ (MayFollow self.now line.now) }
    {
        if line.answered <= line.sent {
            return false;
        }
        if line.answered < self.latest {
            return false;
        }
        if !is_read(line.kind) {
            return true;
        }
        is_same(&held_of(line), &held_at(&self.held, &line.key))
    }

    /// Takes the number of an operation, and tells whether it is new.
    fn add_op(&mut self, op: u64) -> Result<bool, Memory>
        ensures new { IfOk result (λ added. added ≡ not (contains nat_cmp self.old.ops op)) }
        ensures ops { OnOk result (set.Updates nat_cmp self.old.ops self.new.ops op true) }
        ensures held { self.new.held ≡ self.old.held }
        ensures latest { self.new.latest ≡ self.old.latest }
    {
        match self.ops.insert(op) {
            Ok(added) => Ok(added),
            Err(_) => Err(Memory),
        }
    }

    /// Takes what the line wrote and when it was sent.
    fn note(&mut self, line: &HistLine) -> Result<(), Memory>
        ensures held { OnOk result (HoldsWith line.now self.old.held self.new.held) }
        ensures ops { self.new.ops ≡ self.old.ops }
        ensures latest { self.new.latest ≡ max line.now.sent self.old.latest }
    {
        self.latest = line.sent.max(self.latest);
        if is_read(line.kind) {
            return Ok(());
        }
        match self.held.insert(line.key, held_of(line)) {
            Ok(_) => Ok(()),
            Err(_) => Err(Memory),
        }
    }

    /// Takes the line, where it may stand behind those that were seen, and tells whether it may.
    fn take(&mut self, line: &HistLine) -> Result<bool, Memory>
        ensures yes { IfOk result (λ taken. taken ≡ true → (seen : List Line) → HasSeen seen self.old → HasSeen
            (seen ++ line.now ∷ []) self.new) }
        ensures no { IfOk result (λ taken. taken ≡ false → (seen : List Line) → HasSeen seen self.old → ¬ (IsGood
            (seen ++ line.now ∷ []))) }
    {
        if !self.allows(line) {
            return Ok(false);
        }
        if !self.add_op(line.op)? {
            return Ok(false);
        }
        self.note(line)?;
        Ok(true)
    }
}

/// Whether the lines are good: no two operations have one number, each was sent before it was answered, each read has
/// what the last write of its key before it wrote, and none was answered before an earlier one was sent. `None` exactly
/// where they are; else the least number of first lines that are not. The lines are walked over once.
pub fn audit(alloc: Global, lines: &[HistLine]) -> Result<Option<u32>, Memory>
    requires { length lines.now ≤ OP_LIMIT }
    ensures judged { IfOk result (IsJudged lines.now) }
    ensures within { IfOk result (λ found. IfSome found (λ count. count ≤ length lines.now)) }
{
    let mut seen = Seen::new(alloc);
    let mut count = 0;
    for line in lines {
        count += 1;
        if !seen.take(line)? {
            return Ok(Some(count));
        }
    }
    Ok(None)
}
