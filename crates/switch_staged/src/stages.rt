//! The stages before those of the bodies: one function per array.
ghost use Rattle.std.specs.Prelude.{◌≡◌, ◌+◌, ◌<◌, ◌≤◌, ◌^◌, ℕ, List, Option, length, None, Some, true, false, not};
ghost use Rattle.std.specs.Prelude.{◌&&◌, nat_eq, nat_lt, if◌then◌else◌};
ghost use Rattle.far_base.specs.Padded.{text_of};
ghost use Rattle.far_model.specs.Pass as model;
ghost use Rattle.far_model.specs.View as view;
ghost use Rattle.far_model.specs.View.{is_slot_of};
ghost use Rattle.switch_staged.specs.declared.flight.Act.TheVariants.{Keep, Absorb, Raise, Bind, Clear};
ghost use Rattle.register_stages.specs.Arrays.{cells_of, place_of};
ghost use Rattle.switch_staged.specs.Heads.{set_snap as set_snap_to, is_in_reach, gate_after, goes_on as live_at};
ghost use Rattle.switch_staged.specs.Heads.{is_own as own_head, act_for, head_after, empty_head, new_num, new_body};
ghost use Rattle.switch_staged.specs.Heads.{acted as acted_head, bound_head, body_after, cells_of_body as cut_body};
ghost use Rattle.switch_staged.specs.Heads.{bare};
ghost use Rattle.switch_staged.specs.Shapes.{shape_of};
ghost use Rattle.switch_staged.specs.Stages.{InReach, waiting, entered, gate_of, gates_after, headed_with, heads_after};
ghost use Rattle.switch_staged.specs.Stages.{headed};
ghost use Rattle.switch_staged.specs.Stages.{wants_part, head_mark, is_base as base_at, leaves_now as leaves_at};
ghost use Rattle.switch_staged.specs.Stages.{parted_with, taken_after, part_for, changes_record, taken_at_place};
ghost use Rattle.switch_staged.specs.Stages.{parted_at, hots_after, warmed, touch_key, key_touched, token_past};

use crate::cells::{Cells, Gate, Head, HotCell, Mark, Shape, Taken};
use crate::flight::{Act, Part, Passage};
use crate::rows::{cells_of_body, no_cells};
use far_base::{Config, Key, Packet};
use register_stages::{PassToken, RegArray};

impl Gate {
    /// The next snapshot begins, where the epoch is this one.
    fn set_snap(self, epoch: u32, snap: u32, base: u32) -> Gate
        ensures { result ≡ set_snap_to self epoch snap base }
    {
        if epoch == self.epoch {
            Gate { snap, base, ..self }
        } else {
            self
        }
    }

    /// What stage 0 has after the packet.
    #[tactic(auto, unfolding(crate::specs::Heads::gate_after))]
    fn after(self, packet: &Packet) -> Gate
        requires { self.counter + 1 < 2 ^ 64 }
        ensures { result ≡ gate_after self packet.now }
    {
        match *packet {
            Packet::WriteReq { .. } => Gate {
                counter: self.counter + 1,
                ..self
            },
            Packet::SnapStart { epoch, id } => self.set_snap(epoch, id, 0),
            Packet::SnapFrom { epoch, id, base } => self.set_snap(epoch, id, base),
            _ => self,
        }
    }

    fn reaches(&self, config: &Config, epoch: u32, slot: u32) -> bool
        ensures { result ≡ is_in_reach config.now self.now epoch slot }
    {
        epoch == self.epoch && slot < config.slots
    }

    /// Whether the packet is not dropped.
    #[tactic(auto, unfolding(crate::specs::Heads::goes_on))]
    fn goes_on(&self, config: &Config, packet: &Packet) -> bool
        ensures { result ≡ live_at config.now self.now packet.now }
    {
        match *packet {
            Packet::GetReq { .. }
            | Packet::WriteReq { .. }
            | Packet::GetRep { .. }
            | Packet::WriteRep { .. } => true,
            Packet::Admit { epoch, slot, .. }
            | Packet::Peek { epoch, slot, .. }
            | Packet::Remove { epoch, slot, .. }
            | Packet::SnapRead { epoch, slot, .. } => self.reaches(config, epoch, slot),
            Packet::SnapStart { epoch, .. } | Packet::SnapFrom { epoch, .. } => {
                epoch == self.epoch
            }
            _ => false,
        }
    }
}

impl Head {
    /// The head of a slot without a key.
    pub fn empty() -> Head
        ensures { result ≡ empty_head }
    {
        Head {
            key: None,
            tag: 0,
            valid: false,
            latest: false,
            num: 0,
            shape: Shape::absent(),
        }
    }

    /// Whether the slot is valid and of this key.
    fn is_of(&self, key: &Key) -> bool
        ensures { result ≡ is_slot_of key.now (bare self.now) }
    {
        match &self.key {
            Some(own) => self.valid && key == own,
            None => false,
        }
    }

    /// Whether a server's reply is taken.
    fn takes_reply(&self, tag: Option<u64>, num: u64) -> bool
        ensures { result ≡ model.takes_reply tag num (bare self.now) }
    {
        if self.latest {
            return self.num < num;
        }
        match tag {
            Some(tag) => tag == self.tag && self.num <= num,
            None => false,
        }
    }

    /// Whether the slot may be emptied.
    fn may_go(&self, tag: u64, latest: bool, num: u64) -> bool
        ensures { result ≡ model.may_go tag latest num (bare self.now) }
    {
        self.valid && self.tag == tag && (!self.latest || latest && self.num == num)
    }

    /// Whether the packet is for this slot.
    #[tactic(auto, unfolding(crate::specs::Heads::is_own))]
    fn is_own(&self, packet: &Packet) -> bool
        ensures { result ≡ own_head packet.now self.now }
    {
        match packet {
            Packet::GetReq { key, .. }
            | Packet::WriteReq { key, .. }
            | Packet::GetRep { key, .. }
            | Packet::WriteRep { key, .. } => self.is_of(key),
            _ => true,
        }
    }

    /// What the packet does with this slot.
    #[tactic(auto, unfolding(crate::specs::Heads::act_for))]
    fn act(&self, packet: &Packet) -> Act
        ensures { result ≡ act_for packet.now self.now }
    {
        match *packet {
            Packet::WriteReq { .. } => Act::Absorb,
            Packet::GetRep { tag, num, .. } => reply_act(self.takes_reply(Some(tag), num)),
            Packet::WriteRep { num, .. } => reply_act(self.takes_reply(None, num)),
            Packet::Admit { .. } => bind_act(self.valid),
            Packet::Remove {
                tag,
                latest,
                num,
                ..
            } => clear_act(self.may_go(tag, latest, num)),
            _ => Act::Keep,
        }
    }

    /// The slot takes a record.
    #[tactic(auto, unfolding(crate::specs::Heads::acted))]
    fn absorbed(self, counter: u64, packet: &Packet) -> Head
        ensures { result ≡ acted_head Absorb counter packet.now self }
    {
        Head {
            latest: true,
            num: number_of(counter, packet),
            shape: shape_in(packet),
            ..self
        }
    }

    /// An outdated slot knows the number.
    #[tactic(auto, unfolding(crate::specs::Heads::acted))]
    fn raised(self, counter: u64, packet: &Packet) -> Head
        ensures { result ≡ acted_head Raise counter packet.now self }
    {
        if self.latest {
            return self;
        }
        let num = self.num.max(number_of(counter, packet));
        Head { num, ..self }
    }

    /// The head after this act.
    #[tactic(auto, unfolding(crate::specs::Heads::acted))]
    fn acted(self, act: Act, counter: u64, packet: &Packet) -> Head
        ensures { result ≡ acted_head act counter packet.now self }
    {
        match act {
            Act::Keep => self,
            Act::Absorb => self.absorbed(counter, packet),
            Act::Raise => self.raised(counter, packet),
            Act::Bind => bound_to(packet),
            Act::Clear => Head::empty(),
        }
    }

    /// The head after the packet.
    #[tactic(auto, unfolding(crate::specs::Heads::head_after))]
    fn after(self, counter: u64, packet: &Packet) -> Head
        ensures { result ≡ head_after counter packet.now self }
    {
        if self.is_own(packet) {
            self.acted(self.act(packet), counter, packet)
        } else {
            self
        }
    }
}

fn reply_act(takes: bool) -> Act
    ensures { result ≡ (if takes then Absorb else Raise) }
{
    if takes { Act::Absorb } else { Act::Raise }
}

fn bind_act(valid: bool) -> Act
    ensures { result ≡ (if valid then Keep else Bind) }
{
    if valid { Act::Keep } else { Act::Bind }
}

fn clear_act(may_go: bool) -> Act
    ensures { result ≡ (if may_go then Clear else Keep) }
{
    if may_go { Act::Clear } else { Act::Keep }
}

/// The number that a packet brings.
#[tactic(auto, unfolding(crate::specs::Heads::new_num))]
fn number_of(counter: u64, packet: &Packet) -> u64
    ensures { result ≡ new_num counter packet.now }
{
    match *packet {
        Packet::WriteReq { .. } => counter,
        Packet::GetRep { num, .. } | Packet::WriteRep { num, .. } => num,
        _ => 0,
    }
}

/// The shape of the body that a packet brings.
#[tactic(auto, unfolding(crate::specs::Heads::new_body))]
fn shape_in(packet: &Packet) -> Shape
    ensures { result ≡ shape_of (new_body packet.now) }
{
    match packet {
        Packet::WriteReq { body, .. }
        | Packet::GetRep { body, .. }
        | Packet::WriteRep { body, .. } => Shape::of(body),
        _ => Shape::absent(),
    }
}

/// Puts the cells of the body that a packet brings.
#[tactic(auto, unfolding(crate::specs::Heads::new_body))]
fn put_cells_in(packet: &Packet, cells: &mut Cells)
    ensures { cells.new ≡ cut_body (new_body packet.now) }
{
    match packet {
        Packet::WriteReq { body, .. }
        | Packet::GetRep { body, .. }
        | Packet::WriteRep { body, .. } => *cells = cells_of_body(body),
        _ => *cells = no_cells(),
    }
}

/// The head of a slot that gets the packet's key.
#[tactic(auto, unfolding(crate::specs::Heads::bound_head))]
fn bound_to(packet: &Packet) -> Head
    ensures { result ≡ bound_head packet.now }
{
    match *packet {
        Packet::Admit { key, tag, .. } => Head {
            key: Some(key),
            tag,
            valid: true,
            ..Head::empty()
        },
        _ => Head::empty(),
    }
}

/// Puts the cells that the slot is to have.
#[tactic(auto, unfolding(crate::specs::Heads::body_after))]
fn put_cells_due(act: Act, packet: &Packet, cells: &mut Cells)
    ensures { cells.new ≡ cut_body (body_after act packet.now) }
{
    match act {
        Act::Absorb => put_cells_in(packet, cells),
        _ => *cells = no_cells(),
    }
}

impl<'a> Passage<'a> {
    /// The packet has met its slot, or one that is not of its key.
    fn meet(&mut self, old: Head)
        ensures { self.new ≡ headed_with old self.old }
    {
        if !old.is_own(self.packet) {
            self.place = None;
            return;
        }
        let act = old.act(self.packet);
        put_cells_due(act, self.packet, &mut self.cells);
        self.found = old;
        self.act = act;
    }
}

/// Stage 0: the epoch, the counter and the snapshot.
pub fn pass_gate(
    gates: &mut RegArray<Gate>,
    token: &mut PassToken,
    config: &Config,
    packet: &Packet,
    flight: &mut Passage,
)
    requires waiting { flight.old ≡ waiting packet.now }
    requires cell { length (cells_of gates.old) ≡ 1 }
    requires place { place_of gates.old ≡ 0 }
    requires token { token.old ≡ 0 }
    requires room { (gate_of (cells_of gates.old)).counter + 1 < 2 ^ 64 }
    ensures gate { cells_of gates.new ≡ gates_after (cells_of gates.old) packet.now }
    ensures flight { flight.new ≡ entered config.now (gate_of (cells_of gates.old)) packet.now }
    ensures token { token.new ≡ 1 }
    ensures place { place_of gates.new ≡ 0 }
    ensures one { length (cells_of gates.new) ≡ 1 }
    ensures short { length (text_of (new_body packet.now)) ≤ 256 }
{
    body_is_short(packet);
    let old = gates.visit(
        token,
        0,
        |gate|
            requires { gate.counter + 1 < 2 ^ 64 }
        { gate.after(packet) },
    );
    flight.live = old.goes_on(config, packet);
    flight.gate = old.after(packet);
}

/// Stage 2: the heads of the slots.
pub fn pass_heads(heads: &mut RegArray<Head>, token: &mut PassToken, flight: &mut Passage)
    requires cell { InReach flight.old.place (cells_of heads.old) }
    requires place { place_of heads.old ≡ 2 }
    requires token { token.old ≤ 2 }
    ensures heads { cells_of heads.new ≡ heads_after (cells_of heads.old) flight.old }
    ensures flight { flight.new ≡ headed (cells_of heads.old) flight.old }
    ensures token { token.new ≡ token_past flight.old.place 3 token.old }
    ensures within { token.new ≤ 3 }
    ensures place { place_of heads.new ≡ 2 }
{
    let Some(place) = flight.place else {
        return;
    };
    let old = heads.visit(
        token,
        place,
        |head| head.after(flight.gate.counter, flight.packet),
    );
    flight.meet(old);
}

impl Head {
    /// The mark of what the slot shows.
    #[tactic(auto, unfolding(crate::specs::Stages::head_mark))]
    fn mark(&self) -> Option<Mark>
        ensures { result ≡ head_mark self.now }
    {
        if !self.latest {
            return None;
        }
        match self.key {
            Some(key) => Some(Mark::of(key, self.num)),
            None => None,
        }
    }

    /// Whether the act changes what the slot shows.
    #[tactic(auto, unfolding(crate::specs::Stages::changes_record))]
    fn changes(&self, act: Act) -> bool
        ensures { result ≡ changes_record act self.now }
    {
        match act {
            Act::Absorb => true,
            Act::Clear => self.latest,
            Act::Keep | Act::Raise | Act::Bind => false,
        }
    }
}

fn same_mark(a: &Option<Mark>, b: &Option<Mark>) -> bool
    ensures { result ≡ view.same_mark a.now b.now }
{
    match (a, b) {
        (None, None) => true,
        (Some(a), Some(b)) => a.is_same(b),
        _ => false,
    }
}

impl<'a> Passage<'a> {
    /// Whether the slot's part is to leave, where it was not taken.
    #[tactic(auto, unfolding(crate::specs::Stages::wants_part))]
    fn wants_part(&self) -> bool
        ensures { result ≡ wants_part self.now self.now.packet }
    {
        match *self.packet {
            Packet::SnapRead { id, .. } => id == self.gate.snap,
            _ => self.found.changes(self.act),
        }
    }

    fn leaves_now(&self, taken: &Taken) -> bool
        ensures { result ≡ leaves_at self.now taken.now }
    {
        self.wants_part() && taken.era != self.gate.snap
    }

    #[tactic(auto, unfolding(crate::specs::Stages::is_base))]
    fn is_base(&self, taken: &Taken) -> bool
        ensures { result ≡ base_at self.now taken.now }
    {
        self.gate.base > 0
            && taken.era == self.gate.base
            && same_mark(&taken.mark, &self.found.mark())
    }

    fn part(&self, taken: &Taken) -> Part
        ensures { result ≡ part_for self.now taken.now }
    {
        if !self.leaves_now(taken) {
            return Part::Stays;
        }
        if self.is_base(taken) {
            return Part::Same;
        }
        Part::Whole
    }

    #[tactic(auto, unfolding(crate::specs::Stages::taken_after))]
    fn taken(&self, taken: Taken) -> Taken
        ensures { result ≡ taken_after self.now taken }
    {
        if !self.leaves_now(&taken) {
            return taken;
        }
        Taken {
            era: self.gate.snap,
            mark: self.found.mark(),
        }
    }
}

/// Stage 3: the parts that were taken.
pub fn pass_taken(cells: &mut RegArray<Taken>, token: &mut PassToken, flight: &mut Passage)
    requires cell { InReach flight.old.place (cells_of cells.old) }
    requires place { place_of cells.old ≡ 3 }
    requires token { token.old ≤ 3 }
    ensures cells { cells_of cells.new ≡ taken_at_place (cells_of cells.old) flight.old.place flight.old }
    ensures flight { flight.new ≡ parted_at (cells_of cells.old) flight.old.place flight.old }
    ensures token { token.new ≡ token_past flight.old.place 4 token.old }
    ensures within { token.new ≤ 4 }
    ensures place { place_of cells.new ≡ 3 }
{
    let Some(place) = flight.place else {
        return;
    };
    let old = cells.visit(token, place, |taken| flight.taken(taken));
    flight.part = flight.part(&old);
}

/// The key whose hot cell the packet touches.
#[tactic(auto, unfolding(crate::specs::Stages::key_touched))]
fn touched_key(place: Option<u32>, packet: &Packet) -> Option<Key>
    ensures { result ≡ touch_key place packet.now }
{
    if place.is_some() {
        return None;
    }
    match *packet {
        Packet::GetReq { key, .. } | Packet::WriteReq { key, .. } => Some(key),
        _ => None,
    }
}

/// Stage 3: the hot cells.
pub fn pass_hot(
    cells: &mut RegArray<HotCell>,
    token: &mut PassToken,
    config: &Config,
    flight: &mut Passage,
)
    requires cell { length (cells_of cells.old) ≡ 256 }
    requires place { place_of cells.old ≡ 4 }
    requires token { token.old ≤ 4 }
    ensures cells { cells_of cells.new ≡ hots_after config.now (cells_of cells.old) flight.old }
    ensures flight { flight.new ≡ warmed config.now (cells_of cells.old) flight.old }
    ensures token { token.new ≡ token_past (touch_key flight.old.place flight.old.packet) 5 token.old }
    ensures within { token.new ≤ 5 }
    ensures place { place_of cells.new ≡ 4 }
{
    let Some(key) = touched_key(flight.place, flight.packet) else {
        flight.hot = false;
        return;
    };
    let snap = flight.gate.snap;
    let old = cells.visit(
        token,
        key.cell(),
        |cell| cell.in_era(snap).counted(config.hot),
    );
    flight.hot = old.in_era(snap).grows_hot(config.hot);
}

/// A packet's body has at most 256 bytes.
#[tactic(auto, unfolding(crate::specs::Heads::new_body))]
pub fn body_is_short(packet: &Packet)
    ensures { length (text_of (new_body packet.now)) ≤ 256 }
{
    match packet {
        Packet::WriteReq { body, .. }
        | Packet::GetRep { body, .. }
        | Packet::WriteRep { body, .. } => {
            let _text = body.text();
        }
        _ => {}
    }
}
