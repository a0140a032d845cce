//! Packets that overlap in the stages.
use crate::bodies::{cell_in, empty_bodies, reset_bodies};
use crate::cells::{BODY_CELLS, Cell, Gate, HOT_CELLS, Head, HotCell, Taken};
use crate::flight::Course;
use crate::gather::{oldest_first, packet_of, put_packets};
use crate::stages::body_is_short;
use crate::standing::{tick_bodies, tick_gate, tick_heads, tick_table, tick_taken};
use far_base::{Config, Memory, Packet};
use lookup_table::Lookup;
use register_stages::RegArray;
use std::alloc::{AllocError, Global};
use std::marker::Model;
use switch_core::Emit;

/// The number of stages.
pub const STAGES: usize = 36;

/// A switch whose 36 stages work at once: at most one packet stands before each, and at a tick each passes one.
/// Contracts see its registers, and the packets with what they take along.
#[derive(Drop)]
pub struct Pipeline {
    config: Config,
    gate: RegArray<Gate>,
    lookup: Lookup,
    heads: RegArray<Head>,
    taken: RegArray<Taken>,
    hot: RegArray<HotCell>,
    bodies: Vec<RegArray<Cell>>,
    entering: Option<Packet>,
    to_table: Option<Course>,
    to_heads: Option<Course>,
    to_taken: Option<Course>,
    to_bodies: Vec<Option<Course>>,
}

impl Model for Pipeline {
    ghost use Rattle.switch_staged.specs.Overlap.{PipelineView};
    ghost use Rattle.switch_staged.specs.Pipelined.{IsPipeline, pipeline_view};

    ghost Value = { PipelineView };

    ghost view = { λ s. pipeline_view s.config s.gate s.lookup.bound s.heads s.taken s.hot s.bodies.items s.entering
        s.to_table s.to_heads s.to_taken s.to_bodies.items };

    ghost invariant = { λ s. IsPipeline s.config s.gate s.lookup.bound s.heads s.taken s.hot s.bodies.items s.entering
        s.to_table s.to_heads s.to_taken s.to_bodies.items };
}

ghost use Rattle.std.specs.Prelude.{◌≡◌, ◌+◌, ◌-◌, ◌<◌, ◌≤◌, ◌^◌, ◌++◌, ◌∷◌, List, [], map, take, length, replicate};
ghost use Rattle.std.specs.Prelude.{slice_set, slice_index_or, is_none, Some, None, IfOk};
ghost use Rattle.far_base.specs.Limits.{IsConfig};
ghost use Rattle.far_base.specs.declared.packet.Packet.{Packet};
ghost use Rattle.far_model.specs.View.{SwitchView, opening_view, slot_at};
ghost use Rattle.switch_core.specs.declared.switch.Emit.{Emit};
ghost use Rattle.switch_staged.specs.Line.{final};
ghost use Rattle.switch_staged.specs.Overlap.{PipelineView, IsRun, IsInOrder, standing, inside, passed, given, ticked};
ghost use Rattle.switch_staged.specs.Overlap.{leaving, answer_of, body_cell, in_front};
ghost use Rattle.switch_staged.specs.Pipelined.{opening_pipeline};

fn filled<T: Copy>(alloc: Global, item: T, count: usize) -> Result<Vec<T>, AllocError>
    ensures { IfOk result (λ items. items.items ≡ replicate count item) }
{
    let mut items = Vec::with_capacity(alloc, count)?;
    for _ in 0..count {
        items.push_reserved(item);
    }
    Ok(items)
}

fn fill<T: Copy>(items: &mut [T], item: T)
    ensures { items.new ≡ replicate (length items.old) item }
{
    for place in items {
        *place = item;
    }
}

fn drop_flights(flights: &mut Vec<Option<Course>>)
    ensures { flights.new.items ≡ replicate (length flights.old.items) None }
{
    fill(flights, None);
}

impl Pipeline {
    /// No packet is inside.
    pub fn new(alloc: Global, config: Config, epoch: u32, counter: u64) -> Result<Self, Memory>
        requires { IsConfig config }
        ensures run { IfOk result (λ pipeline. IsRun pipeline (opening_view config epoch counter) [] []) }
        ensures standing { IfOk result (λ pipeline. standing pipeline ≡ replicate 36 None) }
        ensures counter { IfOk result (λ pipeline. pipeline.registers.gate.counter ≡ counter) }
        ensures config { IfOk result (λ pipeline. pipeline.config ≡ config) }
    {
        Ok(Pipeline::opening(alloc, config, epoch, counter)?)
    }

    fn opening(alloc: Global, config: Config, epoch: u32, counter: u64) -> Result<Self, Memory>
        requires { IsConfig config }
        ensures { IfOk result (λ pipeline. pipeline ≡ opening_pipeline config epoch counter) }
    {
        let slots = config.slots;
        Ok(Pipeline {
            config,
            gate: RegArray::new(alloc, 0, 1, Gate::opening(epoch, counter))?,
            lookup: Lookup::new(alloc, slots)?,
            heads: RegArray::new(alloc, 2, slots, Head::empty())?,
            taken: RegArray::new(alloc, 3, slots, Taken::never())?,
            hot: RegArray::new(alloc, 4, HOT_CELLS, HotCell::new())?,
            bodies: empty_bodies(alloc, 0, BODY_CELLS, slots)?,
            entering: None,
            to_table: None,
            to_heads: None,
            to_taken: None,
            to_bodies: filled(alloc, None, BODY_CELLS)?,
        })
    }

    /// Whether no packet stands before stage 0.
    pub fn can_enter(&self) -> bool
        ensures { result ≡ is_none self.now.entering }
    {
        self.entering.is_none()
    }

    /// The packet stands before stage 0.
    pub fn enter(&mut self, packet: Packet)
        requires free { self.old.entering ≡ None }
        requires room { self.old.registers.gate.counter + 1 < 2 ^ 64 }
        ensures run { (start : SwitchView) (entered : List Packet) (answered : List Emit) →
            IsRun self.old start entered answered → IsRun self.new start (entered ++ packet ∷ []) answered }
        ensures standing { standing self.new ≡ slice_set (standing self.old) 0 (Some packet) }
        ensures registers { self.new.registers ≡ self.old.registers }
        ensures config { self.new.config ≡ self.old.config }
    {
        body_is_short(&packet);
        self.entering = Some(packet);
    }

    /// Each packet passes one stage; no two stages share an array.
    fn advance(&mut self) -> Option<Emit>
        ensures value { self.new ≡ ticked self.old }
        ensures answer { result ≡ answer_of self.old.config (leaving self.old) }
        ensures arrays { length self.old.registers.arrays ≡ 32 }
        ensures bodies { length self.old.bodies ≡ 32 }
    {
        let slots = self.config.slots;
        let coming = tick_taken(&mut self.taken, &mut self.hot, &self.config, self.to_taken);
        let last = tick_bodies(&mut self.bodies, &mut self.to_bodies, slots, coming);
        self.to_taken = tick_heads(&mut self.heads, self.to_heads);
        self.to_heads = tick_table(&mut self.lookup, self.to_table);
        self.to_table = tick_gate(&mut self.gate, &self.config, self.entering);
        self.entering = None;
        answer(&self.config, last)
    }

    /// Each packet that is inside passes one stage: all stages work at once. The packet that passed stage 35 leaves,
    /// and the answer is what leaves the switch with it; `None` exactly where no packet stood before stage 35.
    pub fn tick(&mut self) -> Option<Emit>
        ensures run { (start : SwitchView) (entered : List Packet) (answered : List Emit) →
            IsRun self.old start entered answered → IsRun self.new start entered (answered ++ given result) }
        ensures standing { standing self.new ≡ None ∷ take 35 (standing self.old) }
        ensures none { is_none result ≡ is_none (slice_index_or (standing self.old) 35 None) }
        ensures counter { self.new.registers.gate.counter ≤ self.old.registers.gate.counter + 1 }
        ensures config { self.new.config ≡ self.old.config }
    {
        self.advance()
    }

    /// The packet before each stage.
    fn packets(&self) -> [Option<Packet>; STAGES]
        ensures { result ≡ standing self.now }
    {
        let mut packets = [None; STAGES];
        put_packets(&mut packets, &self.to_bodies);
        packets[0] = self.entering;
        packets[1] = packet_of(&self.to_table);
        packets[2] = packet_of(&self.to_heads);
        packets[3] = packet_of(&self.to_taken);
        packets
    }

    fn reset(&mut self, epoch: u32, counter: u64)
        ensures { self.new ≡ opening_pipeline self.old.config epoch counter }
    {
        self.gate.reset(Gate::opening(epoch, counter));
        self.lookup.clear();
        self.heads.reset(Head::empty());
        self.taken.reset(Taken::never());
        self.hot.reset(HotCell::new());
        reset_bodies(&mut self.bodies, self.config.slots);
        self.entering = None;
        self.to_table = None;
        self.to_heads = None;
        self.to_taken = None;
        drop_flights(&mut self.to_bodies);
    }

    /// The packets that had not left, oldest first, and then none. The registers are as new, with epoch 0 and counter
    /// 0.
    pub fn stop(&mut self) -> [Option<Packet>; STAGES]
        ensures packets { result ≡ in_front 36 (inside self.old) }
        ensures run { IsRun self.new (opening_view self.old.config 0 0) [] [] }
        ensures standing { standing self.new ≡ replicate 36 None }
        ensures counter { self.new.registers.gate.counter ≡ 0 }
        ensures config { self.new.config ≡ self.old.config }
    {
        let packets = oldest_first(&self.packets());
        self.reset(0, 0);
        packets
    }

    /// The cell of a slot's body in one of the stages 4 to 35, as it is now: that of the packets that have passed the
    /// stage.
    pub fn body_at(&self, stage: u32, slot: u32) -> Cell
        requires from { 4 ≤ stage }
        requires to { stage < 36 }
        requires slot { slot < self.now.config.slots }
        ensures { (start : SwitchView) (entered : List Packet) (answered : List Emit) →
            IsRun self.now start entered answered → result ≡ body_cell (stage - 4) (slot_at (final start
            (passed stage self.now entered)) slot).body }
    {
        cell_in(&self.bodies, stage as usize - 4, slot)
    }
}

fn answer(config: &Config, flight: Option<Course>) -> Option<Emit>
    requires { 0 < config.now.servers }
    ensures { result ≡ answer_of config.now flight }
{
    match flight {
        Some(flight) => {
            let mut emit = Emit::none();
            let flight = flight.passage();
            flight.put_first(config, &mut emit.first);
            flight.put_second(&mut emit.second);
            Some(emit)
        }
        None => None,
    }
}

/// Overlap changes nothing: the answers so far are the first of those that the packets get one after the other, the
/// other packets are inside, and with none inside the registers are those of all.
pub fn overlap_changes_nothing()
    ensures { (v : PipelineView) (start : SwitchView) (entered : List Packet) (answered : List Emit) →
        IsRun v start entered answered → IsInOrder v start entered answered }
{}
