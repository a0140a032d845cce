//! The stages of a switch in groups that can be passed one without the other.
use crate::cells::{BODY_CELLS, Cell, Cells};
use crate::flight::{Course, Passage};
use crate::leading::Head;
use crate::parts::BodyPart;
use crate::rows::{join_cells, no_cells};
use far_base::{Config, Memory, Packet, Record};
use register_stages::PassToken;
use std::alloc::Global;
use std::marker::Model;
use switch_core::Emit;

/// What travels with a packet from group to group.
#[derive(Clone, Copy, PartialEq, Eq)]
pub struct Flight {
    config: Config,
    course: Course,
}

impl Model for Flight {
    ghost use Rattle.std.specs.Prelude.{◌<◌};
    ghost use Rattle.switch_staged.specs.Groups.{FlightView};

    ghost Value = { FlightView };

    ghost view = { λ f. record { config = f.config; course = f.course } };

    ghost invariant = { λ f. 0 < f.config.servers };

    ghost inverse = { λ v. record { config = v.config; course = v.course } };
}

/// The stages of one switch in groups: stages 0 to 3, and the stages 4 to 11, 12 to 19, 20 to 27 and 28 to 35.
#[derive(Drop)]
pub struct Groups {
    pub head: Head,
    pub part1: BodyPart,
    pub part2: BodyPart,
    pub part3: BodyPart,
    pub part4: BodyPart,
}

ghost use Rattle.std.specs.Prelude.{◌≡◌, ◌+◌, ◌<◌, ◌≤◌, ◌^◌, ℕ, List, [], slice_index_or, None, IfOk, IsTrue};
ghost use Rattle.std.specs.List.{AllByRecursion};
ghost use Rattle.far_base.specs.Limits.{IsConfig};
ghost use Rattle.far_base.specs.declared.packet.Packet.{Packet};
ghost use Rattle.far_model.specs.Pass as model;
ghost use Rattle.far_model.specs.View.{SwitchView, held_record, slot_at};
ghost use Rattle.switch_staged.specs.declared.groups.Groups.{Groups};
ghost use Rattle.switch_staged.specs.Emits.{slot_of};
ghost use Rattle.switch_staged.specs.Groups.{emitted};
ghost use Rattle.switch_staged.specs.Overlap.{array_of};
ghost use Rattle.switch_staged.specs.Rows.{zero_cell, row, joined};
ghost use Rattle.switch_staged.specs.Through.{IsShort};
ghost use Rattle.switch_staged.specs.Together.{registers_of, switch_of, AreOfOne, AreLine, opening_groups, groups_left};
ghost use Rattle.switch_staged.specs.Together.{flight5};

impl Flight {
    /// What goes on behind a group.
    pub(crate) fn behind(config: &Config, passage: &Passage) -> Self
        requires { 0 < config.now.servers }
        ensures { result ≡ record { config = config.now; course = passage.now } }
    {
        Flight {
            config: *config,
            course: passage.flight(),
        }
    }

    /// The sizes of the switch.
    pub(crate) fn config(&self) -> &Config
        ensures value { result.now ≡ self.now.config }
        ensures servers { 0 < self.now.config.servers }
    {
        &self.config
    }

    /// The way goes on.
    pub(crate) fn passage(&self) -> Passage<'_>
        ensures { result ≡ self.now.course }
    {
        self.course.passage()
    }

    /// Whether both are one.
    pub fn is_same(&self, other: &Flight) -> bool
        ensures { IsTrue result → self.now ≡ other.now }
    {
        self.config == other.config && self.course.is_same(&other.course)
    }

    /// What leaves the switch with the packet, where the flight has passed all groups.
    #[tactic(auto, unfolding(crate::specs::Groups::emitted))]
    pub fn emit(self) -> Emit
        ensures { result ≡ emitted self }
    {
        let mut emit = Emit::none();
        let passage = self.course.passage();
        passage.put_first(&self.config, &mut emit.first);
        passage.put_second(&mut emit.second);
        emit
    }
}

impl Groups {
    /// The groups of a switch with no memory but these.
    pub(crate) fn opening(
        alloc: Global,
        config: Config,
        epoch: u32,
        counter: u64,
    ) -> Result<Self, Memory>
        requires { IsConfig config }
        ensures { IfOk result (λ groups. groups ≡ opening_groups config epoch counter) }
    {
        let slots = config.slots;
        Ok(Groups {
            head: Head::new(alloc, config, epoch, counter)?,
            part1: BodyPart::new(alloc, 0, slots)?,
            part2: BodyPart::new(alloc, 8, slots)?,
            part3: BodyPart::new(alloc, 16, slots)?,
            part4: BodyPart::new(alloc, 24, slots)?,
        })
    }

    /// The same groups.
    pub(crate) fn copied(&self) -> Result<Self, Memory>
        ensures { IfOk result (λ groups. groups ≡ self.now) }
    {
        let alloc = self.head.alloc();
        Ok(Groups {
            head: self.head.copied()?,
            part1: self.part1.copied(alloc)?,
            part2: self.part2.copied(alloc)?,
            part3: self.part3.copied(alloc)?,
            part4: self.part4.copied(alloc)?,
        })
    }

    /// The groups are those of a new switch.
    pub(crate) fn reset(&mut self, epoch: u32, counter: u64)
        requires { AreOfOne self.old }
        ensures { self.new ≡ opening_groups self.old.head.config epoch counter }
    {
        self.head.reset(epoch, counter);
        self.part1.reset();
        self.part2.reset();
        self.part3.reset();
        self.part4.reset();
    }

    /// A packet passes all groups, with one token. What leaves is put into an `emit` with nothing in it.
    #[tactic(auto, unfolding(crate::specs::Groups::emitted, crate::specs::Groups::led, crate::specs::Groups::through_part, crate::specs::Groups::head_left))]
    pub(crate) fn visit_all(&mut self, packet: &Packet, emit: &mut Emit)
        requires one { AreOfOne self.old }
        requires room { self.old.head.front.gate.counter + 1 < 2 ^ 64 }
        requires no_first { emit.old.first ≡ None }
        requires no_second { emit.old.second ≡ None }
        ensures groups { self.new ≡ groups_left self.old packet.now }
        ensures first { emit.new.first ≡ (emitted (flight5 self.old packet.now)).first }
        ensures second { emit.new.second ≡ (emitted (flight5 self.old packet.now)).second }
        ensures short { IsShort packet.now }
    {
        let mut token = PassToken::start();
        let mut flight = Passage::new(packet);
        self.head.lead(packet, &mut token, &mut flight);
        self.part1.carry(&mut token, &mut flight);
        self.part2.carry(&mut token, &mut flight);
        self.part3.carry(&mut token, &mut flight);
        self.part4.carry(&mut token, &mut flight);
        flight.put_first(self.head.config(), &mut emit.first);
        flight.put_second(&mut emit.second);
    }

    /// A cell of the body of a slot.
    fn cell(&self, at: usize, slot: u32) -> Cell
        requires one { AreOfOne self.now }
        requires at { at < 32 }
        requires slot { slot < self.now.head.config.slots }
        ensures { result ≡ slice_index_or (array_of at (registers_of self.now)) slot zero_cell }
    {
        let stage = 4 + at as u32;
        if at < 8 {
            self.part1.body_at(stage, slot)
        } else if at < 16 {
            self.part2.body_at(stage, slot)
        } else if at < 24 {
            self.part3.body_at(stage, slot)
        } else {
            self.part4.body_at(stage, slot)
        }
    }

    /// The cells of the body of a slot.
    fn cells(&self, slot: u32) -> Cells
        requires one { AreOfOne self.now }
        requires slot { slot < self.now.head.config.slots }
        ensures { result ≡ row slot (registers_of self.now).arrays }
    {
        let mut cells = no_cells();
        for k in 0..BODY_CELLS {
            cells[k] = self.cell(k, slot);
        }
        cells
    }

    /// The record that a slot shows.
    pub(crate) fn record(&self, slot: u32) -> Option<Record>
        requires one { AreOfOne self.now }
        requires slot { slot < self.now.head.config.slots }
        ensures { result ≡ held_record (slot_at (switch_of self.now) slot) }
    {
        let head = self.head.slot(slot);
        if !head.latest {
            return None;
        }
        let body = head.shape.body(&join_cells(&self.cells(slot)));
        match head.key {
            Some(key) => Some(Record {
                key,
                num: head.num,
                body,
            }),
            None => None,
        }
    }
}

/// Groups that each take a whole list, the head a list of packets and each part the flights of the group before it,
/// give the answers that the packets get one after the other, and leave the groups of the switch that they leave one
/// after the other.
pub fn groups_make_a_line()
    ensures { (g : Groups) (packets : List Packet) → AreOfOne g → AllByRecursion IsShort packets → AreLine g packets }
{}

/// A pass raises the counter by at most one.
pub fn a_pass_counts_one()
    ensures { (v : SwitchView) (packet : Packet) → (model.pass v packet).view.counter ≤ v.counter + 1 }
{}
