//! The switch in stages.
use crate::groups::Groups;
use far_base::{Config, Memory, Packet, Record};
use std::alloc::Global;
use std::marker::Model;
use switch_core::{Emit, Switch};

/// A switch whose memory is in arrays of registers in 36 stages. A pass visits them in rising order of place, each at
/// most once, and walks over no slots. Contracts see its view.
#[derive(Drop)]
pub struct StagedSwitch {
    groups: Groups,
}

impl Model for StagedSwitch {
    ghost use Rattle.far_model.specs.View.{SwitchView};
    ghost use Rattle.switch_staged.specs.Together.{switch_of, AreOfOne};

    ghost Value = { SwitchView };

    ghost view = { λ s. switch_of s.groups };

    ghost invariant = { λ s. AreOfOne s.groups };
}

ghost use Rattle.std.specs.Prelude.{◌≡◌, ◌+◌, ◌<◌, ◌^◌, length, IfOk, None};
ghost use Rattle.far_base.specs.Limits.{IsConfig};
ghost use Rattle.far_model.specs.Pass as model;
ghost use Rattle.far_model.specs.View.{opening_view, held_record, slot_at};
ghost use Rattle.switch_staged.specs.Together.{switch_of, AreOfOne};

impl StagedSwitch {
    /// A switch with no memory but these.
    pub fn new(alloc: Global, config: Config, epoch: u32, counter: u64) -> Result<Self, Memory>
        requires { IsConfig config }
        ensures { IfOk result (λ switch. switch ≡ opening_view config epoch counter) }
    {
        Ok(StagedSwitch {
            groups: Groups::opening(alloc, config, epoch, counter)?,
        })
    }

    /// A switch of the same view.
    pub fn copy(&self) -> Result<StagedSwitch, Memory>
        ensures { IfOk result (λ copy. copy ≡ self.now) }
    {
        Ok(StagedSwitch {
            groups: self.groups.copied()?,
        })
    }

    /// The number that the last write got.
    pub fn counter(&self) -> u64
        ensures { result ≡ self.now.counter }
    {
        self.groups.head.counter()
    }

    /// The number of slots.
    pub fn slots(&self) -> u32
        ensures config { result ≡ self.now.config.slots }
        ensures count { result ≡ length self.now.slots }
    {
        self.groups.head.config().slots
    }

    /// The record of a slot. `None` where the slot is not latest.
    pub fn view(&self, slot: u32) -> Option<Record>
        requires { slot < self.now.config.slots }
        ensures { result ≡ held_record (slot_at self.now slot) }
    {
        self.groups.record(slot)
    }

    /// The stages in groups.
    pub fn into_groups(self) -> Groups
        ensures one { AreOfOne result }
        ensures view { switch_of result ≡ self }
    {
        self.groups
    }

    /// The switch whose stages are in these groups.
    pub fn from_groups(groups: Groups) -> StagedSwitch
        requires { AreOfOne groups }
        ensures { result ≡ switch_of groups }
    {
        StagedSwitch { groups }
    }

    /// One pass of a packet: each array is visited at most once, in the order of the places.
    fn visit_all(&mut self, packet: &Packet, emit: &mut Emit)
        requires room { self.old.counter + 1 < 2 ^ 64 }
        requires no_first { emit.old.first ≡ None }
        requires no_second { emit.old.second ≡ None }
        ensures view { self.new ≡ (model.pass self.old packet.now).view }
        ensures first { emit.new.first ≡ (model.pass self.old packet.now).first }
        ensures second { emit.new.second ≡ (model.pass self.old packet.now).second }
    {
        self.groups.visit_all(packet, emit);
    }
}

impl Switch for StagedSwitch {
    ghost seen = { λ view. view };

    fn pass(&mut self, packet: &Packet) -> Emit {
        let mut emit = Emit::none();
        self.visit_all(packet, &mut emit);
        emit
    }

    fn pass_into(&mut self, packet: &Packet, emit: &mut Emit) {
        self.visit_all(packet, emit);
    }

    fn reset(&mut self, epoch: u32, counter: u64) {
        self.groups.reset(epoch, counter);
    }

    fn renew(&mut self, config: Config, epoch: u32, counter: u64) -> Result<(), Memory> {
        let alloc = self.groups.head.alloc();
        *self = StagedSwitch::new(alloc, config, epoch, counter)?;
        Ok(())
    }
}
