//! Stages 0 to 3 as a group.
use crate::cells::{Gate, HOT_CELLS, Head as SlotHead, HotCell, Taken};
use crate::flight::Passage;
use crate::groups::Flight;
use crate::stages::{pass_gate, pass_heads, pass_hot, pass_taken};
use crate::table::{copied_table, pass_table};
use far_base::{Config, Memory, Packet};
use lookup_table::Lookup;
use register_stages::{PassToken, RegArray};
use std::alloc::Global;
use std::marker::Model;

/// Stages 0 to 3 of a switch: the epoch, the counter and the snapshot; the table of keys; the heads of the slots; what
/// was taken, and the hot cells. Contracts see their registers.
#[derive(Drop)]
pub struct Head {
    alloc: Global,
    config: Config,
    gate: RegArray<Gate>,
    lookup: Lookup,
    heads: RegArray<SlotHead>,
    taken: RegArray<Taken>,
    hot: RegArray<HotCell>,
}

impl Model for Head {
    ghost use Rattle.std.specs.Prelude.{[]};
    ghost use Rattle.switch_staged.specs.Groups.{HeadView};
    ghost use Rattle.switch_staged.specs.Staged.{registers};
    ghost use Rattle.switch_staged.specs.Fronts.{IsFront};

    ghost Value = { HeadView };

    ghost view = { λ s. record {
      config = s.config;
      front = registers s.gate s.lookup.bound s.heads s.taken s.hot [];
    } };

    ghost invariant = { λ s. IsFront s.config s.gate s.lookup.bound s.heads s.taken s.hot };
}

ghost use Rattle.std.specs.Prelude.{◌≡◌, ◌+◌, ◌<◌, ◌≤◌, ◌^◌, IfOk};
ghost use Rattle.far_base.specs.Limits.{IsConfig};
ghost use Rattle.switch_staged.specs.Groups.{head_left, led, opening_head};
ghost use Rattle.switch_staged.specs.Heads.{empty_head};
ghost use Rattle.switch_staged.specs.Stages.{head_at, waiting};
ghost use Rattle.switch_staged.specs.Through.{before_bodies, token_led, IsShort};

impl Head {
    /// Those of a switch with no memory but these.
    pub(crate) fn new(
        alloc: Global,
        config: Config,
        epoch: u32,
        counter: u64,
    ) -> Result<Self, Memory>
        requires { IsConfig config }
        ensures { IfOk result (λ head. head ≡ opening_head config epoch counter) }
    {
        let slots = config.slots;
        Ok(Head {
            alloc,
            config,
            gate: RegArray::new(alloc, 0, 1, Gate::opening(epoch, counter))?,
            lookup: Lookup::new(alloc, slots)?,
            heads: RegArray::new(alloc, 2, slots, SlotHead::empty())?,
            taken: RegArray::new(alloc, 3, slots, Taken::never())?,
            hot: RegArray::new(alloc, 4, HOT_CELLS, HotCell::new())?,
        })
    }

    /// The same registers.
    pub(crate) fn copied(&self) -> Result<Self, Memory>
        ensures { IfOk result (λ head. head ≡ self.now) }
    {
        let alloc = self.alloc;
        Ok(Head {
            alloc,
            config: self.config,
            gate: self.gate.copied(alloc)?,
            lookup: copied_table(alloc, &self.lookup, self.config.slots)?,
            heads: self.heads.copied(alloc)?,
            taken: self.taken.copied(alloc)?,
            hot: self.hot.copied(alloc)?,
        })
    }

    /// The registers are those of a new switch.
    pub(crate) fn reset(&mut self, epoch: u32, counter: u64)
        ensures { self.new ≡ opening_head self.old.config epoch counter }
    {
        self.gate.reset(Gate::opening(epoch, counter));
        self.lookup.clear();
        self.heads.reset(SlotHead::empty());
        self.taken.reset(Taken::never());
        self.hot.reset(HotCell::new());
    }

    /// Where memory comes from.
    pub(crate) fn alloc(&self) -> Global {
        self.alloc
    }

    /// The sizes of the switch.
    pub(crate) fn config(&self) -> &Config
        ensures value { result.now ≡ self.now.config }
        ensures servers { 0 < self.now.config.servers }
    {
        &self.config
    }

    /// The counter.
    pub(crate) fn counter(&self) -> u64
        ensures { result ≡ self.now.front.gate.counter }
    {
        self.gate.look(0).counter
    }

    /// What there is of a slot but the bytes of its body.
    pub(crate) fn slot(&self, slot: u32) -> SlotHead
        requires { slot < self.now.config.slots }
        ensures { result ≡ head_at self.now.front.heads slot }
    {
        self.heads.look(slot)
    }

    /// A packet passes the stages, each array at most once and in the order of the places. The flight is then before
    /// the first stage of the body.
    #[tactic(auto, unfolding(crate::specs::Groups::head_left))]
    pub(crate) fn lead(&mut self, packet: &Packet, token: &mut PassToken, flight: &mut Passage)
        requires room { self.old.front.gate.counter + 1 < 2 ^ 64 }
        requires waiting { flight.old ≡ waiting packet.now }
        requires token { token.old ≡ 0 }
        ensures head { self.new ≡ head_left self.old packet.now }
        ensures flight { flight.new ≡ before_bodies self.old.config self.old.front packet.now }
        ensures token { token.new ≡ token_led self.old.config self.old.front packet.now }
        ensures within { token.new ≤ 5 }
        ensures short { IsShort packet.now }
    {
        pass_gate(&mut self.gate, token, &self.config, packet, flight);
        pass_table(&mut self.lookup, flight);
        pass_heads(&mut self.heads, token, flight);
        pass_taken(&mut self.taken, token, flight);
        pass_hot(&mut self.hot, token, &self.config, flight);
    }

    /// A packet enters and passes the stages. The answer is what goes on with it.
    #[tactic(auto, unfolding(crate::specs::Groups::led), using(crate::proofs::GroupLaws::head_counts))]
    pub fn enter(&mut self, packet: &Packet) -> Flight
        requires { self.old.front.gate.counter + 1 < 2 ^ 64 }
        ensures head { self.new ≡ head_left self.old packet.now }
        ensures flight { result ≡ led self.old packet.now }
        ensures counter { self.new.front.gate.counter ≤ self.old.front.gate.counter + 1 }
        ensures short { IsShort packet.now }
    {
        let mut passage = Passage::new(packet);
        self.lead(packet, &mut PassToken::start(), &mut passage);
        Flight::behind(&self.config, &passage)
    }
}
