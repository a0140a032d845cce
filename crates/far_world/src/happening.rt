ghost use Rattle.std.specs.Prelude.{◌≡◌, ◌+◌, ◌<◌, ◌≤◌, ℕ, Some, OnOk, OnErr, IsErrOf, IsOkUnless, is_some, length};
ghost use Rattle.std.specs.Prelude.{slice_get, true};
ghost use Rattle.far_base.specs.declared.packet.Message.{Message};
ghost use Rattle.far_model.specs.Events.{does_order, handled, happens_with, is_enabled, is_order_enabled, is_possible};
ghost use Rattle.far_outside.specs.Faults.{Rose};
ghost use Rattle.far_world.specs.Happening.{IsCalm, IsForOthers};
ghost use Rattle.far_world.specs.Ready.{IsReady};
ghost use Rattle.far_world.specs.Scene.{with_faults, with_state};
ghost use Rattle.far_world.specs.Standing.{Stands, unasked};
ghost use Rattle.far_world.specs.Serving.{IsServed};
ghost use Rattle.far_world.specs.Steps.{IsAfter};
ghost use Rattle.far_invariants.specs.Addressed.{ComesTo};

use crate::parties::Parties;
use crate::tasks::Task;
use far_base::{Event, Memory, Order, Packet, Party, Plan};
use far_outside::Keeper;
use server_keeper::StepFault;
use switch_core::Switch;

/// The order at the place of the plan.
fn order_at(plan: &Plan, place: u32) -> Order
    requires { place < length plan.now.orders }
    ensures { slice_get plan.now.orders place ≡ Some result }
{
    plan.orders[place as usize]
}

impl<S: Switch + Drop, K: Keeper + Drop> Parties<S, K> {
    /// What an order does.
    fn obey(&mut self, order: &Order) -> Result<(), Memory>
        requires stands { Stands self.old }
        requires possible { is_possible self.old.state order.now ≡ true }
        ensures ok { OnOk result (self.new ≡ with_state self.old
            (does_order self.old.plan self.old.state (Some order.now))) }
        ensures err { OnErr result (self.new ≡ self.old) }
    {
        match *order {
            Order::Admit { key, .. } => self.control(&Task::Want(key)),
            Order::Evict { key, .. } => self.control(&Task::Evict(key)),
            Order::Snap { .. } => self.control(&Task::Snap),
            Order::Stop { .. } => self.stop(),
            Order::StopAt { .. } => self.stop(),
        }
    }

    /// The first order that is not done is done.
    fn do_order(&mut self) -> Result<(), Memory>
        requires stands { Stands self.old }
        requires enabled { is_order_enabled self.old.plan self.old.state ≡ true }
        ensures ok { OnOk result (self.new ≡ with_state self.old
            (record (does_order self.old.plan self.old.state
            (slice_get self.old.plan.orders self.old.state.done)) { done = self.old.state.done + 1 })) }
        ensures err { OnErr result (self.new ≡ self.old) }
    {
        let order = order_at(&self.plan, self.done);
        self.obey(&order)?;
        self.done += 1;
        Ok(())
    }

    /// A party other than a server handles a packet. The message stays in the bag.
    fn handle(&mut self, to: Party, packet: &Packet) -> Result<(), Memory>
        requires stands { Stands self.old }
        requires comes { ComesTo self.old.plan self.old.state to packet.now }
        requires others { IsForOthers to }
        ensures ok { OnOk result (self.new ≡ with_state self.old
            (handled self.old.plan unasked self.old.state self.old.state.bag to packet.now)) }
        ensures err { OnErr result (self.new ≡ self.old) }
    {
        match to {
            Party::Client(number) => self.client_handles(number, packet),
            Party::Switch => self.switch_handles(packet),
            Party::Controller => self.control(&Task::Take(packet)),
            Party::Server(_) => unreachable!(),
        }
    }

    /// The message at the place is taken out and handled by a party other than a server.
    fn deliver_to_others(&mut self, place: u32, to: Party, packet: &Packet) -> Result<(), Memory>
        requires stands { Stands self.old }
        requires there { (from : Party) × (slice_get self.old.state.bag place ≡ Some
            (record { from = from; to = to; packet = packet.now })) }
        requires others { IsForOthers to }
        ensures ok { OnOk result (self.new ≡ with_state self.old
            (happens_with self.old.plan unasked self.old.state (Event.Deliver place))) }
        ensures err { OnErr result (self.new ≡ self.old) }
    {
        self.handle(to, packet)?;
        self.bag.remove(place);
        Ok(())
    }

    /// The message at the place is taken out and handled by a server.
    fn deliver_to_server(
        &mut self,
        place: u32,
        number: u32,
        packet: &Packet,
    ) -> Result<(), StepFault>
        requires stands { Stands self.old }
        requires there { (from : Party) × (slice_get self.old.state.bag place ≡ Some
            (record { from = from; to = Party.Server number; packet = packet.now })) }
        ensures ok { OnOk result (IsAfter self.old (Event.Deliver place) self.new) }
        ensures err { OnErr result (self.new ≡ with_faults self.old self.new.keeper.faults) }
        ensures unfailed { OnOk result (self.new.keeper.faults ≡ self.old.keeper.faults) }
        ensures later { self.old.keeper.faults ≤ self.new.keeper.faults }
        ensures cause { IsErrOf result StepFault.KeeperFailed → Rose self.old.keeper.faults self.new.keeper.faults }
    {
        self.server_handles(number, packet)?;
        self.bag.remove(place);
        Ok(())
    }

    /// An event in which no keeper is asked.
    fn act(&mut self, event: Event) -> Result<(), Memory>
        requires stands { Stands self.old }
        requires enabled { is_enabled self.old.plan self.old.state event ≡ true }
        requires calm { IsCalm event }
        ensures ok { OnOk result (self.new ≡ with_state self.old
            (happens_with self.old.plan unasked self.old.state event)) }
        ensures err { OnErr result (self.new ≡ self.old) }
    {
        match event {
            Event::Send(number) => self.send(number),
            Event::Tick => self.control(&Task::Tick),
            Event::Recover => self.control(&Task::Recover),
            Event::Order(_) => self.do_order(),
            _ => unreachable!(),
        }
    }

    /// The message at the place is taken out and handled by a party other than a server.
    fn deliver_calmly(&mut self, place: u32, to: Party, packet: &Packet) -> Result<(), StepFault>
        requires stands { Stands self.old }
        requires there { (from : Party) × (slice_get self.old.state.bag place ≡ Some
            (record { from = from; to = to; packet = packet.now })) }
        requires others { IsForOthers to }
        ensures ok { OnOk result (IsAfter self.old (Event.Deliver place) self.new) }
        ensures err { OnErr result (self.new ≡ self.old) }
        ensures unfailed { OnOk result (self.new.keeper.faults ≡ self.old.keeper.faults) }
        ensures never { IsOkUnless result StepFault.Memory }
    {
        match self.deliver_to_others(place, to, packet) {
            Ok(()) => Ok(()),
            Err(Memory) => Err(StepFault::Memory),
        }
    }

    /// The message at the place is taken out and handled by its addressee.
    fn deliver_to(&mut self, place: u32, to: Party, packet: &Packet) -> Result<(), StepFault>
        requires stands { Stands self.old }
        requires there { (from : Party) × (slice_get self.old.state.bag place ≡ Some
            (record { from = from; to = to; packet = packet.now })) }
        ensures ok { OnOk result (IsAfter self.old (Event.Deliver place) self.new) }
        ensures err { OnErr result (self.new ≡ with_faults self.old self.new.keeper.faults) }
        ensures unfailed { OnOk result (self.new.keeper.faults ≡ self.old.keeper.faults) }
        ensures later { self.old.keeper.faults ≤ self.new.keeper.faults }
        ensures cause { IsErrOf result StepFault.KeeperFailed → Rose self.old.keeper.faults self.new.keeper.faults }
    {
        match to {
            Party::Server(number) => self.deliver_to_server(place, number, packet),
            Party::Client(_) => self.deliver_calmly(place, to, packet),
            Party::Switch => self.deliver_calmly(place, to, packet),
            Party::Controller => self.deliver_calmly(place, to, packet),
        }
    }

    /// The message at the place is taken out, and its addressee handles it.
    fn deliver(&mut self, place: u32) -> Result<(), StepFault>
        requires stands { Stands self.old }
        requires enabled { is_enabled self.old.plan self.old.state (Event.Deliver place) ≡ true }
        ensures ok { OnOk result (IsAfter self.old (Event.Deliver place) self.new) }
        ensures err { OnErr result (self.new ≡ with_faults self.old self.new.keeper.faults) }
        ensures unfailed { OnOk result (self.new.keeper.faults ≡ self.old.keeper.faults) }
        ensures later { self.old.keeper.faults ≤ self.new.keeper.faults }
        ensures cause { IsErrOf result StepFault.KeeperFailed → Rose self.old.keeper.faults self.new.keeper.faults }
    {
        let to = self.bag.addressee(place);
        let mut packet = Packet::Ask { round: 0 };
        self.bag.read(place, &mut packet);
        self.deliver_to(place, to, &packet)
    }

    /// An event in which no keeper is asked.
    fn act_calmly(&mut self, event: Event) -> Result<(), StepFault>
        requires stands { Stands self.old }
        requires enabled { is_enabled self.old.plan self.old.state event ≡ true }
        requires calm { IsCalm event }
        ensures ok { OnOk result (IsAfter self.old event self.new) }
        ensures err { OnErr result (self.new ≡ self.old) }
        ensures unfailed { OnOk result (self.new.keeper.faults ≡ self.old.keeper.faults) }
        ensures never { IsOkUnless result StepFault.Memory }
    {
        match self.act(event) {
            Ok(()) => Ok(()),
            Err(Memory) => Err(StepFault::Memory),
        }
    }

    /// The switch runs again.
    fn run_again(&mut self) -> Result<(), StepFault>
        requires stands { Stands self.old }
        requires enabled { is_enabled self.old.plan self.old.state Event.Restart ≡ true }
        ensures ok { OnOk result (IsAfter self.old Event.Restart self.new) }
        ensures err { OnErr result (self.new ≡ with_faults self.old self.new.keeper.faults) }
        ensures unfailed { OnOk result (self.new.keeper.faults ≡ self.old.keeper.faults) }
        ensures later { self.old.keeper.faults ≤ self.new.keeper.faults }
        ensures cause { IsErrOf result StepFault.KeeperFailed → Rose self.old.keeper.faults self.new.keeper.faults }
    {
        self.restart()?;
        Ok(())
    }

    /// The event happens, where all stands as it should.
    fn occur(&mut self, event: Event) -> Result<(), StepFault>
        requires stands { Stands self.old }
        requires enabled { is_enabled self.old.plan self.old.state event ≡ true }
        ensures ok { OnOk result (IsAfter self.old event self.new) }
        ensures err { OnErr result (self.new ≡ with_faults self.old self.new.keeper.faults) }
        ensures unfailed { OnOk result (self.new.keeper.faults ≡ self.old.keeper.faults) }
        ensures later { self.old.keeper.faults ≤ self.new.keeper.faults }
        ensures cause { IsErrOf result StepFault.KeeperFailed → Rose self.old.keeper.faults self.new.keeper.faults }
    {
        match event {
            Event::Deliver(place) => self.deliver(place),
            Event::Restart => self.run_again(),
            Event::Send(_) => self.act_calmly(event),
            Event::Tick => self.act_calmly(event),
            Event::Recover => self.act_calmly(event),
            Event::Order(_) => self.act_calmly(event),
        }
    }

    /// The event happens. `KeeperFailed` only where the keeper's count of faults rose in this call. After
    /// an error all is as before but for that count.
    pub(crate) fn happen(&mut self, event: Event) -> Result<(), StepFault>
        requires ready { IsReady event self.old }
        ensures ok { OnOk result (IsAfter self.old event self.new) }
        ensures err { OnErr result (self.new ≡ with_faults self.old self.new.keeper.faults) }
        ensures unfailed { OnOk result (self.new.keeper.faults ≡ self.old.keeper.faults) }
        ensures later { self.old.keeper.faults ≤ self.new.keeper.faults }
        ensures cause { IsErrOf result StepFault.KeeperFailed → Rose self.old.keeper.faults self.new.keeper.faults }
    {
        self.occur(event)
    }
}
