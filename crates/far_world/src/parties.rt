use crate::bag::Bag;
use crate::choice::one_if;
use crate::listing::{list_all, note_recovered};
use crate::passing::{count_pass, pass_through};
use crate::seat::{Seat, config_of, ops_of};
use crate::serving::recipient;
use crate::tasks::{Task, do_task, leaves_first_want};
use crate::turn::{Turn, count_step, make_room, post};
use controller_core::Controller;
use far_base::{LogEntry, Memory, Packet, Party, Plan};
use far_history::Log;
use far_outside::Keeper;
use server_keeper::{StepFault, server_step};
use std::alloc::Global;
use std::marker::Model;
use switch_core::Switch;

/// All parties of a world, the messages on their way, and the log. Contracts see the plan, the state
/// of the machine, and what the keeper has.
#[derive(Drop)]
pub(crate) struct Parties<S: Switch + Drop, K: Keeper + Drop> {
    pub plan: Plan,
    pub switch: S,
    pub running: bool,
    pub clients: Vec<Seat>,
    /// How many clients can send.
    pub senders: u32,
    pub controller: Controller,
    /// Whether the controller has something to do for its first want.
    pub can_tick: bool,
    pub keeper: K,
    pub bag: Bag,
    pub passes: [u64; 9],
    pub done: u32,
    pub log: Log,
    /// What the party whose turn it is sends and notes.
    pub turn: Turn,
    pub alloc: Global,
}

impl<S: Switch + Drop, K: Keeper + Drop> Model for Parties<S, K> {
    ghost use Rattle.far_world.specs.Scene.{Scene, scene_of, keeper_of, IsFit};

    ghost Value = { Scene };

    ghost view = { λ p. scene_of p.plan (S.seen p.switch) p.running p.clients.items p.controller p.bag.messages
        p.passes p.done p.log
        (keeper_of (K.records p.keeper) (K.server_count p.keeper) (K.ceiling p.keeper) (K.fault_count p.keeper)) };

    ghost invariant = { λ p. IsFit p.plan p.clients.items p.senders p.controller p.can_tick p.passes };
}

ghost use Rattle.std.specs.Prelude.{◌≡◌, ◌+◌, ◌^◌, ◌<◌, ◌≤◌, OnOk, OnErr, IsErrOf, length, slice_index, is_some};
ghost use Rattle.std.specs.Prelude.{true, ℕ};
ghost use Rattle.far_base.specs.declared.party.Party.TheVariants.{Switch as TheSwitch};
ghost use Rattle.far_base.specs.declared.plan.TheConstants.{OP_LIMIT};
ghost use Rattle.far_model.specs.Clients.{client_takes};
ghost use Rattle.far_base.specs.Limits.{IsConfig};
ghost use Rattle.far_model.specs.Controller.{ready};
ghost use Rattle.controller_core.specs.Room.{HasRoom};
ghost use Rattle.far_world.specs.Tasks.{FitsConfig, MayDo, task_turn};
ghost use Rattle.far_model.specs.Events.{can_send, client_turn, controller_turn, sends, stops, switch_turn};
ghost use Rattle.far_model.specs.State.{client_at};
ghost use Rattle.far_world.specs.Seats.{IsExpected};
ghost use Rattle.far_model.specs.Pass.{pass};
ghost use Rattle.far_outside.specs.Faults.{Rose};
ghost use Rattle.far_world.specs.Scene.{with_faults, with_state};
ghost use Rattle.far_world.specs.Serving.{IsRestarted, IsServed};
ghost use Rattle.server_keeper.specs.Step.{IsForServer};

impl<S: Switch + Drop, K: Keeper + Drop> Parties<S, K> {
    /// A client sends its next operation.
    pub(crate) fn send(&mut self, number: u32) -> Result<(), Memory>
        requires can { can_send (client_at self.old.state number) ≡ true }
        requires ops { length self.old.plan.ops ≤ OP_LIMIT }
        requires steps { self.old.state.steps < 2 ^ 28 }
        requires few { length self.old.state.bag < 2 ^ 28 }
        ensures ok { OnOk result (self.new ≡ with_state self.old (sends self.old.plan self.old.state number)) }
        ensures err { OnErr result (self.new ≡ self.old) }
    {
        make_room(&mut self.bag, &mut self.log, &mut self.turn, 1, 1)?;
        let ops = ops_of(&self.plan);
        let seat = &mut self.clients[number as usize];
        seat.send_next(ops, &mut self.turn)?;
        self.senders -= 1;
        post(
            &mut self.bag,
            &mut self.log,
            Party::Client(number),
            &self.turn,
        );
        Ok(())
    }

    /// A client takes a packet.
    pub(crate) fn client_handles(&mut self, number: u32, packet: &Packet) -> Result<(), Memory>
        requires there { number < length self.old.state.clients }
        requires expected { IsExpected (client_at self.old.state number).waits packet.now }
        requires preserved { length (client_at self.old.state number).preserved < 2 ^ 28 }
        requires steps { self.old.state.steps < 2 ^ 28 }
        requires few { length self.old.state.bag < 2 ^ 28 }
        ensures ok { OnOk result (self.new ≡ with_state self.old
            (client_turn self.old.state number self.old.state.bag (client_takes self.old.plan.ops number
            (client_at self.old.state number) packet.now))) }
        ensures err { OnErr result (self.new ≡ self.old) }
    {
        let most = self.clients[number as usize].most_sent();
        make_room(&mut self.bag, &mut self.log, &mut self.turn, most as u32, 1)?;
        let seat = &mut self.clients[number as usize];
        let before = one_if(seat.can_send());
        seat.take(packet, &mut self.turn);
        self.senders = self.senders - before + one_if(seat.can_send());
        post(
            &mut self.bag,
            &mut self.log,
            Party::Client(number),
            &self.turn,
        );
        Ok(())
    }

    /// A packet passes through the switch.
    pub(crate) fn switch_handles(&mut self, packet: &Packet) -> Result<(), Memory>
        requires counter { self.old.state.switch.counter < 2 ^ 28 }
        requires steps { self.old.state.steps < 2 ^ 28 }
        requires few { length self.old.state.bag < 2 ^ 28 }
        requires passes { (i : ℕ) → slice_index self.old.state.passes i < 2 ^ 28 }
        ensures ok { OnOk result (self.new ≡ with_state self.old
            (switch_turn self.old.state self.old.state.bag packet.now (pass self.old.state.switch packet.now))) }
        ensures err { OnErr result (self.new ≡ self.old) }
    {
        self.bag.reserve(2)?;
        self.log.reserve(2)?;
        pass_through(&mut self.switch, packet, &mut self.bag, &mut self.log);
        count_pass(&mut self.passes, packet);
        Ok(())
    }

    /// A server handles a packet. `KeeperFailed` only where the keeper's count of faults rose. After
    /// an error all is as before but for that count.
    pub(crate) fn server_handles(&mut self, number: u32, packet: &Packet) -> Result<(), StepFault>
        requires there { number < self.old.keeper.servers }
        requires kind { IsForServer packet.now }
        requires steps { self.old.state.steps < 2 ^ 28 }
        requires few { length self.old.state.bag < 2 ^ 28 }
        ensures ok { OnOk result (IsServed number packet.now self.old self.new) }
        ensures err { OnErr result (self.new ≡ with_faults self.old self.new.keeper.faults) }
        ensures unfailed { OnOk result (self.new.keeper.faults ≡ self.old.keeper.faults) }
        ensures later { self.old.keeper.faults ≤ self.new.keeper.faults }
        ensures cause { IsErrOf result StepFault.KeeperFailed → Rose self.old.keeper.faults self.new.keeper.faults }
    {
        self.bag.reserve(1).map_err(|_| StepFault::Memory)?;
        match &server_step(&mut self.keeper, number, packet) {
            Ok(reply) => self.bag.put(Party::Server(number), recipient(reply), reply),
            Err(cause) => return Err(*cause),
        }
        count_step(&mut self.log);
        Ok(())
    }

    /// The controller does what it is asked.
    pub(crate) fn control(&mut self, task: &Task) -> Result<(), Memory>
        requires valid { IsConfig self.old.plan.config }
        requires room { HasRoom self.old.state.controller }
        requires may { MayDo self.old.state.controller task.now }
        requires fits { FitsConfig self.old.plan.config self.old.state.controller }
        requires steps { self.old.state.steps < 2 ^ 28 }
        requires few { length self.old.state.bag < 2 ^ 28 }
        ensures ok { OnOk result (self.new ≡ with_state self.old
            (controller_turn self.old.state self.old.state.bag
            (task_turn self.old.plan.config self.old.state.controller task.now))) }
        ensures err { OnErr result (self.new ≡ self.old) }
    {
        let config = config_of(&self.plan);
        let most_out = config.clients + config.servers + config.slots + 1;
        let most_notes = config.slots as usize + 1;
        make_room(
            &mut self.bag,
            &mut self.log,
            &mut self.turn,
            most_out,
            most_notes,
        )?;
        let stays = leaves_first_want(&self.controller, task);
        do_task(&mut self.controller, task, &mut self.turn)?;
        self.can_tick = if stays {
            self.can_tick
        } else {
            self.controller.tick_ready()
        };
        post(&mut self.bag, &mut self.log, Party::Controller, &self.turn);
        Ok(())
    }

    /// The switch runs again, with the records that all servers have listed. After an error all is as
    /// before but for the count of the keeper's faults.
    pub(crate) fn restart(&mut self) -> Result<(), StepFault>
        requires ready { is_some (ready self.old.state.controller) ≡ true }
        requires room { HasRoom self.old.state.controller }
        requires config { self.old.state.switch.config ≡ self.old.plan.config }
        requires servers { self.old.keeper.servers ≡ self.old.plan.config.servers }
        requires steps { self.old.state.steps < 2 ^ 28 }
        requires few { length self.old.state.bag < 2 ^ 28 }
        ensures ok { OnOk result (IsRestarted self.old self.new) }
        ensures err { OnErr result (self.new ≡ with_faults self.old self.new.keeper.faults) }
        ensures unfailed { OnOk result (self.new.keeper.faults ≡ self.old.keeper.faults) }
        ensures later { self.old.keeper.faults ≤ self.new.keeper.faults }
        ensures cause { IsErrOf result StepFault.KeeperFailed → Rose self.old.keeper.faults self.new.keeper.faults }
    {
        let servers = config_of(&self.plan).servers;
        let records = list_all(self.alloc, &mut self.keeper, servers)?;
        make_room(
            &mut self.bag,
            &mut self.log,
            &mut self.turn,
            0,
            records.len() + 1,
        )
        .map_err(|_| StepFault::Memory)?;
        let (epoch, counter) = self.controller.restart();
        self.can_tick = self.controller.tick_ready();
        self.switch.reset(epoch, counter);
        self.running = true;
        note_recovered(counter, &records, &mut self.turn);
        post(&mut self.bag, &mut self.log, Party::Controller, &self.turn);
        Ok(())
    }

    /// The switch loses its memory.
    pub(crate) fn stop(&mut self) -> Result<(), Memory>
        requires config { self.old.state.switch.config ≡ self.old.plan.config }
        requires steps { self.old.state.steps < 2 ^ 28 }
        requires few { length self.old.state.bag < 2 ^ 28 }
        ensures ok { OnOk result (self.new ≡ with_state self.old (stops self.old.plan self.old.state)) }
        ensures err { OnErr result (self.new ≡ self.old) }
    {
        make_room(&mut self.bag, &mut self.log, &mut self.turn, 0, 1)?;
        self.turn.note(LogEntry::Stopped);
        self.switch.reset(0, 0);
        self.running = false;
        post(&mut self.bag, &mut self.log, Party::Switch, &self.turn);
        Ok(())
    }
}
