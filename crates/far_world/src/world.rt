use crate::parties::Parties;
use far_base::{Event, KeptItem, LogEntry, Party, Plan};
use far_history::Log;
use far_outside::Keeper;
use server_keeper::StepFault;
use std::alloc::Global;
use std::marker::Model;
use switch_core::Switch;

/// Why a world could not start, and what it was given. The keeper's records are as before.
#[derive(Drop)]
pub struct Halted<S: Switch + Drop, K: Keeper + Drop> {
    pub cause: StepFault,
    pub plan: Plan,
    pub switch: S,
    pub keeper: K,
}

/// A world of a plan: its parties and the messages on their way, the events that happened, and the log. Contracts see
/// the plan, the events, the state that they lead to, and what the keeper has; where the keeper does not tell its
/// records, the state has none at its servers. Every world is reached: its state is that of the run of its plan by its
/// events.
#[derive(Drop)]
pub struct World<S: Switch + Drop, K: Keeper + Drop> {
    parties: Parties<S, K>,
    events: Vec<Event>,
}

impl<S: Switch + Drop, K: Keeper + Drop> Model for World<S, K> {
    ghost use Rattle.far_world.specs.Reached.{IsReached, Ran, ran_to};

    ghost Value = { Ran };

    ghost view = { λ w. ran_to w.parties w.events.items };

    ghost invariant = { λ w. IsReached (ran_to w.parties w.events.items) };
}

ghost use Rattle.std.specs.Prelude.{◌≡◌, ◌^◌, ◌<◌, ◌≤◌, length, ◌++◌, [], ◌∷◌, false, true};
ghost use Rattle.std.specs.Prelude.{IfOk, IfErr, OnErr, IsErrOf, OnOk};
ghost use Rattle.far_base.specs.Limits.{IsPlan};
ghost use Rattle.far_model.specs.Answered.{AllAnswered};
ghost use Rattle.far_model.specs.Choosing as choosing;
ghost use Rattle.far_model.specs.Events.{is_enabled};
ghost use Rattle.far_model.specs.Runs as runs;
ghost use Rattle.far_model.specs.View.{opening_view};
ghost use Rattle.far_outside.specs.Faults.{Rose};
ghost use Rattle.far_world.specs.KeptList.{ListsKept};
ghost use Rattle.far_world.specs.LastAnswer.{last_answer, last_answered};
ghost use Rattle.far_world.specs.Reached.{HasStarted, HasStepped, IsReached, scene_in, with_count};
ghost use Rattle.far_world.specs.Scene.{keeper_of};
ghost use Rattle.far_world.specs.Turning.{HasTurned, TurnsFor};

/// The operation that is answered in the last line, where this is of the last step.
fn last_answer(log: &Log) -> Option<u32>
    ensures { result ≡ last_answer log.now.steps log.now.lines }
{
    if log.len() == 0 {
        return None;
    }
    let line = log.line(log.len() - 1);
    if line.moment != log.steps() {
        return None;
    }
    match line.entry {
        LogEntry::Answered { op } => Some(op),
        _ => None,
    }
}

impl<S: Switch + Drop, K: Keeper + Drop> World<S, K> {
    /// The world of the plan, in which nothing has happened yet. The switch is the opening one of the plan's config, in
    /// epoch 1 and with counter 0. The keeper begins with the plan's servers, all without records. `KeeperFailed` only
    /// where the keeper's count of faults rose in this call. After an error the keeper's records are as before.
    pub fn start(
        alloc: Global,
        plan: Plan,
        switch: S,
        keeper: K,
    ) -> Result<World<S, K>, Halted<S, K>>
        requires valid { IsPlan plan }
        requires view { S.seen switch ≡ opening_view plan.config 1 0 }
        ensures started { IfOk result (λ world. HasStarted plan (keeper_of (K.records keeper)
            (K.server_count keeper) (K.ceiling keeper) (K.fault_count keeper)) world) }
        ensures unfailed { IfOk result (λ world. world.keeper.faults ≡ K.fault_count keeper) }
        ensures err_plan { IfErr result (λ halted. halted.plan ≡ plan) }
        ensures err_switch { IfErr result (λ halted. halted.switch ≡ switch) }
        ensures err_records { IfErr result (λ halted. K.records halted.keeper ≡ K.records keeper) }
        ensures err_servers { IfErr result (λ halted. K.server_count halted.keeper ≡ K.server_count keeper) }
        ensures err_ceiling { IfErr result (λ halted. K.ceiling halted.keeper ≡ K.ceiling keeper) }
        ensures err_later { IfErr result (λ halted. K.fault_count keeper ≤ K.fault_count halted.keeper) }
        ensures err_cause { IfErr result (λ halted. halted.cause ≡ StepFault.KeeperFailed → Rose
            (K.fault_count keeper) (K.fault_count halted.keeper)) }
    {
        let parties = Parties::opened(alloc, plan, switch, keeper)?;
        Ok(World {
            parties,
            events: Vec::new(alloc),
        })
    }

    /// The event that the pick chooses happens: the enabled order where there is one, and else the choice at the place
    /// of the pick modulo the number of choices. `KeeperFailed` only where the keeper's count of faults rose in this
    /// call. After an error the world is as before but for that count.
    pub fn step(&mut self, pick: u64) -> Result<Event, StepFault>
        requires { runs.is_quiet self.old.plan self.old.state ≡ false }
        ensures stepped { IfOk result (λ event. HasStepped self.old pick event self.new) }
        ensures err { OnErr result (self.new ≡ with_count self.old self.new.keeper.faults) }
        ensures unfailed { OnOk result (self.new.keeper.faults ≡ self.old.keeper.faults) }
        ensures later { self.old.keeper.faults ≤ self.new.keeper.faults }
        ensures cause { IsErrOf result StepFault.KeeperFailed → Rose self.old.keeper.faults self.new.keeper.faults }
    {
        let event = self.next_event(pick);
        self.turn(event)?;
        Ok(event)
    }

    /// The event happens. After an error the world is as before but for the count of the keeper's faults.
    fn turn(&mut self, event: Event) -> Result<(), StepFault>
        requires { is_enabled self.old.plan self.old.state event ≡ true }
        ensures turned { OnOk result (HasTurned self.old event self.new) }
        ensures err { OnErr result (self.new ≡ with_count self.old self.new.keeper.faults) }
        ensures unfailed { OnOk result (self.new.keeper.faults ≡ self.old.keeper.faults) }
        ensures later { self.old.keeper.faults ≤ self.new.keeper.faults }
        ensures cause { IsErrOf result StepFault.KeeperFailed → Rose self.old.keeper.faults self.new.keeper.faults }
    {
        flight_laws::runs_are_sound();
        flight_laws::runs_have_room();
        flight_laws::runs_end();
        flight_laws::runs_are_kept_runs();
        if self.events.reserve(1).is_err() {
            return Err(StepFault::Memory);
        }
        self.parties.happen(event)?;
        self.events.push_reserved(event);
        Ok(())
    }

    /// The event that the pick chooses.
    fn next_event(&self, pick: u64) -> Event
        requires { runs.is_quiet self.now.plan self.now.state ≡ false }
        ensures chosen { result ≡ runs.next_event self.now.plan self.now.state pick }
        ensures few { length self.now.events < 2 ^ 28 }
    {
        flight_laws::runs_are_sound();
        flight_laws::runs_have_room();
        flight_laws::steps_counted();
        self.parties.next_event(pick)
    }

    /// The first event of the party that can happen.
    pub(crate) fn first_event(&self, who: Party) -> Option<Event>
        ensures { result ≡ choosing.first_event self.now.plan self.now.state who }
    {
        flight_laws::runs_are_sound();
        flight_laws::runs_have_room();
        self.parties.first_event(who)
    }

    /// The first event of the party that can happen, where it has one, happens; the controller's is the order where
    /// this is enabled. `None` exactly where it has none; then nothing changes. `KeeperFailed` only where the keeper's
    /// count of faults rose in this call. After an error the world is as before but for that count.
    pub fn step_for(&mut self, who: Party) -> Result<Option<Event>, StepFault>
        ensures turned { IfOk result (λ found. TurnsFor self.old who found self.new) }
        ensures err { OnErr result (self.new ≡ with_count self.old self.new.keeper.faults) }
        ensures unfailed { OnOk result (self.new.keeper.faults ≡ self.old.keeper.faults) }
        ensures later { self.old.keeper.faults ≤ self.new.keeper.faults }
        ensures cause { IsErrOf result StepFault.KeeperFailed → Rose self.old.keeper.faults self.new.keeper.faults }
    {
        match self.first_event(who) {
            None => Ok(None),
            Some(event) => {
                self.turn(event)?;
                Ok(Some(event))
            }
        }
    }

    /// How many events can happen now; an enabled order counts too.
    pub fn enabled_count(&self) -> u32
        ensures { result ≡ runs.enabled_count self.now.plan self.now.state }
    {
        flight_laws::runs_are_sound();
        flight_laws::runs_have_room();
        self.parties.enabled_count()
    }

    /// Whether no event can happen.
    pub fn quiet(&self) -> bool
        ensures { result ≡ runs.is_quiet self.now.plan self.now.state }
    {
        flight_laws::runs_are_sound();
        flight_laws::runs_have_room();
        self.parties.is_quiet()
    }

    /// Whether every operation is answered, every order is done, the switch runs, and no message, want, eviction,
    /// snapshot or recovery is left. This is so exactly where no event can happen.
    pub fn finished(&self) -> bool
        ensures value { result ≡ runs.is_finished self.now.plan self.now.state }
        ensures quiet { result ≡ runs.is_quiet self.now.plan self.now.state }
    {
        flight_laws::runs_end();
        self.parties.is_finished()
    }

    /// Appends what would be kept if the switch lost its memory now: the last completed snapshot by slot, the servers'
    /// records by server and key, and the clients' preserved records. `KeeperFailed` only where the keeper's count of
    /// faults rose in this call. After an error the list is as before. The world is as before but for that count.
    pub fn kept(&mut self, into: &mut Vec<KeptItem>) -> Result<(), StepFault>
        ensures listed { OnOk result (ListsKept (scene_in self.old) into.old.items into.new.items) }
        ensures same { OnErr result (into.new.items ≡ into.old.items) }
        ensures world { self.new ≡ with_count self.old self.new.keeper.faults }
        ensures unfailed { OnOk result (self.new.keeper.faults ≡ self.old.keeper.faults) }
        ensures later { self.old.keeper.faults ≤ self.new.keeper.faults }
        ensures cause { IsErrOf result StepFault.KeeperFailed → Rose self.old.keeper.faults self.new.keeper.faults }
    {
        flight_laws::runs_are_sound();
        flight_laws::runs_are_kept_runs();
        self.parties.kept(into)
    }

    /// The operation that the last step answered, where it answered one.
    pub fn last_answered(&self) -> Option<u32>
        ensures { result ≡ last_answered self.now.state }
    {
        last_answer(&self.parties.log)
    }

    /// What the world is to do.
    pub fn plan(&self) -> &Plan
        ensures { result.now ≡ self.now.plan }
    {
        &self.parties.plan
    }

    /// What happened, as the log keeps it. The world is reached, and where it is finished every operation is answered,
    /// whatever its keeper.
    pub fn log(&self) -> &Log
        ensures steps { result.now.steps ≡ self.now.state.steps }
        ensures lines { result.now.lines ≡ self.now.state.log }
        ensures reached { IsReached self.now }
        ensures answered { runs.is_finished self.now.plan self.now.state ≡ true
            → AllAnswered self.now.plan self.now.state }
    {
        flight_laws::runs_are_logged();
        &self.parties.log
    }

    /// The plan, the events of all steps in their order, the log, the switch and the keeper.
    pub fn into_parts(self) -> (Plan, Vec<Event>, Log, S, K)
        ensures plan { result.0 ≡ self.plan }
        ensures events { result.1.items ≡ self.events }
        ensures steps { result.2.steps ≡ self.state.steps }
        ensures lines { result.2.lines ≡ self.state.log }
        ensures switch { S.seen result.3 ≡ self.state.switch }
        ensures keeper { keeper_of (K.records result.4) (K.server_count result.4) (K.ceiling result.4)
            (K.fault_count result.4) ≡ self.keeper }
        ensures reached { IsReached self }
    {
        let World { parties, events } = self;
        let Parties {
            plan,
            switch,
            running: _,
            clients: _clients,
            senders: _,
            controller: _controller,
            can_tick: _,
            keeper,
            bag: _bag,
            passes: _,
            done: _,
            log,
            turn: _turn,
            alloc: _alloc,
        } = parties;
        (plan, events, log, switch, keeper)
    }
}
