use crate::evicting::Evicting;
use crate::wants::Wants;
use admission::Admission;
use far_base::{Config, Key, Memory};
use recovery::Round;
use snapshot_core::{Job, Snapshot};
use std::alloc::Global;
use std::marker::Model;

/// The controller. Contracts see its config and the state of the definition.
#[derive(Drop)]
pub struct Controller {
    pub(crate) alloc: Global,
    pub(crate) config: Config,
    pub(crate) epoch: u32,
    pub(crate) admission: Admission,
    pub(crate) wants: Wants,
    pub(crate) eviction: Option<Evicting>,
    pub(crate) job: Option<Job>,
    pub(crate) last: Snapshot,
    pub(crate) last_epoch: u32,
    pub(crate) round: Option<Round>,
    pub(crate) next_job: u64,
    pub(crate) next_id: u32,
    pub(crate) next_round: u32,
}

impl Model for Controller {
    ghost use Rattle.far_model.specs.Controller.{ControllerState};
    ghost use Rattle.controller_core.specs.ControllerView.{ControllerView, IsFit};

    ghost Value = { ControllerView };

    ghost use Rattle.controller_core.specs.Inside.{view_of};

    ghost view = { view_of };

    ghost invariant = { λ c. IsFit (view_of c) };
}

ghost use Rattle.std.specs.Prelude.{◌≡◌, ◌+◌, ◌<◌, ◌^◌, ◌++◌, ◌∷◌, [], not, nat_eq, length, true, false, Some, IfOk, OnOk, OnErr};
ghost use Rattle.std.specs.Prelude.{is_some};
ghost use Rattle.far_base.specs.Limits.{IsConfig};
ghost use Rattle.far_model.specs.Controller as model;
ghost use Rattle.controller_core.specs.ControllerView.{at_state};

impl Controller {
    /// A controller of epoch 1 with free slots, which has done nothing.
    pub fn new(alloc: Global, config: Config) -> Result<Self, Memory>
        requires { IsConfig config }
        ensures { IfOk result (λ c. c ≡ record { config = config; state = model.opening_controller config }) }
    {
        Ok(Controller {
            alloc,
            config,
            epoch: 1,
            admission: Admission::new(alloc, config.slots)?,
            wants: Wants::new(alloc),
            eviction: None,
            job: None,
            last: Snapshot::none(alloc),
            last_epoch: 0,
            round: None,
            next_job: 1,
            next_id: 1,
            next_round: 1,
        })
    }

    /// The last completed snapshot.
    pub fn snapshot(&self) -> &Snapshot
        ensures { result.now ≡ self.now.state.last }
    {
        &self.last
    }

    /// Whether a key is wanted.
    pub fn has_want(&self) -> bool
        ensures { result ≡ not (nat_eq (length self.now.state.wants) 0) }
    {
        self.wants.first().is_some()
    }

    /// Whether an eviction is under way.
    pub fn busy_evicting(&self) -> bool
        ensures { result ≡ is_some self.now.state.eviction }
    {
        self.eviction.is_some()
    }

    /// Whether a snapshot is gathered.
    pub fn has_job(&self) -> bool
        ensures { result ≡ is_some self.now.state.job }
    {
        self.job.is_some()
    }

    /// Whether a round of recovery is under way.
    pub fn has_round(&self) -> bool
        ensures { result ≡ is_some self.now.state.round }
    {
        self.round.is_some()
    }

    /// The counter from which on the switch is to number writes, exactly where a round of recovery is ready.
    pub fn ready(&self) -> Option<u64>
        ensures { result ≡ model.ready self.now.state }
    {
        match &self.round {
            Some(round) => round.ready(),
            None => None,
        }
    }

    /// The key is wanted, after those that are wanted already. No round is under way.
    pub fn want(&mut self, key: Key) -> Result<(), Memory>
        requires { is_some self.old.state.round ≡ false }
        ensures ok { OnOk result (self.new ≡ at_state self.old (model.wanted key self.old.state)) }
        ensures err { OnErr result (self.new ≡ self.old) }
    {
        self.wants.push(key)
    }

    /// Ends the round, which is ready. The answer is the new epoch, which is higher by one, and the switch's new
    /// counter.
    pub fn restart(&mut self) -> (u32, u64)
        requires ready { is_some (model.ready self.old.state) ≡ true }
        requires room { self.old.state.epoch + 1 < 2 ^ 32 }
        ensures state { self.new ≡ at_state self.old (model.restarted self.old.state) }
        ensures epoch { result.0 ≡ self.new.state.epoch }
        ensures counter { model.ready self.old.state ≡ Some result.1 }
    {
        let Some(counter) = self.ready() else {
            unreachable!()
        };
        self.epoch += 1;
        self.round = None;
        (self.epoch, counter)
    }
}
