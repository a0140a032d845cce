ghost use Rattle.std.specs.Prelude.{◌≡◌, IfOk};
ghost use Rattle.far_base.specs.Limits.{IsPlan};
ghost use Rattle.far_runner.specs.Ended.{IsEndOf};

use crate::gate::PipeGate;
use far_base::{Memory, Party, Plan};
use far_runner::{Crew, Made, Watch, WorldLock, ended, started, work};
use far_world::World;
use server_keeper::MapKeeper;
use std::alloc::Global;
use std::marker::Model;
use std::sync::Wait;
use switch_staged::StagedSwitch;
use workload::Workload;

/// A pipe: the part of the plan that is run in it, and a world of it under a lock of its own. Contracts see the part.
#[derive(Drop)]
pub(crate) struct Pipe {
    part: Plan,
    lock: WorldLock<StagedSwitch>,
}

impl Model for Pipe {
    ghost use Rattle.far_base.specs.Limits.{IsPlan};
    ghost use Rattle.far_base.specs.PlanView.{PlanView};

    ghost Value = { PlanView };

    ghost view = { λ p. p.part };

    ghost invariant = { λ p. IsPlan p.part };
}

/// A worker of a pipe passes its gate, and is held there while it has the lock.
#[derive(Drop)]
struct Held<'b, G: PipeGate> {
    gate: &'b G,
    pipe: u32,
}

impl<'b, G: PipeGate, R: Wait> Watch<R> for Held<'b, G> {
    fn before(&mut self, _rt: &R, who: Party) {
        self.gate.pass(self.pipe, who);
    }

    fn held(&self) {
        self.gate.held(self.pipe);
    }

    fn after(&mut self, _rt: &R, _made: &Made) {}
}

impl Pipe {
    /// The pipe of the part, in which nothing has happened yet.
    pub(crate) fn new(alloc: Global, part: Plan) -> Result<Pipe, Memory>
        requires { IsPlan part }
        ensures { IfOk result (λ pipe. pipe ≡ part) }
    {
        let switch = StagedSwitch::new(alloc, part.config, 1, 0)?;
        let world = started(alloc, &part, switch)?;
        let crews = [
            Crew::clients(part.config),
            Crew::servers(part.config),
            Crew::switch_and_controller(part.config),
        ];
        Ok(Pipe {
            part,
            lock: WorldLock::new(alloc, world, &crews)?,
        })
    }

    /// The worker of the pipe with this number: 0 is that of the clients, 1 of the servers, 2 of the switch and the
    /// controller.
    pub(crate) fn work<G: PipeGate, R: Wait>(&self, rt: &R, gate: &G, pipe: u32, worker: u32) {
        work(rt, &self.lock, worker, Held { gate, pipe });
    }

    /// Sets the mark, which ends the workers.
    pub(crate) fn end_all<R: Wait>(&self, rt: &R) {
        self.lock.end_all(rt);
    }

    /// The world of the part, run to its end.
    pub(crate) fn ended(
        self,
        alloc: Global,
        load: &Workload,
    ) -> Result<World<StagedSwitch, MapKeeper>, Memory>
        ensures { IfOk result (IsEndOf self) }
    {
        let Pipe { part, lock } = self;
        ended(alloc, load, &part, lock.into_world())
    }
}
