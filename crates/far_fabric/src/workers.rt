ghost use Rattle.std.specs.Prelude.{◌≡◌};

use crate::view::Figures;
use crate::watch::{Publisher, Viewer};
use far_base::{Config, Party};
use far_outside::Gate;
use far_runner::{Made, Watch, WorldLock, party_count, work};
use std::sync::Wait;
use std::thread;
use std::thread::Threads;
use switch_core::Switch;

/// The worker of a client, a server or the controller reads the board before it passes the gate.
#[derive(Drop)]
struct Reader<'b, G: Gate> {
    gate: &'b G,
    viewer: Viewer<'b>,
}

impl<'b, G: Gate, R: Wait> Watch<R> for Reader<'b, G> {
    fn before(&mut self, rt: &R, who: Party) {
        let seen = self.viewer.read(rt);
        self.gate.pass(who, seen.steps);
    }

    fn held(&self) {}

    fn after(&mut self, _rt: &R, made: &Made) {
        self.gate.after(made.who, made.answered);
    }
}

/// The worker of the switch alone publishes: after each of its turns and before the next one.
#[derive(Drop)]
struct Writer<'b, G: Gate> {
    gate: &'b G,
    publisher: Publisher<'b>,
}

impl<'b, G: Gate, R: Wait> Watch<R> for Writer<'b, G> {
    fn before(&mut self, rt: &R, who: Party) {
        let seen = self.publisher.read(rt);
        self.gate.pass(who, seen.steps);
    }

    fn held(&self) {}

    fn after(&mut self, rt: &R, made: &Made) {
        self.publisher.publish(rt, figures_of(made));
        self.gate.after(made.who, made.answered);
    }
}

/// How far the run is after a turn.
fn figures_of(made: &Made) -> Figures
    ensures { result ≡ record { steps = made.now.steps; answered = made.now.answers } }
{
    Figures {
        steps: made.steps,
        answered: made.answers,
    }
}

/// Runs a worker for each party in a thread of its own until all have ended. Where one cannot be started, the mark is
/// set.
pub(crate) fn run_workers<'x, S: Switch + Send + Drop, G: Gate + Sync, R: Threads + Wait + Sync>(
    rt: &'x R,
    gate: &'x G,
    lock: &'x WorldLock<S>,
    publisher: Publisher<'x>,
    config: Config,
) {
    thread::scope(thread::scope_env(), rt, |scope| {
        let mut publisher = publisher;
        // The switch is the last of all parties.
        let switch = party_count(config).saturating_sub(1);
        for place in 0..switch {
            let viewer = publisher.viewer(rt);
            if scope
                .spawn(move || work(rt, lock, place, Reader { gate, viewer }))
                .is_err()
            {
                lock.end_all(rt);
                break;
            }
        }
        if scope
            .spawn(move || work(rt, lock, switch, Writer { gate, publisher }))
            .is_err()
        {
            lock.end_all(rt);
        }
    });
}
