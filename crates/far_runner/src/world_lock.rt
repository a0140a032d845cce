ghost use Rattle.std.specs.Prelude.{◌≡◌, IfOk, IfSome, IfNone};
ghost use Rattle.far_world.specs.Reached.{with_count};
ghost use Rattle.far_world.specs.Scene.{Tells};
ghost use Rattle.far_runner.specs.Turns.{IsTurn};

use crate::crew::Crew;
use crate::shared::{Made, Shared};
use far_base::{Memory, Party};
use far_world::World;
use server_keeper::MapKeeper;
use std::alloc::Global;
use std::sync::{Condvar, Mutex, Wait};
use switch_core::Switch;

/// What a worker does round its turns. It may hold the worker up; it changes nothing else of a run.
pub trait Watch<R: Wait> {
    /// Is called before each turn, outside of the lock, with the party whose turn it is first.
    fn before(&mut self, rt: &R, who: Party);

    /// Is called in each turn while the lock is held.
    fn held(&self);

    /// Is called after each turn, outside of the lock, with what the turn has left.
    fn after(&mut self, rt: &R, made: &Made);
}

/// What lies under the lock: the world with its mark, and which workers wait for an event.
#[derive(Drop)]
struct Table<S: Switch + Drop> {
    shared: Shared<S>,
    waits: Vec<bool>,
}

/// A worker's parties, and what wakes the worker.
#[derive(Drop)]
struct Seat {
    crew: Crew,
    waker: Condvar,
}

/// A world under a lock, and the seats of its workers. A worker is woken where one of its parties has an event, or
/// where all workers are to end.
#[derive(Drop)]
pub struct WorldLock<S: Switch + Drop> {
    table: Mutex<Table<S>>,
    seats: Vec<Seat>,
}

/// The first event of a party of the crew happens; the party at the place is asked first. `None` where no party of it
/// has an event, or where the workers are to end.
fn turn_of<S: Switch + Drop>(shared: &mut Shared<S>, crew: Crew, place: u32) -> Option<Made>
    ensures turned { IfSome result (λ made. IsTurn shared.old.world made shared.new.world) }
    ensures none { IfNone result (shared.new.world ≡ with_count shared.old.world shared.new.world.keeper.faults) }
{
    let mut at = place;
    for tried in 0..crew.len() {
        if let Some(made) = shared.turn(crew.party(at)) {
            return Some(made);
        }
        at = crew.after(at);
    }
    None
}

/// Whether a party of the crew has an event.
fn has_event<S: Switch + Drop>(shared: &Shared<S>, crew: Crew) -> bool {
    for place in 0..crew.len() {
        if shared.has_event(crew.party(place)) {
            return true;
        }
    }
    false
}

impl<S: Switch + Drop> Table<S> {
    /// Notes whether the worker waits.
    fn set_waiting(&mut self, worker: usize, waits: bool) {
        if worker < self.waits.len() {
            self.waits[worker] = waits;
        }
    }

    /// Whether the worker waits, and a party of its crew has an event.
    fn is_due(&self, worker: usize, crew: Crew) -> bool {
        worker < self.waits.len() && self.waits[worker] && has_event(&self.shared, crew)
    }
}

impl<S: Switch + Drop> WorldLock<S> {
    /// The world under a lock of its own, with a worker for each of the crews.
    pub fn new(alloc: Global, world: World<S, MapKeeper>, crews: &[Crew]) -> Result<Self, Memory>
        requires { Tells world.keeper.records }
    {
        let mut seats = Vec::new(alloc);
        let mut waits = Vec::new(alloc);
        for crew in crews {
            seats.reserve(1)?;
            seats.push_reserved(Seat {
                crew: *crew,
                waker: Condvar::new(),
            });
            waits.reserve(1)?;
            waits.push_reserved(false);
        }
        Ok(WorldLock {
            table: Mutex::new(Table {
                shared: Shared::new(world),
                waits,
            }),
            seats,
        })
    }

    /// The world, as it is after the turns that were taken.
    pub fn into_world(self) -> World<S, MapKeeper>
        ensures { Tells result.keeper.records }
    {
        let WorldLock {
            table,
            seats: _seats,
        } = self;
        let Table {
            shared,
            waits: _waits,
        } = table.into_inner();
        shared.into_world()
    }

    /// Sets the mark, which ends the workers.
    pub fn end_all<R: Wait>(&self, rt: &R) {
        self.table.lock(rt).shared.end();
        self.wake_all();
    }

    fn wake_all(&self) {
        for seat in &self.seats {
            seat.waker.notify_all();
        }
    }

    /// Wakes the workers that wait and have an event.
    fn wake_due(&self, table: &mut Table<S>) {
        for worker in 0..self.seats.len() {
            let seat = &self.seats[worker];
            if table.is_due(worker, seat.crew) {
                table.set_waiting(worker, false);
                seat.waker.notify_all();
            }
        }
    }

    /// One turn of the worker under the lock, as soon as one of its parties has an event. `None` where the workers are
    /// to end.
    fn take_turn<W: Watch<R>, R: Wait>(
        &self,
        rt: &R,
        worker: usize,
        seat: &Seat,
        place: u32,
        watch: &W,
    ) -> Option<Made> {
        let mut table = self.table.lock(rt);
        watch.held();
        for _ in rt.forever() {
            if let Some(made) = turn_of(&mut table.shared, seat.crew, place) {
                self.wake_due(&mut *table);
                return Some(made);
            }
            if table.shared.is_over() {
                break;
            }
            table.set_waiting(worker, true);
            table = seat.waker.wait(rt, table);
            table.set_waiting(worker, false);
        }
        self.wake_all();
        None
    }
}

/// The worker with this number, counted from 0: it takes turns for the parties of its crew until all workers are to
/// end. Each turn asks another party first. Where there is no such worker it ends at once.
pub fn work<S: Switch + Drop, W: Watch<R> + Drop, R: Wait>(
    rt: &R,
    lock: &WorldLock<S>,
    worker: u32,
    watch: W,
) {
    let mut watch = watch;
    let worker = worker as usize;
    let Some(seat) = lock.seats.get(worker) else {
        return;
    };
    let mut place = 0;
    for _ in rt.forever() {
        watch.before(rt, seat.crew.party(place));
        match lock.take_turn(rt, worker, seat, place, &watch) {
            Some(made) => watch.after(rt, &made),
            None => break,
        }
        place = seat.crew.after(place);
    }
}
