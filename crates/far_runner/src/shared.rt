ghost use Rattle.std.specs.Prelude.{◌≡◌, ◌⊎◌, ◌||◌, ◌^◌, ◌<◌, true, false, is_some, None, IfSome, IfNone, drop};
ghost use Rattle.far_history.specs.Summary as summary;
ghost use Rattle.far_model.specs.Choosing.{first_event};
ghost use Rattle.far_model.specs.Runs as runs;
ghost use Rattle.far_world.specs.LastAnswer.{last_answered};
ghost use Rattle.far_world.specs.Reached.{IsReached, with_count};
ghost use Rattle.far_world.specs.Scene.{Tells};
ghost use Rattle.far_runner.specs.Turns.{IsTurn};

use far_base::{LogEntry, Party};
use far_history::Log;
use far_world::World;
use server_keeper::MapKeeper;
use std::marker::Model;
use switch_core::Switch;

/// What a turn has left: whose it was, the operation that it answered, and how many steps were made and operations
/// answered by then.
#[derive(Clone, Copy)]
pub struct Made {
    pub who: Party,
    pub answered: Option<u32>,
    pub steps: u64,
    pub answers: u32,
}

/// Whether an operation is answered by it.
fn is_answer(entry: &LogEntry) -> bool
    ensures { result ≡ summary.is_answer entry.now }
{
    match entry {
        LogEntry::Answered { .. } => true,
        _ => false,
    }
}

/// How many of the lines from the place on tell of an answer.
fn answers_from(log: &Log, place: usize) -> u32
    requires { summary.count_of summary.is_answer log.now.lines < 2 ^ 32 }
    ensures { result ≡ summary.count_of summary.is_answer (drop place log.now.lines) }
{
    let mut count: u32 = 0;
    for at in place..log.len() {
        if is_answer(&log.line(at).entry) {
            count += 1;
        }
    }
    count
}

/// There are fewer answers in the log of a world than a word counts.
fn note_few<S: Switch + Drop>(world: &World<S, MapKeeper>)
    ensures reached { IsReached world.now }
    ensures few { summary.count_of summary.is_answer world.now.state.log < 2 ^ 32 }
{
    flight_laws::steps_counted();
    flight_laws::runs_have_room();
    let _log = world.log();
}

/// What lies under the lock: the world, how many operations are answered in it, and the mark that ends the workers.
/// Contracts see the world and the mark; so whenever the lock is free the world is reached.
#[derive(Drop)]
pub(crate) struct Shared<S: Switch + Drop> {
    world: World<S, MapKeeper>,
    answers: u32,
    ends: bool,
}

impl<S: Switch + Drop> Model for Shared<S> {
    ghost use Rattle.std.specs.Prelude.{◌≡◌};
    ghost use Rattle.far_history.specs.Summary.{count_of, is_answer};
    ghost use Rattle.far_world.specs.Scene.{Tells};
    ghost use Rattle.far_runner.specs.SharedView.{SharedView};

    ghost Value = { SharedView };

    ghost view = { λ s. record { world = s.world; ends = s.ends } };

    ghost invariant = { λ s. Tells s.world.keeper.records × (s.answers ≡ count_of is_answer s.world.state.log) };
}

impl<S: Switch + Drop> Shared<S> {
    /// The world, and no mark.
    pub(crate) fn new(world: World<S, MapKeeper>) -> Self
        requires { Tells world.keeper.records }
        ensures { result ≡ record { world = world; ends = false } }
    {
        note_few(&world);
        let answers = answers_from(world.log(), 0);
        Shared {
            world,
            answers,
            ends: false,
        }
    }

    /// The world.
    pub(crate) fn into_world(self) -> World<S, MapKeeper>
        ensures world { result ≡ self.world }
        ensures tells { Tells result.keeper.records }
    {
        self.world
    }

    /// Sets the mark.
    pub(crate) fn end(&mut self)
        ensures { self.new ≡ record self.old { ends = true } }
    {
        self.ends = true;
    }

    /// Whether the workers are to end: the mark is set, or the world is finished.
    pub(crate) fn is_over(&self) -> bool
        ensures { result ≡ (self.now.ends || runs.is_finished self.now.world.plan self.now.world.state) }
    {
        self.ends || self.world.finished()
    }

    /// Whether the party has an event.
    pub(crate) fn has_event(&self, who: Party) -> bool
        ensures { result ≡ is_some (first_event self.now.world.plan self.now.world.state who) }
    {
        self.world.has_event(who)
    }

    /// The first event of the party happens, where it has one and the mark is not set. Where memory is refused nothing
    /// happens and the mark is set.
    pub(crate) fn turn(&mut self, who: Party) -> Option<Made>
        ensures turned { IfSome result (λ made. IsTurn self.old.world made self.new.world) }
        ensures who { IfSome result (λ made. made.who ≡ who) }
        ensures goes_on { IfSome result (λ made. (self.old.ends ≡ false) × (self.new.ends ≡ false)) }
        ensures none { IfNone result ((self.new.ends ≡ true)
            ⊎ (first_event self.old.world.plan self.old.world.state who ≡ None)) }
        ensures same { IfNone result (self.new.world
            ≡ with_count self.old.world self.new.world.keeper.faults) }
        ensures mark { first_event self.old.world.plan self.old.world.state who ≡ None
            → self.new.ends ≡ self.old.ends }
    {
        if self.ends || !self.world.has_event(who) {
            return None;
        }
        flight_laws::runs_are_sound();
        flight_laws::runs_are_kept_runs();
        let lines = self.world.log().len();
        match self.world.step_for(who) {
            Ok(None) => None,
            Ok(Some(_)) => {
                note_few(&self.world);
                self.answers += answers_from(self.world.log(), lines);
                Some(Made {
                    who,
                    answered: self.world.last_answered(),
                    steps: self.world.log().steps(),
                    answers: self.answers,
                })
            }
            Err(_) => {
                self.ends = true;
                None
            }
        }
    }
}
