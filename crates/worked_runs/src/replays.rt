use crate::worlds::begun;
use far_base::{Config, Event, Party};
use far_history::report_text;
use far_world::World;
use server_keeper::MapKeeper;
use std::alloc::Global;
use std::test::Fail;
use switch_core::PlainSwitch;

type MapWorld = World<PlainSwitch, MapKeeper>;

/// The world of a workload, in which nothing has happened.
fn opened(alloc: Global, input: &str) -> Result<MapWorld, Fail> {
    let (world, _refused) = begun(alloc, input.as_bytes(), MapKeeper::new(alloc))?;
    Ok(world)
}

/// The world after these turns.
fn made(alloc: Global, input: &str, turns: &[Party]) -> Result<MapWorld, Fail> {
    let mut world = opened(alloc, input)?;
    for who in turns {
        let _event = world.step_for(*who).map_err(|_| "no step")?;
    }
    Ok(world)
}

/// Those that may take a turn. The switch comes first, since most messages go to it.
fn parties_of(alloc: Global, config: Config) -> Result<Vec<Party>, Fail> {
    let mut parties = Vec::new(alloc);
    parties.extend_from_slice(&[Party::Switch, Party::Controller])?;
    for server in 0..config.servers {
        parties.extend_from_slice(&[Party::Server(server)])?;
    }
    for client in 0..config.clients {
        parties.extend_from_slice(&[Party::Client(client)])?;
    }
    Ok(parties)
}

/// A run that is made again by its events. Events of a run in threads do not say to whom a message went, so turns are
/// tried: a party that makes another event shows a message of its own, and the run is made again up to there.
#[derive(Drop)]
struct Replay<'a> {
    alloc: Global,
    input: &'a str,
    world: MapWorld,
    parties: Vec<Party>,
    turns: Vec<Party>,
    /// The addressees of the messages on their way, as far as they are known.
    known: Vec<Option<Party>>,
}

impl<'a> Replay<'a> {
    fn new(alloc: Global, input: &'a str) -> Result<Self, Fail> {
        let world = opened(alloc, input)?;
        let parties = parties_of(alloc, world.plan().config)?;
        Ok(Replay {
            alloc,
            input,
            world,
            parties,
            turns: Vec::new(alloc),
            known: Vec::new(alloc),
        })
    }

    /// The message at this place goes to this party.
    fn learn(&mut self, place: usize, who: Party) -> Result<(), Fail> {
        for _ in self.known.len()..=place {
            self.known.push(None)?;
        }
        if let Some(known) = self.known.get_mut(place) {
            *known = Some(who);
        }
        Ok(())
    }

    /// Whether the party takes the turn in which the event that is due happens. If not, the world is as before.
    fn takes(&mut self, who: Party, due: Event) -> Result<bool, Fail> {
        let found = self.world.step_for(who).map_err(|_| "no step")?;
        let Some(event) = found else {
            return Ok(false);
        };
        if event == due {
            self.turns.push(who)?;
            return Ok(true);
        }
        if let Event::Deliver(place) = event {
            self.learn(place as usize, who)?;
        }
        self.world = made(self.alloc, self.input, &self.turns)?;
        Ok(false)
    }

    /// Finds who takes the turn in which the message at this place is delivered.
    fn deliver(&mut self, place: u32) -> Result<bool, Fail> {
        let due = Event::Deliver(place);
        if let Some(Some(who)) = self.known.get(place as usize).copied() {
            return self.takes(who, due);
        }
        for at in 0..self.parties.len() {
            let Some(who) = self.parties.get(at).copied() else {
                break;
            };
            // A party takes its oldest message first, so one with a known message has no older one.
            if !self.known.contains(&Some(who)) && self.takes(who, due)? {
                return Ok(true);
            }
        }
        Ok(false)
    }

    /// Makes the event happen. `false` where no party makes it.
    fn follow(&mut self, event: Event) -> Result<bool, Fail> {
        match event {
            Event::Send(client) => self.takes(Party::Client(client), event),
            Event::Deliver(place) => {
                let done = self.deliver(place)?;
                if (place as usize) < self.known.len() {
                    let _ = self.known.remove(place as usize);
                }
                Ok(done)
            }
            Event::Tick | Event::Recover | Event::Restart | Event::Order(_) => {
                self.takes(Party::Controller, event)
            }
        }
    }
}

/// The report of the workload's run by the events, which is finished. `None` where the events are no such run.
pub(crate) fn report_by(
    alloc: Global,
    input: &str,
    events: &[Event],
) -> Result<Option<Vec<u8>>, Fail> {
    let mut replay = Replay::new(alloc, input)?;
    for event in events {
        if !replay.follow(*event)? {
            return Ok(None);
        }
    }
    if !replay.world.finished() {
        return Ok(None);
    }
    let report = report_text(alloc, replay.world.log()).map_err(|_| "no report")?;
    Ok(Some(report))
}
