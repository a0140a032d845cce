use far_base::{Config, Party};

/// How many parties there are.
pub fn party_count(config: Config) -> u32 {
    config
        .clients
        .saturating_add(config.servers)
        .saturating_add(2)
}

/// The party at a place of the row of all: the clients come first, then the servers, the controller and the switch.
fn party_at(config: Config, place: u32) -> Party {
    if place < config.clients {
        return Party::Client(place);
    }
    let behind = place - config.clients;
    if behind < config.servers {
        Party::Server(behind)
    } else if behind == config.servers {
        Party::Controller
    } else {
        Party::Switch
    }
}

/// The parties that one worker takes turns for: a stretch of the row of all, in which the clients come first, then the
/// servers, the controller and the switch.
#[derive(Clone, Copy)]
pub struct Crew {
    config: Config,
    first: u32,
    count: u32,
}

impl Crew {
    /// The one party at the place of the row.
    pub fn one(config: Config, place: u32) -> Self {
        Crew {
            config,
            first: place,
            count: 1,
        }
    }

    /// All clients.
    pub fn clients(config: Config) -> Self {
        Crew {
            config,
            first: 0,
            count: config.clients,
        }
    }

    /// All servers.
    pub fn servers(config: Config) -> Self {
        Crew {
            config,
            first: config.clients,
            count: config.servers,
        }
    }

    /// The switch and the controller.
    pub fn switch_and_controller(config: Config) -> Self {
        Crew {
            config,
            first: config.clients.saturating_add(config.servers),
            count: 2,
        }
    }

    /// How many there are.
    pub(crate) fn len(self) -> u32 {
        self.count
    }

    /// The party at the place, counted from 0.
    pub(crate) fn party(self, place: u32) -> Party {
        party_at(self.config, self.first.saturating_add(place))
    }

    /// The place behind this one; behind the last is the first.
    pub(crate) fn after(self, place: u32) -> u32 {
        let next = place.saturating_add(1);
        if next < self.count { next } else { 0 }
    }
}
