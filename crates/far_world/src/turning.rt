ghost use Rattle.std.specs.Prelude.{◌≡◌, ◌^◌, ◌<◌, if◌then◌else◌, length, None, is_some};
ghost use Rattle.far_base.specs.declared.event.Event.TheVariants.{Send, Recover, Restart, Tick};
ghost use Rattle.far_base.specs.declared.party.Party.TheVariants.{Client, Controller};
ghost use Rattle.far_model.specs.Choosing as choosing;
ghost use Rattle.far_model.specs.Controller as model;
ghost use Rattle.far_model.specs.Events as events;
ghost use Rattle.far_model.specs.State.{client_at};
ghost use Rattle.far_world.specs.Firsts.{delivery_to, first_choice_of, or_else, some_if};

use crate::parties::Parties;
use far_base::{Event, Party};
use far_outside::Keeper;
use switch_core::Switch;

/// The event where the test holds.
fn some_if(test: bool, event: Event) -> Option<Event>
    ensures { result ≡ some_if test event }
{
    if test { Some(event) } else { None }
}

/// Whether it is the controller.
fn is_controller(who: Party) -> bool
    ensures { result ≡ choosing.same_party Controller who }
{
    match who {
        Party::Controller => true,
        _ => false,
    }
}

impl<S: Switch + Drop, K: Keeper + Drop> Parties<S, K> {
    /// The delivery of the oldest message to the party.
    fn delivery_to(&self, who: Party) -> Option<Event>
        ensures { result ≡ delivery_to self.now.state who }
    {
        self.bag.oldest_to(who).map(Event::Deliver)
    }

    /// Whether there is such a client, and it can send.
    fn can_send(&self, client: u32) -> bool
        ensures { result ≡ events.can_send (client_at self.now.state client) }
    {
        match self.clients.get(client as usize) {
            Some(seat) => seat.can_send(),
            None => false,
        }
    }

    /// What the client can do first: to send, and else to take a message.
    fn first_of_client(&self, client: u32) -> Option<Event>
        ensures { result ≡ first_choice_of self.now.state (Client client) }
    {
        if self.can_send(client) {
            return Some(Event::Send(client));
        }
        self.delivery_to(Party::Client(client))
    }

    /// What the controller can do first: to take a message, a tick, a recovery, a restart.
    fn first_of_controller(&self) -> Option<Event>
        ensures { result ≡ first_choice_of self.now.state Controller }
    {
        let delivery = self.delivery_to(Party::Controller);
        if delivery.is_some() {
            return delivery;
        }
        if self.can_tick {
            return Some(Event::Tick);
        }
        if self.can_recover() {
            return Some(Event::Recover);
        }
        some_if(self.controller.ready().is_some(), Event::Restart)
    }

    /// The first choice of the party. No message is looked at where none is counted for the party, and else those up to
    /// the first that goes to it.
    #[tactic(auto, using(crate::proofs::Firsts::first_is))]
    fn first_choice(&self, who: Party) -> Option<Event>
        ensures { result ≡ choosing.first_of (choosing.choices_of self.now.state who) }
    {
        match who {
            Party::Client(client) => self.first_of_client(client),
            Party::Switch => {
                if self.running {
                    self.delivery_to(who)
                } else {
                    None
                }
            }
            Party::Server(_) => self.delivery_to(who),
            Party::Controller => self.first_of_controller(),
        }
    }

    /// The first event of the party that can happen.
    pub(crate) fn first_event(&self, who: Party) -> Option<Event>
        requires clients { length self.now.state.clients < 2 ^ 16 }
        requires few { length self.now.state.bag < 2 ^ 28 }
        ensures { result ≡ choosing.first_event self.now.plan self.now.state who }
    {
        if is_controller(who) && self.is_order_enabled() {
            return Some(Event::Order(self.done));
        }
        self.first_choice(who)
    }
}
