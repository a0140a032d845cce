ghost use Rattle.std.specs.Prelude.{◌≡◌, ◌+◌, ◌<◌, ◌≤◌, ◌^◌, ◌++◌, length, false, true, Some, is_some, slice_get, not};
ghost use Rattle.std.specs.Prelude.{slice_index_or, take, nat_eq, ◌&&◌, if◌then◌else◌};
ghost use Rattle.std.specs.List.{count_by, list_all};
ghost use Rattle.far_base.specs.Limits.{IsPlan, due_number};
ghost use Rattle.far_base.specs.declared.event.Event.{Event};
ghost use Rattle.far_base.specs.declared.plan.TheConstants.{CLIENT_LIMIT};
ghost use Rattle.far_model.specs.Controller as model;
ghost use Rattle.far_model.specs.Events as events;
ghost use Rattle.far_model.specs.Members.{is_empty};
ghost use Rattle.far_model.specs.Passes as counts;
ghost use Rattle.far_model.specs.Runs as runs;
ghost use Rattle.far_world.specs.Choices.{controller_choices, is_idle, nothing_sent, seat_can_send, seat_is_done};
ghost use Rattle.far_world.specs.Seats.{clients_of};

use crate::bag::Bag;
use crate::parties::Parties;
use crate::seat::Seat;
use far_base::{Event, Order, Party, PassKind};
use far_outside::Keeper;
use switch_core::Switch;

/// What can happen but orders: how many clients can send, how many messages can be delivered, and which events of the
/// controller.
#[derive(Clone, Copy)]
pub(crate) struct Choices {
    senders: u32,
    deliverable: u32,
    tick: bool,
    recover: bool,
    restart: bool,
}

/// 1 where the test holds, and else 0.
pub(crate) fn one_if(test: bool) -> u32
    ensures value { result ≡ if test then 1 else 0 }
    ensures bound { result ≤ 1 }
{
    if test { 1 } else { 0 }
}

/// How many clients can send.
pub(crate) fn count_senders(seats: &[Seat]) -> u32
    requires { length seats.now < 2 ^ 16 }
    ensures count { result ≡ count_by seat_can_send seats.now }
    ensures bound { result ≤ length seats.now }
{
    let mut count = 0;
    for seat in seats {
        count += one_if(seat.can_send());
    }
    count
}

/// The client at this place among those that can send, counted from 0.
fn sender_at(seats: &[Seat], place: u32) -> u32
    requires few { length seats.now < 2 ^ 16 }
    requires there { place < count_by seat_can_send seats.now }
    ensures { slice_get (events.send_choices 0 (clients_of seats.now)) place ≡ Some (Event.Send result) }
{
    let mut left = place;
    for i in 0..seats.len() {
        let seat = &seats[i];
        if seat.can_send() {
            if left == 0 {
                return i as u32;
            }
            left -= 1;
        }
    }
    unreachable!()
}

/// Whether the message at the place can be delivered.
fn can_deliver(bag: &Bag, running: bool, place: u32) -> bool
    requires { place < length bag.now.messages }
    ensures { result ≡ events.can_deliver running (slice_index_or bag.now.messages place nothing_sent) }
{
    running || bag.addressee(place) != Party::Switch
}

/// How many of the first messages can be delivered, up to the place, where the switch does not run: those to others.
fn count_before(bag: &Bag, place: u32) -> u32
    requires { place ≤ length bag.now.messages }
    ensures count { result ≡ count_by (events.can_deliver false) (take place bag.now.messages) }
    ensures bound { result ≤ place }
{
    let mut count = 0;
    for at in 0..place {
        count += one_if(can_deliver(bag, false, at));
    }
    count
}

/// Whether a message goes to another than the switch.
fn passes_some(bag: &Bag) -> bool
    ensures { result ≡ true → 0 < count_by (events.can_deliver false) bag.now.messages }
{
    for at in 0..bag.len() {
        if can_deliver(bag, false, at) {
            return true;
        }
    }
    false
}

/// How many messages can be delivered: all to a running switch, and those to others.
fn count_deliverable(bag: &Bag, running: bool) -> u32
    ensures count { result ≡ count_by (events.can_deliver running) bag.now.messages }
    ensures bound { result ≤ length bag.now.messages }
{
    if running {
        return bag.len();
    }
    count_before(bag, bag.len())
}

/// The place in the bag of the message at this place among those to others than the switch, counted from 0. It has at
/// least so many messages before it.
fn passing_at(bag: &Bag, place: u32) -> u32
    requires { place < count_by (events.can_deliver false) bag.now.messages }
    ensures { slice_get (events.deliver_choices false 0 bag.now.messages) place ≡ Some (Event.Deliver result) }
{
    let mut left = place - count_before(bag, place);
    for at in place..bag.len() {
        if can_deliver(bag, false, at) {
            if left == 0 {
                return at;
            }
            left -= 1;
        }
    }
    unreachable!()
}

/// The place in the bag of the message at this place among those that can be delivered, counted from 0.
fn deliverable_at(bag: &Bag, running: bool, place: u32) -> u32
    requires { place < count_by (events.can_deliver running) bag.now.messages }
    ensures { slice_get (events.deliver_choices running 0 bag.now.messages) place ≡ Some (Event.Deliver result) }
{
    if running {
        return place;
    }
    passing_at(bag, place)
}

/// The event of the controller at this place among those that can happen: a tick, a recovery, a restart.
fn controller_event(tick: bool, recover: bool, restart: bool, place: u32) -> Event
    ensures { result ≡ slice_index_or (controller_choices tick recover restart) place Event.Tick }
{
    if tick && place == 0 {
        return Event::Tick;
    }
    let place = if tick { place - 1 } else { place };
    if recover && place == 0 {
        return Event::Recover;
    }
    let place = if recover {
        place.saturating_sub(1)
    } else {
        place
    };
    if restart && place == 0 {
        return Event::Restart;
    }
    Event::Tick
}

/// How many they are.
pub(crate) fn count_of(choices: &Choices) -> u32
    requires senders { choices.now.senders < 2 ^ 16 }
    requires deliverable { choices.now.deliverable < 2 ^ 28 }
    ensures count { result ≡ choices.now.senders + choices.now.deliverable + (if choices.now.tick then 1 else 0)
        + (if choices.now.recover then 1 else 0) + (if choices.now.restart then 1 else 0) }
    ensures bound { result < 2 ^ 29 }
{
    choices.senders
        + choices.deliverable
        + one_if(choices.tick)
        + one_if(choices.recover)
        + one_if(choices.restart)
}

/// Whether each operation of each client is answered.
fn are_done(seats: &[Seat]) -> bool
    ensures { result ≡ list_all seat_is_done seats.now }
{
    seats.iter().all(|seat| seat.is_done())
}

fn all_hold(clients: bool, orders: bool, running: bool, messages: bool, controller: bool) -> bool
    ensures { result ≡ (clients && (orders && (running && (messages && controller)))) }
{
    clients && orders && running && messages && controller
}

/// The place of a kind among the counts of packets that came to the switch.
fn place_of(kind: PassKind) -> usize
    ensures value { result ≡ counts.pass_place kind }
    ensures bound { result < 9 }
{
    match kind {
        PassKind::GetReq => 0,
        PassKind::WriteReq => 1,
        PassKind::GetRep => 2,
        PassKind::WriteRep => 3,
        PassKind::Admit => 4,
        PassKind::Peek => 5,
        PassKind::Remove => 6,
        PassKind::SnapStart => 7,
        PassKind::SnapRead => 8,
    }
}

/// The number from which an order is due: of the step, or of the packets of its kind.
fn due_number_of(order: &Order) -> u64
    ensures { result ≡ due_number order.now }
{
    match *order {
        Order::Admit { step, .. } => step,
        Order::Evict { step, .. } => step,
        Order::Snap { step } => step,
        Order::Stop { step } => step,
        Order::StopAt { times, .. } => times,
    }
}

impl<S: Switch + Drop, K: Keeper + Drop> Parties<S, K> {
    /// Whether a recovery can begin.
    pub(crate) fn can_recover(&self) -> bool
        ensures { result ≡ events.can_recover self.now.state }
    {
        !self.running && !self.controller.has_round() && self.bag.none_from_switch()
    }

    /// What can happen but orders.
    pub(crate) fn choices(&self) -> Choices
        requires clients { length self.now.state.clients < 2 ^ 16 }
        requires few { length self.now.state.bag < 2 ^ 28 }
        ensures senders { result.senders ≡ count_by events.can_send self.now.state.clients }
        ensures most_senders { result.senders < 2 ^ 16 }
        ensures deliverable { result.deliverable ≡ count_by (events.can_deliver self.now.state.running)
            self.now.state.bag }
        ensures most_deliverable { result.deliverable < 2 ^ 28 }
        ensures tick { result.tick ≡ is_some (model.tick self.now.state.controller) }
        ensures recover { result.recover ≡ events.can_recover self.now.state }
        ensures restart { result.restart ≡ is_some (model.ready self.now.state.controller) }
        ensures all { length (events.choices self.now.state) ≡ result.senders + result.deliverable
            + (if result.tick then 1 else 0) + (if result.recover then 1 else 0) + (if result.restart then 1 else 0) }
    {
        Choices {
            senders: self.senders,
            deliverable: count_deliverable(&self.bag, self.running),
            tick: self.can_tick,
            recover: self.can_recover(),
            restart: self.controller.ready().is_some(),
        }
    }

    /// How many events other than orders can happen.
    fn count_choices(&self) -> u32
        requires clients { length self.now.state.clients < 2 ^ 16 }
        requires few { length self.now.state.bag < 2 ^ 28 }
        ensures count { result ≡ length (events.choices self.now.state) }
        ensures bound { result < 2 ^ 29 }
    {
        count_of(&self.choices())
    }

    /// Whether a message can surely be delivered. Most messages go to others than a switch that does not run, so that
    /// one is found soon.
    fn has_delivery(&self) -> bool
        ensures { result ≡ true → 0 < count_by (events.can_deliver self.now.state.running) self.now.state.bag }
    {
        if self.running {
            !self.bag.is_empty()
        } else {
            passes_some(&self.bag)
        }
    }

    /// Whether an event other than an order can happen.
    fn has_choice(&self) -> bool
        requires clients { length self.now.state.clients < 2 ^ 16 }
        requires few { length self.now.state.bag < 2 ^ 28 }
        ensures { result ≡ not (is_empty (events.choices self.now.state)) }
    {
        if self.has_delivery() {
            return true;
        }
        self.count_choices() != 0
    }

    /// The event at this place among these, which can happen, counted from 0.
    pub(crate) fn event_among(&self, choices: &Choices, place: u32) -> Event
        requires senders { choices.now.senders ≡ count_by events.can_send self.now.state.clients }
        requires most { choices.now.senders < 2 ^ 16 }
        requires deliverable { choices.now.deliverable ≡ count_by (events.can_deliver self.now.state.running)
            self.now.state.bag }
        requires tick { choices.now.tick ≡ is_some (model.tick self.now.state.controller) }
        requires recover { choices.now.recover ≡ events.can_recover self.now.state }
        requires restart { choices.now.restart ≡ is_some (model.ready self.now.state.controller) }
        requires clients { length self.now.state.clients < 2 ^ 16 }
        ensures { result ≡ slice_index_or (events.choices self.now.state) place Event.Tick }
    {
        if place < choices.senders {
            return Event::Send(sender_at(&self.clients, place));
        }
        let place = place - choices.senders;
        if place < choices.deliverable {
            return Event::Deliver(deliverable_at(&self.bag, self.running, place));
        }
        let place = place - choices.deliverable;
        controller_event(choices.tick, choices.recover, choices.restart, place)
    }

    /// Whether an order can happen, apart from its number.
    fn is_possible(&self, order: &Order) -> bool
        ensures { result ≡ events.is_possible self.now.state order.now }
    {
        match order {
            Order::Admit { .. } => !self.controller.has_round(),
            Order::Evict { .. } => {
                self.running && !self.controller.busy_evicting() && !self.controller.has_round()
            }
            Order::Snap { .. } => {
                self.running && !self.controller.has_job() && !self.controller.has_round()
            }
            Order::Stop { .. } | Order::StopAt { .. } => self.running,
        }
    }

    /// How far it has come with what an order waits for.
    fn counted_for(&self, order: &Order) -> u64
        ensures { result ≡ events.counted_for self.now.state order.now }
    {
        match *order {
            Order::StopAt { kind, .. } => self.passes[place_of(kind)],
            _ => self.log.steps(),
        }
    }

    /// Whether the first order that is not done can happen now.
    pub(crate) fn is_order_enabled(&self) -> bool
        requires clients { length self.now.state.clients < 2 ^ 16 }
        requires few { length self.now.state.bag < 2 ^ 28 }
        ensures { result ≡ events.is_order_enabled self.now.plan self.now.state }
    {
        let Some(order) = self.plan.orders.get(self.done as usize) else {
            return false;
        };
        self.is_possible(order)
            && (due_number_of(order) <= self.counted_for(order) || !self.has_choice())
    }

    /// Whether no event can happen.
    pub(crate) fn is_quiet(&self) -> bool
        requires clients { length self.now.state.clients < 2 ^ 16 }
        requires few { length self.now.state.bag < 2 ^ 28 }
        ensures { result ≡ runs.is_quiet self.now.plan self.now.state }
    {
        !self.has_choice() && !self.is_order_enabled()
    }

    /// How many events can happen; an enabled order counts too.
    pub(crate) fn enabled_count(&self) -> u32
        requires clients { length self.now.state.clients < 2 ^ 16 }
        requires few { length self.now.state.bag < 2 ^ 28 }
        ensures { result ≡ runs.enabled_count self.now.plan self.now.state }
    {
        self.count_choices() + one_if(self.is_order_enabled())
    }

    /// The event that happens next: the enabled order, and else what the pick chooses.
    pub(crate) fn next_event(&self, pick: u64) -> Event
        requires clients { length self.now.state.clients < 2 ^ 16 }
        requires few { length self.now.state.bag < 2 ^ 28 }
        requires busy { runs.is_quiet self.now.plan self.now.state ≡ false }
        ensures { result ≡ runs.next_event self.now.plan self.now.state pick }
    {
        if self.is_order_enabled() {
            return Event::Order(self.done);
        }
        let choices = self.choices();
        let count = u64::from(count_of(&choices));
        self.event_among(&choices, (pick % count) as u32)
    }

    /// Whether each order is done.
    fn are_orders_done(&self) -> bool
        ensures { result ≡ nat_eq self.now.state.done (length self.now.plan.orders) }
    {
        self.done as usize == self.plan.orders.len()
    }

    /// Whether the controller has no want, eviction, snapshot or recovery left.
    fn is_controller_idle(&self) -> bool
        ensures { result ≡ is_idle self.now.state.controller }
    {
        !self.controller.has_want()
            && !self.controller.busy_evicting()
            && !self.controller.has_job()
            && !self.controller.has_round()
    }

    /// Whether all is done: every operation is answered, every order is done, the switch runs, and no message, want,
    /// eviction, snapshot or recovery is left.
    pub(crate) fn is_finished(&self) -> bool
        ensures { result ≡ runs.is_finished self.now.plan self.now.state }
    {
        let clients = are_done(&self.clients);
        let orders = self.are_orders_done();
        let messages = self.bag.is_empty();
        let controller = self.is_controller_idle();
        all_hold(clients, orders, self.running, messages, controller)
    }
}
