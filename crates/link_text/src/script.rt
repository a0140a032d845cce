use retry_link::LinkEvent;
use std::marker::Model;

/// The events of a link, in their order. Contracts see the list of events.
#[derive(Drop)]
pub struct Script {
    /// The events.
    pub events: Vec<LinkEvent>,
}

impl Model for Script {
    ghost use Rattle.std.specs.Prelude.{List};
    ghost use Rattle.retry_link.specs.declared.link.LinkEvent.{LinkEvent};

    ghost Value = { List LinkEvent };

    ghost view = { λ script. script.events.items };
}
