//! What holds for every list of events of a link: functions with no code, whose contracts are the theorems.

ghost use Rattle.std.specs.Prelude.{◌≡◌, List, [], ◌++◌};
ghost use Rattle.far_model.specs.Members.{Among};
ghost use Rattle.retry_link.specs.Link.{AreLinkEvents, accepted, delivered, opening_link, passings, run_link};
ghost use Rattle.retry_link.specs.Reliable.{CatchesUp, IsReliable, MayGoOn};
ghost use Rattle.retry_link.specs.Sender.{Numbered};
ghost use Rattle.retry_link.specs.declared.link.LinkEvent.{LinkEvent as Event};

/// Whatever the link loses, copies or reorders, a message is handed up at most once, as it was offered; only what was
/// handed up is acknowledged; what is not acknowledged is kept; and messages pass as through a bag.
pub fn links_deliver_once()
    ensures { (events : List Event) → AreLinkEvents events → IsReliable (passings opening_link events)
        (run_link opening_link events) }
{}

/// Once a frame of each message and the acknowledgement that it gave come through, with nothing new offered, nothing is
/// left to be acknowledged and every message was handed up.
pub fn links_catch_up()
    ensures none { (events more : List Event) → AreLinkEvents events → CatchesUp (run_link opening_link events) more
        → (run_link opening_link (events ++ more)).sender.unacked ≡ [] }
    ensures all { (events more : List Event) (m : Numbered) → AreLinkEvents events
        → CatchesUp (run_link opening_link events) more → Among m (accepted (passings opening_link events))
        → Among m (delivered (passings opening_link (events ++ more))) }
{}

/// At each moment of such events the calls may be made that the next event makes.
pub fn links_may_go_on()
    ensures { (before after : List Event) → AreLinkEvents (before ++ after) → MayGoOn (run_link opening_link before) }
{}
