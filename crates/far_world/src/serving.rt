ghost use Rattle.std.specs.Prelude.{◌≡◌};
ghost use Rattle.far_model.specs.Events.{reply_goes_to};

use far_base::{Packet, Party};

/// To whom a server's reply goes.
pub(crate) fn recipient(reply: &Packet) -> Party
    ensures { result ≡ reply_goes_to reply.now }
{
    match reply {
        Packet::Stored { .. } => Party::Controller,
        Packet::TopIs { .. } => Party::Controller,
        _ => Party::Switch,
    }
}
