ghost use Rattle.std.specs.Prelude.{◌≡◌, ◌+◌, ◌<◌, ◌^◌, None, Some, OnOk, OnErr};
ghost use Rattle.far_base.specs.Limits.{IsConfig};
ghost use Rattle.far_model.specs.Pass as model;
ghost use Rattle.far_model.specs.View.{SwitchView, opening_view};

use far_base::{Config, Memory, Out, Packet};

/// What leaves a switch after one packet. A second needs a first.
#[derive(Clone, Copy)]
pub struct Emit {
    pub first: Option<Out>,
    pub second: Option<Out>,
}

impl Emit {
    /// Nothing leaves.
    pub fn none() -> Self
        ensures { result ≡ record { first = None; second = None } }
    {
        Emit {
            first: None,
            second: None,
        }
    }

    /// One packet leaves.
    pub fn one(out: Out) -> Self
        ensures { result ≡ record { first = Some out; second = None } }
    {
        Emit {
            first: Some(out),
            second: None,
        }
    }
}

/// A switch with a cache. Contracts see its view.
pub trait Switch {
    ghost seen: { Self → SwitchView };

    /// One pass of a packet, of any kind: what it changes, and what leaves. It takes no memory.
    fn pass(&mut self, packet: &Packet) -> Emit
        requires { (seen self.old).counter + 1 < 2 ^ 64 }
        ensures view { seen self.new ≡ (model.pass (seen self.old) packet.now).view }
        ensures first { result.first ≡ (model.pass (seen self.old) packet.now).first }
        ensures second { result.second ≡ (model.pass (seen self.old) packet.now).second };

    /// One pass of a packet, as `pass`. What leaves is put into an `emit` with nothing in it.
    fn pass_into(&mut self, packet: &Packet, emit: &mut Emit)
        requires room { (seen self.old).counter + 1 < 2 ^ 64 }
        requires no_first { emit.old.first ≡ None }
        requires no_second { emit.old.second ≡ None }
        ensures view { seen self.new ≡ (model.pass (seen self.old) packet.now).view }
        ensures first { emit.new.first ≡ (model.pass (seen self.old) packet.now).first }
        ensures second { emit.new.second ≡ (model.pass (seen self.old) packet.now).second };

    /// Leaves the opening view of the config that the switch has. It takes no memory.
    fn reset(&mut self, epoch: u32, counter: u64)
        ensures { seen self.new ≡ opening_view (seen self.old).config epoch counter };

    /// Leaves the opening view of this config. At an error the switch is as before.
    fn renew(&mut self, config: Config, epoch: u32, counter: u64) -> Result<(), Memory>
        requires limits { IsConfig config }
        ensures renewed { OnOk result (seen self.new ≡ opening_view config epoch counter) }
        ensures unchanged { OnErr result (seen self.new ≡ seen self.old) };
}
