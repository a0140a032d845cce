//! What leaves after the last stage.
ghost use Rattle.std.specs.Prelude.{◌≡◌, ◌<◌, None, Some, if◌then◌else◌};
ghost use Rattle.far_base.specs.declared.packet.Packet.TheVariants.{AdmitAck, GetFwd};
ghost use Rattle.far_model.specs.View as view;
ghost use Rattle.far_model.specs.Pass as model;
ghost use Rattle.far_base.specs.declared.party.Party.TheVariants.{Client, Server, Controller};
ghost use Rattle.switch_staged.specs.Emits as spec;
ghost use Rattle.switch_staged.specs.Rows.{joined};
ghost use Rattle.switch_staged.specs.Shapes.{shaped};

use crate::flight::{Act, Part, Passage};
use crate::rows::join_cells;
use far_base::{Body, Config, Key, Out, Packet, Party, Record};

fn server_of(config: &Config, key: &Key) -> Party
    requires { 0 < config.now.servers }
    ensures { result ≡ Server (view.server_of config.now key.now) }
{
    Party::Server(key.byte_sum() % config.servers)
}

/// A read goes on to the server of its key, with the tag of the slot.
fn read_fwd(config: &Config, caller: u32, op: u32, key: Key, tag: u64, out: &mut Option<Out>)
    requires { 0 < config.now.servers }
    ensures { out.new ≡ model.sent_to (Server (view.server_of config.now key)) (GetFwd caller op key tag) }
{
    let to = server_of(config, &key);
    let packet = Packet::GetFwd {
        caller,
        op,
        key,
        tag,
    };
    *out = Some(Out { to, packet });
}

impl<'a> Passage<'a> {
    /// The body that the slot had.
    fn old_body(&self) -> Body
        ensures { result ≡ (spec.old_slot self.now).body }
    {
        self.found.shape.body(&join_cells(&self.cells))
    }

    /// The body that the slot shows.
    fn shown_body(&self) -> Body
        ensures { result ≡ view.shown_body (spec.old_slot self.now) }
    {
        if self.found.latest {
            self.old_body()
        } else {
            Body::absent()
        }
    }

    /// The record that the slot showed.
    fn held_record(&self) -> Option<Record>
        ensures { result ≡ view.held_record (spec.old_slot self.now) }
    {
        if !self.found.latest {
            return None;
        }
        match self.found.key {
            Some(key) => Some(Record {
                key,
                num: self.found.num,
                body: self.old_body(),
            }),
            None => None,
        }
    }

    fn is_under(&self, tag: u64) -> bool
        ensures { result ≡ model.is_under tag (spec.old_slot self.now) }
    {
        self.found.valid && self.found.tag == tag
    }

    /// The part of the slot, where it leaves.
    fn part_out(&self, out: &mut Option<Out>)
        requires { out.old ≡ None }
        ensures { out.new ≡ spec.flight_part self.now }
    {
        let Some(slot) = self.place else {
            return;
        };
        let id = self.gate.snap;
        let to = Party::Controller;
        match self.part {
            Part::Stays => {}
            Part::Same => {
                let packet = Packet::SnapSame { id, slot };
                *out = Some(Out { to, packet });
            }
            Part::Whole => {
                let view = self.held_record();
                let packet = Packet::SnapPart { id, slot, view };
                *out = Some(Out { to, packet });
            }
        }
    }

    fn read_out(&self, config: &Config, caller: u32, op: u32, key: Key, out: &mut Option<Out>)
        requires { 0 < config.now.servers }
        ensures { out.new ≡ spec.read_out config.now self.now.place caller op key (spec.old_slot self.now) }
    {
        if self.place.is_none() {
            read_fwd(config, caller, op, key, 0, out);
            return;
        }
        if !self.found.latest {
            read_fwd(config, caller, op, key, self.found.tag, out);
            return;
        }
        let packet = Packet::GetAns {
            caller,
            op,
            key,
            num: self.found.num,
            body: self.old_body(),
            near: true,
        };
        let to = Party::Client(caller);
        *out = Some(Out { to, packet });
    }

    fn write_out(
        &self,
        config: &Config,
        caller: u32,
        op: u32,
        key: Key,
        body: &Body,
        out: &mut Option<Out>,
    )
        requires { 0 < config.now.servers }
        ensures { out.new ≡ spec.write_out config.now self.now.place caller op key self.now.gate.counter body.now }
    {
        let num = self.gate.counter;
        if self.place.is_none() {
            let to = server_of(config, &key);
            let packet = Packet::WriteFwd {
                caller,
                op,
                key,
                num,
                body: *body,
            };
            *out = Some(Out { to, packet });
            return;
        }
        let to = Party::Client(caller);
        let packet = Packet::WriteAns {
            caller,
            op,
            key,
            num,
            kept: true,
        };
        *out = Some(Out { to, packet });
    }

    #[inline(never)]
    fn peek_out(&self, slot: u32, tag: u64, out: &mut Option<Out>)
        ensures { out.new ≡ spec.peek_out slot tag (spec.old_slot self.now) }
    {
        let to = Party::Controller;
        if !self.is_under(tag) {
            let packet = Packet::PeekAns {
                slot,
                tag,
                latest: false,
                num: 0,
                body: Body::absent(),
            };
            *out = Some(Out { to, packet });
            return;
        }
        let packet = Packet::PeekAns {
            slot,
            tag,
            latest: self.found.latest,
            num: self.found.num,
            body: self.shown_body(),
        };
        *out = Some(Out { to, packet });
    }

    #[inline(never)]
    fn remove_out(&self, slot: u32, tag: u64, done: bool, out: &mut Option<Out>)
        ensures { out.new ≡ model.removed_answer slot tag done (spec.old_slot self.now) }
    {
        let to = Party::Controller;
        if !self.is_under(tag) {
            let packet = Packet::RemoveAns {
                slot,
                tag,
                done: false,
                latest: false,
                num: 0,
                body: Body::absent(),
            };
            *out = Some(Out { to, packet });
            return;
        }
        let packet = Packet::RemoveAns {
            slot,
            tag,
            done,
            latest: self.found.latest,
            num: self.found.num,
            body: self.shown_body(),
        };
        *out = Some(Out { to, packet });
    }

    fn admit_out(&self, slot: u32, tag: u64, out: &mut Option<Out>)
        requires { out.old ≡ None }
        ensures { out.new ≡ (if self.now.found.valid then None else model.sent_to Controller (AdmitAck slot tag)) }
    {
        if self.found.valid {
            return;
        }
        let packet = Packet::AdmitAck { slot, tag };
        let to = Party::Controller;
        *out = Some(Out { to, packet });
    }

    /// The first packet of a flight that is not dropped.
    #[tactic(auto, unfolding(crate::specs::Emits::first_for))]
    fn first_for(&self, config: &Config, out: &mut Option<Out>)
        requires servers { 0 < config.now.servers }
        requires none { out.old ≡ None }
        ensures { out.new ≡ spec.first_for config.now self.now self.now.packet }
    {
        match self.packet {
            Packet::GetReq { caller, op, key } => self.read_out(config, *caller, *op, *key, out),
            Packet::WriteReq {
                caller,
                op,
                key,
                body,
            } => self.write_out(config, *caller, *op, *key, body, out),
            Packet::GetRep {
                caller,
                op,
                key,
                num,
                body,
                ..
            } => {
                let packet = Packet::GetAns {
                    caller: *caller,
                    op: *op,
                    key: *key,
                    num: *num,
                    body: *body,
                    near: false,
                };
                let to = Party::Client(*caller);
                *out = Some(Out { to, packet });
            }
            Packet::WriteRep {
                caller,
                op,
                key,
                num,
                ..
            } => {
                let packet = Packet::WriteAns {
                    caller: *caller,
                    op: *op,
                    key: *key,
                    num: *num,
                    kept: false,
                };
                let to = Party::Client(*caller);
                *out = Some(Out { to, packet });
            }
            Packet::Admit { slot, tag, .. } => self.admit_out(*slot, *tag, out),
            Packet::Peek { slot, tag, .. } => self.peek_out(*slot, *tag, out),
            Packet::Remove { slot, tag, .. } => {
                self.remove_out(*slot, *tag, self.act.is_clear(), out)
            }
            Packet::SnapStart { id, .. } | Packet::SnapFrom { id, .. } => {
                let packet = Packet::SnapBegun {
                    id: *id,
                    point: self.gate.counter,
                };
                let to = Party::Controller;
                *out = Some(Out { to, packet });
            }
            Packet::SnapRead { .. } => self.part_out(out),
            _ => {}
        }
    }

    fn hot_or_part(&self, key: Key, out: &mut Option<Out>)
        requires { out.old ≡ None }
        ensures { out.new ≡ spec.hot_or_part self.now.place self.now key }
    {
        if self.place.is_some() {
            self.part_out(out);
            return;
        }
        if self.hot {
            let packet = Packet::Hot { key };
            let to = Party::Controller;
            *out = Some(Out { to, packet });
        }
    }

    /// The second packet of a flight that is not dropped.
    #[tactic(auto, unfolding(crate::specs::Emits::second_for))]
    fn second_for(&self, out: &mut Option<Out>)
        requires { out.old ≡ None }
        ensures { out.new ≡ spec.second_for self.now self.now.packet }
    {
        match self.packet {
            Packet::GetReq { key, .. } | Packet::WriteReq { key, .. } => self.hot_or_part(
                *key, out,
            ),
            Packet::SnapRead { .. } => {}
            _ => self.part_out(out),
        }
    }

    /// Puts the first packet that leaves.
    pub fn put_first(&self, config: &Config, out: &mut Option<Out>)
        requires servers { 0 < config.now.servers }
        requires none { out.old ≡ None }
        ensures { out.new ≡ spec.first_out config.now self.now }
    {
        if self.live {
            self.first_for(config, out);
        }
    }

    /// Puts the second packet that leaves.
    pub fn put_second(&self, out: &mut Option<Out>)
        requires { out.old ≡ None }
        ensures { out.new ≡ spec.second_out self.now }
    {
        if self.live {
            self.second_for(out);
        }
    }
}

impl Act {
    fn is_clear(&self) -> bool
        ensures { result ≡ spec.is_clear self.now }
    {
        matches!(self, Act::Clear)
    }
}
