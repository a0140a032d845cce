use crate::memory::{empty_slots, fill, filled, set_empty};
use crate::switch::{Emit, Switch};
use entry_state::{Mark, Slot};
use far_base::{Body, Config, Key, Memory, Out, Packet, Party};
use hot_counter::HotCells;
use lookup_table::Lookup;
use std::alloc::Global;
use std::marker::Model;

/// A switch in the plain form: its memory in lists with one entry for each slot. A pass costs no walk over the slots.
#[derive(Drop)]
pub struct PlainSwitch {
    alloc: Global,
    config: Config,
    epoch: u32,
    counter: u64,
    snap: u32,
    base: u32,
    lookup: Lookup,
    slots: Vec<Slot>,
    taken: Vec<u32>,
    shown: Vec<Option<Mark>>,
    hot: HotCells,
}

impl Model for PlainSwitch {
    ghost use Rattle.far_model.specs.View.{SwitchView};

    ghost Value = { SwitchView };

    ghost use Rattle.switch_core.specs.Plain.{view_of, IsPlain};

    ghost view = { view_of };

    ghost invariant = { IsPlain };
}

ghost use Rattle.std.specs.Prelude.{◌≡◌, ◌+◌, ◌^◌, ◌<◌, IfOk, IfSome, IsTrue, Some, None, if◌then◌else◌};
ghost use Rattle.far_base.specs.Limits.{IsConfig};
ghost use Rattle.far_model.specs.Pass as model;
ghost use Rattle.far_model.specs.View.{opening_view, slot_at, entry_place, is_taken, held_record, server_of};
ghost use Rattle.far_base.specs.declared.party.Party.TheVariants.{Client, Server, Controller};
ghost use Rattle.far_base.specs.declared.packet.Packet.TheVariants as Packet;
ghost use Rattle.switch_core.specs.Plain.{emit_of, part_taken, is_control};

fn to_controller(packet: Packet) -> Out
    ensures { Some result ≡ model.sent_to Controller packet }
{
    Out {
        to: Party::Controller,
        packet,
    }
}

fn to_client(client: u32, packet: Packet) -> Out
    ensures { Some result ≡ model.sent_to (Client client) packet }
{
    Out {
        to: Party::Client(client),
        packet,
    }
}

impl PlainSwitch {
    /// A switch with no memory but these.
    pub fn new(alloc: Global, config: Config, epoch: u32, counter: u64) -> Result<Self, Memory>
        requires { IsConfig config }
        ensures { IfOk result (λ switch. switch ≡ opening_view config epoch counter) }
    {
        let lookup = Lookup::new(alloc, config.slots)?;
        let slots = empty_slots(alloc, config.slots as usize)?;
        let taken = filled(alloc, 0, config.slots as usize)?;
        let shown = filled(alloc, None, config.slots as usize)?;
        let hot = HotCells::new(alloc, config.hot)?;
        Ok(PlainSwitch {
            alloc,
            config,
            epoch,
            counter,
            snap: 0,
            base: 0,
            lookup,
            slots,
            taken,
            shown,
            hot,
        })
    }

    /// The slot that is bound to the key, is valid and has the key.
    fn entry(&self, key: &Key) -> Option<u32>
        ensures place { result ≡ entry_place key.now self.now }
        ensures there { IfSome result (λ i. i < self.now.config.slots) }
        ensures valid { IfSome result (λ i. IsTrue (slot_at self.now i).valid) }
    {
        let slot = self.lookup.find(key)?;
        if self.slots[slot as usize].is_of(key) {
            Some(slot)
        } else {
            None
        }
    }

    /// To the server of the key.
    fn to_server(&self, key: &Key, packet: Packet) -> Out
        ensures { Some result ≡ model.sent_to (Server (server_of self.now.config key.now)) packet }
    {
        Out {
            to: Party::Server(key.byte_sum() % self.config.servers),
            packet,
        }
    }

    /// A request without an entry goes on to the key's server, and its hot cell is touched.
    fn forward(&mut self, key: &Key, packet: Packet) -> Emit
        ensures view { self.new ≡ model.touched key.now self.old }
        ensures first { result.first ≡ model.sent_to (Server (server_of self.old.config key.now)) packet }
        ensures second { result.second ≡ model.told_hot key.now self.old }
    {
        let first = self.to_server(key, packet);
        let second = if self.hot.touch(key, self.snap) {
            Some(to_controller(Packet::Hot { key: *key }))
        } else {
            None
        };
        Emit {
            first: Some(first),
            second,
        }
    }

    /// The part of a slot in the present snapshot: what the slot has, or that it has what the base has of it.
    fn part(&self, slot: u32) -> Packet
        requires { slot < self.now.config.slots }
        ensures { result ≡ model.part_packet self.now slot }
    {
        let id = self.snap;
        let at = slot as usize;
        let same = 0 < self.base
            && self.taken[at] == self.base
            && Mark::same(&self.shown[at], &self.slots[at].mark());
        if same {
            Packet::SnapSame { id, slot }
        } else {
            Packet::SnapPart {
                id,
                slot,
                view: self.slots[at].view(),
            }
        }
    }

    /// Where the slot's part of the present snapshot was not taken, it is taken now and leaves.
    fn take_part(&mut self, slot: u32) -> Option<Out>
        requires { slot < self.old.config.slots }
        ensures view { self.new ≡ part_taken self.old slot }
        ensures part { result ≡ model.part_left self.old slot }
    {
        let at = slot as usize;
        if self.taken[at] == self.snap {
            return None;
        }
        let part = self.part(slot);
        self.taken[at] = self.snap;
        self.shown[at] = self.slots[at].mark();
        Some(to_controller(part))
    }

    fn read(&mut self, caller: u32, op: u32, key: &Key) -> Emit
        ensures view { self.new ≡ (model.pass self.old (Packet.GetReq caller op key.now)).view }
        ensures emit { result ≡ emit_of (model.pass self.old (Packet.GetReq caller op key.now)) }
    {
        let key = *key;
        let Some(slot) = self.entry(&key) else {
            return self.forward(
                &key,
                Packet::GetFwd {
                    caller,
                    op,
                    key,
                    tag: 0,
                },
            );
        };
        let entry = &self.slots[slot as usize];
        if entry.is_latest() {
            return Emit::one(to_client(
                caller,
                Packet::GetAns {
                    caller,
                    op,
                    key,
                    num: entry.num(),
                    body: entry.shown_body(),
                    near: true,
                },
            ));
        }
        let tag = entry.tag();
        Emit::one(self.to_server(
            &key,
            Packet::GetFwd {
                caller,
                op,
                key,
                tag,
            },
        ))
    }

    fn write(&mut self, caller: u32, op: u32, key: &Key, body: &Body) -> Emit
        requires { self.old.counter + 1 < 2 ^ 64 }
        ensures view { self.new ≡ (model.pass self.old (Packet.WriteReq caller op key.now body.now)).view }
        ensures emit { result ≡ emit_of (model.pass self.old (Packet.WriteReq caller op key.now body.now)) }
    {
        let key = *key;
        let entry = self.entry(&key);
        self.counter += 1;
        let num = self.counter;
        let Some(slot) = entry else {
            return self.forward(
                &key,
                Packet::WriteFwd {
                    caller,
                    op,
                    key,
                    num,
                    body: *body,
                },
            );
        };
        let part = self.take_part(slot);
        self.slots[slot as usize].absorb(num, *body);
        let first = to_client(
            caller,
            Packet::WriteAns {
                caller,
                op,
                key,
                num,
                kept: true,
            },
        );
        Emit {
            first: Some(first),
            second: part,
        }
    }

    /// A server's reply goes on to the client as `answer`, and the entry of its key sees it.
    fn reply(&mut self, key: &Key, tag: Option<u64>, num: u64, body: &Body, answer: Out) -> Emit
        ensures view { self.new ≡ (model.reply_passes self.old tag num body.now (Some answer)
            (entry_place key.now self.old)).view }
        ensures emit { result ≡ emit_of (model.reply_passes self.old tag num body.now (Some answer)
            (entry_place key.now self.old)) }
    {
        let Some(slot) = self.entry(key) else {
            return Emit::one(answer);
        };
        let at = slot as usize;
        if self.slots[at].takes_reply(tag, num) {
            let second = self.take_part(slot);
            self.slots[at].reply_seen(tag, num, *body);
            return Emit {
                first: Some(answer),
                second,
            };
        }
        self.slots[at].reply_seen(tag, num, *body);
        Emit::one(answer)
    }

    fn read_replied(
        &mut self,
        caller: u32,
        op: u32,
        key: &Key,
        tag: u64,
        num: u64,
        body: &Body,
    ) -> Emit
        ensures view { self.new ≡ (model.pass self.old (Packet.GetRep caller op key.now tag num body.now)).view }
        ensures emit { result ≡ emit_of (model.pass self.old (Packet.GetRep caller op key.now tag num body.now)) }
    {
        let answer = Packet::GetAns {
            caller,
            op,
            key: *key,
            num,
            body: *body,
            near: false,
        };
        self.reply(key, Some(tag), num, body, to_client(caller, answer))
    }

    fn write_replied(&mut self, caller: u32, op: u32, key: &Key, num: u64, body: &Body) -> Emit
        ensures view { self.new ≡ (model.pass self.old (Packet.WriteRep caller op key.now num body.now)).view }
        ensures emit { result ≡ emit_of (model.pass self.old (Packet.WriteRep caller op key.now num body.now)) }
    {
        let answer = Packet::WriteAns {
            caller,
            op,
            key: *key,
            num,
            kept: false,
        };
        self.reply(key, None, num, body, to_client(caller, answer))
    }

    /// Whether a control packet is of the present epoch and its slot is there.
    fn is_slot_there(&self, epoch: u32, slot: u32) -> bool
        ensures { result ≡ model.is_slot_there self.now epoch slot }
    {
        epoch == self.epoch && slot < self.config.slots
    }

    fn admit(&mut self, epoch: u32, slot: u32, key: &Key, tag: u64) -> Emit
        ensures view { self.new ≡ (model.pass self.old (Packet.Admit epoch slot key.now tag)).view }
        ensures emit { result ≡ emit_of (model.pass self.old (Packet.Admit epoch slot key.now tag)) }
    {
        if !self.is_slot_there(epoch, slot) {
            return Emit::none();
        }
        self.lookup.bind(*key, slot);
        if self.slots[slot as usize].admit(*key, tag) {
            Emit::one(to_controller(Packet::AdmitAck { slot, tag }))
        } else {
            Emit::none()
        }
    }

    fn peek(&self, epoch: u32, slot: u32, tag: u64) -> Emit
        ensures { result ≡ emit_of (model.pass self.now (Packet.Peek epoch slot tag)) }
    {
        if !self.is_slot_there(epoch, slot) {
            return Emit::none();
        }
        let entry = &self.slots[slot as usize];
        if entry.is_under(tag) {
            Emit::one(to_controller(Packet::PeekAns {
                slot,
                tag,
                latest: entry.is_latest(),
                num: entry.num(),
                body: entry.shown_body(),
            }))
        } else {
            Emit::one(to_controller(Packet::PeekAns {
                slot,
                tag,
                latest: false,
                num: 0,
                body: Body::absent(),
            }))
        }
    }

    /// What the slot had, for the answer to a removal that is done or not.
    fn removed_answer(&self, slot: u32, tag: u64, done: bool) -> Out
        requires { slot < self.now.config.slots }
        ensures { Some result ≡ model.removed_answer slot tag done (slot_at self.now slot) }
    {
        let entry = &self.slots[slot as usize];
        if entry.is_under(tag) {
            to_controller(Packet::RemoveAns {
                slot,
                tag,
                done,
                latest: entry.is_latest(),
                num: entry.num(),
                body: entry.shown_body(),
            })
        } else {
            to_controller(Packet::RemoveAns {
                slot,
                tag,
                done: false,
                latest: false,
                num: 0,
                body: Body::absent(),
            })
        }
    }

    fn remove(&mut self, epoch: u32, slot: u32, tag: u64, latest: bool, num: u64) -> Emit
        ensures view { self.new ≡ (model.pass self.old (Packet.Remove epoch slot tag latest num)).view }
        ensures emit { result ≡ emit_of (model.pass self.old (Packet.Remove epoch slot tag latest num)) }
    {
        if !self.is_slot_there(epoch, slot) {
            return Emit::none();
        }
        let at = slot as usize;
        if !self.slots[at].may_go(tag, latest, num) {
            return Emit::one(self.removed_answer(slot, tag, false));
        }
        let first = self.removed_answer(slot, tag, true);
        if !self.slots[at].is_latest() {
            self.slots[at].remove_if(tag, latest, num);
            return Emit::one(first);
        }
        let second = self.take_part(slot);
        self.slots[at].remove_if(tag, latest, num);
        Emit {
            first: Some(first),
            second,
        }
    }

    /// A snapshot begins; `base` is 0 where its parts refer to none before it.
    fn start_snapshot(&mut self, epoch: u32, id: u32, base: u32) -> Emit
        ensures view { self.new ≡ (model.pass self.old (Packet.SnapFrom epoch id base)).view }
        ensures emit { result ≡ emit_of (model.pass self.old (Packet.SnapFrom epoch id base)) }
    {
        if epoch != self.epoch {
            return Emit::none();
        }
        self.snap = id;
        self.base = base;
        Emit::one(to_controller(Packet::SnapBegun {
            id,
            point: self.counter,
        }))
    }

    fn read_part(&mut self, epoch: u32, id: u32, slot: u32) -> Emit
        ensures view { self.new ≡ (model.pass self.old (Packet.SnapRead epoch id slot)).view }
        ensures emit { result ≡ emit_of (model.pass self.old (Packet.SnapRead epoch id slot)) }
    {
        if !self.is_slot_there(epoch, slot) || id != self.snap {
            return Emit::none();
        }
        Emit {
            first: self.take_part(slot),
            second: None,
        }
    }

    /// A packet of the controller. Every other packet is dropped.
    fn control(&mut self, packet: &Packet) -> Emit
        ensures view { IsTrue (is_control packet.now) → self.new ≡ (model.pass self.old packet.now).view }
        ensures emit { IsTrue (is_control packet.now) → result ≡ emit_of (model.pass self.old packet.now) }
    {
        match packet {
            Packet::Admit {
                epoch,
                slot,
                key,
                tag,
            } => self.admit(*epoch, *slot, key, *tag),
            Packet::Peek { epoch, slot, tag } => self.peek(*epoch, *slot, *tag),
            Packet::Remove {
                epoch,
                slot,
                tag,
                latest,
                num,
            } => self.remove(*epoch, *slot, *tag, *latest, *num),
            Packet::SnapStart { epoch, id } => self.start_snapshot(*epoch, *id, 0),
            Packet::SnapFrom { epoch, id, base } => self.start_snapshot(*epoch, *id, *base),
            Packet::SnapRead { epoch, id, slot } => self.read_part(*epoch, *id, *slot),
            _ => Emit::none(),
        }
    }
}

impl Switch for PlainSwitch {
    ghost seen = { λ view. view };

    fn pass(&mut self, packet: &Packet) -> Emit {
        match packet {
            Packet::GetReq { caller, op, key } => self.read(*caller, *op, key),
            Packet::WriteReq {
                caller,
                op,
                key,
                body,
            } => self.write(*caller, *op, key, body),
            Packet::GetRep {
                caller,
                op,
                key,
                tag,
                num,
                body,
            } => self.read_replied(*caller, *op, key, *tag, *num, body),
            Packet::WriteRep {
                caller,
                op,
                key,
                num,
                body,
            } => self.write_replied(*caller, *op, key, *num, body),
            _ => self.control(packet),
        }
    }

    fn pass_into(&mut self, packet: &Packet, emit: &mut Emit) {
        *emit = self.pass(packet);
    }

    fn reset(&mut self, epoch: u32, counter: u64) {
        self.epoch = epoch;
        self.counter = counter;
        self.snap = 0;
        self.base = 0;
        self.lookup.clear();
        set_empty(&mut self.slots);
        fill(&mut self.taken, 0);
        fill(&mut self.shown, None);
        self.hot.clear();
    }

    fn renew(&mut self, config: Config, epoch: u32, counter: u64) -> Result<(), Memory> {
        *self = PlainSwitch::new(self.alloc, config, epoch, counter)?;
        Ok(())
    }
}
