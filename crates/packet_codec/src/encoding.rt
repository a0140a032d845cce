ghost use Rattle.std.specs.Prelude.{◌≡◌, ◌≤◌, ℕ, List, [], length};
ghost use Rattle.packet_codec.specs.declared.wire.TheConstants.{PACKET_LIMIT};
ghost use Rattle.packet_codec.specs.Packets.{packet_of};
ghost use Rattle.packet_codec.specs.Spelling.{Spells};

use crate::kinds;
use crate::wire::Wire;
use far_base::Packet;

fn put(wire: &mut Wire, packet: &Packet)
    requires { wire.old ≡ [] }
    ensures spelled { Spells wire.new packet.now }
    ensures short { length wire.new ≤ PACKET_LIMIT }
{
    match packet {
        Packet::GetReq { caller, op, key } => {
            wire.begin(kinds::GET_REQ);
            wire.call(*caller, *op, key);
        }
        Packet::WriteReq {
            caller,
            op,
            key,
            body,
        } => {
            wire.begin(kinds::WRITE_REQ);
            wire.call(*caller, *op, key);
            wire.body(body);
        }
        Packet::GetFwd {
            caller,
            op,
            key,
            tag,
        } => {
            wire.begin(kinds::GET_FWD);
            wire.call(*caller, *op, key);
            wire.u64(*tag);
        }
        Packet::WriteFwd {
            caller,
            op,
            key,
            num,
            body,
        } => {
            wire.begin(kinds::WRITE_FWD);
            wire.call(*caller, *op, key);
            wire.u64(*num);
            wire.body(body);
        }
        Packet::GetRep {
            caller,
            op,
            key,
            tag,
            num,
            body,
        } => {
            wire.begin(kinds::GET_REP);
            wire.call(*caller, *op, key);
            wire.u64(*tag);
            wire.u64(*num);
            wire.body(body);
        }
        Packet::WriteRep {
            caller,
            op,
            key,
            num,
            body,
        } => {
            wire.begin(kinds::WRITE_REP);
            wire.call(*caller, *op, key);
            wire.u64(*num);
            wire.body(body);
        }
        Packet::GetAns {
            caller,
            op,
            key,
            num,
            body,
            near,
        } => {
            wire.begin(kinds::GET_ANS);
            wire.call(*caller, *op, key);
            wire.u64(*num);
            wire.body(body);
            wire.flag(*near);
        }
        Packet::WriteAns {
            caller,
            op,
            key,
            num,
            kept,
        } => {
            wire.begin(kinds::WRITE_ANS);
            wire.call(*caller, *op, key);
            wire.u64(*num);
            wire.flag(*kept);
        }
        Packet::Hot { key } => {
            wire.begin(kinds::HOT);
            wire.key(key);
        }
        Packet::Admit {
            epoch,
            slot,
            key,
            tag,
        } => {
            wire.begin(kinds::ADMIT);
            wire.u32(*epoch);
            wire.u32(*slot);
            wire.key(key);
            wire.u64(*tag);
        }
        Packet::AdmitAck { slot, tag } => {
            wire.begin(kinds::ADMIT_ACK);
            wire.u32(*slot);
            wire.u64(*tag);
        }
        Packet::Peek { epoch, slot, tag } => {
            wire.begin(kinds::PEEK);
            wire.u32(*epoch);
            wire.u32(*slot);
            wire.u64(*tag);
        }
        Packet::PeekAns {
            slot,
            tag,
            latest,
            num,
            body,
        } => {
            wire.begin(kinds::PEEK_ANS);
            wire.u32(*slot);
            wire.u64(*tag);
            wire.flag(*latest);
            wire.u64(*num);
            wire.body(body);
        }
        Packet::Remove {
            epoch,
            slot,
            tag,
            latest,
            num,
        } => {
            wire.begin(kinds::REMOVE);
            wire.u32(*epoch);
            wire.u32(*slot);
            wire.u64(*tag);
            wire.flag(*latest);
            wire.u64(*num);
        }
        Packet::RemoveAns {
            slot,
            tag,
            done,
            latest,
            num,
            body,
        } => {
            wire.begin(kinds::REMOVE_ANS);
            wire.u32(*slot);
            wire.u64(*tag);
            wire.flag(*done);
            wire.flag(*latest);
            wire.u64(*num);
            wire.body(body);
        }
        Packet::SnapStart { epoch, id } => {
            wire.begin(kinds::SNAP_START);
            wire.u32(*epoch);
            wire.u32(*id);
        }
        Packet::SnapBegun { id, point } => {
            wire.begin(kinds::SNAP_BEGUN);
            wire.u32(*id);
            wire.u64(*point);
        }
        Packet::SnapRead { epoch, id, slot } => {
            wire.begin(kinds::SNAP_READ);
            wire.u32(*epoch);
            wire.u32(*id);
            wire.u32(*slot);
        }
        Packet::SnapPart { id, slot, view } => {
            wire.begin(kinds::SNAP_PART);
            wire.u32(*id);
            wire.u32(*slot);
            wire.held(view);
        }
        Packet::Store { job, item } => {
            wire.begin(kinds::STORE);
            wire.u64(*job);
            wire.rec(item);
        }
        Packet::Stored { job } => {
            wire.begin(kinds::STORED);
            wire.u64(*job);
        }
        Packet::Release { point } => {
            wire.begin(kinds::RELEASE);
            wire.u64(*point);
        }
        Packet::Ask { round } => {
            wire.begin(kinds::ASK);
            wire.u32(*round);
        }
        Packet::Told {
            round,
            caller,
            total,
            item,
        } => {
            wire.begin(kinds::TOLD);
            wire.u32(*round);
            wire.u32(*caller);
            wire.u32(*total);
            wire.held(item);
        }
        Packet::TopAsk { round } => {
            wire.begin(kinds::TOP_ASK);
            wire.u32(*round);
        }
        Packet::TopIs { round, server, top } => {
            wire.begin(kinds::TOP_IS);
            wire.u32(*round);
            wire.u32(*server);
            wire.u64(*top);
        }
        Packet::SnapSame { id, slot } => {
            wire.begin(kinds::SNAP_SAME);
            wire.u32(*id);
            wire.u32(*slot);
        }
        Packet::SnapFrom { epoch, id, base } => {
            wire.begin(kinds::SNAP_FROM);
            wire.u32(*epoch);
            wire.u32(*id);
            wire.u32(*base);
        }
    }
}

/// The one spelling of the packet.
pub fn encode(packet: &Packet) -> Wire
    ensures spelled { Spells result packet.now }
    ensures only { (bytes : List ℕ) → Spells bytes packet.now → bytes ≡ result }
    // It is read again.
    ensures again { packet_of result ≡ Ok packet.now }
    ensures short { length result ≤ PACKET_LIMIT }
{
    let mut wire = Wire::new();
    put(&mut wire, packet);
    wire
}

/// Writes the one spelling of the packet in place of what the wire has.
pub fn encode_into(wire: &mut Wire, packet: &Packet)
    ensures spelled { Spells wire.new packet.now }
    ensures only { (bytes : List ℕ) → Spells bytes packet.now → bytes ≡ wire.new }
    // It is read again.
    ensures again { packet_of wire.new ≡ Ok packet.now }
    ensures short { length wire.new ≤ PACKET_LIMIT }
{
    wire.clear();
    put(wire, packet);
}
