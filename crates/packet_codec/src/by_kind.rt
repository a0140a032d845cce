ghost use Rattle.packet_codec.specs.Reading.{ReadsInto};
ghost use Rattle.packet_codec.specs.Packets as packets;

use crate::fault::BadPacket;
use crate::kinds;
use crate::reader::Reader;
use far_base::Packet;

#[tactic(auto, unfolding(crate::specs::Packets::get_req_at))]
fn get_req(reader: &mut Reader, packet: &mut Packet) -> Result<(), BadPacket>
    ensures { ReadsInto result packet.new reader.new.rest.now (packets.get_req_at reader.old.rest.now) }
{
    let (caller, op, key) = reader.call()?;
    *packet = Packet::GetReq { caller, op, key };
    Ok(())
}

#[tactic(auto, unfolding(crate::specs::Packets::write_req_at))]
fn write_req(reader: &mut Reader, packet: &mut Packet) -> Result<(), BadPacket>
    ensures { ReadsInto result packet.new reader.new.rest.now (packets.write_req_at reader.old.rest.now) }
{
    let (caller, op, key) = reader.call()?;
    *packet = Packet::WriteReq {
        caller,
        op,
        key,
        body: reader.text()?.body(),
    };
    Ok(())
}

#[tactic(auto, unfolding(crate::specs::Packets::get_fwd_at))]
fn get_fwd(reader: &mut Reader, packet: &mut Packet) -> Result<(), BadPacket>
    ensures { ReadsInto result packet.new reader.new.rest.now (packets.get_fwd_at reader.old.rest.now) }
{
    let (caller, op, key) = reader.call()?;
    *packet = Packet::GetFwd {
        caller,
        op,
        key,
        tag: reader.u64()?,
    };
    Ok(())
}

#[tactic(auto, unfolding(crate::specs::Packets::write_fwd_at))]
fn write_fwd(reader: &mut Reader, packet: &mut Packet) -> Result<(), BadPacket>
    ensures { ReadsInto result packet.new reader.new.rest.now (packets.write_fwd_at reader.old.rest.now) }
{
    let (caller, op, key) = reader.call()?;
    *packet = Packet::WriteFwd {
        caller,
        op,
        key,
        num: reader.u64()?,
        body: reader.text()?.body(),
    };
    Ok(())
}

#[tactic(auto, unfolding(crate::specs::Packets::get_rep_at))]
fn get_rep(reader: &mut Reader, packet: &mut Packet) -> Result<(), BadPacket>
    ensures { ReadsInto result packet.new reader.new.rest.now (packets.get_rep_at reader.old.rest.now) }
{
    let (caller, op, key) = reader.call()?;
    *packet = Packet::GetRep {
        caller,
        op,
        key,
        tag: reader.u64()?,
        num: reader.u64()?,
        body: reader.text()?.body(),
    };
    Ok(())
}

#[tactic(auto, unfolding(crate::specs::Packets::write_rep_at))]
fn write_rep(reader: &mut Reader, packet: &mut Packet) -> Result<(), BadPacket>
    ensures { ReadsInto result packet.new reader.new.rest.now (packets.write_rep_at reader.old.rest.now) }
{
    let (caller, op, key) = reader.call()?;
    *packet = Packet::WriteRep {
        caller,
        op,
        key,
        num: reader.u64()?,
        body: reader.text()?.body(),
    };
    Ok(())
}

#[tactic(auto, unfolding(crate::specs::Packets::get_ans_at))]
fn get_ans(reader: &mut Reader, packet: &mut Packet) -> Result<(), BadPacket>
    ensures { ReadsInto result packet.new reader.new.rest.now (packets.get_ans_at reader.old.rest.now) }
{
    let (caller, op, key) = reader.call()?;
    *packet = Packet::GetAns {
        caller,
        op,
        key,
        num: reader.u64()?,
        body: reader.text()?.body(),
        near: reader.flag()?,
    };
    Ok(())
}

#[tactic(auto, unfolding(crate::specs::Packets::write_ans_at))]
fn write_ans(reader: &mut Reader, packet: &mut Packet) -> Result<(), BadPacket>
    ensures { ReadsInto result packet.new reader.new.rest.now (packets.write_ans_at reader.old.rest.now) }
{
    let (caller, op, key) = reader.call()?;
    *packet = Packet::WriteAns {
        caller,
        op,
        key,
        num: reader.u64()?,
        kept: reader.flag()?,
    };
    Ok(())
}

#[tactic(auto, unfolding(crate::specs::Packets::hot_at))]
fn hot(reader: &mut Reader, packet: &mut Packet) -> Result<(), BadPacket>
    ensures { ReadsInto result packet.new reader.new.rest.now (packets.hot_at reader.old.rest.now) }
{
    *packet = Packet::Hot { key: reader.key()? };
    Ok(())
}

#[tactic(auto, unfolding(crate::specs::Packets::admit_at))]
fn admit(reader: &mut Reader, packet: &mut Packet) -> Result<(), BadPacket>
    ensures { ReadsInto result packet.new reader.new.rest.now (packets.admit_at reader.old.rest.now) }
{
    *packet = Packet::Admit {
        epoch: reader.u32()?,
        slot: reader.u32()?,
        key: reader.key()?,
        tag: reader.u64()?,
    };
    Ok(())
}

#[tactic(auto, unfolding(crate::specs::Packets::admit_ack_at))]
fn admit_ack(reader: &mut Reader, packet: &mut Packet) -> Result<(), BadPacket>
    ensures { ReadsInto result packet.new reader.new.rest.now (packets.admit_ack_at reader.old.rest.now) }
{
    *packet = Packet::AdmitAck {
        slot: reader.u32()?,
        tag: reader.u64()?,
    };
    Ok(())
}

#[tactic(auto, unfolding(crate::specs::Packets::peek_at))]
fn peek(reader: &mut Reader, packet: &mut Packet) -> Result<(), BadPacket>
    ensures { ReadsInto result packet.new reader.new.rest.now (packets.peek_at reader.old.rest.now) }
{
    *packet = Packet::Peek {
        epoch: reader.u32()?,
        slot: reader.u32()?,
        tag: reader.u64()?,
    };
    Ok(())
}

#[tactic(auto, unfolding(crate::specs::Packets::peek_ans_at))]
fn peek_ans(reader: &mut Reader, packet: &mut Packet) -> Result<(), BadPacket>
    ensures { ReadsInto result packet.new reader.new.rest.now (packets.peek_ans_at reader.old.rest.now) }
{
    *packet = Packet::PeekAns {
        slot: reader.u32()?,
        tag: reader.u64()?,
        latest: reader.flag()?,
        num: reader.u64()?,
        body: reader.text()?.body(),
    };
    Ok(())
}

#[tactic(auto, unfolding(crate::specs::Packets::remove_at))]
fn remove(reader: &mut Reader, packet: &mut Packet) -> Result<(), BadPacket>
    ensures { ReadsInto result packet.new reader.new.rest.now (packets.remove_at reader.old.rest.now) }
{
    *packet = Packet::Remove {
        epoch: reader.u32()?,
        slot: reader.u32()?,
        tag: reader.u64()?,
        latest: reader.flag()?,
        num: reader.u64()?,
    };
    Ok(())
}

#[tactic(auto, unfolding(crate::specs::Packets::remove_ans_at))]
fn remove_ans(reader: &mut Reader, packet: &mut Packet) -> Result<(), BadPacket>
    ensures { ReadsInto result packet.new reader.new.rest.now (packets.remove_ans_at reader.old.rest.now) }
{
    *packet = Packet::RemoveAns {
        slot: reader.u32()?,
        tag: reader.u64()?,
        done: reader.flag()?,
        latest: reader.flag()?,
        num: reader.u64()?,
        body: reader.text()?.body(),
    };
    Ok(())
}

#[tactic(auto, unfolding(crate::specs::Packets::snap_start_at))]
fn snap_start(reader: &mut Reader, packet: &mut Packet) -> Result<(), BadPacket>
    ensures { ReadsInto result packet.new reader.new.rest.now (packets.snap_start_at reader.old.rest.now) }
{
    *packet = Packet::SnapStart {
        epoch: reader.u32()?,
        id: reader.u32()?,
    };
    Ok(())
}

#[tactic(auto, unfolding(crate::specs::Packets::snap_begun_at))]
fn snap_begun(reader: &mut Reader, packet: &mut Packet) -> Result<(), BadPacket>
    ensures { ReadsInto result packet.new reader.new.rest.now (packets.snap_begun_at reader.old.rest.now) }
{
    *packet = Packet::SnapBegun {
        id: reader.u32()?,
        point: reader.u64()?,
    };
    Ok(())
}

#[tactic(auto, unfolding(crate::specs::Packets::snap_read_at))]
fn snap_read(reader: &mut Reader, packet: &mut Packet) -> Result<(), BadPacket>
    ensures { ReadsInto result packet.new reader.new.rest.now (packets.snap_read_at reader.old.rest.now) }
{
    *packet = Packet::SnapRead {
        epoch: reader.u32()?,
        id: reader.u32()?,
        slot: reader.u32()?,
    };
    Ok(())
}

#[tactic(auto, unfolding(crate::specs::Packets::snap_part_at))]
fn snap_part(reader: &mut Reader, packet: &mut Packet) -> Result<(), BadPacket>
    ensures { ReadsInto result packet.new reader.new.rest.now (packets.snap_part_at reader.old.rest.now) }
{
    *packet = Packet::SnapPart {
        id: reader.u32()?,
        slot: reader.u32()?,
        view: reader.held()?,
    };
    Ok(())
}

#[tactic(auto, unfolding(crate::specs::Packets::store_at))]
fn store(reader: &mut Reader, packet: &mut Packet) -> Result<(), BadPacket>
    ensures { ReadsInto result packet.new reader.new.rest.now (packets.store_at reader.old.rest.now) }
{
    *packet = Packet::Store {
        job: reader.u64()?,
        item: reader.rec()?,
    };
    Ok(())
}

#[tactic(auto, unfolding(crate::specs::Packets::stored_at))]
fn stored(reader: &mut Reader, packet: &mut Packet) -> Result<(), BadPacket>
    ensures { ReadsInto result packet.new reader.new.rest.now (packets.stored_at reader.old.rest.now) }
{
    *packet = Packet::Stored { job: reader.u64()? };
    Ok(())
}

#[tactic(auto, unfolding(crate::specs::Packets::release_at))]
fn release(reader: &mut Reader, packet: &mut Packet) -> Result<(), BadPacket>
    ensures { ReadsInto result packet.new reader.new.rest.now (packets.release_at reader.old.rest.now) }
{
    *packet = Packet::Release {
        point: reader.u64()?,
    };
    Ok(())
}

#[tactic(auto, unfolding(crate::specs::Packets::ask_at))]
fn ask(reader: &mut Reader, packet: &mut Packet) -> Result<(), BadPacket>
    ensures { ReadsInto result packet.new reader.new.rest.now (packets.ask_at reader.old.rest.now) }
{
    *packet = Packet::Ask {
        round: reader.u32()?,
    };
    Ok(())
}

#[tactic(auto, unfolding(crate::specs::Packets::told_at))]
fn told(reader: &mut Reader, packet: &mut Packet) -> Result<(), BadPacket>
    ensures { ReadsInto result packet.new reader.new.rest.now (packets.told_at reader.old.rest.now) }
{
    *packet = Packet::Told {
        round: reader.u32()?,
        caller: reader.u32()?,
        total: reader.u32()?,
        item: reader.held()?,
    };
    Ok(())
}

#[tactic(auto, unfolding(crate::specs::Packets::top_ask_at))]
fn top_ask(reader: &mut Reader, packet: &mut Packet) -> Result<(), BadPacket>
    ensures { ReadsInto result packet.new reader.new.rest.now (packets.top_ask_at reader.old.rest.now) }
{
    *packet = Packet::TopAsk {
        round: reader.u32()?,
    };
    Ok(())
}

#[tactic(auto, unfolding(crate::specs::Packets::top_is_at))]
fn top_is(reader: &mut Reader, packet: &mut Packet) -> Result<(), BadPacket>
    ensures { ReadsInto result packet.new reader.new.rest.now (packets.top_is_at reader.old.rest.now) }
{
    *packet = Packet::TopIs {
        round: reader.u32()?,
        server: reader.u32()?,
        top: reader.u64()?,
    };
    Ok(())
}

#[tactic(auto, unfolding(crate::specs::Packets::snap_same_at))]
fn snap_same(reader: &mut Reader, packet: &mut Packet) -> Result<(), BadPacket>
    ensures { ReadsInto result packet.new reader.new.rest.now (packets.snap_same_at reader.old.rest.now) }
{
    *packet = Packet::SnapSame {
        id: reader.u32()?,
        slot: reader.u32()?,
    };
    Ok(())
}

#[tactic(auto, unfolding(crate::specs::Packets::snap_from_at))]
fn snap_from(reader: &mut Reader, packet: &mut Packet) -> Result<(), BadPacket>
    ensures { ReadsInto result packet.new reader.new.rest.now (packets.snap_from_at reader.old.rest.now) }
{
    *packet = Packet::SnapFrom {
        epoch: reader.u32()?,
        id: reader.u32()?,
        base: reader.u32()?,
    };
    Ok(())
}

/// The fields of the kind of this number become the packet's.
#[tactic(auto, unfolding(crate::specs::Packets::fields_at))]
pub fn fields(kind: u8, reader: &mut Reader, packet: &mut Packet) -> Result<(), BadPacket>
    ensures { ReadsInto result packet.new reader.new.rest.now (packets.fields_at kind reader.old.rest.now) }
{
    match kind {
        kinds::GET_REQ => get_req(reader, packet),
        kinds::WRITE_REQ => write_req(reader, packet),
        kinds::GET_FWD => get_fwd(reader, packet),
        kinds::WRITE_FWD => write_fwd(reader, packet),
        kinds::GET_REP => get_rep(reader, packet),
        kinds::WRITE_REP => write_rep(reader, packet),
        kinds::GET_ANS => get_ans(reader, packet),
        kinds::WRITE_ANS => write_ans(reader, packet),
        kinds::HOT => hot(reader, packet),
        kinds::ADMIT => admit(reader, packet),
        kinds::ADMIT_ACK => admit_ack(reader, packet),
        kinds::PEEK => peek(reader, packet),
        kinds::PEEK_ANS => peek_ans(reader, packet),
        kinds::REMOVE => remove(reader, packet),
        kinds::REMOVE_ANS => remove_ans(reader, packet),
        kinds::SNAP_START => snap_start(reader, packet),
        kinds::SNAP_BEGUN => snap_begun(reader, packet),
        kinds::SNAP_READ => snap_read(reader, packet),
        kinds::SNAP_PART => snap_part(reader, packet),
        kinds::STORE => store(reader, packet),
        kinds::STORED => stored(reader, packet),
        kinds::RELEASE => release(reader, packet),
        kinds::ASK => ask(reader, packet),
        kinds::TOLD => told(reader, packet),
        kinds::TOP_ASK => top_ask(reader, packet),
        kinds::TOP_IS => top_is(reader, packet),
        kinds::SNAP_SAME => snap_same(reader, packet),
        kinds::SNAP_FROM => snap_from(reader, packet),
        _ => Err(BadPacket::Kind),
    }
}
