use far_base::{Config, HOT_LIMIT, Memory, OP_LIMIT, Packet, SERVER_LIMIT, SLOT_LIMIT};
use far_text::{Lines, hex_of};
use packet_codec::decode;
use std::alloc::Global;
use std::marker::Model;
use workload::{Limit, WorkFault, next_line, size};

/// The sizes of a switch, and the packets that are to pass it. Contracts see a list of packets.
#[derive(Drop)]
pub struct PacketLine {
    pub config: Config,
    pub packets: Vec<Packet>,
}

impl Model for PacketLine {
    ghost use Rattle.line_text.specs.Reading.{LineView};

    ghost Value = { LineView };

    ghost view = { λ l. record { config = l.config; packets = l.packets.items } };
}

ghost use Rattle.std.specs.Prelude.{◌≡◌, ◌+◌, ◌<◌, ◌≤◌, ◌^◌, ◌∷◌, ◌++◌, [], length, IfOk, OnOk};
ghost use Rattle.far_base.specs.Limits.{IsConfig};
ghost use Rattle.far_base.specs.declared.plan.TheConstants.{OP_LIMIT};
ghost use Rattle.far_text.specs.Pieces.{pieces};
ghost use Rattle.workload.specs.Outcome.{Gives};
ghost use Rattle.line_text.specs.Meaning.{IsReading, IsReadAs};
ghost use Rattle.line_text.specs.Reading.{LineView, title_of, head_of, packet_in, packet_step, reading, packets_from};

fn title(lines: &mut Lines) -> Result<(), WorkFault>
    requires { lines.old.read ≡ 0 }
    ensures line { Gives (λ _. pieces 10 lines.new.rest.now) result (title_of (pieces 10 lines.old.rest.now)) }
    ensures shorter { IfOk result (λ _. length lines.new.rest.now < length lines.old.rest.now) }
    ensures count { IfOk result (λ _. lines.new.read ≡ 1) }
{
    if next_line(lines)? == b"far 1 line".as_slice() {
        Ok(())
    } else {
        Err(WorkFault::BadLine(lines.read))
    }
}

/// The first four lines.
#[tactic(auto, unfolding(crate::specs::Reading::head_of))]
fn head(lines: &mut Lines) -> Result<Config, WorkFault>
    requires { lines.old.read ≡ 0 }
    ensures head { Gives (λ config. (config, pieces 10 lines.new.rest.now)) result
        (head_of (pieces 10 lines.old.rest.now)) }
    ensures shorter { IfOk result (λ _. length lines.new.rest.now + 4 ≤ length lines.old.rest.now) }
    ensures count { IfOk result (λ _. lines.new.read ≡ 4) }
    ensures config { IfOk result IsConfig }
{
    title(lines)?;
    let servers = size(lines, b"servers ", 1, SERVER_LIMIT, Limit::Servers)?;
    let slots = size(lines, b"slots ", 1, SLOT_LIMIT, Limit::Slots)?;
    let hot = size(lines, b"hot ", 0, HOT_LIMIT, Limit::Hot)?;
    Ok(Config {
        clients: 1,
        servers,
        slots,
        hot,
    })
}

/// The packet whose spelling the digits are.
fn packet_of(alloc: Global, line: &[u8]) -> Result<Option<Packet>, Memory>
    ensures { IfOk result (λ packet. packet ≡ packet_in line.now) }
{
    let Some(bytes) = hex_of(alloc, line)? else {
        return Ok(None);
    };
    Ok(decode(&bytes).ok())
}

fn push(packets: &mut Vec<Packet>, packet: &Packet) -> Result<(), Memory>
    ensures { OnOk result (packets.new.items ≡ packets.old.items ++ packet.now ∷ []) }
{
    packets.extend_from_slice(&[*packet])?;
    Ok(())
}

/// One more packet, where there is room for it.
fn take_packet(
    packets: &mut Vec<Packet>,
    number: u32,
    packet: Option<Packet>,
) -> Result<(), WorkFault>
    ensures step { Gives (λ _. packets.new.items) result (packet_step number packets.old.items packet) }
    ensures few { length packets.old.items ≤ OP_LIMIT → OnOk result (length packets.new.items ≤ OP_LIMIT) }
{
    let Some(packet) = packet else {
        return Err(WorkFault::BadLine(number));
    };
    if packets.len() >= OP_LIMIT as usize {
        return Err(WorkFault::TooLarge(Limit::Ops, number));
    }
    match push(packets, &packet) {
        Ok(()) => Ok(()),
        Err(_) => Err(WorkFault::Memory),
    }
}

fn take_line(
    alloc: Global,
    packets: &mut Vec<Packet>,
    number: u32,
    line: &[u8],
) -> Result<(), WorkFault>
    ensures step { Gives (λ _. packets.new.items) result (packet_step number packets.old.items (packet_in line.now)) }
    ensures few { length packets.old.items ≤ OP_LIMIT → OnOk result (length packets.new.items ≤ OP_LIMIT) }
{
    match packet_of(alloc, line) {
        Ok(packet) => take_packet(packets, number, packet),
        Err(_) => Err(WorkFault::Memory),
    }
}

/// The packets of the lines that follow.
#[tactic(auto, using(crate::proofs::LineLaws::line_by_line))]
fn read_packets(alloc: Global, lines: &mut Lines) -> Result<Vec<Packet>, WorkFault>
    requires { lines.old.read + length lines.old.rest.now < 2 ^ 32 }
    ensures read { Gives (λ packets. packets.items) result
        (packets_from lines.old.read [] (pieces 10 lines.old.rest.now)) }
    ensures few { IfOk result (λ packets. length packets.items ≤ OP_LIMIT) }
{
    let mut packets = Vec::new(alloc);
    while !lines.rest.is_empty() {
        let line = next_line(lines)?;
        take_line(alloc, &mut packets, lines.read, line)?;
    }
    Ok(packets)
}

#[tactic(auto, using(crate::proofs::Heads::part_by_part))]
fn read_text(alloc: Global, text: &[u8]) -> Result<PacketLine, WorkFault>
    requires { length text.now < 2 ^ 32 }
    ensures read { Gives (λ line. line) result (reading text.now) }
    ensures config { IfOk result (λ line. IsConfig line.config) }
    ensures few { IfOk result (λ line. length line.packets ≤ OP_LIMIT) }
{
    let mut lines = Lines::new(text);
    let config = head(&mut lines)?;
    let packets = read_packets(alloc, &mut lines)?;
    Ok(PacketLine { config, packets })
}

/// The line of packets that the text is, or the first line with a fault and its fault. `BadLine` names a line that has
/// none of the forms, a missing head line, a line without its end, a count of 0, and digits that spell no packet;
/// `TooLarge` a line that passes a limit.
pub fn parse(alloc: Global, text: &[u8]) -> Result<PacketLine, WorkFault>
    requires { length text.now < 2 ^ 32 }
    // A line of packets, or a fault and its line, as the reading of the lines gives it.
    ensures read { Gives (λ line. line) result (reading text.now) }
    // What is read is spelled so.
    ensures found { IfOk result (λ line. IsReading text.now line) }
    // The text of a line of packets is read as it, unless memory is refused.
    ensures only { (line : LineView) → IsReading text.now line → IsReadAs result line }
    ensures config { IfOk result (λ line. IsConfig line.config) }
    ensures few { IfOk result (λ line. length line.packets ≤ OP_LIMIT) }
{
    read_text(alloc, text)
}
