//! The packets inside a pipeline.
ghost use Rattle.std.specs.Prelude.{◌≡◌, ◌+◌, ◌<◌, ◌++◌, length, take, map, slice_set, Some};
ghost use Rattle.switch_staged.specs.Overlap.{packet_of as packet_in, oldest_first as oldest, in_front, kept};
ghost use Rattle.switch_staged.specs.Overlap.{one_packet};

use crate::flight::Course;
use crate::pipeline::STAGES;
use far_base::Packet;

pub fn packet_of(flight: &Option<Course>) -> Option<Packet>
    ensures { result ≡ packet_in flight.now }
{
    match flight {
        Some(flight) => Some(flight.packet),
        None => None,
    }
}

/// The packets before the stages of the body, behind the first four.
pub fn put_packets(out: &mut [Option<Packet>], flights: &[Option<Course>])
    requires out { length out.old ≡ 36 }
    requires flights { length flights.now ≡ 32 }
    ensures { out.new ≡ take 4 out.old ++ map packet_in flights.now }
{
    for k in 0..flights.len() {
        out[4 + k] = packet_of(&flights[k]);
    }
}

/// Where there is a packet, it is put at this place. The answer is the next place.
fn put_next(packets: &mut [Option<Packet>], place: usize, packet: Option<Packet>) -> usize
    requires { place < length packets.old }
    ensures packets { packets.new ≡ kept (λ all p. slice_set all place (Some p)) packets.old packet }
    ensures next { result ≡ place + length (one_packet packet) }
    ensures whole { length packets.new ≡ length packets.old }
{
    match packet {
        Some(packet) => {
            packets[place] = Some(packet);
            place + 1
        }
        None => place,
    }
}

/// The packets before the stages, the last stage's first, and then none.
pub fn oldest_first(standing: &[Option<Packet>]) -> [Option<Packet>; STAGES]
    requires { length standing.now ≡ 36 }
    ensures { result ≡ in_front 36 (oldest standing.now) }
{
    let mut packets = [None; STAGES];
    let mut count = 0;
    for k in 0..STAGES {
        count = put_next(&mut packets, count, standing[STAGES - 1 - k]);
    }
    packets
}
