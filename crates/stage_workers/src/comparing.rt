ghost use Rattle.std.specs.Prelude.{◌≡◌, IsTrue};
ghost use Rattle.stage_workers.specs.Work.{Agree};

use crate::done::AllDone;
use far_base::Packet;
use switch_staged::{Flight, same_packet};

fn same_packets(one: &[Packet], other: &[Packet]) -> bool
    ensures { IsTrue result → one.now ≡ other.now }
{
    if one.len() != other.len() {
        return false;
    }
    for i in 0..one.len() {
        if !same_packet(&one[i], &other[i]) {
            return false;
        }
    }
    true
}

fn same_flights(one: &[Flight], other: &[Flight]) -> bool
    ensures { IsTrue result → one.now ≡ other.now }
{
    if one.len() != other.len() {
        return false;
    }
    for i in 0..one.len() {
        if !one[i].is_same(&other[i]) {
            return false;
        }
    }
    true
}

/// Whether the head took these packets, and each part the flights that the group before it gave.
pub(crate) fn agree(done: &AllDone, packets: &[Packet]) -> bool
    ensures { IsTrue result → Agree done.now packets.now }
{
    same_packets(&done.head.took, packets)
        && same_flights(&done.part1.took, &done.head.gave)
        && same_flights(&done.part2.took, &done.part1.gave)
        && same_flights(&done.part3.took, &done.part2.gave)
        && same_flights(&done.part4.took, &done.part3.gave)
}
