//! Stage 1: which key is bound to which slot.
ghost use Rattle.std.specs.Prelude.{◌≡◌, ◌+◌, ◌<◌, length, true, IfOk};
ghost use Rattle.switch_staged.specs.Fronts.{first_bound};
ghost use Rattle.switch_staged.specs.Heads.{place_for, bound_after};
ghost use Rattle.switch_staged.specs.Stages.{table_after, looked_up, AdmitsWithin};

use crate::flight::Passage;
use far_base::{Memory, Packet};
use lookup_table::Lookup;
use std::alloc::Global;

/// The slot that the packet goes to.
#[tactic(auto, unfolding(crate::specs::Heads::place_for))]
fn place_of(lookup: &Lookup, packet: &Packet) -> Option<u32>
    ensures { result ≡ place_for lookup.now.bound packet.now }
{
    match packet {
        Packet::GetReq { key, .. }
        | Packet::WriteReq { key, .. }
        | Packet::GetRep { key, .. }
        | Packet::WriteRep { key, .. } => lookup.find(key),
        Packet::Admit { slot, .. }
        | Packet::Peek { slot, .. }
        | Packet::Remove { slot, .. }
        | Packet::SnapRead { slot, .. } => Some(*slot),
        _ => None,
    }
}

/// What stage 1 has after the packet.
#[tactic(auto, unfolding(crate::specs::Heads::bound_after, crate::specs::Stages::AdmitsWithin))]
fn bind_for(lookup: &mut Lookup, packet: &Packet)
    requires { AdmitsWithin (length lookup.old.bound) packet.now }
    ensures { lookup.new.bound ≡ bound_after lookup.old.bound packet.now }
{
    match *packet {
        Packet::Admit { key, slot, .. } => lookup.bind(key, slot),
        _ => {}
    }
}

/// Stage 1: the table.
pub fn pass_table(lookup: &mut Lookup, flight: &mut Passage)
    requires { flight.old.live ≡ true → AdmitsWithin (length lookup.old.bound) flight.old.packet }
    ensures table { lookup.new.bound ≡ table_after lookup.old.bound flight.old }
    ensures flight { flight.new ≡ looked_up lookup.old.bound flight.old }
{
    if !flight.live {
        flight.place = None;
        return;
    }
    let place = place_of(lookup, flight.packet);
    bind_for(lookup, flight.packet);
    flight.place = place;
}

/// The key of one more slot is bound as in another table.
#[tactic(auto, using(crate::proofs::LookupLaws::bound_more, crate::proofs::LookupLaws::free_more, crate::proofs::LookupLaws::first_length))]
fn bind_next(copy: &mut Lookup, from: &Lookup, slot: u32)
    requires there { slot < length from.now.bound }
    requires front { copy.old.bound ≡ first_bound slot from.now.bound }
    ensures { copy.new.bound ≡ first_bound (slot + 1) from.now.bound }
{
    match from.key_of(slot) {
        Some(key) => copy.bind(key, slot),
        None => {}
    }
}

/// A table in which each slot has the same key.
#[tactic(auto, using(crate::proofs::LookupLaws::all_bound))]
pub fn copied_table(alloc: Global, from: &Lookup, slots: u32) -> Result<Lookup, Memory>
    requires { length from.now.bound ≡ slots }
    ensures { IfOk result (λ copy. copy.bound ≡ from.now.bound) }
{
    let mut copy = Lookup::new(alloc, slots)?;
    for slot in 0..slots {
        bind_next(&mut copy, from, slot);
    }
    Ok(copy)
}
