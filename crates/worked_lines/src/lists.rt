ghost use Rattle.std.specs.Prelude.{◌≡◌, ◌+◌, ◌<◌, ◌≤◌, ◌^◌, length, IfOk};

use far_base::{Body, Config, Key, Out, Packet};
use rand_core::SeedableRng;
use rand_core::utils::NextWord;
use rand_pcg::Lcg64Xsh32;
use stage_workers::{NoStageGate, run_stages};
use std::alloc::Global;
use std::sync::Wait;
use std::test::Fail;
use std::thread::Threads;
use switch_core::{Emit, Switch};
use switch_staged::StagedSwitch;

/// How many lists are passed.
const LISTS: u64 = 1000;

/// The greatest length of a list: more than a ring holds.
const LONGEST: u32 = 80;

const SLOTS: u32 = 2;

/// More writes than all lists have.
const LIMIT: u64 = 1_000_000;

/// A number below the bound.
fn below(rng: &mut Lcg64Xsh32, bound: u32) -> u32
    requires { 0 < bound }
    ensures { result < bound }
{
    rng.next_word() % bound
}

fn some_key(rng: &mut Lcg64Xsh32) -> Result<Key, Fail> {
    let text = match below(rng, 3) {
        0 => b"a",
        1 => b"b",
        _ => b"c",
    };
    Ok(Key::from_text(text).ok_or("no key")?)
}

fn some_body(rng: &mut Lcg64Xsh32) -> Result<Body, Fail> {
    if below(rng, 4) == 0 {
        return Ok(Body::absent());
    }
    let bytes = [b'0' + below(rng, 10) as u8; 128];
    let len = below(rng, 129) as usize;
    Ok(Body::from_bytes(&bytes[..len]).ok_or("no body")?)
}

/// A packet of one of the clients' and servers' kinds.
fn some_message(rng: &mut Lcg64Xsh32) -> Result<Packet, Fail> {
    let caller = 0;
    let op = below(rng, 100);
    let key = some_key(rng)?;
    let body = some_body(rng)?;
    let tag = u64::from(below(rng, 3));
    let num = u64::from(below(rng, 6));
    Ok(match below(rng, 4) {
        0 => Packet::GetReq { caller, op, key },
        1 => Packet::WriteReq {
            caller,
            op,
            key,
            body,
        },
        2 => Packet::GetRep {
            caller,
            op,
            key,
            tag,
            num,
            body,
        },
        _ => Packet::WriteRep {
            caller,
            op,
            key,
            num,
            body,
        },
    })
}

/// A packet of one of the controller's kinds, at times of another epoch or for a slot that is not there.
fn some_command(rng: &mut Lcg64Xsh32) -> Result<Packet, Fail> {
    let epoch = if below(rng, 8) == 0 { 2 } else { 1 };
    let slot = below(rng, SLOTS + 1);
    let key = some_key(rng)?;
    let tag = u64::from(below(rng, 3));
    let num = u64::from(below(rng, 6));
    let id = below(rng, 4);
    Ok(match below(rng, 6) {
        0 => Packet::Admit {
            epoch,
            slot,
            key,
            tag,
        },
        1 => Packet::Peek { epoch, slot, tag },
        2 => Packet::Remove {
            epoch,
            slot,
            tag,
            latest: below(rng, 2) == 0,
            num,
        },
        3 => Packet::SnapStart { epoch, id },
        4 => Packet::SnapFrom {
            epoch,
            id,
            base: below(rng, 4),
        },
        _ => Packet::SnapRead { epoch, id, slot },
    })
}

fn some_packet(rng: &mut Lcg64Xsh32) -> Result<Packet, Fail> {
    if below(rng, 2) == 0 {
        some_message(rng)
    } else {
        some_command(rng)
    }
}

fn some_packets(alloc: Global, rng: &mut Lcg64Xsh32, count: u32) -> Result<Vec<Packet>, Fail> {
    let mut packets = Vec::new(alloc);
    for _ in 0..count {
        let packet = some_packet(rng)?;
        packets.extend_from_slice(&[packet])?;
    }
    Ok(packets)
}

fn is_same(one: &Option<Out>, other: &Option<Out>) -> bool {
    match (one, other) {
        (Some(one), Some(other)) => one.to == other.to && one.packet == other.packet,
        (None, None) => true,
        _ => false,
    }
}

/// Whether the same packets leave.
fn leave_alike(emits: &[Emit], others: &[Emit]) -> bool {
    let pairs = emits.iter().zip(others.iter());
    for (emit, other) in pairs {
        if !is_same(&emit.first, &other.first) || !is_same(&emit.second, &other.second) {
            return false;
        }
    }
    emits.len() == others.len()
}

fn new_switch(alloc: Global) -> Result<StagedSwitch, Fail>
    ensures { IfOk result (λ switch. switch.counter ≡ 0) }
{
    let config = Config {
        clients: 1,
        servers: 3,
        slots: SLOTS,
        hot: 2,
    };
    Ok(StagedSwitch::new(alloc, config, 1, 0).map_err(|_| "new")?)
}

/// What leaves where the packets pass in workers.
fn passed_in_workers<R: Threads + Wait + Sync>(
    rt: &R,
    alloc: Global,
    switch: &mut StagedSwitch,
    packets: &[Packet],
) -> Result<Vec<Emit>, Fail>
    requires counter { switch.old.counter + length packets.now < 2 ^ 64 }
    requires few { length packets.now < 2 ^ 32 }
{
    Ok(run_stages(rt, alloc, switch, packets, &NoStageGate).map_err(|_| "run")?)
}

/// What leaves where the packets pass one after the other.
fn passed(alloc: Global, switch: &mut StagedSwitch, packets: &[Packet]) -> Result<Vec<Emit>, Fail> {
    let mut emits = Vec::new(alloc);
    for packet in packets {
        if switch.counter() > LIMIT {
            return Err(Fail::from("too many"));
        }
        let Emit { first, second } = switch.pass(packet);
        emits.extend_from_slice(&[Emit { first, second }])?;
    }
    Ok(emits)
}

/// Whether both switches have counted the same, and answer what comes later alike.
fn go_on_alike(
    alloc: Global,
    switch: &mut StagedSwitch,
    other: &mut StagedSwitch,
    later: &[Packet],
) -> Result<bool, Fail> {
    if switch.counter() != other.counter() {
        return Ok(false);
    }
    let emits = passed(alloc, switch, later)?;
    let others = passed(alloc, other, later)?;
    Ok(leave_alike(&emits, &others))
}

/// Whether a new switch does the same with the packets in workers and one after the other, and then with later ones.
fn pass_alike<R: Threads + Wait + Sync>(
    rt: &R,
    alloc: Global,
    packets: &[Packet],
    later: &[Packet],
) -> Result<bool, Fail>
    requires { length packets.now ≤ LONGEST }
{
    let mut alone = new_switch(alloc)?;
    let mut switch = new_switch(alloc)?;
    let emits = passed_in_workers(rt, alloc, &mut switch, packets)?;
    let due = passed(alloc, &mut alone, packets)?;
    if !leave_alike(&emits, &due) {
        return Ok(false);
    }
    go_on_alike(alloc, &mut switch, &mut alone, later)
}

/// Whether a random list of packets is passed alike.
fn list_passes_alike<R: Threads + Wait + Sync>(
    rt: &R,
    alloc: Global,
    start: u64,
) -> Result<bool, Fail> {
    let mut rng = Lcg64Xsh32::seed_from_u64(start);
    let count = below(&mut rng, LONGEST + 1);
    let packets = some_packets(alloc, &mut rng, count)?;
    let later = some_packets(alloc, &mut rng, LONGEST)?;
    if packets.len() > LONGEST as usize {
        return Ok(false);
    }
    pass_alike(rt, alloc, &packets, &later)
}

/// A thousand random lists, each through the workers and through one pass after the other: the same leaves, and the
/// switch answers what comes later as if they had passed one after the other.
#[test]
fn workers_answer_as_passes(rt: HostRuntime) -> Result<(), Fail> {
    for start in 0..LISTS {
        assert!(rt; list_passes_alike(&rt, rt.alloc(), start)?);
    }
    Ok(())
}
