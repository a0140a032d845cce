ghost use Rattle.std.specs.Prelude.{◌≡◌, ◌+◌, ◌≤◌, ◌<◌, ◌^◌, ◌++◌, ◌∷◌, [], length, IfOk, vec_len, vec_capacity};
ghost use Rattle.far_base.specs.declared.party.Party.TheVariants as party;
ghost use Rattle.far_model.specs.Controller as model;
ghost use Rattle.far_model.specs.Parties.{to_party};
ghost use Rattle.far_model.specs.Rounds.{new_round};
ghost use Rattle.far_model.specs.Rounds as rounds;
ghost use Rattle.far_model.specs.Snapshots.{part_reads, view_records};
ghost use Rattle.far_model.specs.View.{server_of};

use far_base::{Config, Memory, Out, Packet, Party, Record};
use recovery::Round;
use snapshot_core::Job;
use std::alloc::Global;

/// Appends a packet, for which there is room.
fn send(to: Party, packet: Packet, out: &mut Vec<Out>)
    requires { vec_len out.old + 1 ≤ vec_capacity out.old }
    ensures out { out.new.items ≡ out.old.items ++ to_party to packet ∷ [] }
    ensures len { vec_len out.new ≡ vec_len out.old + 1 }
    ensures capacity { vec_capacity out.new ≡ vec_capacity out.old }
{
    // The check of this function has to know the type of a packet's record.
    let _none: Option<Record> = None;
    out.push_reserved(Out { to, packet });
}

/// A packet to the switch, for which there is room.
pub(crate) fn send_to_switch(packet: Packet, out: &mut Vec<Out>)
    requires { vec_len out.old + 1 ≤ vec_capacity out.old }
    ensures { out.new.items ≡ out.old.items ++ to_party party.Switch packet ∷ [] }
{
    send(Party::Switch, packet, out);
}

/// The record to the server of its key, under the job; there is room.
pub(crate) fn send_store(config: &Config, job: u64, item: Record, out: &mut Vec<Out>)
    requires servers { 1 ≤ config.now.servers }
    requires spare { vec_len out.old + 1 ≤ vec_capacity out.old }
    ensures out { out.new.items ≡ out.old.items ++ model.store_of config.now job item ∷ [] }
    ensures len { vec_len out.new ≡ vec_len out.old + 1 }
    ensures capacity { vec_capacity out.new ≡ vec_capacity out.old }
{
    let server = item.key.byte_sum() % config.servers;
    send(Party::Server(server), Packet::Store { job, item }, out);
}

/// The packet to each client, in rising order; there is room.
pub(crate) fn send_to_clients(clients: u32, packet: &Packet, out: &mut Vec<Out>)
    requires { vec_len out.old + clients ≤ vec_capacity out.old }
    ensures out { out.new.items ≡ out.old.items ++ model.to_clients 0 clients packet.now }
    ensures len { vec_len out.new ≡ vec_len out.old + clients }
    ensures capacity { vec_capacity out.new ≡ vec_capacity out.old }
{
    for client in 0..clients {
        send(Party::Client(client), *packet, out);
    }
}

/// The packet to each server, in rising order; there is room.
pub(crate) fn send_to_servers(servers: u32, packet: &Packet, out: &mut Vec<Out>)
    requires { vec_len out.old + servers ≤ vec_capacity out.old }
    ensures out { out.new.items ≡ out.old.items ++ model.to_servers 0 servers packet.now }
    ensures len { vec_len out.new ≡ vec_len out.old + servers }
    ensures capacity { vec_capacity out.new ≡ vec_capacity out.old }
{
    for server in 0..servers {
        send(Party::Server(server), *packet, out);
    }
}

/// A read of each slot that has no part in the job, in rising order; there is room.
pub(crate) fn send_reads(epoch: u32, job: &Job, slots: u32, out: &mut Vec<Out>)
    requires slots { length job.now.parts ≡ slots }
    requires spare { vec_len out.old + slots ≤ vec_capacity out.old }
    ensures out { out.new.items ≡ out.old.items ++ part_reads epoch job.now.id 0 job.now.parts }
{
    for slot in 0..slots {
        if !job.has(slot) {
            let id = job.id();
            send(Party::Switch, Packet::SnapRead { epoch, id, slot }, out);
        }
    }
}

/// How many records of the views have a version number.
pub(crate) fn count_stores(views: &[Option<Record>]) -> u64
    ensures count { result ≡ length (model.numbered_records (view_records views.now)) }
    ensures bound { result ≤ length views.now }
{
    let mut count = 0;
    for view in views {
        if let Some(item) = view
            && item.num > 0
        {
            count += 1;
        }
    }
    count
}

/// The records of the views that have a version number, each to the server of its key, under the next jobs from
/// `first_job` on; there is room.
pub(crate) fn send_stores(
    config: &Config,
    first_job: u64,
    views: &[Option<Record>],
    out: &mut Vec<Out>,
)
    requires servers { 1 ≤ config.now.servers }
    requires jobs { first_job + length views.now < 2 ^ 64 }
    requires spare { vec_len out.old + length (model.numbered_records (view_records views.now)) ≤ vec_capacity out.old }
    ensures { out.new.items ≡ out.old.items ++ model.stores_of config.now first_job (model.numbered_records
        (view_records views.now)) }
{
    let mut job = first_job;
    for view in views {
        if let Some(item) = view
            && item.num > 0
        {
            send_store(config, job, *item, out);
            job += 1;
        }
    }
}

/// A round in which so many stores are under way.
pub(crate) fn open_round(
    alloc: Global,
    config: &Config,
    number: u32,
    first_job: u64,
    stores: u64,
) -> Result<Round, Memory>
    requires { stores < 2 ^ 32 }
    ensures { IfOk result (λ round. round ≡ new_round number first_job config.now.clients config.now.servers stores) }
{
    let mut round = Round::new(alloc, number, first_job, config.clients, config.servers)?;
    for _ in 0..stores {
        round.asked_store();
    }
    Ok(round)
}
