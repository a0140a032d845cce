use crate::records::ServerRecords;
use far_base::{Key, Record};
use far_outside::{Keeper, KeeperFault};
use std::alloc::{AllocError, Global};
use std::marker::Model;

/// The servers' records in memory. No call fails. Contracts see the records of each server, one of
/// each key in the order in which the keys first came.
#[derive(Drop)]
pub struct MapKeeper {
    alloc: Global,
    servers: Vec<ServerRecords>,
}

impl Model for MapKeeper {
    ghost use Rattle.std.specs.Prelude.{List};
    ghost use Rattle.far_base.specs.declared.record.Record.{Record};

    ghost Value = { List (List Record) };

    ghost view = { λ k. k.servers.items };
}

ghost use Rattle.std.specs.Prelude.{◌≡◌, ◌<◌, ◌≤◌, max, [], Some, Ok, length, false, IfOk, OnOk, OnErr, IsOkUnless};
ghost use Rattle.std.specs.Prelude.{replicate};
ghost use Rattle.far_model.specs.Servers.{top_of};
ghost use Rattle.far_outside.specs.Keeping.{records_of, record_for, put_at};
ghost use Rattle.server_keeper.specs.Entries.{has_key};
ghost use Rattle.server_keeper.specs.Lists.{top_of_all};

fn empty_servers(alloc: Global, count: u32) -> Result<Vec<ServerRecords>, AllocError>
    ensures { IfOk result (λ servers. servers.items ≡ replicate count []) }
{
    let mut servers = Vec::with_capacity(alloc, count as usize)?;
    for _ in 0..count {
        servers.push(ServerRecords::new(alloc))?;
    }
    Ok(servers)
}

impl MapKeeper {
    /// A keeper of no servers.
    pub fn new(alloc: Global) -> Self
        ensures { result ≡ [] }
    {
        MapKeeper {
            alloc,
            servers: Vec::new(alloc),
        }
    }

    fn records_at(&self, server: u32) -> &ServerRecords
        requires { server < length self.now }
        ensures { result.now ≡ records_of self.now server }
    {
        &self.servers[server as usize]
    }
}

impl Keeper for MapKeeper {
    ghost records = { λ lists. Some lists };

    ghost fault_count = { λ _. 0 };

    ghost server_count = { λ lists. length lists };

    ghost ceiling = { λ lists. top_of_all lists };

    fn faults(&self) -> u64 {
        0
    }

    #[tactic(auto, using(crate::proofs::Tops::top_empty))]
    fn begin(&mut self, servers: u32) -> Result<(), KeeperFault> {
        self.servers = empty_servers(self.alloc, servers)?;
        Ok(())
    }

    /// The record of the key at the server. It takes no memory.
    #[tactic(auto, using(crate::proofs::Tops::get_below))]
    fn get(&mut self, server: u32, key: &Key) -> Result<Record, KeeperFault>
        requires { server < length self.old }
        ensures kept { result ≡ Ok (record_for (records_of self.old server) key.now) }
        ensures bound { IfOk result (λ r. r.num ≤ top_of_all self.old) }
        ensures same { self.new ≡ self.old }
    {
        Ok(self.records_at(server).get(key))
    }

    /// Keeps the record at the server where its number is greater. Memory is wanted only for a key
    /// that the server does not have.
    fn put(&mut self, server: u32, rec: &Record) -> Result<(), KeeperFault>
        requires { server < length self.old }
        ensures ok { OnOk result (self.new ≡ put_at server rec.now self.old) }
        ensures err { OnErr result (self.new ≡ self.old) }
        ensures absent { OnErr result (has_key (records_of self.old server) rec.now.key ≡ false) }
        ensures ceiling { OnOk result (top_of_all self.new ≡ max (top_of_all self.old) rec.now.num) }
        ensures never { IsOkUnless result KeeperFault.Memory }
    {
        self.servers[server as usize]
            .put(rec)
            .map_err(|_| KeeperFault::Memory)
    }

    /// The greatest number that the server has, or 0. It takes no memory.
    #[tactic(auto, using(crate::proofs::Tops::all_above))]
    fn top(&mut self, server: u32) -> Result<u64, KeeperFault>
        requires { server < length self.old }
        ensures top { result ≡ Ok (top_of (records_of self.old server)) }
        ensures bound { IfOk result (λ num. num ≤ top_of_all self.old) }
        ensures same { self.new ≡ self.old }
    {
        Ok(self.records_at(server).top())
    }

    #[tactic(auto, using(crate::proofs::Listed::lists_up_to))]
    fn list(&mut self, server: u32, into: &mut Vec<Record>) -> Result<(), KeeperFault> {
        let records = self.records_at(server);
        records
            .list(self.alloc, into)
            .map_err(|_| KeeperFault::Memory)
    }
}
