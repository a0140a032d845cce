use crate::map_keeper::MapKeeper;
use far_base::{Key, Record};
use far_outside::{Keeper, KeeperFault};
use std::alloc::Global;
use std::marker::Model;

/// The servers' records in memory, where listed calls fail. Contracts see the records of each server,
/// the number of calls so far, the list, and the count of faults.
#[derive(Drop)]
pub struct ScriptedKeeper {
    keeper: MapKeeper,
    calls: u64,
    fails: Vec<u64>,
    faults: u64,
}

impl Model for ScriptedKeeper {
    ghost use Rattle.server_keeper.specs.Scripted.{ScriptedRecords};

    ghost Value = { ScriptedRecords };

    ghost view = { λ k. record { lists = k.keeper; calls = k.calls; fails = k.fails.items; faults = k.faults } };
}

ghost use Rattle.std.specs.Prelude.{◌≡◌, ◌<◌, ◌≤◌, ◌++◌, [], Some, false, max, length, replicate, IfOk, OnOk, OnErr};
ghost use Rattle.std.specs.Prelude.{IsErrOf};
ghost use Rattle.far_model.specs.KeyedRecords.{by_key};
ghost use Rattle.far_model.specs.Servers.{top_of};
ghost use Rattle.far_outside.specs.Faults.{Rose};
ghost use Rattle.far_outside.specs.Keeping.{records_of, record_for, put_at, ListsUpTo};
ghost use Rattle.server_keeper.specs.Entries.{has_key};
ghost use Rattle.server_keeper.specs.Lists.{top_of_all};
ghost use Rattle.server_keeper.specs.Scripted.{HasCounted};

impl ScriptedKeeper {
    /// A keeper of no servers whose calls of these numbers fail. The calls of `begin`, `get`, `put`,
    /// `top` and `list` are counted together, from 1.
    pub fn new(alloc: Global, fails: Vec<u64>) -> Self
        ensures { result ≡ record { lists = []; calls = 0; fails = fails.items; faults = 0 } }
    {
        ScriptedKeeper {
            keeper: MapKeeper::new(alloc),
            calls: 0,
            fails,
            faults: 0,
        }
    }

    /// Counts a call, which fails where its number is listed.
    fn count_call(&mut self) -> Result<(), KeeperFault>
        ensures lists { self.new.lists ≡ self.old.lists }
        ensures counted { HasCounted self.old self.new result }
        ensures still { OnOk result (self.new.faults ≡ self.old.faults) }
        ensures later { self.old.faults ≤ self.new.faults }
        ensures cause { OnErr result (Rose self.old.faults self.new.faults) }
        ensures never { IsErrOf result KeeperFault.Memory → ⊥ }
    {
        self.calls = self.calls.saturating_add(1);
        if self.fails.contains(&self.calls) {
            self.faults = self.faults.saturating_add(1);
            return Err(KeeperFault::Failed);
        }
        Ok(())
    }
}

impl Keeper for ScriptedKeeper {
    ghost records = { λ k. Some k.lists };

    ghost fault_count = { λ k. k.faults };

    ghost server_count = { λ k. length k.lists };

    ghost ceiling = { λ k. top_of_all k.lists };

    fn faults(&self) -> u64 {
        self.faults
    }

    /// So many servers, all without records.
    fn begin(&mut self, servers: u32) -> Result<(), KeeperFault>
        ensures ok { OnOk result (self.new.lists ≡ replicate servers []) }
        ensures servers { OnOk result (length self.new.lists ≡ servers) }
        ensures ceiling { OnOk result (top_of_all self.new.lists ≡ 0) }
        ensures err { OnErr result (self.new.lists ≡ self.old.lists) }
        ensures still { OnOk result (self.new.faults ≡ self.old.faults) }
        ensures later { self.old.faults ≤ self.new.faults }
        ensures cause { IsErrOf result KeeperFault.Failed → Rose self.old.faults self.new.faults }
        ensures counted { HasCounted self.old self.new result }
    {
        self.count_call()?;
        self.keeper.begin(servers)
    }

    /// The record of the key at the server. It takes no memory.
    fn get(&mut self, server: u32, key: &Key) -> Result<Record, KeeperFault>
        requires { server < length self.old.lists }
        ensures kept { IfOk result (λ r. r ≡ record_for (records_of self.old.lists server) key.now) }
        ensures bound { IfOk result (λ r. r.num ≤ top_of_all self.old.lists) }
        ensures never { IsErrOf result KeeperFault.Memory → ⊥ }
        ensures same { self.new.lists ≡ self.old.lists }
        ensures still { OnOk result (self.new.faults ≡ self.old.faults) }
        ensures later { self.old.faults ≤ self.new.faults }
        ensures cause { IsErrOf result KeeperFault.Failed → Rose self.old.faults self.new.faults }
        ensures counted { HasCounted self.old self.new result }
    {
        self.count_call()?;
        self.keeper.get(server, key)
    }

    /// Keeps the record at the server where its number is greater. Memory is wanted only for a key
    /// that the server does not have.
    fn put(&mut self, server: u32, rec: &Record) -> Result<(), KeeperFault>
        requires { server < length self.old.lists }
        ensures ok { OnOk result (self.new.lists ≡ put_at server rec.now self.old.lists) }
        ensures ceiling { OnOk result (top_of_all self.new.lists ≡ max (top_of_all self.old.lists) rec.now.num) }
        ensures err { OnErr result (self.new.lists ≡ self.old.lists) }
        ensures absent { IsErrOf result KeeperFault.Memory → has_key (records_of self.old.lists server) rec.now.key
            ≡ false }
        ensures still { OnOk result (self.new.faults ≡ self.old.faults) }
        ensures later { self.old.faults ≤ self.new.faults }
        ensures cause { IsErrOf result KeeperFault.Failed → Rose self.old.faults self.new.faults }
        ensures counted { HasCounted self.old self.new result }
    {
        self.count_call()?;
        self.keeper.put(server, rec)
    }

    /// The greatest number that the server has, or 0. It takes no memory.
    fn top(&mut self, server: u32) -> Result<u64, KeeperFault>
        requires { server < length self.old.lists }
        ensures top { IfOk result (λ num. num ≡ top_of (records_of self.old.lists server)) }
        ensures bound { IfOk result (λ num. num ≤ top_of_all self.old.lists) }
        ensures never { IsErrOf result KeeperFault.Memory → ⊥ }
        ensures same { self.new.lists ≡ self.old.lists }
        ensures still { OnOk result (self.new.faults ≡ self.old.faults) }
        ensures later { self.old.faults ≤ self.new.faults }
        ensures cause { IsErrOf result KeeperFault.Failed → Rose self.old.faults self.new.faults }
        ensures counted { HasCounted self.old self.new result }
    {
        self.count_call()?;
        self.keeper.top(server)
    }

    /// Appends all records of the server in the order of their keys.
    fn list(&mut self, server: u32, into: &mut Vec<Record>) -> Result<(), KeeperFault>
        requires { server < length self.old.lists }
        ensures listed { OnOk result (into.new.items ≡ into.old.items ++ by_key (records_of self.old.lists server)) }
        ensures bound { OnOk result (ListsUpTo (top_of_all self.old.lists) into.old.items into.new.items) }
        ensures none { OnErr result (into.new.items ≡ into.old.items) }
        ensures same { self.new.lists ≡ self.old.lists }
        ensures still { OnOk result (self.new.faults ≡ self.old.faults) }
        ensures later { self.old.faults ≤ self.new.faults }
        ensures cause { IsErrOf result KeeperFault.Failed → Rose self.old.faults self.new.faults }
        ensures counted { HasCounted self.old self.new result }
    {
        self.count_call()?;
        self.keeper.list(server, into)
    }
}
