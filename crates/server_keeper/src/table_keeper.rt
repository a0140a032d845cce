use crate::table::{Table, record_in};
use far_base::{Key, Memory, Record};
use far_outside::{Keeper, KeeperFault};
use sqlite::Row;
use std::alloc::Global;
use std::marker::Model;

/// The servers' records in a database in memory. Contracts see whether the database is there, the
/// number of servers, the greatest number that was put, and the count of faults; they do not see the
/// records. The count rises by one at each failure of the database, and at nothing else. An answer of
/// the database that is no record, or has a number that is greater than any that was put, is such a
/// failure.
#[derive(Drop)]
pub struct TableKeeper {
    alloc: Global,
    table: Option<Table>,
    servers: u32,
    ceiling: u64,
    faults: u64,
}

impl Model for TableKeeper {
    ghost use Rattle.std.specs.Prelude.{is_some};
    ghost use Rattle.server_keeper.specs.Table.{TableView};

    ghost Value = { TableView };

    ghost view = { λ k. record {
      is_there = is_some k.table;
      servers = k.servers;
      ceiling = k.ceiling;
      faults = k.faults;
    } };
}

ghost use Rattle.std.specs.Prelude.{◌≡◌, ◌≤◌, ◌<◌, ◌⊎◌, max, None, Err, is_some, false, IfOk, OnOk, OnErr, IsErrOf};
ghost use Rattle.far_model.specs.Members.{Each};
ghost use Rattle.far_outside.specs.Faults.{Rose};
ghost use Rattle.far_outside.specs.Keeping.{ListsUpTo};
ghost use Rattle.server_keeper.specs.Table.{empty_table, no_table, faults_after, FailsWithout};

/// Counts a failure.
fn counted<T>(faults: &mut u64, answer: Result<T, KeeperFault>) -> Result<T, KeeperFault>
    ensures same { result ≡ answer }
    ensures count { faults.new ≡ faults_after answer faults.old }
    ensures still { OnOk result (faults.new ≡ faults.old) }
    ensures later { faults.old ≤ faults.new }
{
    if matches!(&answer, Err(KeeperFault::Failed)) {
        *faults = faults.saturating_add(1);
    }
    answer
}

/// Fails for a number that was never put.
fn within(num: u64, ceiling: u64) -> Result<(), KeeperFault>
    ensures { OnOk result (num ≤ ceiling) }
{
    if num > ceiling {
        return Err(KeeperFault::Failed);
    }
    Ok(())
}

fn cleared(table: &mut Option<Table>) -> Result<(), KeeperFault>
    ensures there { is_some table.new ≡ is_some table.old }
    ensures none { is_some table.old ≡ false → result ≡ Err KeeperFault.Failed }
{
    match table {
        Some(table) => table.clear(),
        None => Err(KeeperFault::Failed),
    }
}

fn got(
    table: &mut Option<Table>,
    ceiling: u64,
    server: u32,
    key: &Key,
) -> Result<Record, KeeperFault>
    ensures key { IfOk result (λ r. r.key ≡ key.now) }
    ensures bound { IfOk result (λ r. r.num ≤ ceiling) }
    ensures there { is_some table.new ≡ is_some table.old }
    ensures none { is_some table.old ≡ false → result ≡ Err KeeperFault.Failed }
{
    let Some(table) = table else {
        return Err(KeeperFault::Failed);
    };
    let (num, body) = table.get(server, key)?;
    within(num, ceiling)?;
    Ok(Record {
        key: *key,
        num,
        body,
    })
}

fn kept(table: &mut Option<Table>, server: u32, item: &Record) -> Result<(), KeeperFault>
    ensures there { is_some table.new ≡ is_some table.old }
    ensures none { is_some table.old ≡ false → result ≡ Err KeeperFault.Failed }
{
    match table {
        Some(table) => table.put(server, item),
        None => Err(KeeperFault::Failed),
    }
}

fn greatest(table: &mut Option<Table>, ceiling: u64, server: u32) -> Result<u64, KeeperFault>
    ensures bound { IfOk result (λ num. num ≤ ceiling) }
    ensures there { is_some table.new ≡ is_some table.old }
    ensures none { is_some table.old ≡ false → result ≡ Err KeeperFault.Failed }
{
    let Some(table) = table else {
        return Err(KeeperFault::Failed);
    };
    let num = table.top(server)?;
    within(num, ceiling)?;
    Ok(num)
}

/// The records of the rows, as far as no number is above the ceiling.
fn records_of(alloc: Global, ceiling: u64, rows: &[Row]) -> Result<Vec<Record>, KeeperFault>
    ensures { IfOk result (λ records. Each (λ r. r.num ≤ ceiling) records.items) }
{
    let mut records = Vec::new(alloc);
    for row in rows {
        let record = record_in(row)?;
        within(record.num, ceiling)?;
        records.push(record).map_err(|_| KeeperFault::Memory)?;
    }
    Ok(records)
}

fn listed(
    alloc: Global,
    table: &mut Option<Table>,
    ceiling: u64,
    server: u32,
    into: &mut Vec<Record>,
) -> Result<(), KeeperFault>
    ensures bound { OnOk result (ListsUpTo ceiling into.old.items into.new.items) }
    ensures kept { OnErr result (into.new.items ≡ into.old.items) }
    ensures there { is_some table.new ≡ is_some table.old }
    ensures none { is_some table.old ≡ false → result ≡ Err KeeperFault.Failed }
{
    let Some(table) = table else {
        return Err(KeeperFault::Failed);
    };
    let records = records_of(alloc, ceiling, &table.rows(server)?)?;
    into.extend_from_slice(&records)?;
    Ok(())
}

impl TableKeeper {
    /// A keeper of no servers over a new database. Where the database could not be made for another
    /// cause than memory, its count of faults is 1, and each call fails.
    pub fn new(alloc: Global) -> Result<Self, Memory>
        ensures { IfOk result (λ k. (k ≡ empty_table) ⊎ (k ≡ no_table)) }
    {
        let (table, faults) = match Table::new(alloc) {
            Ok(table) => (Some(table), 0),
            Err(KeeperFault::Failed) => (None, 1),
            Err(KeeperFault::Memory) => return Err(Memory),
        };
        Ok(TableKeeper {
            alloc,
            table,
            servers: 0,
            ceiling: 0,
            faults,
        })
    }
}

impl Keeper for TableKeeper {
    ghost records = { λ _. None };

    ghost fault_count = { λ k. k.faults };

    ghost server_count = { λ k. k.servers };

    ghost ceiling = { λ k. k.ceiling };

    fn faults(&self) -> u64 {
        self.faults
    }

    fn begin(&mut self, servers: u32) -> Result<(), KeeperFault>
        ensures ok { OnOk result (self.new ≡ record self.old { servers = servers; ceiling = 0 }) }
        ensures err { OnErr result (self.new ≡ record self.old { faults = self.new.faults }) }
        ensures count { self.new.faults ≡ faults_after result self.old.faults }
        ensures still { OnOk result (self.new.faults ≡ self.old.faults) }
        ensures later { self.old.faults ≤ self.new.faults }
        ensures none { FailsWithout self.old result }
    {
        counted(&mut self.faults, cleared(&mut self.table))?;
        self.servers = servers;
        self.ceiling = 0;
        Ok(())
    }

    fn get(&mut self, server: u32, key: &Key) -> Result<Record, KeeperFault>
        requires { server < self.old.servers }
        ensures key { IfOk result (λ r. r.key ≡ key.now) }
        ensures bound { IfOk result (λ r. r.num ≤ self.old.ceiling) }
        ensures same { self.new ≡ record self.old { faults = self.new.faults } }
        ensures count { self.new.faults ≡ faults_after result self.old.faults }
        ensures still { OnOk result (self.new.faults ≡ self.old.faults) }
        ensures later { self.old.faults ≤ self.new.faults }
        ensures none { FailsWithout self.old result }
    {
        let answer = got(&mut self.table, self.ceiling, server, key);
        counted(&mut self.faults, answer)
    }

    fn put(&mut self, server: u32, rec: &Record) -> Result<(), KeeperFault>
        requires { server < self.old.servers }
        ensures ok { OnOk result (self.new ≡ record self.old { ceiling = max self.old.ceiling rec.now.num }) }
        ensures err { OnErr result (self.new ≡ record self.old { faults = self.new.faults }) }
        ensures count { self.new.faults ≡ faults_after result self.old.faults }
        ensures still { OnOk result (self.new.faults ≡ self.old.faults) }
        ensures later { self.old.faults ≤ self.new.faults }
        ensures none { FailsWithout self.old result }
    {
        counted(&mut self.faults, kept(&mut self.table, server, rec))?;
        self.ceiling = self.ceiling.max(rec.num);
        Ok(())
    }

    fn top(&mut self, server: u32) -> Result<u64, KeeperFault>
        requires { server < self.old.servers }
        ensures bound { IfOk result (λ num. num ≤ self.old.ceiling) }
        ensures same { self.new ≡ record self.old { faults = self.new.faults } }
        ensures count { self.new.faults ≡ faults_after result self.old.faults }
        ensures still { OnOk result (self.new.faults ≡ self.old.faults) }
        ensures later { self.old.faults ≤ self.new.faults }
        ensures none { FailsWithout self.old result }
    {
        let answer = greatest(&mut self.table, self.ceiling, server);
        counted(&mut self.faults, answer)
    }

    fn list(&mut self, server: u32, into: &mut Vec<Record>) -> Result<(), KeeperFault>
        requires { server < self.old.servers }
        ensures bound { OnOk result (ListsUpTo self.old.ceiling into.old.items into.new.items) }
        ensures unlisted { OnErr result (into.new.items ≡ into.old.items) }
        ensures same { self.new ≡ record self.old { faults = self.new.faults } }
        ensures count { self.new.faults ≡ faults_after result self.old.faults }
        ensures still { OnOk result (self.new.faults ≡ self.old.faults) }
        ensures later { self.old.faults ≤ self.new.faults }
        ensures none { FailsWithout self.old result }
    {
        let answer = listed(self.alloc, &mut self.table, self.ceiling, server, into);
        counted(&mut self.faults, answer)
    }
}
