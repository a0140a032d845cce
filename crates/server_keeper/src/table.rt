use far_base::{Body, Key, Record};
use far_outside::KeeperFault;
use sqlite::{Connection, Error, ErrorCode, MemStore, Row, params};
use std::alloc::Global;

/// What a statement of the database came to.
fn fault_of(error: &Error) -> KeeperFault {
    match error {
        Error::SqliteFailure(ErrorCode::OutOfMemory) => KeeperFault::Memory,
        _ => KeeperFault::Failed,
    }
}

/// The number of eight bytes, the highest first.
fn number_of(bytes: &[u8]) -> Result<u64, KeeperFault> {
    match bytes {
        [a, b, c, d, e, f, g, h] => Ok(u64::from_be_bytes([*a, *b, *c, *d, *e, *f, *g, *h])),
        _ => Err(KeeperFault::Failed),
    }
}

fn number_in(row: &Row, column: usize) -> Result<u64, KeeperFault> {
    let bytes = row
        .get::<Vec<u8>>(column)
        .map_err(|error| fault_of(&error))?;
    number_of(&bytes)
}

fn body_in(row: &Row, column: usize) -> Result<Body, KeeperFault> {
    let held = row
        .get::<Option<Vec<u8>>>(column)
        .map_err(|error| fault_of(&error))?;
    match held {
        Some(bytes) => Body::from_bytes(&bytes).ok_or(KeeperFault::Failed),
        None => Ok(Body::absent()),
    }
}

fn key_in(row: &Row, column: usize) -> Result<Key, KeeperFault> {
    let bytes = row
        .get::<Vec<u8>>(column)
        .map_err(|error| fault_of(&error))?;
    Key::from_text(&bytes).ok_or(KeeperFault::Failed)
}

/// The record of a row of key, number and body.
pub(crate) fn record_in(row: &Row) -> Result<Record, KeeperFault> {
    Ok(Record {
        key: key_in(row, 0)?,
        num: number_in(row, 1)?,
        body: body_in(row, 2)?,
    })
}

/// The bytes of a body for the database, which has NULL for an absent one.
fn bytes_of(body: &Body) -> Option<&[u8]> {
    if body.is_present() {
        Some(body.text())
    } else {
        None
    }
}

/// A table of records in a database in memory. A number is eight bytes, the highest first, so that
/// the database orders numbers by their bytes. No contract tells what the database holds.
#[derive(Drop)]
pub(crate) struct Table {
    connection: Connection<MemStore>,
}

impl Table {
    /// An empty table.
    pub(crate) fn new(alloc: Global) -> Result<Self, KeeperFault> {
        let mut connection = Connection::open_in_memory(alloc)?;
        connection
            .execute_batch(
                "CREATE TABLE record (server INTEGER NOT NULL, key BLOB NOT NULL, \
                 num BLOB NOT NULL, body BLOB, PRIMARY KEY (server, key)) STRICT",
            )
            .map_err(|error| fault_of(&error))?;
        Ok(Table { connection })
    }

    /// Takes all records away.
    pub(crate) fn clear(&mut self) -> Result<(), KeeperFault> {
        match self.connection.execute("DELETE FROM record", &[]) {
            Ok(_) => Ok(()),
            Err(error) => Err(fault_of(&error)),
        }
    }

    /// The number and the body of the key at the server: 0 and an absent body where there is none.
    pub(crate) fn get(&mut self, server: u32, key: &Key) -> Result<(u64, Body), KeeperFault> {
        let rows = self
            .connection
            .query_all(
                "SELECT num, body FROM record WHERE server = ?1 AND key = ?2",
                params![server, key.text()],
            )
            .map_err(|error| fault_of(&error))?;
        match rows.first() {
            Some(row) => Ok((number_in(row, 0)?, body_in(row, 1)?)),
            None => Ok((0, Body::absent())),
        }
    }

    /// Keeps the record where its number is greater than that of its key, which is 0 where there is none.
    pub(crate) fn put(&mut self, server: u32, item: &Record) -> Result<(), KeeperFault> {
        if item.num == 0 {
            return Ok(());
        }
        let num = item.num.to_be_bytes();
        match self.connection.execute(
            "INSERT INTO record (server, key, num, body) VALUES (?1, ?2, ?3, ?4) \
             ON CONFLICT (server, key) DO UPDATE SET num = excluded.num, body = excluded.body \
             WHERE excluded.num > record.num",
            params![
                server,
                item.key.text(),
                num.as_slice(),
                bytes_of(&item.body)
            ],
        ) {
            Ok(_) => Ok(()),
            Err(error) => Err(fault_of(&error)),
        }
    }

    /// The greatest number of the server, or 0.
    pub(crate) fn top(&mut self, server: u32) -> Result<u64, KeeperFault> {
        let rows = self
            .connection
            .query_all(
                "SELECT num FROM record WHERE server = ?1 ORDER BY num DESC LIMIT 1",
                params![server],
            )
            .map_err(|error| fault_of(&error))?;
        match rows.first() {
            Some(row) => number_in(row, 0),
            None => Ok(0),
        }
    }

    /// The rows of the server, in the order of their keys.
    pub(crate) fn rows(&mut self, server: u32) -> Result<Vec<Row>, KeeperFault> {
        self.connection
            .query_all(
                "SELECT key, num, body FROM record WHERE server = ?1 ORDER BY key",
                params![server],
            )
            .map_err(|error| fault_of(&error))
    }
}
