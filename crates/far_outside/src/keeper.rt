ghost use Rattle.std.specs.Prelude.{◌≡◌, ℕ, List, [], ◌++◌, replicate, ◌<◌, ◌≤◌, max, Option, IfOk, IfSome, OnOk};
ghost use Rattle.std.specs.Prelude.{OnErr, IsErrOf};
ghost use Rattle.std.specs.Option.{option_map};
ghost use Rattle.far_base.specs.declared.record.Record.{Record};
ghost use Rattle.far_model.specs.KeyedRecords.{by_key};
ghost use Rattle.far_model.specs.Servers.{top_of};
ghost use Rattle.far_outside.specs.Faults.{Rose};
ghost use Rattle.far_outside.specs.Keeping.{records_of, record_for, put_at, ListsUpTo};

use far_base::{Key, Record};
use std::alloc::AllocError;
use thiserror::Error;

/// Why a call of a keeper did not end.
#[derive(Clone, Copy, Debug, PartialEq, Eq, Error)]
pub enum KeeperFault {
    /// Memory was refused.
    #[error("memory was refused")]
    Memory,
    /// The call failed outside of the program.
    #[error("the keeper failed")]
    Failed,
}

/// What keeps the records of the servers, which are numbered from 0. Each call fails only where the
/// count of faults rose in this call or stands at its greatest. After any error the records are as
/// before. A call that ends counts no fault. The count of faults never falls; at the greatest `u64` it
/// stays.
pub trait Keeper {
    // The records of each server, one of each key in the order in which the keys first came, where
    // the keeper tells them.
    ghost records: { Self → Option (List (List Record)) };

    ghost fault_count: { Self → ℕ };

    // The number given to the last begin that was done, or 0 before the first.
    ghost server_count: { Self → ℕ };

    // The greatest number given to a put that was done since then, or 0.
    ghost ceiling: { Self → ℕ };

    /// The count of faults.
    fn faults(&self) -> u64
        ensures { result ≡ fault_count self.now };

    /// So many servers, all without records, whatever was held before.
    fn begin(&mut self, servers: u32) -> Result<(), KeeperFault>
        ensures records { OnOk result (records self.new ≡ option_map (λ all. replicate servers []) (records self.old)) }
        ensures servers { OnOk result (server_count self.new ≡ servers) }
        ensures ceiling { OnOk result (ceiling self.new ≡ 0) }
        ensures same_records { OnErr result (records self.new ≡ records self.old) }
        ensures same_servers { OnErr result (server_count self.new ≡ server_count self.old) }
        ensures same_ceiling { OnErr result (ceiling self.new ≡ ceiling self.old) }
        ensures still { OnOk result (fault_count self.new ≡ fault_count self.old) }
        ensures later { fault_count self.old ≤ fault_count self.new }
        ensures cause { IsErrOf result KeeperFault.Failed → Rose (fault_count self.old) (fault_count self.new) };

    /// The record of the key at the server: number 0 and an absent body where there is none.
    fn get(&mut self, server: u32, key: &Key) -> Result<Record, KeeperFault>
        requires { server < server_count self.old }
        ensures kept { IfOk result (λ r. IfSome (records self.old) (λ all. r ≡ record_for
            (records_of all server) key.now)) }
        ensures key { IfOk result (λ r. r.key ≡ key.now) }
        ensures bound { IfOk result (λ r. r.num ≤ ceiling self.old) }
        ensures same_records { records self.new ≡ records self.old }
        ensures same_servers { server_count self.new ≡ server_count self.old }
        ensures same_ceiling { ceiling self.new ≡ ceiling self.old }
        ensures still { OnOk result (fault_count self.new ≡ fault_count self.old) }
        ensures later { fault_count self.old ≤ fault_count self.new }
        ensures cause { IsErrOf result KeeperFault.Failed → Rose (fault_count self.old) (fault_count self.new) };

    /// Keeps the record at the server where its number is greater than that of the kept record of its
    /// key. All other keys and servers stay.
    fn put(&mut self, server: u32, rec: &Record) -> Result<(), KeeperFault>
        requires { server < server_count self.old }
        ensures records { OnOk result (records self.new ≡ option_map (put_at server rec.now) (records self.old)) }
        ensures ceiling { OnOk result (ceiling self.new ≡ max (ceiling self.old) rec.now.num) }
        ensures same_records { OnErr result (records self.new ≡ records self.old) }
        ensures same_servers { server_count self.new ≡ server_count self.old }
        ensures same_ceiling { OnErr result (ceiling self.new ≡ ceiling self.old) }
        ensures still { OnOk result (fault_count self.new ≡ fault_count self.old) }
        ensures later { fault_count self.old ≤ fault_count self.new }
        ensures cause { IsErrOf result KeeperFault.Failed → Rose (fault_count self.old) (fault_count self.new) };

    /// The greatest number that the server has, or 0.
    fn top(&mut self, server: u32) -> Result<u64, KeeperFault>
        requires { server < server_count self.old }
        ensures top { IfOk result (λ num. IfSome (records self.old) (λ all. num ≡ top_of (records_of all server))) }
        ensures bound { IfOk result (λ num. num ≤ ceiling self.old) }
        ensures same_records { records self.new ≡ records self.old }
        ensures same_servers { server_count self.new ≡ server_count self.old }
        ensures same_ceiling { ceiling self.new ≡ ceiling self.old }
        ensures still { OnOk result (fault_count self.new ≡ fault_count self.old) }
        ensures later { fault_count self.old ≤ fault_count self.new }
        ensures cause { IsErrOf result KeeperFault.Failed → Rose (fault_count self.old) (fault_count self.new) };

    /// Appends all records of the server in the order of their keys. After an error the list is as
    /// before.
    fn list(&mut self, server: u32, into: &mut Vec<Record>) -> Result<(), KeeperFault>
        requires { server < server_count self.old }
        ensures listed { OnOk result (IfSome (records self.old) (λ all. into.new.items ≡ into.old.items ++ by_key
            (records_of all server))) }
        ensures bound { OnOk result (ListsUpTo (ceiling self.old) into.old.items into.new.items) }
        ensures none { OnErr result (into.new.items ≡ into.old.items) }
        ensures same_records { records self.new ≡ records self.old }
        ensures same_servers { server_count self.new ≡ server_count self.old }
        ensures same_ceiling { ceiling self.new ≡ ceiling self.old }
        ensures still { OnOk result (fault_count self.new ≡ fault_count self.old) }
        ensures later { fault_count self.old ≤ fault_count self.new }
        ensures cause { IsErrOf result KeeperFault.Failed → Rose (fault_count self.old) (fault_count self.new) };
}

impl From<AllocError> for KeeperFault {
    ghost use Rattle.far_outside.specs.declared.keeper.KeeperFault.TheVariants.{Memory};

    ghost from_gives = { λ _ fault. fault ≡ Memory };

    fn from(_refused: AllocError) -> Self {
        KeeperFault::Memory
    }
}
