ghost use Rattle.std.specs.Prelude.{◌≡◌, ◌<◌, ◌≤◌, max, Some, IfOk, IfSome, OnOk, OnErr, IsErrOf};
ghost use Rattle.std.specs.Option.{option_map};
ghost use Rattle.far_model.specs.Replies.{IsReplyTo, IsWriteReply};
ghost use Rattle.far_model.specs.Servers.{server_reply, stored};
ghost use Rattle.far_outside.specs.Faults.{Rose};
ghost use Rattle.far_outside.specs.Keeping.{records_of, record_for, put_at};
ghost use Rattle.server_keeper.specs.Step.{IsForServer, after_packet, number_in, number_of_reply, reply_with};

use far_base::{Packet, Record};
use far_outside::{Keeper, KeeperFault};
use thiserror::Error;

/// Why a server could not handle a packet.
#[derive(Clone, Copy, Debug, PartialEq, Eq, Error)]
pub enum StepFault {
    /// Memory was refused.
    #[error("memory was refused")]
    Memory,
    /// A call of the keeper failed.
    #[error("the keeper failed")]
    KeeperFailed,
}

impl From<KeeperFault> for StepFault {
    ghost use Rattle.server_keeper.specs.Faults.{step_fault};

    ghost from_gives = { λ fault step. step ≡ step_fault fault };

    fn from(fault: KeeperFault) -> Self {
        match fault {
            KeeperFault::Memory => StepFault::Memory,
            KeeperFault::Failed => StepFault::KeeperFailed,
        }
    }
}

/// The reply to a write, which tells the record that the server has.
fn write_reply(caller: u32, op: u32, held: &Record) -> Packet
    ensures { result ≡ reply_with caller op held.now }
{
    Packet::WriteRep {
        caller,
        op,
        key: held.key,
        num: held.num,
        body: held.body,
    }
}

/// Keeps the record at the server where its number is greater, and answers the write with the record
/// that the server has then. The put is the last call on the keeper.
fn keep<K: Keeper>(
    keeper: &mut K,
    server: u32,
    caller: u32,
    op: u32,
    rec: &Record,
) -> Result<Packet, StepFault>
    requires { server < K.server_count keeper.old }
    ensures stored { IfOk result (λ reply. IfSome (K.records keeper.old) (λ all. reply ≡ reply_with caller op
        (record_for (stored (records_of all server) rec.now) rec.now.key))) }
    ensures kind { IfOk result (λ reply. IsWriteReply caller op rec.now.key (Some reply)) }
    ensures bound { IfOk result (λ reply. number_of_reply reply ≤ K.ceiling keeper.new) }
    ensures records { OnOk result (K.records keeper.new ≡ option_map (put_at server rec.now) (K.records keeper.old)) }
    ensures ceiling { OnOk result (K.ceiling keeper.new ≡ max (K.ceiling keeper.old) rec.now.num) }
    ensures same_records { OnErr result (K.records keeper.new ≡ K.records keeper.old) }
    ensures same_servers { K.server_count keeper.new ≡ K.server_count keeper.old }
    ensures same_ceiling { OnErr result (K.ceiling keeper.new ≡ K.ceiling keeper.old) }
    ensures unfailed { OnOk result (K.fault_count keeper.new ≡ K.fault_count keeper.old) }
    ensures later { K.fault_count keeper.old ≤ K.fault_count keeper.new }
    ensures cause { IsErrOf result StepFault.KeeperFailed → Rose (K.fault_count keeper.old) (K.fault_count keeper.new) }
{
    let held = keeper.get(server, &rec.key)?;
    keeper.put(server, rec)?;
    Ok(write_reply(caller, op, if rec.newer(&held) { rec } else { &held }))
}

/// The server handles a packet, of the kinds `GetFwd`, `WriteFwd`, `Store` and `TopAsk`, over the
/// records that the keeper has, and answers with the reply. `KeeperFailed` only where the keeper's
/// count of faults rose in this call or stands at its greatest; where it answers, no call failed. After
/// any error the records are as before.
pub fn server_step<K: Keeper>(
    keeper: &mut K,
    server: u32,
    packet: &Packet,
) -> Result<Packet, StepFault>
    requires there { server < K.server_count keeper.old }
    requires kind { IsForServer packet.now }
    ensures kind { IfOk result (λ reply. IsReplyTo server packet.now (Some reply)) }
    ensures reply { IfOk result (λ reply. IfSome (K.records keeper.old) (λ all. Some reply ≡ server_reply server
        (records_of all server) packet.now)) }
    ensures bound { IfOk result (λ reply. number_of_reply reply ≤ K.ceiling keeper.new) }
    ensures records { OnOk result (K.records keeper.new ≡ option_map (after_packet server packet.now)
        (K.records keeper.old)) }
    ensures ceiling { OnOk result (K.ceiling keeper.new ≡ max (K.ceiling keeper.old) (number_in packet.now)) }
    ensures same_records { OnErr result (K.records keeper.new ≡ K.records keeper.old) }
    ensures same_servers { K.server_count keeper.new ≡ K.server_count keeper.old }
    ensures same_ceiling { OnErr result (K.ceiling keeper.new ≡ K.ceiling keeper.old) }
    ensures unfailed { OnOk result (K.fault_count keeper.new ≡ K.fault_count keeper.old) }
    ensures later { K.fault_count keeper.old ≤ K.fault_count keeper.new }
    ensures cause { IsErrOf result StepFault.KeeperFailed → Rose (K.fault_count keeper.old) (K.fault_count keeper.new) }
{
    match packet {
        Packet::GetFwd {
            caller,
            op,
            key,
            tag,
        } => {
            let held = keeper.get(server, key)?;
            Ok(Packet::GetRep {
                caller: *caller,
                op: *op,
                key: *key,
                tag: *tag,
                num: held.num,
                body: held.body,
            })
        }
        Packet::WriteFwd {
            caller,
            op,
            key,
            num,
            body,
        } => {
            let rec = Record {
                key: *key,
                num: *num,
                body: *body,
            };
            keep(keeper, server, *caller, *op, &rec)
        }
        Packet::Store { job, item } => {
            keeper.put(server, item)?;
            Ok(Packet::Stored { job: *job })
        }
        Packet::TopAsk { round } => {
            let top = keeper.top(server)?;
            Ok(Packet::TopIs {
                round: *round,
                server,
                top,
            })
        }
        _ => unreachable!(),
    }
}
