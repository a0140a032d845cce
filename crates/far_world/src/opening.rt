ghost use Rattle.std.specs.Prelude.{◌≡◌, ◌≤◌, [], IfOk, IfErr, OnOk, OnErr, IsErrOf, length, replicate};
ghost use Rattle.std.specs.Option.{option_map};
ghost use Rattle.far_base.specs.Limits.{IsPlan};
ghost use Rattle.far_base.specs.declared.plan.TheConstants.{OP_LIMIT};
ghost use Rattle.far_model.specs.View.{opening_view};
ghost use Rattle.far_outside.specs.Faults.{Rose};
ghost use Rattle.far_world.specs.Ready.{IsOpened};
ghost use Rattle.far_world.specs.Scene.{keeper_of};
ghost use Rattle.far_world.specs.Seats.{opening_seats};

use crate::bag::Bag;
use crate::choice::count_senders;
use crate::parties::Parties;
use crate::seat::{Seat, config_of, ops_of, senders_of};
use crate::turn::Turn;
use crate::world::Halted;
use controller_core::Controller;
use far_base::{Memory, Plan};
use far_history::Log;
use far_outside::Keeper;
use server_keeper::StepFault;
use std::alloc::Global;
use switch_core::Switch;

/// Clients that have sent nothing.
#[tactic(auto, using(crate::proofs::Opened::seats_more, crate::proofs::Opened::fresh_is_opening, crate::proofs::Opened::senders_count))]
fn opening_clients(alloc: Global, plan: &Plan) -> Result<Vec<Seat>, Memory>
    requires { length plan.now.ops ≤ OP_LIMIT }
    ensures { IfOk result (λ seats. seats.items ≡ opening_seats plan.now.ops 0 plan.now.config.clients) }
{
    let senders = senders_of(alloc, ops_of(plan))?;
    let mut seats = Vec::new(alloc);
    for number in 0..config_of(plan).clients {
        let seat = Seat::new(alloc, &senders, number)?;
        seats.push(seat).map_err(|_| Memory)?;
    }
    Ok(seats)
}

/// The keeper begins with so many servers, all without records. After an error its records are as before.
fn begin<K: Keeper>(keeper: &mut K, servers: u32) -> Result<(), StepFault>
    ensures records { OnOk result (K.records keeper.new ≡ option_map (λ all. replicate servers [])
        (K.records keeper.old)) }
    ensures servers { OnOk result (K.server_count keeper.new ≡ servers) }
    ensures ceiling { OnOk result (K.ceiling keeper.new ≡ 0) }
    ensures same_records { OnErr result (K.records keeper.new ≡ K.records keeper.old) }
    ensures same_servers { OnErr result (K.server_count keeper.new ≡ K.server_count keeper.old) }
    ensures same_ceiling { OnErr result (K.ceiling keeper.new ≡ K.ceiling keeper.old) }
    ensures unfailed { OnOk result (K.fault_count keeper.new ≡ K.fault_count keeper.old) }
    ensures later { K.fault_count keeper.old ≤ K.fault_count keeper.new }
    ensures cause { IsErrOf result StepFault.KeeperFailed → Rose (K.fault_count keeper.old) (K.fault_count keeper.new) }
{
    keeper.begin(servers)?;
    Ok(())
}

impl<S: Switch + Drop, K: Keeper + Drop> Parties<S, K> {
    /// The parties of the plan, of which none has done anything yet. The keeper begins with the plan's
    /// servers, all without records: this is the last call that can be refused.
    pub(crate) fn opened(
        alloc: Global,
        plan: Plan,
        switch: S,
        keeper: K,
    ) -> Result<Parties<S, K>, Halted<S, K>>
        requires valid { IsPlan plan }
        requires view { S.seen switch ≡ opening_view plan.config 1 0 }
        ensures ok { IfOk result (λ parties. IsOpened plan (keeper_of (K.records keeper) (K.server_count keeper)
            (K.ceiling keeper) (K.fault_count keeper)) parties) }
        ensures unfailed { IfOk result (λ parties. parties.keeper.faults ≡ K.fault_count keeper) }
        ensures err_plan { IfErr result (λ halted. halted.plan ≡ plan) }
        ensures err_switch { IfErr result (λ halted. halted.switch ≡ switch) }
        ensures err_records { IfErr result (λ halted. K.records halted.keeper ≡ K.records keeper) }
        ensures err_servers { IfErr result (λ halted. K.server_count halted.keeper ≡ K.server_count keeper) }
        ensures err_ceiling { IfErr result (λ halted. K.ceiling halted.keeper ≡ K.ceiling keeper) }
        ensures err_later { IfErr result (λ halted. K.fault_count keeper ≤ K.fault_count halted.keeper) }
        ensures err_cause { IfErr result (λ halted. halted.cause ≡ StepFault.KeeperFailed → Rose
            (K.fault_count keeper) (K.fault_count halted.keeper)) }
    {
        let mut keeper = keeper;
        let cause = StepFault::Memory;
        let config = config_of(&plan);
        let clients = match opening_clients(alloc, &plan) {
            Ok(clients) => clients,
            Err(_) => return Err(Halted {
                cause,
                plan,
                switch,
                keeper,
            }),
        };
        let controller = match Controller::new(alloc, config) {
            Ok(controller) => controller,
            Err(_) => return Err(Halted {
                cause,
                plan,
                switch,
                keeper,
            }),
        };
        if let Err(cause) = begin(&mut keeper, config.servers) {
            return Err(Halted {
                cause,
                plan,
                switch,
                keeper,
            });
        }
        let senders = count_senders(&clients);
        Ok(Parties {
            plan,
            switch,
            running: true,
            clients,
            senders,
            controller,
            can_tick: false,
            keeper,
            bag: Bag::new(alloc),
            passes: [0; 9],
            done: 0,
            log: Log::new(alloc),
            turn: Turn::new(alloc),
            alloc,
        })
    }
}
