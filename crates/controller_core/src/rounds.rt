ghost use Rattle.std.specs.Prelude.{◌≡◌, ◌+◌, ◌-◌, ◌≤◌, ◌<◌, ◌^◌, ◌++◌, ◌∷◌, [], true, false, Some, IfOk, OnOk, OnErr};
ghost use Rattle.std.specs.Prelude.{is_some, length, vec_len, vec_capacity};
ghost use Rattle.far_model.specs.Controller as model;
ghost use Rattle.controller_core.specs.ControllerView.{at_state};
ghost use Rattle.controller_core.specs.Notes.{notes_of};
ghost use Rattle.far_base.specs.declared.plan.TheConstants.{SLOT_LIMIT};

use crate::controller::Controller;
use crate::note::Note;
use crate::sending::{
    count_stores, open_round, send_store, send_stores, send_to_clients, send_to_servers,
    send_to_switch,
};
use far_base::{Config, Memory, Out, Packet, Record};
use recovery::Round;

/// The record that a client told, where there is one, is stored under the job, and the round waits for it. The answer
/// is how many jobs were drawn.
fn send_told(
    config: &Config,
    job: u64,
    item: Option<Record>,
    round: &mut Round,
    out: &mut Vec<Out>,
) -> u64
    requires servers { 1 ≤ config.now.servers }
    requires stores { round.old.stores + 1 < 2 ^ 64 }
    requires spare { vec_len out.old + 1 ≤ vec_capacity out.old }
    ensures drawn { result ≡ length (model.store_outs config.now job item) }
    ensures few { result ≤ 1 }
    ensures round { round.new ≡ record round.old {
      stores = round.old.stores + length
          (model.store_outs config.now job item);
    } }
    ensures out { out.new.items ≡ out.old.items ++ model.store_outs config.now job item }
    ensures len { vec_len out.new ≤ vec_len out.old + 1 }
    ensures capacity { vec_capacity out.new ≡ vec_capacity out.old }
{
    match item {
        Some(item) => {
            round.asked_store();
            send_store(config, job, item, out);
            1
        }
        None => 0,
    }
}

impl Controller {
    /// Recovery begins, once the switch has lost its memory: all that concerned that memory is dropped, every client
    /// is asked what it preserves, and the records of the last completed snapshot are stored at their servers. No
    /// round is under way.
    pub fn start_recovery(&mut self, out: &mut Vec<Out>) -> Result<(), Memory>
        requires round { is_some self.old.state.round ≡ false }
        requires number { self.old.state.next_round + 1 < 2 ^ 32 }
        requires jobs { self.old.state.next_job + SLOT_LIMIT < 2 ^ 64 }
        ensures state { OnOk result (self.new ≡ at_state self.old
            (model.start_recovery self.old.config self.old.state).state) }
        ensures out { OnOk result (out.new.items ≡ out.old.items ++
            (model.start_recovery self.old.config self.old.state).out) }
        ensures err { OnErr result (self.new ≡ self.old) }
        ensures err_out { OnErr result (out.new.items ≡ out.old.items) }
    {
        let stores = self.count_stores();
        out.reserve(self.config.clients as usize + stores as usize)?;
        let round = open_round(
            self.alloc,
            &self.config,
            self.next_round,
            self.next_job,
            stores,
        )?;
        let number = self.next_round;
        send_to_clients(self.config.clients, &Packet::Ask { round: number }, out);
        let last = &self.last;
        send_stores(&self.config, self.next_job, &last.views, out);
        self.admission.clear();
        self.wants.clear();
        self.eviction = None;
        self.job = None;
        self.round = Some(round);
        self.next_job += stores;
        self.next_round += 1;
        Ok(())
    }

    /// How many records a recovery stores of the last completed snapshot.
    fn count_stores(&self) -> u64
        ensures count { result ≡ length (model.snapshot_stores self.now.state) }
        ensures bound { result ≤ length self.now.state.last.views }
    {
        let last = &self.last;
        count_stores(&last.views)
    }

    /// The round goes on: the servers are asked once all is told and stored.
    fn ask_tops(&mut self, mut round: Round, out: &mut Vec<Out>)
        requires stores { round.stores ≤ self.old.state.next_job }
        requires spare { vec_len out.old + self.old.config.servers ≤ vec_capacity out.old }
        ensures state { self.new ≡ at_state self.old (model.round_turn self.old.config self.old.state round []).state }
        ensures out { out.new.items ≡ out.old.items ++ (model.round_turn self.old.config self.old.state round []).out }
    {
        let number = round.number();
        if round.asks_top() {
            self.round = Some(round);
            send_to_servers(self.config.servers, &Packet::TopAsk { round: number }, out);
        } else {
            self.round = Some(round);
        }
    }

    /// A message of a client that tells what it preserves.
    #[tactic(auto, using(crate::proofs::Telling::told_state, crate::proofs::Telling::told_out))]
    pub(crate) fn client_told(
        &mut self,
        number: u32,
        caller: u32,
        total: u32,
        item: Option<Record>,
        out: &mut Vec<Out>,
    ) -> Result<(), Memory>
        requires room { self.old.state.next_job + 1 < 2 ^ 64 }
        ensures state { OnOk result (self.new ≡ at_state self.old
            (model.client_told self.old.config self.old.state number caller total item self.old.state.round).state) }
        ensures out { OnOk result (out.new.items ≡ out.old.items ++
            (model.client_told self.old.config self.old.state number caller total item self.old.state.round).out) }
        ensures err { OnErr result (self.new ≡ self.old) }
        ensures err_out { OnErr result (out.new.items ≡ out.old.items) }
    {
        out.reserve(1 + self.config.servers as usize)?;
        let Some(mut round) = self.round.take() else {
            return Ok(());
        };
        if round.number() == number && round.waits_told(caller) {
            round.told(caller, total);
            let drawn = send_told(&self.config, self.next_job, item, &mut round, out);
            self.next_job += drawn;
            self.ask_tops(round, out);
            return Ok(());
        }
        self.round = Some(round);
        Ok(())
    }

    /// The answer to a store, of the eviction or of the round.
    pub(crate) fn store_answered(&mut self, job: u64, out: &mut Vec<Out>) -> Result<(), Memory>
        ensures state { OnOk result (self.new ≡ at_state self.old
            (model.store_answered self.old.config self.old.state job self.old.state.eviction).state) }
        ensures out { OnOk result (out.new.items ≡ out.old.items ++
            (model.store_answered self.old.config self.old.state job self.old.state.eviction).out) }
        ensures err { OnErr result (self.new ≡ self.old) }
        ensures err_out { OnErr result (out.new.items ≡ out.old.items) }
    {
        out.reserve(1 + self.config.servers as usize)?;
        let Some(mut eviction) = self.eviction.take() else {
            self.round_stored(job, out);
            return Ok(());
        };
        let removal = eviction.store_came(job);
        self.eviction = Some(eviction);
        match removal {
            Some(packet) => send_to_switch(packet, out),
            None => self.round_stored(job, out),
        }
        Ok(())
    }

    /// The answer to a store of the round.
    #[tactic(auto, using(crate::proofs::Telling::stored_is))]
    fn round_stored(&mut self, job: u64, out: &mut Vec<Out>)
        requires spare { vec_len out.old + self.old.config.servers ≤ vec_capacity out.old }
        ensures state { self.new ≡ at_state self.old
            (model.round_stored self.old.config self.old.state job self.old.state.round).state }
        ensures out { out.new.items ≡ out.old.items ++
            (model.round_stored self.old.config self.old.state job self.old.state.round).out }
    {
        let Some(mut round) = self.round.take() else {
            return;
        };
        if job < self.next_job && round.waits_stored() {
            round.stored(job);
            self.ask_tops(round, out);
        } else {
            self.round = Some(round);
        }
    }

    /// The greatest version number of a server.
    pub(crate) fn top_told(&mut self, number: u32, server: u32, top: u64)
        ensures state { self.new ≡ at_state self.old
            (model.top_told self.old.config self.old.state number server top self.old.state.round).state }
        ensures out { (model.top_told self.old.config self.old.state number server top self.old.state.round).out ≡ [] }
    {
        let Some(mut round) = self.round.take() else {
            return;
        };
        if round.number() == number && round.waits_top(server) {
            round.top(server, top);
        }
        self.round = Some(round);
    }
}
