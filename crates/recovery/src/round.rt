use crate::telling::Telling;
use far_base::Memory;
use std::alloc::Global;
use std::marker::Model;

/// One round of recovery. Contracts see the definition's round: its number, the first job that belongs to it, what
/// each client has told, how many stores are under way, whether the servers were asked, and what each answered.
#[derive(Drop)]
pub struct Round {
    number: u32,
    first_job: u64,
    tellings: Vec<Telling>,
    telling: u32,
    stores: u64,
    asked: bool,
    tops: Vec<Option<u64>>,
    topping: u32,
    top: u64,
}

impl Model for Round {
    ghost use Rattle.far_model.specs.Rounds.{Round as RoundState};

    ghost Value = { RoundState };

    ghost use Rattle.recovery.specs.Counts.{IsCounted};

    ghost view = { λ r. record {
      number = r.number;
      first_job = r.first_job;
      told = r.tellings.items;
      stores = r.stores;
      asked = r.asked;
      tops = r.tops.items;
    } };

    ghost invariant = { λ r. IsCounted r.tellings.items r.telling r.tops.items r.topping r.top };
}

ghost use Rattle.std.specs.Prelude.{◌≡◌, ◌+◌, ◌-◌, ◌<◌, ◌^◌, length, true, false, not, ◌&&◌, nat_lt, nat_le, nat_eq};
ghost use Rattle.std.specs.Prelude.{is_some, None, Some, IfOk, slice_index_or, slice_set, if◌then◌else◌};
ghost use Rattle.std.specs.List.{list_all};
ghost use Rattle.far_model.specs.Rounds as model;
ghost use Rattle.recovery.specs.Waits.{waits_told, waits_stored, waits_top};

impl Round {
    /// A round in which nothing was told, stored or asked.
    pub fn new(
        alloc: Global,
        number: u32,
        first_job: u64,
        clients: u32,
        servers: u32,
    ) -> Result<Self, Memory>
        ensures { IfOk result (λ round. round ≡ model.new_round number first_job clients servers 0) }
    {
        Ok(Round {
            number,
            first_job,
            tellings: vec![in alloc; Telling::none(); clients as usize]?,
            telling: clients,
            stores: 0,
            asked: false,
            tops: vec![in alloc; None; servers as usize]?,
            topping: servers,
            top: 0,
        })
    }

    /// The round's number.
    pub fn number(&self) -> u32
        ensures { result ≡ self.now.number }
    {
        self.number
    }

    /// One more store is under way.
    pub fn asked_store(&mut self)
        requires { self.old.stores + 1 < 2 ^ 64 }
        ensures { self.new ≡ record self.old { stores = self.old.stores + 1 } }
    {
        self.stores += 1;
    }

    /// Whether that client is there and has not told its total.
    pub fn waits_told(&self, caller: u32) -> bool
        ensures { result ≡ waits_told self.now caller }
    {
        self.tellings
            .get(caller as usize)
            .is_some_and(|telling| !telling.is_over())
    }

    /// One message of the client. The total of its first one holds, and it has told its total after that many, or
    /// after one where that is 0.
    pub fn told(&mut self, caller: u32, total: u32)
        requires { waits_told self.old caller ≡ true }
        ensures { self.new ≡ record self.old {
          told = slice_set self.old.told caller (model.tells_one total
              (model.telling_at self.old caller));
        } }
    {
        let mut telling = self.tellings[caller as usize];
        telling.tell(total);
        if telling.is_over() {
            self.telling -= 1;
        }
        self.tellings[caller as usize] = telling;
    }

    /// Whether a store is under way.
    pub fn waits_stored(&self) -> bool
        ensures { result ≡ waits_stored self.now }
    {
        self.stores > 0
    }

    /// A store was answered. One of a job before the round is ignored.
    pub fn stored(&mut self, job: u64)
        requires { waits_stored self.old ≡ true }
        ensures { self.new ≡ (if nat_le self.old.first_job job then record self.old
            { stores = self.old.stores - 1 } else self.old) }
    {
        if job >= self.first_job {
            self.stores -= 1;
        }
    }

    fn have_all_told(&self) -> bool
        ensures { result ≡ list_all model.has_told self.now.told }
    {
        self.telling == 0
    }

    fn have_all_topped(&self) -> bool
        ensures { result ≡ list_all is_some self.now.tops }
    {
        self.topping == 0
    }

    /// Whether every client has told its total and every store is answered.
    fn is_stored(&self) -> bool
        ensures { result ≡ (list_all model.has_told self.now.told && nat_eq self.now.stores 0) }
    {
        self.have_all_told() && self.stores == 0
    }

    /// Whether the servers were asked and every one has answered.
    fn is_topped(&self) -> bool
        ensures { result ≡ (self.now.asked && list_all is_some self.now.tops) }
    {
        self.asked && self.have_all_topped()
    }

    /// True exactly once: where every client has told its total, every store is answered and the servers were not
    /// asked. They are asked then.
    pub fn asks_top(&mut self) -> bool
        ensures asks { result ≡ model.asks_tops self.old }
        ensures asked { self.new ≡ (if model.asks_tops self.old then record self.old { asked = true } else self.old) }
    {
        if self.asked || !self.is_stored() {
            return false;
        }
        self.asked = true;
        true
    }

    /// Whether the servers were asked, that server is there and it has not answered.
    pub fn waits_top(&self, server: u32) -> bool
        ensures { result ≡ waits_top self.now server }
    {
        self.asked
            && self
                .tops
                .get(server as usize)
                .is_some_and(|top| top.is_none())
    }

    /// The greatest version number of the server.
    pub fn top(&mut self, server: u32, num: u64)
        requires { waits_top self.old server ≡ true }
        ensures { self.new ≡ record self.old { tops = slice_set self.old.tops server (Some num) } }
    {
        self.tops[server as usize] = Some(num);
        self.topping -= 1;
        self.top = self.top.max(num);
    }

    /// The greatest version number of all servers, exactly where every client, every store and every server has
    /// answered.
    pub fn ready(&self) -> Option<u64>
        ensures { result ≡ model.ready_counter self.now }
    {
        if self.is_topped() && self.is_stored() {
            Some(self.top)
        } else {
            None
        }
    }
}
