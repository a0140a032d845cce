use std::marker::Model;

/// What a client has told in a round: how many records it said it has, and how many messages came.
#[derive(Clone, Copy)]
pub(crate) struct Telling {
    total: Option<u32>,
    count: u32,
}

impl Model for Telling {
    ghost use Rattle.far_model.specs.Rounds.{Telling as TellingState};

    ghost Value = { TellingState };

    ghost use Rattle.recovery.specs.Counts.{IsWithin};

    ghost view = { λ t. record { total = t.total; count = t.count } };

    ghost invariant = { λ t. IsWithin t.total t.count };

    ghost inverse = { λ t. record { total = t.total; count = t.count } };
}

ghost use Rattle.std.specs.Prelude.{◌≡◌, false};
ghost use Rattle.far_model.specs.Rounds.{no_telling, has_told, tells_one};

impl Telling {
    /// Nothing was told.
    pub(crate) fn none() -> Self
        ensures { result ≡ no_telling }
    {
        Telling {
            total: None,
            count: 0,
        }
    }

    /// Whether the client has told its total: that many messages, or one where the total is 0.
    pub(crate) fn is_over(&self) -> bool
        ensures { result ≡ has_told self.now }
    {
        match self.total {
            Some(total) => total.max(1) <= self.count,
            None => false,
        }
    }

    /// One more message; the total of the first one holds.
    pub(crate) fn tell(&mut self, total: u32)
        requires { has_told self.old ≡ false }
        ensures { self.new ≡ tells_one total self.old }
    {
        if self.total.is_none() {
            self.total = Some(total);
        }
        self.count += 1;
    }
}
