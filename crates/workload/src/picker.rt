use crate::load::Workload;
use rand_core::SeedableRng;
use rand_core::utils::NextWord;
use rand_pcg::Lcg64Xsh32;
use std::marker::Model;

/// Where the choice of events stands: how many of the listed picks were taken, and the generator
/// of the draws behind them.
#[derive(Drop)]
pub struct Picker {
    place: usize,
    rng: Option<Lcg64Xsh32>,
}

impl Model for Picker {
    ghost use Rattle.workload.specs.Picks.{Picking};

    ghost Value = { Picking };

    ghost view = { λ p. record { place = p.place; rng = p.rng } };
}

ghost use Rattle.std.specs.Prelude.{◌≡◌};
ghost use Rattle.workload.specs.Picks.{generator_by, first_picking, next_pick};

#[tactic(auto, unfolding(crate::specs::Draws::seeded))]
fn generator(start: Option<u64>) -> Option<Lcg64Xsh32>
    ensures { result ≡ generator_by start }
{
    match start {
        Some(start) => Some(Lcg64Xsh32::seed_from_u64(start)),
        None => None,
    }
}

impl Picker {
    /// A picker before its first pick.
    pub fn new(load: &Workload) -> Self
        ensures { result ≡ first_picking load.now }
    {
        Picker {
            place: 0,
            rng: generator(load.random),
        }
    }

    /// The next pick: the listed ones in their order, then draws, or 0 where the workload has no
    /// `random`.
    #[tactic(auto, unfolding(crate::specs::Picks::next_pick))]
    pub fn next(&mut self, load: &Workload) -> u64
        ensures pick { result ≡ (next_pick load.now.picks self.old).0 }
        ensures rest { self.new ≡ (next_pick load.now.picks self.old).1 }
    {
        if self.place < load.picks.len() {
            let pick = load.picks[self.place];
            self.place += 1;
            return pick;
        }
        match &mut self.rng {
            None => 0,
            Some(rng) => u64::from(rng.next_word()),
        }
    }
}
