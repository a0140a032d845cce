ghost use Rattle.std.specs.Prelude.{◌≡◌, is_some};
ghost use Rattle.far_model.specs.Choosing as choosing;

use crate::world::World;
use far_base::Party;
use far_outside::Keeper;
use switch_core::Switch;

impl<S: Switch + Drop, K: Keeper + Drop> World<S, K> {
    /// Whether an event of the party can happen.
    pub fn has_event(&self, who: Party) -> bool
        ensures { result ≡ is_some (choosing.first_event self.now.plan self.now.state who) }
    {
        self.first_event(who).is_some()
    }
}
