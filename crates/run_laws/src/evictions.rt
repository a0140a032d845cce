//! Evictions, and what the cache has taken up.

ghost use Rattle.far_invariants.specs.Always.{Always};
ghost use Rattle.far_invariants.specs.Evictions.{EvictionsAreSound};
ghost use Rattle.far_invariants.specs.Known.{AbsorbedIsCached, ShownIsKnown};
ghost use Rattle.far_invariants.specs.Past.{past_of};
ghost use Rattle.far_invariants.specs.Removals.{RemovalIsStored, stores_of_run};

/// An eviction has exactly the one packet that it waits for or that leads to it. What a removal takes away and what a
/// server says that it has stored, its server has, also for evictions and rounds that were dropped. While the switch
/// runs, an absorbed number is covered by a latest slot or its server, and always whatever is shown or stored anywhere
/// is absorbed or at its server.
pub fn evictions_are_safe()
    ensures sound { Always (λ plan events s. EvictionsAreSound plan s) }
    ensures removals { Always (λ plan events s. RemovalIsStored plan (past_of plan events).drawn
        (stores_of_run plan events) s) }
    ensures cached { Always (λ plan events s. AbsorbedIsCached plan s) }
    ensures known { Always (λ plan events s. ShownIsKnown plan s) }
{}
