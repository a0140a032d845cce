//! What outlives a stop, and what a recovery restores.

ghost use Rattle.std.specs.Prelude.{◌≡◌, ◌≢◌, ℕ, ◌<◌, true, List, ◌∷◌, ◌++◌, Some, slice_get};
ghost use Rattle.far_base.specs.Limits.{IsPlan};
ghost use Rattle.far_base.specs.PlanView.{PlanView};
ghost use Rattle.far_base.specs.declared.event.Event.{Event};
ghost use Rattle.far_base.specs.declared.event.Event.TheVariants.{Deliver, Recover, Restart};
ghost use Rattle.far_base.specs.declared.packet.Message.{Message};
ghost use Rattle.far_base.specs.declared.packet.Packet.TheVariants.{Release};
ghost use Rattle.far_base.specs.declared.party.Party.TheVariants.{Client};
ghost use Rattle.far_base.specs.declared.record.Record.{Record};
ghost use Rattle.far_model.specs.Blocks.{recovered_blocks};
ghost use Rattle.far_model.specs.Events.{happens, is_enabled};
ghost use Rattle.far_model.specs.Members.{Among, Each};
ghost use Rattle.far_model.specs.Rounds.{Round};
ghost use Rattle.far_model.specs.Runs.{IsRun, is_quiet, run};
ghost use Rattle.far_model.specs.State.{client_at, opening};
ghost use Rattle.far_invariants.specs.Always.{Always};
ghost use Rattle.far_invariants.specs.Covers.{IsAbsorbed, IsWriteMarkedNear};
ghost use Rattle.far_invariants.specs.Past.{past_of};
ghost use Rattle.far_invariants.specs.Recoveries.{BlocksAreRestarts, RecoversAfter, recovered_last};
ghost use Rattle.far_invariants.specs.Restarts.{IsRestored};
ghost use Rattle.far_invariants.specs.RoundFlights.{RoundInFlight};
ghost use Rattle.far_invariants.specs.Stops.{AbsorbedIsKept, Stops};
ghost use Rattle.run_laws.specs.RestartBlocks.{BeginsWithRecovery, restart_blocks};

/// An absorbed number is covered by its server, the last completed snapshot, a preserved record or a kept answer on its
/// way; and during a round of recovery whatever is to be restored is at its server or on its way there.
pub fn absorbed_is_kept()
    ensures absorbed { Always (λ plan events s. AbsorbedIsKept plan s) }
    ensures stops { Always (λ plan events s. Stops plan (recovered_last (past_of plan events)) s) }
{}

/// A write is absorbed exactly where some answer to it left the switch as its own: such an answer has the write's own
/// number.
pub fn absorbed_is_marked_near()
    ensures marked { Always (λ plan events s. (key : List ℕ) (num : ℕ) → IsWriteMarkedNear plan s.log key num
        → IsAbsorbed plan s.log key num) }
    ensures absorbed { Always (λ plan events s. (key : List ℕ) (num : ℕ) → IsAbsorbed plan s.log key num
        → IsWriteMarkedNear plan s.log key num) }
{}

/// At each restart the servers have, per key, the newest record of the kept list of the state in which the recovery
/// began, no older than any answer before, and the new counter is at least every number of a write. So it is for each
/// block of a restart in the log.
pub fn restarts_restore()
    ensures restored { Always (λ plan events s. is_enabled plan s Restart ≡ true
        → IsRestored plan (recovered_last (past_of plan events)) s (happens plan s Restart)) }
    ensures blocks { Always (λ plan events s. BlocksAreRestarts plan events s) }
    ensures begun { Always (λ plan events s. is_enabled plan s Restart ≡ true → (before : List Event)
        × RecoversAfter events before) }
{}

/// The log tells of each restart of the run by one block, in their order.
pub fn restarts_are_told()
    ensures { Always (λ plan events s. recovered_blocks s.log ≡ restart_blocks plan (opening plan) events) }
{}

/// Where a recovery has begun and nothing can happen any more, the log tells of a restart; and the first that it tells
/// of left the newest of what was kept when the first recovery began.
pub fn first_restart_restores()
    ensures { (plan : PlanView) (before after : List Event) → IsPlan plan
        → IsRun plan (opening plan) (before ++ Recover ∷ after) → Each (λ (e : Event). e ≢ Recover) before
        → is_quiet plan (run plan (opening plan) (before ++ Recover ∷ after)) ≡ true
        → BeginsWithRecovery (run plan (opening plan) before)
        (run plan (opening plan) (before ++ Recover ∷ after)).log }
{}

/// A round is under way only while the switch is stopped, and all that it waits for is on its way.
pub fn rounds_are_served()
    ensures { Always (λ plan events s. (round : Round) → s.controller.round ≡ Some round → RoundInFlight plan s round) }
{}

/// After a release was delivered its client preserves nothing up to the point.
pub fn releases_are_safe()
    ensures dropped { Always (λ plan events s. (i client point : ℕ) (m : Message) → slice_get s.bag i ≡ Some m
        → m.packet ≡ Release point → m.to ≡ Client client → (item : Record)
        → Among item (client_at (happens plan s (Deliver i)) client).preserved → point < item.num) }
    ensures above { Always (λ plan events s. (client : ℕ) (item : Record) → Among item (client_at s client).preserved
        → (client_at s client).released < item.num) }
{}
