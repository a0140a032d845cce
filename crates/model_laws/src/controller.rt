//! What the controller sends, and when it is ready.

ghost use Rattle.std.specs.Prelude.{◌≡◌, ◌≢◌, ◌↔◌, ℕ, true, List, None, Some};
ghost use Rattle.far_base.specs.declared.packet.Out.{Out};
ghost use Rattle.far_base.specs.declared.packet.Packet.{Packet};
ghost use Rattle.far_base.specs.declared.plan.Config.{Config};
ghost use Rattle.far_model.specs.Controller.{ControllerState, controller_takes, evict_key, ready};
ghost use Rattle.far_model.specs.Controller.{start_recovery, start_snapshot, tick};
ghost use Rattle.far_model.specs.Members.{Among};
ghost use Rattle.far_model.specs.Parties.{Turn};
ghost use Rattle.model_laws.specs.Removals.{AsksNoLatestRemoval, IsUponStored, is_latest_removal};
ghost use Rattle.model_laws.specs.Rounds.{IsFromTops, IsReady};

/// The controller asks to remove a slot that is latest only upon the answer to the store of the eviction's record, and
/// then with the number of that record.
pub fn latest_slots_are_stored_first()
    ensures upon { (config : Config) (c : ControllerState) (packet : Packet) (out : Out)
        → Among out (controller_takes config c packet).out → is_latest_removal out.packet ≡ true
        → IsUponStored c packet out }
    ensures ticks { (c : ControllerState) (turn : Turn ControllerState)
        → tick c ≡ Some turn → AsksNoLatestRemoval turn.out }
    ensures evictions { (c : ControllerState) (key : List ℕ) → AsksNoLatestRemoval (evict_key key c).out }
    ensures snapshots { (c : ControllerState) → AsksNoLatestRemoval (start_snapshot c).out }
    ensures recoveries { (config : Config) (c : ControllerState) → AsksNoLatestRemoval (start_recovery config c).out }
{}

/// A round is ready exactly where every client, every store and every server has answered; the new counter is the
/// greatest number that a server told, or 0.
pub fn ready_is_all_answered()
    ensures ready { (c : ControllerState) → ready c ≢ None ↔ IsReady c }
    ensures counter { (c : ControllerState) (counter : ℕ) → ready c ≡ Some counter → IsFromTops c counter }
{}
