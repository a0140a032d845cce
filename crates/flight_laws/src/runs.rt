//! What holds in every state of every run of every valid plan, whatever the keepers answer in kind and not above their
//! ceiling.

ghost use Rattle.std.specs.Prelude.{◌≡◌, suc, ◌≤◌, true, List};
ghost use Rattle.far_base.specs.PlanView.{PlanView};
ghost use Rattle.far_base.specs.declared.event.Event.{Event};
ghost use Rattle.far_model.specs.Answered.{AllAnswered};
ghost use Rattle.far_invariants.specs.Logged.{OperationsAreLogged};
ghost use Rattle.far_model.specs.Events.{Keeping, happens_with, is_enabled};
ghost use Rattle.far_model.specs.Replies.{AnswersInKind, IsRunWith, kept_events, run_with};
ghost use Rattle.far_model.specs.Runs.{IsRun, is_finished, is_quiet, run};
ghost use Rattle.far_model.specs.State.{opening};
ghost use Rattle.far_model.specs.Work.{work_left};
ghost use Rattle.far_invariants.specs.Addressed.{AreAddressed};
ghost use Rattle.far_invariants.specs.Always.{AlwaysWith};
ghost use Rattle.far_invariants.specs.DrawnNumbers.{NumbersAreDrawn};
ghost use Rattle.far_invariants.specs.Room.{HasRoom};
ghost use Rattle.far_invariants.specs.Sound.{IsSound};

/// A run in which the keepers answer by the rule of a server is one of these.
pub fn runs_are_kept_runs()
    ensures run { (plan : PlanView) (events : List Event) → IsRun plan (opening plan) events
        → IsRunWith plan 0 (opening plan) (kept_events plan (opening plan) events) }
    ensures state { (plan : PlanView) (events : List Event)
        → run_with plan (opening plan) (kept_events plan (opening plan) events) ≡ run plan (opening plan) events }
{}

/// Everything that is under way has its packets on their way, and every message comes to a party that takes it.
pub fn runs_are_sound()
    ensures sound { AlwaysWith (λ plan ceiling s. IsSound plan s) }
    ensures addressed { AlwaysWith (λ plan ceiling s. AreAddressed plan s) }
{}

/// No number that a run holds is above the count of the numbers drawn; and what a run draws and sends has room.
pub fn runs_have_room()
    ensures drawn { AlwaysWith (λ plan ceiling s. NumbersAreDrawn ceiling s) }
    ensures room { AlwaysWith (λ plan ceiling s. HasRoom plan ceiling s) }
{}

/// Moments do not fall, each client sends and waits for its own operations, and each operation of the plan was sent
/// or is left to send, and was answered or is waited for; so where everything is done, every operation is answered.
pub fn runs_are_logged()
    ensures logged { AlwaysWith (λ plan ceiling s. OperationsAreLogged plan s) }
    ensures answered { AlwaysWith (λ plan ceiling s. is_finished plan s ≡ true → AllAnswered plan s) }
{}

/// Each event lowers the work that is left, and nothing can happen exactly where everything is done.
pub fn runs_end()
    ensures lowers { AlwaysWith (λ plan ceiling s. (e : Event) (k : Keeping) → AnswersInKind s e k
        → is_enabled plan s e ≡ true → suc (work_left plan (happens_with plan k s e)) ≤ work_left plan s) }
    ensures quiet { AlwaysWith (λ plan ceiling s. is_quiet plan s ≡ is_finished plan s) }
{}
