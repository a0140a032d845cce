//! The laws of snapshots: whatever packets, evictions and admissions come between, a completed snapshot is what all
//! slots held at the moment at which its start passed, and a release takes from a client only what is covered.
ghost use Rattle.far_invariants.specs.Numbers.{IsWritten, NumbersDiffer};
ghost use Rattle.far_model.specs.SnapshotAt.{IsSnapshotAt};
ghost use Rattle.far_model.specs.Replies.{AnswersInKind};
ghost use Rattle.std.specs.Prelude.{◌≡◌, Bool, ℕ, ◌<◌, true, IsTrue, List, [], length, Option, Some};
ghost use Rattle.far_base.specs.PlanView.{PlanView};
ghost use Rattle.far_base.specs.declared.event.Event.{Event};
ghost use Rattle.far_base.specs.declared.packet.Message.{Message};
ghost use Rattle.far_base.specs.declared.packet.Packet.TheVariants.{Release};
ghost use Rattle.far_base.specs.declared.record.Record.{Record};
ghost use Rattle.far_model.specs.Clients.{client_takes};
ghost use Rattle.far_model.specs.Events.{Keeping, client_turn, happens, happens_with, is_enabled};
ghost use Rattle.far_model.specs.Members.{Among};
ghost use Rattle.far_invariants.specs.Past.{Past, SnapshotStart, past_of, remembers};
ghost use Rattle.far_model.specs.Runs.{IsRun, run};
ghost use Rattle.far_model.specs.Snapshots.{Job};
ghost use Rattle.far_model.specs.State.{State, client_at, opening};
ghost use Rattle.far_invariants.specs.SnapshotLaws.{CompletedIsStart, CompletionIsSafe, IsOwed, JobIsServed};
ghost use Rattle.far_invariants.specs.SnapshotLaws.{LogsSnapshots, MarksMatch, NoJobWhereQuiet, PartsAreStarts};
ghost use Rattle.far_invariants.specs.SnapshotLaws.{PreservedIsAbove, ReleaseIsSafe, ReleasedIsCovered};
ghost use Rattle.far_invariants.specs.SnapshotLaws.{StartCoversPoint};
ghost use Rattle.far_invariants.specs.SnapshotNeeds.{Needs};
ghost use Rattle.far_invariants.specs.SnapshotFlights.{AreRouted, SnapshotsInFlight};
ghost use Rattle.far_invariants.specs.Snapshots.{SnapshotsStand};

/// What holds of snapshots holds at the opening, and each event leaves it, whatever the keepers answer in kind. Where
/// `tells` is false, only what does not depend on records and numbers is said and owed.
pub fn snapshots_stand()
    ensures opening { (tells : Bool) (plan : PlanView) → SnapshotsStand tells plan (opening plan) [] }
    ensures event_with { (tells : Bool) (plan : PlanView) (k : Keeping) (s : State) (p : Past) (e : Event)
        → SnapshotsStand tells plan s p.starts → Needs tells plan s → AnswersInKind s e k → IsTrue (is_enabled plan s e)
        → SnapshotsStand tells plan (happens_with plan k s e) (remembers s p e).starts }
    ensures event { (tells : Bool) (plan : PlanView) (s : State) (p : Past) (e : Event)
        → SnapshotsStand tells plan s p.starts → Needs tells plan s → IsTrue (is_enabled plan s e)
        → SnapshotsStand tells plan (happens plan s e) (remembers s p e).starts }
    ensures runs { (tells : Bool) (plan : PlanView) (events : List Event) → IsRun plan (opening plan) events
        → IsOwed tells plan (opening plan) events
        → SnapshotsStand tells plan (run plan (opening plan) events) (past_of plan events).starts }
{}

/// So does what is on its way for a snapshot: each slot whose part was taken has exactly one, on its way or held; a job
/// that is not whole has something on its way.
pub fn snapshots_in_flight()
    ensures opening { (plan : PlanView) → SnapshotsInFlight plan (opening plan) [] }
    ensures event_with { (tells : Bool) (plan : PlanView) (k : Keeping) (s : State) (p : Past) (e : Event)
        → SnapshotsStand tells plan s p.starts → SnapshotsInFlight plan s p.starts → Needs tells plan s
        → AreRouted plan s → AnswersInKind s e k → IsTrue (is_enabled plan s e)
        → SnapshotsInFlight plan (happens_with plan k s e) (remembers s p e).starts }
{}

/// A job waits for something that is on its way, and where nothing is on its way there is no job.
pub fn jobs_are_served()
    ensures served { (tells : Bool) (plan : PlanView) (s : State) (starts : List SnapshotStart) (j : Job)
        → SnapshotsStand tells plan s starts → SnapshotsInFlight plan s starts → s.running ≡ true
        → s.controller.job ≡ Some j → JobIsServed plan s starts j }
    ensures quiet { (tells : Bool) (plan : PlanView) (s : State) (starts : List SnapshotStart)
        → SnapshotsStand tells plan s starts → SnapshotsInFlight plan s starts → NoJobWhereQuiet s }
{}

/// What the last completed snapshot covers, it or the servers cover after each event, also where another snapshot is
/// completed.
pub fn covers_stay()
    ensures { (plan : PlanView) (s : State) (p : Past) (e : Event) → SnapshotsStand true plan s p.starts
        → Needs true plan s → IsTrue (is_enabled plan s e) → CompletionIsSafe plan s (happens plan s e) }
{}

/// What it says: parts are what the slots held at the start, marks match, absorbed numbers up to a point are covered.
pub fn snapshots_mean()
    ensures parts { (plan : PlanView) (s : State) (starts : List SnapshotStart) → SnapshotsStand true plan s starts
        → PartsAreStarts plan s starts }
    ensures marks { (plan : PlanView) (s : State) (starts : List SnapshotStart) → SnapshotsStand true plan s starts
        → MarksMatch plan s starts }
    ensures start { (plan : PlanView) (s : State) (starts : List SnapshotStart) → SnapshotsStand true plan s starts
        → StartCoversPoint plan s starts }
    ensures released { (plan : PlanView) (s : State) (starts : List SnapshotStart) → SnapshotsStand true plan s starts
        → ReleasedIsCovered plan s starts }
    ensures preserved { (plan : PlanView) (s : State) (starts : List SnapshotStart) → SnapshotsStand true plan s starts
        → PreservedIsAbove s }
{}

/// A completed snapshot is what all slots held, and the counter, in the state after its start was delivered; that is
/// one state for each snapshot.
pub fn completed_is_start()
    ensures completed { (plan : PlanView) (events : List Event) → IsRun plan (opening plan) events
        → SnapshotsStand true plan (run plan (opening plan) events) (past_of plan events).starts
        → CompletedIsStart plan events (run plan (opening plan) events) }
    ensures one { (plan : PlanView) (events : List Event) (id : ℕ) (views other : List (Option Record)) (point own : ℕ)
        → SnapshotsStand true plan (run plan (opening plan) events) (past_of plan events).starts
        → IsSnapshotAt plan events id views point → IsSnapshotAt plan events id other own → (views ≡ other)
        × (point ≡ own) }
{}

/// Whatever an event logs of snapshots is the snapshot that it completes, as it is kept from then on.
pub fn snapshots_are_logged()
    ensures { (plan : PlanView) (s : State) (k : Keeping) (e : Event) → LogsSnapshots s (happens_with plan k s e) }
{}

/// After a release its client preserves nothing up to the point, and what it dropped is covered.
pub fn release_is_safe()
    ensures { (plan : PlanView) (s : State) (starts : List SnapshotStart) (rest : List Message) (m : Message)
        (c point : ℕ) → SnapshotsStand true plan s starts → Among m s.bag → m.packet ≡ Release point
        → c < length s.clients
        → ReleaseIsSafe plan s
        (client_turn s c rest (client_takes plan.ops c (client_at s c) (Release point))) c point }
{}

/// Written records with one key and number have one body.
pub fn written_records_agree()
    ensures { (plan : PlanView) (s : State) (moment other : ℕ) (r q : Record) → NumbersDiffer s
        → IsWritten plan s.log moment r.key r.num r.body → IsWritten plan s.log other q.key q.num q.body → r.num ≡ q.num
        → r.body ≡ q.body }
{}
