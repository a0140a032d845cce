ghost use Rattle.std.specs.Prelude.{◌≡◌, ◌≤◌, is_some, IfOk, IfErr, OnOk};
ghost use Rattle.far_outside.specs.Faults.{Rose};
ghost use Rattle.run_main.specs.Gone.{IsStillOrGone};
ghost use Rattle.run_main.specs.Replay.{Tells};
ghost use Rattle.run_main.specs.Saying.{IsTaskFault};
ghost use Rattle.run_main.specs.Tasks.{IsReady, MergesOnly};
ghost use Rattle.run_main.specs.Texts.{IsTextOf, SeesTask};

use crate::approving::approval;
use crate::keeping::keep;
use crate::linking::linked_text;
use crate::merging::merged_text;
use crate::running::replay;
use crate::starting::Made;
use crate::task::Task;
use far_outside::Keeper;
use std::alloc::Global;

/// Does the task, over the keeper where it makes a run.
pub(crate) fn made_of<K: Keeper + Drop>(alloc: Global, task: Task, keeper: K) -> Made<K>
    requires { IsReady task }
    ensures text { SeesTask task (K.records keeper) → IfOk result.text (λ text. IsTextOf task text.items
        (K.records result.keeper)) }
    ensures unfailed { OnOk result.text (K.fault_count result.keeper ≡ K.fault_count keeper) }
    ensures fault { IfErr result.text (IsTaskFault task (Rose (K.fault_count keeper) (K.fault_count result.keeper))) }
    ensures later { K.fault_count keeper ≤ K.fault_count result.keeper }
    ensures tells { is_some (K.records result.keeper) ≡ is_some (K.records keeper) }
    ensures gone { Tells (K.records keeper) → IsStillOrGone task (K.records keeper) (K.records result.keeper) }
    ensures same { MergesOnly task → result.keeper ≡ keeper }
{
    match task {
        Task::Run(load, account) => replay(alloc, load, account, keeper),
        Task::Keep(load) => keep(alloc, load, keeper),
        Task::Merge(image) => Made {
            text: merged_text(alloc, &image),
            keeper,
        },
        Task::Approve => Made {
            text: approval(alloc),
            keeper,
        },
        Task::Tell(script) => Made {
            text: linked_text(alloc, &script),
            keeper,
        },
    }
}
