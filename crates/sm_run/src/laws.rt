//! How what a stop may show grows by one step of a run.

ghost use Rattle.std.specs.Prelude.{◌≡◌, ◌⊎◌, ◌∷◌, [], ◌++◌, List, map, true, false};
ghost use Rattle.sm_machine.specs.Disks.{Disk};
ghost use Rattle.sm_machine.specs.Runs.{Turn, taken, after_run, settles, face, IsAsAfter, IsAsDuring};
ghost use Rattle.sm_machine.specs.Steps.{State};
ghost use Rattle.sm_run.specs.Between.{IsBetween, IsSettledAs};

use crate::steps::Steps;

/// During a step a stop shows what the run so far allows, or what it allows with one line more.
pub fn law_during<M: Steps>(before: &M)
    ensures { (σ : State) (turns : List Turn) (t : Turn) (ds : List Disk)
        → ((es : List Disk) → M.leaves before.now es → IsAsAfter σ turns es)
        → IsBetween (M.leaves before.now) ((after_run σ turns).disks) (((taken (after_run σ turns) t).after).disks) ds
        → IsAsAfter σ turns ds ⊎ IsAsDuring σ turns t ds }
{}

/// After a step that settles nothing a stop shows what the longer run allows.
pub fn law_after<M: Steps>(before: &M)
    ensures { (σ : State) (turns : List Turn) (t : Turn) (ds : List Disk)
        → ((es : List Disk) → M.leaves before.now es → IsAsAfter σ turns es) → settles (after_run σ turns) t ≡ false
        → IsBetween (M.leaves before.now) ((after_run σ turns).disks) (((taken (after_run σ turns) t).after).disks) ds
        → map face ds ≡ map face (((taken (after_run σ turns) t).after).disks)
        → IsAsAfter σ (turns ++ t ∷ []) ds }
{}

/// After a step that settles all that was written a stop shows the disks after it, and no others.
pub fn law_settled()
    ensures { (σ : State) (turns : List Turn) (t : Turn) (ds : List Disk) → settles (after_run σ turns) t ≡ true
        → IsSettledAs (((taken (after_run σ turns) t).after).disks) ds → IsAsAfter σ (turns ++ t ∷ []) ds }
{}
