//! Several commits, one after the other.

ghost use Rattle.std.specs.Prelude.{◌≡◌, [], ◌∷◌, OnOk, OnErr};
ghost use Rattle.vg_volumes.specs.Stored.{Counts};
ghost use Rattle.sm_calls.specs.Calls.{CanRun, Commit, DoesRun};

use crate::calls::commit;
use sm_base::Failed;
use vg_meta::Change;
use vg_volumes::Store;

/// Makes two changes, by a commit each. It takes no memory.
pub fn commit_two<S: Store>(store: &mut S, first: Change, second: Change) -> Result<(), Failed>
    requires { CanRun S.Store (Commit first ∷ Commit second ∷ []) store.old }
    ensures run { OnOk result (DoesRun S.Store (Commit first ∷ Commit second ∷ []) store.old store.new (Unit {0})) }
    ensures cut { OnErr result (DoesRun S.Store (Commit first ∷ Commit second ∷ []) store.old store.new ⊥) }
    ensures cause { Counts S.Store result store.old store.new }
{
    commit(store, first)?;
    commit(store, second)?;
    Ok(())
}

/// Makes three changes, by a commit each. It takes no memory.
pub fn commit_three<S: Store>(
    store: &mut S,
    first: Change,
    second: Change,
    third: Change,
) -> Result<(), Failed>
    requires { CanRun S.Store (Commit first ∷ Commit second ∷ Commit third ∷ []) store.old }
    ensures run { OnOk result (DoesRun S.Store (Commit first ∷ Commit second ∷ Commit third ∷ []) store.old store.new (Unit {0})) }
    ensures cut { OnErr result (DoesRun S.Store (Commit first ∷ Commit second ∷ Commit third ∷ []) store.old store.new ⊥) }
    ensures cause { Counts S.Store result store.old store.new }
{
    commit(store, first)?;
    commit_two(store, second, third)?;
    Ok(())
}
