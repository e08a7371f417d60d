//! One call of a store.

ghost use Rattle.std.specs.Prelude.{◌≡◌, false, [], ◌∷◌, OnOk, OnErr};
ghost use Rattle.vg_volumes.specs.Stored.{CanCommit, Counts};
ghost use Rattle.sm_calls.specs.Calls.{Commit, DoesRun, Settle};

use sm_base::Failed;
use vg_meta::Change;
use vg_volumes::Store;

/// Makes a change, by one commit. It takes no memory.
pub fn commit<S: Store>(store: &mut S, change: Change) -> Result<(), Failed>
    requires { CanCommit S.Store change store.old }
    ensures run { OnOk result (DoesRun S.Store (Commit change ∷ []) store.old store.new (Unit {0})) }
    ensures cut { OnErr result (DoesRun S.Store (Commit change ∷ []) store.old store.new ⊥) }
    ensures cause { Counts S.Store result store.old store.new }
{
    store.commit(change)?;
    Ok(())
}

/// Makes all that was written last.
pub fn sync<S: Store>(store: &mut S) -> Result<(), Failed>
    requires { S.failed store.old ≡ false }
    ensures run { OnOk result (DoesRun S.Store (Settle ∷ []) store.old store.new (Unit {0})) }
    ensures cut { OnErr result (DoesRun S.Store (Settle ∷ []) store.old store.new ⊥) }
    ensures cause { Counts S.Store result store.old store.new }
{
    store.sync()?;
    Ok(())
}
