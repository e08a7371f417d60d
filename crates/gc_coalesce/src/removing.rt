//! A hidden image that no image reads through goes.

ghost use Rattle.std.specs.Prelude.{◌≡◌, OnErr, OnOk};
ghost use Rattle.std.specs.declared.result.Result.TheVariants.{Ok};
ghost use Rattle.sm_base.specs.declared.operations.Plan.TheVariants as plan;
ghost use Rattle.sm_disk.specs.Held.{Keeps};
ghost use Rattle.vg_meta.specs.declared.changes.Change.TheVariants.{Remove};
ghost use Rattle.vg_volumes.specs.Stored.{CanCommit, Commits, Counts, FailsToCommit, IsEitherOf, Leaves, stored};
ghost use Rattle.sm_machine.specs.Collector.{next_step};
ghost use Rattle.sm_machine.specs.declared.commands.Command.TheVariants as command;
ghost use Rattle.sm_ready.specs.Does.{ShapesAs, StoreDoes, store_shape};
ghost use Rattle.sm_ready.specs.Framing.{IsBetweenSteps, StepsOn};
ghost use Rattle.sm_ready.specs.Sessions.{IsReadyStore, StaysInUse};

use sm_base::{Failed, Name};
use sm_ready::Memory;
use vg_meta::Change;
use vg_volumes::Store;

/// Removes the volume of a hidden image without children, by one commit. It takes no memory.
///
/// # Errors
///
/// A call of the store failed; a stop leaves the disks from before.
pub fn remove<S: Store>(store: &mut S, memory: &mut Memory, name: &Name) -> Result<(), Failed>
    requires session { IsBetweenSteps S.Store store.old memory.old }
    requires planned { next_step (store_shape S.Store store.old memory.old) ≡ plan.Remove name.now }
    ensures step { StepsOn S.Store 1 store.old store.new }
    ensures cause { Counts S.Store result store.old store.new }
    ensures keeps { S.told → Keeps (S.area store.old) (S.area store.new) }
    ensures others { StaysInUse memory.old memory.new }
    ensures session_still { OnOk result (IsBetweenSteps S.Store store.new memory.new) }
    ensures shape { OnOk result (ShapesAs S.Store command.Gc store.old memory.old store.new memory.new) }
    ensures done { S.told → IsReadyStore S.Store store.old memory.old → StoreDoes S.Store command.Gc store.old memory.old store.new memory.new (result ≡ Ok tt) }
{
    drop_volume(store, name)?;
    let _ = memory.tree.take(name);
    Ok(())
}

/// Removes a volume, by one commit.
fn drop_volume<S: Store>(store: &mut S, name: &Name) -> Result<(), Failed>
    requires { CanCommit S.Store (Remove name.now) store.old }
    ensures commits { OnOk result (Commits S.Store (Remove name.now) store.old store.new) }
    ensures fails { OnErr result (FailsToCommit S.Store store.old store.new) }
    ensures crash { Leaves S.Store store.new (IsEitherOf (stored S.Store store.old) (Remove name.now)) }
    ensures cause { Counts S.Store result store.old store.new }
{
    store.commit(Change::Remove { name: *name })?;
    Ok(())
}
