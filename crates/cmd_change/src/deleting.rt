//! A disk's end.

ghost use Rattle.std.specs.Prelude.{◌≡◌, OnErr, OnOk};
ghost use Rattle.vg_meta.specs.declared.changes.Change.TheVariants.{Remove};
ghost use Rattle.vg_volumes.specs.Stored.{CanCommit, Commits, Counts, FailsToCommit, IsEitherOf, Leaves, stored};
ghost use Rattle.sm_machine.specs.declared.commands.Command.TheVariants as command;
ghost use Rattle.sm_ready.specs.Refusing.{IsAllowed};
ghost use Rattle.sm_ready.specs.Does.{IsKeptUp, ShapesAs, StoreDoes};
ghost use Rattle.sm_ready.specs.Framing.{IsBetweenSteps, StepsOn};
ghost use Rattle.gc_abandon.specs.Abandoning.{unfolded};
ghost use Rattle.sm_ready.specs.Sessions.{IsReadyStore, StaysInUse};

use gc_abandon::give_up;
use sm_base::{Failed, Name};
use sm_ready::{Memory, image_name};
use uuid::Uuid;
use vg_meta::Change;
use vg_volumes::Store;

/// Removes a volume, by one commit.
fn remove<S: Store>(store: &mut S, name: Name) -> Result<(), Failed>
    requires { CanCommit S.Store (Remove name) store.old }
    ensures commits { OnOk result (Commits S.Store (Remove name) store.old store.new) }
    ensures fails { OnErr result (FailsToCommit S.Store store.old store.new) }
    ensures cause { Counts S.Store result store.old store.new }
    ensures crash { Leaves S.Store store.new (IsEitherOf (stored S.Store store.old) (Remove name)) }
{
    store.commit(Change::Remove { name })?;
    Ok(())
}

/// Takes a disk away where no operation is given up: its own image's volume by one commit, then its record.
fn take_away<S: Store>(store: &mut S, memory: &mut Memory, disk: &Uuid) -> Result<(), Failed>
    requires session { IsBetweenSteps S.Store store.old memory.old }
    requires allowed { IsAllowed S.Store (command.Delete disk.now) store.old memory.old }
    requires kept_up { IsKeptUp S.Store (command.Delete disk.now) store.old memory.old }
    ensures step { StepsOn S.Store 1 store.old store.new }
    ensures cause { Counts S.Store result store.old store.new }
    ensures session_still { OnOk result (IsBetweenSteps S.Store store.new memory.new) }
    ensures others { StaysInUse memory.old memory.new }
    ensures shape { OnOk result (ShapesAs S.Store (command.Delete disk.now) store.old memory.old store.new memory.new) }
    ensures done { S.told → IsReadyStore S.Store store.old memory.old
        → StoreDoes S.Store (command.Delete disk.now) store.old memory.old store.new memory.new (result ≡ Ok tt) }
{
    let name = image_name(&memory.tree, disk);
    remove(store, name)?;
    let _ = memory.tree.take(&name);
    memory.records.clear(store, disk)?;
    store.sync()?;
    Ok(())
}

/// Takes a disk away that is not attached: where its leaf is being folded that is given
/// up first, by one commit; then its own image's volume goes by one commit, and then its record. It takes no memory.
///
/// # Errors
/// A call of the store failed; a stop leaves the disks from before, or these without the one.
pub fn delete<S: Store>(store: &mut S, memory: &mut Memory, disk: &Uuid) -> Result<(), Failed>
    requires session { IsBetweenSteps S.Store store.old memory.old }
    requires allowed { IsAllowed S.Store (command.Delete disk.now) store.old memory.old }
    ensures step { StepsOn S.Store 2 store.old store.new }
    ensures cause { Counts S.Store result store.old store.new }
    ensures session_still { OnOk result (IsBetweenSteps S.Store store.new memory.new) }
    ensures others { memory.new.attached ≡ memory.old.attached }
    ensures logs { memory.new.logs ≡ memory.old.logs }
    ensures operation { OnOk result (memory.new.operation ≡ unfolded memory.old.operation disk.now) }
    ensures shape { OnOk result (ShapesAs S.Store (command.Delete disk.now) store.old memory.old store.new memory.new) }
    ensures done { S.told → IsReadyStore S.Store store.old memory.old
        → StoreDoes S.Store (command.Delete disk.now) store.old memory.old store.new memory.new (result ≡ Ok tt) }
{
    give_up(store, memory, disk)?;
    take_away(store, memory, disk)
}
