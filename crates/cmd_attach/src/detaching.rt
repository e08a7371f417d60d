//! Detaching a disk, whatever operation runs.

ghost use Rattle.std.specs.Prelude.{◌≡◌, false, OnOk, OnErr};
ghost use Rattle.sm_machine.specs.Commits.{folds};
ghost use Rattle.vg_volumes.specs.Stored.{Counts, Stays};
ghost use Rattle.sm_machine.specs.declared.commands.Command.TheVariants as command;
ghost use Rattle.sm_ready.specs.Refusing.{IsAllowed};
ghost use Rattle.sm_ready.specs.Does.{ShapesAs, StoreDoes};
ghost use Rattle.sm_ready.specs.Framing.{IsBetweenSteps, StepsOn};
ghost use Rattle.sm_ready.specs.Sessions.{IsReadyStore};
ghost use Rattle.gc_abandon.specs.Abandoning.{unfolded};

use crate::attaching::leave;
use gc_abandon::give_up;
use sm_base::Failed;
use sm_ready::Memory;
use uuid::Uuid;
use vg_volumes::Store;

/// Detaches a disk. Where its leaf is being folded, that is given up first, by one commit. All that was written lasts then. It takes no
/// memory.
///
/// # Errors
/// A call of the store failed; the disk is attached as before.
pub fn detach<S: Store>(store: &mut S, memory: &mut Memory, disk: &Uuid) -> Result<(), Failed>
    requires session { IsBetweenSteps S.Store store.old memory.old }
    requires allowed { IsAllowed S.Store (command.Detach disk.now) store.old memory.old }
    ensures step { StepsOn S.Store 1 store.old store.new }
    ensures cause { Counts S.Store result store.old store.new }
    ensures kept { folds memory.old.operation disk.now ≡ false → Stays S.Store store.old store.new }
    ensures session_still { OnOk result (IsBetweenSteps S.Store store.new memory.new) }
    ensures kept_between { folds memory.old.operation disk.now ≡ false → IsBetweenSteps S.Store store.new memory.new }
    ensures others { (memory.new.tree ≡ memory.old.tree) × (memory.new.records ≡ memory.old.records) }
    ensures logs { memory.new.logs ≡ memory.old.logs }
    ensures attached { OnErr result (memory.new.attached ≡ memory.old.attached) }
    ensures operation { OnOk result (memory.new.operation ≡ unfolded memory.old.operation disk.now) }
    ensures shape { OnOk result (ShapesAs S.Store (command.Detach disk.now) store.old memory.old store.new memory.new) }
    ensures done { S.told → IsReadyStore S.Store store.old memory.old
        → StoreDoes S.Store (command.Detach disk.now) store.old memory.old store.new memory.new (result ≡ Ok tt) }
{
    give_up(store, memory, disk)?;
    leave(store, memory, disk)
}
