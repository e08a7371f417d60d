//! A child is linked past the image that goes to that image's parent.

ghost use Rattle.std.specs.Prelude.{◌≡◌, ◌≤◌, false, length, OnOk};
ghost use Rattle.std.specs.declared.result.Result.TheVariants.{Ok};
ghost use Rattle.sm_base.specs.declared.operations.Plan.TheVariants as plan;
ghost use Rattle.sm_disk.specs.Held.{IsSettled};
ghost use Rattle.vg_meta.specs.Roomy.{table_alone};
ghost use Rattle.vg_volumes.specs.Stored.{Counts};
ghost use Rattle.sm_machine.specs.Collector.{next_step};
ghost use Rattle.sm_machine.specs.declared.commands.Command.TheVariants as command;
ghost use Rattle.sm_ready.specs.Does.{ShapesAs, StoreDoes, store_shape};
ghost use Rattle.sm_ready.specs.Frames.{HasTrueImages};
ghost use Rattle.sm_ready.specs.Framing.{StepsOn};
ghost use Rattle.sm_ready.specs.Sessions.{HasRows, IsOrderlyStore, IsReadyStore, IsTidyStore};
ghost use Rattle.gc_coalesce.specs.Syncing.{LeavesSynced};

use sm_base::{Failed, Name, Op};
use sm_ready::Memory;
use vg_volumes::Store;

/// Links a child of the operation's image to the operation's parent, which holds alike whatever the image holds: one sector of the
/// child's header is written. All that was written before is made last first, and then the link. It makes no commit and takes no memory.
///
/// # Errors
///
/// A call of the store failed; a stop leaves the disks from before, whether the child is linked or not.
pub fn relink_one<S: Store>(store: &mut S, memory: &mut Memory, child: &Name) -> Result<(), Failed>
    requires usable { S.failed store.old ≡ false }
    requires orderly { IsOrderlyStore S.Store store.old memory.old }
    requires true_now { HasTrueImages S.Store store.old memory.old }
    requires planned { next_step (store_shape S.Store store.old memory.old) ≡ plan.RelinkOne child.now }
    ensures step { StepsOn S.Store 0 store.old store.new }
    ensures cause { Counts S.Store result store.old store.new }
    ensures usable_still { OnOk result (S.failed store.new ≡ false) }
    ensures unfailed { S.failed store.new ≡ false }
    ensures table { table_alone (S.table store.new) ≡ table_alone (S.table store.old) }
    ensures images { length memory.new.tree.rows ≡ length memory.old.tree.rows }
    ensures spare { memory.new.tree.spare ≡ memory.old.tree.spare }
    ensures others { (memory.new.records ≡ memory.old.records) × (memory.new.operation ≡ memory.old.operation) }
    ensures logs { memory.new.logs ≡ memory.old.logs }
    ensures attached { (memory.new.attached.disks ≡ memory.old.attached.disks) × (memory.old.attached.room ≤ memory.new.attached.room) }
    ensures settled { S.told → OnOk result (IsSettled (S.area store.new)) }
    ensures room { HasRows (S.table store.old) → OnOk result (HasRows (S.table store.new)) }
    ensures orderly_still { OnOk result (IsOrderlyStore S.Store store.new memory.new) }
    ensures tidy_still { IsTidyStore S.Store store.old memory.old → OnOk result (IsTidyStore S.Store store.new memory.new) }
    ensures true_still { OnOk result (HasTrueImages S.Store store.new memory.new) }
    ensures shape { OnOk result (ShapesAs S.Store command.Gc store.old memory.old store.new memory.new) }
    ensures done { S.told → IsReadyStore S.Store store.old memory.old → StoreDoes S.Store command.Gc store.old memory.old store.new memory.new (result ≡ Ok tt) }
    ensures first { LeavesSynced S.Store child.now store.old store.new }
{
    let Op::Relink { child: out, parent } = memory.operation.told() else {
        unreachable!()
    };
    store.sync()?; // what was written before
    let Some(mut row) = memory.tree.take(child) else {
        unreachable!()
    };
    let Some(above) = memory.tree.get(&parent) else {
        unreachable!()
    };
    let linked = row.image.set_parent(store, &above.image);
    memory.tree.add(row);
    linked?;
    store.sync()?; // the link
    memory.attached.relinked(child, &out);
    Ok(())
}
