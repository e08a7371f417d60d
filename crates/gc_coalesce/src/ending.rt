//! Entries of the collector's operations: a copy is given up, or its children are linked next; a link has ended. Each is one commit.

ghost use Rattle.std.specs.Prelude.{◌≡◌, true, false, [], ◌∷◌, OnOk};
ghost use Rattle.std.specs.declared.result.Result.TheVariants.{Ok};
ghost use Rattle.sm_base.specs.declared.names.Name.{Name as NameModel};
ghost use Rattle.sm_base.specs.declared.names.Name.TheVariants.{Coalesce, Relink};
ghost use Rattle.vg_meta.specs.Changes.{applied};
ghost use Rattle.vg_meta.specs.declared.changes.Change.TheVariants.{Remove};
ghost use Rattle.sm_ready.specs.Known.{entry_of};
ghost use Rattle.sm_disk.specs.Held.{Keeps};
ghost use Rattle.vg_meta.specs.Roomy.{table_alone};
ghost use Rattle.vg_volumes.specs.Stored.{Counts, IsEitherOf, Leaves, stored};
ghost use Rattle.sm_machine.specs.Shapes.{image_uuid};
ghost use Rattle.sm_machine.specs.WellFormed.{is_image_name};
ghost use Rattle.sm_base.specs.declared.operations.Plan.TheVariants as plan;
ghost use Rattle.sm_machine.specs.Operations as op;
ghost use Rattle.sm_machine.specs.Collector.{next_step, turned};
ghost use Rattle.sm_machine.specs.declared.commands.Command.TheVariants as command;
ghost use Rattle.sm_ready.specs.Does.{ShapesAs, StoreDoes, store_shape};
ghost use Rattle.sm_ready.specs.Frames.{HasTrueImages};
ghost use Rattle.sm_ready.specs.Framing.{IsBetweenSteps, StepsOn};
ghost use Rattle.sm_ready.specs.Sessions.{HasRows, IsOrderlyStore, IsReadyStore, IsTidyStore};

use gc_abandon::uuid_of;
use sm_base::{Failed, Name, Op};
use sm_journal::{drop_entry, replace};
use sm_ready::Memory;
use vg_volumes::Store;

/// The journal entry of a copy.
pub(crate) fn copy_entry(child: &Name, parent: &Name) -> Name
    requires child { is_image_name child.now ≡ true }
    requires parent { is_image_name parent.now ≡ true }
    ensures { result ≡ Coalesce (image_uuid child.now) (image_uuid parent.now) }
{
    Name::Coalesce {
        child: uuid_of(child),
        parent: uuid_of(parent),
    }
}

/// The journal entry of the linking of children.
fn link_entry(child: &Name, parent: &Name) -> Name
    requires child { is_image_name child.now ≡ true }
    requires parent { is_image_name parent.now ≡ true }
    ensures { result ≡ Relink (image_uuid child.now) (image_uuid parent.now) }
{
    Name::Relink {
        child: uuid_of(child),
        parent: uuid_of(parent),
    }
}

/// Gives a copy up whose image has no children left: its entry goes, by one commit. It takes no memory.
///
/// # Errors
///
/// A call of the store failed; a stop leaves the disks from before.
pub fn abandon<S: Store>(store: &mut S, memory: &mut Memory) -> Result<(), Failed>
    requires session { IsBetweenSteps S.Store store.old memory.old }
    requires planned { next_step (store_shape S.Store store.old memory.old) ≡ plan.Abandon }
    ensures step { StepsOn S.Store 1 store.old store.new }
    ensures cause { Counts S.Store result store.old store.new }
    ensures keeps { S.told → Keeps (S.area store.old) (S.area store.new) }
    ensures operation { OnOk result (memory.new.operation ≡ op.Idle) }
    ensures others { (memory.new.tree ≡ memory.old.tree) × (memory.new.records ≡ memory.old.records) × (memory.new.attached ≡ memory.old.attached) }
    ensures logs { memory.new.logs ≡ memory.old.logs }
    ensures session_still { OnOk result (IsBetweenSteps S.Store store.new memory.new) }
    ensures shape { OnOk result (ShapesAs S.Store command.Gc store.old memory.old store.new memory.new) }
    ensures done { S.told → IsReadyStore S.Store store.old memory.old → StoreDoes S.Store command.Gc store.old memory.old store.new memory.new (result ≡ Ok tt) }
{
    let Op::Copy { child, parent, .. } = memory.operation.told() else {
        unreachable!()
    };
    drop_entry(store, &copy_entry(&child, &parent))?;
    memory.operation.set(Op::Idle);
    Ok(())
}

/// All blocks are copied: from now on children are linked to the parent. The copy's entry is replaced, by one commit. It takes no
/// memory.
///
/// # Errors
///
/// A call of the store failed; a stop leaves the disks from before.
pub fn turn<S: Store>(store: &mut S, memory: &mut Memory) -> Result<(), Failed>
    requires session { IsBetweenSteps S.Store store.old memory.old }
    requires planned { next_step (store_shape S.Store store.old memory.old) ≡ plan.Turn }
    ensures step { StepsOn S.Store 1 store.old store.new }
    ensures cause { Counts S.Store result store.old store.new }
    ensures keeps { S.told → Keeps (S.area store.old) (S.area store.new) }
    ensures operation { OnOk result (memory.new.operation ≡ turned memory.old.operation) }
    ensures others { (memory.new.tree ≡ memory.old.tree) × (memory.new.records ≡ memory.old.records) × (memory.new.attached ≡ memory.old.attached) }
    ensures logs { memory.new.logs ≡ memory.old.logs }
    ensures session_still { OnOk result (IsBetweenSteps S.Store store.new memory.new) }
    ensures shape { OnOk result (ShapesAs S.Store command.Gc store.old memory.old store.new memory.new) }
    ensures done { S.told → IsReadyStore S.Store store.old memory.old → StoreDoes S.Store command.Gc store.old memory.old store.new memory.new (result ≡ Ok tt) }
{
    let Op::Copy { child, parent, .. } = memory.operation.told() else {
        unreachable!()
    };
    replace(
        store,
        copy_entry(&child, &parent),
        link_entry(&child, &parent),
    )?;
    memory.operation.set(Op::Relink { child, parent });
    Ok(())
}

/// All children are linked to the parent: the entry goes, by one commit. The image stays, hidden and without children. It takes
/// no memory.
///
/// # Errors
///
/// A call of the store failed; a stop leaves the disks from before.
pub fn finish<S: Store>(store: &mut S, memory: &mut Memory) -> Result<(), Failed>
    requires usable { S.failed store.old ≡ false }
    requires orderly { IsOrderlyStore S.Store store.old memory.old }
    requires true_now { HasTrueImages S.Store store.old memory.old }
    requires planned { next_step (store_shape S.Store store.old memory.old) ≡ plan.Finish }
    ensures step { StepsOn S.Store 1 store.old store.new }
    ensures cause { Counts S.Store result store.old store.new }
    ensures keeps { S.told → Keeps (S.area store.old) (S.area store.new) }
    ensures usable_still { OnOk result (S.failed store.new ≡ false) }
    ensures table { OnOk result ((e : NameModel) → entry_of memory.old.operation ≡ e ∷ [] → table_alone (S.table store.new) ≡ applied (table_alone (S.table store.old)) (Remove e)) }
    ensures operation { OnOk result (memory.new.operation ≡ op.Idle) }
    ensures others { (memory.new.tree ≡ memory.old.tree) × (memory.new.records ≡ memory.old.records) × (memory.new.attached ≡ memory.old.attached) }
    ensures logs { memory.new.logs ≡ memory.old.logs }
    ensures room { HasRows (S.table store.old) → OnOk result (HasRows (S.table store.new)) }
    ensures orderly_still { OnOk result (IsOrderlyStore S.Store store.new memory.new) }
    ensures tidy_still { IsTidyStore S.Store store.old memory.old → OnOk result (IsTidyStore S.Store store.new memory.new) }
    ensures true_still { OnOk result (HasTrueImages S.Store store.new memory.new) }
    ensures shape { OnOk result (ShapesAs S.Store command.Gc store.old memory.old store.new memory.new) }
    ensures done { S.told → IsReadyStore S.Store store.old memory.old → StoreDoes S.Store command.Gc store.old memory.old store.new memory.new (result ≡ Ok tt) }
    ensures left { (e : NameModel) → entry_of memory.old.operation ≡ e ∷ [] → Leaves S.Store store.new (IsEitherOf (stored S.Store store.old) (Remove e)) }
{
    let Op::Relink { child, parent } = memory.operation.told() else {
        unreachable!()
    };
    drop_entry(store, &link_entry(&child, &parent))?;
    memory.operation.set(Op::Idle);
    Ok(())
}
