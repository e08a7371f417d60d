//! An image begins to be folded into its parent: a hidden image, or the leaf of a disk, attached or not.
//!
//! Before the operation's entry is put, its parent gets what the operation asks for: extents for the blocks of both images, and the
//! child's size. Neither changes a disk, since the parent is hidden and has no other child. So a stop before the entry leaves the
//! disks from before, and behind it too, as nothing is copied yet. The entry's commit makes the parent's new footers last.

ghost use Rattle.std.specs.Prelude.{◌≡◌, ◌<◌, ℕ, List, [], IsSome, OnOk};
ghost use Rattle.std.specs.declared.result.Result.TheVariants.{Ok, Err};
ghost use Rattle.sm_base.specs.declared.faults.CallFault.TheVariants as fault;
ghost use Rattle.sm_machine.specs.Operations as op;
ghost use Rattle.vg_meta.specs.Tables.{VolumeTable};
ghost use Rattle.sm_base.specs.declared.operations.Plan.TheVariants as plan;
ghost use Rattle.sm_disk.specs.Held.{reads};
ghost use Rattle.vg_meta.specs.Roomy.{table_alone};
ghost use Rattle.vg_volumes.specs.Stored.{Counts, Leaves, OnlyReads, Stays};
ghost use Rattle.vhd_chain.specs.Trees.{tree_row};
ghost use Rattle.sm_machine.specs.Collector.{next_step};
ghost use Rattle.sm_machine.specs.declared.commands.Command.TheVariants as command;
ghost use Rattle.sm_standing.specs.Standing.{disks};
ghost use Rattle.sm_ready.specs.Does.{ShapesAs, StoreDoes, store_shape};
ghost use Rattle.sm_ready.specs.Done.{HasDone, at_rest};
ghost use Rattle.sm_ready.specs.Frames.{IsBesideTree};
ghost use Rattle.sm_ready.specs.Framing.{CountsDevice, IsBetweenSteps, StepsOn};
ghost use Rattle.sm_ready.specs.Known.{known};
ghost use Rattle.sm_ready.specs.Ready.{IsReady};
ghost use Rattle.sm_ready.specs.Sessions.{HasRows, IsReadyStore};
ghost use Rattle.sm_ready.specs.Stores.{MayShow, StoreLeaves, content_in, content_now, store_content};
ghost use Rattle.gc_coalesce.specs.Beginning.{CanBegin, CanEnter, IsWidened, KeepsExtents, LeavesStill, begins, entered, raised, sectors_of};
ghost use Rattle.gc_coalesce.specs.Copying.{copy_of};

use crate::kinds::{Kind, entry_for, first};
use gc_abandon::uuid_of;
use sm_base::{CallFault, Failed, Name, NoMemory};
use sm_journal::put;
use sm_ready::Memory;
use sm_space::inflate;
use std::alloc::Global;
use vg_volumes::Store;
use vhd_chain::Tree;

/// The most rows that a table may come to have: those of 500 images, of 500 logs, of the volume of records, and of 4 journal entries.
const MOST_ROWS: usize = 1005;

/// The size of an image, in sectors.
fn size_of(tree: &Tree, name: &Name) -> u64
    requires { IsSome (tree_row tree.now.rows name.now) }
    ensures { result ≡ sectors_of (tree_row tree.now.rows name.now) }
{
    let Some(row) = tree.get(name) else {
        unreachable!()
    };
    row.image.sectors()
}

/// Makes room for all rows that the table may come to have, so that each of two entries, one after the other, has a row. What
/// stands counts.
fn make_room<S: Store>(store: &mut S) -> Result<(), NoMemory>
    ensures reads { OnlyReads S.Store store.old store.new }
    ensures same { (S.area store.new ≡ S.area store.old) × (S.faults store.new ≡ S.faults store.old) }
    ensures leaves { (t : VolumeTable) (image : ℕ → List ℕ) → S.leaves store.new t image → S.leaves store.old t image }
    ensures room { OnOk result (HasRows (S.table store.new)) }
{
    let rows = store.table().volumes().len();
    store.reserve_rows(MOST_ROWS.saturating_sub(rows))?;
    Ok(())
}

/// Gives the parent's image the size of its only child, where it is smaller. Nothing is synced: whatever a stop leaves shows the
/// disks from before, and has the logs of memory.
fn raise<S: Store>(
    store: &mut S,
    memory: &mut Memory,
    child: &Name,
    parent: &Name,
) -> Result<(), Failed>
    requires session { IsBetweenSteps S.Store store.old memory.old }
    requires can { CanEnter (store_shape S.Store store.old memory.old) child.now parent.now }
    ensures stays { Stays S.Store store.old store.new }
    ensures cause { Counts S.Store result store.old store.new }
    ensures others { IsBesideTree memory.old memory.new }
    ensures session_still { OnOk result (IsBetweenSteps S.Store store.new memory.new) }
    ensures shape { OnOk result (store_shape S.Store store.new memory.new ≡ raised child.now parent.now (store_shape S.Store store.old memory.old)) }
    ensures safe { S.told → IsReadyStore S.Store store.old memory.old
        → LeavesStill (S.site store.old) (table_alone (S.table store.old)) (S.area store.new) (StoreLeaves S.Store store.old) (disks (store_content S.Store store.old)) (known memory.new).logs }
    ensures ready { OnOk result (S.told → IsReadyStore S.Store store.old memory.old
        → IsReady (S.site store.old) (table_alone (S.table store.old)) (at_rest (reads (S.area store.new))) (known memory.new)
        × (disks (content_now (S.site store.old) (table_alone (S.table store.old)) (S.area store.new)) ≡ disks (store_content S.Store store.old))) }
{
    let sectors = size_of(&memory.tree, child);
    if size_of(&memory.tree, parent) == sectors {
        return Ok(());
    }
    let Some(mut row) = memory.tree.take(parent) else {
        unreachable!()
    };
    let sized = row.image.set_size(store, sectors);
    memory.tree.add(row);
    sized?;
    Ok(())
}

/// Gives the parent's image the size of its only child, and puts the operation's entry, for which the table has a row.
fn enter<S: Store>(
    store: &mut S,
    memory: &mut Memory,
    kind: Kind,
    child: &Name,
    parent: &Name,
) -> Result<(), Failed>
    requires session { IsBetweenSteps S.Store store.old memory.old }
    requires row { 0 < (S.table store.old).spare }
    requires can { CanBegin (store_shape S.Store store.old memory.old) kind child.now parent.now }
    ensures step { StepsOn S.Store 1 store.old store.new }
    ensures cause { Counts S.Store result store.old store.new }
    ensures operation { OnOk result (memory.new.operation ≡ copy_of kind child.now parent.now 0 []) }
    ensures others { (memory.new.records ≡ memory.old.records) × (memory.new.attached ≡ memory.old.attached) }
    ensures logs { memory.new.logs ≡ memory.old.logs }
    ensures session_still { OnOk result (IsBetweenSteps S.Store store.new memory.new) }
    ensures extents { OnOk result (KeepsExtents (table_alone (S.table store.old)) (table_alone (S.table store.new))) }
    ensures shape { OnOk result (store_shape S.Store store.new memory.new ≡ entered kind child.now parent.now (store_shape S.Store store.old memory.old)) }
    ensures done { S.told → IsReadyStore S.Store store.old memory.old
        → HasDone (S.site store.old) (table_alone (S.table store.old)) (table_alone (S.table store.new)) (S.area store.old) (S.area store.new) (known memory.new)
        (StoreLeaves S.Store store.old) (StoreLeaves S.Store store.new) (result ≡ Ok tt) (disks (store_content S.Store store.old)) }
    ensures still { S.told → IsReadyStore S.Store store.old memory.old
        → Leaves S.Store store.new (λ t image. MayShow (S.site store.old) (StoreLeaves S.Store store.old) (disks (content_in (S.site store.old) t image))) }
{
    let entry = entry_for(kind, child, parent);
    raise(store, memory, child, parent)?;
    put(store, entry)?;
    memory.operation.set(first(kind, child, parent));
    Ok(())
}

/// Begins to fold an image into its parent, by what it is: the parent's volume gets so many extents where it has
/// fewer, the least that are free; the parent gets the image's size where it is smaller; and the operation's entry is put.
fn fold<S: Store>(
    alloc: Global,
    store: &mut S,
    memory: &mut Memory,
    kind: Kind,
    child: &Name,
    parent: &Name,
    to: u32,
) -> Result<(), CallFault>
    requires session { IsBetweenSteps S.Store store.old memory.old }
    requires planned { next_step (store_shape S.Store store.old memory.old) ≡ begins kind child.now parent.now to }
    ensures step { StepsOn S.Store 4 store.old store.new }
    ensures cause { CountsDevice S.Store result store.old store.new }
    ensures poor { result ≡ Err fault.NoMemory
        → OnlyReads S.Store store.old store.new × ((t : VolumeTable) (image : ℕ → List ℕ) → S.leaves store.new t image → S.leaves store.old t image)
        × (memory.new ≡ memory.old) }
    ensures operation { OnOk result (memory.new.operation ≡ copy_of kind child.now parent.now 0 []) }
    ensures others { (memory.new.records ≡ memory.old.records) × (memory.new.attached ≡ memory.old.attached) }
    ensures logs { memory.new.logs ≡ memory.old.logs }
    ensures session_still { OnOk result (IsBetweenSteps S.Store store.new memory.new) }
    ensures least { OnOk result (IsWidened (S.site store.old).count (table_alone (S.table store.old)) parent.now to (table_alone (S.table store.new))) }
    ensures shape { OnOk result (ShapesAs S.Store command.Gc store.old memory.old store.new memory.new) }
    ensures done { S.told → IsReadyStore S.Store store.old memory.old → StoreDoes S.Store command.Gc store.old memory.old store.new memory.new (result ≡ Ok tt) }
    ensures still { S.told → IsReadyStore S.Store store.old memory.old
        → Leaves S.Store store.new (λ t image. MayShow (S.site store.old) (StoreLeaves S.Store store.old) (disks (content_in (S.site store.old) t image))) }
{
    let Some(row) = memory.tree.get(parent) else {
        unreachable!()
    };
    let had = row.extents;
    let Ok(()) = make_room(store) else {
        return Err(CallFault::NoMemory);
    };
    if to <= had {
        let Ok(()) = enter(store, memory, kind, child, parent) else {
            return Err(CallFault::Device);
        };
        return Ok(());
    }
    inflate(alloc, store, memory, &uuid_of(parent), to)?;
    let Ok(()) = enter(store, memory, kind, child, parent) else {
        return Err(CallFault::Device);
    };
    Ok(())
}

/// Begins to fold a hidden image into its parent: the parent's volume gets so many extents where it has fewer, the least that are free;
/// the parent gets the image's size where it is smaller; and the operation's entry is put. At most four commits.
///
/// # Errors
///
/// `NoMemory` where memory ran out, and nothing was written; `Device` where a call of the store failed. A stop leaves the disks
/// from before.
pub fn begin<S: Store>(
    alloc: Global,
    store: &mut S,
    memory: &mut Memory,
    child: &Name,
    parent: &Name,
    to: u32,
) -> Result<(), CallFault>
    requires session { IsBetweenSteps S.Store store.old memory.old }
    requires planned { next_step (store_shape S.Store store.old memory.old) ≡ plan.Begin child.now parent.now to }
    ensures step { StepsOn S.Store 4 store.old store.new }
    ensures cause { CountsDevice S.Store result store.old store.new }
    ensures poor { result ≡ Err fault.NoMemory
        → OnlyReads S.Store store.old store.new × ((t : VolumeTable) (image : ℕ → List ℕ) → S.leaves store.new t image → S.leaves store.old t image)
        × (memory.new ≡ memory.old) }
    ensures operation { OnOk result (memory.new.operation ≡ op.Copy child.now parent.now 0) }
    ensures others { (memory.new.records ≡ memory.old.records) × (memory.new.attached ≡ memory.old.attached) }
    ensures logs { memory.new.logs ≡ memory.old.logs }
    ensures session_still { OnOk result (IsBetweenSteps S.Store store.new memory.new) }
    ensures least { OnOk result (IsWidened (S.site store.old).count (table_alone (S.table store.old)) parent.now to (table_alone (S.table store.new))) }
    ensures shape { OnOk result (ShapesAs S.Store command.Gc store.old memory.old store.new memory.new) }
    ensures done { S.told → IsReadyStore S.Store store.old memory.old → StoreDoes S.Store command.Gc store.old memory.old store.new memory.new (result ≡ Ok tt) }
    ensures still { S.told → IsReadyStore S.Store store.old memory.old
        → Leaves S.Store store.new (λ t image. MayShow (S.site store.old) (StoreLeaves S.Store store.old) (disks (content_in (S.site store.old) t image))) }
{
    fold(alloc, store, memory, Kind::Hidden, child, parent, to)
}

/// Begins to fold the leaf of a disk that is not attached into its parent, as `begin` does a hidden image.
///
/// # Errors
///
/// Those of `begin`; a stop leaves the disks from before.
pub fn begin_leaf<S: Store>(
    alloc: Global,
    store: &mut S,
    memory: &mut Memory,
    leaf: &Name,
    parent: &Name,
    to: u32,
) -> Result<(), CallFault>
    requires session { IsBetweenSteps S.Store store.old memory.old }
    requires planned { next_step (store_shape S.Store store.old memory.old) ≡ plan.Leaf leaf.now parent.now to }
    ensures step { StepsOn S.Store 4 store.old store.new }
    ensures cause { CountsDevice S.Store result store.old store.new }
    ensures poor { result ≡ Err fault.NoMemory
        → OnlyReads S.Store store.old store.new × ((t : VolumeTable) (image : ℕ → List ℕ) → S.leaves store.new t image → S.leaves store.old t image)
        × (memory.new ≡ memory.old) }
    ensures operation { OnOk result (memory.new.operation ≡ op.Leaf leaf.now parent.now 0) }
    ensures others { (memory.new.records ≡ memory.old.records) × (memory.new.attached ≡ memory.old.attached) }
    ensures logs { memory.new.logs ≡ memory.old.logs }
    ensures session_still { OnOk result (IsBetweenSteps S.Store store.new memory.new) }
    ensures least { OnOk result (IsWidened (S.site store.old).count (table_alone (S.table store.old)) parent.now to (table_alone (S.table store.new))) }
    ensures shape { OnOk result (ShapesAs S.Store command.Gc store.old memory.old store.new memory.new) }
    ensures done { S.told → IsReadyStore S.Store store.old memory.old → StoreDoes S.Store command.Gc store.old memory.old store.new memory.new (result ≡ Ok tt) }
    ensures still { S.told → IsReadyStore S.Store store.old memory.old
        → Leaves S.Store store.new (λ t image. MayShow (S.site store.old) (StoreLeaves S.Store store.old) (disks (content_in (S.site store.old) t image))) }
{
    fold(alloc, store, memory, Kind::Leaf, leaf, parent, to)
}

/// Begins to fold the leaf of a disk that is attached into its parent, as `begin_leaf` does that of one that is not; nothing is dirty.
/// Where the disk is attached for writing, the parent gets extents for all blocks.
///
/// # Errors
///
/// Those of `begin`; a stop leaves the disks from before.
pub fn begin_live<S: Store>(
    alloc: Global,
    store: &mut S,
    memory: &mut Memory,
    leaf: &Name,
    parent: &Name,
    to: u32,
) -> Result<(), CallFault>
    requires session { IsBetweenSteps S.Store store.old memory.old }
    requires planned { next_step (store_shape S.Store store.old memory.old) ≡ plan.Live leaf.now parent.now to }
    ensures step { StepsOn S.Store 4 store.old store.new }
    ensures cause { CountsDevice S.Store result store.old store.new }
    ensures poor { result ≡ Err fault.NoMemory
        → OnlyReads S.Store store.old store.new × ((t : VolumeTable) (image : ℕ → List ℕ) → S.leaves store.new t image → S.leaves store.old t image)
        × (memory.new ≡ memory.old) }
    ensures operation { OnOk result (memory.new.operation ≡ op.Live leaf.now parent.now 0 []) }
    ensures others { (memory.new.records ≡ memory.old.records) × (memory.new.attached ≡ memory.old.attached) }
    ensures logs { memory.new.logs ≡ memory.old.logs }
    ensures session_still { OnOk result (IsBetweenSteps S.Store store.new memory.new) }
    ensures least { OnOk result (IsWidened (S.site store.old).count (table_alone (S.table store.old)) parent.now to (table_alone (S.table store.new))) }
    ensures shape { OnOk result (ShapesAs S.Store command.Gc store.old memory.old store.new memory.new) }
    ensures done { S.told → IsReadyStore S.Store store.old memory.old → StoreDoes S.Store command.Gc store.old memory.old store.new memory.new (result ≡ Ok tt) }
    ensures still { S.told → IsReadyStore S.Store store.old memory.old
        → Leaves S.Store store.new (λ t image. MayShow (S.site store.old) (StoreLeaves S.Store store.old) (disks (content_in (S.site store.old) t image))) }
{
    fold(alloc, store, memory, Kind::Live, leaf, parent, to)
}
