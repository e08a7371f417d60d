//! The sectors that an image holds in one block are copied into its parent: a hidden image, or the leaf of a disk, attached or not.

ghost use Rattle.std.specs.Prelude.{◌≡◌, ◌≤◌, ◌<◌, ◌+◌, ◌*◌, true, length, OnOk};
ghost use Rattle.std.specs.declared.result.Result.TheVariants.{Ok};
ghost use Rattle.sm_base.specs.declared.operations.Plan.TheVariants as plan;
ghost use Rattle.vg_meta.specs.Roomy.{table_alone};
ghost use Rattle.vg_volumes.specs.Stored.{Counts, Leaves};
ghost use Rattle.sm_machine.specs.Collector.{IsLess, copied, debt, next_step};
ghost use Rattle.sm_machine.specs.Operations.{advanced, is_dirty};
ghost use Rattle.sm_machine.specs.declared.commands.Command.TheVariants as command;
ghost use Rattle.sm_operation.specs.Kept.{dirty_in};
ghost use Rattle.sm_ready.specs.Does.{ShapesAs, StoreDoes, store_shape};
ghost use Rattle.sm_ready.specs.Stores.{MayShow, StoreLeaves, content_in, store_content};
ghost use Rattle.sm_standing.specs.Standing.{disks};
ghost use Rattle.gc_coalesce.specs.Copying.{IsMasked, MayCopy, copying};
ghost use Rattle.gc_coalesce.specs.Syncing.{CopySynced};
ghost use Rattle.sm_ready.specs.Framing.{IsBetweenSteps, StepsOn};
ghost use Rattle.sm_ready.specs.Sessions.{IsReadyStore};

use crate::blocks::copy_sectors;
use crate::kinds::images;
use sm_base::Failed;
use sm_pool::Pool;
use sm_ready::Memory;
use vg_volumes::Store;

/// Copies a block that is next, or one that is dirty.
fn copy_into_parent<S: Store>(
    store: &mut S,
    memory: &mut Memory,
    pool: &mut Pool,
    block: u32,
) -> Result<(), Failed>
    requires session { IsBetweenSteps S.Store store.old memory.old }
    requires buffer { (0 < pool.old.free) × (512 * (1 + (S.site store.old).geometry.block) ≤ pool.old.bytes) }
    requires copying { copying memory.old.operation ≡ true }
    requires may { MayCopy memory.old.operation (store_shape S.Store store.old memory.old) block }
    ensures step { StepsOn S.Store 0 store.old store.new }
    ensures cause { Counts S.Store result store.old store.new }
    ensures pool { pool.new ≡ pool.old }
    ensures table { table_alone (S.table store.new) ≡ table_alone (S.table store.old) }
    ensures images { length memory.new.tree.rows ≡ length memory.old.tree.rows }
    ensures spare { memory.new.tree.spare ≡ memory.old.tree.spare }
    ensures operation { OnOk result (memory.new.operation ≡ advanced block memory.old.operation) }
    ensures others { (memory.new.records ≡ memory.old.records) × (memory.new.attached ≡ memory.old.attached) }
    ensures logs { memory.new.logs ≡ memory.old.logs }
    ensures session_still { OnOk result (IsBetweenSteps S.Store store.new memory.new) }
    ensures next { is_dirty block (dirty_in memory.old.operation) ≡ true → next_step (store_shape S.Store store.old memory.old) ≡ plan.Swap
        → OnOk result (next_step (store_shape S.Store store.new memory.new) ≡ plan.Swap) }
    ensures lowered { next_step (store_shape S.Store store.old memory.old) ≡ plan.Copy block
        → OnOk result (∥ IsLess (debt (store_shape S.Store store.new memory.new)) (debt (store_shape S.Store store.old memory.old)) ∥₁) }
    ensures shape { S.told → IsReadyStore S.Store store.old memory.old
        → OnOk result (store_shape S.Store store.new memory.new ≡ copied memory.old.operation block (store_shape S.Store store.old memory.old)) }
    ensures done { S.told → IsReadyStore S.Store store.old memory.old → StoreDoes S.Store command.Gc store.old memory.old store.new memory.new (result ≡ Ok tt) }
    ensures masked { S.told → IsReadyStore S.Store store.old memory.old
        → Leaves S.Store store.new (λ t image. IsMasked memory.old.operation (store_content S.Store store.old) (content_in (S.site store.old) t image)) }
    ensures still { S.told → IsReadyStore S.Store store.old memory.old
        → Leaves S.Store store.new (λ t image. MayShow (S.site store.old) (StoreLeaves S.Store store.old) (disks (content_in (S.site store.old) t image))) }
    ensures first { CopySynced S.Store memory.old.operation store.old store.new }
{
    let (child, parent) = images(&memory.operation);
    store.sync()?; // What was written before lasts before the parent is written.
    let Some(mut row) = memory.tree.take(&parent) else {
        unreachable!()
    };
    let Some(from) = memory.tree.get(&child) else {
        unreachable!()
    };
    let copied = copy_sectors(store, pool, &from.image, &mut row.image, block);
    memory.tree.add(row);
    copied?;
    store.sync()?; // The copy lasts before the operation goes on.
    memory.operation.advance(block);
    Ok(())
}

/// Copies what the operation's image holds in a block into the operation's parent by one write, and the operation goes on behind the
/// block: the cursor stands behind it, or, of the leaf of an attached disk, a block below the cursor is not dirty any more.
/// All that was written before is made last first, and then the copy. The parent changes only in sectors that the image holds, and the
/// debt is less. It makes no commit and takes no memory; a buffer of the pool is borrowed.
///
/// # Errors
///
/// A call of the store failed; a stop leaves the disks from before.
pub fn copy_block<S: Store>(
    store: &mut S,
    memory: &mut Memory,
    pool: &mut Pool,
    block: u32,
) -> Result<(), Failed>
    requires session { IsBetweenSteps S.Store store.old memory.old }
    requires buffer { (0 < pool.old.free) × (512 * (1 + (S.site store.old).geometry.block) ≤ pool.old.bytes) }
    requires copying { copying memory.old.operation ≡ true }
    requires planned { next_step (store_shape S.Store store.old memory.old) ≡ plan.Copy block }
    ensures step { StepsOn S.Store 0 store.old store.new }
    ensures cause { Counts S.Store result store.old store.new }
    ensures pool { pool.new ≡ pool.old }
    ensures table { table_alone (S.table store.new) ≡ table_alone (S.table store.old) }
    ensures images { length memory.new.tree.rows ≡ length memory.old.tree.rows }
    ensures spare { memory.new.tree.spare ≡ memory.old.tree.spare }
    ensures operation { OnOk result (memory.new.operation ≡ advanced block memory.old.operation) }
    ensures others { (memory.new.records ≡ memory.old.records) × (memory.new.attached ≡ memory.old.attached) }
    ensures logs { memory.new.logs ≡ memory.old.logs }
    ensures session_still { OnOk result (IsBetweenSteps S.Store store.new memory.new) }
    ensures lowered { OnOk result (∥ IsLess (debt (store_shape S.Store store.new memory.new)) (debt (store_shape S.Store store.old memory.old)) ∥₁) }
    ensures shape { S.told → IsReadyStore S.Store store.old memory.old → OnOk result (ShapesAs S.Store command.Gc store.old memory.old store.new memory.new) }
    ensures done { S.told → IsReadyStore S.Store store.old memory.old → StoreDoes S.Store command.Gc store.old memory.old store.new memory.new (result ≡ Ok tt) }
    ensures masked { S.told → IsReadyStore S.Store store.old memory.old
        → Leaves S.Store store.new (λ t image. IsMasked memory.old.operation (store_content S.Store store.old) (content_in (S.site store.old) t image)) }
    ensures still { S.told → IsReadyStore S.Store store.old memory.old
        → Leaves S.Store store.new (λ t image. MayShow (S.site store.old) (StoreLeaves S.Store store.old) (disks (content_in (S.site store.old) t image))) }
    ensures first { CopySynced S.Store memory.old.operation store.old store.new }
{
    copy_into_parent(store, memory, pool, block)
}

/// Copies a dirty block of the leaf of an attached disk again, as `copy_block` copies a block that is the collector's next; it is not
/// dirty any more. So the last dirty blocks are copied before the parent takes the leaf's place; where that is the collector's next step,
/// it stays so.
///
/// # Errors
///
/// Those of `copy_block`.
pub fn copy_dirty<S: Store>(
    store: &mut S,
    memory: &mut Memory,
    pool: &mut Pool,
    block: u32,
) -> Result<(), Failed>
    requires session { IsBetweenSteps S.Store store.old memory.old }
    requires buffer { (0 < pool.old.free) × (512 * (1 + (S.site store.old).geometry.block) ≤ pool.old.bytes) }
    requires dirty { is_dirty block (dirty_in memory.old.operation) ≡ true }
    ensures step { StepsOn S.Store 0 store.old store.new }
    ensures cause { Counts S.Store result store.old store.new }
    ensures pool { pool.new ≡ pool.old }
    ensures table { table_alone (S.table store.new) ≡ table_alone (S.table store.old) }
    ensures images { length memory.new.tree.rows ≡ length memory.old.tree.rows }
    ensures spare { memory.new.tree.spare ≡ memory.old.tree.spare }
    ensures operation { OnOk result (memory.new.operation ≡ advanced block memory.old.operation) }
    ensures others { (memory.new.records ≡ memory.old.records) × (memory.new.attached ≡ memory.old.attached) }
    ensures logs { memory.new.logs ≡ memory.old.logs }
    ensures session_still { OnOk result (IsBetweenSteps S.Store store.new memory.new) }
    ensures next { next_step (store_shape S.Store store.old memory.old) ≡ plan.Swap → OnOk result (next_step (store_shape S.Store store.new memory.new) ≡ plan.Swap) }
    ensures shape { S.told → IsReadyStore S.Store store.old memory.old
        → OnOk result (store_shape S.Store store.new memory.new ≡ copied memory.old.operation block (store_shape S.Store store.old memory.old)) }
    ensures done { S.told → IsReadyStore S.Store store.old memory.old → StoreDoes S.Store command.Gc store.old memory.old store.new memory.new (result ≡ Ok tt) }
    ensures masked { S.told → IsReadyStore S.Store store.old memory.old
        → Leaves S.Store store.new (λ t image. IsMasked memory.old.operation (store_content S.Store store.old) (content_in (S.site store.old) t image)) }
    ensures still { S.told → IsReadyStore S.Store store.old memory.old
        → Leaves S.Store store.new (λ t image. MayShow (S.site store.old) (StoreLeaves S.Store store.old) (disks (content_in (S.site store.old) t image))) }
    ensures first { CopySynced S.Store memory.old.operation store.old store.new }
{
    copy_into_parent(store, memory, pool, block)
}
