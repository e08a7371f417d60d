//! The dirty blocks of a leaf are copied, and its parent takes its place.

ghost use Rattle.std.specs.Prelude.{◌≡◌, ◌≤◌, ◌<◌, ◌+◌, ◌*◌, [], length, Some, OnOk};
ghost use Rattle.std.specs.declared.result.Result.TheVariants.{Ok};
ghost use Rattle.sm_base.specs.declared.names.Name.{Name as NameModel};
ghost use Rattle.sm_base.specs.declared.operations.Plan.TheVariants as plan;
ghost use Rattle.vg_meta.specs.Roomy.{table_alone};
ghost use Rattle.vg_volumes.specs.Stored.{Counts, Leaves};
ghost use Rattle.sm_machine.specs.Collector.{IsLess, debt, next_step};
ghost use Rattle.sm_machine.specs.Operations as op;
ghost use Rattle.sm_machine.specs.declared.commands.Command.TheVariants as command;
ghost use Rattle.sm_operation.specs.Kept.{dirty_in, least};
ghost use Rattle.sm_standing.specs.Standing.{disks};
ghost use Rattle.sm_ready.specs.Does.{ShapesAs, StoreDoes, store_shape};
ghost use Rattle.sm_ready.specs.Done.{HasDone};
ghost use Rattle.sm_ready.specs.Framing.{IsBetweenSteps, StepsOn};
ghost use Rattle.sm_ready.specs.Known.{known};
ghost use Rattle.sm_ready.specs.Sessions.{IsReadyStore};
ghost use Rattle.sm_ready.specs.Stores.{MayShow, StoreLeaves, content_in, store_content};
ghost use Rattle.gc_leaf.specs.Swapping.{CountsAs, IsFoldingOf};
ghost use Rattle.gc_live.specs.Cleaning.{IsCleaned};

use gc_coalesce::copy_dirty;
use sm_base::Failed;
use sm_pool::Pool;
use sm_ready::Memory;
use vg_volumes::Store;

/// Copies each dirty block, the least first, which is this one.
fn clean<S: Store>(
    store: &mut S,
    memory: &mut Memory,
    pool: &mut Pool,
    first: u32,
) -> Result<(), Failed>
    requires session { IsBetweenSteps S.Store store.old memory.old }
    requires buffer { (0 < pool.old.free) × (512 * (1 + (S.site store.old).geometry.block) ≤ pool.old.bytes) }
    requires first { least (dirty_in memory.old.operation) ≡ Some first }
    ensures step { StepsOn S.Store 0 store.old store.new }
    ensures cause { Counts S.Store result store.old store.new }
    ensures pool { pool.new ≡ pool.old }
    ensures others { (memory.new.records ≡ memory.old.records) × (memory.new.attached ≡ memory.old.attached) }
    ensures logs { memory.new.logs ≡ memory.old.logs }
    ensures cleaned { OnOk result (IsCleaned S.Store store.old memory.old store.new memory.new) }
    ensures none { OnOk result (dirty_in memory.new.operation ≡ []) }
    ensures done { S.told → IsReadyStore S.Store store.old memory.old
        → HasDone (S.site store.old) (table_alone (S.table store.old)) (table_alone (S.table store.new)) (S.area store.old) (S.area store.new) (known memory.new)
        (StoreLeaves S.Store store.old) (StoreLeaves S.Store store.new) (result ≡ Ok tt) (disks (store_content S.Store store.old)) }
    ensures still { S.told → IsReadyStore S.Store store.old memory.old
        → Leaves S.Store store.new (λ t image. MayShow (S.site store.old) (StoreLeaves S.Store store.old) (disks (content_in (S.site store.old) t image))) }
{
    copy_dirty(store, memory, pool, first)?;
    while let Some(block) = memory.operation.least_dirty() {
        copy_dirty(store, memory, pool, block)?;
    }
    Ok(())
}

/// The dirty blocks of a disk's leaf are copied into its parent, the least first, and then the leaf goes and the parent takes its name,
/// by five commits. An attached disk stays attached. It takes no memory; a buffer of the pool is borrowed.
///
/// # Errors
///
/// A call of the store failed; a stop leaves the disks from before.
pub fn swap<S: Store>(store: &mut S, memory: &mut Memory, pool: &mut Pool) -> Result<(), Failed>
    requires session { IsBetweenSteps S.Store store.old memory.old }
    requires buffer { (0 < pool.old.free) × (512 * (1 + (S.site store.old).geometry.block) ≤ pool.old.bytes) }
    requires planned { next_step (store_shape S.Store store.old memory.old) ≡ plan.Swap }
    ensures step { StepsOn S.Store 5 store.old store.new }
    ensures cause { Counts S.Store result store.old store.new }
    ensures pool { pool.new ≡ pool.old }
    ensures operation { OnOk result (memory.new.operation ≡ op.Idle) }
    ensures counts { OnOk result ((leaf parent : NameModel) → IsFoldingOf memory.old.operation leaf parent
        → CountsAs memory.old.operation parent memory.old.attached memory.new.attached) }
    ensures records { memory.new.records ≡ memory.old.records }
    ensures logs { memory.new.logs ≡ memory.old.logs }
    ensures session_still { OnOk result (IsBetweenSteps S.Store store.new memory.new) }
    ensures lowered { OnOk result (∥ IsLess (debt (store_shape S.Store store.new memory.new)) (debt (store_shape S.Store store.old memory.old)) ∥₁) }
    ensures shape { S.told → IsReadyStore S.Store store.old memory.old → OnOk result (ShapesAs S.Store command.Gc store.old memory.old store.new memory.new) }
    ensures done { S.told → IsReadyStore S.Store store.old memory.old → StoreDoes S.Store command.Gc store.old memory.old store.new memory.new (result ≡ Ok tt) }
    ensures still { S.told → IsReadyStore S.Store store.old memory.old
        → Leaves S.Store store.new (λ t image. MayShow (S.site store.old) (StoreLeaves S.Store store.old) (disks (content_in (S.site store.old) t image))) }
{
    let Some(first) = memory.operation.least_dirty() else {
        return gc_leaf::swap(store, memory);
    };
    clean(store, memory, pool, first)?;
    gc_leaf::swap(store, memory)
}
