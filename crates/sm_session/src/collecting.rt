//! Carrying out a step of the collector.

ghost use Rattle.std.specs.Prelude.{◌≡◌, ◌≤◌, ◌<◌, ◌+◌, ◌*◌, ℕ, List, true, false, IfOk, OnOk, length};
ghost use Rattle.std.specs.declared.result.Result.TheVariants.{Err, Ok};
ghost use Rattle.sm_base.specs.declared.faults.CallFault.TheVariants as fault;
ghost use Rattle.sm_base.specs.declared.refusals.Refusal.{Refusal};
ghost use Rattle.sm_base.specs.declared.refusals.Refusal.TheVariants.{NoMemory};
ghost use Rattle.vg_meta.specs.Tables.{VolumeTable};
ghost use Rattle.sm_machine.specs.Collector.{IsLess, debt, next_step};
ghost use Rattle.sm_machine.specs.Laws.{is_working};
ghost use Rattle.sm_machine.specs.Runs.{is_accepted};
ghost use Rattle.sm_machine.specs.Shapes.{image_limit};
ghost use Rattle.sm_machine.specs.declared.commands.Command.TheVariants as command;
ghost use Rattle.sm_machine.specs.declared.replies.Reply.TheVariants.{No};
ghost use Rattle.vg_volumes.specs.Stored.{OnlyReads, Counts};
ghost use Rattle.sm_ready.specs.Does.{ShapesAs, StoreDoes, store_shape};
ghost use Rattle.sm_ready.specs.Framing.{CountsDevice, IsBetweenSteps, StepsOn};
ghost use Rattle.sm_ready.specs.Sessions.{IsReadyStore};
ghost use Rattle.sm_ready.specs.Taken.{StoreTakes};
ghost use Rattle.sm_run.specs.Runs.{begins};

use gc_coalesce::{
    abandon, begin, begin_leaf, begin_live, copy_block, finish, relink_one, remove, turn,
};
use gc_live::swap;
use gc_plan::ChildCounts;
use sm_base::{CallFault, Failed, Name, Plan, Refusal};
use sm_machine::Reply;
use sm_pool::Pool;
use sm_ready::Memory;
use sm_space::deflate;
use std::alloc::Global;
use vg_volumes::Store;

/// Takes the collector's next step.
pub(crate) fn gc<S: Store>(
    alloc: Global,
    store: &mut S,
    memory: &mut Memory,
    pool: &mut Pool,
    children: &mut ChildCounts,
) -> Result<Reply, Failed>
    requires session { IsBetweenSteps S.Store store.old memory.old }
    requires buffer { (0 < pool.old.free) × (512 * (1 + (S.site store.old).geometry.block) ≤ pool.old.bytes) }
    requires children { image_limit ≤ length children.old }
    ensures step { StepsOn S.Store 5 store.old store.new }
    ensures cause { Counts S.Store result store.old store.new }
    ensures pool { pool.new ≡ pool.old }
    ensures children { length children.new ≡ length children.old }
    ensures session_still { OnOk result (IsBetweenSteps S.Store store.new memory.new) }
    ensures logs { memory.new.logs ≡ memory.old.logs }
    ensures refused { IfOk result (λ r. is_accepted r ≡ false → (t : VolumeTable) (image : ℕ → List ℕ) → S.leaves store.new t image → S.leaves store.old t image) }
    ensures spared_plan { IfOk result (λ r. r ≡ No NoMemory → begins (next_step (store_shape S.Store store.old memory.old)) ≡ true) }
    ensures poor { IfOk result (λ r. (x : Refusal) → r ≡ No x → x ≡ NoMemory) }
    ensures untouched { IfOk result (λ r. is_accepted r ≡ false → OnlyReads S.Store store.old store.new × (memory.new ≡ memory.old)) }
    ensures lowered { IfOk result (λ r. is_accepted r ≡ true
        → is_working (next_step (store_shape S.Store store.old memory.old)) ≡ true
        → ∥ IsLess (debt (store_shape S.Store store.new memory.new)) (debt (store_shape S.Store store.old memory.old)) ∥₁) }
    ensures taken { S.told → IsReadyStore S.Store store.old memory.old
        → StoreTakes S.Store command.Gc store.old memory.old store.new memory.new result }
{
    let geometry = store.geometry();
    let extents = store.extents();
    let plan = gc_plan::plan(store.table(), memory, children, &geometry, extents);
    collect(alloc, store, memory, pool, plan)
}

/// Takes the step that is planned, and answers it with the operation from before. Only one that begins takes memory, and one that is
/// blocked or idle does nothing. A buffer of the pool is borrowed and given back.
fn collect<S: Store>(
    alloc: Global,
    store: &mut S,
    memory: &mut Memory,
    pool: &mut Pool,
    plan: Plan,
) -> Result<Reply, Failed>
    requires session { IsBetweenSteps S.Store store.old memory.old }
    requires buffer { (0 < pool.old.free) × (512 * (1 + (S.site store.old).geometry.block) ≤ pool.old.bytes) }
    requires planned { next_step (store_shape S.Store store.old memory.old) ≡ plan }
    ensures step { StepsOn S.Store 5 store.old store.new }
    ensures cause { Counts S.Store result store.old store.new }
    ensures pool { pool.new ≡ pool.old }
    ensures session_still { OnOk result (IsBetweenSteps S.Store store.new memory.new) }
    ensures logs { memory.new.logs ≡ memory.old.logs }
    ensures refused { IfOk result (λ r. is_accepted r ≡ false → (t : VolumeTable) (image : ℕ → List ℕ) → S.leaves store.new t image → S.leaves store.old t image) }
    ensures spared { IfOk result (λ r. r ≡ No NoMemory → begins plan ≡ true) }
    ensures poor { IfOk result (λ r. (x : Refusal) → r ≡ No x → x ≡ NoMemory) }
    ensures untouched { IfOk result (λ r. is_accepted r ≡ false → OnlyReads S.Store store.old store.new × (memory.new ≡ memory.old)) }
    ensures lowered { IfOk result (λ r. is_accepted r ≡ true → is_working plan ≡ true
        → ∥ IsLess (debt (store_shape S.Store store.new memory.new)) (debt (store_shape S.Store store.old memory.old)) ∥₁) }
    ensures taken { S.told → IsReadyStore S.Store store.old memory.old
        → StoreTakes S.Store command.Gc store.old memory.old store.new memory.new result }
{
    let operation = memory.operation.told();
    match &plan {
        Plan::Begin { .. } | Plan::Leaf { .. } | Plan::Live { .. } => match start(
            alloc, store, memory, &plan,
        ) {
            Ok(()) => Ok(Reply::Gc(plan, operation)),
            Err(CallFault::NoMemory) => Ok(Reply::No(Refusal::NoMemory)),
            Err(CallFault::Device) => Err(Failed),
        },
        Plan::Blocked { .. } | Plan::Idle => Ok(Reply::Gc(plan, operation)),
        _ => {
            work(store, memory, pool, plan)?;
            Ok(Reply::Gc(plan, operation))
        }
    }
}

/// Begins to fold an image into its parent: a hidden one, or the leaf of a disk, attached or not. It alone takes memory.
fn start<S: Store>(
    alloc: Global,
    store: &mut S,
    memory: &mut Memory,
    plan: &Plan,
) -> Result<(), CallFault>
    requires session { IsBetweenSteps S.Store store.old memory.old }
    requires planned { next_step (store_shape S.Store store.old memory.old) ≡ plan.now }
    requires working { begins plan.now ≡ true }
    ensures step { StepsOn S.Store 4 store.old store.new }
    ensures cause { CountsDevice S.Store result store.old store.new }
    ensures session_still { OnOk result (IsBetweenSteps S.Store store.new memory.new) }
    ensures logs { memory.new.logs ≡ memory.old.logs }
    ensures poor { result ≡ Err fault.NoMemory
        → OnlyReads S.Store store.old store.new × ((t : VolumeTable) (image : ℕ → List ℕ) → S.leaves store.new t image → S.leaves store.old t image)
        × (memory.new ≡ memory.old) }
    ensures shape { OnOk result (ShapesAs S.Store command.Gc store.old memory.old store.new memory.new) }
    ensures done { S.told → IsReadyStore S.Store store.old memory.old → StoreDoes S.Store command.Gc store.old memory.old store.new memory.new (result ≡ Ok tt) }
{
    match plan {
        Plan::Begin { child, parent, to } => begin(alloc, store, memory, child, parent, *to),
        Plan::Leaf { leaf, parent, to } => begin_leaf(alloc, store, memory, leaf, parent, *to),
        Plan::Live { leaf, parent, to } => begin_live(alloc, store, memory, leaf, parent, *to),
        _ => unreachable!(),
    }
}

/// Takes a step that does something and begins nothing. It takes no memory.
fn work<S: Store>(
    store: &mut S,
    memory: &mut Memory,
    pool: &mut Pool,
    plan: Plan,
) -> Result<(), Failed>
    requires session { IsBetweenSteps S.Store store.old memory.old }
    requires buffer { (0 < pool.old.free) × (512 * (1 + (S.site store.old).geometry.block) ≤ pool.old.bytes) }
    requires planned { next_step (store_shape S.Store store.old memory.old) ≡ plan }
    requires working { is_working plan ≡ true }
    requires no_begin { begins plan ≡ false }
    ensures step { StepsOn S.Store 5 store.old store.new }
    ensures cause { Counts S.Store result store.old store.new }
    ensures pool { pool.new ≡ pool.old }
    ensures session_still { OnOk result (IsBetweenSteps S.Store store.new memory.new) }
    ensures logs { memory.new.logs ≡ memory.old.logs }
    ensures lowered { OnOk result (∥ IsLess (debt (store_shape S.Store store.new memory.new)) (debt (store_shape S.Store store.old memory.old)) ∥₁) }
    ensures shape { S.told → IsReadyStore S.Store store.old memory.old → OnOk result (ShapesAs S.Store command.Gc store.old memory.old store.new memory.new) }
    ensures done { S.told → IsReadyStore S.Store store.old memory.old → StoreDoes S.Store command.Gc store.old memory.old store.new memory.new (result ≡ Ok tt) }
{
    match plan {
        Plan::Remove { name } => remove(store, memory, &name),
        Plan::Deflate { name, to } => {
            let Name::Vhd(disk) = name else {
                unreachable!()
            };
            deflate(store, memory, &disk, to)
        }
        Plan::Copy { block } => copy_block(store, memory, pool, block),
        Plan::Turn => turn(store, memory),
        Plan::RelinkOne { child } => relink_one(store, memory, &child),
        Plan::Finish => finish(store, memory),
        Plan::Swap => swap(store, memory, pool),
        Plan::Abandon => abandon(store, memory),
        _ => unreachable!(),
    }
}
