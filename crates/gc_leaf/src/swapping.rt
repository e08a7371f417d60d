//! The parent takes the leaf's place.

ghost use Rattle.std.specs.Prelude.{◌≡◌, ◌+◌, ◌<◌, [], true, length, OnErr, OnOk};
ghost use Rattle.std.specs.declared.result.Result.TheVariants.{Ok};
ghost use Rattle.sm_base.specs.declared.names.Name.{Name as NameModel};
ghost use Rattle.sm_machine.specs.Operations as op;
ghost use Rattle.sm_base.specs.declared.operations.Plan.TheVariants as plan;
ghost use Rattle.sm_disk.specs.Held.{Keeps};
ghost use Rattle.vg_meta.specs.Roomy.{table_alone};
ghost use Rattle.vg_volumes.specs.Stored.{Counts, Leaves};
ghost use Rattle.vhd_chain.specs.Trees.{tree_row};
ghost use Rattle.sm_machine.specs.Collector.{next_step};
ghost use Rattle.sm_machine.specs.Shapes.{image_uuid, is_vhd};
ghost use Rattle.sm_machine.specs.declared.commands.Command.TheVariants as command;
ghost use Rattle.sm_operation.specs.Kept.{dirty_in};
ghost use Rattle.sm_ready.specs.Does.{ShapesAs, StoreDoes, store_shape};
ghost use Rattle.sm_ready.specs.Framing.{IsBetweenSteps, StepsOn};
ghost use Rattle.sm_ready.specs.Sessions.{IsReadyStore};
ghost use Rattle.sm_ready.specs.Stores.{MayShow, StoreLeaves, content_in};
ghost use Rattle.sm_standing.specs.Standing.{disks};
ghost use Rattle.gc_leaf.specs.Swapping.{CanFold, CountsAs, IsFoldingOf, IsMoved, is_folding, swapped_rows};

use crate::runs::run;
use sm_base::{Failed, Name, Op};
use sm_operation::Operation;
use sm_ready::Memory;
use sm_refs::Attachments;
use uuid::Uuid;
use vg_volumes::Store;
use vhd_chain::Tree;

/// The UUID in the name of a VHD image.
#[tactic(auto, unfolding(sm_machine::specs::Shapes::image_uuid, sm_machine::specs::Shapes::is_vhd))]
fn vhd_uuid(name: &Name) -> Uuid
    requires { is_vhd name.now ≡ true }
    ensures { result ≡ image_uuid name.now }
{
    match *name {
        Name::Vhd(uuid) => uuid,
        Name::Mgt
        | Name::Raw(_)
        | Name::Old(_)
        | Name::Cbt(_)
        | Name::Clone { .. }
        | Name::Inflate { .. }
        | Name::Coalesce { .. }
        | Name::Relink { .. }
        | Name::Leaf { .. } => unreachable!(),
    }
}

/// The leaf's row goes, and the parent's gets the leaf's name and is not hidden. It takes no memory.
fn fold(tree: &mut Tree, leaf: &Name, parent: &Name)
    requires { CanFold tree.old leaf.now parent.now }
    ensures rows { tree.new.rows ≡ swapped_rows leaf.now (tree_row tree.old.rows parent.now) parent.now tree.old.rows }
    ensures spare { tree.new.spare ≡ tree.old.spare + 1 }
{
    let Some(_) = tree.take(leaf) else {
        unreachable!()
    };
    let Some(mut row) = tree.take(parent) else {
        unreachable!()
    };
    row.image.renamed(*leaf);
    row.hidden = false;
    tree.add(row);
}

/// The leaf that is folded, and its parent.
fn folded(operation: &Operation) -> (Name, Name)
    requires folds { is_folding operation.now ≡ true }
    ensures { IsFoldingOf operation.now result.0 result.1 }
{
    match operation.told() {
        Op::Leaf { leaf, parent, .. } => (leaf, parent),
        Op::Live { leaf, parent, .. } => (leaf, parent),
        Op::Idle => unreachable!(),
        Op::Copy { .. } => unreachable!(),
        Op::Relink { .. } => unreachable!(),
    }
}

/// Where the folded leaf is attached, none is counted under its parent's name any more. It takes no memory.
fn recount(attached: &mut Attachments, operation: &Operation, parent: &Name)
    ensures { CountsAs operation.now parent.now attached.old attached.new }
{
    if let Op::Live { .. } = operation.told() {
        attached.swapped(parent);
    }
}

/// All that the leaf of a disk holds was copied into its parent, and no block is dirty: the leaf goes, and the parent takes its name,
/// by five commits. Where the disk is attached, it stays so. No sector is written, and it takes no memory.
///
/// # Errors
///
/// A call of the store failed: memory is as it was, the store makes no further commit, and a stop leaves the disks from before.
pub fn swap<S: Store>(store: &mut S, memory: &mut Memory) -> Result<(), Failed>
    requires session { IsBetweenSteps S.Store store.old memory.old }
    requires planned { next_step (store_shape S.Store store.old memory.old) ≡ plan.Swap }
    requires clean { dirty_in memory.old.operation ≡ [] }
    ensures step { StepsOn S.Store 5 store.old store.new }
    ensures cause { Counts S.Store result store.old store.new }
    ensures keeps { S.told → Keeps (S.area store.old) (S.area store.new) }
    ensures stuck { OnErr result (S.failed store.new ≡ true) }
    ensures unchanged { OnErr result (memory.new ≡ memory.old) }
    ensures moved { OnOk result ((leaf parent : NameModel) → IsFoldingOf memory.old.operation leaf parent
        → IsMoved (table_alone (S.table store.old)) (table_alone (S.table store.new)) leaf parent) }
    ensures operation { OnOk result (memory.new.operation ≡ op.Idle) }
    ensures counts { OnOk result ((leaf parent : NameModel) → IsFoldingOf memory.old.operation leaf parent
        → CountsAs memory.old.operation parent memory.old.attached memory.new.attached) }
    ensures others { memory.new.records ≡ memory.old.records }
    ensures logs { memory.new.logs ≡ memory.old.logs }
    ensures images { OnOk result (length memory.new.tree.rows < length memory.old.tree.rows) }
    ensures session_still { OnOk result (IsBetweenSteps S.Store store.new memory.new) }
    ensures shape { OnOk result (ShapesAs S.Store command.Gc store.old memory.old store.new memory.new) }
    ensures done { S.told → IsReadyStore S.Store store.old memory.old → StoreDoes S.Store command.Gc store.old memory.old store.new memory.new (result ≡ Ok tt) }
    ensures still { S.told → IsReadyStore S.Store store.old memory.old
        → Leaves S.Store store.new (λ t image. MayShow (S.site store.old) (StoreLeaves S.Store store.old) (disks (content_in (S.site store.old) t image))) }
{
    let (leaf, parent) = folded(&memory.operation);
    run(store, vhd_uuid(&leaf), vhd_uuid(&parent))?;
    fold(&mut memory.tree, &leaf, &parent);
    recount(&mut memory.attached, &memory.operation, &parent);
    memory.operation.set(Op::Idle);
    Ok(())
}
