//! The fold of a leaf is given up: the journal entry of the operation goes, by one commit.

ghost use Rattle.std.specs.Prelude.{◌≡◌, true, false, Some, [], ◌∷◌, OnErr, OnOk};
ghost use Rattle.std.specs.declared.result.Result.TheVariants.{Ok};
ghost use Rattle.sm_base.specs.declared.names.Name.{Name as NameModel};
ghost use Rattle.sm_base.specs.declared.names.Name.TheVariants.{Leaf};
ghost use Rattle.sm_machine.specs.Operations.{Idle, Op as OpModel, told};
ghost use Rattle.sm_disk.specs.Held.{Keeps};
ghost use Rattle.vg_meta.specs.Roomy.{table_alone};
ghost use Rattle.vg_meta.specs.declared.changes.Change.TheVariants.{Remove};
ghost use Rattle.vg_volumes.specs.Stored.{Commits, Counts};
ghost use Rattle.sm_machine.specs.Commits.{folds};
ghost use Rattle.sm_machine.specs.Shapes.{image_uuid};
ghost use Rattle.sm_machine.specs.WellFormed.{is_image_name};
ghost use Rattle.sm_standing.specs.Standing.{disks};
ghost use Rattle.sm_ready.specs.Does.{store_shape};
ghost use Rattle.sm_ready.specs.Done.{HasDone};
ghost use Rattle.sm_ready.specs.Framing.{IsBetweenSteps, StepsOn};
ghost use Rattle.sm_ready.specs.Known.{entry_of, known};
ghost use Rattle.sm_ready.specs.Sessions.{IsReadyStore};
ghost use Rattle.sm_ready.specs.Stores.{StoreLeaves, store_content};
ghost use Rattle.gc_abandon.specs.Abandoning.{abandoned, abandoned_where, folded_pair, folding, unfolded};

use sm_base::{Failed, Name, Op};
use sm_journal::drop_entry;
use sm_ready::Memory;
use uuid::Uuid;
use vg_volumes::Store;

/// The UUID in the name of an image.
#[tactic(auto, unfolding(sm_machine::specs::Shapes::image_uuid, sm_machine::specs::WellFormed::is_image_name))]
pub fn uuid_of(name: &Name) -> Uuid
    requires image { is_image_name name.now ≡ true }
    ensures { result ≡ image_uuid name.now }
{
    match *name {
        Name::Vhd(uuid) | Name::Raw(uuid) => uuid,
        Name::Mgt
        | Name::Old(_)
        | Name::Cbt(_)
        | Name::Clone { .. }
        | Name::Inflate { .. }
        | Name::Coalesce { .. }
        | Name::Relink { .. }
        | Name::Leaf { .. } => unreachable!(),
    }
}

/// The journal entry of the fold of a leaf.
pub fn leaf_entry(leaf: &Name, parent: &Name) -> Name
    requires leaf { is_image_name leaf.now ≡ true }
    requires parent { is_image_name parent.now ≡ true }
    ensures { result ≡ Leaf (image_uuid leaf.now) (image_uuid parent.now) }
{
    Name::Leaf {
        leaf: uuid_of(leaf),
        parent: uuid_of(parent),
    }
}

/// The leaf that the operation folds, and its parent.
fn folded(operation: &Op) -> Option<(Name, Name)>
    ensures { result ≡ folded_pair operation.now }
{
    match *operation {
        Op::Leaf { leaf, parent, .. } => Some((leaf, parent)),
        Op::Live { leaf, parent, .. } => Some((leaf, parent)),
        Op::Idle => None,
        Op::Copy { .. } => None,
        Op::Relink { .. } => None,
    }
}

/// Gives the fold of a leaf up: its entry goes, by one commit. No disk changes, since what was copied reads alike from leaf and
/// parent. It takes no memory.
///
/// # Errors
///
/// A call of the store failed; a stop leaves the disks from before.
fn abandon_leaf<S: Store>(store: &mut S, memory: &mut Memory) -> Result<(), Failed>
    requires session { IsBetweenSteps S.Store store.old memory.old }
    requires folding { folding memory.old.operation ≡ true }
    ensures step { StepsOn S.Store 1 store.old store.new }
    ensures cause { Counts S.Store result store.old store.new }
    ensures session_still { OnOk result (IsBetweenSteps S.Store store.new memory.new) }
    ensures keeps { S.told → Keeps (S.area store.old) (S.area store.new) }
    ensures operation { OnOk result (memory.new.operation ≡ Idle) }
    ensures others { (memory.new.tree ≡ memory.old.tree) × (memory.new.records ≡ memory.old.records) × (memory.new.attached ≡ memory.old.attached) }
    ensures logs { memory.new.logs ≡ memory.old.logs }
    ensures commits { OnOk result ((e : NameModel) → entry_of memory.old.operation ≡ e ∷ [] → Commits S.Store (Remove e) store.old store.new) }
    ensures shape { OnOk result (store_shape S.Store store.new memory.new ≡ abandoned (store_shape S.Store store.old memory.old)) }
    ensures done { S.told → IsReadyStore S.Store store.old memory.old
        → HasDone (S.site store.old) (table_alone (S.table store.old)) (table_alone (S.table store.new)) (S.area store.old) (S.area store.new) (known memory.new)
        (StoreLeaves S.Store store.old) (StoreLeaves S.Store store.new) (result ≡ Ok tt) (disks (store_content S.Store store.old)) }
{
    let Some((leaf, parent)) = folded(&memory.operation.told()) else {
        unreachable!()
    };
    drop_entry(store, &leaf_entry(&leaf, &parent))?;
    memory.operation.set(Op::Idle);
    Ok(())
}

/// Whether the operation folds the leaf of this disk, as the operation is told.
pub fn is_folded(operation: &Op, disk: &Uuid) -> bool
    requires { (leaf parent : NameModel) → folded_pair operation.now ≡ Some (leaf, parent) → is_image_name leaf ≡ true }
    ensures { (o : OpModel) → told o ≡ operation.now → result ≡ folds o disk.now }
{
    let Some((leaf, _)) = folded(operation) else {
        return false;
    };
    uuid_of(&leaf) == *disk
}

/// Begins a command on a disk: where the running operation folds the leaf of this disk, it is given up, by one commit; else nothing
/// is done. It takes no memory.
///
/// # Errors
///
/// A call of the store failed; a stop leaves the disks from before.
pub fn give_up<S: Store>(store: &mut S, memory: &mut Memory, disk: &Uuid) -> Result<(), Failed>
    requires session { IsBetweenSteps S.Store store.old memory.old }
    ensures step { StepsOn S.Store 1 store.old store.new }
    ensures cause { Counts S.Store result store.old store.new }
    ensures session_still { OnOk result (IsBetweenSteps S.Store store.new memory.new) }
    ensures keeps { S.told → Keeps (S.area store.old) (S.area store.new) }
    ensures operation { OnOk result (memory.new.operation ≡ unfolded memory.old.operation disk.now) }
    ensures others { (memory.new.tree ≡ memory.old.tree) × (memory.new.records ≡ memory.old.records) × (memory.new.attached ≡ memory.old.attached) }
    ensures logs { memory.new.logs ≡ memory.old.logs }
    ensures none { folds memory.old.operation disk.now ≡ false → (result ≡ Ok tt) × (store.new ≡ store.old) × (memory.new ≡ memory.old) }
    ensures commits { OnOk result (folds memory.old.operation disk.now ≡ true
        → (e : NameModel) → entry_of memory.old.operation ≡ e ∷ [] → Commits S.Store (Remove e) store.old store.new) }
    ensures shape { OnOk result (store_shape S.Store store.new memory.new ≡ abandoned_where (folds memory.old.operation disk.now) (store_shape S.Store store.old memory.old)) }
    ensures done { folds memory.old.operation disk.now ≡ true → S.told → IsReadyStore S.Store store.old memory.old
        → HasDone (S.site store.old) (table_alone (S.table store.old)) (table_alone (S.table store.new)) (S.area store.old) (S.area store.new) (known memory.new)
        (StoreLeaves S.Store store.old) (StoreLeaves S.Store store.new) (result ≡ Ok tt) (disks (store_content S.Store store.old)) }
{
    if !is_folded(&memory.operation.told(), disk) {
        return Ok(());
    }
    abandon_leaf(store, memory)
}
