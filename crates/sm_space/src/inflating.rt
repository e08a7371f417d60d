//! The volume of a VHD image gets more extents, under a journal entry.
//!
//! An image ends where its volume ends, and there its footer stands. In new extents anything may stand, even the footer of
//! another image. So an entry is made first that says how many extents the image had; while it stands the image is read in
//! these. Then the volume grows, the footer is written at its new end, and the commit that drops the entry makes that footer
//! last before it lets the image end there.

ghost use Rattle.std.specs.Prelude.{◌≡◌, ◌≤◌, ◌<◌, ◌*◌, ◌-◌, ℕ, List, length, Some, IsSome, IfOk, OnOk, OnErr};
ghost use Rattle.std.specs.declared.result.Result.TheVariants.{Ok, Err};
ghost use Rattle.sm_base.specs.declared.faults.CallFault.TheVariants as fault;
ghost use Rattle.sm_base.specs.declared.names.Name.TheVariants.{Vhd, Inflate};
ghost use Rattle.vg_meta.specs.Changes.{HasRoom, Permits, applied};
ghost use Rattle.vg_meta.specs.Roomy.{table_alone};
ghost use Rattle.vg_meta.specs.Tables.{VolumeTable, free as free_of};
ghost use Rattle.vg_meta.specs.declared.changes.Change.TheVariants.{Grow};
ghost use Rattle.vg_volumes.specs.Stored.{OnlyReads, WorksOn, Counts, Leaves};
ghost use Rattle.vhd_volumes.specs.Steps.{Does};
ghost use Rattle.vhd_volumes.specs.Writes.{KeepsBut};
ghost use Rattle.vhd_image.specs.Bodies.{IfVhdDoes};
ghost use Rattle.vhd_image.specs.Changes.{StaysTrueIn, EndsAt};
ghost use Rattle.vhd_chain.specs.Trees.{tree_row};
ghost use Rattle.sm_standing.specs.Standing.{disks};
ghost use Rattle.sm_journal.specs.Entries.{putting};
ghost use Rattle.sm_ready.specs.Does.{store_shape};
ghost use Rattle.sm_ready.specs.Done.{HasDone};
ghost use Rattle.sm_ready.specs.Framing.{CountsDevice, IsBetweenSteps, StepsOn};
ghost use Rattle.sm_ready.specs.Known.{known};
ghost use Rattle.sm_ready.specs.Sessions.{IsReadyStore};
ghost use Rattle.sm_ready.specs.Stores.{MayShow, StoreLeaves, content_in, store_content};
ghost use Rattle.sm_calls.specs.Calls.{CanRun, DoesRun};
ghost use Rattle.sm_space.specs.Inflating.{CanEnd, CanEndIn, IfRow, growth_calls, extents_in, inflated, with_extents, HasFree, IsBelow, IsEnlarged, IsGrowth};

use sm_base::{CallFault, Failed, Name, NoMemory};
use sm_calls::commit;
use sm_journal::{drop_entry, put};
use sm_ready::Memory;
use std::alloc::Global;
use uuid::Uuid;
use vg_extents::{FitFault, first_fit};
use vg_meta::{Change, Extents};
use vg_volumes::Store;
use vhd_chain::Tree;

/// How many extents the volume of an image has.
fn extents_of(tree: &Tree, name: &Name) -> u32
    requires { IsSome (tree_row tree.now.rows name.now) }
    ensures { result ≡ extents_in (tree_row tree.now.rows name.now) }
{
    let Some(row) = tree.get(name) else {
        unreachable!()
    };
    row.extents
}

/// Takes all memory: room for the entry's row, the list of so many of the least free extents, and room for them in the table.
/// The answer is the change that gives them to the volume.
fn prepare<S: Store>(
    alloc: Global,
    store: &mut S,
    volume: &Name,
    more: u32,
) -> Result<Change, NoMemory>
    requires free { more ≤ length (free_of (S.site store.old).count (table_alone (S.table store.old))) }
    ensures reads { OnlyReads S.Store store.old store.new }
    ensures calm { S.faults store.new ≡ S.faults store.old }
    ensures same { (S.site store.new ≡ S.site store.old) × (S.area store.new ≡ S.area store.old) }
    ensures table { table_alone (S.table store.new) ≡ table_alone (S.table store.old) }
    ensures leaves { (t : VolumeTable) (image : ℕ → List ℕ) → S.leaves store.new t image → S.leaves store.old t image }
    ensures row { OnOk result (0 < (S.table store.new).spare) }
    ensures growth { IfOk result (λ growth. IsGrowth (S.site store.old).count (table_alone (S.table store.old)) volume.now more growth) }
    ensures room { IfOk result (λ growth. Permits (S.site store.old).count (table_alone (S.table store.old)) growth → HasRoom (S.table store.new) growth) }
{
    store.reserve_rows(1)?;
    let extents = store.extents();
    let found = match first_fit(alloc, store.table(), extents, more) {
        Ok(found) => found,
        Err(FitFault::NoSpace { .. }) => unreachable!(),
        Err(FitFault::NoMemory) => return Err(NoMemory),
    };
    let growth = Change::Grow {
        name: *volume,
        extents: Extents::new(found),
    };
    store.reserve_for(&growth)?;
    Ok(growth)
}

/// Takes all memory that the volume of the VHD image of this UUID needs for more extents, so that it has so many: the least that are
/// free. The answer is the change that gives them to the volume.
///
/// # Errors
///
/// Memory ran out, and nothing was written.
pub fn plan_growth<S: Store>(
    alloc: Global,
    store: &mut S,
    memory: &Memory,
    disk: &Uuid,
    to: u32,
) -> Result<Change, NoMemory>
    requires session { IsBetweenSteps S.Store store.old memory.now }
    requires there { IsBelow memory.now.tree.rows disk.now to }
    requires free { HasFree (S.site store.old).count (table_alone (S.table store.old)) memory.now.tree.rows disk.now to }
    ensures reads { OnlyReads S.Store store.old store.new }
    ensures calm { S.faults store.new ≡ S.faults store.old }
    ensures same { (S.site store.new ≡ S.site store.old) × (S.area store.new ≡ S.area store.old) }
    ensures table { table_alone (S.table store.new) ≡ table_alone (S.table store.old) }
    ensures leaves { (t : VolumeTable) (image : ℕ → List ℕ) → S.leaves store.new t image → S.leaves store.old t image }
    ensures row { OnOk result (0 < (S.table store.new).spare) }
    ensures growth { IfOk result (λ growth. IsGrowth (S.site store.old).count (table_alone (S.table store.old)) (Vhd disk.now)
        (to - extents_in (tree_row memory.now.tree.rows (Vhd disk.now))) growth) }
    ensures places { IfOk result (λ growth. HasRoom (S.table store.new) growth) }
{
    let name = Name::Vhd(*disk);
    let had = extents_of(&memory.tree, &name);
    let growth = prepare(alloc, store, &name, to - had)?;
    Ok(growth)
}

/// Writes the footer of an image into the last sector of the first so many extents of its volume.
pub(crate) fn end_image<S: Store>(
    store: &mut S,
    tree: &Tree,
    name: &Name,
    to: u32,
) -> Result<(), Failed>
    requires image { CanEnd S.Store store.old tree.now.rows name.now to }
    ensures works { WorksOn S.Store name.now store.old store.new }
    ensures cause { Counts S.Store result store.old store.new }
    ensures others { Does S.Store name.now (KeepsBut (λ p. p ≡ to * (S.site store.old).geometry.extent - 1)) store.old store.new }
    ensures stays { IfRow (tree_row tree.now.rows name.now) (λ row. IfVhdDoes S.Store row.image (StaysTrueIn (S.site store.old).geometry) store.old store.new) }
    ensures ends { OnOk result (IfRow (tree_row tree.now.rows name.now)
        (λ row. IfVhdDoes S.Store row.image (EndsAt (S.site store.old).geometry (to * (S.site store.old).geometry.extent)) store.old store.new)) }
{
    let Some(row) = tree.get(name) else {
        unreachable!()
    };
    row.image.end(store, to)?;
    Ok(())
}

/// Notes in memory how many extents the volume of an image has.
pub(crate) fn set_extents(memory: &mut Memory, name: &Name, to: u32)
    requires there { IsSome (tree_row memory.old.tree.rows name.now) }
    ensures rows { memory.new.tree.rows ≡ with_extents name.now to memory.old.tree.rows }
    ensures spare { memory.new.tree.spare ≡ memory.old.tree.spare }
    ensures others { (memory.new.records ≡ memory.old.records) × (memory.new.attached ≡ memory.old.attached) × (memory.new.operation ≡ memory.old.operation) }
    ensures logs { memory.new.logs ≡ memory.old.logs }
{
    let _order = memory.tree.rows();
    let Some(mut row) = memory.tree.take(name) else {
        unreachable!()
    };
    row.extents = to;
    memory.tree.add(row);
}

/// Makes the entry, gives the volume its extents, writes the footer at the new end, and drops the entry.
fn run_growth<S: Store>(
    store: &mut S,
    tree: &Tree,
    name: &Name,
    entry: Name,
    to: u32,
    growth: Change,
) -> Result<(), Failed>
    requires can { CanRun S.Store
        (growth_calls (S.site store.old) (table_alone (S.table store.old)) entry growth name.now (tree_row tree.now.rows name.now) to) store.old }
    requires image { CanEndIn (S.site store.old) (applied (applied (table_alone (S.table store.old)) (putting entry)) growth) tree.now.rows name.now to }
    ensures run { OnOk result (DoesRun S.Store
        (growth_calls (S.site store.old) (table_alone (S.table store.old)) entry growth name.now (tree_row tree.now.rows name.now) to)
        store.old store.new (Unit {0})) }
    ensures cut { OnErr result (DoesRun S.Store
        (growth_calls (S.site store.old) (table_alone (S.table store.old)) entry growth name.now (tree_row tree.now.rows name.now) to)
        store.old store.new ⊥) }
    ensures cause { Counts S.Store result store.old store.new }
{
    put(store, entry)?;
    commit(store, growth)?;
    end_image(store, tree, name, to)?;
    drop_entry(store, &entry)?;
    Ok(())
}

/// Gives the volume of an image its extents, where all memory was taken before: the three commits, and the footer before the
/// last of them.
///
/// # Errors
///
/// A call of the store failed; a stop leaves the disks from before.
pub fn enlarge<S: Store>(
    store: &mut S,
    memory: &mut Memory,
    disk: &Uuid,
    to: u32,
    growth: Change,
) -> Result<(), Failed>
    requires session { IsBetweenSteps S.Store store.old memory.old }
    requires there { IsBelow memory.old.tree.rows disk.now to }
    requires growth { IsGrowth (S.site store.old).count (table_alone (S.table store.old)) (Vhd disk.now) (to - extents_in (tree_row memory.old.tree.rows (Vhd disk.now))) growth }
    requires row { 0 < (S.table store.old).spare }
    requires places { HasRoom (S.table store.old) growth }
    ensures step { StepsOn S.Store 3 store.old store.new }
    ensures cause { Counts S.Store result store.old store.new }
    ensures session_still { OnOk result (IsBetweenSteps S.Store store.new memory.new) }
    ensures others { (memory.new.records ≡ memory.old.records) × (memory.new.attached ≡ memory.old.attached) × (memory.new.operation ≡ memory.old.operation) }
    ensures logs { memory.new.logs ≡ memory.old.logs }
    ensures rows { OnOk result (memory.new.tree.rows ≡ with_extents (Vhd disk.now) to memory.old.tree.rows) }
    ensures spare { OnOk result (memory.new.tree.spare ≡ memory.old.tree.spare) }
    ensures shape { OnOk result (store_shape S.Store store.new memory.new ≡ inflated disk.now to (store_shape S.Store store.old memory.old)) }
    ensures least { OnOk result (IsEnlarged (S.site store.old).count (table_alone (S.table store.old)) disk.now to (table_alone (S.table store.new))) }
    ensures done { S.told → IsReadyStore S.Store store.old memory.old
        → HasDone (S.site store.old) (table_alone (S.table store.old)) (table_alone (S.table store.new)) (S.area store.old) (S.area store.new) (known memory.new)
        (StoreLeaves S.Store store.old) (StoreLeaves S.Store store.new) (result ≡ Ok tt) (disks (store_content S.Store store.old)) }
    ensures still { S.told → IsReadyStore S.Store store.old memory.old
        → Leaves S.Store store.new (λ t image. MayShow (S.site store.old) (StoreLeaves S.Store store.old) (disks (content_in (S.site store.old) t image))) }
{
    let name = Name::Vhd(*disk);
    let entry = Name::Inflate {
        image: *disk,
        extents: extents_of(&memory.tree, &name),
    };
    run_growth(store, &memory.tree, &name, entry, to, growth)?;
    set_extents(memory, &name, to);
    Ok(())
}

/// Gives the volume of the VHD image of this UUID more extents, so that it has so many: the least that are free. The image is
/// the same.
///
/// # Errors
///
/// `NoMemory` where memory ran out, and nothing was written; `Device` where a call of the store failed.
pub fn inflate<S: Store>(
    alloc: Global,
    store: &mut S,
    memory: &mut Memory,
    disk: &Uuid,
    to: u32,
) -> Result<(), CallFault>
    requires session { IsBetweenSteps S.Store store.old memory.old }
    requires there { IsBelow memory.old.tree.rows disk.now to }
    requires free { HasFree (S.site store.old).count (table_alone (S.table store.old)) memory.old.tree.rows disk.now to }
    ensures step { StepsOn S.Store 3 store.old store.new }
    ensures cause { CountsDevice S.Store result store.old store.new }
    ensures session_still { OnOk result (IsBetweenSteps S.Store store.new memory.new) }
    ensures poor { result ≡ Err fault.NoMemory
        → OnlyReads S.Store store.old store.new × ((t : VolumeTable) (image : ℕ → List ℕ) → S.leaves store.new t image → S.leaves store.old t image)
        × (memory.new ≡ memory.old) }
    ensures others { (memory.new.records ≡ memory.old.records) × (memory.new.attached ≡ memory.old.attached) × (memory.new.operation ≡ memory.old.operation) }
    ensures logs { memory.new.logs ≡ memory.old.logs }
    ensures shape { OnOk result (store_shape S.Store store.new memory.new ≡ inflated disk.now to (store_shape S.Store store.old memory.old)) }
    ensures least { OnOk result (IsEnlarged (S.site store.old).count (table_alone (S.table store.old)) disk.now to (table_alone (S.table store.new))) }
    ensures done { S.told → IsReadyStore S.Store store.old memory.old
        → HasDone (S.site store.old) (table_alone (S.table store.old)) (table_alone (S.table store.new)) (S.area store.old) (S.area store.new) (known memory.new)
        (StoreLeaves S.Store store.old) (StoreLeaves S.Store store.new) (result ≡ Ok tt) (disks (store_content S.Store store.old)) }
    ensures still { S.told → IsReadyStore S.Store store.old memory.old
        → Leaves S.Store store.new (λ t image. MayShow (S.site store.old) (StoreLeaves S.Store store.old) (disks (content_in (S.site store.old) t image))) }
{
    let Ok(growth) = plan_growth(alloc, store, memory, disk, to) else {
        return Err(CallFault::NoMemory);
    };
    let Ok(()) = enlarge(store, memory, disk, to, growth) else {
        return Err(CallFault::Device);
    };
    Ok(())
}
