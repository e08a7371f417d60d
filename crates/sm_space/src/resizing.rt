//! A disk gets larger.

ghost use Rattle.std.specs.Prelude.{◌≡◌, ◌<◌, ◌+◌, ◌*◌, ℕ, List, false, Err, IfOk, OnErr, OnOk};
ghost use Rattle.std.specs.Result.{IsOk};
ghost use Rattle.sm_base.specs.declared.faults.CallFault.TheVariants as fault;
ghost use Rattle.sm_base.specs.declared.names.Name.TheVariants.{Vhd};
ghost use Rattle.sm_disk.specs.Held.{IsSettled};
ghost use Rattle.vg_meta.specs.Roomy.{table_alone};
ghost use Rattle.vg_meta.specs.Tables.{VolumeTable};
ghost use Rattle.vg_volumes.specs.Stored.{Counts, OnlyReads, Stays};
ghost use Rattle.vhd_chain.specs.Trees.{tree_row};
ghost use Rattle.sm_machine.specs.Disks.{sector_bytes};
ghost use Rattle.sm_machine.specs.Refusals.{need as needed, rounded as machine_rounded};
ghost use Rattle.sm_machine.specs.declared.commands.Command.TheVariants as command;
ghost use Rattle.sm_ready.specs.Does.{IsKeptUp, NeedsNone, ShapesAs, StoreDoes, store_shape};
ghost use Rattle.sm_ready.specs.Frames.{IsBesideTree};
ghost use Rattle.sm_ready.specs.Framing.{CountsDevice, IsBetweenSteps, StepsOn};
ghost use Rattle.sm_ready.specs.Refusing.{IsAllowed};
ghost use Rattle.sm_ready.specs.Sessions.{IsReadyStore};
ghost use Rattle.gc_abandon.specs.Abandoning.{unfolded, unfolded_table};
ghost use Rattle.sm_space.specs.Growing.{HasGrowth};
ghost use Rattle.sm_space.specs.Inflating.{IsEnlarged, extents_in};

use crate::inflating::{enlarge, plan_growth};
use gc_abandon::give_up;
use sm_base::{CallFault, Failed, Name, NoMemory};
use sm_machine::Command;
use sm_ready::{Memory, image_name, need, rounded};
use std::alloc::Global;
use uuid::Uuid;
use vg_meta::Change;
use vg_volumes::Store;

/// Makes a disk larger where nothing is pending and its image has its extents: its two footers, and one sync. The answer is its size
/// then, in bytes.
fn set_sizes<S: Store>(
    store: &mut S,
    memory: &mut Memory,
    disk: &Uuid,
    size: u64,
) -> Result<u64, Failed>
    requires session { IsBetweenSteps S.Store store.old memory.old }
    requires allowed { IsAllowed S.Store (command.Resize disk.now size) store.old memory.old }
    requires kept_up { IsKeptUp S.Store (command.Resize disk.now size) store.old memory.old }
    requires enough { NeedsNone S.Store (command.Resize disk.now size) store.old memory.old }
    requires settled { S.told → IsSettled (S.area store.old) }
    ensures stays { Stays S.Store store.old store.new }
    ensures cause { Counts S.Store result store.old store.new }
    ensures session_still { OnOk result (IsBetweenSteps S.Store store.new memory.new) }
    ensures others { IsBesideTree memory.old memory.new }
    ensures size { IfOk result (λ bytes. bytes ≡ machine_rounded (store_shape S.Store store.old memory.old) false size * sector_bytes) }
    ensures shape { OnOk result (ShapesAs S.Store (command.Resize disk.now size) store.old memory.old store.new memory.new) }
    ensures done { S.told → IsReadyStore S.Store store.old memory.old
        → StoreDoes S.Store (command.Resize disk.now size) store.old memory.old store.new memory.new (IsOk result) }
{
    let sectors = rounded(&store.geometry(), false, size);
    let name = image_name(&memory.tree, disk);
    let Some(mut row) = memory.tree.take(&name) else {
        unreachable!()
    };
    let sized = row.image.set_size(store, sectors);
    memory.tree.add(row);
    sized?;
    store.sync()?;
    Ok(sectors * 512)
}

/// Makes a disk larger whose image has its extents: all lasts first, so that nothing is pending in it when its footers change. The
/// answer is its size then, in bytes.
fn make_larger<S: Store>(
    store: &mut S,
    memory: &mut Memory,
    disk: &Uuid,
    size: u64,
) -> Result<u64, Failed>
    requires session { IsBetweenSteps S.Store store.old memory.old }
    requires allowed { IsAllowed S.Store (command.Resize disk.now size) store.old memory.old }
    requires kept_up { IsKeptUp S.Store (command.Resize disk.now size) store.old memory.old }
    requires enough { NeedsNone S.Store (command.Resize disk.now size) store.old memory.old }
    ensures stays { Stays S.Store store.old store.new }
    ensures cause { Counts S.Store result store.old store.new }
    ensures session_still { OnOk result (IsBetweenSteps S.Store store.new memory.new) }
    ensures others { IsBesideTree memory.old memory.new }
    ensures size { IfOk result (λ bytes. bytes ≡ machine_rounded (store_shape S.Store store.old memory.old) false size * sector_bytes) }
    ensures shape { OnOk result (ShapesAs S.Store (command.Resize disk.now size) store.old memory.old store.new memory.new) }
    ensures done { S.told → IsReadyStore S.Store store.old memory.old
        → StoreDoes S.Store (command.Resize disk.now size) store.old memory.old store.new memory.new (IsOk result) }
{
    store.sync()?;
    set_sizes(store, memory, disk, size)
}

/// Makes a disk larger where no operation is given up, and all memory was taken.
fn resize_kept<S: Store>(
    store: &mut S,
    memory: &mut Memory,
    disk: &Uuid,
    size: u64,
    growth: Option<(u32, Change)>,
) -> Result<u64, Failed>
    requires session { IsBetweenSteps S.Store store.old memory.old }
    requires allowed { IsAllowed S.Store (command.Resize disk.now size) store.old memory.old }
    requires kept_up { IsKeptUp S.Store (command.Resize disk.now size) store.old memory.old }
    requires growth { HasGrowth S.Store store.old memory.old (command.Resize disk.now size) disk.now growth }
    ensures step { StepsOn S.Store 3 store.old store.new }
    ensures cause { Counts S.Store result store.old store.new }
    ensures session_still { OnOk result (IsBetweenSteps S.Store store.new memory.new) }
    ensures others { (memory.new.records ≡ memory.old.records) × (memory.new.attached ≡ memory.old.attached) × (memory.new.operation ≡ memory.old.operation) }
    ensures logs { memory.new.logs ≡ memory.old.logs }
    ensures tree { OnOk result (IsBesideTree memory.old memory.new) }
    ensures least { OnOk result (0 < needed (store_shape S.Store store.old memory.old) (command.Resize disk.now size)
        → IsEnlarged (S.site store.old).count (table_alone (S.table store.old)) disk.now
        (extents_in (tree_row memory.old.tree.rows (Vhd disk.now)) + needed (store_shape S.Store store.old memory.old) (command.Resize disk.now size)) (table_alone (S.table store.new))) }
    ensures size { IfOk result (λ bytes. bytes ≡ machine_rounded (store_shape S.Store store.old memory.old) false size * sector_bytes) }
    ensures shape { OnOk result (ShapesAs S.Store (command.Resize disk.now size) store.old memory.old store.new memory.new) }
    ensures done { S.told → IsReadyStore S.Store store.old memory.old
        → StoreDoes S.Store (command.Resize disk.now size) store.old memory.old store.new memory.new (IsOk result) }
{
    let Some((to, growth)) = growth else {
        return make_larger(store, memory, disk, size);
    };
    enlarge(store, memory, disk, to, growth)?;
    make_larger(store, memory, disk, size)
}

/// Makes a disk larger where all memory was taken. An operation that folds its leaf is given up first.
fn resize_given<S: Store>(
    store: &mut S,
    memory: &mut Memory,
    disk: &Uuid,
    size: u64,
    growth: Option<(u32, Change)>,
) -> Result<u64, Failed>
    requires session { IsBetweenSteps S.Store store.old memory.old }
    requires allowed { IsAllowed S.Store (command.Resize disk.now size) store.old memory.old }
    requires growth { HasGrowth S.Store store.old memory.old (command.Resize disk.now size) disk.now growth }
    ensures step { StepsOn S.Store 4 store.old store.new }
    ensures cause { Counts S.Store result store.old store.new }
    ensures session_still { OnOk result (IsBetweenSteps S.Store store.new memory.new) }
    ensures others { (memory.new.records ≡ memory.old.records) × (memory.new.attached ≡ memory.old.attached) }
    ensures logs { memory.new.logs ≡ memory.old.logs }
    ensures tree { OnOk result (IsBesideTree (record memory.old { operation = memory.new.operation }) memory.new) }
    ensures operation { OnOk result (memory.new.operation ≡ unfolded memory.old.operation disk.now) }
    ensures least { OnOk result (0 < needed (store_shape S.Store store.old memory.old) (command.Resize disk.now size)
        → IsEnlarged (S.site store.old).count (unfolded_table memory.old.operation disk.now (table_alone (S.table store.old))) disk.now
        (extents_in (tree_row memory.old.tree.rows (Vhd disk.now)) + needed (store_shape S.Store store.old memory.old) (command.Resize disk.now size)) (table_alone (S.table store.new))) }
    ensures size { IfOk result (λ bytes. bytes ≡ machine_rounded (store_shape S.Store store.old memory.old) false size * sector_bytes) }
    ensures shape { OnOk result (ShapesAs S.Store (command.Resize disk.now size) store.old memory.old store.new memory.new) }
    ensures done { S.told → IsReadyStore S.Store store.old memory.old
        → StoreDoes S.Store (command.Resize disk.now size) store.old memory.old store.new memory.new (IsOk result) }
{
    give_up(store, memory, disk)?;
    resize_kept(store, memory, disk, size, growth)
}

/// Takes all memory for the extents that a disk's image lacks for its new size. The answer is how many it has then, and the change
/// that gives them to its volume; none where it lacks none.
fn plan_larger<S: Store>(
    alloc: Global,
    store: &mut S,
    memory: &Memory,
    disk: &Uuid,
    size: u64,
) -> Result<Option<(u32, Change)>, NoMemory>
    requires session { IsBetweenSteps S.Store store.old memory.now }
    requires allowed { IsAllowed S.Store (command.Resize disk.now size) store.old memory.now }
    ensures reads { OnlyReads S.Store store.old store.new }
    ensures calm { S.faults store.new ≡ S.faults store.old }
    ensures same { (S.site store.new ≡ S.site store.old) × (S.area store.new ≡ S.area store.old) }
    ensures table { table_alone (S.table store.new) ≡ table_alone (S.table store.old) }
    ensures leaves { (t : VolumeTable) (image : ℕ → List ℕ) → S.leaves store.new t image → S.leaves store.old t image }
    ensures growth { IfOk result (λ growth. HasGrowth S.Store store.new memory.now (command.Resize disk.now size) disk.now growth) }
    ensures wants { OnErr result (0 < needed (store_shape S.Store store.old memory.now) (command.Resize disk.now size)) }
{
    let geometry = store.geometry();
    let lacking = need(memory, &geometry, &Command::Resize { disk: *disk, size });
    if lacking == 0 {
        return Ok(None);
    }
    let Some(row) = memory.tree.get(&Name::Vhd(*disk)) else {
        unreachable!()
    };
    let to = row.extents + lacking as u32;
    let growth = plan_growth(alloc, store, memory, disk, to)?;
    Ok(Some((to, growth)))
}

/// Makes a VHD disk larger, or leaves it as large as it is. Where it is attached for writing and its image lacks extents for a slot
/// of each new block, the image first gets them, the least that are free: so no write of a guest wants space. Then all lasts, its two
/// footers are written with the new size, and one more sync makes them last. The size is in bytes, and rounded up to the block; the
/// answer is the size that the disk has then, in bytes. The disk reads as before, and zeros behind that. Where its leaf is being
/// folded, that is given up first, by one commit, once all memory was taken.
///
/// # Errors
///
/// `NoMemory` where memory ran out for the extents that the image lacks, and nothing was written; `Device` where a call of the store failed: a stop leaves the disk of the
/// one size or of the other.
pub fn resize<S: Store>(
    alloc: Global,
    store: &mut S,
    memory: &mut Memory,
    disk: &Uuid,
    size: u64,
) -> Result<u64, CallFault>
    requires session { IsBetweenSteps S.Store store.old memory.old }
    requires allowed { IsAllowed S.Store (command.Resize disk.now size) store.old memory.old }
    ensures step { StepsOn S.Store 4 store.old store.new }
    ensures cause { CountsDevice S.Store result store.old store.new }
    ensures session_still { OnOk result (IsBetweenSteps S.Store store.new memory.new) }
    ensures poor { result ≡ Err fault.NoMemory
        → OnlyReads S.Store store.old store.new × ((t : VolumeTable) (image : ℕ → List ℕ) → S.leaves store.new t image → S.leaves store.old t image)
        × (memory.new ≡ memory.old) }
    ensures wants { result ≡ Err fault.NoMemory → 0 < needed (store_shape S.Store store.old memory.old) (command.Resize disk.now size) }
    ensures others { (memory.new.records ≡ memory.old.records) × (memory.new.attached ≡ memory.old.attached) }
    ensures logs { memory.new.logs ≡ memory.old.logs }
    ensures tree { OnOk result (IsBesideTree (record memory.old { operation = memory.new.operation }) memory.new) }
    ensures operation { OnOk result (memory.new.operation ≡ unfolded memory.old.operation disk.now) }
    ensures least { OnOk result (0 < needed (store_shape S.Store store.old memory.old) (command.Resize disk.now size)
        → IsEnlarged (S.site store.old).count (unfolded_table memory.old.operation disk.now (table_alone (S.table store.old))) disk.now
        (extents_in (tree_row memory.old.tree.rows (Vhd disk.now)) + needed (store_shape S.Store store.old memory.old) (command.Resize disk.now size)) (table_alone (S.table store.new))) }
    ensures size { IfOk result (λ bytes. bytes ≡ machine_rounded (store_shape S.Store store.old memory.old) false size * sector_bytes) }
    ensures shape { OnOk result (ShapesAs S.Store (command.Resize disk.now size) store.old memory.old store.new memory.new) }
    ensures done { S.told → IsReadyStore S.Store store.old memory.old
        → StoreDoes S.Store (command.Resize disk.now size) store.old memory.old store.new memory.new (IsOk result) }
{
    let Ok(growth) = plan_larger(alloc, store, memory, disk, size) else {
        return Err(CallFault::NoMemory);
    };
    let Ok(bytes) = resize_given(store, memory, disk, size, growth) else {
        return Err(CallFault::Device);
    };
    Ok(bytes)
}
