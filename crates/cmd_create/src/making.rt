//! A raw disk is made: its volume, its zeros, its record.
//!
//! The volume is made new, so that a stop before the end leaves no disk of it. The mark is taken away last, by the
//! commit that makes it one: so at each moment a stop leaves the disks from before, or these and the new one whole.
//! The definitions are in `specs/`: `Making` (what is asked and what is made), `Stages` (what a stop may leave in
//! between).
//!
//! All memory is taken before anything is written: a buffer of one extent, and room for a row. A disk costs two commits,
//! a write for each extent, and one sector for its record. No sync is needed beside those of the commits.

ghost use Rattle.std.specs.Prelude.{◌≡◌, ◌≤◌, ◌<◌, ◌+◌, ◌*◌, ℕ, List, Some, None, true, false, IsSome, IfOk, OnOk, OnErr, length, replicate, unwrap_or};
ghost use Rattle.std.specs.List.{slice_set};
ghost use Rattle.std.specs.declared.result.Result.TheVariants.{Ok, Err};
ghost use Rattle.sm_base.specs.Limits.{extent_limit};
ghost use Rattle.sm_base.specs.declared.faults.CallFault.TheVariants as fault;
ghost use Rattle.sm_base.specs.Names.{IsUuid};
ghost use Rattle.sm_base.specs.declared.names.Name.TheVariants.{Raw};
ghost use Rattle.uuid.specs.Parts.{is_nil_bytes};
ghost use Rattle.vg_meta.specs.Tables.{VolumeTable, rows, extents_of};
ghost use Rattle.vg_meta.specs.Roomy.{table_alone};
ghost use Rattle.vg_meta.specs.declared.changes.Change.TheVariants.{Create, Mark};
ghost use Rattle.vg_meta.specs.declared.changes.Tag.TheVariants.{Fresh};
ghost use Rattle.vg_volumes.specs.Stored.{stored, sectors_in, Stays, OnlyReads, Writes, Counts, Leaves, IsEitherOf, CanCommit, Commits, FailsToCommit};
ghost use Rattle.sm_machine.specs.Disks.{with_disk};
ghost use Rattle.sm_machine.specs.Steps.{State, step};
ghost use Rattle.sm_machine.specs.declared.commands.Command.TheVariants as command;
ghost use Rattle.sm_record.specs.Records.{IsRecord};
ghost use Rattle.sm_mgt.specs.Places.{place_for};
ghost use Rattle.sm_standing.specs.Standing.{disks};
ghost use Rattle.sm_ready.specs.Done.{HasDone};
ghost use Rattle.sm_ready.specs.Framing.{CountsDevice, IsBetweenSteps, StepsOn};
ghost use Rattle.sm_ready.specs.Known.{known, shape_in};
ghost use Rattle.sm_ready.specs.Middle.{IsMiddle};
ghost use Rattle.sm_ready.specs.Sessions.{IsOrderlyStore, IsReadyStore, StaysInUse};
ghost use Rattle.sm_ready.specs.Stores.{StoreLeaves, store_content};
ghost use Rattle.cmd_create.specs.Making.{IsForDisk, table_made, new_disk, entry_of};
ghost use Rattle.cmd_create.specs.Stages.{Anything, HasZeros, IsNewVolume, IsFilled, raw_row};
ghost use Rattle.vhd_chain.specs.Trees.{tree_row, with_row};

use sm_base::{CallFault, Failed, Label, Name, NoMemory};
use sm_ready::Memory;
use sm_record::Record;
use std::alloc::Global;
use uuid::Uuid;
use vg_meta::{Change, Extents, Tag};
use vg_volumes::Store;
use vhd_chain::TreeRow;
use vhd_image::Image;

/// The bytes of a sector.
const SECTOR: usize = 512;

/// Zeros for so many sectors, at most 8,192.
fn zeros_for(alloc: Global, sectors: u32) -> Result<Vec<u8>, NoMemory>
    requires { sectors ≤ 8192 }
    ensures { IfOk result (λ bytes. bytes.items ≡ replicate (512 * sectors) 0) }
{
    match vec![in alloc; 0; SECTOR * sectors as usize] {
        Ok(bytes) => Ok(bytes),
        Err(_) => Err(NoMemory),
    }
}

/// Takes all memory that a new disk needs: room for its row in the table, and an extent of zeros. Room for its record and
/// for its row in the tree was taken before.
fn prepare<S: Store>(
    alloc: Global,
    store: &mut S,
    memory: &Memory,
    disk: &Uuid,
) -> Result<Vec<u8>, NoMemory>
    ensures reads { OnlyReads S.Store store.old store.new }
    ensures same { (S.site store.new ≡ S.site store.old) × (S.area store.new ≡ S.area store.old) × (S.faults store.new ≡ S.faults store.old) }
    ensures table { table_alone (S.table store.new) ≡ table_alone (S.table store.old) }
    ensures leaves { (t : VolumeTable) (image : ℕ → List ℕ) → S.leaves store.new t image → S.leaves store.old t image }
    ensures row { OnOk result (0 < (S.table store.new).spare) }
    ensures place { OnOk result (IsSome (place_for memory.now.records disk.now)) }
    ensures bytes { IfOk result (λ bytes. bytes.items ≡ replicate (512 * (S.site store.old).geometry.extent) 0) }
{
    let geometry = store.geometry();
    let bytes = zeros_for(alloc, geometry.extent)?;
    if !memory.records.has_room(disk) {
        return Err(NoMemory);
    }
    store.reserve_rows(1)?;
    Ok(bytes)
}

/// Makes a volume, marked new, by one commit.
pub(crate) fn begin<S: Store>(store: &mut S, name: Name, extents: Vec<u32>) -> Result<(), Failed>
    requires { CanCommit S.Store (Create name true extents.items) store.old }
    ensures commits { OnOk result (Commits S.Store (Create name true extents.items) store.old store.new) }
    ensures fails { OnErr result (FailsToCommit S.Store store.old store.new) }
    ensures crash { Leaves S.Store store.new (IsEitherOf (stored S.Store store.old) (Create name true extents.items)) }
    ensures cause { Counts S.Store result store.old store.new }
{
    store.commit(Change::Create {
        name,
        fresh: true,
        extents: Extents::new(extents),
    })?;
    Ok(())
}

/// Writes zeros into so many extents of a volume, which are all that it has. The zeros are those of one extent.
fn fill<S: Store>(store: &mut S, name: &Name, extents: u32, bytes: &[u8]) -> Result<(), Failed>
    requires extents { length (extents_of (rows (table_alone (S.table store.old)) name.now)) ≡ extents }
    requires few { extents ≤ extent_limit }
    requires bytes { bytes.now ≡ replicate (512 * (S.site store.old).geometry.extent) 0 }
    ensures writes { Writes S.Store name.now Anything store.old store.new }
    ensures filled { OnOk result (Writes S.Store name.now (HasZeros (sectors_in (stored S.Store store.old) name.now)) store.old store.new) }
    ensures cause { Counts S.Store result store.old store.new }
{
    let extent = u64::from(store.geometry().extent);
    for index in 0..extents {
        store.write(name, u64::from(index) * extent, bytes)?;
    }
    Ok(())
}

/// Sixteen bytes are those of a UUID. The call does nothing.
fn law_uuid(bytes: &[u8])
    requires { length bytes.now ≡ 16 }
    ensures { IsUuid bytes.now }
{
    let _count = bytes.len();
}

/// The record of a new disk.
pub(crate) fn record_of(disk: Uuid, label: Label) -> Record
    requires not_nil { is_nil_bytes disk ≡ false }
    ensures is { result ≡ entry_of disk label }
    ensures proper { IsRecord result }
{
    law_uuid(disk.as_bytes());
    let _text = label.text();
    Record {
        uuid: disk,
        label,
        origin: None,
        read_only: false,
    }
}

/// Writes zeros into all sectors of a new disk, and its record into its place.
fn fill_disk<S: Store>(
    store: &mut S,
    memory: &mut Memory,
    entry: Record,
    extents: u32,
    bytes: &[u8],
) -> Result<(), Failed>
    requires orderly { IsOrderlyStore S.Store store.old memory.old }
    requires new { IsNewVolume (table_alone (S.table store.old)) (Raw entry.uuid) extents }
    requires few { extents ≤ extent_limit }
    requires bytes { bytes.now ≡ replicate (512 * (S.site store.old).geometry.extent) 0 }
    requires room { IsSome (place_for memory.old.records entry.uuid) }
    requires proper { IsRecord entry }
    ensures stays { Stays S.Store store.old store.new }
    ensures cause { Counts S.Store result store.old store.new }
    ensures others { (memory.new.tree ≡ memory.old.tree) × (memory.new.attached ≡ memory.old.attached) × (memory.new.operation ≡ memory.old.operation) }
    ensures logs { memory.new.logs ≡ memory.old.logs }
    ensures middle { S.told → IsMiddle (S.site store.old) (table_alone (S.table store.old)) (known memory.old) (S.area store.old) (S.area store.new) (unwrap_or (place_for memory.old.records entry.uuid) 0) entry }
    ensures filled { OnOk result (S.told → IsFilled (S.site store.old) (table_alone (S.table store.old)) entry (unwrap_or (place_for memory.old.records entry.uuid) 0) (S.area store.old) (S.area store.new)) }
    ensures kept { OnOk result (memory.new.records ≡ slice_set memory.old.records (unwrap_or (place_for memory.old.records entry.uuid) 0) (Some entry)) }
{
    fill(store, &Name::Raw(entry.uuid), extents, bytes)?;
    memory.records.put(store, entry)?;
    Ok(())
}

/// Takes a volume's mark away, by one commit.
pub(crate) fn end<S: Store>(store: &mut S, name: Name) -> Result<(), Failed>
    requires { CanCommit S.Store (Mark name Fresh false) store.old }
    ensures commits { OnOk result (Commits S.Store (Mark name Fresh false) store.old store.new) }
    ensures fails { OnErr result (FailsToCommit S.Store store.old store.new) }
    ensures crash { Leaves S.Store store.new (IsEitherOf (stored S.Store store.old) (Mark name Fresh false)) }
    ensures cause { Counts S.Store result store.old store.new }
{
    store.commit(Change::Mark {
        name,
        tag: Tag::Fresh,
        on: false,
    })?;
    Ok(())
}

/// Puts the image of a new disk into the tree.
fn add_image(memory: &mut Memory, disk: Uuid, extents: u32, sectors: u64)
    requires room { 0 < memory.old.tree.spare }
    requires absent { tree_row memory.old.tree.rows (Raw disk) ≡ None }
    requires proper { IsUuid disk }
    ensures rows { memory.new.tree.rows ≡ with_row (raw_row disk extents sectors) memory.old.tree.rows }
    ensures spare { memory.new.tree.spare + 1 ≡ memory.old.tree.spare }
    ensures others { (memory.new.records ≡ memory.old.records) × (memory.new.attached ≡ memory.old.attached) × (memory.new.operation ≡ memory.old.operation) }
    ensures logs { memory.new.logs ≡ memory.old.logs }
{
    memory.tree.add(TreeRow {
        image: Image::raw(&Name::Raw(disk), sectors),
        hidden: false,
        extents,
    });
}

/// Makes the disk of a record on these extents, where all memory was taken before. The zeros are those of one extent.
fn make_disk<S: Store>(
    store: &mut S,
    memory: &mut Memory,
    entry: Record,
    extents: Vec<u32>,
    bytes: &[u8],
) -> Result<(), Failed>
    requires session { IsBetweenSteps S.Store store.old memory.old }
    requires disk { IsForDisk (S.site store.old) (table_alone (S.table store.old)) (known memory.old) entry.uuid entry.label extents.items }
    requires row { 0 < (S.table store.old).spare }
    requires place { IsSome (place_for memory.old.records entry.uuid) }
    requires bytes { bytes.now ≡ replicate (512 * (S.site store.old).geometry.extent) 0 }
    requires proper { IsRecord entry }
    requires plain { entry ≡ entry_of entry.uuid entry.label }
    ensures step { StepsOn S.Store 2 store.old store.new }
    ensures cause { Counts S.Store result store.old store.new }
    ensures in_use { StaysInUse memory.old memory.new }
    ensures table { OnOk result (table_alone (S.table store.new) ≡ table_made (table_alone (S.table store.old)) entry.uuid extents.items) }
    ensures session_still { OnOk result (IsBetweenSteps S.Store store.new memory.new) }
    ensures shape { OnOk result ((σ : State) (d : IsForDisk (S.site store.old) (table_alone (S.table store.old)) (known memory.old) entry.uuid entry.label extents.items)
        → σ.shape ≡ shape_in (S.site store.old) (table_alone (S.table store.old)) (known memory.old)
        → shape_in (S.site store.old) (table_alone (S.table store.new)) (known memory.new) ≡ (step σ (command.Create entry.uuid d.size true entry.label)).after.shape) }
    ensures done { S.told → IsReadyStore S.Store store.old memory.old
        → HasDone (S.site store.old) (table_alone (S.table store.old)) (table_alone (S.table store.new)) (S.area store.old) (S.area store.new) (known memory.new)
        (StoreLeaves S.Store store.old) (StoreLeaves S.Store store.new) (result ≡ Ok tt)
        (with_disk (new_disk entry.uuid entry.label (length extents.items * (S.site store.old).geometry.extent)) (disks (store_content S.Store store.old))) }
{
    let disk = entry.uuid;
    let count = extents.len() as u32;
    let sectors = u64::from(count) * u64::from(store.geometry().extent);
    begin(store, Name::Raw(disk), extents)?;
    fill_disk(store, memory, entry, count, bytes)?;
    end(store, Name::Raw(disk))?;
    add_image(memory, disk, count, sectors);
    Ok(())
}

/// Makes a raw disk of zeros on these extents: a commit that makes its volume, marked new; zeros into all of its
/// sectors, and its record; a commit that takes the mark away. All memory is taken first.
///
/// # Errors
///
/// `NoMemory` where memory ran out or no place is left for the record, and nothing was written; `Device` where a call
/// of the store failed.
pub(crate) fn make_raw<S: Store>(
    alloc: Global,
    store: &mut S,
    memory: &mut Memory,
    disk: Uuid,
    label: Label,
    extents: Vec<u32>,
) -> Result<(), CallFault>
    requires session { IsBetweenSteps S.Store store.old memory.old }
    requires disk { IsForDisk (S.site store.old) (table_alone (S.table store.old)) (known memory.old) disk label extents.items }
    ensures step { StepsOn S.Store 2 store.old store.new }
    ensures cause { CountsDevice S.Store result store.old store.new }
    ensures in_use { StaysInUse memory.old memory.new }
    ensures poor { result ≡ Err fault.NoMemory
        → OnlyReads S.Store store.old store.new × ((t : VolumeTable) (image : ℕ → List ℕ) → S.leaves store.new t image → S.leaves store.old t image)
        × (memory.new ≡ memory.old) }
    ensures table { OnOk result (table_alone (S.table store.new) ≡ table_made (table_alone (S.table store.old)) disk extents.items) }
    ensures session_still { OnOk result (IsBetweenSteps S.Store store.new memory.new) }
    ensures shape { OnOk result ((σ : State) (d : IsForDisk (S.site store.old) (table_alone (S.table store.old)) (known memory.old) disk label extents.items)
        → σ.shape ≡ shape_in (S.site store.old) (table_alone (S.table store.old)) (known memory.old)
        → shape_in (S.site store.old) (table_alone (S.table store.new)) (known memory.new) ≡ (step σ (command.Create disk d.size true label)).after.shape) }
    ensures done { S.told → IsReadyStore S.Store store.old memory.old → (result ≡ Err fault.NoMemory → ⊥)
        → HasDone (S.site store.old) (table_alone (S.table store.old)) (table_alone (S.table store.new)) (S.area store.old) (S.area store.new) (known memory.new)
        (StoreLeaves S.Store store.old) (StoreLeaves S.Store store.new) (result ≡ Ok tt)
        (with_disk (new_disk disk label (length extents.items * (S.site store.old).geometry.extent)) (disks (store_content S.Store store.old))) }
{
    let Ok(bytes) = prepare(alloc, store, memory, &disk) else {
        return Err(CallFault::NoMemory);
    };
    let entry = record_of(disk, label);
    let Ok(()) = make_disk(store, memory, entry, extents, &bytes) else {
        return Err(CallFault::Device);
    };
    Ok(())
}
