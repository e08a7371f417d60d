//! A VHD disk is made: its volume, its image, its record.
//!
//! As a raw disk is: the volume is made new, and the mark is taken away last, by the commit that makes it a disk. In between
//! its image is written, which has no slots, and its record. The image's unique id is spelled by the table's number as the
//! first commit left it, so no two images of a repository have the same while the number rises. The definitions are in
//! `specs/Vhds`.
//!
//! All memory is taken before anything is written: the image's map, which has a place for each entry of its table, and room
//! for a row. A disk costs two commits, two footers, two sectors of a header, the sectors of a table of T entries (a 128th of
//! them), and one sector for its record. No sync is needed beside those of the commits.

ghost use Rattle.std.specs.Prelude.{◌≡◌, ◌<◌, ◌^◌, ℕ, List, Ok, Err, Some, None, false, IsSome, IfOk, OnOk, replicate, unwrap_or};
ghost use Rattle.std.specs.List.{slice_set};
ghost use Rattle.sm_base.specs.declared.faults.CallFault.TheVariants as fault;
ghost use Rattle.sm_base.specs.declared.names.Name.TheVariants as name;
ghost use Rattle.vg_meta.specs.Tables.{VolumeTable};
ghost use Rattle.vg_meta.specs.Roomy.{table_alone};
ghost use Rattle.vg_volumes.specs.Stored.{stored, sectors_in, Stays, OnlyReads, Counts};
ghost use Rattle.vhd_image.specs.Made.{IsDiskSize};
ghost use Rattle.vhd_image.specs.declared.images.Body.TheVariants.{Vhd};
ghost use Rattle.vhd_volumes.specs.Steps.{Gives};
ghost use Rattle.vhd_chain.specs.Trees.{with_row};
ghost use Rattle.sm_machine.specs.Disks.{with_disk};
ghost use Rattle.sm_machine.specs.Steps.{State, step};
ghost use Rattle.sm_machine.specs.declared.commands.Command.TheVariants as command;
ghost use Rattle.sm_record.specs.Records.{IsRecord};
ghost use Rattle.sm_mgt.specs.Places.{place_for};
ghost use Rattle.sm_standing.specs.Standing.{disks};
ghost use Rattle.sm_ready.specs.Done.{HasDone};
ghost use Rattle.sm_ready.specs.Framing.{CountsDevice, IsBetweenSteps, StepsOn};
ghost use Rattle.sm_ready.specs.Known.{known, shape_in};
ghost use Rattle.sm_ready.specs.Middle.{IsMiddle};
ghost use Rattle.sm_ready.specs.Sessions.{IsOrderlyStore, IsReadyStore, StaysInUse};
ghost use Rattle.sm_ready.specs.Stores.{StoreLeaves, store_content};
ghost use Rattle.cmd_create.specs.Making.{new_disk};
ghost use Rattle.cmd_create.specs.Stages.{IsNewVolume};
ghost use Rattle.cmd_create.specs.Vhds.{CanMakeVhd, IsForVhd, IsImaged, HasHead, begun_head, made_head, made_row, table_with, vhd_extents};

use crate::making::{begin, end, record_of};
use sm_base::{CallFault, Failed, Label, Name, NoMemory, base_uuid};
use sm_ready::Memory;
use sm_record::Record;
use std::alloc::Global;
use uuid::Uuid;
use vg_volumes::Store;
use vhd_chain::TreeRow;
use vhd_image::Image;
use vhd_map::Map;

/// Takes all memory that a new VHD disk needs: its map, and room for its row in the table. Room for its record and for its
/// row in the tree was taken before.
fn prepare_vhd<S: Store>(
    alloc: Global,
    store: &mut S,
    memory: &Memory,
    disk: &Uuid,
) -> Result<Map, NoMemory>
    ensures reads { OnlyReads S.Store store.old store.new }
    ensures same { (S.site store.new ≡ S.site store.old) × (S.area store.new ≡ S.area store.old) × (S.faults store.new ≡ S.faults store.old) }
    ensures table { table_alone (S.table store.new) ≡ table_alone (S.table store.old) }
    ensures leaves { (t : VolumeTable) (image : ℕ → List ℕ) → S.leaves store.new t image → S.leaves store.old t image }
    ensures row { OnOk result (0 < (S.table store.new).spare) }
    ensures place { OnOk result (IsSome (place_for memory.now.records disk.now)) }
    ensures map { IfOk result (λ map. map ≡ replicate (S.site store.old).geometry.entries None) }
{
    let geometry = store.geometry();
    let map = Map::blank(alloc, geometry.entries)?;
    if !memory.records.has_room(disk) {
        return Err(NoMemory);
    }
    store.reserve_rows(1)?;
    Ok(map)
}

/// Writes the image of a new disk into its volume, and its record into its place. The map is blank; the size is in sectors.
fn write_disk<S: Store>(
    store: &mut S,
    memory: &mut Memory,
    entry: Record,
    map: Map,
    sectors: u64,
    now: u32,
) -> Result<Image, Failed>
    requires orderly { IsOrderlyStore S.Store store.old memory.old }
    requires new { IsNewVolume (table_alone (S.table store.old)) (name.Vhd entry.uuid) (vhd_extents (S.site store.old).geometry) }
    requires blank { map ≡ replicate (S.site store.old).geometry.entries None }
    requires size { IsDiskSize (S.site store.old).geometry sectors }
    requires numbered { (table_alone (S.table store.old)).sequence < 2 ^ 48 }
    requires place { IsSome (place_for memory.old.records entry.uuid) }
    requires proper { IsRecord entry }
    ensures stays { Stays S.Store store.old store.new }
    ensures cause { Counts S.Store result store.old store.new }
    ensures others { (memory.new.tree ≡ memory.old.tree) × (memory.new.attached ≡ memory.old.attached) × (memory.new.operation ≡ memory.old.operation) }
    ensures logs { memory.new.logs ≡ memory.old.logs }
    ensures middle { S.told → IsMiddle (S.site store.old) (table_alone (S.table store.old)) (known memory.old) (S.area store.old) (S.area store.new)
        (unwrap_or (place_for memory.old.records entry.uuid) 0) entry }
    ensures image { IfOk result (λ image. image ≡ Vhd (begun_head (S.site store.old) (table_alone (S.table store.old)) entry.uuid now sectors)
        (replicate (S.site store.old).geometry.entries None)) }
    ensures written { OnOk result (S.told → IsImaged (S.site store.old) (table_alone (S.table store.old)) (begun_head (S.site store.old) (table_alone (S.table store.old)) entry.uuid now sectors)
        entry (unwrap_or (place_for memory.old.records entry.uuid) 0) (S.area store.old) (S.area store.new)) }
    ensures kept { OnOk result (memory.new.records ≡ slice_set memory.old.records (unwrap_or (place_for memory.old.records entry.uuid) 0) (Some entry)) }
{
    let uid = base_uuid(store.table().seq());
    let image = Image::make(store, &Name::Vhd(entry.uuid), map, uid, sectors, None, now)?;
    memory.records.put(store, entry)?;
    Ok(image)
}

/// Makes the disk of a record on these extents, where all memory was taken before. The map is blank; the size is in sectors.
fn make_vhd_disk<S: Store>(
    store: &mut S,
    memory: &mut Memory,
    entry: Record,
    extents: Vec<u32>,
    map: Map,
    sectors: u64,
    now: u32,
) -> Result<(), Failed>
    requires session { IsBetweenSteps S.Store store.old memory.old }
    requires can { CanMakeVhd S.Store store.old memory.old entry extents.items sectors }
    requires blank { map ≡ replicate (S.site store.old).geometry.entries None }
    ensures step { StepsOn S.Store 2 store.old store.new }
    ensures cause { Counts S.Store result store.old store.new }
    ensures in_use { StaysInUse memory.old memory.new }
    ensures table { OnOk result (table_alone (S.table store.new) ≡ table_with (table_alone (S.table store.old)) (name.Vhd entry.uuid) extents.items) }
    ensures session_still { OnOk result (IsBetweenSteps S.Store store.new memory.new) }
    ensures image { OnOk result (memory.new.tree.rows ≡ with_row (made_row (S.site store.old) (table_alone (S.table store.old)) entry.uuid now sectors) memory.old.tree.rows) }
    ensures head { OnOk result (Gives S.Store (name.Vhd entry.uuid) (HasHead (sectors_in (stored S.Store store.new) (name.Vhd entry.uuid))
        (made_head (S.site store.old) (table_alone (S.table store.old)) entry.uuid now sectors)) store.new) }
    ensures shape { OnOk result ((σ : State) (d : IsForVhd (S.site store.old) (table_alone (S.table store.old)) (known memory.old) entry.uuid entry.label extents.items sectors)
        → σ.shape ≡ shape_in (S.site store.old) (table_alone (S.table store.old)) (known memory.old)
        → shape_in (S.site store.old) (table_alone (S.table store.new)) (known memory.new) ≡ (step σ (command.Create entry.uuid d.size false entry.label)).after.shape) }
    ensures done { S.told → IsReadyStore S.Store store.old memory.old
        → HasDone (S.site store.old) (table_alone (S.table store.old)) (table_alone (S.table store.new)) (S.area store.old) (S.area store.new) (known memory.new)
        (StoreLeaves S.Store store.old) (StoreLeaves S.Store store.new) (result ≡ Ok tt)
        (with_disk (new_disk entry.uuid entry.label sectors) (disks (store_content S.Store store.old))) }
{
    let disk = entry.uuid;
    let count = extents.len() as u32;
    begin(store, Name::Vhd(disk), extents)?;
    let image = write_disk(store, memory, entry, map, sectors, now)?;
    end(store, Name::Vhd(disk))?;
    memory.tree.add(TreeRow {
        image,
        hidden: false,
        extents: count,
    });
    Ok(())
}

/// Makes a VHD disk of so many sectors on these extents: a commit that makes its volume, marked new; its image, without
/// slots, and its record; a commit that takes the mark away. All memory is taken first.
///
/// # Errors
///
/// `NoMemory` where memory ran out or no place is left for the record, and nothing was written; `Device` where a call
/// of the store failed.
pub(crate) fn make_vhd<S: Store>(
    alloc: Global,
    store: &mut S,
    memory: &mut Memory,
    disk: Uuid,
    label: Label,
    extents: Vec<u32>,
    sectors: u64,
    now: u32,
) -> Result<(), CallFault>
    requires session { IsBetweenSteps S.Store store.old memory.old }
    requires disk { IsForVhd (S.site store.old) (table_alone (S.table store.old)) (known memory.old) disk label extents.items sectors }
    ensures step { StepsOn S.Store 2 store.old store.new }
    ensures cause { CountsDevice S.Store result store.old store.new }
    ensures in_use { StaysInUse memory.old memory.new }
    ensures poor { result ≡ Err fault.NoMemory
        → OnlyReads S.Store store.old store.new × ((t : VolumeTable) (image : ℕ → List ℕ) → S.leaves store.new t image → S.leaves store.old t image)
        × (memory.new ≡ memory.old) }
    ensures table { OnOk result (table_alone (S.table store.new) ≡ table_with (table_alone (S.table store.old)) (name.Vhd disk) extents.items) }
    ensures session_still { OnOk result (IsBetweenSteps S.Store store.new memory.new) }
    ensures image { OnOk result (memory.new.tree.rows ≡ with_row (made_row (S.site store.old) (table_alone (S.table store.old)) disk now sectors) memory.old.tree.rows) }
    ensures head { OnOk result (Gives S.Store (name.Vhd disk) (HasHead (sectors_in (stored S.Store store.new) (name.Vhd disk))
        (made_head (S.site store.old) (table_alone (S.table store.old)) disk now sectors)) store.new) }
    ensures shape { OnOk result ((σ : State) (d : IsForVhd (S.site store.old) (table_alone (S.table store.old)) (known memory.old) disk label extents.items sectors)
        → σ.shape ≡ shape_in (S.site store.old) (table_alone (S.table store.old)) (known memory.old)
        → shape_in (S.site store.old) (table_alone (S.table store.new)) (known memory.new) ≡ (step σ (command.Create disk d.size false label)).after.shape) }
    ensures done { S.told → IsReadyStore S.Store store.old memory.old → (result ≡ Err fault.NoMemory → ⊥)
        → HasDone (S.site store.old) (table_alone (S.table store.old)) (table_alone (S.table store.new)) (S.area store.old) (S.area store.new) (known memory.new)
        (StoreLeaves S.Store store.old) (StoreLeaves S.Store store.new) (result ≡ Ok tt)
        (with_disk (new_disk disk label sectors) (disks (store_content S.Store store.old))) }
{
    let Ok(map) = prepare_vhd(alloc, store, memory, &disk) else {
        return Err(CallFault::NoMemory);
    };
    let entry = record_of(disk, label);
    let Ok(()) = make_vhd_disk(store, memory, entry, extents, map, sectors, now) else {
        return Err(CallFault::Device);
    };
    Ok(())
}
