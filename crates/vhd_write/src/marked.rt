//! A write of the marked sectors of one block.

ghost use Rattle.std.specs.Prelude.{◌≡◌, ◌⊎◌, ℕ, ◌+◌, ◌*◌, ◌/◌, ◌<◌, ◌≤◌, length, None, Some, true, false, OnOk, OnErr, IfOk};
ghost use Rattle.std.specs.Bool.{OnTrue, OnFalse};
ghost use Rattle.sm_disk.specs.Held.{Reaches, SameHeld, reads};
ghost use Rattle.vhd_map.specs.Slots.{slot_of, top_of, IsMap};
ghost use Rattle.vg_volumes.specs.Stored.{stored, sectors_in, held_in, WorksOn, Counts};
ghost use Rattle.vhd_volumes.specs.Steps.{Holds, Does, Gives};
ghost use Rattle.vhd_volumes.specs.Truth.{disk_blocks, layout_now, HasRoomIn, StandsNow, IsTrueNow, IsTrueOf};
ghost use Rattle.vhd_volumes.specs.Writes.{IsGuarded, KeepsHeads, HasWritten, with_block};
ghost use Rattle.vhd_write.specs.Marks.{HasMark, IsMarkedIn, PutsBitmap, PutsMarkedIn};
ghost use Rattle.vhd_write.specs.Passes.{AreSet, GoesOn, IsFinished, IsFull, IsNewSlot, IsPut, PutsBlock, SetsBits};
ghost use Rattle.vhd_write.specs.WritePlaces.{KeepsToPlaces};

use crate::calls::{get, place_of, put, settle};
use crate::marks::{add_marks, has_marks, put_marked};
use crate::tables::{PER_SECTOR, put_entries};
use sm_base::Failed;
use vg_volumes::Store;
use vhd_map::Map;
use vhd_volumes::Head;

/// The slot of a block. One that has none gets the least free one, with a bitmap of the marked sectors alone.
fn slot_for<S: Store>(
    store: &mut S,
    head: &Head,
    map: &mut Map,
    block: u32,
    marks: &[u8; 512],
) -> Result<u32, Failed>
    requires entries { length map.old ≡ (S.site store.old).geometry.entries }
    requires good { IsMap map.old }
    requires within { block < length map.old }
    requires room { HasRoomIn (stored S.Store store.old) head.now.volume (top_of (with_block block map.old)) }
    requires some { HasMark (S.site store.old).geometry.block marks.now }
    ensures works { WorksOn S.Store head.now.volume store.old store.new }
    ensures cause { Counts S.Store result store.old store.new }
    ensures put { IfOk result (λ slot. (map.new ≡ with_block block map.old) × (slot_of map.new block ≡ Some slot)) }
    ensures kept { OnErr result (map.new ≡ map.old) }
    ensures reaches { Does S.Store head.now.volume
        (Reaches (PutsBitmap (layout_now (stored S.Store store.old) head.now)
        (IsMarkedIn (S.site store.old).geometry.block block marks.now) map.old block)) store.old store.new }
    ensures fresh { IfOk result (λ slot. slot_of map.old block ≡ None → Gives S.Store head.now.volume
        (IsNewSlot (layout_now (stored S.Store store.old) head.now)
        (IsMarkedIn (S.site store.old).geometry.block block marks.now) block slot) store.new) }
{
    if let Some(slot) = map.slot(block) {
        return Ok(slot);
    }
    let geometry = store.geometry();
    let slot = map.least_free();
    let mut bitmap = [0; 512];
    add_marks(&mut bitmap, marks, geometry.block);
    let at = place_of(&geometry, slot, 0);
    put(store, &head.volume, at, &bitmap)?;
    map.put(block, slot);
    Ok(slot)
}

/// The first pass: puts the marked sectors into the slot of their block.
fn put_sectors<S: Store>(
    store: &mut S,
    head: &Head,
    map: &mut Map,
    block: u32,
    marks: &[u8; 512],
    bytes: &[u8],
) -> Result<(), Failed>
    requires entries { length map.old ≡ (S.site store.old).geometry.entries }
    requires good { IsMap map.old }
    requires within { block < length map.old }
    requires room { HasRoomIn (stored S.Store store.old) head.now.volume (top_of (with_block block map.old)) }
    requires some { HasMark (S.site store.old).geometry.block marks.now }
    requires long { length bytes.now ≡ 512 * (S.site store.old).geometry.block }
    ensures works { WorksOn S.Store head.now.volume store.old store.new }
    ensures cause { Counts S.Store result store.old store.new }
    ensures put { OnOk result (map.new ≡ with_block block map.old) }
    ensures either { (map.new ≡ map.old) ⊎ (map.new ≡ with_block block map.old) }
    ensures reaches { Does S.Store head.now.volume
        (Reaches (PutsBlock (layout_now (stored S.Store store.old) head.now)
        (PutsMarkedIn (S.site store.old).geometry.block block marks.now bytes.now)
        (IsMarkedIn (S.site store.old).geometry.block block marks.now) map.old block)) store.old store.new }
    ensures done { OnOk result (Gives S.Store head.now.volume
        (IsPut (layout_now (stored S.Store store.old) head.now)
        (PutsMarkedIn (S.site store.old).geometry.block block marks.now bytes.now)
        (IsMarkedIn (S.site store.old).geometry.block block marks.now)
        (slot_of map.old block) (slot_of map.new block) block) store.new) }
{
    let slot = slot_for(store, head, map, block, marks)?;
    let geometry = store.geometry();
    let at = place_of(&geometry, slot, 1);
    put_marked(store, &head.volume, at, marks, bytes)?;
    Ok(())
}

/// Whether the block has a slot, with the bits of the marked sectors all set.
fn is_marked<S: Store>(
    store: &mut S,
    head: &Head,
    map: &Map,
    block: u32,
    marks: &[u8; 512],
) -> Result<bool, Failed>
    requires entries { length map.now ≡ (S.site store.old).geometry.entries }
    requires within { block < length map.now }
    requires room { HasRoomIn (stored S.Store store.old) head.now.volume (top_of map.now) }
    ensures works { WorksOn S.Store head.now.volume store.old store.new }
    ensures cause { Counts S.Store result store.old store.new }
    ensures same { Does S.Store head.now.volume SameHeld store.old store.new }
    ensures full { IfOk result (λ full. OnTrue full (IsFull S.told (layout_now (stored S.Store store.old) head.now)
        (IsMarkedIn (S.site store.old).geometry.block block marks.now) (slot_of map.now) block
        (reads (held_in (stored S.Store store.old) head.now.volume)))) }
{
    let Some(slot) = map.slot(block) else {
        return Ok(false);
    };
    let geometry = store.geometry();
    let at = place_of(&geometry, slot, 0);
    let bitmap = get(store, &head.volume, at)?;
    Ok(has_marks(&bitmap, marks, geometry.block))
}

/// The second pass: sets the bits of the marked sectors in the bitmap of their block's slot, where one is unset.
fn set_marks<S: Store>(
    store: &mut S,
    head: &Head,
    map: &Map,
    block: u32,
    marks: &[u8; 512],
) -> Result<(), Failed>
    requires entries { length map.now ≡ (S.site store.old).geometry.entries }
    requires within { block < length map.now }
    requires room { HasRoomIn (stored S.Store store.old) head.now.volume (top_of map.now) }
    requires some { HasMark (S.site store.old).geometry.block marks.now }
    ensures works { WorksOn S.Store head.now.volume store.old store.new }
    ensures cause { Counts S.Store result store.old store.new }
    ensures reaches { Does S.Store head.now.volume
        (SetsBits (layout_now (stored S.Store store.old) head.now)
        (IsMarkedIn (S.site store.old).geometry.block block marks.now) (slot_of map.now block) block) store.old store.new }
    ensures done { OnOk result (Gives S.Store head.now.volume
        (AreSet (layout_now (stored S.Store store.old) head.now)
        (IsMarkedIn (S.site store.old).geometry.block block marks.now) (slot_of map.now block) block) store.new) }
{
    let Some(slot) = map.slot(block) else {
        return Ok(());
    };
    let geometry = store.geometry();
    let at = place_of(&geometry, slot, 0);
    let mut bitmap = get(store, &head.volume, at)?;
    if has_marks(&bitmap, marks, geometry.block) {
        return Ok(());
    }
    add_marks(&mut bitmap, marks, geometry.block);
    put(store, &head.volume, at, &bitmap)?;
    Ok(())
}

/// Syncs, and then sets the bits of the marked sectors where the block had a slot. A new slot has them: of such a block the entry is written.
fn end_block<S: Store>(
    store: &mut S,
    head: &Head,
    map: &Map,
    block: u32,
    marks: &[u8; 512],
    held: bool,
) -> Result<(), Failed>
    requires entries { length map.now ≡ (S.site store.old).geometry.entries }
    requires within { block < length map.now }
    requires room { HasRoomIn (stored S.Store store.old) head.now.volume (top_of map.now) }
    requires some { HasMark (S.site store.old).geometry.block marks.now }
    requires set { OnFalse held (Gives S.Store head.now.volume
        (AreSet (layout_now (stored S.Store store.old) head.now)
        (IsMarkedIn (S.site store.old).geometry.block block marks.now) (slot_of map.now block) block) store.old) }
    ensures works { WorksOn S.Store head.now.volume store.old store.new }
    ensures cause { Counts S.Store result store.old store.new }
    ensures goes { Does S.Store head.now.volume
        (GoesOn (layout_now (stored S.Store store.old) head.now)
        (IsMarkedIn (S.site store.old).geometry.block block marks.now) (slot_of map.now)) store.old store.new }
    ensures done { OnOk result (Does S.Store head.now.volume
        (IsFinished (layout_now (stored S.Store store.old) head.now)
        (IsMarkedIn (S.site store.old).geometry.block block marks.now) (slot_of map.now) block (block + 1) held)
        store.old store.new) }
{
    settle(store, &head.volume)?;
    if held {
        set_marks(store, head, map, block, marks)?;
        return Ok(());
    }
    put_entries(store, head, map, block / PER_SECTOR)?;
    Ok(())
}

/// Writes the marked sectors of one block of the disk, at least one, into the image with this head and map in the head's volume:
/// `bytes` are those of the whole block, of which only the marked ones are read. A block without a slot is given the least free one,
/// for which the volume has room. Nothing is put but these sectors, their bits in the bitmap of the slot, and the sector of the table
/// with the block's entry; and one sync is made at most.
///
/// At `Ok` a read gives the bytes, and all other sectors as before. At `Failed`, and whenever a stop comes, what a stop leaves is a
/// valid image that follows one which a stop could leave before: each sector as it was there, or with its bytes of this write. The
/// copy of the footer, the header and the last sector stay. What was written lasts once the store is synced.
///
/// # Errors
///
/// The store failed. The map may name a slot then that the table has not: before the image is used again the store is synced and
/// the image opened.
pub fn write_marked<S: Store>(
    store: &mut S,
    head: &Head,
    map: &mut Map,
    block: u32,
    marks: &[u8; 512],
    bytes: &[u8],
) -> Result<(), Failed>
    requires usable { S.failed store.old ≡ false }
    requires stands { StandsNow (stored S.Store store.old) head.now map.old }
    requires is_true { S.told → IsTrueNow (stored S.Store store.old) head.now map.old }
    requires within { block < disk_blocks (S.site store.old).geometry head.now.footer }
    requires some { HasMark (S.site store.old).geometry.block marks.now }
    requires long { length bytes.now ≡ 512 * (S.site store.old).geometry.block }
    requires slots { HasRoomIn (stored S.Store store.old) head.now.volume (top_of (with_block block map.old)) }
    ensures works { WorksOn S.Store head.now.volume store.old store.new }
    ensures cause { Counts S.Store result store.old store.new }
    ensures guarded { Does S.Store head.now.volume
        (IsGuarded (layout_now (stored S.Store store.old) head.now)
        (PutsMarkedIn (S.site store.old).geometry.block block marks.now bytes.now)) store.old store.new }
    ensures places { Does S.Store head.now.volume
        (KeepsToPlaces (layout_now (stored S.Store store.old) head.now)
        (PutsMarkedIn (S.site store.old).geometry.block block marks.now bytes.now)
        (IsMarkedIn (S.site store.old).geometry.block block marks.now)
        (slot_of map.old) (slot_of (with_block block map.old))) store.old store.new }
    ensures heads { Does S.Store head.now.volume
        (KeepsHeads (sectors_in (stored S.Store store.old) head.now.volume)) store.old store.new }
    ensures either { (map.new ≡ map.old) ⊎ (map.new ≡ with_block block map.old) }
    ensures map { OnOk result (map.new ≡ with_block block map.old) }
    ensures still { OnOk result (Holds S.Store head.now.volume
        (λ h. IsTrueOf (layout_now (stored S.Store store.old) head.now) h head.now (slot_of map.new)) store.new) }
    ensures written { OnOk result (Does S.Store head.now.volume
        (HasWritten (layout_now (stored S.Store store.old) head.now)
        (PutsMarkedIn (S.site store.old).geometry.block block marks.now bytes.now)) store.old store.new) }
    ensures stands { OnOk result (StandsNow (stored S.Store store.old) head.now map.new) }
{
    let held = map.slot(block).is_some();
    let complete = is_marked(store, head, map, block, marks)?;
    put_sectors(store, head, map, block, marks, bytes)?;
    if complete {
        return Ok(());
    }
    end_block(store, head, map, block, marks, held)?;
    Ok(())
}
