//! The guest's write.

ghost use Rattle.std.specs.Prelude.{◌≡◌, ◌≢◌, ℕ, ◌+◌, ◌-◌, ◌*◌, ◌/◌, ◌<◌, ◌≤◌, length, None, Some, true, false, OnOk, OnErr, IfOk};
ghost use Rattle.std.specs.Bool.{OnTrue};
ghost use Rattle.sm_disk.specs.Held.{IsIn, IsWhole, Puts, Reaches};
ghost use Rattle.vhd_map.specs.Slots.{slot_of, top_of, IsMap};
ghost use Rattle.vg_volumes.specs.Stored.{stored, sectors_in, WorksOn, Counts};
ghost use Rattle.vhd_volumes.specs.Steps.{Holds, Does, Gives};
ghost use Rattle.vhd_volumes.specs.Truth.{disk_sectors, disk_blocks, layout_now, HasRoomIn, StandsNow, IsTrueNow, IsTrueOf};
ghost use Rattle.vhd_volumes.specs.Writes.{IsGuarded, KeepsHeads, HasWritten, HasGrown, with_blocks, written_map};
ghost use Rattle.vhd_write.specs.Passes.{PutsData, ArePut};
ghost use Rattle.vhd_write.specs.Spans.{Given};
ghost use Rattle.vhd_write.specs.WritePlaces.{KeepsToPlaces};
ghost use Rattle.vhd_write.specs.WriteSpans.{IsSpanOf, AreFullNow};

use crate::blocks::put_blocks;
use crate::finish::{finish, is_complete};
use crate::payloads::Payload;
use crate::spans::Span;
use sm_base::Failed;
use vg_volumes::Store;
use vhd_map::Map;
use vhd_volumes::Head;

/// The sectors of a write of these bytes, from the disk's sector `sector` on.
fn span_of<S: Store>(store: &S, head: &Head, sector: u64, from: &Payload<'_>) -> Span
    requires whole { IsWhole sector (length from.now) (disk_sectors head.now.footer) }
    requires size { head.now.footer.current ≡
        512 * (disk_blocks (S.site store.now).geometry head.now.footer * (S.site store.now).geometry.block) }
    requires most { disk_blocks (S.site store.now).geometry head.now.footer ≤ (S.site store.now).geometry.entries }
    ensures { IsSpanOf (S.site store.now).geometry head.now.footer sector (length from.now) result }
{
    let block = store.geometry().block;
    let size = u64::from(block);
    let count = from.sectors();
    let last = (sector + count - 1) / size;
    Span {
        block,
        sector,
        count,
        first: (sector / size) as u32,
        end: last as u32 + 1,
    }
}

/// Whether each of the blocks has a slot.
fn has_slots(map: &Map, span: &Span) -> bool
    requires { span.now.end ≤ length map.now }
    ensures good { IsMap map.now }
    ensures all { OnTrue result
        ((b : ℕ) → span.now.first ≤ b → b < span.now.end → slot_of map.now b ≢ None) }
{
    if map.slot(span.first).is_none() {
        return false;
    }
    for block in span.first + 1..span.end {
        if map.slot(block).is_none() {
            return false;
        }
    }
    true
}

/// The first pass, and whether it is the whole write: each block had a slot, with the bits of the written sectors all
/// set.
fn first_pass<S: Store>(
    store: &mut S,
    head: &Head,
    map: &mut Map,
    span: &Span,
    from: &Payload<'_>,
) -> Result<bool, Failed>
    requires sizes { span.now.block ≡ (S.site store.old).geometry.block }
    requires bytes { length from.now ≡ 512 * span.now.count }
    requires entries { length map.old ≡ (S.site store.old).geometry.entries }
    requires good { IsMap map.old }
    requires within { span.now.end ≤ length map.old }
    requires room { HasRoomIn (stored S.Store store.old) head.now.volume (top_of map.old) }
    requires slots { HasRoomIn (stored S.Store store.old) head.now.volume
        (top_of (with_blocks span.now.first (span.now.end - span.now.first) map.old)) }
    ensures works { WorksOn S.Store head.now.volume store.old store.new }
    ensures cause { Counts S.Store result store.old store.new }
    ensures grown { HasGrown map.old map.new }
    ensures given { OnOk result (Given span.now.first span.now.end map.old map.new) }
    ensures reaches { Does S.Store head.now.volume
        (Reaches (PutsData (layout_now (stored S.Store store.old) head.now) (Puts span.now.sector from.now)
        (slot_of map.old))) store.old store.new }
    ensures places { Does S.Store head.now.volume
        (KeepsToPlaces (layout_now (stored S.Store store.old) head.now) (Puts span.now.sector from.now)
        (IsIn span.now.sector (length from.now)) (slot_of map.old)
        (slot_of (with_blocks span.now.first (span.now.end - span.now.first) map.old))) store.old store.new }
    ensures done { OnOk result (Gives S.Store head.now.volume
        (ArePut (layout_now (stored S.Store store.old) head.now) (Puts span.now.sector from.now)
        (IsIn span.now.sector (length from.now)) (slot_of map.old)
        (slot_of map.new) span.now.end) store.new) }
    ensures full { IfOk result (λ full. OnTrue full (AreFullNow S.Store store.old head.now span.now map.old)) }
{
    let complete = is_complete(store, head, map, span)?;
    put_blocks(store, head, map, span, from)?;
    Ok(complete)
}

/// Writes whole sectors of a disk, at least one, from its sector `sector` on, into the image with this head and map in
/// the head's volume. Blocks without a slot are given the least free ones in rising order, for which the volume has
/// room. Nothing is put but these sectors, their bits in the bitmaps of their blocks' slots, and their blocks' entries of
/// the table.
///
/// At `Ok` a read gives the bytes, and all other sectors as before. At `Failed`, and whenever a stop comes, what a stop
/// leaves is a valid image that follows one which a stop could leave before: each sector as it was there, or with its
/// bytes of this write. The copy of the footer, the header and the last sector stay. What was written lasts once the
/// store is synced.
///
/// # Errors
///
/// The store failed. The map may name slots then that the table has not: before the image is used again the store is
/// synced and the image opened.
pub fn write<S: Store>(
    store: &mut S,
    head: &Head,
    map: &mut Map,
    sector: u64,
    from: &Payload<'_>,
) -> Result<(), Failed>
    requires usable { S.failed store.old ≡ false }
    requires stands { StandsNow (stored S.Store store.old) head.now map.old }
    requires is_true { S.told → IsTrueNow (stored S.Store store.old) head.now map.old }
    requires whole { IsWhole sector (length from.now) (disk_sectors head.now.footer) }
    requires slots { HasRoomIn (stored S.Store store.old) head.now.volume
        (top_of (written_map (S.site store.old).geometry.block sector (length from.now) map.old)) }
    ensures works { WorksOn S.Store head.now.volume store.old store.new }
    ensures cause { Counts S.Store result store.old store.new }
    ensures guarded { Does S.Store head.now.volume
        (IsGuarded (layout_now (stored S.Store store.old) head.now) (Puts sector from.now)) store.old store.new }
    ensures places { Does S.Store head.now.volume
        (KeepsToPlaces (layout_now (stored S.Store store.old) head.now) (Puts sector from.now)
        (IsIn sector (length from.now)) (slot_of map.old)
        (slot_of (written_map (S.site store.old).geometry.block sector (length from.now) map.old))) store.old store.new }
    ensures heads { Does S.Store head.now.volume
        (KeepsHeads (sectors_in (stored S.Store store.old) head.now.volume)) store.old store.new }
    ensures grown { HasGrown map.old map.new }
    ensures map { OnOk result
        (map.new ≡ written_map (S.site store.old).geometry.block sector (length from.now) map.old) }
    ensures still { OnOk result (Holds S.Store head.now.volume
        (λ h. IsTrueOf (layout_now (stored S.Store store.old) head.now) h head.now (slot_of map.new)) store.new) }
    ensures written { OnOk result (Does S.Store head.now.volume
        (HasWritten (layout_now (stored S.Store store.old) head.now) (Puts sector from.now)) store.old store.new) }
    ensures stands { OnOk result (StandsNow (stored S.Store store.old) head.now map.new) }
{
    let span = span_of(store, head, sector, from);
    let held = has_slots(map, &span);
    let fresh = map.top();
    let complete = first_pass(store, head, map, &span, from)?;
    if complete {
        return Ok(());
    }
    finish(store, head, map, &span, held, fresh)?;
    Ok(())
}
