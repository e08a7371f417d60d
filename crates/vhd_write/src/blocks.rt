//! The first pass: the bytes of each block, into its slot or a new one, which gets a bitmap too.

ghost use Rattle.std.specs.Prelude.{◌≡◌, ◌≢◌, ◌⊎◌, ℕ, ◌+◌, ◌-◌, ◌*◌, ◌<◌, ◌≤◌, length, None, Some, slice_set, OnOk, OnErr, IfOk};
ghost use Rattle.sm_disk.specs.Held.{IsIn, Puts, Reaches};
ghost use Rattle.vhd_map.specs.Slots.{slot_of, top_of, least_free_slot, IsMap};
ghost use Rattle.vg_volumes.specs.Stored.{stored, WorksOn, Counts};
ghost use Rattle.vhd_volumes.specs.Steps.{Does, Gives};
ghost use Rattle.vhd_volumes.specs.Truth.{layout_now, HasRoomIn};
ghost use Rattle.vhd_volumes.specs.Writes.{HasGrown, with_block, with_blocks};
ghost use Rattle.vhd_write.specs.Passes.{PutsPart, PutsBlock, PutsData, IsSlotFilled, IsPut, ArePut};
ghost use Rattle.vhd_write.specs.Payloads.{piece_of};
ghost use Rattle.vhd_write.specs.Spans.{Given};
ghost use Rattle.vhd_write.specs.WritePlaces.{KeepsToPlaces};

use crate::bitmaps::bitmap_of;
use crate::calls::{place_of, put, put_piece};
use crate::payloads::Payload;
use crate::spans::{Part, Span, part_of};
use sm_base::Failed;
use vg_volumes::Store;
use vhd_map::Map;
use vhd_volumes::Head;

/// Writes the bytes of a block that has no slot into the least free one, and a bitmap of just these; the map then has the
/// slot for the block. What lies beside them in the slot stays.
fn put_new<S: Store>(
    store: &mut S,
    head: &Head,
    map: &mut Map,
    block: u32,
    part: &Part,
    from: &Payload<'_>,
) -> Result<(), Failed>
    requires entries { length map.old ≡ (S.site store.old).geometry.entries }
    requires good { IsMap map.old }
    requires within { block < length map.old }
    requires without { slot_of map.old block ≡ None }
    requires room { HasRoomIn (stored S.Store store.old) head.now.volume (top_of (with_block block map.old)) }
    requires some { 0 < part.now.count }
    requires part { part.now.first + part.now.count ≤ (S.site store.old).geometry.block }
    requires inside { 512 * (part.now.skip + part.now.count) ≤ length from.now }
    ensures works { WorksOn S.Store head.now.volume store.old store.new }
    ensures cause { Counts S.Store result store.old store.new }
    ensures put { OnOk result (map.new ≡ slice_set map.old block (Some (least_free_slot map.old))) }
    ensures kept { OnErr result (map.new ≡ map.old) }
    ensures reaches { Does S.Store head.now.volume
        (Reaches (PutsPart (layout_now (stored S.Store store.old) head.now)
        (least_free_slot map.old) part.now.first part.now.count
        (piece_of part.now.skip part.now.count from.now))) store.old store.new }
    ensures done { OnOk result (Gives S.Store head.now.volume
        (IsSlotFilled (layout_now (stored S.Store store.old) head.now)
        (least_free_slot map.old) part.now.first part.now.count
        (piece_of part.now.skip part.now.count from.now)) store.new) }
{
    let geometry = store.geometry();
    let slot = map.least_free();
    let bitmap = bitmap_of(part);
    let at = place_of(&geometry, slot, 0);
    put(store, &head.volume, at, &bitmap)?;
    let data = place_of(&geometry, slot, 1 + part.first);
    let count = part.count as u64;
    put_piece(store, &head.volume, data, from, part.skip, count)?;
    map.put(block, slot);
    Ok(())
}

/// Writes the bytes of one block: into its slot, or into a new one where it has none.
fn put_block<S: Store>(
    store: &mut S,
    head: &Head,
    map: &mut Map,
    span: &Span,
    block: u32,
    from: &Payload<'_>,
) -> Result<(), Failed>
    requires sizes { span.now.block ≡ (S.site store.old).geometry.block }
    requires bytes { length from.now ≡ 512 * span.now.count }
    requires entries { length map.old ≡ (S.site store.old).geometry.entries }
    requires from_first { span.now.first ≤ block }
    requires to_end { block < span.now.end }
    requires within { span.now.end ≤ length map.old }
    requires room { HasRoomIn (stored S.Store store.old) head.now.volume (top_of (with_block block map.old)) }
    ensures works { WorksOn S.Store head.now.volume store.old store.new }
    ensures cause { Counts S.Store result store.old store.new }
    ensures put { OnOk result (map.new ≡ with_block block map.old) }
    ensures kept { OnErr result (map.new ≡ map.old) }
    ensures reaches { Does S.Store head.now.volume
        (Reaches (PutsBlock (layout_now (stored S.Store store.old) head.now) (Puts span.now.sector from.now)
        (IsIn span.now.sector (length from.now)) map.old block))
        store.old store.new }
    ensures done { OnOk result (Gives S.Store head.now.volume
        (IsPut (layout_now (stored S.Store store.old) head.now) (Puts span.now.sector from.now)
        (IsIn span.now.sector (length from.now)) (slot_of map.old block)
        (slot_of map.new block) block) store.new) }
{
    let geometry = store.geometry();
    let part = part_of(span, block);
    let count = part.count as u64;
    if let Some(slot) = map.slot(block) {
        let at = place_of(&geometry, slot, 1 + part.first);
        put_piece(store, &head.volume, at, from, part.skip, count)?;
        return Ok(());
    }
    put_new(store, head, map, block, &part, from)?;
    Ok(())
}

/// Writes the bytes, block by block.
pub(crate) fn put_blocks<S: Store>(
    store: &mut S,
    head: &Head,
    map: &mut Map,
    span: &Span,
    from: &Payload<'_>,
) -> Result<(), Failed>
    requires sizes { span.now.block ≡ (S.site store.old).geometry.block }
    requires bytes { length from.now ≡ 512 * span.now.count }
    requires entries { length map.old ≡ (S.site store.old).geometry.entries }
    requires good { IsMap map.old }
    requires within { span.now.end ≤ length map.old }
    requires room { HasRoomIn (stored S.Store store.old) head.now.volume
        (top_of (with_blocks span.now.first (span.now.end - span.now.first) map.old)) }
    ensures works { WorksOn S.Store head.now.volume store.old store.new }
    ensures cause { Counts S.Store result store.old store.new }
    ensures grown { HasGrown map.old map.new }
    ensures given { OnOk result (Given span.now.first span.now.end map.old map.new) }
    ensures reaches { Does S.Store head.now.volume
        (Reaches (PutsData (layout_now (stored S.Store store.old) head.now) (Puts span.now.sector from.now)
        (slot_of map.old))) store.old store.new }
    ensures places { Does S.Store head.now.volume
        (KeepsToPlaces (layout_now (stored S.Store store.old) head.now) (Puts span.now.sector from.now)
        (IsIn span.now.sector (length from.now)) (slot_of map.old)
        (slot_of (with_blocks span.now.first (span.now.end - span.now.first) map.old))) store.old store.new }
    ensures done { OnOk result (Gives S.Store head.now.volume
        (ArePut (layout_now (stored S.Store store.old) head.now) (Puts span.now.sector from.now)
        (IsIn span.now.sector (length from.now)) (slot_of map.old)
        (slot_of map.new) span.now.end) store.new) }
{
    for block in span.first..span.end {
        put_block(store, head, map, span, block, from)?;
    }
    Ok(())
}
