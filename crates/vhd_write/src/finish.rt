//! What follows the first pass: a sync, the bitmaps, and the table.

ghost use Rattle.std.specs.Prelude.{◌≡◌, ◌≢◌, ℕ, ◌+◌, ◌-◌, ◌*◌, ◌/◌, ◌<◌, ◌≤◌, length, None, Some, false, OnOk, OnErr, IfOk};
ghost use Rattle.std.specs.Bool.{OnTrue, OnFalse};
ghost use Rattle.sm_disk.specs.Held.{IsIn, SameHeld};
ghost use Rattle.vhd_map.specs.Slots.{slot_of, top_of, IsMap};
ghost use Rattle.vg_volumes.specs.Stored.{stored, WorksOn, Counts};
ghost use Rattle.vhd_write.specs.WriteSpans.{IsFullNow, AreFullNow, AreSetIn, AreNewSetIn, IsFinishedIn};
ghost use Rattle.vhd_volumes.specs.Steps.{Does, Gives};
ghost use Rattle.vhd_volumes.specs.Truth.{layout_now, HasRoomIn};
ghost use Rattle.vhd_write.specs.Passes.{AreSet, AreNewSet, GoesOn, SetsBits, SetsAllBits};

use crate::bitmaps::{has_bits, set_bits};
use crate::calls::{get, place_of, put, settle};
use crate::spans::{Span, part_of};
use crate::tables::put_table;
use sm_base::Failed;
use vg_volumes::Store;
use vhd_map::Map;
use vhd_volumes::Head;

/// Whether a block has a slot, with the bits of the written sectors all set.
fn is_full<S: Store>(
    store: &mut S,
    head: &Head,
    map: &Map,
    span: &Span,
    block: u32,
) -> Result<bool, Failed>
    requires sizes { span.now.block ≡ (S.site store.old).geometry.block }
    requires entries { length map.now ≡ (S.site store.old).geometry.entries }
    requires from_first { span.now.first ≤ block }
    requires to_end { block < span.now.end }
    requires within { span.now.end ≤ length map.now }
    requires room { HasRoomIn (stored S.Store store.old) head.now.volume (top_of map.now) }
    ensures works { WorksOn S.Store head.now.volume store.old store.new }
    ensures cause { Counts S.Store result store.old store.new }
    ensures same { Does S.Store head.now.volume SameHeld store.old store.new }
    ensures full { IfOk result (λ full. OnTrue full (IsFullNow S.Store store.old head.now span.now map.now block)) }
{
    let Some(slot) = map.slot(block) else {
        return Ok(false);
    };
    let part = part_of(span, block);
    let at = place_of(&store.geometry(), slot, 0);
    let bitmap = get(store, &head.volume, at)?;
    Ok(has_bits(&bitmap, &part))
}

/// Whether each block has a slot, with the bits of the written sectors all set.
pub(crate) fn is_complete<S: Store>(
    store: &mut S,
    head: &Head,
    map: &Map,
    span: &Span,
) -> Result<bool, Failed>
    requires sizes { span.now.block ≡ (S.site store.old).geometry.block }
    requires entries { length map.now ≡ (S.site store.old).geometry.entries }
    requires within { span.now.end ≤ length map.now }
    requires room { HasRoomIn (stored S.Store store.old) head.now.volume (top_of map.now) }
    ensures works { WorksOn S.Store head.now.volume store.old store.new }
    ensures cause { Counts S.Store result store.old store.new }
    ensures same { Does S.Store head.now.volume SameHeld store.old store.new }
    ensures full { IfOk result (λ full. OnTrue full (AreFullNow S.Store store.old head.now span.now map.now)) }
{
    for block in span.first..span.end {
        if !is_full(store, head, map, span, block)? {
            return Ok(false);
        }
    }
    Ok(true)
}

/// Sets the bits of the written sectors in the bitmap of one block's slot, where one is unset. A slot that is not below `fresh` is a
/// new one, which has them: its bitmap is not read.
fn set_bitmap<S: Store>(
    store: &mut S,
    head: &Head,
    map: &Map,
    span: &Span,
    block: u32,
    fresh: u32,
) -> Result<(), Failed>
    requires sizes { span.now.block ≡ (S.site store.old).geometry.block }
    requires entries { length map.now ≡ (S.site store.old).geometry.entries }
    requires from_first { span.now.first ≤ block }
    requires to_end { block < span.now.end }
    requires within { span.now.end ≤ length map.now }
    requires room { HasRoomIn (stored S.Store store.old) head.now.volume (top_of map.now) }
    requires set { Gives S.Store head.now.volume
        (AreNewSet (layout_now (stored S.Store store.old) head.now) (IsIn span.now.sector (512 * span.now.count))
        fresh (slot_of map.now block) block) store.old }
    ensures works { WorksOn S.Store head.now.volume store.old store.new }
    ensures cause { Counts S.Store result store.old store.new }
    ensures reaches { Does S.Store head.now.volume
        (SetsBits (layout_now (stored S.Store store.old) head.now) (IsIn span.now.sector (512 * span.now.count))
        (slot_of map.now block) block) store.old store.new }
    ensures done { OnOk result (Gives S.Store head.now.volume
        (AreSet (layout_now (stored S.Store store.old) head.now) (IsIn span.now.sector (512 * span.now.count))
        (slot_of map.now block) block) store.new) }
{
    let Some(slot) = map.slot(block) else {
        return Ok(());
    };
    if slot >= fresh {
        return Ok(());
    }
    let part = part_of(span, block);
    let at = place_of(&store.geometry(), slot, 0);
    let mut bitmap = get(store, &head.volume, at)?;
    if has_bits(&bitmap, &part) {
        return Ok(());
    }
    set_bits(&mut bitmap, &part);
    put(store, &head.volume, at, &bitmap)?;
    Ok(())
}

/// The second pass: sets the bits of the written sectors in the bitmaps of all blocks' slots. Those that are not below `fresh` have them.
fn set_bitmaps<S: Store>(
    store: &mut S,
    head: &Head,
    map: &Map,
    span: &Span,
    fresh: u32,
) -> Result<(), Failed>
    requires sizes { span.now.block ≡ (S.site store.old).geometry.block }
    requires entries { length map.now ≡ (S.site store.old).geometry.entries }
    requires good { IsMap map.now }
    requires within { span.now.end ≤ length map.now }
    requires room { HasRoomIn (stored S.Store store.old) head.now.volume (top_of map.now) }
    requires set { Gives S.Store head.now.volume
        (AreNewSetIn (layout_now (stored S.Store store.old) head.now) span.now fresh (slot_of map.now)) store.old }
    ensures works { WorksOn S.Store head.now.volume store.old store.new }
    ensures cause { Counts S.Store result store.old store.new }
    ensures reaches { Does S.Store head.now.volume
        (SetsAllBits (layout_now (stored S.Store store.old) head.now) (IsIn span.now.sector (512 * span.now.count))
        (slot_of map.now)) store.old store.new }
    ensures done { OnOk result (Gives S.Store head.now.volume
        (AreSetIn (layout_now (stored S.Store store.old) head.now) span.now (slot_of map.now)) store.new) }
{
    for block in span.first..span.end {
        set_bitmap(store, head, map, span, block, fresh)?;
    }
    Ok(())
}

/// Syncs, sets the bits of the written sectors, and writes the blocks' entries, unless all blocks had slots.
/// Slots that are not below `fresh` are new ones, which have the bits.
pub(crate) fn finish<S: Store>(
    store: &mut S,
    head: &Head,
    map: &Map,
    span: &Span,
    held: bool,
    fresh: u32,
) -> Result<(), Failed>
    requires sizes { span.now.block ≡ (S.site store.old).geometry.block }
    requires entries { length map.now ≡ (S.site store.old).geometry.entries }
    requires good { IsMap map.now }
    requires within { span.now.end ≤ length map.now }
    requires room { HasRoomIn (stored S.Store store.old) head.now.volume (top_of map.now) }
    requires set { Gives S.Store head.now.volume
        (AreNewSetIn (layout_now (stored S.Store store.old) head.now) span.now fresh (slot_of map.now)) store.old }
    ensures works { WorksOn S.Store head.now.volume store.old store.new }
    ensures cause { Counts S.Store result store.old store.new }
    ensures goes { Does S.Store head.now.volume
        (GoesOn (layout_now (stored S.Store store.old) head.now) (IsIn span.now.sector (512 * span.now.count))
        (slot_of map.now)) store.old store.new }
    ensures done { OnOk result (Does S.Store head.now.volume
        (IsFinishedIn (layout_now (stored S.Store store.old) head.now) span.now
        (slot_of map.now) held) store.old store.new) }
{
    settle(store, &head.volume)?;
    set_bitmaps(store, head, map, span, fresh)?;
    if held {
        return Ok(());
    }
    put_table(store, head, map, span)?;
    Ok(())
}
