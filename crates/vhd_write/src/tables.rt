//! The third pass: the table, from the map in memory.

ghost use Rattle.std.specs.Prelude.{◌≡◌, ◌≢◌, ℕ, ◌+◌, ◌-◌, ◌*◌, ◌/◌, ◌<◌, ◌≤◌, length, OnOk, OnErr, IfOk};
ghost use Rattle.sm_disk.specs.Held.{IsIn, Reaches, reads};
ghost use Rattle.vhd_map.specs.Slots.{slot_of, top_of};
ghost use Rattle.vg_volumes.specs.Stored.{stored, WorksOn, Counts};
ghost use Rattle.vhd_volumes.specs.Steps.{Does, Gives};
ghost use Rattle.vhd_volumes.specs.Truth.{layout_now, HasRoomIn};
ghost use Rattle.vhd_write.specs.Passes.{IsTableSector, PutsEntries, PutsTable, AreTableSectors};

use crate::calls::put;
use crate::spans::Span;
use sm_base::Failed;
use vg_volumes::Store;
use vhd_map::Map;
use vhd_volumes::Head;

/// The entries of one sector of the table.
pub(crate) const PER_SECTOR: u32 = 128;

/// Writes one sector of the table.
pub(crate) fn put_entries<S: Store>(
    store: &mut S,
    head: &Head,
    map: &Map,
    index: u32,
) -> Result<(), Failed>
    requires entries { length map.now ≡ (S.site store.old).geometry.entries }
    requires within { 128 * index < length map.now }
    requires room { HasRoomIn (stored S.Store store.old) head.now.volume (top_of map.now) }
    ensures works { WorksOn S.Store head.now.volume store.old store.new }
    ensures cause { Counts S.Store result store.old store.new }
    ensures reaches { Does S.Store head.now.volume
        (Reaches (PutsEntries (layout_now (stored S.Store store.old) head.now) (slot_of map.now) index))
        store.old store.new }
    ensures done { OnOk result (Gives S.Store head.now.volume
        (λ r. IsTableSector (layout_now (stored S.Store store.old) head.now) (slot_of map.now) index
        (r (3 + index))) store.new) }
    ensures others { Does S.Store head.now.volume (λ old new. (p : ℕ) → p ≢ 3 + index → reads new p
        ≡ reads old p) store.old store.new }
{
    let mut sector = [0; 512];
    map.write_sector(index, &store.geometry(), &mut sector);
    put(store, &head.volume, 3 + u64::from(index), &sector)?;
    Ok(())
}

/// Writes the sectors of the table that the blocks' entries lie in.
pub(crate) fn put_table<S: Store>(
    store: &mut S,
    head: &Head,
    map: &Map,
    span: &Span,
) -> Result<(), Failed>
    requires sizes { span.now.block ≡ (S.site store.old).geometry.block }
    requires entries { length map.now ≡ (S.site store.old).geometry.entries }
    requires within { span.now.end ≤ length map.now }
    requires room { HasRoomIn (stored S.Store store.old) head.now.volume (top_of map.now) }
    ensures works { WorksOn S.Store head.now.volume store.old store.new }
    ensures cause { Counts S.Store result store.old store.new }
    ensures reaches { Does S.Store head.now.volume
        (Reaches (PutsTable (layout_now (stored S.Store store.old) head.now) (IsIn span.now.sector (512 * span.now.count))
        (slot_of map.now))) store.old store.new }
    ensures done { OnOk result (Gives S.Store head.now.volume
        (AreTableSectors (layout_now (stored S.Store store.old) head.now)
        (slot_of map.now) span.now.first span.now.end) store.new) }
{
    for index in span.first / PER_SECTOR..(span.end - 1) / PER_SECTOR + 1 {
        put_entries(store, head, map, index)?;
    }
    Ok(())
}
