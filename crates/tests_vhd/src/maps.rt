//! A map's worked values: the geometry of extents of 16 KiB, blocks of 4 KiB and 64 entries, whose slot 0
//! begins at sector 4 and whose slots have 9 sectors.
ghost use Rattle.std.specs.Prelude.{◌≡◌};

use sm_base::{Geometry, NoMemory};
use std::alloc::Global;
use std::test::Fail;
use vhd_map::Map;

fn small() -> Geometry
    ensures { result.entries ≡ 64 }
{
    Geometry {
        extent: 32,
        block: 8,
        entries: 64,
    }
}

/// Gives the block the least free slot, where both are below T and the block has none.
fn give(map: &mut Map, block: u32) -> bool {
    let slot = map.least_free();
    let may = block < map.entries() && slot < map.entries() && map.slot(block).is_none();
    if may {
        map.put(block, slot);
    }
    may
}

/// The first sector of a table with these entries in front of blank ones.
fn sector(entries: &[u32]) -> [u8; 512] {
    let mut bytes = [0xff; 512];
    for (j, entry) in entries.iter().enumerate() {
        if j < 128 {
            let [a, b, c, d] = entry.to_be_bytes();
            bytes[4 * j] = a;
            bytes[4 * j + 1] = b;
            bytes[4 * j + 2] = c;
            bytes[4 * j + 3] = d;
        }
    }
    bytes
}

/// The map that the sector is read into, and whether it is read.
fn read(
    alloc: Global,
    blocks: u32,
    slots: u32,
    bytes: &[u8; 512],
) -> Result<(Map, bool), NoMemory> {
    let mut map = Map::blank(alloc, 64)?;
    let read = blocks <= 64 && slots <= 64 && map.read_sector(0, &small(), blocks, slots, bytes);
    Ok((map, read))
}

/// Whether a map has so many blocks with slots, in slots that are the least ones.
fn is_dense(map: &Map, count: u32) -> bool {
    map.count() == count && map.top() == count && map.least_free() == count
}

/// Gives blocks 5 and 2 of a blank map slots, and finds them.
fn gives_two(map: &mut Map) -> bool {
    let is_blank = map.entries() == 64 && is_dense(map, 0);
    let is_given = give(map, 5) && give(map, 2);
    is_blank && is_given && is_dense(map, 2) && finds_two(map)
}

/// Whether blocks 2 and 5 alone have slots.
fn finds_two(map: &Map) -> bool {
    map.next(0) == Some(2) && map.next(3) == Some(5) && map.next(6).is_none()
}

#[test]
fn gives_the_least_free_slot(rt: HostRuntime) -> Result<(), Fail> {
    let mut map = Map::blank(rt.alloc(), 64)?;
    assert!(rt; gives_two(&mut map));
    Ok(())
}

/// Gives each block a slot.
fn gives_all(map: &mut Map) -> bool {
    for block in 0..65536 {
        if !give(map, block) {
            return false;
        }
    }
    is_dense(map, 65536)
}

#[test]
fn fills_a_table_of_65536_entries(rt: HostRuntime) -> Result<(), Fail> {
    let mut map = Map::blank(rt.alloc(), 65536)?;
    assert!(rt; gives_all(&mut map));
    Ok(())
}

/// Whether two maps have so many blocks with a slot in one of them.
fn has_union(one: &Map, other: &Map, count: u32) -> bool {
    one.entries() == other.entries() && one.union_count(other) == count
}

#[test]
fn counts_the_blocks_of_two_maps(rt: HostRuntime) -> Result<(), Fail> {
    let (one, _) = read(rt.alloc(), 64, 64, &sector(&[4, 13, u32::MAX]))?;
    let (other, _) = read(rt.alloc(), 64, 64, &sector(&[u32::MAX, 4, 13]))?;
    assert!(rt; has_union(&one, &other, 3));
    Ok(())
}

/// Whether a map has the slots 0 and 1 for its first two blocks, and writes their entries.
fn writes_two(map: &Map) -> bool {
    if map.entries() != 64 {
        return false;
    }
    let has_slots = map.slot(0) == Some(0) && map.slot(1) == Some(1) && map.slot(2).is_none();
    let mut bytes = [0; 512];
    map.write_sector(0, &small(), &mut bytes);
    has_slots && bytes == sector(&[4, 13])
}

#[test]
fn writes_and_reads_a_sector_of_the_table(rt: HostRuntime) -> Result<(), Fail> {
    let (map, right) = read(rt.alloc(), 64, 64, &sector(&[4, 13]))?;
    assert!(rt; right && writes_two(&map));
    Ok(())
}

/// Whether the sector is refused, and leaves the map blank.
fn is_refused(alloc: Global, blocks: u32, slots: u32, entries: &[u32]) -> Result<bool, NoMemory> {
    let (map, right) = read(alloc, blocks, slots, &sector(entries))?;
    Ok(!right && map.count() == 0)
}

#[test]
fn refuses_a_sector_of_the_table(rt: HostRuntime) -> Result<(), Fail> {
    let mut past = [u32::MAX; 65];
    past[64] = 0;
    let faults: [(&[u32], u32, u32); 6] = [
        (&[4, 4], 64, 64),
        (&[5], 64, 64),
        (&[3], 64, 64),
        (&[4, 13], 1, 64),
        (&[4, 13], 64, 1),
        (&past, 64, 64),
    ];
    for (entries, blocks, slots) in faults {
        assert!(rt; is_refused(rt.alloc(), blocks, slots, entries)?);
    }
    Ok(())
}
