//! The table of an exported file, a sector at a time.

ghost use Rattle.std.specs.Prelude.{◌≡◌, ◌<◌, ◌≤◌, ◌+◌, ◌*◌, ◌&&◌, ◌++◌, ◌^◌, min, nat_lt, take, if◌then◌else◌};
ghost use Rattle.std.specs.List.{flat_map, range_with_len};
ghost use Rattle.byteorder.specs.Endian.{big_bytes};
ghost use Rattle.sm_base.specs.Numbers.{div_up};
ghost use Rattle.sm_machine.specs.Shapes.{chain_limit};
ghost use Rattle.sm_script.specs.Pieces.{Writes};
ghost use Rattle.vhd_map.specs.Places.{blank};
ghost use Rattle.vhd_stream.specs.Exports.{place as place_of, table_sector};
ghost use Rattle.vhd_stream.specs.Known.{blocks_known, is_known};

use crate::blocks::is_there;
use sm_base::{Failed, Name};
use sm_disk::{Sink, write_all};
use vhd_chain::Tree;

/// The entries of a sector of the table.
const PER_SECTOR: u32 = 128;

/// The entry of a block that is not there.
const BLANK: u32 = u32::MAX;

/// Whether a disk of so many blocks has this one, and it is there.
fn is_sent(tree: &Tree, name: &Name, block: u32, count: u32, b: u32) -> bool
    ensures { result ≡ (nat_lt b count && is_known chain_limit block tree.now.rows name.now b) }
{
    b < count && is_there(tree, name, block, b)
}

/// The entry of a block, which begins at this place where it is there.
fn entry(there: bool, place: u32) -> u32
    ensures { result ≡ (if there then place else blank) }
{
    if there { place } else { BLANK }
}

/// The place behind a block of so many sectors, which begins at this place where it is there.
fn behind(there: bool, place: u32, block: u32) -> u32
    requires { place + (1 + block) < 2 ^ 32 }
    ensures { result ≡ (if there then place + (1 + block) else place) }
{
    if there { place + 1 + block } else { place }
}

/// Writes an entry into a sector of the table.
fn put_entry(to: &mut [u8; 512], at: u32, entry: u32)
    requires { at < 128 }
    ensures { take (4 * at + 4) to.new ≡ take (4 * at) to.old ++ big_bytes 4 entry }
{
    let from = 4 * at as usize;
    to[from..from + 4].copy_from_slice(&entry.to_be_bytes());
}

/// Writes a sector of the table, where the first of its blocks that is there begins at this place. It answers the place
/// behind the last.
fn fill_sector(
    tree: &Tree,
    name: &Name,
    block: u32,
    count: u32,
    index: u32,
    place: u32,
    to: &mut [u8; 512],
) -> u32
    requires few { (8 ≤ block) × (block ≤ 4096) × (count ≤ 1044480) }
    requires within { 128 * index < count }
    requires at { place ≡ place_of (blocks_known block tree.now.rows name.now count) (min (128 * index) count) }
    ensures behind { result ≡ place_of (blocks_known block tree.now.rows name.now count) (min (128 * (index + 1)) count) }
    ensures sector { to.new ≡ table_sector (blocks_known block tree.now.rows name.now count) index }
{
    let mut place = place;
    for at in 0..PER_SECTOR {
        let there = is_sent(tree, name, block, count, PER_SECTOR * index + at);
        put_entry(to, at, entry(there, place));
        place = behind(there, place, block);
    }
    place
}

/// Sends the table of a disk of so many blocks, each of so many sectors, of which the images in memory from one up have some.
pub(crate) fn send_table<K: Sink>(
    tree: &Tree,
    name: &Name,
    block: u32,
    count: u32,
    sink: &mut K,
) -> Result<(), Failed>
    requires few { (8 ≤ block) × (block ≤ 4096) × (count ≤ 1044480) }
    ensures { Writes (flat_map (table_sector (blocks_known block tree.now.rows name.now count)) (range_with_len 0 (div_up count 128)))
        (K.content sink.old) (K.content sink.new) (K.faults sink.old) (K.faults sink.new) result }
{
    let sectors = count.div_ceil(PER_SECTOR);
    let mut place = 3 + sectors;
    let mut sector = [0; 512];
    for index in 0..sectors {
        place = fill_sector(tree, name, block, count, index, place, &mut sector);
        write_all(sink, &sector)?;
    }
    Ok(())
}
