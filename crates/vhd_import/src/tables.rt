//! The table of a dynamic file: its entries read, sorted by their places, and tested.

ghost use Rattle.std.specs.Prelude.{◌≡◌, ◌≢◌, ◌+◌, ◌*◌, ◌-◌, ◌^◌, ◌<◌, ◌≤◌, ℕ, not, ◌++◌, Err, IfOk, IsPermutation, OnErr, OnOk};
ghost use Rattle.std.specs.List.Sorted.{IsNonDecreasingBy};
ghost use Rattle.sm_disk.specs.Held.{Rose};
ghost use Rattle.vhd_map.specs.Places.{word};
ghost use Rattle.vhd_stream.specs.Files.{File, FileLayout, entry as entry_of, table_end};
ghost use Rattle.vhd_import.specs.declared.tables.TableFault.TheVariants.{Source as SourceFailed};
ghost use Rattle.vhd_import.specs.Apart.{stand_apart as apart_of};
ghost use Rattle.vhd_import.specs.Entries.{IsSomeRead, IsTableRead, entries_from};
ghost use Rattle.vhd_import.specs.Tables.{is_table_wrong};

use crate::reading::{Part, read_sector};
use sm_base::NoMemory;
use sm_disk::Source;
use std::alloc::Global;

/// The entries of a sector of the table.
const PER_SECTOR: u32 = 128;

/// The entry of a block that is not there.
const BLANK: u32 = u32::MAX;

/// A block of the disk that is there, and the sector of the file at which it begins.
#[derive(Clone, Copy)]
pub struct Entry {
    pub place: u32,
    pub block: u32,
}

/// What was read of a table.
pub struct TableRead {
    /// The entries that name a place, in order of the blocks.
    pub kept: Vec<Entry>,
    /// The sectors that came whole, fewer than the table has where the file ended there.
    pub sectors: u32,
}

/// Why a table was not read.
#[derive(Clone, Copy)]
pub enum TableFault {
    /// A call of the source failed.
    Source,
    /// There is no memory for the entries.
    NoMemory,
}

/// Entry j of a sector of the table.
fn place_at(sector: &[u8; 512], j: u32) -> u32
    requires { j < 128 }
    ensures { result ≡ word sector.now j }
{
    let at = 4 * j as usize;
    u32::from_be_bytes([sector[at], sector[at + 1], sector[at + 2], sector[at + 3]])
}

/// Adds to the entries what so many entries of a sector of the table say, of which the first is that of this block.
fn add_entries(
    to: &mut Vec<Entry>,
    sector: &[u8; 512],
    first: u32,
    count: u32,
) -> Result<(), NoMemory>
    requires few { count ≤ 128 }
    requires small { first + count < 2 ^ 32 }
    ensures added { OnOk result (to.new.items ≡ to.old.items ++ entries_from (λ b. word sector.now (b - first)) first count) }
{
    for j in 0..count {
        let place = place_at(sector, j);
        if place != BLANK {
            let entry = Entry {
                place,
                block: first + j,
            };
            let Ok(()) = to.push(entry) else {
                return Err(NoMemory);
            };
        }
    }
    Ok(())
}

/// Reads a table of so many entries, and keeps of those of the disk's blocks the ones that name a place.
pub fn read_table<S: Source>(
    alloc: Global,
    source: &mut S,
    entries: u32,
    blocks: u32,
) -> Result<TableRead, TableFault>
    requires fits { blocks ≤ entries }
    requires few { entries ≤ 1044480 }
    ensures read { IfOk result (IsTableRead (S.content source.old) (S.content source.new) entries blocks) }
    ensures left { OnErr result (IsSomeRead (S.content source.old) (S.content source.new)) }
    ensures counts { S.faults source.old ≤ S.faults source.new }
    ensures cause { result ≡ Err SourceFailed → Rose (S.faults source.old) (S.faults source.new) }
    ensures calm { result ≢ Err SourceFailed → S.faults source.new ≡ S.faults source.old }
{
    let mut kept = Vec::new(alloc);
    let mut sector = [0; 512];
    let sectors = entries.div_ceil(PER_SECTOR);
    for index in 0..sectors {
        match read_sector(source, &mut sector) {
            Ok(Part::Whole) => {}
            Ok(Part::End(_)) => {
                return Ok(TableRead {
                    kept,
                    sectors: index,
                });
            }
            Err(_) => return Err(TableFault::Source),
        }
        let first = PER_SECTOR * index;
        let count = blocks.saturating_sub(first).min(PER_SECTOR);
        let Ok(()) = add_entries(&mut kept, &sector, first, count) else {
            return Err(TableFault::NoMemory);
        };
    }
    Ok(TableRead { kept, sectors })
}

/// Whether entries stand one behind the other, the first at a sector or behind it, each with its bitmap and so many sectors.
fn stand_apart(entries: &[Entry], end: u64, block: u32) -> bool
    ensures { result ≡ apart_of end (1 + block) entries.now }
{
    let mut from = end;
    for entry in entries {
        let place = u64::from(entry.place);
        if place < from {
            return false;
        }
        from = place + 1 + u64::from(block);
    }
    true
}

/// Sorts the entries of a table by their places. It answers whether the table is right: each block that is there lies behind its end, and
/// no two overlap.
pub fn sort_entries(entries: &mut Vec<Entry>, end: u64, block: u32) -> bool
    ensures same { IsPermutation entries.old.items entries.new.items }
    ensures sorted { IsNonDecreasingBy (λ e. e.place) entries.new.items }
    ensures stands { result ≡ apart_of end (1 + block) entries.new.items }
    ensures right { (f : FileLayout) (file : File) → table_end f ≡ end → f.block ≡ block
        → entries.old.items ≡ entries_from (entry_of f file) 0 f.blocks → result ≡ not (is_table_wrong f file) }
{
    entries.sort_unstable_by_key(|entry| entry.place);
    stand_apart(entries, end, block)
}
