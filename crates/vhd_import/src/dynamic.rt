//! A dynamic file: footer, header, table and blocks.

ghost use Rattle.std.specs.Prelude.{◌≡◌, ◌+◌, ◌<◌, ◌≤◌, ◌++◌, ◌∷◌, [], ℕ, List, Option, IfErr, IfOk, OnOk, false, length, true};
ghost use Rattle.sm_base.specs.Numbers.{div_up};
ghost use Rattle.sm_disk.specs.Streams.{Takes};
ghost use Rattle.sm_run.specs.Runs.{IsSpent};
ghost use Rattle.vhd_stream.specs.Files.{File};
ghost use Rattle.vhd_import.specs.declared.heads.Beginning.TheVariants.{Dynamic};
ghost use Rattle.vhd_import.specs.Apart.{stand_apart};
ghost use Rattle.vhd_import.specs.Beginnings.{BeginsSo, layout_by};
ghost use Rattle.vhd_import.specs.Dynamics.{HasBegun, HasFront, HasHeader, HasPlaces, IsBeforeTable, IsStopped, IsTablePart};
ghost use Rattle.vhd_import.specs.Progress.{AreCounted, FaultSays, HasImported};
ghost use Rattle.vhd_import.specs.Puts.{Put};
ghost use Rattle.vhd_import.specs.Room.{Target, is_too_large as too_large};
ghost use Rattle.vhd_import.specs.Verdicts.{sector_limit};

use crate::blocks::read_blocks;
use crate::disks::{NewDisk, begin_disk};
use crate::faults::ImportFault;
use crate::heads::{FileNumbers, is_too_large, numbers_of};
use crate::sectors::{MOST_SECTORS, cut, skip, skip_rest, whole_sector};
use crate::tables::{Entry, TableFault, TableRead, read_table, sort_entries};
use sm_base::Refusal;
use sm_disk::Source;
use std::alloc::Global;

/// The entries of a sector of the table.
const PER_SECTOR: u32 = 128;

/// What stands in front of the blocks of a dynamic file.
#[derive(Drop)]
pub struct Front {
    /// The entries of the blocks that are there, in order of their places.
    pub entries: Vec<Entry>,
    /// The first sector behind the table.
    pub end: u64,
    /// The sectors of a block.
    pub block: u32,
}

/// Two sectors, one behind the other.
fn joined(first: &[u8; 512], second: &[u8; 512]) -> [u8; 1024]
    ensures { result ≡ first.now ++ second.now }
{
    let mut to = [0; 1024];
    let (front, back) = to.split_at_mut(512);
    front.copy_from_slice(first);
    back.copy_from_slice(second);
    to
}

/// Reads the header of a dynamic file, which is sectors 1 and 2, and says the numbers of the file.
fn read_header<S: Source>(source: &mut S, sectors: u64) -> Result<FileNumbers, ImportFault>
    ensures read { (t : Target) (had : Option (List ℕ)) (front : File) (puts : List Put)
        → HasBegun t had (S.content source.old) front puts sectors → IfOk result (HasHeader t had (S.content source.new) front puts sectors) }
    ensures says { (t : Target) (had : Option (List ℕ)) (front : File) (puts : List Put)
        → HasBegun t had (S.content source.old) front puts sectors → IfErr result (FaultSays t had) }
    ensures bounds { IfOk result (λ n. (3 ≤ n.table) × (n.entries ≤ 1044480) × (n.blocks ≤ n.entries) × (n.block ≤ 4096)) }
    ensures counts { (d : ℕ) → AreCounted result (S.faults source.old) (S.faults source.new) d d }
{
    let mut first = [0; 512];
    let mut second = [0; 512];
    whole_sector(source, 1, &mut first)?;
    whole_sector(source, 2, &mut second)?;
    let header = joined(&first, &second);
    match numbers_of(sectors, &header) {
        Ok(numbers) => Ok(numbers),
        Err(refusal) => Err(ImportFault::Refused(refusal)),
    }
}

/// Reads the table of a dynamic file, as far as the file has it and no further than is read.
fn read_entries<S: Source>(
    alloc: Global,
    source: &mut S,
    numbers: FileNumbers,
) -> Result<TableRead, ImportFault>
    requires table { numbers.table ≤ sector_limit }
    requires few { numbers.entries ≤ 1044480 }
    requires fits { numbers.blocks ≤ numbers.entries }
    ensures read { IfOk result (IsTablePart (S.content source.old) (S.content source.new) (layout_by numbers)) }
    ensures says { (t : Target) (had : Option (List ℕ)) → IfErr result (FaultSays t had) }
    ensures counts { (d : ℕ) → AreCounted result (S.faults source.old) (S.faults source.new) d d }
{
    let whole = u64::from(numbers.entries.div_ceil(PER_SECTOR));
    let within = whole.min(MOST_SECTORS - numbers.table) as u32;
    let most = PER_SECTOR * within;
    let entries = numbers.entries.min(most);
    let blocks = numbers.blocks.min(most);
    match read_table(alloc, source, entries, blocks) {
        Ok(table) => Ok(table),
        Err(TableFault::Source) => Err(ImportFault::Source),
        Err(TableFault::NoMemory) => Err(ImportFault::NoMemory),
    }
}

/// Whether a table that was read up to a sector was read to its end.
fn whole_table<S: Source>(source: &mut S, count: u64, end: u64) -> Result<(), ImportFault>
    requires few { count ≤ sector_limit }
    requires order { count ≤ end }
    ensures whole { OnOk result (count ≡ end) }
    ensures still { OnOk result (S.content source.new ≡ S.content source.old) }
    ensures says { (t : Target) (had : Option (List ℕ)) (front : File) (puts : List Put)
        → length front ≡ count → (count < end → IsStopped t had (S.content source.old) front puts) → IfErr result (FaultSays t had) }
    ensures counts { (d : ℕ) → AreCounted result (S.faults source.old) (S.faults source.new) d d }
{
    if count == end {
        return Ok(());
    }
    if count < MOST_SECTORS {
        return Err(cut(count));
    }
    let mut sector = [0; 512];
    whole_sector(source, count, &mut sector)
}

/// Reads the table of a dynamic file, and answers the entries of the blocks that are there, in order of their places.
fn read_places<S: Source>(
    alloc: Global,
    source: &mut S,
    numbers: FileNumbers,
) -> Result<Vec<Entry>, ImportFault>
    requires table { numbers.table ≤ sector_limit }
    requires few { numbers.entries ≤ 1044480 }
    requires fits { numbers.blocks ≤ numbers.entries }
    ensures read { (t : Target) (had : Option (List ℕ)) (front : File) (puts : List Put) (size : ℕ)
        → IsBeforeTable t had (S.content source.old) front puts (layout_by numbers) size
        → IfOk result (λ kept. HasPlaces t had (S.content source.new) front puts (layout_by numbers) size kept.items) }
    ensures says { (t : Target) (had : Option (List ℕ)) (front : File) (puts : List Put) (size : ℕ)
        → IsBeforeTable t had (S.content source.old) front puts (layout_by numbers) size → IfErr result (FaultSays t had) }
    ensures apart { IfOk result (λ kept. stand_apart (numbers.table + div_up numbers.entries 128) (1 + numbers.block) kept.items ≡ true) }
    ensures within { OnOk result (numbers.table + div_up numbers.entries 128 ≤ sector_limit) }
    ensures counts { (d : ℕ) → AreCounted result (S.faults source.old) (S.faults source.new) d d }
{
    let end = numbers.table + u64::from(numbers.entries.div_ceil(PER_SECTOR));
    let TableRead { mut kept, sectors } = read_entries(alloc, source, numbers)?;
    if !sort_entries(&mut kept, end, numbers.block) {
        let sector = numbers.table;
        return Err(ImportFault::Refused(Refusal::BadFile { sector }));
    }
    whole_table(source, numbers.table + u64::from(sectors), end)?;
    Ok(kept)
}

/// Reads what stands in front of the blocks of a dynamic file of a disk of so many sectors, behind its first sector.
fn read_front<S: Source>(alloc: Global, source: &mut S, sectors: u64) -> Result<Front, ImportFault>
    ensures read { (t : Target) (had : Option (List ℕ)) (front : File) (puts : List Put)
        → HasBegun t had (S.content source.old) front puts sectors → IfOk result (HasFront t had (S.content source.new) front puts sectors) }
    ensures says { (t : Target) (had : Option (List ℕ)) (front : File) (puts : List Put)
        → HasBegun t had (S.content source.old) front puts sectors → IfErr result (FaultSays t had) }
    ensures apart { IfOk result (λ r. stand_apart r.end (1 + r.block) r.entries.items ≡ true) }
    ensures within { IfOk result (λ r. r.end ≤ sector_limit) }
    ensures small { IfOk result (λ r. r.block ≤ 4096) }
    ensures counts { (d : ℕ) → AreCounted result (S.faults source.old) (S.faults source.new) d d }
{
    let numbers = read_header(source, sectors)?;
    skip(source, 3, numbers.table)?;
    let entries = read_places(alloc, source, numbers)?;
    Ok(Front {
        entries,
        end: numbers.table + u64::from(numbers.entries.div_ceil(PER_SECTOR)),
        block: numbers.block,
    })
}

/// Reads a file that begins with the footer of a dynamic disk of so many sectors into a new disk.
pub fn read_dynamic<S: Source, N: NewDisk>(
    alloc: Global,
    entries: u32,
    block: u32,
    sectors: u64,
    source: &mut S,
    disk: &mut N,
) -> Result<u64, ImportFault>
    requires some { 0 < block }
    requires entries { (N.target disk.old).entries ≡ entries }
    requires block { (N.target disk.old).block ≡ block }
    requires new { N.begun disk.old ≡ false }
    ensures answered { (had : Option (List ℕ)) (first : List ℕ) → length first ≡ 512 → BeginsSo (Dynamic sectors) (first ∷ []) → Takes had first (S.content source.old)
        → HasImported (N.target disk.old) had result (N.holds disk.new) }
    ensures unbegun { too_large (N.target disk.old) sectors ≡ true → N.begun disk.new ≡ false }
    ensures spent { OnOk result (IsSpent (S.content source.new)) }
    ensures size { IfOk result (λ size. size ≡ sectors) }
    ensures fits { IfOk result (λ size. div_up size block ≤ entries) }
    ensures begun { OnOk result (N.begun disk.new ≡ true) }
    ensures target { N.target disk.new ≡ N.target disk.old }
    ensures since { (o : N.Origin) → N.since disk.old o → N.since disk.new o }
    ensures counts { AreCounted result (S.faults source.old) (S.faults source.new) (N.faults disk.old) (N.faults disk.new) }
{
    if is_too_large(entries, block, sectors) {
        return Err(ImportFault::Refused(Refusal::BadSize));
    }
    begin_disk(disk)?;
    let front = read_front(alloc, source, sectors)?;
    let last = read_blocks(
        source,
        disk,
        &front.entries,
        front.end,
        front.block,
        sectors,
    )?;
    skip_rest(source, last)?;
    Ok(sectors)
}
