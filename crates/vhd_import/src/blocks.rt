//! A block of a dynamic file: a sector of bits, and its data.

ghost use Rattle.std.specs.Prelude.{◌≡◌, ◌+◌, ◌/◌, ◌<◌, ◌≤◌, ◌&&◌, ◌∷◌, ℕ, List, Option, IfErr, IfOk, OnErr, OnOk, false, nat_lt, true};
ghost use Rattle.vhd_map.specs.Bitmaps.{is_set};
ghost use Rattle.vhd_stream.specs.Files.{File, FileLayout, table_end};
ghost use Rattle.vhd_import.specs.Apart.{stand_apart};
ghost use Rattle.vhd_import.specs.Blocks.{GoesOn, IsBeforeBlock, IsBeforeBlocks, IsPastBlocks};
ghost use Rattle.vhd_import.specs.Making.{HasAnsweredRoom, put_lacks};
ghost use Rattle.vhd_import.specs.Progress.{AreCounted, FaultSays};
ghost use Rattle.vhd_import.specs.Puts.{Put};
ghost use Rattle.vhd_import.specs.Room.{Target, is_too_large};
ghost use Rattle.vhd_import.specs.Verdicts.{sector_limit};

use crate::disks::{NewDisk, put_sector};
use crate::faults::ImportFault;
use crate::sectors::{skip, whole_sector};
use crate::tables::Entry;
use sm_disk::Source;
use vhd_map::bit;

/// Reads a block of a dynamic file, which begins at this entry's place, and puts its sectors on the disk whose bits are set, as far as the disk
/// reaches.
fn read_block<S: Source, N: NewDisk>(
    source: &mut S,
    disk: &mut N,
    entry: Entry,
    block: u32,
    sectors: u64,
) -> Result<(), ImportFault>
    requires few { entry.place ≤ sector_limit }
    requires block { block ≤ 4096 }
    requires some { 0 < (N.target disk.old).block }
    requires fits { is_too_large (N.target disk.old) sectors ≡ false }
    requires begun { N.begun disk.old ≡ true }
    ensures read { (had : Option (List ℕ)) (front : File) (puts : List Put) (f : FileLayout)
        → IsBeforeBlock (N.target disk.old) had (S.content source.old) front puts f sectors entry.place entry.block → f.block ≡ block
        → N.holds disk.old puts → OnOk result (GoesOn (N.target disk.old) had (S.content source.new) front (N.holds disk.new) (entry.place + 1 + block)) }
    ensures says { (had : Option (List ℕ)) (front : File) (puts : List Put) (f : FileLayout)
        → IsBeforeBlock (N.target disk.old) had (S.content source.old) front puts f sectors entry.place entry.block → f.block ≡ block
        → N.holds disk.old puts → IfErr result (FaultSays (N.target disk.old) had) }
    ensures within { OnOk result (entry.place + 1 + block ≤ sector_limit) }
    ensures begun { OnOk result (N.begun disk.new ≡ true) }
    ensures target { N.target disk.new ≡ N.target disk.old }
    ensures since { (o : N.Origin) → N.since disk.old o → N.since disk.new o }
    ensures counts { AreCounted result (S.faults source.old) (S.faults source.new) (N.faults disk.old) (N.faults disk.new) }
{
    let mut bits = [0; 512];
    let mut sector = [0; 512];
    let place = u64::from(entry.place);
    whole_sector(source, place, &mut bits)?;
    let first = u64::from(entry.block) * u64::from(block);
    for i in 0..block {
        whole_sector(source, place + 1 + u64::from(i), &mut sector)?;
        let at = first + u64::from(i);
        let asked = is_kept(&bits, i, at, sectors);
        put_where(disk, at, &sector, asked)?;
    }
    Ok(())
}

/// Whether a sector of a block goes to the disk: its bit is set, and the disk reaches so far.
fn is_kept(bits: &[u8; 512], i: u32, sector: u64, sectors: u64) -> bool
    requires { i < 4096 }
    ensures { result ≡ (is_set bits.now i && nat_lt sector sectors) }
{
    bit(bits, i) && sector < sectors
}

/// Puts bytes to a sector of a disk, where that is asked.
fn put_where<N: NewDisk>(
    disk: &mut N,
    sector: u64,
    bytes: &[u8; 512],
    asked: bool,
) -> Result<(), ImportFault>
    requires begun { N.begun disk.old ≡ true }
    requires below { asked ≡ true → sector / (N.target disk.old).block < (N.target disk.old).entries }
    ensures begun { OnOk result (N.begun disk.new ≡ true) }
    ensures holds { asked ≡ true → OnOk result ((puts : List Put) → N.holds disk.old puts → N.holds disk.new (record { sector = sector; bytes = bytes.now } ∷ puts)) }
    ensures kept { asked ≡ false → OnOk result ((puts : List Put) → N.holds disk.old puts → N.holds disk.new puts) }
    ensures room { asked ≡ true → (puts : List Put) → N.holds disk.old puts
        → HasAnsweredRoom (put_lacks (N.target disk.old) (record { sector = sector; bytes = bytes.now }) puts) result }
    ensures fine { asked ≡ false → OnErr result ⊥ }
    ensures target { N.target disk.new ≡ N.target disk.old }
    ensures since { (o : N.Origin) → N.since disk.old o → N.since disk.new o }
    ensures counts { (s : ℕ) → AreCounted result s s (N.faults disk.old) (N.faults disk.new) }
{
    if asked {
        put_sector(disk, sector, bytes)
    } else {
        Ok(())
    }
}

/// Reads the blocks of a dynamic file in order of their places, and what stands between them. It answers the first sector behind them.
pub fn read_blocks<S: Source, N: NewDisk>(
    source: &mut S,
    disk: &mut N,
    entries: &[Entry],
    from: u64,
    block: u32,
    sectors: u64,
) -> Result<u64, ImportFault>
    requires few { from ≤ sector_limit }
    requires block { block ≤ 4096 }
    requires apart { stand_apart from (1 + block) entries.now ≡ true }
    requires some { 0 < (N.target disk.old).block }
    requires fits { is_too_large (N.target disk.old) sectors ≡ false }
    requires begun { N.begun disk.old ≡ true }
    ensures read { (had : Option (List ℕ)) (front : File) (puts : List Put) (f : FileLayout)
        → IsBeforeBlocks (N.target disk.old) had (S.content source.old) front puts f sectors entries.now → f.block ≡ block → table_end f ≡ from
        → N.holds disk.old puts → IfOk result (IsPastBlocks (N.target disk.old) had (S.content source.new) front (N.holds disk.new) f) }
    ensures says { (had : Option (List ℕ)) (front : File) (puts : List Put) (f : FileLayout)
        → IsBeforeBlocks (N.target disk.old) had (S.content source.old) front puts f sectors entries.now → f.block ≡ block → table_end f ≡ from
        → N.holds disk.old puts → IfErr result (FaultSays (N.target disk.old) had) }
    ensures within { IfOk result (λ last. last ≤ sector_limit) }
    ensures begun { OnOk result (N.begun disk.new ≡ true) }
    ensures target { N.target disk.new ≡ N.target disk.old }
    ensures since { (o : N.Origin) → N.since disk.old o → N.since disk.new o }
    ensures counts { AreCounted result (S.faults source.old) (S.faults source.new) (N.faults disk.old) (N.faults disk.new) }
{
    let mut count = from;
    for entry in entries {
        let place = u64::from(entry.place);
        skip(source, count, place)?;
        read_block(source, disk, *entry, block, sectors)?;
        count = place + 1 + u64::from(block);
    }
    Ok(count)
}
