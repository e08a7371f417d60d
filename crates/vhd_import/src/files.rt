//! A whole file, read into a new disk.

ghost use Rattle.std.specs.Prelude.{◌≡◌, ◌<◌, ◌≤◌, IfOk, IfSome, OnOk, false, true};
ghost use Rattle.sm_base.specs.Numbers.{div_up};
ghost use Rattle.sm_run.specs.Runs.{IsSpent};
ghost use Rattle.vhd_import.specs.Progress.{AreCounted, HasImported};
ghost use Rattle.vhd_import.specs.Verdicts.{IsRefusedFirst};

use crate::disks::NewDisk;
use crate::dynamic::read_dynamic;
use crate::faults::ImportFault;
use crate::fixed::read_fixed;
use crate::heads::{Beginning, beginning_of};
use crate::sectors::whole_sector;
use sm_base::Refusal;
use sm_disk::Source;
use std::alloc::Global;

/// Reads a VHD file once, from its begin to its end, into a new disk of a repository with so many sectors a block, of whose tables each has
/// so many entries. It answers the sectors of the disk. Where the first sector of the file is not whole, or is refused, the disk has no volume yet.
pub fn read_file<S: Source, N: NewDisk>(
    alloc: Global,
    entries: u32,
    block: u32,
    source: &mut S,
    disk: &mut N,
) -> Result<u64, ImportFault>
    requires some { 0 < block }
    requires entries { (N.target disk.old).entries ≡ entries }
    requires block { (N.target disk.old).block ≡ block }
    requires new { N.begun disk.old ≡ false }
    ensures answered { HasImported (N.target disk.old) (S.content source.old) result (N.holds disk.new) }
    // A file that is shorter than a sector, or that its first one refuses, begins no disk.
    ensures unbegun { IfSome (S.content source.old) (λ bytes. IsRefusedFirst (N.target disk.old) bytes → N.begun disk.new ≡ false) }
    ensures spent { OnOk result (IsSpent (S.content source.new)) }
    ensures some { IfOk result (λ size. 0 < size) }
    ensures fits { IfOk result (λ size. div_up size block ≤ entries) }
    ensures begun { OnOk result (N.begun disk.new ≡ true) }
    ensures target { N.target disk.new ≡ N.target disk.old }
    ensures since { (o : N.Origin) → N.since disk.old o → N.since disk.new o }
    ensures counts { AreCounted result (S.faults source.old) (S.faults source.new) (N.faults disk.old) (N.faults disk.new) }
{
    let mut first = [0; 512];
    whole_sector(source, 0, &mut first)?;
    match beginning_of(&first) {
        Beginning::Differencing => Err(ImportFault::Refused(Refusal::Differencing)),
        Beginning::Dynamic(sectors) => read_dynamic(alloc, entries, block, sectors, source, disk),
        Beginning::Other => read_fixed(entries, block, &first, source, disk),
    }
}
