//! A fixed file: the sectors of the disk, and then the footer.

ghost use Rattle.std.specs.Prelude.{◌≡◌, ◌+◌, ◌-◌, ◌<◌, ◌≤◌, ◌∷◌, ℕ, List, [], Option, None, IfErr, IfOk, OnOk, false, true, length, nat_lt};
ghost use Rattle.sm_base.specs.Numbers.{div_up};
ghost use Rattle.sm_disk.specs.Streams.{Takes};
ghost use Rattle.sm_run.specs.Runs.{IsSpent};
ghost use Rattle.vhd_stream.specs.Files.{File, sector_at};
ghost use Rattle.vhd_import.specs.declared.heads.Beginning.TheVariants.{Other};
ghost use Rattle.vhd_import.specs.Beginnings.{BeginsSo};
ghost use Rattle.vhd_import.specs.Progress.{AreCounted, EndDenies, HasImported};
ghost use Rattle.vhd_import.specs.Verdicts.{denial_at_end, sector_limit};

use crate::disks::{NewDisk, begin_disk, put_sector};
use crate::faults::ImportFault;
use crate::heads::{is_footed, is_too_large};
use crate::reading::Part;
use crate::sectors::{cut, next_sector};
use sm_base::Refusal;
use sm_disk::Source;

/// The sectors of the disk of a fixed file that ended behind so many whole sectors, the last of which is this one, and maybe some bytes.
fn end_fixed(count: u64, part: usize, last: &[u8; 512]) -> Result<u64, ImportFault>
    requires some { 0 < count }
    requires few { count ≤ sector_limit }
    ensures made { IfOk result (λ n. (n + 1 ≡ count) × (part ≡ 0) × (0 < n) × ((file : File) → length file ≡ count → sector_at file n ≡ last.now
        → BeginsSo Other file → denial_at_end file false ≡ None)) }
    ensures denied { IfErr result (λ e. (file : File) → length file ≡ count → sector_at file (count - 1) ≡ last.now
        → BeginsSo Other file → EndDenies file (nat_lt 0 part) e) }
    ensures counts { (s d : ℕ) → AreCounted result s s d d }
{
    if part > 0 {
        return Err(cut(count));
    }
    let sectors = count - 1;
    if is_footed(last, sectors) {
        return Ok(sectors);
    }
    Err(ImportFault::Refused(Refusal::BadFile { sector: sectors }))
}

/// Reads a file that begins with this sector, and not as a dynamic or a differencing one, into a new disk. A sector is put once a further one
/// was read, since the last is the footer.
pub fn read_fixed<S: Source, N: NewDisk>(
    entries: u32,
    block: u32,
    first: &[u8; 512],
    source: &mut S,
    disk: &mut N,
) -> Result<u64, ImportFault>
    requires some { 0 < block }
    requires entries { (N.target disk.old).entries ≡ entries }
    requires block { (N.target disk.old).block ≡ block }
    requires new { N.begun disk.old ≡ false }
    ensures answered { (had : Option (List ℕ)) → length first.now ≡ 512 → BeginsSo Other (first.now ∷ []) → Takes had first.now (S.content source.old)
        → HasImported (N.target disk.old) had result (N.holds disk.new) }
    ensures spent { OnOk result (IsSpent (S.content source.new)) }
    ensures some { IfOk result (λ size. 0 < size) }
    ensures fits { IfOk result (λ size. div_up size block ≤ entries) }
    ensures begun { OnOk result (N.begun disk.new ≡ true) }
    ensures target { N.target disk.new ≡ N.target disk.old }
    ensures since { (o : N.Origin) → N.since disk.old o → N.since disk.new o }
    ensures counts { AreCounted result (S.faults source.old) (S.faults source.new) (N.faults disk.old) (N.faults disk.new) }
{
    begin_disk(disk)?;
    let mut held = *first;
    let mut next = [0; 512];
    let mut count = 1;
    loop {
        match next_sector(source, count, &mut next)? {
            Part::Whole => {}
            Part::End(part) => return end_fixed(count, part, &held),
        }
        if is_too_large(entries, block, count) {
            return Err(ImportFault::Refused(Refusal::BadSize));
        }
        put_sector(disk, count - 1, &held)?;
        held = next;
        count += 1;
    }
}
