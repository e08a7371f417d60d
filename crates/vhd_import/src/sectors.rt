//! Reading sector after sector of a file, up to the most that is read.

ghost use Rattle.std.specs.Prelude.{◌≡◌, ◌+◌, ◌<◌, ◌≤◌, ◌++◌, ℕ, List, Option, IfErr, IfOk, OnOk, length};
ghost use Rattle.sm_base.specs.declared.refusals.Refusal.TheVariants.{Cut};
ghost use Rattle.sm_run.specs.Runs.{IsSpent};
ghost use Rattle.vhd_stream.specs.Files.{File};
ghost use Rattle.vhd_import.specs.declared.faults.ImportFault.TheVariants.{Refused};
ghost use Rattle.vhd_import.specs.declared.reading.Part.TheVariants.{Whole};
ghost use Rattle.vhd_import.specs.Progress.{AreCounted, FaultSays, HasNext, HasRead, IsOpen, IsOpenUntil, IsQuiet};
ghost use Rattle.vhd_import.specs.Puts.{Put};
ghost use Rattle.vhd_import.specs.Room.{Target};
ghost use Rattle.vhd_import.specs.Verdicts.{sector_limit};

use crate::faults::ImportFault;
use crate::reading::{Part, read_sector};
use sm_base::Refusal;
use sm_disk::Source;

/// The most sectors that are read of a file: 2^42 bytes.
pub const MOST_SECTORS: u64 = 8_589_934_592;

/// The answer to a file that ended too early, behind so many whole sectors.
pub fn cut(sector: u64) -> ImportFault
    ensures { result ≡ Refused (Cut sector) }
{
    ImportFault::Refused(Refusal::Cut { sector })
}

/// Reads the sector behind so many others, or what is left of it where that is less.
pub fn next_sector<S: Source>(
    source: &mut S,
    count: u64,
    to: &mut [u8; 512],
) -> Result<Part, ImportFault>
    requires { count ≤ sector_limit }
    ensures read { IfOk result (λ part. HasNext count part (S.content source.old) to.new (S.content source.new)) }
    ensures says { (t : Target) (had : Option (List ℕ)) (front : File) (puts : List Put)
        → HasRead t had (S.content source.old) front puts → length front ≡ count → IfErr result (FaultSays t had) }
    ensures counts { (d : ℕ) → AreCounted result (S.faults source.old) (S.faults source.new) d d }
{
    match read_sector(source, to) {
        Ok(Part::Whole) => {
            if count == MOST_SECTORS {
                return Err(ImportFault::Long);
            }
            Ok(Part::Whole)
        }
        Ok(Part::End(part)) => {
            if part > 0 && count == MOST_SECTORS {
                return Err(ImportFault::Long);
            }
            Ok(Part::End(part))
        }
        Err(_) => Err(ImportFault::Source),
    }
}

/// Reads the sector behind so many others, of a file that would be cut if it ended here.
pub fn whole_sector<S: Source>(
    source: &mut S,
    count: u64,
    to: &mut [u8; 512],
) -> Result<(), ImportFault>
    requires { count ≤ sector_limit }
    ensures read { OnOk result (HasNext count Whole (S.content source.old) to.new (S.content source.new)) }
    ensures says { (t : Target) (had : Option (List ℕ)) (front : File) (puts : List Put)
        → HasRead t had (S.content source.old) front puts → length front ≡ count → IsOpen front → IfErr result (FaultSays t had) }
    ensures counts { (d : ℕ) → AreCounted result (S.faults source.old) (S.faults source.new) d d }
{
    match next_sector(source, count, to)? {
        Part::Whole => Ok(()),
        Part::End(_) => Err(cut(count)),
    }
}

/// Reads the sectors from one on up to another, which decide nothing and put nothing, of a file that would be cut if it ended before.
pub fn skip<S: Source>(source: &mut S, from: u64, until: u64) -> Result<(), ImportFault>
    requires begun { from ≤ sector_limit }
    requires order { from ≤ until }
    ensures read { (t : Target) (had : Option (List ℕ)) (front : File) (puts : List Put)
        → HasRead t had (S.content source.old) front puts → length front ≡ from → IsQuiet t front until
        → OnOk result ((more : File) × HasRead t had (S.content source.new) (front ++ more) puts × (length (front ++ more) ≡ until)) }
    ensures says { (t : Target) (had : Option (List ℕ)) (front : File) (puts : List Put)
        → HasRead t had (S.content source.old) front puts → length front ≡ from → IsQuiet t front until → IsOpenUntil front until
        → IfErr result (FaultSays t had) }
    ensures within { OnOk result (until ≤ sector_limit) }
    ensures counts { (d : ℕ) → AreCounted result (S.faults source.old) (S.faults source.new) d d }
{
    let mut sector = [0; 512];
    for count in from..until {
        whole_sector(source, count, &mut sector)?;
    }
    Ok(())
}

/// Reads the sectors from one on to the end of the file, which decide nothing and put nothing.
pub fn skip_rest<S: Source>(source: &mut S, from: u64) -> Result<(), ImportFault>
    requires { from ≤ sector_limit }
    ensures read { (t : Target) (had : Option (List ℕ)) (front : File) (puts : List Put)
        → HasRead t had (S.content source.old) front puts → length front ≡ from → IsQuiet t front sector_limit
        → OnOk result ((more : File) × HasRead t had (S.content source.new) (front ++ more) puts) }
    ensures spent { OnOk result (IsSpent (S.content source.new)) }
    ensures says { (t : Target) (had : Option (List ℕ)) (front : File) (puts : List Put)
        → HasRead t had (S.content source.old) front puts → length front ≡ from → IsQuiet t front sector_limit
        → IfErr result (FaultSays t had) }
    ensures counts { (d : ℕ) → AreCounted result (S.faults source.old) (S.faults source.new) d d }
{
    let mut sector = [0; 512];
    let mut count = from;
    loop {
        match next_sector(source, count, &mut sector)? {
            Part::Whole => count += 1,
            Part::End(part) => {
                if part > 0 {
                    return Err(cut(count));
                }
                return Ok(());
            }
        }
    }
}
