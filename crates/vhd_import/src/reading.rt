//! Reading a file from a source, a sector at a time.

ghost use Rattle.std.specs.Prelude.{◌≤◌, ℕ, List, Option};
ghost use Rattle.sm_disk.specs.Held.{IsCounted};
ghost use Rattle.vhd_import.specs.Reading.{HasReadSector};

use sm_base::Failed;
use sm_disk::Source;

/// What came of a sector.
#[derive(Clone, Copy, PartialEq, Eq)]
pub enum Part {
    /// All of it.
    Whole,
    /// So many bytes, and then the end of the file.
    End(usize),
}

/// Reads the next sector of a file, or what is left of it where that is less. Where it fails, what `to` holds is open.
pub fn read_sector<S: Source>(source: &mut S, to: &mut [u8; 512]) -> Result<Part, Failed>
    ensures read { HasReadSector result (S.content source.old) to.new (S.content source.new) }
    ensures counts { S.faults source.old ≤ S.faults source.new }
    ensures cause { IsCounted result (S.faults source.old) (S.faults source.new) }
{
    let mut done = 0;
    while done < to.len() {
        let (_, rest) = to.split_at_mut(done);
        let count = source.read(rest)?;
        if count == 0 {
            return Ok(Part::End(done));
        }
        done += count;
    }
    Ok(Part::Whole)
}
