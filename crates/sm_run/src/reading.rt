//! Reading a line from a source, in pieces that end at its newline.

ghost use Rattle.std.specs.Prelude.{◌≤◌};
ghost use Rattle.sm_disk.specs.Held.{IsCounted};
ghost use Rattle.sm_run.specs.Parts.{HasRead};

use crate::buffers::LineBuffer;
use sm_base::Failed;
use sm_disk::Source;

/// What came behind the bytes of a line.
#[derive(Clone, Copy)]
pub enum Ending {
    /// A newline.
    Newline,
    /// The end of the script.
    ScriptEnd,
    /// A byte past the most of a script.
    PastLimit,
}

/// The most bytes that are taken from the source in one call.
const PIECE: usize = 4096;

/// Reads a line up to its newline, which is left out, or up to the script's end. `room` is the number of
/// bytes that the script may still have.
pub fn read_line<S: Source>(
    source: &mut S,
    room: &mut u64,
    line: &mut LineBuffer,
) -> Result<Ending, Failed>
    ensures read { HasRead result (S.content source.old) (S.content source.new) room.old room.new line.new }
    ensures counts { S.faults source.old ≤ S.faults source.new }
    ensures cause { IsCounted result (S.faults source.old) (S.faults source.new) }
{
    line.clear();
    let mut piece = [0; PIECE];
    'pieces: loop {
        let most = (*room).clamp(1, PIECE as u64) as usize;
        let count = source.read_until(b'\n', &mut piece[..most])?;
        let Some((last, front)) = piece[..count].split_last() else {
            return Ok(Ending::ScriptEnd);
        };
        if *room == 0 {
            return Ok(Ending::PastLimit);
        }
        *room -= count as u64;
        if *last == b'\n' {
            line.push(front);
            return Ok(Ending::Newline);
        }
        line.push(&piece[..count]);
    }
}
