//! The grammar of a script's lines.

ghost use Rattle.std.specs.Prelude.{◌≡◌, ◌≢◌, ◌∷◌, [], IfOk, codes, option_copied};
ghost use Rattle.sm_machine.specs.Lines.{spelled, spelled_words};
ghost use Rattle.sm_script.specs.Cuts.{words_behind};

use crate::cuts::first_word;
use crate::parts::{
    attach, changed, copy, create, delete, detach, fill, flush, label, lone, read, resize,
    snapshot, track, write,
};
use crate::readings::Reading;
use sm_base::NoMemory;
use sm_machine::{Command, LineBytes};
use std::alloc::Global;

/// The most bytes that a line may have, without its newline.
const LINE_LIMIT: usize = 65536;

/// The bytes of the most sectors that a line may spell, 63.
const ROOM: usize = 32256;

/// The grammar of lines. It has no value of its own to keep.
pub struct Line;

impl Line {
    /// Room for the bytes of any line.
    pub fn room(alloc: Global) -> Result<LineBytes, NoMemory>
        ensures { IfOk result (λ room. room ≡ []) }
    {
        match Vec::with_capacity(alloc, ROOM) {
            Ok(bytes) => Ok(LineBytes { bytes }),
            Err(_) => Err(NoMemory),
        }
    }

    /// The command that a line spells, without its newline. The bytes of a `write` take the place of what the room held.
    pub fn read(line: &[u8], room: LineBytes) -> Reading
        ensures { result ≡ spelled line.now }
    {
        if line.len() > LINE_LIMIT {
            return Reading::beside(None, room);
        }
        let (verb, rest) = first_word(line);
        if verb == b"write".as_slice() {
            return write(rest, room);
        }
        Reading::beside(command(verb, rest), room)
    }
}

// The command of a first word, which is not `write`, and of what stands behind it.
fn command(verb: &[u8], rest: Option<&[u8]>) -> Option<Command>
    ensures { verb.now ≢ codes "write"
        → result ≡ spelled_words (verb.now ∷ words_behind (option_copied rest.entry)) }
{
    if verb == b"create".as_slice() {
        create(rest)
    } else if verb == b"delete".as_slice() {
        delete(rest)
    } else if verb == b"attach".as_slice() {
        attach(rest)
    } else if verb == b"detach".as_slice() {
        detach(rest)
    } else if verb == b"snapshot".as_slice() {
        snapshot(rest)
    } else if verb == b"clone".as_slice() {
        copy(rest)
    } else if verb == b"resize".as_slice() {
        resize(rest)
    } else if verb == b"label".as_slice() {
        label(rest)
    } else if verb == b"fill".as_slice() {
        fill(rest)
    } else if verb == b"read".as_slice() {
        read(rest)
    } else if verb == b"flush".as_slice() {
        flush(rest)
    } else if verb == b"gc".as_slice() {
        lone(Command::Gc, rest)
    } else if verb == b"list".as_slice() {
        lone(Command::List, rest)
    } else if verb == b"stat".as_slice() {
        lone(Command::Stat, rest)
    } else if verb == b"cbt".as_slice() {
        track(rest)
    } else if verb == b"changed".as_slice() {
        changed(rest)
    } else {
        None
    }
}
