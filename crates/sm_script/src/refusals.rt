//! The refusals.

ghost use Rattle.std.specs.Prelude.{◌≤◌, [], ◌∷◌, ◌++◌, length};
ghost use Rattle.sm_machine.specs.Replies.{by_spaces, refusal_parts};
ghost use Rattle.sm_script.specs.Pieces.{Writes};

use crate::pieces::{write_joined, write_led};
use crate::words::Word;
use sm_base::{Failed, Refusal};
use sm_disk::{Sink, write_all};

/// Writes a line: a first word of at most 128 bytes, a refusal's name, and its numbers.
pub fn write_refusal_line<K: Sink>(
    sink: &mut K,
    first: &[u8],
    refusal: &Refusal,
) -> Result<(), Failed>
    requires { length first.now ≤ 128 }
    ensures { Writes (by_spaces (first.now ∷ refusal_parts refusal.now) ++ 10 ∷ [])
        (K.content sink.old) (K.content sink.new) (K.faults sink.old) (K.faults sink.new) result }
{
    write_refusal(sink, first, refusal)?;
    write_all(sink, b"\n")
}

/// Writes a first word, a refusal's name, and its numbers.
pub(crate) fn write_refusal<K: Sink>(
    sink: &mut K,
    first: &[u8],
    refusal: &Refusal,
) -> Result<(), Failed>
    requires { length first.now ≤ 128 }
    ensures { Writes (by_spaces (first.now ∷ refusal_parts refusal.now))
        (K.content sink.old) (K.content sink.new) (K.faults sink.old) (K.faults sink.new) result }
{
    match refusal {
        Refusal::BadLine => write_named(sink, first, b"BadLine", &[]),
        Refusal::ReservedName => write_named(sink, first, b"ReservedName", &[]),
        Refusal::UnknownDisk => write_named(sink, first, b"UnknownDisk", &[]),
        Refusal::NameTaken => write_named(sink, first, b"NameTaken", &[]),
        Refusal::InUse => write_named(sink, first, b"InUse", &[]),
        Refusal::NotAttached => write_named(sink, first, b"NotAttached", &[]),
        Refusal::ReadOnly => write_named(sink, first, b"ReadOnly", &[]),
        Refusal::RawDisk => write_named(sink, first, b"RawDisk", &[]),
        Refusal::Tracked => write_named(sink, first, b"Tracked", &[]),
        Refusal::NotTracked => write_named(sink, first, b"NotTracked", &[]),
        Refusal::OutOfRange => write_named(sink, first, b"OutOfRange", &[]),
        Refusal::BadSize => write_named(sink, first, b"BadSize", &[]),
        Refusal::Shrink => write_named(sink, first, b"Shrink", &[]),
        Refusal::ChainTooLong { depth } => {
            write_named(
                sink,
                first,
                b"ChainTooLong",
                &[Word::text(b"depth"), Word::count(*depth)],
            )
        }
        Refusal::TooMany { have, need } => {
            let numbers = [
                Word::text(b"have"),
                Word::count(*have),
                Word::text(b"need"),
                Word::count(*need),
            ];
            write_named(sink, first, b"TooMany", &numbers)
        }
        Refusal::SequenceSpent => write_named(sink, first, b"SequenceSpent", &[]),
        Refusal::NoSpace { need, free } => {
            let numbers = [
                Word::text(b"need"),
                Word::count(*need),
                Word::text(b"free"),
                Word::count(*free),
            ];
            write_named(sink, first, b"NoSpace", &numbers)
        }
        Refusal::NoMemory => write_named(sink, first, b"NoMemory", &[]),
        Refusal::Differencing => write_named(sink, first, b"Differencing", &[]),
        Refusal::BadFile { sector } => {
            write_named(
                sink,
                first,
                b"BadFile",
                &[Word::text(b"sector"), Word::number(*sector)],
            )
        }
        Refusal::Cut { sector } => {
            write_named(
                sink,
                first,
                b"Cut",
                &[Word::text(b"sector"), Word::number(*sector)],
            )
        }
    }
}

// Writes a first word, a name, and further words.
fn write_named<K: Sink>(
    sink: &mut K,
    first: &[u8],
    name: &[u8],
    more: &[Word],
) -> Result<(), Failed>
    requires first { length first.now ≤ 128 }
    requires name { length name.now ≤ 128 }
    ensures { Writes (by_spaces (first.now ∷ name.now ∷ more.now))
        (K.content sink.old) (K.content sink.new) (K.faults sink.old) (K.faults sink.new) result }
{
    write_joined(sink, b' ', &[Word::text(first), Word::text(name)])?;
    write_led(sink, b' ', more)
}
