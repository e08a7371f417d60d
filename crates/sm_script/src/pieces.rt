// A reply's text, written word by word.

ghost use Rattle.std.specs.Prelude.{[], ◌∷◌, ◌++◌};
ghost use Rattle.std.specs.List.{join_with_byte};
ghost use Rattle.sm_machine.specs.Replies.{by_spaces, hex_text};
ghost use Rattle.sm_script.specs.Pieces.{Writes, led};

use crate::words::Word;
use sm_base::Failed;
use sm_disk::{Sink, write_all};

// Writes a separator and a word.
fn write_after<K: Sink>(sink: &mut K, separator: u8, word: &Word) -> Result<(), Failed>
    ensures { Writes (separator ∷ word.now)
        (K.content sink.old) (K.content sink.new) (K.faults sink.old) (K.faults sink.new) result }
{
    write_all(sink, &[separator])?;
    write_all(sink, word.bytes())
}

/// Writes words, each with the separator in front of it.
pub fn write_led<K: Sink>(sink: &mut K, separator: u8, words: &[Word]) -> Result<(), Failed>
    ensures { Writes (led separator words.now)
        (K.content sink.old) (K.content sink.new) (K.faults sink.old) (K.faults sink.new) result }
{
    for word in words {
        write_after(sink, separator, word)?;
    }
    Ok(())
}

/// Writes words with the separator between them.
pub fn write_joined<K: Sink>(sink: &mut K, separator: u8, words: &[Word]) -> Result<(), Failed>
    ensures { Writes (join_with_byte separator words.now)
        (K.content sink.old) (K.content sink.new) (K.faults sink.old) (K.faults sink.new) result }
{
    let Some((first, rest)) = words.split_first() else {
        return Ok(());
    };
    write_all(sink, first.bytes())?;
    write_led(sink, separator, rest)
}

/// Writes a line: words with a space between them, and a newline.
pub fn write_line<K: Sink>(sink: &mut K, words: &[Word]) -> Result<(), Failed>
    ensures { Writes (by_spaces words.now ++ 10 ∷ [])
        (K.content sink.old) (K.content sink.new) (K.faults sink.old) (K.faults sink.new) result }
{
    write_joined(sink, b' ', words)?;
    write_all(sink, b"\n")
}

/// Writes two lower-case hexadecimal digits for each byte, 64 bytes at a time.
pub fn write_hex<K: Sink>(sink: &mut K, bytes: &[u8]) -> Result<(), Failed>
    ensures { Writes (hex_text bytes.now)
        (K.content sink.old) (K.content sink.new) (K.faults sink.old) (K.faults sink.new) result }
{
    let mut done = 0;
    while done < bytes.len() {
        let (_, rest) = bytes.split_at(done);
        let (piece, _) = rest.split_at(rest.len().min(64));
        write_all(sink, Word::hex(piece).bytes())?;
        done += piece.len();
    }
    Ok(())
}
