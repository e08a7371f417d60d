//! The words of a line, read one by one. Each answers the value that the word spells, or `None` where it
//! spells none. `uuid` takes other forms of text too, and std a sign and leading zeros: those are refused
//! first.

ghost use Rattle.std.specs.Prelude.{◌≡◌, ◌<◌, ◌≤◌, ◌/◌, ◌%◌, None, Some, MatchOption, length, vec_capacity};
ghost use Rattle.std.specs.Char.{is_ascii_digit};
ghost use Rattle.std.specs.List.{list_all};
ghost use Rattle.std.specs.Result.{result_ok};
ghost use Rattle.sm_machine.specs.Lines.{byte_of, hex_bytes, is_number, is_on_of, is_raw_of, mode_of, number_of, sectors_of, uuid_of, line_limit};

use crate::digits::decode_pairs;
use sm_base::Mode;
use sm_machine::LineBytes;
use std::str;
use uuid::Uuid;

/// A UUID of 36 characters.
pub fn uuid_in(word: &[u8]) -> Option<Uuid>
    ensures { result ≡ uuid_of word.now }
{
    if word.len() != 36 {
        return None;
    }
    Uuid::try_parse_ascii(word).ok()
}

/// A decimal number up to 2^64 - 1.
pub fn number_in(word: &[u8]) -> Option<u64>
    ensures { result ≡ number_of word.now }
{
    if !has_digits(word) {
        return None;
    }
    str::from_utf8(word).ok()?.parse().ok()
}

/// Whether a word has decimal digits alone, at least one, and no 0 before another digit.
fn has_digits(word: &[u8]) -> bool
    ensures { result ≡ is_number word.now }
{
    if word.is_empty() {
        return false;
    }
    all_digits(word) && (word.len() == 1 || word[0] != b'0')
}

/// Whether each byte is a decimal digit.
fn all_digits(word: &[u8]) -> bool
    ensures { result ≡ list_all is_ascii_digit word.now }
{
    word.iter().all(|byte| byte.is_ascii_digit())
}

/// Whether a disk is to be raw.
#[tactic(auto, unfolding(sm_machine::specs::Lines::is_raw_of))]
pub fn is_raw_in(word: &[u8]) -> Option<bool>
    ensures { result ≡ is_raw_of word.now }
{
    if word == b"vhd".as_slice() {
        Some(false)
    } else if word == b"raw".as_slice() {
        Some(true)
    } else {
        None
    }
}

/// How a disk is to be attached.
#[tactic(auto, unfolding(sm_machine::specs::Lines::mode_of))]
pub fn mode_in(word: &[u8]) -> Option<Mode>
    ensures { result ≡ mode_of word.now }
{
    if word == b"ro".as_slice() {
        Some(Mode::Ro)
    } else if word == b"rw".as_slice() {
        Some(Mode::Rw)
    } else {
        None
    }
}

/// Whether tracking is to begin or to end.
#[tactic(auto, unfolding(sm_machine::specs::Lines::is_on_of))]
pub fn is_on_in(word: &[u8]) -> Option<bool>
    ensures { result ≡ is_on_of word.now }
{
    if word == b"on".as_slice() {
        Some(true)
    } else if word == b"off".as_slice() {
        Some(false)
    } else {
        None
    }
}

/// One byte, of two hexadecimal digits.
pub fn byte_in(word: &[u8]) -> Option<u8>
    ensures { result ≡ byte_of word.now }
{
    if word.len() != 2 {
        return None;
    }
    let mut byte = [0];
    decode_pairs(word, &mut byte)?;
    Some(byte[0])
}

/// The bytes of whole sectors, at least one: 1,024 hexadecimal digits for each. They take the place of what the room
/// held. Where the word spells none, the room is given back.
pub fn sectors_in(word: &[u8], mut room: LineBytes) -> Result<LineBytes, LineBytes>
    requires { length word.now < line_limit }
    ensures { result_ok result ≡ sectors_of word.now }
{
    if word.is_empty() || word.len() % 1024 != 0 {
        return Err(room);
    }
    match decode(word, &mut room.bytes) {
        Some(()) => Ok(room),
        None => Err(room),
    }
}

// The bytes of pairs of digits, in place of what there was. There is room for them, so no memory is taken.
fn decode(word: &[u8], bytes: &mut Vec<u8>) -> Option<()>
    requires whole { length word.now % 1024 ≡ 0 }
    requires room { length word.now / 2 ≤ vec_capacity bytes.old }
    ensures decoded { MatchOption result (hex_bytes word.now ≡ None) (λ _. hex_bytes word.now ≡ Some bytes.new.items) }
    ensures room { vec_capacity bytes.old ≤ vec_capacity bytes.new }
{
    if bytes.resize(word.len() / 2, 0).is_err() {
        unreachable!();
    }
    decode_pairs(word, bytes)
}
