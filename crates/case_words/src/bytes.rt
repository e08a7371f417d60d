//! Bytes and numbers as a case spells them.

use crate::wrong::{Wrong, found};
use std::alloc::Global;

/// The value of a hexadecimal digit.
fn value_of(digit: u8) -> Option<u8> {
    match digit {
        b'0'..=b'9' => Some(digit - b'0'),
        b'a'..=b'f' => Some(digit - b'a' + 10),
        b'A'..=b'F' => Some(digit - b'A' + 10),
        _ => None,
    }
}

/// The byte that two digits in front of a text spell.
fn first_byte(digits: &[u8]) -> Option<u8> {
    let [high, low, ..] = digits else {
        return None;
    };
    Some((value_of(*high)? & 15) * 16 + (value_of(*low)? & 15))
}

/// Whether each digit is that of this byte in its place, two digits a byte, in lower case.
pub fn is_filled(digits: &[u8], byte: u8) -> bool {
    let high = digit_of(byte >> 4);
    let low = digit_of(byte & 15);
    let mut is_high = true;
    for digit in digits {
        let wanted = if is_high { high } else { low };
        if *digit != wanted {
            return false;
        }
        is_high = !is_high;
    }
    is_high
}

/// The lower-case digit of a number below 16.
fn digit_of(number: u8) -> u8 {
    match number & 15 {
        low @ 0..=9 => b'0' + low,
        low => b'a' + (low & 15).saturating_sub(10),
    }
}

/// The byte that all digits of a text spell, in either case, if it is one.
pub fn uniform_byte(digits: &str) -> Option<u8> {
    let byte = first_byte(digits.as_bytes())?;
    for two in digits.as_bytes().chunks(2) {
        if first_byte(two) != Some(byte) {
            return None;
        }
    }
    Some(byte)
}

/// Adds letters of two bytes each.
fn add_wide(to: &mut Vec<u8>, text: &str) -> Result<(), Wrong> {
    for byte in text.bytes() {
        to.push(0)?;
        to.push(byte)?;
    }
    Ok(())
}

/// Adds the bytes that digits spell, hyphens apart.
fn add_digits(alloc: Global, to: &mut Vec<u8>, word: &str) -> Result<(), Wrong> {
    let mut high = None;
    for letter in word.bytes() {
        if letter == b'-' {
            continue;
        }
        let Some(value) = value_of(letter) else {
            return Err(found(alloc, "a digit that is none"));
        };
        high = match high {
            None => Some(value),
            Some(high) => {
                to.push((high & 15) * 16 + (value & 15))?;
                None
            }
        };
    }
    match high {
        None => Ok(()),
        Some(_) => Err(found(alloc, "half a byte")),
    }
}

/// Adds the bytes that a word says: digits, `uuid:` and a UUID, `text:` and letters, `utf16:` and letters of two bytes each.
fn add_word(alloc: Global, to: &mut Vec<u8>, word: &str) -> Result<(), Wrong> {
    if let Some(text) = word.strip_prefix("text:") {
        to.extend_from_slice(text.as_bytes())?;
        return Ok(());
    }
    if let Some(text) = word.strip_prefix("utf16:") {
        return add_wide(to, text);
    }
    add_digits(alloc, to, word.strip_prefix("uuid:").unwrap_or(word))
}

/// The bytes that words say: digits, `uuid:` and a UUID, `text:` and letters, `utf16:` and letters of two bytes each.
pub fn bytes_of(alloc: Global, words: &str) -> Result<Vec<u8>, Wrong> {
    let mut bytes = Vec::new(alloc);
    for word in words.split(" ") {
        let before = bytes.len();
        add_word(alloc, &mut bytes, word)?;
        if bytes.len() == before {
            return Err(found(alloc, "no bytes"));
        }
    }
    Ok(bytes)
}

/// Adds the numbers from one to another.
fn add_range(alloc: Global, to: &mut Vec<u32>, from: &str, last: &str) -> Result<(), Wrong> {
    let (Ok(from), Ok(last)) = (from.parse::<u32>(), last.parse::<u32>()) else {
        return Err(found(alloc, "no number of an extent"));
    };
    for number in from..last.saturating_add(1) {
        to.push(number)?;
    }
    Ok(())
}

/// Numbers and ranges of numbers, separated by commas: `27,28`, `17-33`.
pub fn numbers_of(alloc: Global, text: &str) -> Result<Vec<u32>, Wrong> {
    let mut list = Vec::new(alloc);
    for word in text.split(",") {
        let (from, last) = word.split_once("-").unwrap_or((word, word));
        add_range(alloc, &mut list, from, last)?;
    }
    Ok(list)
}
