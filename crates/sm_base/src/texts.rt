// The parts of a name's spelling, written into a buffer and read.

ghost use Rattle.std.specs.Prelude.{◌≡◌, ℕ, ◌+◌, ◌<◌, ◌≤◌, ◌^◌, List, Some, ◌++◌, take, drop, length, decimal, IfSome};
ghost use Rattle.sm_base.specs.Names.{IsUuid, uuid_text};
ghost use Rattle.sm_base.specs.Texts.{placed};

use std::str;
use uuid::Uuid;

/// The length of a UUID's text, in bytes.
const UUID_LENGTH: usize = 36;

/// Writes a text at a place, and answers the place behind it.
pub fn put(to: &mut [u8; 128], at: usize, text: &[u8]) -> usize
    requires { at + length text.now ≤ 128 }
    ensures written { to.new ≡ placed at text.now to.old }
    ensures end { result ≡ at + length text.now }
{
    let end = at + text.len();
    to[at..end].copy_from_slice(text);
    end
}

/// Writes a text and a UUID behind it, and answers the place behind both.
pub fn put_uuid(to: &mut [u8; 128], at: usize, front: &[u8], uuid: &Uuid) -> usize
    requires { at + length front.now + 36 ≤ 128 }
    ensures written { to.new ≡ placed at (front.now ++ uuid_text uuid.now) to.old }
    ensures end { result ≡ at + length front.now + 36 }
{
    let mut buffer = Uuid::encode_buffer();
    let text = uuid.hyphenated().encode_lower(&mut buffer);
    let middle = put(to, at, front);
    put(to, middle, text.as_bytes())
}

/// Writes a text and a decimal number behind it, and answers the place behind both.
pub fn put_decimal(to: &mut [u8; 128], at: usize, front: &[u8], number: u32) -> usize
    requires { at + length front.now + 10 ≤ 128 }
    ensures written { to.new ≡ placed at (front.now ++ decimal number) to.old }
    ensures end { result ≡ at + length front.now + length (decimal number) }
{
    let mut digits = [0; 10];
    let mut start = 9;
    let mut rest = number;
    while rest >= 10 {
        digits[start] = b'0' + (rest % 10) as u8;
        rest /= 10;
        start -= 1;
    }
    digits[start] = b'0' + rest as u8;
    let middle = put(to, at, front);
    put(to, middle, &digits[start..])
}

/// A UUID whose text may stand at a place. Texts of other forms and cases are read too.
pub fn uuid_at(bytes: &[u8], at: usize) -> Option<Uuid>
    requires { at < 128 }
    ensures uuid { IfSome result IsUuid }
    ensures found { (u : List ℕ) → IsUuid u → take 36 (drop at bytes.now) ≡ uuid_text u → result ≡ Some u }
{
    Uuid::try_parse_ascii(bytes.get(at..at + UUID_LENGTH)?).ok()
}

/// A decimal number whose text may stand from a place on. Leading zeros and a sign are read too.
pub fn decimal_at(bytes: &[u8], at: usize) -> Option<u32>
    ensures fits { IfSome result (λ n. n < 2 ^ 32) }
    ensures found { (n : ℕ) → n < 2 ^ 32 → drop at bytes.now ≡ decimal n → result ≡ Some n }
{
    str::from_utf8(bytes.get(at..)?).ok()?.parse().ok()
}
