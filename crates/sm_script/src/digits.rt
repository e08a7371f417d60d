//! Pairs of hexadecimal digits as bytes, by a table of what each byte stands for. The library's digits cost twice as much a byte, and a line
//! has 1,024 of them for each sector.

ghost use Rattle.std.specs.Prelude.{◌≡◌, ◌*◌, Some, None, MatchOption, length};
ghost use Rattle.uuid.specs.Text.{hex_digit_value};
ghost use Rattle.sm_machine.specs.Lines.{hex_bytes};

/// What stands in the table for a byte that is no digit.
const NONE: u8 = 255;

/// The value of each byte as a hexadecimal digit of either case.
const VALUES: [u8; 256] = [
    255, 255, 255, 255, 255, 255, 255, 255, 255, 255, 255, 255, 255, 255, 255, 255, 255, 255, 255,
    255, 255, 255, 255, 255, 255, 255, 255, 255, 255, 255, 255, 255, 255, 255, 255, 255, 255, 255,
    255, 255, 255, 255, 255, 255, 255, 255, 255, 255, 0, 1, 2, 3, 4, 5, 6, 7, 8, 9, 255, 255, 255,
    255, 255, 255, 255, 10, 11, 12, 13, 14, 15, 255, 255, 255, 255, 255, 255, 255, 255, 255, 255,
    255, 255, 255, 255, 255, 255, 255, 255, 255, 255, 255, 255, 255, 255, 255, 255, 10, 11, 12, 13,
    14, 15, 255, 255, 255, 255, 255, 255, 255, 255, 255, 255, 255, 255, 255, 255, 255, 255, 255,
    255, 255, 255, 255, 255, 255, 255, 255, 255, 255, 255, 255, 255, 255, 255, 255, 255, 255, 255,
    255, 255, 255, 255, 255, 255, 255, 255, 255, 255, 255, 255, 255, 255, 255, 255, 255, 255, 255,
    255, 255, 255, 255, 255, 255, 255, 255, 255, 255, 255, 255, 255, 255, 255, 255, 255, 255, 255,
    255, 255, 255, 255, 255, 255, 255, 255, 255, 255, 255, 255, 255, 255, 255, 255, 255, 255, 255,
    255, 255, 255, 255, 255, 255, 255, 255, 255, 255, 255, 255, 255, 255, 255, 255, 255, 255, 255,
    255, 255, 255, 255, 255, 255, 255, 255, 255, 255, 255, 255, 255, 255, 255, 255, 255, 255, 255,
    255, 255, 255, 255, 255, 255, 255, 255, 255, 255, 255, 255, 255, 255, 255, 255, 255, 255, 255,
    255, 255, 255,
];

/// The value of a hexadecimal digit.
fn value_of(digit: u8) -> Option<u8>
    ensures { result ≡ hex_digit_value digit }
{
    let value = VALUES[digit as usize];
    if value == NONE {
        return None;
    }
    Some(value)
}

/// The bytes that pairs of digits spell, in place of as many bytes. `None` where a byte is no digit.
pub(crate) fn decode_pairs(digits: &[u8], bytes: &mut [u8]) -> Option<()>
    requires pairs { length digits.now ≡ 2 * length bytes.old }
    ensures { MatchOption result (hex_bytes digits.now ≡ None) (λ _. hex_bytes digits.now ≡ Some bytes.new) }
{
    for index in 0..bytes.len() {
        let high = value_of(digits[2 * index])?;
        let low = value_of(digits[2 * index + 1])?;
        bytes[index] = high * 16 + low;
    }
    Some(())
}
