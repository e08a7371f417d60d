//! Fields at their offsets in a sector, and sums of bytes.

ghost use Rattle.std.specs.Prelude.{◌≡◌, ◌≤◌, ◌+◌, ◌++◌, length, take, drop, sum};
ghost use Rattle.vg_layout.specs.Sectors.{number, number_at, sealed};

/// The bytes from an offset on.
pub(crate) fn bytes_of<const N: usize>(bytes: &[u8], at: usize) -> [u8; N]
    requires { at + N ≤ length bytes.now }
    ensures { result ≡ take N (drop at bytes.now) }
{
    let mut field = [0; N];
    field.copy_from_slice(&bytes[at..at + N]);
    field
}

/// The number in the four bytes at an offset.
pub(crate) fn number_at(bytes: &[u8], at: usize) -> u32
    requires { at + 4 ≤ length bytes.now }
    ensures { result ≡ number_at at bytes.now }
{
    u32::from_be_bytes(bytes_of(bytes, at))
}

/// Writes bytes at an offset, and answers the offset behind them.
pub(crate) fn put(to: &mut [u8], at: usize, field: &[u8]) -> usize
    requires { at + length field.now ≤ length to.old }
    ensures next { result ≡ at + length field.now }
    ensures written { take result to.new ≡ take at to.old ++ field.now }
{
    let next = at + field.len();
    to[at..next].copy_from_slice(field);
    next
}

/// Writes a number in four bytes at an offset, and answers the offset behind them.
pub(crate) fn put_number(to: &mut [u8], at: usize, value: u32) -> usize
    requires { at + 4 ≤ length to.old }
    ensures next { result ≡ at + 4 }
    ensures written { take result to.new ≡ take at to.old ++ number value }
{
    put(to, at, &value.to_be_bytes())
}

/// The sum of bytes. No slot of a table's text is longer than this asks.
pub fn sum_of(bytes: &[u8]) -> u32
    requires { length bytes.now ≤ 8519680 }
    ensures { result ≡ sum bytes.now }
{
    bytes.iter().map(|byte| u32::from(*byte)).sum()
}

/// Writes the sum of the first 508 bytes behind them.
pub(crate) fn seal(to: &mut [u8; 512])
    ensures { to.new ≡ sealed (take 508 to.old) }
{
    let sum = sum_of(&to[..508]);
    put_number(to, 508, sum);
}
