//! Fields at their offsets in a slice.

ghost use Rattle.std.specs.Prelude.{◌≡◌, ◌≤◌, ◌+◌, ◌++◌, length, take, drop};
ghost use Rattle.byteorder.specs.Endian.{big_bytes};
ghost use Rattle.vhd_fields.specs.Fields.{bytes_at, number_at};

use byteorder::{BigEndian, ByteOrder};

/// The version 1.0 of both formats.
pub(crate) const VERSION: u32 = 0x0001_0000;

/// The bytes from an offset on.
pub(crate) fn bytes_of<const N: usize>(bytes: &[u8], at: usize) -> [u8; N]
    requires { at + N ≤ length bytes.now }
    ensures { result ≡ bytes_at at N bytes.now }
{
    let mut field = [0; N];
    field.copy_from_slice(&bytes[at..at + N]);
    field
}

/// The number in the four bytes from an offset on.
pub(crate) fn u32_of(bytes: &[u8], at: usize) -> u32
    requires { at + 4 ≤ length bytes.now }
    ensures { result ≡ number_at at 4 bytes.now }
{
    BigEndian::read_u32(&bytes[at..])
}

/// The number in the eight bytes from an offset on.
pub(crate) fn u64_of(bytes: &[u8], at: usize) -> u64
    requires { at + 8 ≤ length bytes.now }
    ensures { result ≡ number_at at 8 bytes.now }
{
    BigEndian::read_u64(&bytes[at..])
}

/// Writes bytes at an offset, and gives the offset behind them.
pub(crate) fn put(to: &mut [u8], at: usize, field: &[u8]) -> usize
    requires { at + length field.now ≤ length to.old }
    ensures next { result ≡ at + length field.now }
    ensures written { take result to.new ≡ take at to.old ++ field.now }
    ensures rest { drop result to.new ≡ drop result to.old }
{
    let next = at + field.len();
    to[at..next].copy_from_slice(field);
    next
}

/// Writes a number in four bytes at an offset, and gives the offset behind them.
pub(crate) fn put_u32(to: &mut [u8], at: usize, number: u32) -> usize
    requires { at + 4 ≤ length to.old }
    ensures next { result ≡ at + 4 }
    ensures written { take result to.new ≡ take at to.old ++ big_bytes 4 number }
    ensures rest { drop result to.new ≡ drop result to.old }
{
    put(to, at, &number.to_be_bytes())
}

/// Writes a number in eight bytes at an offset, and gives the offset behind them.
pub(crate) fn put_u64(to: &mut [u8], at: usize, number: u64) -> usize
    requires { at + 8 ≤ length to.old }
    ensures next { result ≡ at + 8 }
    ensures written { take result to.new ≡ take at to.old ++ big_bytes 8 number }
{
    put(to, at, &number.to_be_bytes())
}
