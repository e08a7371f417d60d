//! The checksum of a footer or header.

ghost use Rattle.std.specs.Prelude.{◌≡◌, ◌≤◌, ◌+◌, ◌*◌, length, take, drop, sum};
ghost use Rattle.vhd_fields.specs.Checksums.{checksum, sealed};

use crate::places::put_u32;

// The sum of the bytes of a footer or header, or of a part of them.
fn sum_of(bytes: &[u8]) -> u32
    requires { length bytes.now ≤ 1024 }
    ensures value { result ≡ sum bytes.now }
    ensures small { result ≤ 1024 * 255 }
{
    bytes.iter().map(|byte| u32::from(*byte)).sum()
}

/// The one's complement of the sum of all bytes but the four from an offset on.
#[tactic(auto, unfolding(crate::specs::Checksums::checksum))]
pub(crate) fn checksum_of(bytes: &[u8], at: usize) -> u32
    requires within { at + 4 ≤ length bytes.now }
    requires short { length bytes.now ≤ 1024 }
    ensures { result ≡ checksum at bytes.now }
{
    u32::MAX - (sum_of(&bytes[..at]) + sum_of(&bytes[at + 4..]))
}

/// Writes the checksum at an offset.
pub(crate) fn seal(to: &mut [u8], at: usize)
    requires within { at + 4 ≤ length to.old }
    requires short { length to.old ≤ 1024 }
    ensures { to.new ≡ sealed (take at to.old) (drop (at + 4) to.old) }
{
    let checksum = checksum_of(to, at);
    put_u32(to, at, checksum);
}
