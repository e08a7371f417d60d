//! Numbers, sums and zeros in bytes, byte by byte.

ghost use Rattle.std.specs.Prelude.{◌≡◌, ◌≤◌, ◌+◌, ◌-◌, ◌==◌, length, take, drop, sum};
ghost use Rattle.std.specs.List.{list_all};
ghost use Rattle.vg_layout.specs.Sectors.{number_at};

/// The number in the four bytes at an offset.
pub fn number(bytes: &[u8], at: usize) -> u32
    requires { at + 4 ≤ length bytes.now }
    ensures { result ≡ number_at at bytes.now }
{
    let mut field = [0; 4];
    field.copy_from_slice(&bytes[at..at + 4]);
    u32::from_be_bytes(field)
}

/// The sum of bytes.
fn sum_of(bytes: &[u8]) -> u32
    requires { length bytes.now ≤ 8519680 }
    ensures { result ≡ sum bytes.now }
{
    bytes.iter().map(|byte| u32::from(*byte)).sum()
}

/// The sum of the bytes from one offset up to another.
pub fn sum_between(bytes: &[u8], from: usize, to: usize) -> u32
    requires order { from ≤ to }
    requires within { to ≤ length bytes.now }
    requires few { to - from ≤ 8519680 }
    ensures { result ≡ sum (take (to - from) (drop from bytes.now)) }
{
    sum_of(&bytes[from..to])
}

/// Whether the bytes from one offset up to another are zeros.
pub fn are_zeros(bytes: &[u8], from: usize, to: usize) -> bool
    requires order { from ≤ to }
    requires within { to ≤ length bytes.now }
    ensures { result ≡ list_all (λ b. b == 0) (take (to - from) (drop from bytes.now)) }
{
    bytes[from..to].iter().all(|byte| *byte == 0)
}
