//! Bytes that are put together.

ghost use Rattle.std.specs.Prelude.{◌≡◌, ◌≤◌, ◌+◌, ◌++◌, length, take, drop};

/// Writes bytes at an offset, and gives the offset behind them.
pub(crate) fn put(to: &mut [u8], at: usize, field: &[u8]) -> usize
    requires { at + length field.now ≤ length to.old }
    ensures next { result ≡ at + length field.now }
    ensures written { take result to.new ≡ take at to.old ++ field.now }
    ensures rest { drop result to.new ≡ drop result to.old }
{
    let next = at + field.len();
    to[at..next].copy_from_slice(field);
    next
}

/// Two sectors, one behind the other.
pub(crate) fn joined(front: &[u8; 512], back: &[u8; 512]) -> [u8; 1024]
    ensures { result ≡ front.now ++ back.now }
{
    let mut both = [0; 1024];
    let at = put(&mut both, 0, front);
    put(&mut both, at, back);
    both
}

/// The two sectors of a header.
pub(crate) fn halves(both: &[u8; 1024]) -> ([u8; 512], [u8; 512])
    ensures front { result.0 ≡ take 512 both.now }
    ensures back { result.1 ≡ drop 512 both.now }
{
    let mut front = [0; 512];
    let mut back = [0; 512];
    front.copy_from_slice(&both[..512]);
    back.copy_from_slice(&both[512..]);
    (front, back)
}
