//! The time that images are stamped with.

ghost use Rattle.std.specs.Prelude.{◌≡◌, ◌-◌, ◌^◌, min};

/// The Unix time of 2000-01-01 00:00 UTC, from which images count their seconds.
const YEAR_2000: u64 = 946_684_800;

/// Seconds since 2000-01-01 00:00 UTC at a Unix time in seconds: 0 before, and 2^32 - 1 for any later second.
pub fn seconds_since_2000(unix: u64) -> u32
    ensures { result ≡ min (unix - 946684800) (2 ^ 32 - 1) }
{
    let seconds = unix.saturating_sub(YEAR_2000).min(u64::from(u32::MAX));
    seconds as u32
}
