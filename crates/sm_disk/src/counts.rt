//! A count of calls that failed.

ghost use Rattle.std.specs.Prelude.{◌≡◌, ◌≤◌, is_err};
ghost use Rattle.sm_disk.specs.Held.{IsCounted};

use sm_base::Failed;

/// The answer of a call, which is counted where it fails.
pub fn answer(faults: &mut u64, fails: bool) -> Result<(), Failed>
    ensures answer { is_err result ≡ fails }
    ensures counts { faults.old ≤ faults.new }
    ensures cause { IsCounted result faults.old faults.new }
{
    if fails {
        *faults = faults.saturating_add(1);
        return Err(Failed);
    }
    Ok(())
}
