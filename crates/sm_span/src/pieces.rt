//! What a call of the whole device is of each part, which may be nothing.

ghost use Rattle.std.specs.Prelude.{◌≡◌, ◌≤◌, ◌<◌, ◌+◌, length, OnOk, OnErr};
ghost use Rattle.sm_disk.specs.Held.{IsCounted, SameHeld, Gave, Torn, Wrote, Keeps, IsSettled};
ghost use Rattle.sm_span.specs.Parts.{FailsInOne, IsPiece, bytes_below};

use sm_base::Failed;
use sm_disk::Disk;

/// Of so many bytes from the place `at` on, how many lie below the border.
pub fn below(border: u64, at: u64, len: usize) -> usize
    ensures { result ≡ bytes_below border at len }
{
    let bytes = border.saturating_sub(at).saturating_mul(512);
    bytes.min(len as u64) as usize
}

/// Reads whole sectors from the place `at` on. Where there are none, the device is not called.
pub fn read_piece<D: Disk>(disk: &mut D, at: u64, to: &mut [u8]) -> Result<(), Failed>
    requires { IsPiece at (length to.old) (D.size disk.old) }
    ensures size { D.size disk.new ≡ D.size disk.old }
    ensures counts { D.faults disk.old ≤ D.faults disk.new }
    ensures cause { IsCounted result (D.faults disk.old) (D.faults disk.new) }
    ensures same { D.told → SameHeld (D.held disk.old) (D.held disk.new) }
    ensures gave { OnOk result (D.told → Gave at (D.held disk.old) to.new) }
    ensures uncalled { length to.old ≡ 0 → disk.new ≡ disk.old }
{
    if to.is_empty() {
        return Ok(());
    }
    disk.read(at, to)
}

/// Writes whole sectors from the place `at` on. Where there are none, the device is not called.
pub fn write_piece<D: Disk>(disk: &mut D, at: u64, from: &[u8]) -> Result<(), Failed>
    requires { IsPiece at (length from.now) (D.size disk.old) }
    ensures size { D.size disk.new ≡ D.size disk.old }
    ensures counts { D.faults disk.old ≤ D.faults disk.new }
    ensures cause { IsCounted result (D.faults disk.old) (D.faults disk.new) }
    ensures torn { D.told → Torn at from.now (D.held disk.old) (D.held disk.new) }
    ensures wrote { OnOk result (D.told → Wrote at from.now (D.held disk.old) (D.held disk.new)) }
    ensures uncalled { length from.now ≡ 0 → disk.new ≡ disk.old }
{
    if from.is_empty() {
        return Ok(());
    }
    disk.write(at, from)
}

/// Syncs the first part, and where that succeeds the second.
pub fn sync_both<A: Disk, B: Disk>(first: &mut A, second: &mut B) -> Result<(), Failed>
    ensures first_size { A.size first.new ≡ A.size first.old }
    ensures second_size { B.size second.new ≡ B.size second.old }
    ensures counts { A.faults first.old + B.faults second.old ≤ A.faults first.new + B.faults second.new }
    ensures cause { IsCounted result (A.faults first.old + B.faults second.old) (A.faults first.new + B.faults second.new) }
    ensures first_keeps { A.told → Keeps (A.held first.old) (A.held first.new) }
    ensures second_keeps { B.told → Keeps (B.held second.old) (B.held second.new) }
    ensures first_settled { OnOk result (A.told → IsSettled (A.held first.new)) }
    ensures second_settled { OnOk result (B.told → IsSettled (B.held second.new)) }
    ensures one { OnErr result (FailsInOne A.faults B.faults first.old first.new second.old second.new) }
{
    first.sync()?;
    second.sync()?;
    Ok(())
}
