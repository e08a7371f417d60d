//! A device of sectors, and calls that stand on any device.

ghost use Rattle.std.specs.Prelude.{◌≡◌, ◌≤◌, ◌<◌, ◌*◌, ◌+◌, ℕ, length, OnOk, IfOk};
ghost use Rattle.sm_disk.specs.Sectors.{IsSector};
ghost use Rattle.sm_disk.specs.Held.{Held, IsWhole, SameHeld, Gave, Torn, Wrote, Keeps, IsSettled, HasSectors, IsCounted, Reaches, Puts, ReadsElsewhere, reads};

use sm_base::Failed;

/// A device of sectors of 512 bytes. Places and sizes are in sectors.
///
/// What a call did stands in its clauses. A clause on content holds where the device tells its
/// content (`told`). A call fails only where the count of faults rose, and where it succeeds the count is what it was: so
/// whoever stands on a device can't succeed over a call that failed, whether that is passed over or tried again.
pub trait Disk {
    /// Whether what the device holds is told: a fact that holds, or one that never does.
    ghost told: { Type 0 };

    /// What it holds, and what a crash may leave.
    ghost held: { Self → Held };

    /// How many sectors it has.
    ghost size: { Self → ℕ };

    /// How many of its calls have failed. It never falls.
    ghost faults: { Self → ℕ };

    /// The number of sectors, which never changes.
    fn sectors(&self) -> u64
        ensures size { result ≡ size self.now }
        ensures sectors { told → HasSectors (size self.now) (held self.now) };

    /// Reads whole sectors, at least one, from the place `at` on. Where it fails, what `to` holds
    /// afterwards is open.
    fn read(&mut self, at: u64, to: &mut [u8]) -> Result<(), Failed>
        requires { IsWhole at (length to.old) (size self.old) }
        ensures size { size self.new ≡ size self.old }
        ensures counts { faults self.old ≤ faults self.new }
        ensures cause { IsCounted result (faults self.old) (faults self.new) }
        ensures same { told → SameHeld (held self.old) (held self.new) }
        ensures gave { OnOk result (told → Gave at (held self.old) to.new) };

    /// Writes whole sectors, at least one, from the place `at` on. They are pending until a sync.
    /// Where it fails, any of them may be pending.
    fn write(&mut self, at: u64, from: &[u8]) -> Result<(), Failed>
        requires { IsWhole at (length from.now) (size self.old) }
        ensures size { size self.new ≡ size self.old }
        ensures counts { faults self.old ≤ faults self.new }
        ensures cause { IsCounted result (faults self.old) (faults self.new) }
        ensures torn { told → Torn at from.now (held self.old) (held self.new) }
        ensures wrote { OnOk result (told → Wrote at from.now (held self.old) (held self.new)) };

    /// Makes what is pending last. Reads give what they gave, and where it fails a crash leaves
    /// nothing that it could not leave before.
    fn sync(&mut self) -> Result<(), Failed>
        ensures size { size self.new ≡ size self.old }
        ensures counts { faults self.old ≤ faults self.new }
        ensures cause { IsCounted result (faults self.old) (faults self.new) }
        ensures keeps { told → Keeps (held self.old) (held self.new) }
        ensures settled { OnOk result (told → IsSettled (held self.new)) };
}

/// Reads one sector.
pub fn read_sector<D: Disk>(disk: &mut D, at: u64) -> Result<[u8; 512], Failed>
    requires { at < D.size disk.old }
    ensures size { D.size disk.new ≡ D.size disk.old }
    ensures counts { D.faults disk.old ≤ D.faults disk.new }
    ensures cause { IsCounted result (D.faults disk.old) (D.faults disk.new) }
    ensures same { D.told → SameHeld (D.held disk.old) (D.held disk.new) }
    ensures gave { IfOk result (λ sector. D.told → sector ≡ reads (D.held disk.old) at) }
    ensures long { IfOk result (λ sector. length sector ≡ 512) }
    ensures sector { IfOk result (λ sector. D.told → IsSector sector) }
{
    let _sectors = disk.sectors();
    let mut sector = [0; 512];
    disk.read(at, &mut sector)?;
    Ok(sector)
}

/// Writes one sector. It is pending until a sync.
pub fn write_sector<D: Disk>(disk: &mut D, at: u64, from: &[u8; 512]) -> Result<(), Failed>
    requires { at < D.size disk.old }
    ensures size { D.size disk.new ≡ D.size disk.old }
    ensures counts { D.faults disk.old ≤ D.faults disk.new }
    ensures cause { IsCounted result (D.faults disk.old) (D.faults disk.new) }
    ensures torn { D.told → Torn at from.now (D.held disk.old) (D.held disk.new) }
    ensures wrote { OnOk result (D.told → Wrote at from.now (D.held disk.old) (D.held disk.new)) }
{
    disk.write(at, from)
}

/// Writes whole sectors and syncs, with all that was pending before. Where it fails, a crash leaves at
/// each place what it might have left before, or what was to be written there.
pub fn put<D: Disk>(disk: &mut D, at: u64, bytes: &[u8]) -> Result<(), Failed>
    requires { IsWhole at (length bytes.now) (D.size disk.old) }
    ensures size { D.size disk.new ≡ D.size disk.old }
    ensures counts { D.faults disk.old ≤ D.faults disk.new }
    ensures cause { IsCounted result (D.faults disk.old) (D.faults disk.new) }
    ensures reaches { D.told → Reaches (Puts at bytes.now) (D.held disk.old) (D.held disk.new) }
    ensures settled { OnOk result (D.told → IsSettled (D.held disk.new)) }
    ensures within { OnOk result (D.told → Gave at (D.held disk.new) bytes.now) }
    ensures elsewhere { OnOk result (D.told → ReadsElsewhere at (length bytes.now) (D.held disk.old) (D.held disk.new)) }
{
    disk.write(at, bytes)?;
    disk.sync()?;
    Ok(())
}
