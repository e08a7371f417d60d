//! A disk that is being made of a file.

ghost use Rattle.std.specs.Prelude.{◌≡◌, ◌≢◌, ◌/◌, ◌<◌, ◌≤◌, ℕ, Bool, List, [], ◌∷◌, Err, OnOk, false, true};
ghost use Rattle.sm_disk.specs.Held.{Rose};
ghost use Rattle.vhd_import.specs.declared.disks.PutFault.TheVariants.{Device};
ghost use Rattle.vhd_import.specs.Making.{AnswersRoom, HasAnsweredRoom, begin_lacks, put_lacks};
ghost use Rattle.vhd_import.specs.Progress.{AreCounted};
ghost use Rattle.vhd_import.specs.Puts.{Put};
ghost use Rattle.vhd_import.specs.Room.{Target};

use crate::faults::ImportFault;
use sm_base::Refusal;

/// Why bytes were not put on a disk.
#[derive(Clone, Copy, PartialEq, Eq)]
pub enum PutFault {
    /// The image needs so many extents more, and so many are free.
    NoSpace { need: u32, free: u32 },
    /// A call of the device failed.
    Device,
    /// Memory ran out.
    NoMemory,
}

/// A disk that is being made of a file, a sector at a time. A sector that nothing was put to holds zeros, and one that bytes were put to
/// more than once holds the last.
pub trait NewDisk {
    /// The repository that the disk is made in, as it was before.
    ghost target: { Self → Target };

    /// These puts were made, the newest first: each sector holds what they leave there (`filled`), and just the blocks into which other
    /// bytes than zeros came have slots.
    ghost holds: { Self → List Put → Type 0 };

    /// It has a volume.
    ghost begun: { Self → Bool };

    /// How many calls of the device have failed. It never falls.
    ghost faults: { Self → ℕ };

    /// What an import was begun on.
    ghost Origin: { Type 0 };

    /// What holds of what the import was begun on, whatever was put since.
    ghost since: { Self → Origin → Type 0 };

    /// Gives the disk its volume, with the extents of an image without slots. Where it fails, what the disk holds is open.
    fn begin(&mut self) -> Result<(), PutFault>
        requires new { begun self.old ≡ false }
        ensures begun { OnOk result (begun self.new ≡ true) }
        ensures holds { OnOk result (holds self.new []) }
        ensures room { AnswersRoom (begin_lacks (target self.old)) result }
        ensures target { target self.new ≡ target self.old }
        ensures since { (o : Origin) → since self.old o → since self.new o }
        ensures counts { faults self.old ≤ faults self.new }
        ensures device { result ≡ Err Device → Rose (faults self.old) (faults self.new) }
        ensures calm { result ≢ Err Device → faults self.new ≡ faults self.old };

    /// Puts bytes to a sector of the disk, whose block has an entry in a table of the repository. Where it fails, what the disk holds is open.
    fn put(&mut self, sector: u64, bytes: &[u8; 512]) -> Result<(), PutFault>
        requires begun { begun self.old ≡ true }
        requires below { sector / (target self.old).block < (target self.old).entries }
        ensures begun { OnOk result (begun self.new ≡ true) }
        ensures holds { OnOk result ((puts : List Put) → holds self.old puts → holds self.new (record { sector = sector; bytes = bytes.now } ∷ puts)) }
        ensures room { (puts : List Put) → holds self.old puts
            → AnswersRoom (put_lacks (target self.old) (record { sector = sector; bytes = bytes.now }) puts) result }
        ensures target { target self.new ≡ target self.old }
        ensures since { (o : Origin) → since self.old o → since self.new o }
        ensures counts { faults self.old ≤ faults self.new }
        ensures device { result ≡ Err Device → Rose (faults self.old) (faults self.new) }
        ensures calm { result ≢ Err Device → faults self.new ≡ faults self.old };
}

/// Gives a disk its volume.
pub fn begin_disk<N: NewDisk>(disk: &mut N) -> Result<(), ImportFault>
    requires new { N.begun disk.old ≡ false }
    ensures begun { OnOk result (N.begun disk.new ≡ true) }
    ensures holds { OnOk result (N.holds disk.new []) }
    ensures room { HasAnsweredRoom (begin_lacks (N.target disk.old)) result }
    ensures target { N.target disk.new ≡ N.target disk.old }
    ensures since { (o : N.Origin) → N.since disk.old o → N.since disk.new o }
    ensures counts { (s : ℕ) → AreCounted result s s (N.faults disk.old) (N.faults disk.new) }
{
    match disk.begin() {
        Ok(()) => Ok(()),
        Err(PutFault::NoSpace { need, free }) => {
            Err(ImportFault::Refused(Refusal::NoSpace { need, free }))
        }
        Err(PutFault::Device) => Err(ImportFault::Device),
        Err(PutFault::NoMemory) => Err(ImportFault::NoMemory),
    }
}

/// Puts bytes to a sector of a disk.
pub fn put_sector<N: NewDisk>(
    disk: &mut N,
    sector: u64,
    bytes: &[u8; 512],
) -> Result<(), ImportFault>
    requires begun { N.begun disk.old ≡ true }
    requires below { sector / (N.target disk.old).block < (N.target disk.old).entries }
    ensures begun { OnOk result (N.begun disk.new ≡ true) }
    ensures holds { OnOk result ((puts : List Put) → N.holds disk.old puts → N.holds disk.new (record { sector = sector; bytes = bytes.now } ∷ puts)) }
    ensures room { (puts : List Put) → N.holds disk.old puts
        → HasAnsweredRoom (put_lacks (N.target disk.old) (record { sector = sector; bytes = bytes.now }) puts) result }
    ensures target { N.target disk.new ≡ N.target disk.old }
    ensures since { (o : N.Origin) → N.since disk.old o → N.since disk.new o }
    ensures counts { (s : ℕ) → AreCounted result s s (N.faults disk.old) (N.faults disk.new) }
{
    match disk.put(sector, bytes) {
        Ok(()) => Ok(()),
        Err(PutFault::NoSpace { need, free }) => {
            Err(ImportFault::Refused(Refusal::NoSpace { need, free }))
        }
        Err(PutFault::Device) => Err(ImportFault::Device),
        Err(PutFault::NoMemory) => Err(ImportFault::NoMemory),
    }
}
