//! A file as a device.

ghost use Rattle.std.specs.Prelude.{◌≡◌, ◌≤◌, ◌<◌, ◌*◌, ◌/◌, ◌^◌, [], length};
ghost use Rattle.sm_disk.specs.Held.{Held, IsWhole, SameHeld, Gave, Torn, Wrote, Keeps, IsSettled, HasSectors, Rose};

use sm_disk::{Disk, Failed};
use std::fs::File;
use std::os::unix::fs::FileExt;

/// The whole sectors of a file that is open for reading and writing.
#[derive(Drop)]
pub struct FileDisk {
    file: File,
    sectors: u64,
    faults: u64,
    ghost in_range: { sectors < 2 ^ 55 },
}

impl FileDisk {
    /// The device that a file is, of so many bytes.
    pub fn new(file: File, bytes: u64) -> FileDisk
        ensures sectors { result.sectors ≡ bytes / 512 }
        ensures faults { result.faults ≡ 0 }
    {
        FileDisk {
            file,
            sectors: bytes / 512,
            faults: 0,
        }
    }

    /// One fault more, up to the last number.
    fn failed(&mut self) -> Failed
        ensures sectors { self.new.sectors ≡ self.old.sectors }
        ensures rose { Rose self.old.faults self.new.faults }
        ensures counts { self.old.faults ≤ self.new.faults }
    {
        self.faults = self.faults.saturating_add(1);
        Failed
    }
}

impl Disk for FileDisk {
    ghost use Rattle.std.specs.Prelude.{[]};

    ghost told = { ⊥ };

    ghost held = { λ _. record { floor = λ _. []; pending = λ _. [] } };

    ghost size = { λ disk. disk.sectors };

    ghost faults = { λ disk. disk.faults };

    fn sectors(&self) -> u64 {
        self.sectors
    }

    fn read(&mut self, at: u64, to: &mut [u8]) -> Result<(), Failed> {
        if self.file.read_exact_at(to, 512 * at).is_err() {
            return Err(self.failed());
        }
        Ok(())
    }

    fn write(&mut self, at: u64, from: &[u8]) -> Result<(), Failed> {
        if self.file.write_all_at(from, 512 * at).is_err() {
            return Err(self.failed());
        }
        Ok(())
    }

    fn sync(&mut self) -> Result<(), Failed> {
        if self.file.sync_data().is_err() {
            return Err(self.failed());
        }
        Ok(())
    }
}
