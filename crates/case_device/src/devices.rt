//! The device of a case: one device in memory, or two of which the second stands behind the first.

use case_text::Part;
use case_words::{Wrong, found};
use sm_disk::{Disk, MemDisk, read_sector, write_sector};
use sm_span::Span;
use std::alloc::Global;

/// A sector of zeros.
const ZEROS: [u8; 512] = [0; 512];

/// A device in memory in two parts: the sectors of the first, and then those of the second, which has none where a case names no border.
#[derive(Drop)]
pub struct Device {
    first: MemDisk,
    second: MemDisk,
}

/// Which values last of what is pending on each part of a device, as [`MemDisk::left`] takes them.
#[derive(Clone, Copy)]
pub struct Choice<'a> {
    pub first: &'a [u32],
    pub second: &'a [u32],
}

impl<'a> Choice<'a> {
    /// The same of both parts.
    pub fn both(choice: &'a [u32]) -> Choice<'a> {
        Choice {
            first: choice,
            second: choice,
        }
    }
}

impl Device {
    /// A device of so many sectors of zeros, in one part.
    pub fn new(alloc: Global, sectors: u64) -> Result<Device, Wrong> {
        Ok(Device {
            first: MemDisk::new(alloc, sectors)?,
            second: MemDisk::new(alloc, 0)?,
        })
    }

    /// The device of two parts as one was run on.
    pub fn of(span: Span<MemDisk, MemDisk>) -> Device {
        let (first, second) = span.parts();
        Device { first, second }
    }

    /// The two parts as one device.
    pub fn span(self, alloc: Global) -> Result<Span<MemDisk, MemDisk>, Wrong> {
        let Device { first, second } = self;
        match Span::new(first, second) {
            Ok(span) => Ok(span),
            Err(_parts) => Err(found(alloc, "a device of too many sectors")),
        }
    }

    /// How many sectors both parts have.
    pub fn sectors(&self) -> u64 {
        self.first.sectors().saturating_add(self.second.sectors())
    }

    /// Whether the second part has sectors.
    pub fn has_border(&self) -> bool {
        self.second.sectors() > 0
    }

    /// A part, and the place in it of a sector of the whole.
    fn place(&mut self, at: u64) -> (&mut MemDisk, u64) {
        let border = self.first.sectors();
        if at < border {
            (&mut self.first, at)
        } else {
            (&mut self.second, at.saturating_sub(border))
        }
    }

    /// A sector, as a read gives it.
    pub fn read(&mut self, alloc: Global, at: u64) -> Result<[u8; 512], Wrong> {
        let (part, at) = self.place(at);
        if at >= part.sectors() {
            return Err(found(alloc, "no such sector of the device"));
        }
        Ok(read_sector(part, at)?)
    }

    /// Writes a sector, which is pending then.
    pub fn put(&mut self, alloc: Global, at: u64, sector: &[u8; 512]) -> Result<(), Wrong> {
        let (part, at) = self.place(at);
        if at >= part.sectors() {
            return Err(found(alloc, "no such sector of the device"));
        }
        write_sector(part, at, sector)?;
        Ok(())
    }

    /// Makes all that is pending last.
    pub fn settle(&mut self) -> Result<(), Wrong> {
        self.first.sync()?;
        self.second.sync()?;
        Ok(())
    }

    /// Writes a sector, so that it lasts.
    pub fn write(&mut self, alloc: Global, at: u64, sector: &[u8; 512]) -> Result<(), Wrong> {
        self.put(alloc, at, sector)?;
        self.settle()
    }

    /// What a stop leaves of each part, each by its own choice.
    pub fn left(&self, alloc: Global, choice: Choice<'_>) -> Result<Device, Wrong> {
        Ok(Device {
            first: self.first.left(alloc, choice.first)?,
            second: self.second.left(alloc, choice.second)?,
        })
    }

    /// What a stop leaves at least: none of what is pending.
    pub fn copy(&self, alloc: Global) -> Result<Device, Wrong> {
        self.left(alloc, Choice::both(&[]))
    }

    /// A call of a part fails, counted from 0, the next call.
    pub fn fail(&mut self, alloc: Global, part: Part, call: u64) -> Result<(), Wrong> {
        match part {
            Part::First => self.first.fail(alloc, &[call])?,
            Part::Second => self.second.fail(alloc, &[call])?,
        }
        Ok(())
    }

    /// A call of a part and all behind it fail.
    pub fn stop(&mut self, part: Part, call: u64) {
        match part {
            Part::First => self.first.stop(call),
            Part::Second => self.second.stop(call),
        }
    }

    /// The same sectors, of which the first part has so many.
    pub fn bordered(&mut self, alloc: Global, border: u64) -> Result<Device, Wrong> {
        let sectors = self.sectors();
        if border > sectors {
            return Err(found(alloc, "a border behind the device"));
        }
        let mut device = Device {
            first: MemDisk::new(alloc, border)?,
            second: MemDisk::new(alloc, sectors.saturating_sub(border))?,
        };
        for at in 0..sectors {
            let sector = self.read(alloc, at)?;
            if sector != ZEROS {
                device.put(alloc, at, &sector)?;
            }
        }
        device.settle()?;
        Ok(device)
    }
}

/// Whether two devices have the same sectors.
pub fn same_sectors(alloc: Global, one: &mut Device, other: &mut Device) -> Result<bool, Wrong> {
    if one.sectors() != other.sectors() {
        return Ok(false);
    }
    for at in 0..one.sectors() {
        if one.read(alloc, at)? != other.read(alloc, at)? {
            return Ok(false);
        }
    }
    Ok(true)
}
