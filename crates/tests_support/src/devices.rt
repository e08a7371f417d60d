//! Devices in memory, and new groups on them.

use sm_base::Geometry;
use sm_disk::{Disk, MemDisk, write_sector};
use std::alloc::Global;
use std::test::Fail;
use uuid::Uuid;
use vg_store::{FormatFault, Formatted, format};

/// The repository of the groups.
pub const REPOSITORY: [u8; 16] = [
    0x99, 0x99, 0x99, 0x99, 0x99, 0x99, 0x49, 0x99, 0x89, 0x99, 0x99, 0x99, 0x99, 0x99, 0x99, 0x99,
];

/// The sectors of a device with 64 extents of 32 sectors behind the group's front of 4,096.
pub const DEVICE_SECTORS: u64 = 6144;

/// An opening of a group makes four calls of the device: a sync, and a read of the label, the header and the text each.
pub const OPENING_CALLS: u64 = 4;

/// Each byte of a stale device.
pub const STALE: u8 = 0xee;

/// By which choices a test stops a device: of each place with pending sectors which of them lasts, counted from 1, in turn.
pub const CHOICES: [&[u32]; 5] = [&[], &[1], &[0, 1], &[1, 0], &[3]];

/// Whether something is so; where it is not, the test that asks has failed.
pub fn holds(is: bool, what: &'static str) -> Result<(), Fail> {
    if is { Ok(()) } else { Err(Fail::from(what)) }
}

/// Extents of 32 sectors, blocks of 8, and so 16 extents of records; 64 entries.
pub fn geometry() -> Result<Geometry, Fail> {
    Ok(Geometry::of(16_384, 4096, 64).ok_or("a geometry")?)
}

/// Writes stale bytes into the sectors of a device from this one on, and syncs.
pub fn spoil(disk: &mut MemDisk, from: u64) -> Result<(), Fail> {
    for at in from..disk.sectors() {
        if at < disk.sectors() {
            write_sector(disk, at, &[STALE; 512])?;
        }
    }
    disk.sync()?;
    Ok(())
}

/// A device of so many sectors, each of them full of stale bytes.
pub fn stale(alloc: Global, sectors: u64) -> Result<MemDisk, Fail> {
    let mut disk = MemDisk::new(alloc, sectors)?;
    spoil(&mut disk, 0)?;
    Ok(disk)
}

/// Makes a new group of a device.
pub fn new_group(
    alloc: Global,
    disk: &mut MemDisk,
) -> Result<Result<Formatted, FormatFault>, Fail> {
    let repository = Uuid::from_bytes(REPOSITORY);
    Ok(format(alloc, disk, geometry()?, repository))
}

/// A device of so many sectors with a new group, on which nothing is pending and no call was counted.
pub fn formatted(alloc: Global, sectors: u64) -> Result<MemDisk, Fail> {
    let mut disk = MemDisk::new(alloc, sectors)?;
    new_group(alloc, &mut disk)??;
    Ok(disk.left(alloc, &[])?)
}
