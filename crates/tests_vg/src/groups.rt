//! A group on a device in memory: its formatting in either layout, its opening, and how one of version 1 is taken over.

use crate::listed::NEW;
use crate::sectors::{HEADER, LABEL, OLD_HEADER, OLD_LABEL, REPOSITORY, TEXT, WIDE_LABEL, sector};
use sm_base::{Failed, OpenFault};
use sm_disk::{Disk, MemDisk, read_sector, write_sector};
use std::alloc::Global;
use std::test::Fail;
use tests_support::{
    CHOICES, DEVICE_SECTORS, OPENING_CALLS, STALE, formatted, holds, new_group, stale,
};
use uuid::Uuid;
use vg_store::{FormatFault, Formatted, Group, Store};

/// The sectors of a device with 65,537 extents of 32 sectors behind the 37,376 of the wide layout's front.
const WIDE_SECTORS: u64 = 2_134_560;

/// The sectors from one place to before another are this one.
fn stands(disk: &mut MemDisk, from: u64, end: u64, want: &[u8; 512]) -> Result<(), Fail> {
    for at in from..end {
        if at >= disk.sectors() || read_sector(disk, at)? != *want {
            return Err(Fail::new(format_args!("sector {at}")));
        }
    }
    Ok(())
}

/// The worked bytes stand on a device, all records are free, and what is beside them is stale.
fn is_new(disk: &mut MemDisk) -> Result<(), Fail> {
    stands(disk, 0, 1, &sector(&LABEL))?;
    stands(disk, 1, 2050, &[STALE; 512])?;
    stands(disk, 2050, 2051, &sector(&HEADER))?;
    stands(disk, 2051, 2052, &sector(&TEXT))?;
    stands(disk, 2052, 4096, &[STALE; 512])?;
    stands(disk, 4096, 4608, &[0; 512])?;
    stands(disk, 4608, 6144, &[STALE; 512])
}

/// A format of a device gives these extents, or is refused.
fn is_formatted(
    alloc: Global,
    disk: &mut MemDisk,
    want: Result<Formatted, FormatFault>,
) -> Result<(), Fail> {
    holds(new_group(alloc, disk)? == want, "a format")
}

#[test]
fn a_stale_device_is_formatted(rt: HostRuntime) -> Result<(), Fail> {
    let mut disk = stale(rt.alloc(), DEVICE_SECTORS)?;
    let new = Formatted {
        extents: 64,
        free: 48,
    };
    is_formatted(rt.alloc(), &mut disk, Ok(new))?;
    is_new(&mut disk.left(rt.alloc(), &[])?)
}

/// Sectors beside those that a format of a wide device writes.
const BESIDE: [u64; 9] = [1, 2049, 2051, 4095, 4097, 20_736, 37_375, 37_888, 2_134_559];

/// Writes stale bytes into sectors of a device.
fn make_stale(disk: &mut MemDisk, places: &[u64]) -> Result<(), Fail> {
    for at in places {
        if *at < disk.sectors() {
            write_sector(disk, *at, &[STALE; 512])?;
        }
    }
    Ok(())
}

/// A wide device, stale beside what a format writes and in two records.
fn stale_wide(alloc: Global) -> Result<MemDisk, Fail> {
    let mut disk = MemDisk::new(alloc, WIDE_SECTORS)?;
    make_stale(&mut disk, &BESIDE)?;
    make_stale(&mut disk, &[37_376, 37_887])?;
    disk.sync()?;
    Ok(disk)
}

/// The worked bytes stand on a wide device, the records are free, and what is beside them is stale.
fn is_new_and_wide(disk: &mut MemDisk) -> Result<(), Fail> {
    stands(disk, 0, 1, &sector(&WIDE_LABEL))?;
    stands(disk, 2050, 2051, &sector(&HEADER))?;
    stands(disk, 4096, 4097, &sector(&TEXT))?;
    stands(disk, 37_376, 37_888, &[0; 512])?;
    for at in BESIDE {
        stands(disk, at, at.saturating_add(1), &[STALE; 512])?;
    }
    Ok(())
}

#[test]
fn a_wide_device_is_formatted(rt: HostRuntime) -> Result<(), Fail> {
    let mut disk = stale_wide(rt.alloc())?;
    let new = Formatted {
        extents: 65_537,
        free: 65_521,
    };
    is_formatted(rt.alloc(), &mut disk, Ok(new))?;
    let mut disk = disk.left(rt.alloc(), &[])?;
    is_new_and_wide(&mut disk)?;
    let mut group = Group::open(rt.alloc(), disk).map_err(|_| "a wide group")?;
    let shown = shows(&mut group, 65_537, 2);
    let _disk = group.into_disk();
    shown
}

#[test]
fn a_device_without_room(rt: HostRuntime) -> Result<(), Fail> {
    let small = FormatFault::TooSmall { sectors: 4608 };
    let just = Formatted {
        extents: 16,
        free: 0,
    };
    for (sectors, want) in [(0, Err(small)), (4607, Err(small)), (4608, Ok(just))] {
        let mut disk = MemDisk::new(rt.alloc(), sectors)?;
        is_formatted(rt.alloc(), &mut disk, want)?;
    }
    Ok(())
}

/// An opening answers this in place of a group.
fn is_refused(alloc: Global, disk: MemDisk, want: OpenFault) -> Result<(), Fail> {
    match Group::open(alloc, disk) {
        Ok(group) => {
            let _disk = group.into_disk();
            Err(Fail::from("a device that is refused"))
        }
        Err((fault, _disk)) => holds(fault == want, "why a device is refused"),
    }
}

#[test]
fn a_fault_of_the_device(rt: HostRuntime) -> Result<(), Fail> {
    let blank = MemDisk::new(rt.alloc(), 8)?;
    is_refused(rt.alloc(), blank, OpenFault::NotARepository)?;
    let mut disk = formatted(rt.alloc(), 4672)?;
    disk.stop(1);
    is_refused(rt.alloc(), disk, OpenFault::Device)
}

/// The sizes of a new group of so many extents, its version and its table.
fn shows<S: Store>(store: &mut S, extents: u32, version: u32) -> Result<(), Fail> {
    let is_right = store.extents() == extents
        && store.geometry().extent == 32
        && store.version() == version
        && store.repository() == Uuid::from_bytes(REPOSITORY)
        && store.table().seq() == 1
        && store.table().volumes().len() == 1;
    holds(is_right, "a new group")
}

/// Room that was asked for and not used is not asked for again.
pub fn asks_often<S: Store>(store: &mut S) -> Result<(), Fail> {
    for _ in 0..500 {
        store.reserve_rows(1)?;
    }
    holds(store.table().spare() <= 16, "few rows to spare")
}

/// Both, of a group.
fn shows_and_asks<S: Store>(store: &mut S) -> Result<(), Fail> {
    shows(store, 18, 2)?;
    asks_often(store)
}

#[test]
fn a_new_group_is_opened(rt: HostRuntime) -> Result<(), Fail> {
    let disk = formatted(rt.alloc(), 4672)?;
    let mut group = Group::open(rt.alloc(), disk).map_err(|_| "a group")?;
    let shown = shows_and_asks(&mut group);
    let disk = group.into_disk();
    shown?;
    holds(disk.sectors() == 4672, "the device")
}

/// The first sector of a slot with the text of a new group of version 1.
fn old_text() -> [u8; 512] {
    let mut text = [0; 512];
    text[..85].copy_from_slice(&NEW);
    text
}

/// A device with a new repository of version 1 on it: its label, its header, its text in slot 0, and free records. Nothing is
/// pending, and no call was counted.
fn old(alloc: Global, mut disk: MemDisk) -> Result<MemDisk, Fail> {
    let front = [
        (0, sector(&OLD_LABEL)),
        (1, sector(&OLD_HEADER)),
        (2, old_text()),
    ];
    for (at, sector) in &front {
        if *at < disk.sectors() {
            write_sector(&mut disk, *at, sector)?;
        }
    }
    for at in 4096..4608 {
        if at < disk.sectors() {
            write_sector(&mut disk, at, &[0; 512])?;
        }
    }
    disk.sync()?;
    Ok(disk.left(alloc, &[])?)
}

/// It is shown as it stands, and taken over: then it shows the same, of version 2. A second time nothing is to be done.
fn is_taken_over<S: Store>(store: &mut S) -> Result<(), Fail> {
    shows(store, 64, 1)?;
    store.upgrade()?;
    shows(store, 64, 2)?;
    store.upgrade()?;
    shows(store, 64, 2)
}

/// The worked bytes of version 2 stand on the device, behind its header and its text the old header, the old text and the records.
fn is_over(disk: &mut MemDisk) -> Result<(), Fail> {
    stands(disk, 0, 1, &sector(&LABEL))?;
    stands(disk, 1, 2, &sector(&OLD_HEADER))?;
    stands(disk, 2, 3, &old_text())?;
    stands(disk, 3, 2050, &[STALE; 512])?;
    stands(disk, 2050, 2051, &sector(&HEADER))?;
    stands(disk, 2051, 2052, &sector(&TEXT))?;
    stands(disk, 2052, 4096, &[STALE; 512])?;
    stands(disk, 4096, 4608, &[0; 512])?;
    stands(disk, 4608, 6144, &[STALE; 512])
}

#[test]
fn a_repository_of_version_1_is_taken_over(rt: HostRuntime) -> Result<(), Fail> {
    let disk = old(rt.alloc(), stale(rt.alloc(), DEVICE_SECTORS)?)?;
    let mut group = Group::open(rt.alloc(), disk).map_err(|_| "a group of version 1")?;
    let taken = is_taken_over(&mut group);
    let disk = group.into_disk();
    taken?;
    is_over(&mut disk.left(rt.alloc(), &[])?)
}

/// A device of version 1 is opened, and its taking over stops at one of its five calls: the text, the header, a sync, the label
/// and a sync. What it left by a choice.
fn stopped(alloc: Global, call: u64, choice: &[u32]) -> Result<MemDisk, Fail> {
    let mut disk = old(alloc, MemDisk::new(alloc, DEVICE_SECTORS)?)?;
    disk.stop(OPENING_CALLS.saturating_add(call));
    let mut group = Group::open(alloc, disk).map_err(|_| "a group that stops")?;
    let done = group.upgrade();
    let still = shows(&mut group, 64, 1);
    let disk = group.into_disk();
    still?;
    holds(done == Err(Failed), "a taking over that stops")?;
    Ok(disk.left(alloc, choice)?)
}

/// Before the label is written it left version 1, from then on either version, with the same table.
fn is_either(alloc: Global, call: u64, choice: &[u32]) -> Result<(), Fail> {
    let disk = stopped(alloc, call, choice)?;
    let mut group = Group::open(alloc, disk).map_err(|_| "a group that was left")?;
    let version = group.version();
    let shown = shows(&mut group, 64, version);
    let _disk = group.into_disk();
    shown?;
    holds(version == 1 || (version == 2 && call >= 3), "the version")
}

#[test]
fn a_taking_over_that_stops(rt: HostRuntime) -> Result<(), Fail> {
    for call in 0..5 {
        for choice in CHOICES {
            is_either(rt.alloc(), call, choice)?;
        }
    }
    Ok(())
}
