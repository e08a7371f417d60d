//! A write over three blocks stops at each of its calls, or each of them fails once; and the syncs that writes make.

ghost use Rattle.std.specs.Prelude.{◌≡◌, ◌<◌, false, IfOk, OnOk};

use crate::fixtures::{Untold, add, volume};
use crate::images::{make, own, slots, write};
use crate::making_tests::spoil;
use crate::plain::own_sector;
use crate::runs::{Work, run};
use crate::sectors::UID;
use crate::volumes::bytes_of;
use sm_disk::MemDisk;
use std::alloc::Global;
use std::test::Fail;
use tests_support::{CHOICES, DEVICE_SECTORS, OPENING_CALLS, formatted, holds};
use vg_volumes::Store;

/// The extents of the volume, 608 sectors: 64 slots of 9 sectors have room.
const EXTENTS: [u32; 19] = [
    40, 39, 38, 37, 36, 50, 51, 52, 53, 54, 20, 19, 18, 17, 16, 60, 61, 62, 63,
];

/// An opening of the image reads its footer, the header's two sectors and one of the table.
const IMAGE_CALLS: u64 = 4;

/// The calls of the write: it reads the bitmaps of the first two blocks, of which the second lacks bits; writes the bytes of
/// three blocks, and the bitmap of the third, which is new; syncs; reads the first two bitmaps again, writes the one that lacks bits, and
/// one sector of the table.
const WRITE_CALLS: u64 = 11;

/// What the image holds of a sector before the write: of block 1 all sectors, of block 2 three.
fn earlier(at: u64) -> Option<[u8; 512]> {
    match at {
        8..=15 => Some([0x11; 512]),
        16..=18 => Some([0x22; 512]),
        _ => None,
    }
}

/// What it holds after the write of the sectors 12 to 26.
fn later(at: u64) -> Option<[u8; 512]> {
    match at {
        12..=26 => Some([0x33; 512]),
        _ => earlier(at),
    }
}

/// Writes so many sectors, each full of one byte, and answers whether that was done.
pub fn put_sectors<S: Store>(
    alloc: Global,
    store: &mut S,
    at: u64,
    sectors: usize,
    byte: u8,
) -> Result<bool, Fail>
    requires told { ¬ S.told }
    requires usable { S.failed store.old ≡ false }
    ensures { S.failed store.new ≡ false }
{
    let bytes = vec![in alloc; byte; sectors.saturating_mul(512)]?;
    let outcome = write(alloc, store, &volume(1), at, &bytes)?;
    Ok(outcome.is_ok())
}

/// Writes so many sectors, each full of one byte, and syncs.
fn write_and_sync<S: Store>(
    alloc: Global,
    store: &mut S,
    at: u64,
    sectors: usize,
    byte: u8,
) -> Result<(), Fail>
    requires told { ¬ S.told }
    requires usable { S.failed store.old ≡ false }
    ensures { OnOk result (S.failed store.new ≡ false) }
{
    holds(put_sectors(alloc, store, at, sectors, byte)?, "a write")?;
    store.sync()?;
    Ok(())
}

/// Makes the image in a volume of stale bytes, and writes its first sectors.
pub fn fill<S: Store>(alloc: Global, store: &mut S) -> Result<(), Fail>
    requires told { ¬ S.told }
    requires usable { S.failed store.old ≡ false }
{
    let name = volume(1);
    add(alloc, store, &name, &EXTENTS)?;
    spoil(store, &name)?;
    make(alloc, store, &name, UID, 128)?;
    write_and_sync(alloc, store, 8, 8, 0x11)?;
    write_and_sync(alloc, store, 16, 3, 0x22)
}

/// The device with the image, where nothing is pending.
fn filled(alloc: Global) -> Result<MemDisk, Fail> {
    let (untold, _) = run(alloc, formatted(alloc, DEVICE_SECTORS)?, Work::Fill)?;
    Ok(untold.disk.left(alloc, &[])?)
}

/// The sector of the disk whose image these bytes are, by the plain reader.
fn plain(bytes: &[u8], at: u64) -> Result<Option<[u8; 512]>, Fail> {
    if bytes.len() < 512 || bytes.len() > 1 << 30 || at >= 1 << 30 {
        return Err(Fail::from("a volume of few sectors"));
    }
    let Some(sector) = own_sector(bytes, 8, at) else {
        return Ok(None);
    };
    if sector.len() != 512 {
        return Err(Fail::from("a whole sector"));
    }
    let mut copy = [0; 512];
    copy.copy_from_slice(sector);
    Ok(Some(copy))
}

/// Reads each sector of the disk by both readers, the plain one from the bytes of the volume, and compares it with what
/// it was and what it is to be. Where the write is done each is as it is to be.
fn compare_with<S: Store>(
    alloc: Global,
    store: &mut S,
    bytes: &[u8],
    is_done: bool,
) -> Result<(), Fail>
    requires { ¬ S.told }
{
    for at in 0..128 {
        let sector = own(alloc, store, &volume(1), at)?;
        holds(sector == plain(bytes, at)?, "both readers agree")?;
        let is_right = sector == later(at) || !is_done && sector == earlier(at);
        holds(is_right, "the earlier bytes or the later ones")?;
    }
    Ok(())
}

/// Reads the volume, and compares each sector of the disk.
pub fn compare<S: Store>(alloc: Global, store: &mut S, is_done: bool) -> Result<(), Fail>
    requires { ¬ S.told }
{
    let bytes = bytes_of(alloc, store, &volume(1))?;
    compare_with(alloc, store, &bytes, is_done)
}

/// Writes the sectors 12 to 26, and answers whether the write was done. Where it was, all sectors are as they are to be;
/// where a call failed and the device goes on, each is as it was or as it is to be.
pub fn write_and_compare<S: Store>(
    alloc: Global,
    store: &mut S,
    goes_on: bool,
) -> Result<bool, Fail>
    requires told { ¬ S.told }
    requires usable { S.failed store.old ≡ false }
{
    let is_done = put_sectors(alloc, store, 12, 15, 0x33)?;
    if goes_on || is_done {
        compare(alloc, store, is_done)?;
    }
    if is_done {
        let wanted = ([None, Some(0), Some(1), Some(2)], 3);
        holds(
            slots(alloc, store, &volume(1))? == Some(wanted),
            "the least free slots",
        )?;
    }
    Ok(is_done)
}

/// Opens what each of five choices leaves, and compares.
fn compare_all_left(alloc: Global, disk: &MemDisk) -> Result<(), Fail> {
    for choice in CHOICES {
        run(alloc, disk.left(alloc, choice)?, Work::Compare)?;
    }
    Ok(())
}

/// Lets the device fail at one call of the write, and go on or stop there.
fn disturb(alloc: Global, disk: &mut MemDisk, call: u64, goes_on: bool) -> Result<(), Fail> {
    let call = call.saturating_add(OPENING_CALLS + IMAGE_CALLS);
    if goes_on {
        disk.fail(alloc, &[call])?;
    } else {
        disk.stop(call);
    }
    Ok(())
}

/// Writes on a device that fails at one call of the write, or at none, and answers whether the write was done.
fn write_disturbed(
    alloc: Global,
    mut disk: MemDisk,
    call: u64,
    goes_on: bool,
) -> Result<(Untold, bool), Fail> {
    if call < WRITE_CALLS {
        disturb(alloc, &mut disk, call, goes_on)?;
    }
    run(alloc, disk, Work::Write { goes_on })
}

/// Writes on a device that fails at one call of the write, or at none. The caller is told, and where the device stops there
/// each of five choices leaves the image with sectors as they were or as they are to be.
fn write_and_open(alloc: Global, device: &MemDisk, call: u64, goes_on: bool) -> Result<(), Fail> {
    let (untold, is_done) = write_disturbed(alloc, device.left(alloc, &[])?, call, goes_on)?;
    if is_done != (call >= WRITE_CALLS) {
        return Err(Fail::from("the caller is told"));
    }
    if !goes_on {
        compare_all_left(alloc, &untold.disk)?;
    }
    Ok(())
}

/// Stops at each call of the write in turn, and at none.
fn each_stop_leaves(alloc: Global, device: &MemDisk) -> Result<(), Fail> {
    for call in 0..WRITE_CALLS + 1 {
        write_and_open(alloc, device, call, false)?;
    }
    Ok(())
}

#[test]
fn stops_of_a_write_leave_old_sectors_or_new(rt: HostRuntime) -> Result<(), Fail> {
    let device = filled(rt.alloc())?;
    each_stop_leaves(rt.alloc(), &device)
}

/// The syncs of a write of so many sectors, beside the one that the opening of the group makes.
fn syncs_of(alloc: Global, device: &MemDisk, at: u64, sectors: usize) -> Result<u64, Fail> {
    let (untold, is_done) = run(alloc, device.left(alloc, &[])?, Work::Put { at, sectors })?;
    Ok(if is_done { untold.syncs } else { 0 })
}

/// Each call of the write fails in turn, and the device goes on. Then writes three new blocks, sectors that are held, the
/// same in two blocks, and one that is not held in a block with a slot, and counts the syncs with that of the opening.
fn each_fails_or_syncs(alloc: Global, device: &MemDisk) -> Result<(), Fail> {
    for call in 0..WRITE_CALLS {
        write_and_open(alloc, device, call, true)?;
    }
    for (at, sectors, syncs) in [(36, 20, 2), (9, 4, 1), (12, 7, 1), (20, 1, 2)] {
        holds(
            syncs_of(alloc, device, at, sectors)? == syncs,
            "the syncs of a write",
        )?;
    }
    Ok(())
}

#[test]
fn failed_calls_of_a_write_are_told_and_a_write_syncs_once_for_bits_or_slots(
    rt: HostRuntime,
) -> Result<(), Fail> {
    let device = filled(rt.alloc())?;
    each_fails_or_syncs(rt.alloc(), &device)
}
