//! A device stops at each call of a commit, and what may be left is opened again: the earlier table stands or the next.

ghost use Rattle.std.specs.Prelude.{◌≡◌, false};

use crate::works::{Work, in_group};
use sm_base::Name;
use sm_disk::MemDisk;
use std::alloc::Global;
use std::test::Fail;
use tests_support::{CHOICES, OPENING_CALLS, holds, prepare, size};
use uuid::Uuid;
use vg_meta::{Change, Extents, Table};
use vg_volumes::Store;

/// The byte that fills a sector of the records before the commit.
const WRITTEN: u8 = 0x77;

/// Which table stands, and what the sector of the records begins with.
#[derive(Clone, Copy)]
pub enum Left {
    Earlier(u8),
    Next(u8),
}

/// The name of the image that the commit makes.
fn image() -> Name {
    Name::Vhd(Uuid::from_bytes([1; 16]))
}

/// The change: an image on the extents 20 and 18, whose table has a text of one sector.
fn change(alloc: Global) -> Result<Change, Fail> {
    let mut extents = Vec::new(alloc);
    extents.extend_from_slice(&[20, 18])?;
    Ok(Change::Create {
        name: image(),
        fresh: true,
        extents: Extents::new(extents),
    })
}

/// Writes a sector of the records and commits the change. The table of memory changes where the commit is done.
pub fn write_and_commit<S: Store>(alloc: Global, store: &mut S, done: bool) -> Result<(), Fail>
    requires { S.failed store.old ≡ false }
{
    if size(store, &Name::Mgt) <= 3 {
        return Err(Fail::from("a sector of the records"));
    }
    store.write(&Name::Mgt, 3, &[WRITTEN; 512])?;
    let change = change(alloc)?;
    prepare(store, &change)?;
    let is_done = store.commit(change).is_ok();
    holds(is_done == done, "a commit makes four calls")?;
    holds(is_next(store.table())? == done, "the table of memory")
}

/// Which table this is: that of a new group, or the one that the change makes of it.
fn is_next(table: &Table) -> Result<bool, Fail> {
    match table.get(&image()) {
        Some(volume) => {
            holds(
                table.seq() == 2 && table.volumes().len() == 2,
                "the next table",
            )?;
            holds(volume.extents() == [20, 18].as_slice(), "its extents")?;
            Ok(true)
        }
        None => {
            holds(
                table.seq() == 1 && table.volumes().len() == 1,
                "the earlier table",
            )?;
            Ok(false)
        }
    }
}

/// A group has the table that is to stand, and its sector of the records begins with the byte.
pub fn shows<S: Store>(store: &mut S, left: Left) -> Result<(), Fail> {
    let (next, byte) = match left {
        Left::Earlier(byte) => (false, byte),
        Left::Next(byte) => (true, byte),
    };
    holds(is_next(store.table())? == next, "the table that stands")?;
    if size(store, &Name::Mgt) <= 3 {
        return Err(Fail::from("a sector of the records"));
    }
    let mut sector = [0xff; 512];
    store.read(&Name::Mgt, 3, &mut sector)?;
    holds(sector[0] == byte, "the sector of the records")
}

/// What the five choices leave of a commit that stopped at this one of its calls. Until the first sync the sectors of the
/// text and of the records are pending, in this order; after it that of the header alone; and after the second sync none.
fn wanted(call: u64) -> [Left; 5] {
    let old = Left::Earlier(0);
    let new = Left::Earlier(WRITTEN);
    let next = Left::Next(WRITTEN);
    match call {
        0 | 1 => [old, new, new, old, new],
        2 | 3 => [new, next, new, next, next],
        _ => [next; 5],
    }
}

/// What each choice leaves of a device shows what it is to show.
fn all_show(alloc: Global, disk: &MemDisk, lefts: &[Left; 5]) -> Result<(), Fail> {
    for (choice, left) in CHOICES.iter().zip(lefts) {
        in_group(alloc, disk.left(alloc, choice)?, Work::Shows(*left))?;
    }
    Ok(())
}

/// Stops at one call of a commit. Both calls before are the opening's and the write's.
fn stop_leaves(alloc: Global, new: &MemDisk, call: u64) -> Result<(), Fail> {
    let mut disk = new.left(alloc, &[])?;
    disk.stop(OPENING_CALLS.saturating_add(1).saturating_add(call));
    let done = call >= 4;
    let after = in_group(alloc, disk, Work::Write { done })?;
    all_show(alloc, &after, &wanted(call))
}

/// Stops at each call of a commit in turn.
pub fn each_stop_leaves(alloc: Global, new: &MemDisk) -> Result<(), Fail> {
    for call in 0..5 {
        stop_leaves(alloc, new, call)?;
    }
    Ok(())
}
