//! A disk that is read through a chain of three images.

ghost use Rattle.std.specs.Prelude.{◌≡◌, false, IfOk, OnOk};
ghost use Rattle.vg_volumes.specs.Stored.{stored};
ghost use Rattle.vhd_chain.specs.Reading.{AllStand};

use crate::fixtures::{add, volume};
use crate::heads::make_child;
use crate::images::{make, write};
use crate::runs::{Work, run};
use crate::sectors::{CHILD_UID, UID};
use crate::trees::put_opened;
use sm_disk::MemDisk;
use std::alloc::Global;
use std::test::Fail;
use tests_support::{formatted, holds};
use vg_volumes::Store;
use vhd_chain::Tree;

/// The sectors of a device with 80 extents of 32 sectors behind the group's front.
const SECTORS: u64 = 6656;

/// The reads of an opening of the group, and of three images: of each its footer, the header's two sectors and one of the
/// table.
const OPENING_READS: u64 = 3 + 3 * 4;

/// The UUID of the leaf.
const LEAF_UID: [u8; 16] = [
    0x6c, 0x76, 0x68, 0x64, 0, 0, 0x80, 0, 0x80, 0, 0, 0, 0, 0, 0, 4,
];

/// Makes a volume of 19 extents from this one on: 608 sectors, in which 64 slots of 9 sectors have room.
fn add_from<S: Store>(alloc: Global, store: &mut S, byte: u8, from: u32) -> Result<(), Fail>
    requires { S.failed store.old ≡ false }
    ensures { OnOk result (S.failed store.new ≡ false) }
{
    let mut extents = [0; 19];
    for (i, extent) in extents.iter_mut().enumerate() {
        *extent = from.saturating_add(i as u32);
    }
    add(alloc, store, &volume(byte), &extents)
}

/// Makes a base image of 64 sectors, a child of 128 and its child.
fn make_three<S: Store>(alloc: Global, store: &mut S) -> Result<(), Fail>
    requires { S.failed store.old ≡ false }
    ensures { OnOk result (S.failed store.new ≡ false) }
{
    add_from(alloc, store, 1, 16)?;
    add_from(alloc, store, 2, 35)?;
    add_from(alloc, store, 3, 54)?;
    let _base = make(alloc, store, &volume(1), UID, 64)?;
    make_child(alloc, store, &volume(2), CHILD_UID, &volume(1))?;
    make_child(alloc, store, &volume(3), LEAF_UID, &volume(2))?;
    Ok(())
}

/// Makes the chain, and writes a block of the base image, two sectors of it in the next one, and one of it and one of the
/// block behind in the leaf.
pub fn make_chain<S: Store>(alloc: Global, store: &mut S) -> Result<(), Fail>
    requires told { ¬ S.told }
    requires usable { S.failed store.old ≡ false }
{
    make_three(alloc, store)?;
    write(alloc, store, &volume(1), 8, &[0x11; 4096])??;
    write(alloc, store, &volume(2), 10, &[0x22; 1024])??;
    write(alloc, store, &volume(3), 12, &[0x33; 512])??;
    write(alloc, store, &volume(3), 20, &[0x44; 512])??;
    store.sync()?;
    Ok(())
}

/// What the disk has in a sector.
fn wanted(at: u64) -> [u8; 512] {
    match at {
        10 | 11 => [0x22; 512],
        12 => [0x33; 512],
        20 => [0x44; 512],
        8..=15 => [0x11; 512],
        _ => [0; 512],
    }
}

/// The three images of the chain, in memory.
fn tree_of<S: Store>(alloc: Global, store: &mut S) -> Result<Tree, Fail>
    ensures stand { IfOk result (λ tree. AllStand (stored S.Store store.new) tree.rows) }
{
    let mut tree = Tree::new(alloc);
    tree.reserve(3)?;
    put_opened(alloc, store, &mut tree, &volume(2))?;
    put_opened(alloc, store, &mut tree, &volume(3))?;
    put_opened(alloc, store, &mut tree, &volume(1))?;
    Ok(tree)
}

/// Whether these are the sectors of the disk from one on.
fn are_wanted(at: u64, bytes: &[u8]) -> bool {
    for (i, sector) in bytes.chunks(512).enumerate() {
        if sector != wanted(at.saturating_add(i as u64)).as_slice() {
            return false;
        }
    }
    true
}

/// Opens the images, and reads so many sectors of the leaf's disk in one call.
pub fn read_chain<S: Store>(
    alloc: Global,
    store: &mut S,
    at: u64,
    sectors: usize,
) -> Result<(), Fail>
    requires { ¬ S.told }
{
    if sectors == 0 || sectors > 64 || at > 1024 {
        return Err(Fail::from("a few sectors"));
    }
    let tree = tree_of(alloc, store)?;
    let mut bytes = vec![in alloc; 0xee; 512 * sectors]?;
    tree.read(store, &volume(3), at, &mut bytes)?;
    holds(
        are_wanted(at, &bytes),
        "each sector of the image that holds it",
    )
}

/// Reads in a group that is opened for it, and answers how many reads the device saw beside those of the openings.
fn reads_of(alloc: Global, device: &MemDisk, at: u64, sectors: usize) -> Result<u64, Fail> {
    let (untold, _done) = run(alloc, device.left(alloc, &[])?, Work::Read { at, sectors })?;
    Ok(untold.reads.saturating_sub(OPENING_READS))
}

/// Two sectors of the middle image and one of the leaf: three bitmaps and two runs. The whole block and a sector that no
/// image holds: four runs, and the bitmaps of three, two, one, three and one image. Sectors around the end of the base
/// image, in blocks without slots.
fn read_each(alloc: Global, device: &MemDisk) -> Result<(), Fail> {
    for (at, sectors, reads) in [(10, 3, 5), (8, 9, 14), (60, 8, 0), (20, 1, 2)] {
        holds(
            reads_of(alloc, device, at, sectors)? == reads,
            "the reads of one call",
        )?;
    }
    Ok(())
}

#[test]
fn a_chain_of_three_is_read_run_by_run(rt: HostRuntime) -> Result<(), Fail> {
    let (untold, _done) = run(rt.alloc(), formatted(rt.alloc(), SECTORS)?, Work::Chain)?;
    read_each(rt.alloc(), &untold.disk)
}
