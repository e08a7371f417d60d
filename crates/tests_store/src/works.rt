//! What the tests do to a store, each in a store of its own: over both stores by the same calls, and over one of them.

ghost use Rattle.std.specs.Prelude.{◌≡◌, false};

use crate::fixtures::plain;
use crate::journal_tests::{Commit, classes_stand, commit_fails, entries_stand, still_stand};
use crate::place_tests::{keeps_sectors, sectors_stand};
use crate::record_tests::{
    FAULTS, damage_is_told, faults_are_told, is_new, records_keep, twins_are_cleared,
};
use crate::stop_tests::{Left, each_stop_leaves, shows, write_and_commit};
use sm_disk::MemDisk;
use std::alloc::Global;
use std::test::Fail;
use tests_support::{DEVICE_SECTORS, formatted, new_group, opened, stale};
use vg_volumes::Store;

/// What is done to a store.
#[derive(Clone, Copy)]
pub enum Work {
    /// Records are put, freed and read.
    Records,
    /// Two records of one disk are cleared.
    Twins,
    /// Damaged records are told.
    Damage,
    /// Calls on records fail.
    Faults,
    /// Entries are put, turned and dropped.
    Entries,
    /// One entry of each class is put.
    Classes,
    /// They still stand.
    Again,
    /// A commit of an entry fails.
    Fails(Commit),
    /// Sectors of an image are written and read.
    Sectors,
    /// There is nothing but free records.
    New,
    /// A sector of the records is written, and a commit is done or not.
    Write { done: bool },
    /// This stands.
    Shows(Left),
}

/// Does it to a store.
fn perform<S: Store>(alloc: Global, store: &mut S, work: Work) -> Result<(), Fail>
    requires { S.failed store.old ≡ false }
{
    match work {
        Work::Records => records_keep(alloc, store),
        Work::Twins => twins_are_cleared(alloc, store),
        Work::Damage => damage_is_told(alloc, store),
        Work::Faults => faults_are_told(alloc, store),
        Work::Entries => entries_stand(alloc, store),
        Work::Classes => classes_stand(alloc, store),
        Work::Again => still_stand(store),
        Work::Fails(commit) => commit_fails(alloc, store, commit),
        Work::Sectors => keeps_sectors(alloc, store),
        Work::New => is_new(alloc, store),
        Work::Write { done } => write_and_commit(alloc, store, done),
        Work::Shows(left) => shows(store, left),
    }
}

/// Does it in the group on a device, which is handed back.
pub fn in_group(alloc: Global, disk: MemDisk, work: Work) -> Result<MemDisk, Fail> {
    let mut group = opened(alloc, disk)?;
    let done = perform(alloc, &mut group, work);
    let disk = group.into_disk();
    done?;
    Ok(disk)
}

/// Does it in a new store in memory, of which calls fail.
fn in_memory(alloc: Global, failing: &[u64], work: Work) -> Result<(), Fail> {
    let mut store = plain(alloc, failing)?;
    perform(alloc, &mut store, work)
}

#[test]
fn both_stores(rt: HostRuntime) -> Result<(), Fail> {
    let alloc = rt.alloc();
    for work in [Work::Records, Work::Twins, Work::Damage, Work::Entries] {
        in_group(alloc, formatted(alloc, DEVICE_SECTORS)?, work)?;
        in_memory(alloc, &[], work)?;
    }
    Ok(())
}

/// A commit of a store in memory makes two calls, so the second commit's are the calls 2 and 3.
#[test]
fn faults_of_a_store_in_memory_are_told(rt: HostRuntime) -> Result<(), Fail> {
    in_memory(rt.alloc(), &FAULTS, Work::Faults)?;
    for commit in [Commit::Put, Commit::Turn, Commit::Drop] {
        in_memory(rt.alloc(), &[2], Work::Fails(commit))?;
        in_memory(rt.alloc(), &[3], Work::Fails(commit))?;
    }
    Ok(())
}

/// Entries stand once a group is opened again.
fn stand_again(alloc: Global, new: &MemDisk) -> Result<(), Fail> {
    let disk = in_group(alloc, new.left(alloc, &[])?, Work::Classes)?;
    in_group(alloc, disk.left(alloc, &[])?, Work::Again)?;
    Ok(())
}

/// Sectors stand in their extents. An opening makes four calls of the device, a commit four, and a write two, since extents
/// that adjoin are one call: the next call fails.
fn stand_in_extents(alloc: Global, new: &MemDisk) -> Result<(), Fail> {
    let mut disk = new.left(alloc, &[])?;
    disk.fail(alloc, &[10])?;
    let mut after = in_group(alloc, disk, Work::Sectors)?;
    sectors_stand(&mut after)
}

#[test]
fn entries_and_sectors_stand_on_a_device(rt: HostRuntime) -> Result<(), Fail> {
    let new = formatted(rt.alloc(), DEVICE_SECTORS)?;
    stand_again(rt.alloc(), &new)?;
    stand_in_extents(rt.alloc(), &new)
}

/// A device of so many sectors that all held stale bytes, with a new group.
fn stale_group(alloc: Global, sectors: u64) -> Result<MemDisk, Fail> {
    let mut disk = stale(alloc, sectors)?;
    new_group(alloc, &mut disk)??;
    Ok(disk)
}

/// A device with just room has no records, and a commit on one with more room stops at each of its calls.
#[test]
fn stale_devices_have_no_records_and_stand_each_stop(rt: HostRuntime) -> Result<(), Fail> {
    let alloc = rt.alloc();
    let least = stale_group(alloc, 4608)?;
    in_group(alloc, least.left(alloc, &[])?, Work::New)?;
    let new = stale_group(alloc, DEVICE_SECTORS)?;
    each_stop_leaves(alloc, &new)
}
