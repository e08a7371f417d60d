//! Logs of tracked disks that stand in a store as it is opened. An extent has 32 sectors here, so a raw disk of one extent has one piece, and a volume
//! of one extent has the sectors for its log.

ghost use Rattle.std.specs.Prelude.{◌≡◌, false, IfOk, OnOk};
ghost use Rattle.sm_disk.specs.Held.{IsSettled};
ghost use Rattle.vg_memory.specs.Stores.{area_of, has_failed};

use crate::record_tests::{record, uuid};
use sm_base::{Geometry, Name, OpenFault, Place};
use sm_log::Head;
use sm_mgt::Mgt;
use sm_recover::settle;
use std::alloc::Global;
use std::process::Abort;
use std::test::Fail;
use tests_support::{prepare, size};
use vg_layout::record_extents;
use vg_memory::MemoryStore;
use vg_meta::{Change, Extents};
use vg_volumes::Store;

/// A log that is made by hand: the last byte of its disk's UUID, its extent, whether its volume is new, and what its first sector says.
#[derive(Clone, Copy)]
struct Made {
    disk: u8,
    extent: u32,
    fresh: bool,
    head: Option<Head>,
}

/// A volume of one extent.
fn volume(alloc: Global, name: Name, fresh: bool, extent: u32) -> Result<Change, Fail> {
    let mut list = Vec::new(alloc);
    list.push(extent)?;
    Ok(Change::Create {
        name,
        fresh,
        extents: Extents::new(list),
    })
}

/// Makes a volume of one extent.
fn make<S: Store>(
    alloc: Global,
    store: &mut S,
    name: Name,
    fresh: bool,
    extent: u32,
) -> Result<(), Fail>
    requires usable { S.failed store.old ≡ false }
    requires settled { S.told → IsSettled (S.area store.old) }
    ensures usable { OnOk result (S.failed store.new ≡ false) }
    ensures settled { OnOk result (S.told → IsSettled (S.area store.new)) }
{
    let change = volume(alloc, name, fresh, extent)?;
    prepare(store, &change)?;
    store.commit(change)?;
    Ok(())
}

/// Writes the first sector of a volume, so that it lasts.
fn write_first<S: Store>(store: &mut S, name: &Name, sector: &[u8; 512]) -> Result<(), Fail>
    requires usable { S.failed store.old ≡ false }
    ensures usable { OnOk result (S.failed store.new ≡ false) }
    ensures settled { OnOk result (S.told → IsSettled (S.area store.new)) }
{
    if size(store, name) == 0 {
        return Err(Fail::from("a sector"));
    }
    store.write(name, 0, sector)?;
    store.sync()?;
    Ok(())
}

/// Makes a raw disk of one extent, with its record.
fn make_disk<S: Store>(alloc: Global, store: &mut S, last: u8, extent: u32) -> Result<(), Fail>
    requires usable { S.failed store.old ≡ false }
    requires settled { S.told → IsSettled (S.area store.old) }
    ensures usable { OnOk result (S.failed store.new ≡ false) }
    ensures settled { OnOk result (S.told → IsSettled (S.area store.new)) }
{
    make(alloc, store, Name::Raw(uuid(last)), false, extent)?;
    let row = record(last, b"disk")?;
    if size(store, &Name::Mgt) < 512 {
        return Err(Fail::from("room for the records"));
    }
    let Ok(mut mgt) = Mgt::load(alloc, store) else {
        return Err(Fail::from("sound records"));
    };
    if !mgt.has_room(&row.uuid) {
        return Err(Fail::from("room for a record"));
    }
    mgt.put(store, row)?;
    store.sync()?;
    Ok(())
}

/// Makes a log.
fn make_log<S: Store>(alloc: Global, store: &mut S, made: &Made) -> Result<(), Fail>
    requires usable { S.failed store.old ≡ false }
    requires settled { S.told → IsSettled (S.area store.old) }
    ensures usable { OnOk result (S.failed store.new ≡ false) }
    ensures settled { OnOk result (S.told → IsSettled (S.area store.new)) }
{
    let name = Name::Cbt(uuid(made.disk));
    make(alloc, store, name, made.fresh, made.extent)?;
    match &made.head {
        Some(head) => write_first(store, &name, &head.to_sector()),
        None => Ok(()),
    }
}

/// A store of 24 extents with two disks, and two logs.
fn with_logs(alloc: Global, first: &Made, second: &Made) -> Result<MemoryStore, Fail>
    ensures usable { IfOk result (λ s. has_failed s.course ≡ false) }
    ensures settled { IfOk result (λ s. IsSettled (area_of s)) }
{
    let geometry = Geometry::of(16384, 4096, 4).ok_or("a geometry")?;
    if record_extents(&geometry) > 24 {
        return Err(Fail::from("room for the records"));
    }
    let mut store = MemoryStore::new(alloc, geometry, 24)?;
    make_disk(alloc, &mut store, 1, 16)?;
    make_disk(alloc, &mut store, 2, 17)?;
    make_log(alloc, &mut store, first)?;
    make_log(alloc, &mut store, second)?;
    Ok(store)
}

/// A log of one piece with this tag.
fn log(disk: u8, extent: u32, tag: u64) -> Made {
    Made {
        disk,
        extent,
        fresh: false,
        head: Some(Head {
            tag,
            since: 0,
            pieces: 1,
        }),
    }
}

/// An opening of two disks with these logs keeps in memory and in the table the logs of these disks, of three.
fn keeps(
    rt: &impl Abort,
    alloc: Global,
    first: &Made,
    second: &Made,
    kept: [bool; 3],
) -> Result<(), Fail> {
    let mut store = with_logs(alloc, first, second)?;
    let Ok(memory) = settle(alloc, &mut store) else {
        return Err(Fail::from("an opening"));
    };
    for (last, wanted) in [1_u8, 2, 3].into_iter().zip(kept) {
        assert!(rt; memory.logs.get(&uuid(last)).is_some() == wanted);
        assert!(rt; store.table().get(&Name::Cbt(uuid(last))).is_some() == wanted);
    }
    Ok(())
}

/// An opening of two disks with these logs names the log of this one.
fn names(
    rt: &impl Abort,
    alloc: Global,
    first: &Made,
    second: &Made,
    disk: u8,
) -> Result<(), Fail> {
    let mut store = with_logs(alloc, first, second)?;
    let place = Place::Log {
        name: Name::Cbt(uuid(disk)),
    };
    match settle(alloc, &mut store) {
        Ok(_) => Err(Fail::from("a log that is wrong")),
        Err(fault) => {
            assert!(rt; fault == OpenFault::Damaged { place });
            assert!(rt; store.table().get(&Name::Cbt(uuid(disk))).is_some());
            Ok(())
        }
    }
}

/// Logs that are right stay. One that is new goes, and one whose disk is not there, whatever they hold.
#[test]
fn logs_of_no_use_go(rt: HostRuntime) -> Result<(), Fail> {
    let right = log(1, 18, 0);
    keeps(&rt, rt.alloc(), &right, &log(2, 19, 3), [true, true, false])?;
    let stray = log(3, 19, 900);
    keeps(&rt, rt.alloc(), &right, &stray, [true, false, false])?;
    let fresh = Made {
        fresh: true,
        ..log(2, 19, 0)
    };
    keeps(&rt, rt.alloc(), &right, &fresh, [true, false, false])?;
    let blank = Made {
        fresh: true,
        head: None,
        ..log(2, 19, 0)
    };
    keeps(&rt, rt.alloc(), &right, &blank, [true, false, false])
}

/// A log is wrong whose first sector is no head, that has another number of pieces than its disk, a number that was not yet used, or
/// the tag of an earlier one. The sequence number is 5 here: each volume was made by a commit.
#[test]
fn wrong_logs_are_named(rt: HostRuntime) -> Result<(), Fail> {
    let right = log(1, 18, 3);
    let blank = Made {
        head: None,
        ..log(2, 19, 0)
    };
    names(&rt, rt.alloc(), &right, &blank, 2)?;
    let long = Made {
        head: Some(Head {
            tag: 0,
            since: 0,
            pieces: 2,
        }),
        ..log(2, 19, 0)
    };
    names(&rt, rt.alloc(), &right, &long, 2)?;
    let early = Made {
        head: Some(Head {
            tag: 0,
            since: 5,
            pieces: 1,
        }),
        ..log(2, 19, 0)
    };
    names(&rt, rt.alloc(), &right, &early, 2)?;
    names(&rt, rt.alloc(), &right, &log(2, 19, 5), 2)?;
    names(&rt, rt.alloc(), &right, &log(2, 19, 3), 2)?;
    names(&rt, rt.alloc(), &log(1, 18, 5), &log(2, 19, 5), 1)
}
