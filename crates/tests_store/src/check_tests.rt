//! Tables that are refused behind the volume group's own checks. An extent has 32 sectors here, so the volume of records
//! has 16 extents, and a block has 8 sectors.

ghost use Rattle.std.specs.Prelude.{◌≡◌, false, IfOk, OnOk};
ghost use Rattle.sm_disk.specs.Held.{IsSettled};
ghost use Rattle.vg_memory.specs.Stores.{area_of, has_failed};

use sm_base::{Geometry, Name, OpenFault, Place};
use sm_recover::settle;
use std::alloc::Global;
use std::process::Abort;
use std::test::Fail;
use tests_support::prepare;
use uuid::Uuid;
use vg_layout::record_extents;
use vg_memory::MemoryStore;
use vg_meta::{Change, Extents, Tag};
use vg_volumes::Store;

/// A change of a table.
#[derive(Clone, Copy)]
enum Step {
    /// None.
    Nothing,
    /// A volume is made, with one extent or none.
    Make {
        name: Name,
        fresh: bool,
        extent: Option<u32>,
    },
    /// An image is hidden.
    Hide {
        name: Name,
    },
}

fn change_of(alloc: Global, step: &Step) -> Result<Option<Change>, Fail> {
    Ok(match step {
        Step::Nothing => None,
        Step::Make {
            name,
            fresh,
            extent,
        } => {
            let mut list = Vec::new(alloc);
            if let Some(extent) = extent {
                list.push(*extent)?;
            }
            Some(Change::Create {
                name: *name,
                fresh: *fresh,
                extents: Extents::new(list),
            })
        }
        Step::Hide { name } => Some(Change::Mark {
            name: *name,
            tag: Tag::Hidden,
            on: true,
        }),
    })
}

/// Does a change.
fn act<S: Store>(alloc: Global, store: &mut S, step: &Step) -> Result<(), Fail>
    requires usable { S.failed store.old ≡ false }
    requires settled { S.told → IsSettled (S.area store.old) }
    ensures usable { OnOk result (S.failed store.new ≡ false) }
    ensures settled { OnOk result (S.told → IsSettled (S.area store.new)) }
{
    match change_of(alloc, step)? {
        Some(change) => {
            prepare(store, &change)?;
            store.commit(change)?;
            Ok(())
        }
        None => Ok(()),
    }
}

/// What is answered once three changes were done.
fn answer<S: Store>(
    alloc: Global,
    store: &mut S,
    steps: &[Step; 3],
) -> Result<Option<OpenFault>, Fail>
    requires usable { S.failed store.old ≡ false }
    requires settled { S.told → IsSettled (S.area store.old) }
{
    let [first, second, third] = steps;
    act(alloc, store, first)?;
    act(alloc, store, second)?;
    act(alloc, store, third)?;
    match settle(alloc, store) {
        Ok(_records) => Ok(None),
        Err(fault) => Ok(Some(fault)),
    }
}

/// A new store of 24 extents, with block allocation tables of so many entries.
fn new(alloc: Global, entries: u64) -> Result<MemoryStore, Fail>
    ensures usable { IfOk result (λ s. has_failed s.course ≡ false) }
    ensures settled { IfOk result (λ s. IsSettled (area_of s)) }
{
    let geometry = Geometry::of(16384, 4096, entries).ok_or("a geometry")?;
    if record_extents(&geometry) > 24 {
        return Err(Fail::from("room for the records"));
    }
    Ok(MemoryStore::new(alloc, geometry, 24)?)
}

/// Three changes of a new store are answered so.
fn answers(
    rt: &impl Abort,
    alloc: Global,
    entries: u64,
    steps: &[Step; 3],
    wanted: Option<OpenFault>,
) -> Result<(), Fail> {
    let mut store = new(alloc, entries)?;
    let found = answer(alloc, &mut store, steps)?;
    assert!(rt; found == wanted);
    Ok(())
}

fn first() -> Uuid {
    Uuid::from_bytes([0, 0, 0, 0, 0, 0, 0x40, 0, 0x80, 0, 0, 0, 0, 0, 0, 1])
}

/// The UUID of a base image that was made at this sequence number.
fn base(number: u8) -> Uuid {
    Uuid::from_bytes([
        0x6c, 0x76, 0x68, 0x64, 0, 0, 0x80, 0, 0x80, 0, 0, 0, 0, 0, 0, number,
    ])
}

/// A raw image of one extent.
fn make(uuid: Uuid) -> Step {
    Step::Make {
        name: Name::Raw(uuid),
        fresh: false,
        extent: Some(16),
    }
}

fn hide() -> Step {
    Step::Hide {
        name: Name::Raw(first()),
    }
}

fn entry() -> Name {
    Name::Coalesce {
        child: first(),
        parent: base(1),
    }
}

fn journal() -> Step {
    Step::Make {
        name: entry(),
        fresh: false,
        extent: None,
    }
}

fn damaged(place: Place) -> Option<OpenFault> {
    Some(OpenFault::Damaged { place })
}

fn image(uuid: Uuid) -> Option<OpenFault> {
    damaged(Place::Image {
        name: Name::Raw(uuid),
    })
}

fn disk(uuid: Uuid) -> Option<OpenFault> {
    damaged(Place::Disk { uuid })
}

/// Four entries of 8 sectors are one extent. A new image is none that counts. A disk has a record.
#[test]
fn sizes(rt: HostRuntime) -> Result<(), Fail> {
    let fresh = Step::Make {
        name: Name::Raw(first()),
        fresh: true,
        extent: Some(16),
    };
    let new = [fresh, Step::Nothing, Step::Nothing];
    answers(&rt, rt.alloc(), 3, &new, None)?;
    let alone = [make(first()), Step::Nothing, Step::Nothing];
    answers(&rt, rt.alloc(), 3, &alone, image(first()))?;
    answers(&rt, rt.alloc(), 4, &alone, disk(first()))?;
    let hidden = [make(first()), hide(), Step::Nothing];
    answers(&rt, rt.alloc(), 4, &hidden, None)
}

/// The sequence number is 2 once a base image is made, so the number in its UUID is at most 1.
#[test]
fn base_images(rt: HostRuntime) -> Result<(), Fail> {
    let early = [make(base(1)), Step::Nothing, Step::Nothing];
    answers(&rt, rt.alloc(), 4, &early, disk(base(1)))?;
    let late = [make(base(2)), Step::Nothing, Step::Nothing];
    answers(&rt, rt.alloc(), 4, &late, image(base(2)))
}

/// Two images of one UUID are looked at before the entries, and these before the images.
#[test]
fn order(rt: HostRuntime) -> Result<(), Fail> {
    let twin = Step::Make {
        name: Name::Vhd(first()),
        fresh: false,
        extent: Some(17),
    };
    let twins = [make(first()), twin, journal()];
    answers(&rt, rt.alloc(), 4, &twins, image(first()))?;
    let ahead = damaged(Place::Journal { name: entry() });
    answers(
        &rt,
        rt.alloc(),
        4,
        &[make(first()), hide(), journal()],
        ahead,
    )
}

/// The entry of a fork whose base was made at this sequence number.
fn fork(number: u8) -> Name {
    Name::Clone {
        disk: first(),
        base: base(number),
        twin: Uuid::from_bytes([0, 0, 0, 0, 0, 0, 0x40, 0, 0x80, 0, 0, 0, 0, 0, 0, 2]),
    }
}

fn forking(number: u8) -> Step {
    Step::Make {
        name: fork(number),
        fresh: false,
        extent: None,
    }
}

/// A fork stands at a stage where the disk's image is visible, or where the base is there in its place: then what is wanting is the
/// disk's record alone. It stands at none where the disk's image is hidden, nor where its base is still to come.
#[test]
fn forks(rt: HostRuntime) -> Result<(), Fail> {
    let begun = [make(first()), forking(1), Step::Nothing];
    answers(&rt, rt.alloc(), 4, &begun, disk(first()))?;
    let renamed = [make(base(1)), forking(1), Step::Nothing];
    answers(&rt, rt.alloc(), 4, &renamed, disk(first()))?;
    let lost = damaged(Place::Journal { name: fork(1) });
    let hidden = [make(first()), hide(), forking(1)];
    answers(&rt, rt.alloc(), 4, &hidden, lost)?;
    let late = damaged(Place::Journal { name: fork(9) });
    answers(
        &rt,
        rt.alloc(),
        4,
        &[make(first()), forking(9), Step::Nothing],
        late,
    )
}
