//! The records of the disks, over both stores by the same calls.

ghost use Rattle.std.specs.Prelude.{◌≡◌, ◌≤◌, ◌<◌, length, IfOk};
ghost use Rattle.sm_base.specs.Names.{IsUuid};
ghost use Rattle.sm_record.specs.Records.{IsRecord};

use sm_base::{Failed, Label, Name, OpenFault, Place};
use sm_mgt::{Mgt, Record};
use std::alloc::Global;
use std::test::Fail;
use tests_support::{holds, size};
use uuid::Uuid;
use vg_volumes::Store;

/// Three disks. Their UUIDs differ in the last byte.
const FIRST: u8 = 1;

const SECOND: u8 = 2;

const THIRD: u8 = 3;

pub fn uuid(last: u8) -> Uuid {
    Uuid::from_bytes([0, 0, 0, 0, 0, 0, 0x40, 0, 0x80, 0, 0, 0, 0, 0, 0, last])
}

/// The sector of the record of the first disk with the label `disk`. Its bytes add up to 1,225.
fn first_sector() -> [u8; 512] {
    let mut sector = [0; 512];
    sector[..8].copy_from_slice(b"LVHDDISK");
    sector[14] = 0x40;
    sector[16] = 0x80;
    sector[23] = FIRST;
    sector[41] = 4;
    sector[42..46].copy_from_slice(b"disk");
    sector[510] = 0x04;
    sector[511] = 0xc9;
    sector
}

/// Sixteen bytes are those of a UUID. The call does nothing.
fn law_uuid(bytes: &[u8])
    requires { length bytes.now ≡ 16 }
    ensures { IsUuid bytes.now }
{
    let _count = bytes.len();
}

/// The record of a disk.
pub fn record(last: u8, label: &[u8]) -> Result<Record, Fail>
    ensures proper { IfOk result IsRecord }
{
    let uuid = uuid(last);
    let label = Label::of(label).ok_or("a label")?;
    if uuid.is_nil() {
        return Err(Fail::from("a UUID"));
    }
    law_uuid(uuid.as_bytes());
    let _text = label.text();
    Ok(Record {
        uuid,
        label,
        origin: None,
        read_only: false,
    })
}

/// Reads the records, where they have their room.
fn load<S: Store>(alloc: Global, store: &mut S) -> Result<Result<Mgt, OpenFault>, Fail> {
    if size(store, &Name::Mgt) < 512 {
        return Err(Fail::from("room for the records"));
    }
    Ok(Mgt::load(alloc, store))
}

/// The records, which are sound.
fn loaded<S: Store>(alloc: Global, store: &mut S) -> Result<Mgt, Fail> {
    match load(alloc, store)? {
        Ok(mgt) => Ok(mgt),
        Err(_) => Err(Fail::from("sound records")),
    }
}

/// Writes the record of a disk.
fn put<S: Store>(
    store: &mut S,
    mgt: &mut Mgt,
    last: u8,
    label: &[u8],
) -> Result<Result<(), Failed>, Fail> {
    let row = record(last, label)?;
    if size(store, &Name::Mgt) < 512 || !mgt.has_room(&row.uuid) {
        return Err(Fail::from("room for a record"));
    }
    Ok(mgt.put(store, row))
}

/// Frees a place.
fn wipe<S: Store>(store: &mut S, mgt: &mut Mgt, place: u32) -> Result<Result<(), Failed>, Fail> {
    if size(store, &Name::Mgt) < 512 || place >= 512 {
        return Err(Fail::from("a place"));
    }
    Ok(mgt.wipe(store, place))
}

/// Frees the places of a disk.
fn clear<S: Store>(store: &mut S, mgt: &mut Mgt, last: u8) -> Result<Result<(), Failed>, Fail> {
    if size(store, &Name::Mgt) < 512 {
        return Err(Fail::from("room for the records"));
    }
    Ok(mgt.clear(store, &uuid(last)))
}

/// Writes a sector of the records by hand.
fn write<S: Store>(store: &mut S, at: u64, sector: &[u8; 512]) -> Result<(), Fail> {
    if at >= size(store, &Name::Mgt) {
        return Err(Fail::from("a sector of the records"));
    }
    store.write(&Name::Mgt, at, sector)?;
    Ok(())
}

/// Reads a sector of the records.
fn read<S: Store>(store: &mut S, at: u64) -> Result<[u8; 512], Fail> {
    if at >= size(store, &Name::Mgt) {
        return Err(Fail::from("a sector of the records"));
    }
    let mut sector = [0xff; 512];
    store.read(&Name::Mgt, at, &mut sector)?;
    Ok(sector)
}

/// Whether a place has the record of this disk with this label.
fn is_at(mgt: &Mgt, place: u32, last: u8, label: &[u8]) -> bool {
    if place >= 512 {
        return false;
    }
    match mgt.at(place) {
        Some(record) => {
            let plain = record.origin.is_none() && !record.read_only;
            plain && record.uuid == uuid(last) && record.label.text() == label
        }
        None => false,
    }
}

/// Whether a disk has the record with this label.
fn is_found(mgt: &Mgt, last: u8, label: &[u8]) -> bool {
    match mgt.find(&uuid(last)) {
        Some(record) => record.uuid == uuid(last) && record.label.text() == label,
        None => false,
    }
}

/// How many places have records.
fn taken(mgt: &Mgt) -> u32 {
    let mut count = 0_u32;
    for place in 0..512 {
        if mgt.at(place).is_some() {
            count = count.saturating_add(1);
        }
    }
    count
}

/// A record goes into the least free place, and one of the same disk over it.
fn are_put<S: Store>(store: &mut S, mgt: &mut Mgt) -> Result<(), Fail> {
    put(store, mgt, FIRST, b"disk")??;
    put(store, mgt, SECOND, b"b")??;
    holds(is_at(mgt, 0, FIRST, b"disk"), "the first place")?;
    holds(is_at(mgt, 1, SECOND, b"b"), "the second place")?;
    holds(read(store, 0)? == first_sector(), "the first sector")?;
    put(store, mgt, FIRST, b"a")??;
    holds(is_at(mgt, 0, FIRST, b"a"), "over the same disk")?;
    holds(is_found(mgt, FIRST, b"a"), "the first disk is found")?;
    holds(
        taken(mgt) == 2 && mgt.count(&uuid(FIRST)) == 1,
        "two records",
    )
}

/// A place that was freed is the least free one again.
fn are_freed<S: Store>(store: &mut S, mgt: &mut Mgt) -> Result<(), Fail> {
    put(store, mgt, THIRD, b"c")??;
    wipe(store, mgt, 0)??;
    holds(mgt.find(&uuid(FIRST)).is_none(), "a place is freed")?;
    holds(read(store, 0)? == [0; 512], "its sector is zeros")?;
    put(store, mgt, FIRST, b"again")??;
    holds(is_at(mgt, 0, FIRST, b"again"), "the least free place")?;
    clear(store, mgt, SECOND)??;
    holds(mgt.count(&uuid(SECOND)) == 0, "a disk is cleared")?;
    holds(read(store, 1)? == [0; 512], "its sector is zeros")?;
    holds(taken(mgt) == 2, "two records")
}

/// What was written is read.
fn are_read<S: Store>(alloc: Global, store: &mut S) -> Result<(), Fail> {
    let again = loaded(alloc, store)?;
    let is_first = is_at(&again, 0, FIRST, b"again");
    let is_third = is_at(&again, 2, THIRD, b"c");
    let is_read = is_first && is_third && taken(&again) == 2;
    holds(is_read, "the first place and the third are read")
}

/// Records are put and freed.
fn are_put_and_freed<S: Store>(store: &mut S, mgt: &mut Mgt) -> Result<(), Fail> {
    holds(taken(mgt) == 0, "no record")?;
    are_put(store, mgt)?;
    are_freed(store, mgt)
}

/// The same, of the records of a store.
fn change_records<S: Store>(alloc: Global, store: &mut S) -> Result<(), Fail> {
    let mut mgt = loaded(alloc, store)?;
    are_put_and_freed(store, &mut mgt)
}

/// Records are put, freed and read.
pub fn records_keep<S: Store>(alloc: Global, store: &mut S) -> Result<(), Fail> {
    change_records(alloc, store)?;
    are_read(alloc, store)?;
    store.sync()?;
    are_read(alloc, store)
}

/// Two records of one disk are found in the least place, and cleared together.
fn are_cleared<S: Store>(store: &mut S, mgt: &mut Mgt) -> Result<(), Fail> {
    holds(mgt.count(&uuid(FIRST)) == 2, "two records of one disk")?;
    holds(is_at(mgt, 2, FIRST, b"disk"), "the least place")?;
    holds(is_at(mgt, 511, FIRST, b"disk"), "the last place")?;
    clear(store, mgt, FIRST)??;
    holds(taken(mgt) == 0, "both are cleared")?;
    holds(read(store, 2)? == [0; 512], "the least sector is zeros")?;
    holds(read(store, 511)? == [0; 512], "the last sector is zeros")
}

/// Two records of one disk are written by hand, found and cleared.
pub fn twins_are_cleared<S: Store>(alloc: Global, store: &mut S) -> Result<(), Fail> {
    write(store, 2, &first_sector())?;
    write(store, 511, &first_sector())?;
    let mut mgt = loaded(alloc, store)?;
    are_cleared(store, &mut mgt)
}

/// The records are refused so.
fn is_refused<S: Store>(
    alloc: Global,
    store: &mut S,
    fault: OpenFault,
    what: &'static str,
) -> Result<(), Fail> {
    let found = load(alloc, store)?.err();
    holds(found == Some(fault), what)
}

/// The records are damaged first in this place.
fn is_damaged_at<S: Store>(alloc: Global, store: &mut S, index: u32) -> Result<(), Fail> {
    let place = Place::Record { index };
    is_refused(
        alloc,
        store,
        OpenFault::Damaged { place },
        "the first damage",
    )
}

/// The first damaged sector is told.
pub fn damage_is_told<S: Store>(alloc: Global, store: &mut S) -> Result<(), Fail> {
    let mut damaged = first_sector();
    damaged[106] = 1;
    write(store, 5, &first_sector())?;
    write(store, 511, &damaged)?;
    is_damaged_at(alloc, store, 511)?;
    write(store, 300, &[1; 512])?;
    is_damaged_at(alloc, store, 300)?;
    write(store, 0, &damaged)?;
    is_damaged_at(alloc, store, 0)
}

/// The calls of `faults_are_told` that fail.
pub const FAULTS: [u64; 5] = [0, 2, 4, 5, 7];

/// A put fails, and memory is as it was, over a free place and over one that is taken.
fn puts_fail<S: Store>(store: &mut S, mgt: &mut Mgt) -> Result<(), Fail> {
    holds(put(store, mgt, FIRST, b"a")? == Err(Failed), "a put")?;
    holds(taken(mgt) == 0, "nothing was put")?;
    put(store, mgt, FIRST, b"a")??;
    let over = put(store, mgt, FIRST, b"b")?;
    holds(over == Err(Failed), "a put over one")?;
    holds(is_at(mgt, 0, FIRST, b"a"), "the record is the old one")
}

/// A wipe and a clear fail, and memory is as it was.
fn wipes_fail<S: Store>(store: &mut S, mgt: &mut Mgt) -> Result<(), Fail> {
    holds(wipe(store, mgt, 0)? == Err(Failed), "a wipe")?;
    holds(is_at(mgt, 0, FIRST, b"a"), "the place is not free")?;
    put(store, mgt, SECOND, b"b")??;
    holds(clear(store, mgt, SECOND)? == Err(Failed), "a clear")?;
    holds(is_at(mgt, 1, SECOND, b"b"), "the disk is not cleared")?;
    clear(store, mgt, SECOND)??;
    holds(taken(mgt) == 1, "one record")
}

/// Both.
fn changes_fail<S: Store>(store: &mut S, mgt: &mut Mgt) -> Result<(), Fail> {
    puts_fail(store, mgt)?;
    wipes_fail(store, mgt)
}

/// Each call fails once, and memory is as it was.
pub fn faults_are_told<S: Store>(alloc: Global, store: &mut S) -> Result<(), Fail> {
    is_refused(alloc, store, OpenFault::Device, "a load")?;
    let mut mgt = loaded(alloc, store)?;
    changes_fail(store, &mut mgt)
}

/// A group has the records alone, on all of its 16 extents, and none of its records is taken.
pub fn is_new<S: Store>(alloc: Global, store: &mut S) -> Result<(), Fail> {
    let is_alone = store.extents() == 16
        && store.table().volumes().len() == 1
        && size(store, &Name::Mgt) == 512;
    holds(is_alone, "512 sectors of records on 16 extents")?;
    holds(taken(&loaded(alloc, store)?) == 0, "free places")
}
