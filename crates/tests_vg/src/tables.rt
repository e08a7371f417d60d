//! Texts, places and changes, worked by hand, by the grammar that is written: a volume's extents are segments, each its first extent
//! and the number of its extents.

use crate::large::large_text;
use crate::texts::{becomes, extents, image, place, written};
use sm_base::Name;
use std::alloc::{AllocError, Global};
use std::process::Abort;
use std::test::Fail;
use tests_support::holds;
use uuid::Uuid;
use vg_meta::{Change, Table, Tag};

/// A new group whose records have 16 extents: the sequence number 1 and one volume, which has the length of its name, the
/// name, no flags, one segment, and of this its first extent and the number of its extents. Its bytes add up to 254.
const NEW: [u8; 29] = [
    0, 0, 0, 0, 0, 0, 0, 1, 0, 0, 0, 1, 3, 0x4d, 0x47, 0x54, 0, 0, 0, 0, 1, 0, 0, 0, 0, 0, 0, 0, 16,
];

/// The text of the records' volume on extents 0 and 1.
const RECORDS: &[u8] = b"\x03MGT\x00\x00\x00\x00\x01\x00\x00\x00\x00\x00\x00\x00\x02";

/// The length of an image's name, and the name.
const IMAGE: &[u8] = b"\x28VHD-11111111-1111-1111-1111-111111111111";

/// The length of a raw image's name, and the name.
const OTHER: &[u8] = b"\x27LV-abababab-abab-abab-abab-abababababab";

/// The length of a journal entry's name, and the name.
const ENTRY: &[u8] =
    b"\x52coalesce_11111111-1111-1111-1111-111111111111_abababab-abab-abab-abab-abababababab";

/// The records' name once more.
const AGAIN: &[u8] = b"\x03MGT";

/// No name.
const CAPITALS: &[u8] = b"\x28VHD-AAAAAAAA-1111-1111-1111-111111111111";

/// What stands behind a name: the flags, the number of segments, and the segments.
const ON_NONE: &[u8] = &[0, 0, 0, 0, 0];

const ON_1: &[u8] = &[0, 0, 0, 0, 1, 0, 0, 0, 1, 0, 0, 0, 1];

const ON_3: &[u8] = &[0, 0, 0, 0, 1, 0, 0, 0, 3, 0, 0, 0, 1];

const ON_3_FRESH: &[u8] = &[2, 0, 0, 0, 1, 0, 0, 0, 3, 0, 0, 0, 1];

const ON_3_MARKED: &[u8] = &[3, 0, 0, 0, 1, 0, 0, 0, 3, 0, 0, 0, 1];

const ON_3_AND_MORE: &[u8] = &[0, 0, 0, 0, 1, 0, 0, 0, 3, 0, 0, 0, 1, 0];

const ON_3_AND_2: &[u8] = &[
    0, 0, 0, 0, 2, 0, 0, 0, 3, 0, 0, 0, 1, 0, 0, 0, 2, 0, 0, 0, 1,
];

const ON_3_AND_2_FRESH: &[u8] = &[
    2, 0, 0, 0, 2, 0, 0, 0, 3, 0, 0, 0, 1, 0, 0, 0, 2, 0, 0, 0, 1,
];

/// On 3, 2, 7 and 5.
const ON_FOUR: &[u8] = &[
    0, 0, 0, 0, 4, 0, 0, 0, 3, 0, 0, 0, 1, 0, 0, 0, 2, 0, 0, 0, 1, 0, 0, 0, 7, 0, 0, 0, 1, 0, 0, 0,
    5, 0, 0, 0, 1,
];

fn other() -> Name {
    Name::Raw(Uuid::from_bytes([0xab; 16]))
}

fn entry() -> Name {
    Name::Coalesce {
        child: Uuid::from_bytes([0x11; 16]),
        parent: Uuid::from_bytes([0xab; 16]),
    }
}

// The sequence number and the number of volumes.
fn front(sequence: u8, volumes: u8) -> [u8; 12] {
    [0, 0, 0, 0, 0, 0, 0, sequence, 0, 0, 0, volumes]
}

// Four pieces, one behind the other.
fn joined(
    alloc: Global,
    first: &[u8],
    second: &[u8],
    third: &[u8],
    fourth: &[u8],
) -> Result<Vec<u8>, AllocError> {
    let mut bytes = first.to_vec(alloc)?;
    bytes.extend_from_slice(second)?;
    bytes.extend_from_slice(third)?;
    bytes.extend_from_slice(fourth)?;
    Ok(bytes)
}

/// A table of the worked text has the records alone.
fn is_read(table: &Table) -> Result<(), Fail> {
    let records = table.get(&Name::Mgt).ok_or("no records")?;
    let all = [0, 1, 2, 3, 4, 5, 6, 7, 8, 9, 10, 11, 12, 13, 14, 15];
    let is_right = table.seq() == 1
        && table.volumes().len() == 1
        && !records.is_hidden()
        && !records.is_fresh()
        && records.extents() == all.as_slice();
    holds(is_right, "the table of the worked text")
}

#[test]
fn a_new_group_in_29_bytes(rt: HostRuntime) -> Result<(), Fail> {
    assert!(rt; NEW.iter().map(|byte| u32::from(*byte)).sum::<u32>() == 254);
    let text = written(rt.alloc(), &Table::formatted(rt.alloc(), 16)?)?;
    assert!(rt; text.as_slice() == NEW.as_slice());
    is_read(&Table::decode(rt.alloc(), &NEW, 16)?)
}

#[test]
fn a_changed_byte_is_found(rt: HostRuntime) {
    assert!(rt; place(rt.alloc(), &NEW, 16).is_none());
    // An extent is not below the number of extents.
    assert!(rt; place(rt.alloc(), &NEW, 15) == Some(12));
    let rows = [
        (1, 1, 0, "a sequence number of 49 bits"),
        (11, 0, 12, "no volume, and bytes behind"),
        (11, 2, 29, "a second volume that is not there"),
        (12, 0, 12, "a name of no bytes"),
        (15, 0x55, 12, "no name"),
        (16, 1, 12, "records that are hidden"),
        (16, 4, 12, "flags 4"),
        (20, 2, 12, "a segment that is not there"),
        (20, 0, 21, "bytes behind the last volume"),
        (24, 1, 12, "a segment that ends too high"),
        (28, 0, 12, "an empty segment"),
        (28, 17, 12, "a segment that is too long"),
    ];
    for (at, byte, want, what) in rows {
        let mut bytes = NEW;
        if at < 29 {
            bytes[at] = byte;
        }
        assert!(rt; place(rt.alloc(), &bytes, 16) == Some(want), "{what}");
    }
}

#[test]
fn a_text_cut_off_is_found(rt: HostRuntime) {
    for (length, want) in [
        (0, 0),
        (7, 0),
        (8, 8),
        (11, 8),
        (12, 12),
        (13, 12),
        (20, 12),
        (28, 12),
    ] {
        let text = &NEW[..NEW.len().min(length)];
        assert!(rt; place(rt.alloc(), text, 16) == Some(want), "of {length}");
    }
}

#[test]
fn a_second_volume_is_judged_by_the_first(rt: HostRuntime) -> Result<(), Fail> {
    let rows = [
        (IMAGE, ON_3, None, "an image"),
        (IMAGE, ON_3_MARKED, None, "an image with both marks"),
        (ENTRY, ON_NONE, None, "a journal entry"),
        (IMAGE, ON_3_AND_MORE, Some(83), "a byte behind"),
        (IMAGE, ON_1, Some(29), "an extent of the first"),
        (IMAGE, ON_NONE, Some(29), "an image of no extents"),
        (ENTRY, ON_3, Some(29), "an entry with an extent"),
        (OTHER, ON_3, Some(29), "a name that falls"),
        (AGAIN, ON_3, Some(29), "the name again"),
        (CAPITALS, ON_3, Some(29), "a name in capitals"),
    ];
    for (name, rest, want, what) in rows {
        let bytes = joined(rt.alloc(), &front(9, 2), RECORDS, name, rest)?;
        assert!(rt; place(rt.alloc(), &bytes, 4) == want, "{what}");
    }
    Ok(())
}

/// The image of a table has both marks and two extents.
fn is_found(table: &Table) -> Result<(), Fail> {
    let found = table.get(&image()).ok_or("no image")?;
    let is_right = table.seq() == 65545
        && table.find(&Name::Mgt) == Some(0)
        && table.find(&image()) == Some(1)
        && table.get(&entry()).is_none()
        && found.name() == image()
        && found.is_hidden()
        && found.is_fresh()
        && found.extents() == [3, 2].as_slice();
    holds(is_right, "the image of the table")
}

#[test]
fn volumes_are_found_by_name(rt: HostRuntime) -> Result<(), Fail> {
    let front = [0, 0, 0, 0, 0, 1, 0, 9, 0, 0, 0, 2];
    let marks = [
        3, 0, 0, 0, 2, 0, 0, 0, 3, 0, 0, 0, 1, 0, 0, 0, 2, 0, 0, 0, 1,
    ];
    let bytes = joined(rt.alloc(), &front, RECORDS, IMAGE, &marks)?;
    is_found(&Table::decode(rt.alloc(), &bytes, 4)?)
}

// A text of the records and one volume more.
fn text(alloc: Global, sequence: u8, name: &[u8], rest: &[u8]) -> Result<Vec<u8>, AllocError> {
    joined(alloc, &front(sequence, 2), RECORDS, name, rest)
}

// A change of the image's volume: before, the change, after.
fn changes(
    rt: &impl Abort,
    alloc: Global,
    before: &[u8],
    change: Change,
    after: &[u8],
) -> Result<(), Fail> {
    let before = text(alloc, 2, IMAGE, before)?;
    let after = text(alloc, 3, IMAGE, after)?;
    becomes(rt, alloc, &before, change, &after)
}

#[test]
fn a_volume_is_changed(rt: HostRuntime) -> Result<(), Fail> {
    let alloc = rt.alloc();
    let name = image();
    let extents = extents(alloc, &[7, 5])?;
    changes(
        &rt,
        alloc,
        ON_3_AND_2,
        Change::Grow { name, extents },
        ON_FOUR,
    )?;
    let cut = Change::Cut {
        name: image(),
        keep: 1,
    };
    changes(&rt, alloc, ON_FOUR, cut, ON_3)?;
    let filled = Change::Mark {
        name: image(),
        tag: Tag::Fresh,
        on: false,
    };
    changes(&rt, alloc, ON_3_AND_2_FRESH, filled, ON_3_AND_2)?;
    let hidden = Change::Mark {
        name: image(),
        tag: Tag::Hidden,
        on: true,
    };
    changes(&rt, alloc, ON_3_FRESH, hidden, ON_3_MARKED)
}

// A volume is made beside the records.
fn is_made(
    rt: &impl Abort,
    alloc: Global,
    change: Change,
    name: &[u8],
    rest: &[u8],
) -> Result<(), Fail> {
    let before = joined(alloc, &front(1, 1), RECORDS, &[], &[])?;
    let after = text(alloc, 2, name, rest)?;
    becomes(rt, alloc, &before, change, &after)
}

#[test]
fn a_volume_is_created(rt: HostRuntime) -> Result<(), Fail> {
    let alloc = rt.alloc();
    let image = Change::Create {
        name: image(),
        fresh: true,
        extents: extents(alloc, &[3, 2])?,
    };
    is_made(&rt, alloc, image, IMAGE, ON_3_AND_2_FRESH)?;
    let journal = Change::Create {
        name: entry(),
        fresh: false,
        extents: extents(alloc, &[])?,
    };
    is_made(&rt, alloc, journal, ENTRY, ON_NONE)
}

#[test]
fn a_volume_gets_another_name_and_back(rt: HostRuntime) -> Result<(), Fail> {
    let alloc = rt.alloc();
    let rename = Change::Rename {
        from: image(),
        to: other(),
    };
    let before = text(alloc, 2, IMAGE, ON_3)?;
    let after = joined(alloc, &front(3, 2), OTHER, ON_3, RECORDS)?;
    becomes(&rt, alloc, &before, rename, &after)?;
    let back = Change::Rename {
        from: other(),
        to: image(),
    };
    becomes(&rt, alloc, &after, back, &text(alloc, 4, IMAGE, ON_3)?)
}

#[test]
fn a_volume_is_removed_and_the_last_sequence_number_stays(rt: HostRuntime) -> Result<(), Fail> {
    let alloc = rt.alloc();
    for (before, after) in [(0xfe, 0xff), (0xff, 0xff)] {
        let front = [0, 0, 0xff, 0xff, 0xff, 0xff, 0xff, before, 0, 0, 0, 2];
        let before = joined(alloc, &front, RECORDS, IMAGE, ON_3)?;
        let front = [0, 0, 0xff, 0xff, 0xff, 0xff, 0xff, after, 0, 0, 0, 1];
        let after = joined(alloc, &front, RECORDS, &[], &[])?;
        becomes(
            &rt,
            alloc,
            &before,
            Change::Remove { name: image() },
            &after,
        )?;
    }
    Ok(())
}

// A change that grows the image 498.
fn grow(alloc: Global, list: &[u32]) -> Result<Change, AllocError> {
    let mut uuid = [0; 16];
    uuid[14] = 0x04;
    uuid[15] = 0x98;
    Ok(Change::Grow {
        name: Name::Vhd(Uuid::from_bytes(uuid)),
        extents: extents(alloc, list)?,
    })
}

// Whether the image 498 may grow by these extents.
fn allows(alloc: Global, table: &Table, list: &[u32]) -> Result<bool, Fail> {
    Ok(table.allows(&grow(alloc, list)?, 1_048_576))
}

// The extents that are left, in rising order.
fn free_extents(alloc: Global) -> Result<Vec<u32>, AllocError> {
    let mut list = Vec::new(alloc);
    for extent in 1_048_568..1_048_576 {
        list.push(extent)?;
    }
    Ok(list)
}

// The table takes these extents in either order, and not one more that it has.
fn takes(alloc: Global, table: &Table, list: &mut Vec<u32>) -> Result<bool, Fail> {
    let rising = allows(alloc, table, list)?;
    list.reverse();
    let falling = allows(alloc, table, list)?;
    list.push(1_048_567)?;
    let more = allows(alloc, table, list)?;
    Ok(rising && falling && !more)
}

/// The largest table takes all extents that are left in either order, and none that it has.
fn is_full(alloc: Global, table: &Table) -> Result<(), Fail> {
    let is_large = table.volumes().len() == 500 && table.length() == 30_967;
    let mut list = free_extents(alloc)?;
    let is_taken = takes(alloc, table, &mut list)?;
    holds(is_large && is_taken, "the largest table")
}

#[test]
fn at_1048576_extents_and_500_volumes(rt: HostRuntime) -> Result<(), Fail> {
    let bytes = large_text(rt.alloc())?;
    let table = Table::decode(rt.alloc(), &bytes, 1_048_576)?;
    is_full(rt.alloc(), &table)?;
    let text = written(rt.alloc(), &table)?;
    assert!(rt; text.as_slice() == bytes.as_slice());
    Ok(())
}
