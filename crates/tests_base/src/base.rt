//! Names, sizes, labels and refusals, worked by hand.

use sm_base::{Geometry, Label, Name, Refusal, base_uuid, is_base};
use std::cmp::Ordering;
use std::process::Abort;
use std::test::Fail;
use uuid::Uuid;

const DISK: &str = "11111111-2222-4333-8444-555555555555";

const BASE: &str = "6c766864-0000-8000-8000-00000000000a";

const TWIN: &str = "01234567-89ab-4cde-8f01-23456789abcd";

fn is_spelled(rt: &impl Abort, name: &Name, text: &str) {
    let mut buffer = [7; 128];
    let length = name.spell(&mut buffer);
    assert!(rt; &buffer[..length] == text.as_bytes(), "{text}");
    assert!(rt; Name::read(text.as_bytes()) == Some(*name), "{text}");
}

/// Names are in the order of their spellings, and not in that of their kinds.
fn has_order(rt: &impl Abort, disk: &Uuid, twin: &Uuid) {
    assert!(rt; Name::Raw(*disk).compare(&Name::Mgt) == Ordering::Less);
    assert!(rt; Name::Vhd(*disk).compare(&Name::Vhd(*twin)) == Ordering::Greater);
}

#[test]
fn names(rt: HostRuntime) -> Result<(), Fail> {
    let disk = Uuid::parse_str(DISK)?;
    let base = Uuid::parse_str(BASE)?;
    let twin = Uuid::parse_str(TWIN)?;
    let rows = [
        (Name::Mgt, "MGT"),
        (Name::Vhd(disk), "VHD-11111111-2222-4333-8444-555555555555"),
        (Name::Raw(twin), "LV-01234567-89ab-4cde-8f01-23456789abcd"),
        (Name::Old(base), "OLD_6c766864-0000-8000-8000-00000000000a"),
        (Name::Cbt(twin), "CBT-01234567-89ab-4cde-8f01-23456789abcd"),
        (
            Name::Clone { disk, base, twin },
            "clone_11111111-2222-4333-8444-555555555555_6c766864-0000-8000-8000-00000000000a_01234567-89ab-4cde-8f01-23456789abcd",
        ),
        (
            Name::Inflate {
                image: disk,
                extents: 1,
            },
            "inflate_11111111-2222-4333-8444-555555555555_1",
        ),
        (
            Name::Inflate {
                image: disk,
                extents: 4_294_967_295,
            },
            "inflate_11111111-2222-4333-8444-555555555555_4294967295",
        ),
        (
            Name::Coalesce {
                child: disk,
                parent: base,
            },
            "coalesce_11111111-2222-4333-8444-555555555555_6c766864-0000-8000-8000-00000000000a",
        ),
        (
            Name::Relink {
                child: base,
                parent: twin,
            },
            "relink_6c766864-0000-8000-8000-00000000000a_01234567-89ab-4cde-8f01-23456789abcd",
        ),
        (
            Name::Leaf {
                leaf: disk,
                parent: base,
            },
            "leaf_11111111-2222-4333-8444-555555555555_6c766864-0000-8000-8000-00000000000a",
        ),
    ];
    for (name, text) in rows {
        is_spelled(&rt, &name, text);
    }
    has_order(&rt, &disk, &twin);
    Ok(())
}

fn spells_no_name(rt: &impl Abort, text: &str) {
    assert!(rt; Name::read(text.as_bytes()).is_none(), "{text}");
}

#[test]
fn texts_that_spell_no_name(rt: HostRuntime) {
    let rows = [
        "",
        "mgt",
        "MGT\n",
        "VHD-ABCDEF01-2222-4333-8444-555555555555",
        "VHD-11111111222243338444555555555555",
        "VHD-{11111111-2222-4333-8444-555555555555}",
        "VHD-11111111-2222-4333-8444-555555555555 ",
        "inflate_11111111-2222-4333-8444-555555555555_0",
        "inflate_11111111-2222-4333-8444-555555555555_01",
        "inflate_11111111-2222-4333-8444-555555555555_+1",
        "inflate_11111111-2222-4333-8444-555555555555_4294967296",
        "coalesce_11111111-2222-4333-8444-555555555555",
    ];
    for text in rows {
        spells_no_name(&rt, text);
    }
}

#[test]
fn base_uuids(rt: HostRuntime) -> Result<(), Fail> {
    let uuid = Uuid::parse_str("6c766864-0000-8000-8000-010203040506")?;
    assert!(rt; base_uuid(0x0102_0304_0506) == uuid);
    assert!(rt; is_base(&uuid));
    let other = Uuid::parse_str("6c766864-0000-8000-8001-010203040506")?;
    assert!(rt; !is_base(&other));
    Ok(())
}

fn has_sizes(rt: &impl Abort, geometry: &Geometry) {
    assert!(rt; geometry.extent == 32 && geometry.block == 8 && geometry.entries == 64);
    let first = geometry.first();
    let sizes = [geometry.thin(0), geometry.thick(128), geometry.thick(512)];
    assert!(rt; first == 4 && sizes == [1, 5, 19]);
}

#[test]
fn geometries(rt: HostRuntime) -> Result<(), Fail> {
    let small = Geometry::of(16384, 4096, 64).ok_or("a geometry")?;
    has_sizes(&rt, &small);
    let rows = [
        (16384, 16384, 1, true),
        (4_194_304, 2_097_152, 1_044_480, true),
        (8192, 4096, 64, false),
        (16385, 4096, 64, false),
        (24576, 4096, 64, false),
        (8_388_608, 4096, 64, false),
        (16384, 2048, 64, false),
        (16384, 12288, 64, false),
        (16384, 32768, 64, false),
        (4_194_304, 4_194_304, 64, false),
        (16384, 4096, 0, false),
        (16384, 4096, 1_044_481, false),
    ];
    for (extent, block, entries, is_one) in rows {
        assert!(rt;
            Geometry::of(extent, block, entries).is_some() == is_one,
            "{extent}/{block}/{entries}"
        );
    }
    Ok(())
}

/// Whether a text is a label, and then the label's text.
fn is_label(text: &[u8]) -> bool {
    Label::of(text).is_some_and(|label| label.text() == text)
}

#[test]
fn labels(rt: HostRuntime) {
    let longest = [b'~'; 64];
    let too_long = [b'a'; 65];
    let rows = [
        (b"!".as_slice(), true),
        (b"disk-1".as_slice(), true),
        (longest.as_slice(), true),
        (b"".as_slice(), false),
        (b"a b".as_slice(), false),
        (b"a\x7f".as_slice(), false),
        (b"\xc3\xa9".as_slice(), false),
        (too_long.as_slice(), false),
    ];
    for (text, is_one) in rows {
        assert!(rt; is_label(text) == is_one);
    }
}

#[test]
fn refusals(rt: HostRuntime) {
    let rows = [
        (Refusal::BadLine, 1),
        (Refusal::ReservedName, 2),
        (Refusal::UnknownDisk, 3),
        (Refusal::NameTaken, 4),
        (Refusal::InUse, 5),
        (Refusal::NotAttached, 6),
        (Refusal::ReadOnly, 7),
        (Refusal::RawDisk, 8),
        (Refusal::Tracked, 20),
        (Refusal::NotTracked, 21),
        (Refusal::OutOfRange, 9),
        (Refusal::BadSize, 10),
        (Refusal::Shrink, 11),
        (Refusal::ChainTooLong { depth: 30 }, 12),
        (Refusal::TooMany { have: 500, need: 1 }, 13),
        (Refusal::SequenceSpent, 14),
        (Refusal::NoSpace { need: 5, free: 3 }, 15),
        (Refusal::NoMemory, 16),
        (Refusal::Differencing, 17),
        (Refusal::BadFile { sector: 0 }, 18),
        (Refusal::Cut { sector: 19 }, 19),
    ];
    for (refusal, number) in rows {
        assert!(rt; refusal.number() == number);
    }
}
