//! Texts of version 1, worked by hand: a volume's extents are listed.

use std::alloc::Global;
use std::test::Fail;
use tests_support::holds;
use vg_meta::{DecodeFault, Grammar, Table};

/// A new group whose records have 16 extents: the sequence number 1 and one volume, which has the length of
/// its name, the name, no flags, the number of its extents, and these. Its bytes add up to 373.
pub const NEW: [u8; 85] = [
    0, 0, 0, 0, 0, 0, 0, 1, 0, 0, 0, 1, 3, 0x4d, 0x47, 0x54, 0, 0, 0, 0, 16, 0, 0, 0, 0, 0, 0, 0,
    1, 0, 0, 0, 2, 0, 0, 0, 3, 0, 0, 0, 4, 0, 0, 0, 5, 0, 0, 0, 6, 0, 0, 0, 7, 0, 0, 0, 8, 0, 0, 0,
    9, 0, 0, 0, 10, 0, 0, 0, 11, 0, 0, 0, 12, 0, 0, 0, 13, 0, 0, 0, 14, 0, 0, 0, 15,
];

/// The same by segments.
const SEGMENTED: [u8; 29] = [
    0, 0, 0, 0, 0, 0, 0, 1, 0, 0, 0, 1, 3, 0x4d, 0x47, 0x54, 0, 0, 0, 0, 1, 0, 0, 0, 0, 0, 0, 0, 16,
];

/// The sequence number 9 and two volumes, of which the first has the records on extents 0 and 1: 29 bytes.
const RECORDS: &[u8] =
    b"\x00\x00\x00\x00\x00\x00\x00\x09\x00\x00\x00\x02\x03MGT\x00\x00\x00\x00\x02\x00\x00\x00\x00\x00\x00\x00\x01";

/// The length of an image's name, and the name.
const IMAGE: &[u8] = b"\x28VHD-11111111-1111-1111-1111-111111111111";

/// Where bytes are damaged, or `None` where they spell a table.
fn place(alloc: Global, bytes: &[u8], extents: u32) -> Option<u32> {
    match Table::decode_by(alloc, Grammar::Listed, bytes, extents) {
        Err(DecodeFault::Damaged { at }) => Some(at),
        Ok(_) | Err(DecodeFault::NoMemory) => None,
    }
}

/// The table of a text is written as that text, in front of bytes that stay.
fn is_written_again(alloc: Global, text: &[u8], extents: u32) -> Result<(), Fail> {
    let table = Table::decode_by(alloc, Grammar::Listed, text, extents)?;
    let mut bytes = text.to_vec(alloc)?;
    bytes.fill(0xff);
    bytes.push(0xfe)?;
    let length = table.encode_by(Grammar::Listed, &mut bytes);
    let is_right = length == text.len() && bytes.starts_with(text) && bytes.ends_with(&[0xfe]);
    holds(is_right, "the text of a table")
}

#[test]
fn a_new_group_in_85_bytes(rt: HostRuntime) -> Result<(), Fail> {
    assert!(rt; NEW.iter().map(|byte| u32::from(*byte)).sum::<u32>() == 373);
    is_written_again(rt.alloc(), &NEW, 16)
}

#[test]
fn a_text_of_the_other_grammar_is_damaged(rt: HostRuntime) {
    // One extent, 0, and 4 bytes behind the volume.
    assert!(rt; place(rt.alloc(), &SEGMENTED, 16) == Some(25));
    // The second of 16 segments begins with extent 2 and has 3, the third begins with extent 4.
    let segmented = Table::decode(rt.alloc(), &NEW, 16);
    assert!(rt; segmented.err() == Some(DecodeFault::Damaged { at: 12 }));
}

#[test]
fn a_changed_byte_is_found(rt: HostRuntime) {
    assert!(rt; place(rt.alloc(), &NEW, 16).is_none());
    // An extent is not below the number of extents.
    assert!(rt; place(rt.alloc(), &NEW, 15) == Some(12));
    let rows = [
        (1, 1, 0, "a sequence number of 49 bits"),
        (11, 0, 12, "no volume, and bytes behind"),
        (11, 2, 85, "a second volume that is not there"),
        (12, 0, 12, "a name of no bytes"),
        (15, 0x55, 12, "no name"),
        (16, 1, 12, "records that are hidden"),
        (16, 4, 12, "flags 4"),
        (20, 17, 12, "an extent that is not there"),
        (20, 15, 81, "bytes behind the last volume"),
        (84, 0, 12, "an extent that stands twice"),
        (84, 16, 12, "an extent that is too high"),
    ];
    for (at, byte, want, what) in rows {
        let mut bytes = NEW;
        if at < 85 {
            bytes[at] = byte;
        }
        assert!(rt; place(rt.alloc(), &bytes, 16) == Some(want), "{what}");
    }
}

#[test]
fn a_text_cut_off_is_found(rt: HostRuntime) {
    for (length, want) in [
        (0, 0),
        (7, 0),
        (8, 8),
        (11, 8),
        (12, 12),
        (13, 12),
        (84, 12),
    ] {
        let text = &NEW[..NEW.len().min(length)];
        assert!(rt; place(rt.alloc(), text, 16) == Some(want), "of {length}");
    }
}

#[test]
fn an_image_is_judged_by_the_records(rt: HostRuntime) -> Result<(), Fail> {
    let rows: [(&[u8], Option<u32>, &str); 7] = [
        (&[0, 0, 0, 0, 1, 0, 0, 0, 3], None, "an image"),
        (
            &[3, 0, 0, 0, 2, 0, 0, 0, 3, 0, 0, 0, 2],
            None,
            "with both marks",
        ),
        (
            &[0, 0, 0, 0, 2, 0, 0, 0, 2, 0, 0, 0, 3],
            None,
            "two that touch",
        ),
        (&[0, 0, 0, 0, 1, 0, 0, 0, 3, 0], Some(79), "a byte behind"),
        (
            &[0, 0, 0, 0, 1, 0, 0, 0, 1],
            Some(29),
            "an extent of the first",
        ),
        (&[0, 0, 0, 0, 0], Some(29), "an image of no extents"),
        (
            &[0, 0, 0, 0, 2, 0, 0, 0, 3, 0, 0, 0, 3],
            Some(29),
            "one twice",
        ),
    ];
    for (rest, want, what) in rows {
        let mut bytes = RECORDS.to_vec(rt.alloc())?;
        bytes.extend_from_slice(IMAGE)?;
        bytes.extend_from_slice(rest)?;
        assert!(rt; place(rt.alloc(), &bytes, 4) == want, "{what}");
    }
    Ok(())
}
