//! Segments of a volume, worked by hand.

use crate::texts::{becomes, extents, image, place};
use std::alloc::{AllocError, Global};
use std::process::Abort;
use std::test::Fail;
use vg_meta::Change;

/// Two volumes, of which the first has the records on extents 0 and 1: with the sequence number in front 29 bytes.
const RECORDS: &[u8] =
    b"\x00\x00\x00\x02\x03MGT\x00\x00\x00\x00\x01\x00\x00\x00\x00\x00\x00\x00\x02";

/// The length of an image's name, the name, and no flags.
const IMAGE: &[u8] = b"\x28VHD-11111111-1111-1111-1111-111111111111\x00";

/// The length of a journal entry's name, the name, and no flags.
const ENTRY: &[u8] =
    b"\x52coalesce_11111111-1111-1111-1111-111111111111_abababab-abab-abab-abab-abababababab\x00";

/// A segment: its first extent, and how many it has.
type Pair = (u32, u32);

// A text of the records and one volume more, which says that it has so many segments, and has these.
fn text(
    alloc: Global,
    sequence: u8,
    volume: &[u8],
    number: u32,
    segments: &[Pair],
) -> Result<Vec<u8>, AllocError> {
    let mut bytes = [0, 0, 0, 0, 0, 0, 0, sequence].to_vec(alloc)?;
    bytes.extend_from_slice(RECORDS)?;
    bytes.extend_from_slice(volume)?;
    bytes.extend_from_slice(&number.to_be_bytes())?;
    for (first, count) in segments {
        bytes.extend_from_slice(&first.to_be_bytes())?;
        bytes.extend_from_slice(&count.to_be_bytes())?;
    }
    Ok(bytes)
}

// The text of the records and the image, on these segments, of which there are nine at most.
fn on(alloc: Global, sequence: u8, segments: &[Pair]) -> Result<Vec<u8>, AllocError> {
    text(
        alloc,
        sequence,
        IMAGE,
        segments.len().min(9) as u32,
        segments,
    )
}

#[test]
fn segments_of_an_image_are_judged(rt: HostRuntime) -> Result<(), Fail> {
    let rows: [(u32, &[Pair], Option<u32>, &str); 18] = [
        (1, &[(3, 2)], None, "one segment"),
        (1, &[(2, 6)], None, "behind the records, to the last extent"),
        (2, &[(3, 1), (5, 2)], None, "two that rise"),
        (
            2,
            &[(5, 2), (3, 2)],
            None,
            "two that fall, the second up to the first",
        ),
        (0, &[], Some(29), "no segment"),
        (1, &[(3, 0)], Some(29), "an empty segment"),
        (2, &[(3, 1), (4, 1)], Some(29), "two that touch"),
        (2, &[(3, 2), (4, 2)], Some(29), "two that overlap"),
        (2, &[(4, 1), (3, 2)], Some(29), "two that overlap, falling"),
        (1, &[(1, 2)], Some(29), "an extent of the records"),
        (1, &[(7, 2)], Some(29), "an end past the last extent"),
        (1, &[(8, 1)], Some(29), "a beginning past the last extent"),
        (1, &[(3, u32::MAX)], Some(29), "a count that ends past 2^32"),
        (1, &[(u32::MAX, 1)], Some(29), "an end at 2^32"),
        (
            2,
            &[(2, 6), (2, 3)],
            Some(29),
            "more extents than there are",
        ),
        (2, &[(3, 2)], Some(29), "a second segment that is not there"),
        (
            u32::MAX,
            &[(3, 2)],
            Some(29),
            "a number that no text has room for",
        ),
        (1, &[(3, 2), (6, 1)], Some(83), "bytes behind"),
    ];
    for (number, segments, want, what) in rows {
        let bytes = text(rt.alloc(), 9, IMAGE, number, segments)?;
        assert!(rt; place(rt.alloc(), &bytes, 8) == want, "{what}");
    }
    Ok(())
}

#[test]
fn an_entry_has_no_segment(rt: HostRuntime) -> Result<(), Fail> {
    let none = text(rt.alloc(), 9, ENTRY, 0, &[])?;
    assert!(rt; place(rt.alloc(), &none, 8).is_none());
    let one = text(rt.alloc(), 9, ENTRY, 1, &[(3, 2)])?;
    assert!(rt; place(rt.alloc(), &one, 8) == Some(29));
    Ok(())
}

// The image on these segments, a change, and the image on those.
fn changes(
    rt: &impl Abort,
    alloc: Global,
    before: &[Pair],
    change: Change,
    after: &[Pair],
) -> Result<(), Fail> {
    let before = on(alloc, 9, before)?;
    let after = on(alloc, 10, after)?;
    becomes(rt, alloc, &before, change, &after)
}

// The image gets more extents.
fn grows(
    rt: &impl Abort,
    alloc: Global,
    before: &[Pair],
    more: &[u32],
    after: &[Pair],
) -> Result<(), Fail> {
    let change = Change::Grow {
        name: image(),
        extents: extents(alloc, more)?,
    };
    changes(rt, alloc, before, change, after)
}

#[test]
fn an_image_grows_by_segments(rt: HostRuntime) -> Result<(), Fail> {
    let alloc = rt.alloc();
    grows(&rt, alloc, &[(3, 1)], &[4], &[(3, 2)])?;
    grows(
        &rt,
        alloc,
        &[(6, 1), (3, 1)],
        &[4, 5, 7],
        &[(6, 1), (3, 3), (7, 1)],
    )?;
    grows(&rt, alloc, &[(3, 2)], &[7, 2], &[(3, 2), (7, 1), (2, 1)])
}

#[test]
fn an_image_is_cut_within_a_segment(rt: HostRuntime) -> Result<(), Fail> {
    let cut = Change::Cut {
        name: image(),
        keep: 2,
    };
    changes(&rt, rt.alloc(), &[(7, 1), (3, 2)], cut, &[(7, 1), (3, 1)])
}
