//! Sectors worked out by hand from the tables of offsets.

use crate::sectors::{
    HEADER, LABEL, OLD_HEADER, OLD_LABEL, Part, REPOSITORY, WIDE_LABEL, sector, set,
};
use sm_base::{Geometry, OpenFault, Place};
use std::process::Abort;
use std::test::Fail;
use uuid::Uuid;
use vg_layout::{Frame, GroupLabel, Layout, Slot, TableHeader, extents_on, record_extents};

/// A sector with one byte changed, and this sum.
fn with(parts: &[Part], at: usize, byte: u8, sum: u16) -> [u8; 512] {
    let mut sector = sector(parts);
    set(&mut sector, &[(at, &[byte]), (510, &sum.to_be_bytes())]);
    sector
}

/// A label of so many extents in a layout.
fn label(extents: u32, layout: Layout) -> Result<GroupLabel, Fail> {
    Ok(GroupLabel {
        geometry: Geometry::of(32 * 512, 8 * 512, 64).ok_or("a geometry")?,
        extents,
        layout,
        repository: Uuid::from_bytes(REPOSITORY),
    })
}

/// A label of a version is written as this sector, and on a device of so many sectors, its extents' end, it is read.
fn is_spelled(rt: &impl Abort, label: &GroupLabel, version: u32, sectors: u64, want: &[u8; 512]) {
    let mut written = [0xff; 512];
    label.write(version, &mut written);
    assert!(rt; written == *want, "of {sectors}");
    assert!(rt; GroupLabel::version(want) == version, "of {sectors}");
    assert!(rt;
        GroupLabel::read(sectors, want) == Ok(*label),
        "of {sectors}"
    );
}

#[test]
fn labels(rt: HostRuntime) -> Result<(), Fail> {
    let narrow = label(64, Layout::Narrow)?;
    // 4,096 sectors and 64 extents of 32.
    is_spelled(&rt, &narrow, 1, 6144, &sector(&OLD_LABEL));
    is_spelled(&rt, &narrow, 2, 6144, &sector(&LABEL));
    // 37,376 sectors and 65,537 extents of 32.
    let wide = label(65_537, Layout::Wide)?;
    is_spelled(&rt, &wide, 2, 2_134_560, &sector(&WIDE_LABEL));
    Ok(())
}

fn damaged(place: Place) -> OpenFault {
    OpenFault::Damaged { place }
}

/// A label on a device of so many sectors is refused.
fn is_refused(rt: &impl Abort, sectors: u64, label: &[u8; 512], fault: OpenFault, at: usize) {
    assert!(rt; GroupLabel::read(sectors, label) == Err(fault), "at {at}");
}

#[test]
fn wrong_labels(rt: HostRuntime) {
    let rows = [
        (31, 33, 3135),
        (31, 16, 3118),
        (35, 64, 3190),
        (39, 0, 3070),
        (43, 15, 3085),
        (44, 1, 3135),
        (45, 1, 3135),
        (46, 1, 3135),
        (47, 2, 3136),
        (48, 1, 3135),
        (507, 1, 3135),
        (11, 2, 3135),
    ];
    for (at, byte, sum) in rows {
        let wrong = with(&LABEL, at, byte, sum);
        is_refused(&rt, 6144, &wrong, damaged(Place::Label), at);
    }
    let letters = with(&LABEL, 7, b'P', 3135);
    is_refused(&rt, 6144, &letters, OpenFault::NotARepository, 7);
    // The extents of the label are one too many for the device, or there is no room for a header.
    let right = sector(&LABEL);
    is_refused(&rt, 6143, &right, damaged(Place::Label), 512);
    is_refused(&rt, 1, &right, OpenFault::NotARepository, 512);
}

#[test]
fn wrong_versions(rt: HostRuntime) {
    for (version, sum) in [(0, 3132), (3, 3135)] {
        let wrong = with(&LABEL, 11, version, sum);
        let fault = OpenFault::Unsupported {
            version: u32::from(version),
        };
        is_refused(&rt, 6144, &wrong, fault, 11);
    }
    let first = with(&LABEL, 8, 1, 3135);
    let fault = OpenFault::Unsupported {
        version: 0x0100_0002,
    };
    is_refused(&rt, 6144, &first, fault, 8);
}

/// The wide layout, on a device that has room for 64 extents in it, or one sector less; and in version 1.
#[test]
fn wrong_layouts(rt: HostRuntime) -> Result<(), Fail> {
    let wide = with(&LABEL, 47, 1, 3135);
    assert!(rt; GroupLabel::read(39_424, &wide) == Ok(label(64, Layout::Wide)?));
    is_refused(&rt, 39_423, &wide, damaged(Place::Label), 47);
    is_refused(&rt, 6144, &wide, damaged(Place::Label), 47);
    for at in 44..49 {
        let old = with(&OLD_LABEL, at, 1, 3134);
        is_refused(&rt, 39_424, &old, damaged(Place::Label), at);
    }
    Ok(())
}

/// The places of version 1.
fn frame() -> Frame {
    Frame::of(1, Layout::Narrow)
}

/// The places of version 2 in the narrow layout.
fn narrow() -> Frame {
    Frame::of(2, Layout::Narrow)
}

/// A header of slot 0 is written as this sector, and is read in a frame.
fn is_pointer(rt: &impl Abort, frame: &Frame, length: u32, sum: u32, want: &[u8; 512]) {
    let mut written = [0xff; 512];
    let header = TableHeader {
        slot: Slot::Zero,
        length,
        sum,
    };
    header.write(&mut written);
    assert!(rt; written == *want, "of {length}");
    assert!(rt; TableHeader::read(frame, want) == Ok(header), "of {length}");
}

#[test]
fn headers(rt: HostRuntime) {
    is_pointer(&rt, &narrow(), 29, 254, &sector(&HEADER));
    is_pointer(&rt, &frame(), 85, 373, &sector(&OLD_HEADER));
}

/// A header is damaged in a frame.
fn is_damaged(rt: &impl Abort, frame: &Frame, header: &[u8; 512], at: usize) {
    assert!(rt;
        TableHeader::read(frame, header) == Err(damaged(Place::Header)),
        "at {at}"
    );
}

#[test]
fn wrong_headers(rt: HostRuntime) {
    let rows = [
        (0, b'l', 908),
        (11, 2, 878),
        (12, 1, 877),
        (13, 16, 892),
        (20, 1, 877),
        (507, 1, 877),
        (0, b'L', 877),
    ];
    for (at, byte, sum) in rows {
        is_damaged(&rt, &narrow(), &with(&HEADER, at, byte, sum), at);
    }
}

/// A text is as long as a slot at most.
#[test]
fn the_longest_texts(rt: HostRuntime) {
    let rows = [
        (frame(), 524_288),
        (narrow(), 1_047_040),
        (Frame::of(2, Layout::Wide), 8_519_680),
    ];
    for (frame, most) in rows {
        let mut sector = [0; 512];
        let mut header = TableHeader {
            slot: Slot::One,
            length: most,
            sum: 0,
        };
        header.write(&mut sector);
        assert!(rt;
            TableHeader::read(&frame, &sector) == Ok(header),
            "of {most}"
        );
        header.length = most.saturating_add(1);
        header.write(&mut sector);
        is_damaged(&rt, &frame, &sector, 12);
    }
}

/// Where the header and the two slots begin in a frame, and how many bytes a slot has.
fn stand_at(rt: &impl Abort, frame: &Frame, places: [u64; 3], bytes: u64) {
    let there = [
        frame.header,
        Slot::Zero.place(frame),
        Slot::One.place(frame),
    ];
    assert!(rt; there == places, "at {places:?}");
    assert!(rt; frame.slot_bytes() == bytes, "of {bytes}");
}

#[test]
fn frames(rt: HostRuntime) {
    stand_at(&rt, &frame(), [1, 2, 1026], 524_288);
    stand_at(&rt, &Frame::of(1, Layout::Wide), [1, 2, 1026], 524_288);
    stand_at(
        &rt,
        &Frame::of(2, Layout::Narrow),
        [2050, 2051, 2],
        1_047_040,
    );
    stand_at(
        &rt,
        &Frame::of(2, Layout::Wide),
        [2050, 4096, 20_736],
        8_519_680,
    );
    assert!(rt; Slot::Zero.other() == Slot::One);
    assert!(rt; Slot::One.other() == Slot::Zero);
}

/// How many extents there are on devices of so many sectors.
fn count(rt: &impl Abort, layout: Layout, geometry: &Geometry, rows: [(u64, u32); 6]) {
    for (sectors, count) in rows {
        assert!(rt;
            extents_on(sectors, layout, geometry) == count,
            "of {sectors}"
        );
    }
}

#[test]
fn extents(rt: HostRuntime) -> Result<(), Fail> {
    let small = Geometry::of(32 * 512, 8 * 512, 64).ok_or("a geometry")?;
    let large = Geometry::of(8192 * 512, 8 * 512, 64).ok_or("a geometry")?;
    let narrow = [
        (0, 0),
        (4096, 0),
        (4607, 15),
        (4608, 16),
        (2_101_248, 65_536),
        (u64::MAX, 65_536),
    ];
    count(&rt, Layout::Narrow, &small, narrow);
    let wide = [
        (37_376, 0),
        (37_407, 0),
        (37_408, 1),
        (2_134_560, 65_537),
        (33_591_808, 1_048_576),
        (u64::MAX, 1_048_576),
    ];
    count(&rt, Layout::Wide, &small, wide);
    assert!(rt; Layout::Narrow.area() == 4096);
    assert!(rt; Layout::Wide.area() == 37_376);
    assert!(rt; record_extents(&small) == 16);
    assert!(rt; record_extents(&large) == 1);
    Ok(())
}

#[test]
fn layouts(rt: HostRuntime) {
    assert!(rt; Layout::of(0) == Some(Layout::Narrow));
    assert!(rt; Layout::of(1) == Some(Layout::Wide));
    assert!(rt; Layout::of(2).is_none());
    assert!(rt; Layout::Narrow.number() == 0);
    assert!(rt; Layout::Wide.number() == 1);
}

/// The layout is wide as soon as it gives more extents than the narrow one's most.
#[test]
fn the_better_layout(rt: HostRuntime) -> Result<(), Fail> {
    let small = Geometry::of(32 * 512, 8 * 512, 64).ok_or("a geometry")?;
    for sectors in [0, 4608, 2_101_248, 2_134_528, 2_134_559] {
        assert!(rt;
            Layout::best(sectors, &small) == Layout::Narrow,
            "of {sectors}"
        );
    }
    for sectors in [2_134_560, 33_591_808, u64::MAX] {
        assert!(rt;
            Layout::best(sectors, &small) == Layout::Wide,
            "of {sectors}"
        );
    }
    Ok(())
}
