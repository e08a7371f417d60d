//! The footer and the header of an image: bytes worked by hand, and the faults of each field.

use sm_base::Name;
use std::process::Abort;
use std::test::*;
use uuid::Uuid;
use vhd_fields::{FieldFault, Footer, Header, geometry_of};

/// The unique id of the first image of a repository.
const UID: [u8; 16] = [
    0x6c, 0x76, 0x68, 0x64, 0, 0, 0x80, 0, 0x80, 0, 0, 0, 0, 0, 0, 2,
];

/// What stands in the footer of a dynamic image of 64 KiB, up to the checksum, by its offsets.
const FOOTER: [u8; 68] = [
    0x63, 0x6f, 0x6e, 0x65, 0x63, 0x74, 0x69, 0x78, // 0: cookie, conectix
    0, 0, 0, 2, // 8: features
    0, 1, 0, 0, // 12: version
    0, 0, 0, 0, 0, 0, 2, 0, // 16: data offset, 512
    0, 0, 0, 0, // 24: time stamp
    0x6c, 0x76, 0x68, 0x64, // 28: creator, lvhd
    0, 1, 0, 0, // 32: creator version
    0, 0, 0, 0, // 36: creator host
    0, 0, 0, 0, 0, 1, 0, 0, // 40: original size, 65,536
    0, 0, 0, 0, 0, 1, 0, 0, // 48: current size
    0, 1, 4, 17, // 56: geometry
    0, 0, 0, 3, // 60: disk type
    0xff, 0xff, 0xf8, 0x23, // 64: checksum, the complement of 2,012
];

/// What stands in its header, up to the checksum.
const HEADER: [u8; 40] = [
    0x63, 0x78, 0x73, 0x70, 0x61, 0x72, 0x73, 0x65, // 0: cookie, cxsparse
    0xff, 0xff, 0xff, 0xff, 0xff, 0xff, 0xff, 0xff, // 8: data offset
    0, 0, 0, 0, 0, 0, 6, 0, // 16: table offset, 1,536
    0, 1, 0, 0, // 24: version
    0, 0, 0, 64, // 28: entries
    0, 0, 16, 0, // 32: block, 4,096
    0xff, 0xff, 0xf4, 0x47, // 36: checksum, the complement of 3,000
];

fn footer() -> Footer {
    Footer {
        stamp: 0,
        creator: *b"lvhd",
        creator_version: 0x0001_0000,
        host: 0,
        original: 65536,
        current: 65536,
        kind: 3,
        data_offset: 512,
        uid: Uuid::from_bytes(UID),
    }
}

fn header(parent: Option<Name>) -> Header {
    Header {
        table_offset: 1536,
        entries: 64,
        block: 4096,
        parent_uid: Uuid::from_bytes([0; 16]),
        parent_stamp: 0,
        parent,
    }
}

fn set(bytes: &mut [u8], at: usize, byte: u8) {
    if let Some(place) = bytes.get_mut(at) {
        *place = byte;
    }
}

/// Writes the checksum by hand: the complement of the sum of all other bytes.
fn reseal(bytes: &mut [u8], at: usize) {
    let mut sum: u32 = 0;
    for (place, byte) in bytes.iter().enumerate() {
        if place < at || place - at >= 4 {
            sum = sum.wrapping_add(u32::from(*byte));
        }
    }
    let [a, b, c, d] = (!sum).to_be_bytes();
    for (place, byte) in [(0, a), (1, b), (2, c), (3, d)] {
        set(bytes, at.wrapping_add(place), byte);
    }
}

#[test]
fn first_footer(rt: HostRuntime) {
    let mut want = [0; 512];
    want[..68].copy_from_slice(&FOOTER);
    want[68..84].copy_from_slice(&UID);
    let mut bytes = [0xee; 512];
    footer().write(&mut bytes);
    assert!(rt; bytes == want);
    assert!(rt; Footer::read(&bytes) == Ok(footer()));
}

#[test]
fn first_header(rt: HostRuntime) {
    let mut want = [0; 1024];
    want[..40].copy_from_slice(&HEADER);
    let mut bytes = [0xee; 1024];
    header(None).write(&mut bytes);
    assert!(rt; bytes == want);
    assert!(rt; Header::read(&bytes) == Ok(header(None)));
}

/// The parent's name, and a byte behind it that is not zero.
fn check_parent(rt: &impl Abort, header: Header, spelled: &[u8; 36], behind: [usize; 3]) {
    let mut bytes = [0; 1024];
    header.write(&mut bytes);
    let front: [u8; 36] = *bytes[64..].first_chunk().expect(rt, "there are 960 bytes");
    assert!(rt; front == *spelled);
    assert!(rt; Header::read(&bytes) == Ok(header));
    for place in behind {
        let mut longer = bytes;
        set(&mut longer, place, b'0');
        reseal(&mut longer, 36);
        assert!(rt; Header::read(&longer) == Err(FieldFault::Field { offset: 64 }));
    }
}

#[test]
fn parents(rt: HostRuntime) {
    let uid = Uuid::from_bytes(UID);
    let vhd = b"\0V\0H\0D\0-\06\0c\07\06\06\08\06\04\0-\00\00\00\00\0-";
    check_parent(&rt, header(Some(Name::Vhd(uid))), vhd, [144, 145, 575]);
    let raw = b"\0L\0V\0-\06\0c\07\06\06\08\06\04\0-\00\00\00\00\0-\08";
    check_parent(&rt, header(Some(Name::Raw(uid))), raw, [142, 143, 575]);
    let mut bytes = [0; 1024];
    header(Some(Name::Mgt)).write(&mut bytes);
    assert!(rt; Header::read(&bytes) == Err(FieldFault::Field { offset: 64 }));
}

/// For each field a footer that fails there first, by one byte that is another.
const FOOTER_FAULTS: [(usize, u8, FieldFault); 8] = [
    (0, b'C', FieldFault::Cookie),
    (13, 2, FieldFault::Version),
    (15, 1, FieldFault::Version),
    (22, 4, FieldFault::Field { offset: 16 }),
    (55, 1, FieldFault::Field { offset: 48 }),
    (53, 0, FieldFault::Field { offset: 48 }),
    (63, 5, FieldFault::Field { offset: 60 }),
    (63, 1, FieldFault::Field { offset: 60 }),
];

/// Whether a footer with another byte is refused so. The checksum, which no longer fits, is tested behind the cookie and in
/// front of all else.
fn is_footer_fault(mut bytes: [u8; 512], at: usize, byte: u8, fault: FieldFault) -> bool {
    set(&mut bytes, at, byte);
    let first = if at == 0 { fault } else { FieldFault::Checksum };
    let is_first = Footer::read(&bytes) == Err(first);
    reseal(&mut bytes, 64);
    is_first && Footer::read(&bytes) == Err(fault)
}

#[test]
fn footer_faults(rt: HostRuntime) {
    let mut whole = [0; 512];
    footer().write(&mut whole);
    for (at, byte, fault) in FOOTER_FAULTS {
        assert!(rt; is_footer_fault(whole, at, byte, fault), "at {at}");
    }
}

/// The same for headers.
const HEADER_FAULTS: [(usize, u8, FieldFault); 10] = [
    (7, b'E', FieldFault::Cookie),
    (25, 2, FieldFault::Version),
    (22, 4, FieldFault::Field { offset: 16 }),
    (23, 1, FieldFault::Field { offset: 16 }),
    (31, 0, FieldFault::Field { offset: 28 }),
    (29, 16, FieldFault::Field { offset: 28 }),
    (34, 8, FieldFault::Field { offset: 32 }),
    (34, 24, FieldFault::Field { offset: 32 }),
    (33, 64, FieldFault::Field { offset: 32 }),
    (65, b'V', FieldFault::Field { offset: 64 }),
];

/// The same of a header.
fn is_header_fault(mut bytes: [u8; 1024], at: usize, byte: u8, fault: FieldFault) -> bool {
    set(&mut bytes, at, byte);
    let first = if at == 7 { fault } else { FieldFault::Checksum };
    let is_first = Header::read(&bytes) == Err(first);
    reseal(&mut bytes, 36);
    is_first && Header::read(&bytes) == Err(fault)
}

#[test]
fn header_faults(rt: HostRuntime) {
    let mut whole = [0; 1024];
    header(None).write(&mut whole);
    for (at, byte, fault) in HEADER_FAULTS {
        assert!(rt; is_header_fault(whole, at, byte, fault), "at {at}");
    }
}

/// A fixed image has no header, so its data offset is taken as it is.
#[test]
fn fixed_image(rt: HostRuntime) {
    let fixed = Footer {
        kind: 2,
        data_offset: u64::MAX,
        ..footer()
    };
    let mut bytes = [0; 512];
    fixed.write(&mut bytes);
    assert!(rt; Footer::read(&bytes) == Ok(fixed));
}

/// The borders of the branches, by the specification's pseudo-code.
#[test]
fn geometries(rt: HostRuntime) {
    for (sectors, geometry) in [
        (0, [0, 0, 4, 17]),
        (128, [0, 1, 4, 17]),
        (69_631, [3, 255, 4, 17]),
        (69_632, [0, 140, 16, 31]),
        (278_527, [3, 255, 16, 17]),
        (278_528, [2, 49, 16, 31]),
        (507_903, [3, 255, 16, 31]),
        (507_904, [1, 247, 16, 63]),
        (41_943_040, [162, 138, 16, 63]),
        (66_059_279, [255, 254, 16, 63]),
        (66_059_280, [63, 63, 16, 255]),
        (267_382_799, [255, 254, 16, 255]),
        (267_382_800, [255, 255, 16, 255]),
        (u64::MAX, [255, 255, 16, 255]),
    ] {
        assert!(rt; geometry_of(sectors) == geometry, "at {sectors}");
    }
}
