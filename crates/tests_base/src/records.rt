//! Sectors worked out by hand from the table of offsets.

use sm_base::Label;
use sm_record::{Reading, Record};
use std::test::Fail;
use uuid::Uuid;

const FIRST: [u8; 16] = [0, 0, 0, 0, 0, 0, 0x40, 0, 0x80, 0, 0, 0, 0, 0, 0, 1];

const SECOND: [u8; 16] = [0, 0, 0, 0, 0, 0, 0x40, 0, 0x80, 0, 0, 0, 0, 0, 0, 2];

/// Bytes at their place.
type Part<'a> = (usize, &'a [u8]);

/// The snapshot FIRST of SECOND with the label `a`. Its bytes add up to 1,087.
const SNAPSHOT: [Part<'static>; 5] = [
    (0, b"LVHDDISK"),
    (8, &FIRST),
    (24, &SECOND),
    (40, &[1, 1, b'a']),
    (510, &[0x04, 0x3f]),
];

/// The disk FIRST with the label `disk`. Its bytes add up to 1,225.
const DISK: [Part<'static>; 4] = [
    (0, b"LVHDDISK"),
    (8, &FIRST),
    (41, b"\x04disk"),
    (510, &[0x04, 0xc9]),
];

/// Writes bytes at their places.
fn set(sector: &mut [u8; 512], parts: &[Part]) {
    for (at, bytes) in parts {
        for (i, byte) in bytes.iter().enumerate() {
            let place = at.saturating_add(i);
            if place < 512 {
                sector[place] = *byte;
            }
        }
    }
}

/// The sector of these bytes, and zeros elsewhere.
fn sector(parts: &[Part]) -> [u8; 512] {
    let mut sector = [0; 512];
    set(&mut sector, parts);
    sector
}

#[test]
fn writes(rt: HostRuntime) -> Result<(), Fail> {
    let mut written = [0xff; 512];
    let record = Record {
        uuid: Uuid::from_bytes(FIRST),
        label: Label::of(b"a").ok_or("a label")?,
        origin: Some(Uuid::from_bytes(SECOND)),
        read_only: true,
    };
    assert!(rt; !record.uuid.is_nil());
    record.write(&mut written);
    assert!(rt; written == sector(&SNAPSHOT));
    Ok(())
}

/// Whether the sector of these bytes has this record.
fn is_record(parts: &[Part], origin: Option<Uuid>, label: &[u8], read_only: bool) -> bool {
    match Record::read(&sector(parts)) {
        Reading::Taken(record) => {
            record.uuid == Uuid::from_bytes(FIRST)
                && record.origin == origin
                && record.label.text() == label
                && record.read_only == read_only
        }
        _ => false,
    }
}

#[test]
fn reads(rt: HostRuntime) {
    assert!(rt; is_record(&SNAPSHOT, Some(Uuid::from_bytes(SECOND)), b"a", true));
    assert!(rt; is_record(&DISK, None, b"disk", false));
    assert!(rt; matches!(Record::read(&[0; 512]), Reading::Free));
}

/// One byte differs and the sum is right, save in the last but one case. The last is a nil UUID.
#[test]
fn damaged(rt: HostRuntime) {
    let rows = [
        [(0, b"M".as_slice()), (510, &[0x04, 0xca])],
        [(40, &[2]), (510, &[0x04, 0xcb])],
        [(41, &[0]), (510, &[0x04, 0xc5])],
        [(41, &[3]), (510, &[0x04, 0xc8])],
        [(41, &[65]), (510, &[0x05, 0x06])],
        [(43, b" "), (510, &[0x04, 0x80])],
        [(46, &[0x7f]), (510, &[0x05, 0x48])],
        [(106, &[1]), (510, &[0x04, 0xca])],
        [(507, &[1]), (510, &[0x04, 0xca])],
        [(511, &[0xca]), (510, &[0x04])],
        [(8, &[0; 16]), (510, &[0x04, 0x08])],
    ];
    for changed in rows {
        let mut sector = sector(&DISK);
        set(&mut sector, &changed);
        assert!(rt; matches!(Record::read(&sector), Reading::Damaged));
    }
}
