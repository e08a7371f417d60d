//! Sectors of a repository, worked out by hand from the tables of offsets.

/// Bytes at their place.
pub type Part<'a> = (usize, &'a [u8]);

/// The repository's UUID.
pub const REPOSITORY: [u8; 16] = [
    0x99, 0x99, 0x99, 0x99, 0x99, 0x99, 0x49, 0x99, 0x89, 0x99, 0x99, 0x99, 0x99, 0x99, 0x99, 0x99,
];

/// The label of a repository of version 2 in the narrow layout, with an extent of 32 sectors, a block of 8, 64 entries and 64
/// extents. Its bytes add up to 3,134.
pub const LABEL: [Part<'static>; 8] = [
    (0, b"LVHDREPO"),
    (11, &[2]),
    (12, &REPOSITORY),
    (31, &[32]),
    (35, &[8]),
    (39, &[64]),
    (43, &[64]),
    (510, &[0x0c, 0x3e]),
];

/// The same of version 1, in which the layout's bytes are zeros. Its bytes add up to 3,133.
pub const OLD_LABEL: [Part<'static>; 8] = [
    (0, b"LVHDREPO"),
    (11, &[1]),
    (12, &REPOSITORY),
    (31, &[32]),
    (35, &[8]),
    (39, &[64]),
    (43, &[64]),
    (510, &[0x0c, 0x3d]),
];

/// The same of version 2 in the wide layout, with 65,537 extents. Its bytes add up to 3,073.
pub const WIDE_LABEL: [Part<'static>; 9] = [
    (0, b"LVHDREPO"),
    (11, &[2]),
    (12, &REPOSITORY),
    (31, &[32]),
    (35, &[8]),
    (39, &[64]),
    (40, &[0, 1, 0, 1]),
    (47, &[1]),
    (510, &[0x0c, 0x01]),
];

/// The header of a text of 29 bytes in slot 0, whose sum is 254. Its bytes add up to 876.
pub const HEADER: [Part<'static>; 4] = [
    (0, b"LVHDTABL"),
    (15, &[29]),
    (19, &[0xfe]),
    (510, &[0x03, 0x6c]),
];

/// The header of a text of 85 bytes in slot 0, whose sum is 373. Its bytes add up to 796.
pub const OLD_HEADER: [Part<'static>; 4] = [
    (0, b"LVHDTABL"),
    (15, &[85]),
    (18, &[0x01, 0x75]),
    (510, &[0x03, 0x1c]),
];

/// The first sector of a slot with the text of a new group, whose records have 16 extents: sequence number 1 and one volume,
/// `MGT`, with one segment, of extent 0 and the 15 behind it.
pub const TEXT: [Part<'static>; 5] = [
    (7, &[1]),
    (11, &[1]),
    (12, b"\x03MGT"),
    (20, &[1]),
    (28, &[16]),
];

/// Writes bytes at their places.
pub fn set(sector: &mut [u8; 512], parts: &[Part]) {
    for (at, bytes) in parts {
        for (i, byte) in bytes.iter().enumerate() {
            let place = at.saturating_add(i);
            if place < 512 {
                sector[place] = *byte;
            }
        }
    }
}

/// The sector of these bytes, and zeros elsewhere.
pub fn sector(parts: &[Part]) -> [u8; 512] {
    let mut sector = [0; 512];
    set(&mut sector, parts);
    sector
}
