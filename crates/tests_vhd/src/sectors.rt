//! Sectors of images, written out byte by byte. The sums are added up by hand.

/// The UUID of the first base image of a repository, 6c766864-0000-8000-8000-000000000002.
pub const UID: [u8; 16] = [
    0x6c, 0x76, 0x68, 0x64, 0, 0, 0x80, 0, 0x80, 0, 0, 0, 0, 0, 0, 2,
];

/// The footer of a disk of 65,536 bytes with this UUID and the time stamp 0: cookie, features, version, data offset, time
/// stamp, creator, its version and host, the two sizes, cylinders, heads and sectors, type and checksum. The bytes but the
/// checksum add up to 2,012.
const FOOTER_FRONT: [u8; 84] = [
    0x63, 0x6f, 0x6e, 0x65, 0x63, 0x74, 0x69, 0x78, // conectix
    0, 0, 0, 2, // features
    0, 1, 0, 0, // version
    0, 0, 0, 0, 0, 0, 2, 0, // data offset, 512
    0, 0, 0, 0, // time stamp
    0x6c, 0x76, 0x68, 0x64, // lvhd
    0, 1, 0, 0, // its version
    0, 0, 0, 0, // its host
    0, 0, 0, 0, 0, 1, 0, 0, // original size
    0, 0, 0, 0, 0, 1, 0, 0, // current size
    0, 1, 4, 17, // cylinders, heads, sectors
    0, 0, 0, 3, // dynamic
    0xff, 0xff, 0xf8, 0x23, // checksum
    0x6c, 0x76, 0x68, 0x64, 0, 0, 0x80, 0, 0x80, 0, 0, 0, 0, 0, 0, 2, // UUID
];

/// The header of a disk without a parent: cookie, data offset, table offset, version, entries, size of a block and
/// checksum. The bytes but the checksum add up to 3,000.
const HEADER_FRONT: [u8; 40] = [
    0x63, 0x78, 0x73, 0x70, 0x61, 0x72, 0x73, 0x65, // cxsparse
    0xff, 0xff, 0xff, 0xff, 0xff, 0xff, 0xff, 0xff, // data offset
    0, 0, 0, 0, 0, 0, 6, 0, // table offset, 1,536
    0, 1, 0, 0, // version
    0, 0, 0, 64, // entries
    0, 0, 16, 0, // size of a block, 4,096
    0xff, 0xff, 0xf4, 0x47, // checksum
];

/// The footer.
pub fn footer() -> [u8; 512] {
    let mut sector = [0; 512];
    sector[..84].copy_from_slice(&FOOTER_FRONT);
    sector
}

/// The header's first sector. Its second has zeros alone.
pub fn header() -> [u8; 512] {
    let mut sector = [0; 512];
    sector[..40].copy_from_slice(&HEADER_FRONT);
    sector
}

/// The footer of an older image, whose UUID ends in 1.
pub fn stale_footer() -> [u8; 512] {
    let mut sector = footer();
    sector[67] = 0x24;
    sector[83] = 1;
    sector
}

/// What stands in a sector of a volume before an image is made there: an older image's footer or its data.
pub fn stale(at: u64) -> [u8; 512] {
    match at % 4 {
        0 => stale_footer(),
        1 => header(),
        2 => [0xff; 512],
        _ => [0x5a; 512],
    }
}

/// The UUID of the child, the next after its parent's.
pub const CHILD_UID: [u8; 16] = [
    0x6c, 0x76, 0x68, 0x64, 0, 0, 0x80, 0, 0x80, 0, 0, 0, 0, 0, 0, 3,
];

/// The footer of a child: another UUID and the type of differencing disks, so that the sum is 2,014.
pub fn child_footer() -> [u8; 512] {
    let mut sector = footer();
    sector[63] = 4;
    sector[67] = 0x21;
    sector[83] = 3;
    sector
}

/// The footer once the disk has 69,632 bytes: 136 sectors have 2 cylinders, and the sum is 2,029.
pub fn sized_footer() -> [u8; 512] {
    let mut sector = footer();
    sector[54] = 0x10;
    sector[57] = 2;
    sector[67] = 0x12;
    sector
}

/// Writes a text in UTF-16 from byte 64 on.
fn put_name(sector: &mut [u8; 512], name: &[u8]) {
    for (i, byte) in name.iter().enumerate() {
        if i < 64 {
            sector[65 + 2 * i] = *byte;
        }
    }
}

/// The header's first sector of a child whose parent is the image with the UUID above in the volume named here. The
/// UUID's bytes add up to 688 and those of the name to 2,018, and so all to 5,706.
pub fn child_header() -> [u8; 512] {
    let mut sector = header();
    sector[38] = 0xe9;
    sector[39] = 0xb5;
    sector[40..56].copy_from_slice(&UID);
    put_name(&mut sector, b"VHD-11111111-1111-1111-1111-111111111101");
    sector
}

/// The same once the parent is the raw image in the volume named here, whose bytes add up to 1,987, and so all to 4,987.
pub fn relinked_header() -> [u8; 512] {
    let mut sector = header();
    sector[38] = 0xec;
    sector[39] = 0x84;
    put_name(&mut sector, b"LV-22222222-2222-2222-2222-222222222222");
    sector
}
