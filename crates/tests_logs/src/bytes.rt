//! The head of a log, and bits as text.

use sm_log::{Bits, Head, spelled};
use std::alloc::Global;
use std::process::Abort;
use std::test::Fail;

/// A head whose bytes differ from one another. Its fields add up to 933.
const HEAD: Head = Head {
    tag: 0x0102_0304_0506_0708,
    since: 0x1112_1314_1516_1718,
    pieces: 0x2122_2324,
};

/// The sector of that head, worked by hand from the table of offsets.
fn head_sector() -> [u8; 512] {
    let mut sector = [0; 512];
    sector[..8].copy_from_slice(b"LVHDCBTL");
    sector[8..16].copy_from_slice(&[1, 2, 3, 4, 5, 6, 7, 8]);
    sector[16..24].copy_from_slice(&[0x11, 0x12, 0x13, 0x14, 0x15, 0x16, 0x17, 0x18]);
    sector[24..28].copy_from_slice(&[0x21, 0x22, 0x23, 0x24]);
    sector[510] = 0x03;
    sector[511] = 0xa5;
    sector
}

#[test]
fn heads(rt: HostRuntime) -> Result<(), Fail> {
    let mut sector = HEAD.to_sector();
    assert!(rt; sector == head_sector());
    let Some(head) = Head::read(&sector) else {
        return Err(Fail::from("a head"));
    };
    assert!(rt; head.tag == HEAD.tag && head.since == HEAD.since && head.pieces == HEAD.pieces);
    sector[27] = 0x25;
    assert!(rt; Head::read(&sector).is_none());
    Ok(())
}

/// The first bits of `foo`, so many, are spelled so.
fn is_spelled(rt: &impl Abort, alloc: Global, pieces: u32, text: &str) -> Result<(), Fail> {
    let mut bits = Bits::new(alloc, pieces)?;
    let mut sector = [0; 512];
    sector[..3].copy_from_slice(b"foo");
    if bits.pieces() > 0 {
        bits.from_sector(0, &sector);
    }
    let found = spelled(alloc, &bits)?;
    assert!(rt; found.as_str() == text, "{text}");
    Ok(())
}

/// The examples of the standard of base64, and bits that end within a byte.
#[test]
fn bits_are_text(rt: HostRuntime) -> Result<(), Fail> {
    let alloc = rt.alloc();
    for (pieces, text) in [
        (0, ""),
        (8, "Zg=="),
        (16, "Zm8="),
        (24, "Zm9v"),
        (2, "QA=="),
    ] {
        is_spelled(&rt, alloc, pieces, text)?;
    }
    Ok(())
}
