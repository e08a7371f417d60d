//! Each byte of a new group's label, header and text is changed, and an opening answers what the reference reader
//! finds. The same is done to an older group, of version 1, whose bytes are worked by hand.

use sm_base::{OpenFault, Place};
use sm_disk::{Disk, MemDisk, write_sector};
use std::alloc::Global;
use std::test::Fail;
use tests_reader::{frame_of, number, opening_fault, sum_between, text_of};
use tests_support::{REPOSITORY, formatted, holds};
use vg_store::Group;

/// The sectors of the device: extents for the records alone.
const SECTORS: usize = 4608;

/// Where the header and the text of a group begin on its device, and the bytes of the text. The label is in front.
#[derive(Clone, Copy)]
struct Places {
    header: usize,
    text: usize,
    length: usize,
}

/// Of a new group: the header stands in sector 2,050, the text in sector 2,051.
const NEW: Places = Places {
    header: 1_049_600,
    text: LAST,
    length: 29,
};

/// Of one of version 1: the header stands in sector 1, the text in sector 2.
const OLDER: Places = Places {
    header: 512,
    text: 1024,
    length: 85,
};

/// The offset of the last sector of a front.
const LAST: usize = 1_050_112;

/// How a byte is changed.
#[derive(Clone, Copy)]
enum Change {
    /// Its lowest bit is turned.
    Flip,
    /// It is one more, or 0 where it was 255.
    Raise,
}

/// Which sums are made right again after a change.
#[derive(Clone, Copy, PartialEq, Eq)]
enum Sums {
    /// None.
    Left,
    /// Those of the label and of the header.
    Own,
    /// That of the text in the header too.
    All,
}

/// Writes a number in four bytes at an offset.
fn put(bytes: &mut [u8; 512], at: usize, value: u32) {
    if at <= 508 {
        bytes[at..at + 4].copy_from_slice(&value.to_be_bytes());
    }
}

/// All bytes of a device.
fn bytes_of(alloc: Global, disk: &mut MemDisk) -> Result<Vec<u8>, Fail> {
    let mut bytes = vec![in alloc; 0; 512 * SECTORS]?;
    if disk.sectors() < SECTORS as u64 {
        return Err(Fail::from("a device of so many sectors"));
    }
    disk.read(0, &mut bytes)?;
    Ok(bytes)
}

/// A sector of the front of a device.
fn head(device: &[u8], at: usize) -> Result<[u8; 512], Fail> {
    let mut sector = [0; 512];
    if device.len() < LAST + 512 || at > LAST {
        return Err(Fail::from("a front"));
    }
    sector.copy_from_slice(&device[at..at + 512]);
    Ok(sector)
}

/// Puts a sector into the front of a device.
fn set_head(device: &mut [u8], at: usize, sector: &[u8; 512]) -> Result<(), Fail> {
    if device.len() < LAST + 512 || at > LAST {
        return Err(Fail::from("a front"));
    }
    device[at..at + 512].copy_from_slice(sector);
    Ok(())
}

/// Makes the sum of a label or of a header right.
fn seal(sector: &mut [u8; 512]) {
    let sum = sum_between(sector, 0, 508);
    put(sector, 508, sum);
}

/// Makes the sums of a device right.
fn make_right(device: &mut [u8], places: Places, sums: Sums) -> Result<(), Fail> {
    if sums == Sums::Left {
        return Ok(());
    }
    let mut label = head(device, 0)?;
    let mut header = head(device, places.header)?;
    seal(&mut label);
    seal(&mut header);
    let frame = frame_of(number(&label, 8), number(&label, 44));
    if let (Sums::All, Some(text)) = (sums, text_of(device, &frame, &header)) {
        put(&mut header, 16, sum_between(text, 0, text.len()));
        seal(&mut header);
    }
    set_head(device, 0, &label)?;
    set_head(device, places.header, &header)
}

/// The byte after a change.
fn changed(byte: u8, change: Change) -> u8 {
    match change {
        Change::Flip => byte ^ 1,
        Change::Raise => byte.wrapping_add(1),
    }
}

/// Changes a byte of a device.
fn set(device: &mut [u8], at: usize, change: Change) -> Result<(), Fail> {
    if at >= device.len() {
        return Err(Fail::from("a byte of the device"));
    }
    device[at] = changed(device[at], change);
    Ok(())
}

/// What an opening answers.
fn fault(alloc: Global, disk: MemDisk) -> Option<OpenFault> {
    match Group::open(alloc, disk) {
        Ok(group) => {
            let _disk = group.into_disk();
            None
        }
        Err((fault, _disk)) => Some(fault),
    }
}

/// Writes the front of a device, which lasts.
fn write_front(disk: &mut MemDisk, device: &[u8], places: Places) -> Result<(), Fail> {
    for at in [0, places.header, places.text] {
        let sector = (at / 512) as u64;
        if sector < disk.sectors() {
            write_sector(disk, sector, &head(device, at)?)?;
        }
    }
    disk.sync()?;
    Ok(())
}

/// All bytes of a device with a new group.
fn new_bytes(alloc: Global) -> Result<Vec<u8>, Fail> {
    let mut disk = formatted(alloc, SECTORS as u64)?;
    bytes_of(alloc, &mut disk)
}

/// The label of a group of version 1 of 16 extents, and its header.
fn older_heads() -> ([u8; 512], [u8; 512]) {
    let mut label = [0; 512];
    label[..8].copy_from_slice(b"LVHDREPO");
    put(&mut label, 8, 1);
    label[12..28].copy_from_slice(&REPOSITORY);
    for (at, value) in [(28, 32), (32, 8), (36, 64), (40, 16), (508, 3085)] {
        put(&mut label, at, value);
    }
    let mut header = [0; 512];
    header[..8].copy_from_slice(b"LVHDTABL");
    for (at, value) in [(12, 85), (16, 373), (508, 796)] {
        put(&mut header, at, value);
    }
    (label, header)
}

/// The text of a new group of version 1: the sequence number 1, and one volume, which has each of 16 extents by its number.
fn older_text() -> [u8; 512] {
    let mut text = [0; 512];
    for (at, value) in [(4, 1), (8, 1), (17, 16)] {
        put(&mut text, at, value);
    }
    text[12..16].copy_from_slice(b"\x03MGT");
    for extent in 0..16u32 {
        put(&mut text, 21 + 4 * extent as usize, extent);
    }
    text
}

/// All bytes of a device with a new group of version 1.
fn older_bytes(alloc: Global) -> Result<Vec<u8>, Fail> {
    let mut bytes = vec![in alloc; 0; 512 * SECTORS]?;
    let (label, header) = older_heads();
    set_front(&mut bytes, OLDER, &[label, header, older_text()])?;
    Ok(bytes)
}

/// A device with these bytes. Only the front is written: all else is zeros, as the records of a new group are.
fn device_of(alloc: Global, bytes: &[u8], places: Places) -> Result<MemDisk, Fail> {
    let mut disk = MemDisk::new(alloc, SECTORS as u64)?;
    write_front(&mut disk, bytes, places)?;
    Ok(disk)
}

/// What an opening answers a changed byte where no sum was made right, by the offset of the byte.
fn by_offset(device: &[u8], places: Places, at: usize) -> Result<OpenFault, Fail> {
    let version = number(&head(device, 0)?, 8);
    let place = match at {
        0..8 => return Ok(OpenFault::NotARepository),
        8..12 if version != 1 && version != 2 => return Ok(OpenFault::Unsupported { version }),
        8..512 => Place::Label,
        _ if at < places.text => Place::Header,
        _ => Place::TableSum,
    };
    Ok(OpenFault::Damaged { place })
}

/// Changes a byte, makes the sums right, and opens: whether it is answered as by the reference reader.
fn open_changed(
    alloc: Global,
    disk: &mut MemDisk,
    bytes: &mut [u8],
    places: Places,
    at: usize,
    change: Change,
    sums: Sums,
) -> Result<bool, Fail> {
    set(bytes, at, change)?;
    make_right(bytes, places, sums)?;
    write_front(disk, bytes, places)?;
    let fault = fault(alloc, disk.left(alloc, &[])?);
    let wanted = opening_fault(alloc, bytes)?;
    let plain = sums != Sums::Left || fault == Some(by_offset(bytes, places, at)?);
    Ok(fault == wanted && plain)
}

/// The three sectors of the front of a device.
fn front(device: &[u8], places: Places) -> Result<[[u8; 512]; 3], Fail> {
    Ok([
        head(device, 0)?,
        head(device, places.header)?,
        head(device, places.text)?,
    ])
}

/// Puts a front on a device.
fn set_front(device: &mut [u8], places: Places, front: &[[u8; 512]; 3]) -> Result<(), Fail> {
    let [label, header, text] = front;
    set_head(device, 0, label)?;
    set_head(device, places.header, header)?;
    set_head(device, places.text, text)
}

/// Whether both changes of a byte are answered right. The front is put back.
fn is_answered(
    alloc: Global,
    disk: &mut MemDisk,
    bytes: &mut [u8],
    places: Places,
    at: usize,
    sums: Sums,
) -> Result<bool, Fail> {
    let whole = front(bytes, places)?;
    let flipped = open_changed(alloc, disk, bytes, places, at, Change::Flip, sums)?;
    set_front(bytes, places, &whole)?;
    let raised = open_changed(alloc, disk, bytes, places, at, Change::Raise, sums)?;
    set_front(bytes, places, &whole)?;
    Ok(flipped && raised)
}

/// Where the bytes that are changed begin, how many they are, and which sums are made right.
fn rows(places: Places) -> [(usize, usize, Sums); 7] {
    let Places {
        header,
        text,
        length,
    } = places;
    [
        (0, 512, Sums::Left),
        (0, 512, Sums::Own),
        (header, 512, Sums::Left),
        (header, 512, Sums::Own),
        (header, 512, Sums::All),
        (text, length, Sums::Left),
        (text, length, Sums::All),
    ]
}

/// A group stands on a device, and no change of a byte of its front is answered wrong.
fn are_answered(
    alloc: Global,
    disk: &mut MemDisk,
    bytes: &mut [u8],
    places: Places,
) -> Result<(), Fail> {
    let fault = fault(alloc, disk.left(alloc, &[])?);
    holds(fault.is_none(), "a group")?;
    for (from, count, sums) in rows(places) {
        for index in 0..count {
            let at = from.saturating_add(index);
            if !is_answered(alloc, disk, bytes, places, at, sums)? {
                return Err(Fail::new(format_args!("byte {at}")));
            }
        }
    }
    Ok(())
}

#[test]
fn each_byte_of_the_label_the_header_and_the_text(rt: HostRuntime) -> Result<(), Fail> {
    let mut bytes = new_bytes(rt.alloc())?;
    let mut disk = device_of(rt.alloc(), &bytes, NEW)?;
    are_answered(rt.alloc(), &mut disk, &mut bytes, NEW)
}

#[test]
fn each_byte_of_an_older_label_header_and_text(rt: HostRuntime) -> Result<(), Fail> {
    let mut bytes = older_bytes(rt.alloc())?;
    let mut disk = device_of(rt.alloc(), &bytes, OLDER)?;
    are_answered(rt.alloc(), &mut disk, &mut bytes, OLDER)
}
