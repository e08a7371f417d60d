//! Bytes of a device that a case writes over or asks for.

use crate::devices::Device;
use crate::groups::{name_of, opened};
use case_text::{At, Place, Site};
use case_words::{Wrong, bytes_of, found};
use sm_base::Name;
use std::alloc::Global;
use vg_volumes::Store;

/// The first sectors of a group's parts: the table's header, the two slots of its text, of so many sectors each, and the extents.
#[derive(Clone, Copy)]
struct Parts {
    header: u64,
    slots: [u64; 2],
    slot_sectors: u64,
    extents: u64,
}

/// The parts of a group of version 1.
const OLD: Parts = Parts {
    header: 1,
    slots: [2, 1026],
    slot_sectors: 1024,
    extents: 4096,
};

/// Those of version 2 in the narrow layout.
const NARROW: Parts = Parts {
    header: 2050,
    slots: [2051, 2],
    slot_sectors: 2045,
    extents: 4096,
};

/// Those of version 2 in the wide layout.
const WIDE: Parts = Parts {
    header: 2050,
    slots: [4096, 20736],
    slot_sectors: 16640,
    extents: 37376,
};

/// Which sums stand over a sector.
#[derive(Clone, Copy)]
enum Sums {
    /// None.
    Nothing,
    /// Of the bytes in front of the last four, in these.
    Own,
    /// The same, and in front of it that of the table's text.
    Table,
    /// The complement of the sum of all other bytes, at byte 64.
    Footer,
    /// The same of this sector and the next, at byte 36.
    Header,
}

/// A sector of the device, and the sums over it.
#[derive(Clone, Copy)]
struct Summed {
    sector: u64,
    sums: Sums,
}

/// The number in four bytes of a sector.
fn number_at(sector: &[u8; 512], at: usize) -> u32 {
    let mut number = 0u32;
    for byte in sector.iter().skip(at).take(4) {
        number = (number & 0x00ff_ffff) * 256 + u32::from(*byte);
    }
    number
}

/// Puts bytes into a sector.
fn put_at(sector: &mut [u8; 512], at: usize, bytes: &[u8]) {
    for (to, byte) in sector.iter_mut().skip(at).zip(bytes.iter()) {
        *to = *byte;
    }
}

/// The sum of the first bytes of a sector.
fn sum_front(sector: &[u8; 512], count: usize) -> u32 {
    let mut sum = 0u32;
    for byte in sector.iter().take(count) {
        sum = sum.wrapping_add(u32::from(*byte));
    }
    sum
}

/// The parts of the group on a device, by the version and the layout that its label says.
fn parts_of(alloc: Global, disk: &mut Device) -> Result<Parts, Wrong> {
    let label = disk.read(alloc, 0)?;
    if number_at(&label, 8) == 1 {
        Ok(OLD)
    } else if number_at(&label, 44) == 1 {
        Ok(WIDE)
    } else {
        Ok(NARROW)
    }
}

/// The first sector of the slot that the header names.
fn slot_of(parts: &Parts, header: &[u8; 512]) -> u64 {
    let [first, second] = parts.slots;
    if number_at(header, 8) == 1 {
        second
    } else {
        first
    }
}

/// The sum of the table's text.
fn text_sum(
    alloc: Global,
    disk: &mut Device,
    parts: &Parts,
    header: &[u8; 512],
) -> Result<u32, Wrong> {
    let slot = slot_of(parts, header);
    let mut left = number_at(header, 12) as usize;
    let mut sum = 0u32;
    for index in 0..parts.slot_sectors {
        if left == 0 {
            break;
        }
        let sector = disk.read(alloc, slot.saturating_add(index))?;
        sum = sum.wrapping_add(sum_front(&sector, left));
        left = left.saturating_sub(512);
    }
    Ok(sum)
}

/// Makes the sum over the bytes in front of a sector's last four right.
fn seal(alloc: Global, disk: &mut Device, at: u64) -> Result<(), Wrong> {
    let mut sector = disk.read(alloc, at)?;
    let sum = sum_front(&sector, 508);
    put_at(&mut sector, 508, &sum.to_be_bytes());
    disk.write(alloc, at, &sector)
}

/// Makes the sums of the table right.
fn seal_table(alloc: Global, disk: &mut Device) -> Result<(), Wrong> {
    let parts = parts_of(alloc, disk)?;
    let mut header = disk.read(alloc, parts.header)?;
    let sum = text_sum(alloc, disk, &parts, &header)?;
    put_at(&mut header, 16, &sum.to_be_bytes());
    disk.write(alloc, parts.header, &header)?;
    seal(alloc, disk, parts.header)
}

/// Makes the checksum of a footer right.
fn seal_footer(alloc: Global, disk: &mut Device, at: u64) -> Result<(), Wrong> {
    let mut sector = disk.read(alloc, at)?;
    put_at(&mut sector, 64, &[0; 4]);
    let sum = sum_front(&sector, 512);
    put_at(&mut sector, 64, &(!sum).to_be_bytes());
    disk.write(alloc, at, &sector)
}

/// Makes the checksum of a header of two sectors right.
fn seal_header(alloc: Global, disk: &mut Device, at: u64) -> Result<(), Wrong> {
    let mut sector = disk.read(alloc, at)?;
    let next = disk.read(alloc, at.saturating_add(1))?;
    put_at(&mut sector, 36, &[0; 4]);
    let sum = sum_front(&sector, 512).wrapping_add(sum_front(&next, 512));
    put_at(&mut sector, 36, &(!sum).to_be_bytes());
    disk.write(alloc, at, &sector)
}

/// Makes the sums over a sector right.
fn make_right(alloc: Global, disk: &mut Device, at: Summed) -> Result<(), Wrong> {
    match at.sums {
        Sums::Nothing => Err(found(alloc, "no sum stands over this place")),
        Sums::Own => seal(alloc, disk, at.sector),
        Sums::Table => seal_table(alloc, disk),
        Sums::Footer => seal_footer(alloc, disk, at.sector),
        Sums::Header => seal_header(alloc, disk, at.sector),
    }
}

/// The extents of a volume of a group.
fn list_of<S: Store>(alloc: Global, store: &S, name: &Name) -> Result<Vec<u32>, Wrong> {
    let mut list = Vec::new(alloc);
    if let Some(volume) = store.table().get(name) {
        list.extend_from_slice(volume.extents())?;
    }
    Ok(list)
}

/// The extents of a volume in the group on a device, and the sectors of one.
fn extents_of(alloc: Global, disk: &Device, volume: &str) -> Result<(Vec<u32>, u64), Wrong> {
    let name = name_of(alloc, volume)?;
    let group = opened(alloc, disk.copy(alloc)?)?;
    let extent = u64::from(group.geometry().extent);
    let list = list_of(alloc, &group, &name);
    let _disk = group.into_disk();
    Ok((list?, extent))
}

/// Which sums stand over a sector of an image of so many.
fn image_sums(at: u64, size: u64) -> Sums {
    match at {
        0 => Sums::Footer,
        1 => Sums::Header,
        _ if at.saturating_add(1) == size => Sums::Footer,
        _ => Sums::Nothing,
    }
}

/// A sector of a volume, where the extents begin at this sector of the device.
fn volume_sector(
    alloc: Global,
    disk: &Device,
    front: u64,
    volume: &str,
    at: At,
) -> Result<Summed, Wrong> {
    let (extents, extent) = extents_of(alloc, disk, volume)?;
    let size = extent.saturating_mul(extents.len() as u64);
    let at = match at {
        At::Last => size.saturating_sub(1),
        At::Sector(at) => at,
    };
    let index = at.checked_div(extent).unwrap_or(0);
    let within = at.saturating_sub(index.saturating_mul(extent));
    let Some(number) = extents.get(index as usize) else {
        return Err(found(alloc, "no such sector of the volume"));
    };
    let begin = u64::from(*number).saturating_mul(extent);
    Ok(Summed {
        sector: begin.saturating_add(within).saturating_add(front),
        sums: image_sums(at, size),
    })
}

/// The sector that a case names.
fn sector_of(alloc: Global, disk: &mut Device, site: Site<'_>) -> Result<Summed, Wrong> {
    let parts = parts_of(alloc, disk)?;
    let (sector, sums) = match site {
        Site::Label => (0, Sums::Own),
        Site::Header => (parts.header, Sums::Table),
        Site::Text => (
            slot_of(&parts, &disk.read(alloc, parts.header)?),
            Sums::Table,
        ),
        Site::Record(number) => (number.saturating_add(parts.extents), Sums::Own),
        Site::Sector(at) => (at, Sums::Nothing),
        Site::Volume { name, at } => {
            return volume_sector(alloc, disk, parts.extents, name, at);
        }
    };
    Ok(Summed { sector, sums })
}

/// Bytes that a case spells, which fit a sector behind the first of them.
fn fitting(alloc: Global, words: &str, offset: usize) -> Result<Vec<u8>, Wrong> {
    let bytes = bytes_of(alloc, words)?;
    if offset.saturating_add(bytes.len()) > 512 {
        return Err(found(alloc, "bytes past the end of a sector"));
    }
    Ok(bytes)
}

/// Writes bytes over at a place, and makes right the sums over it where that is asked for.
pub fn set(
    alloc: Global,
    disk: &mut Device,
    place: Place<'_>,
    words: &str,
    seals: bool,
) -> Result<(), Wrong> {
    let at = sector_of(alloc, disk, place.site)?;
    let bytes = fitting(alloc, words, place.offset)?;
    let mut sector = disk.read(alloc, at.sector)?;
    put_at(&mut sector, place.offset, &bytes);
    disk.write(alloc, at.sector, &sector)?;
    if seals {
        return make_right(alloc, disk, at);
    }
    Ok(())
}

/// The first byte of a sector, from one on, that is not the one that is wanted: how far behind the first of them, and what it is.
fn other_byte(sector: &[u8; 512], from: usize, wanted: &[u8]) -> Option<(usize, u8)> {
    for (at, (byte, wanted)) in sector.iter().skip(from).zip(wanted.iter()).enumerate() {
        if *byte != *wanted {
            return Some((at, *byte));
        }
    }
    None
}

/// Whether a device has bytes at a place.
pub fn has(alloc: Global, disk: &mut Device, place: Place<'_>, words: &str) -> Result<(), Wrong> {
    let at = sector_of(alloc, disk, place.site)?;
    let bytes = fitting(alloc, words, place.offset)?;
    let sector = disk.read(alloc, at.sector)?;
    if let Some((at, byte)) = other_byte(&sector, place.offset, &bytes) {
        let text = format!(in alloc; "byte {at} of these is {byte:02x}")?;
        return Err(found(alloc, text.as_str()));
    }
    Ok(())
}
