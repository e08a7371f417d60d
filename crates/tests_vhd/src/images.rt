//! An image in a volume of a store whose content no clause tells, and what is asked before a call of it.

ghost use Rattle.std.specs.Prelude.{◌≡◌, ◌≤◌, ◌<◌, ◌*◌, length, false, IfOk, OnOk};
ghost use Rattle.std.specs.Bool.{OnTrue};
ghost use Rattle.sm_disk.specs.Held.{IsWhole};
ghost use Rattle.vg_volumes.specs.Stored.{stored, sectors_in, OnlyReads};
ghost use Rattle.vhd_image.specs.Bodies.{StandsIn, IsVhd, sector_count, volume_name};
ghost use Rattle.vhd_image.specs.Made.{IsDiskSize};
ghost use Rattle.vhd_image.specs.Written.{HasRoomToWrite};

use crate::volumes::{extents_of, sectors_in};
use sm_base::{Failed, Geometry, Name};
use std::alloc::Global;
use std::test::Fail;
use uuid::Uuid;
use vg_volumes::Store;
use vhd_image::Image;
use vhd_map::Map;
use vhd_write::Payload;

/// Whether so many sectors are whole blocks of a disk. The blocks have 8 sectors, and the images 64 entries.
pub fn is_size(geometry: &Geometry, sectors: u64) -> bool
    ensures { OnTrue result (IsDiskSize geometry.now sectors) }
{
    let is_small = geometry.block == 8 && geometry.entries == 64;
    is_small && sectors % 8 == 0 && 8 <= sectors && sectors <= 512
}

/// Makes an image of so many sectors, without a parent and at the time 0.
pub fn make<S: Store>(
    alloc: Global,
    store: &mut S,
    name: &Name,
    uid: [u8; 16],
    sectors: u64,
) -> Result<Image, Fail>
    ensures flag { S.failed store.new ≡ S.failed store.old }
{
    let geometry = store.geometry();
    if sectors_in(store, name)? <= geometry.first() || !is_size(&geometry, sectors) {
        return Err(Fail::from("a size of whole blocks, and room for an image"));
    }
    let map = Map::blank(alloc, geometry.entries)?;
    let image = Image::make(store, name, map, Uuid::from_bytes(uid), sectors, None, 0)?;
    Ok(image)
}

/// The image in a volume.
pub fn opened<S: Store>(alloc: Global, store: &mut S, name: &Name) -> Result<Image, Fail>
    ensures vhd { IfOk result IsVhd }
    ensures name { IfOk result (λ image. volume_name image ≡ name.now) }
    ensures stands { IfOk result (StandsIn (S.site store.new).geometry (sectors_in (stored S.Store store.new) name.now)) }
    ensures reads_only { OnlyReads S.Store store.old store.new }
    ensures flag { S.failed store.new ≡ S.failed store.old }
{
    let extents = extents_of(store, name)?;
    if extents == 0 {
        return Err(Fail::from("a volume with extents"));
    }
    let Ok(image) = Image::open(alloc, store, name, extents) else {
        return Err(Fail::from("the image is opened"));
    };
    Ok(image)
}

/// A sector of the disk, where an image holds it.
pub fn own_of<S: Store>(store: &mut S, image: &Image, at: u64) -> Result<Option<[u8; 512]>, Fail>
    requires told { ¬ S.told }
    requires stands { StandsIn (S.site store.old).geometry
        (sectors_in (stored S.Store store.old) (volume_name image.now)) image.now }
    ensures flag { S.failed store.new ≡ S.failed store.old }
{
    if at >= image.sectors() {
        return Err(Fail::from("a sector of the disk"));
    }
    let mut bytes = [0; 512];
    let is_held = image.read_own(store, at, &mut bytes)?;
    Ok(if is_held { Some(bytes) } else { None })
}

/// A sector of the disk, where the image in a volume holds it.
pub fn own<S: Store>(
    alloc: Global,
    store: &mut S,
    name: &Name,
    at: u64,
) -> Result<Option<[u8; 512]>, Fail>
    requires { ¬ S.told }
    ensures flag { S.failed store.new ≡ S.failed store.old }
{
    let image = opened(alloc, store, name)?;
    own_of(store, &image, at)
}

/// Whether so many bytes are whole sectors of the disk from this one on, and the volume has room for a slot of each entry.
fn has_room(image: &Image, geometry: &Geometry, sectors: u64, at: u64, length: usize) -> bool
    requires { StandsIn geometry.now sectors image.now }
    ensures whole { OnTrue result (IsWhole at length (sector_count image.now)) }
    ensures room { OnTrue result (HasRoomToWrite geometry.now sectors at length image.now) }
{
    let Some(map) = image.map() else {
        return false;
    };
    if map.entries() == 0 {
        return false;
    }
    let _slot = map.slot(0);
    if geometry.block != 8 {
        return false;
    }
    if geometry
        .first()
        .saturating_add(9 * u64::from(geometry.entries))
        >= sectors
    {
        return false;
    }
    if length == 0 || length % 512 != 0 {
        return false;
    }
    let count = length as u64 / 512;
    let size = image.sectors();
    if count > size || at > size - count {
        return false;
    }
    true
}

/// Writes sectors of the disk into an image, where they are whole and have room.
fn write_into<S: Store>(
    store: &mut S,
    image: &mut Image,
    at: u64,
    from: &[u8],
) -> Result<Result<(), Failed>, Fail>
    requires told { ¬ S.told }
    requires usable { S.failed store.old ≡ false }
    requires stands { StandsIn (S.site store.old).geometry
        (sectors_in (stored S.Store store.old) (volume_name image.old)) image.old }
    ensures flag { S.failed store.new ≡ S.failed store.old }
{
    let geometry = store.geometry();
    let sectors = sectors_in(store, &image.name())?;
    if !has_room(image, &geometry, sectors, at, from.len()) {
        return Err(Fail::from("whole sectors, and room for them"));
    }
    Ok(image.write(store, at, &Payload::given(from)))
}

/// Writes sectors of the disk into the image in a volume.
pub fn write<S: Store>(
    alloc: Global,
    store: &mut S,
    name: &Name,
    at: u64,
    from: &[u8],
) -> Result<Result<(), Failed>, Fail>
    requires told { ¬ S.told }
    requires usable { S.failed store.old ≡ false }
    ensures flag { S.failed store.new ≡ S.failed store.old }
{
    let mut image = opened(alloc, store, name)?;
    write_into(store, &mut image, at, from)
}

/// The slots of the first four blocks of an image, and one more than its highest slot.
fn slots_of(image: &Image) -> Option<([Option<u32>; 4], u32)> {
    let map = image.map()?;
    if map.entries() < 4 {
        return None;
    }
    let slots = [map.slot(0), map.slot(1), map.slot(2), map.slot(3)];
    Some((slots, image.top()))
}

/// The slots of the first four blocks of the image in a volume, and one more than its highest slot.
pub fn slots<S: Store>(
    alloc: Global,
    store: &mut S,
    name: &Name,
) -> Result<Option<([Option<u32>; 4], u32)>, Fail> {
    let image = opened(alloc, store, name)?;
    Ok(slots_of(&image))
}
