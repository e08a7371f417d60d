//! An image that is read off its volume.

ghost use Rattle.std.specs.Prelude.{◌≡◌, ◌≢◌, ◌<◌, ◌≤◌, ◌⊎◌, ◌*◌, ◌+◌, ◌/◌, ◌↔◌, ◌++◌, ℕ, Err, Some, None, IsTrue, MatchOption, IfSome, OnErr, IfOk, IfErr, length, replicate};
ghost use Rattle.sm_base.specs.Numbers.{first};
ghost use Rattle.sm_base.specs.declared.faults.OpenFault.TheVariants as fault;
ghost use Rattle.sm_base.specs.declared.faults.Place.TheVariants as at;
ghost use Rattle.sm_disk.specs.Held.{reads};
ghost use Rattle.vhd_map.specs.Slots.{IsMap};
ghost use Rattle.vhd_layout.specs.Images.{IsFooterOf, IsHeaderOf, footer_at, header_at};
ghost use Rattle.vg_volumes.specs.Stored.{stored, sectors_in, OnlyReads, WorksOn, Counts};
ghost use Rattle.vhd_volumes.specs.Steps.{Holds, Gives};
ghost use Rattle.vhd_volumes.specs.Truth.{disk_blocks, layout_in};
ghost use Rattle.vhd_image.specs.Bodies.{volume_name, StandsIn, IsVhd, IfVhd};
ghost use Rattle.vhd_image.specs.Opened.{FitsIn, ReadsAsImage, few_slots, IsHeadFound, IsMapFound, FailsToOpen};

use crate::bytes::joined;
use crate::images::{Body, Image};
use crate::steps::sector_of;
use sm_base::{Failed, Geometry, Name, OpenFault, Place};
use std::alloc::Global;
use vg_volumes::Store;
use vhd_fields::{Footer, Header};
use vhd_map::Map;
use vhd_volumes::Head;

/// The footer of an image in so many sectors: that of the last one where it reads, else the copy in sector 0 where
/// that reads.
fn footer_in<S: Store>(store: &mut S, volume: &Name, sectors: u64) -> Result<Option<Footer>, Failed>
    requires some { 0 < sectors }
    requires within { sectors ≤ sectors_in (stored S.Store store.old) volume.now }
    ensures reads_only { OnlyReads S.Store store.old store.new }
    ensures cause { Counts S.Store result store.old store.new }
    ensures footer { Gives S.Store volume.now (λ r. IfOk result (λ found. found ≡ footer_at sectors r)) store.old }
{
    let last = sector_of(store, volume, sectors - 1)?;
    let own = Footer::read(&last);
    if own.is_ok() {
        return Ok(own.ok());
    }
    let front = sector_of(store, volume, 0)?;
    let copy = Footer::read(&front);
    Ok(copy.ok())
}

/// The header in sectors 1 and 2, where it reads.
fn header_in<S: Store>(store: &mut S, volume: &Name) -> Result<Option<Header>, Failed>
    requires { 3 ≤ sectors_in (stored S.Store store.old) volume.now }
    ensures reads_only { OnlyReads S.Store store.old store.new }
    ensures cause { Counts S.Store result store.old store.new }
    ensures header { Gives S.Store volume.now (λ r. IfOk result (λ found. found ≡ header_at r)) store.old }
{
    let front = sector_of(store, volume, 1)?;
    let back = sector_of(store, volume, 2)?;
    let header = Header::read(&joined(&front, &back));
    Ok(header.ok())
}

/// A dynamic or differencing disk of a whole number of blocks, from 1 to the number of entries.
fn is_footer_of(geometry: &Geometry, footer: &Footer, sectors: u64) -> bool
    ensures { IsTrue result ↔ IsFooterOf (layout_in geometry.now footer.now sectors) footer.now }
{
    let size = footer.current / 512;
    let block = geometry.block as u64;
    let blocks = size / block;
    let is_whole = footer.current % 512 == 0 && size % block == 0;
    let is_within = 1 <= blocks && blocks <= geometry.entries as u64;
    (footer.kind == 3 || footer.kind == 4) && is_whole && is_within
}

/// The header of such an image: the table behind it, the repository's sizes, and a parent exactly where the disk is a
/// differencing one.
fn is_header_of(geometry: &Geometry, footer: &Footer, header: &Header, sectors: u64) -> bool
    ensures { IsTrue result ↔ IsHeaderOf (layout_in geometry.now footer.now sectors) footer.now header.now }
{
    let has_sizes = header.entries == geometry.entries && header.block == 512 * geometry.block;
    let is_parent_right = header.parent.is_some() == (footer.kind == 4);
    header.table_offset == 1536 && has_sizes && is_parent_right
}

/// The head of the image in the first so many sectors of a volume, where it has one.
fn head_in<S: Store>(
    store: &mut S,
    geometry: &Geometry,
    volume: &Name,
    sectors: u64,
) -> Result<Option<Head>, Failed>
    requires least { 3 ≤ sectors }
    requires within { sectors ≤ sectors_in (stored S.Store store.old) volume.now }
    ensures reads_only { OnlyReads S.Store store.old store.new }
    ensures cause { Counts S.Store result store.old store.new }
    ensures volume { IfOk result (λ found. IfSome found (λ head. head.volume ≡ volume.now)) }
    ensures footer { IfOk result (λ found. IfSome found (λ head. IsFooterOf (layout_in geometry.now head.footer sectors) head.footer)) }
    ensures header { IfOk result (λ found. IfSome found (λ head. IsHeaderOf (layout_in geometry.now head.footer sectors) head.footer head.header)) }
    ensures room { IfOk result (λ found. IfSome found (λ head. first geometry.now.entries + 1 ≤ sectors)) }
    ensures head { Holds S.Store volume.now (λ h. IfOk result (IsHeadFound geometry.now sectors h)) store.old }
{
    let footer_found = footer_in(store, volume, sectors)?;
    let Some(footer) = footer_found else {
        return Ok(None);
    };
    if !is_footer_of(geometry, &footer, sectors) {
        return Ok(None);
    }
    if sectors <= geometry.first() {
        return Ok(None);
    }
    let header_found = header_in(store, volume)?;
    let Some(header) = header_found else {
        return Ok(None);
    };
    if !is_header_of(geometry, &footer, &header, sectors) {
        return Ok(None);
    }
    Ok(Some(Head {
        volume: *volume,
        footer,
        header,
    }))
}

/// The number of slots in so many sectors, or that of entries where it is less.
fn slots_in(geometry: &Geometry, footer: &Footer, sectors: u64) -> u32
    requires { first geometry.now.entries + 1 ≤ sectors }
    ensures { result ≡ few_slots (layout_in geometry.now footer.now sectors) }
{
    let room = sectors - 1 - geometry.first();
    let slots = room / (1 + geometry.block as u64);
    slots.min(geometry.entries as u64) as u32
}

/// Each slot of a map is below its number of entries, and no slot stands twice.
pub(crate) fn see_slots(map: &Map)
    requires { 0 < length map.now }
    ensures { IsMap map.now }
{
    let _slot = map.slot(0);
}

/// The map that the table of an image gives, where it gives one: each entry is blank, or that of a block of the disk
/// with a slot of the image, and no slot stands twice.
fn map_in<S: Store>(
    store: &mut S,
    geometry: &Geometry,
    head: &Head,
    sectors: u64,
    mut map: Map,
) -> Result<Option<Map>, Failed>
    requires blank { map ≡ replicate geometry.now.entries None }
    requires footer { IsFooterOf (layout_in geometry.now head.now.footer sectors) head.now.footer }
    requires room { first geometry.now.entries + 1 ≤ sectors }
    requires within { sectors ≤ sectors_in (stored S.Store store.old) head.now.volume }
    ensures reads_only { OnlyReads S.Store store.old store.new }
    ensures cause { Counts S.Store result store.old store.new }
    ensures entries { IfOk result (λ found. IfSome found (λ m. length m ≡ geometry.now.entries)) }
    ensures fits { IfOk result (λ found. IfSome found (FitsIn (layout_in geometry.now head.now.footer sectors))) }
    ensures map { IfOk result (λ found. IfSome found IsMap) }
    ensures table { Holds S.Store head.now.volume (λ h. IfOk result
        (IsMapFound geometry.now sectors h head.now)) store.old }
{
    let blocks = (head.footer.current / 512 / geometry.block as u64) as u32;
    let slots = slots_in(geometry, &head.footer, sectors);
    for index in 0..geometry.entries.div_ceil(128) {
        let bytes = sector_of(store, &head.volume, 3 + index as u64)?;
        if !map.read_sector(index, geometry, blocks, slots, &bytes) {
            return Ok(None);
        }
        see_slots(&map);
    }
    Ok(Some(map))
}

/// The damage of the image in a volume.
fn damaged(volume: &Name) -> OpenFault
    ensures { result ≡ fault.Damaged (at.Image volume.now) }
{
    OpenFault::Damaged {
        place: Place::Image { name: *volume },
    }
}

impl Image {
    /// Reads the image in the first so many extents of a volume: the footer of the last sector, else its copy in
    /// sector 0, the header, and the table sector by sector. Takes memory for the map, 4 bytes an entry and one bit a
    /// slot, and writes nothing.
    ///
    /// # Errors
    ///
    /// `Damaged` exactly where these extents hold no valid image, `Device` where the store failed, and `NoMemory`.
    pub fn open<S: Store>(
        alloc: Global,
        store: &mut S,
        volume: &Name,
        extents: u32,
    ) -> Result<Image, OpenFault>
        requires some { 1 ≤ extents }
        requires within { extents * (S.site store.old).geometry.extent ≤ sectors_in
            (stored S.Store store.old) volume.now }
        ensures works { WorksOn S.Store volume.now store.old store.new }
        ensures reads_only { OnlyReads S.Store store.old store.new }
        ensures vhd { IfOk result IsVhd }
        ensures name { IfOk result (λ image. volume_name image ≡ volume.now) }
        ensures stands { IfOk result (StandsIn (S.site store.old).geometry (extents * (S.site store.old).geometry.extent)) }
        ensures image { Holds S.Store volume.now (λ h. IfOk result
            (λ image. IfVhd image
            (ReadsAsImage (S.site store.old).geometry (extents * (S.site store.old).geometry.extent) h))) store.old }
        ensures calm { result ≢ Err fault.Device → S.faults store.new ≡ S.faults store.old }
        ensures cause { IfErr result (λ e. FailsToOpen S.Store volume.now
            (extents * (S.site store.old).geometry.extent) e store.old store.new) }
    {
        let geometry = store.geometry();
        let sectors = extents as u64 * geometry.extent as u64;
        let Ok(head_found) = head_in(store, &geometry, volume, sectors) else {
            return Err(OpenFault::Device);
        };
        let Some(head) = head_found else {
            return Err(damaged(volume));
        };
        let Ok(blank) = Map::blank(alloc, geometry.entries) else {
            return Err(OpenFault::NoMemory);
        };
        let Ok(map_found) = map_in(store, &geometry, &head, sectors, blank) else {
            return Err(OpenFault::Device);
        };
        let Some(map) = map_found else {
            return Err(damaged(volume));
        };
        Ok(Image {
            body: Body::Vhd { head, map },
        })
    }
}
