//! A new image.

ghost use Rattle.std.specs.Prelude.{◌≡◌, ◌++◌, ◌≢◌, ℕ, ◌+◌, ◌-◌, ◌*◌, ◌<◌, ◌≤◌, ◌⊎◌, Ok, Some, None, OnOk, OnErr, IfOk, length, replicate, ◌^◌};
ghost use Rattle.std.specs.Option.{ForSome, option_copied};
ghost use Rattle.sm_base.specs.Numbers.{first, div_up};
ghost use Rattle.vhd_fields.specs.Footers.{IsFooter, footer_bytes, footer_read};
ghost use Rattle.vhd_fields.specs.Headers.{IsHeader, header_bytes};
ghost use Rattle.vhd_map.specs.Slots.{top_of};
ghost use Rattle.vhd_layout.specs.Images.{header_at};
ghost use Rattle.vg_volumes.specs.Stored.{stored, sectors_in, WorksOn, Counts};
ghost use Rattle.vhd_volumes.specs.Steps.{Holds, Does, Gives};
ghost use Rattle.vhd_volumes.specs.Truth.{HasRoomIn};
ghost use Rattle.vhd_volumes.specs.Writes.{KeepsBut};
ghost use Rattle.vg_volumes.specs.Volumes.{KeepsAt};
ghost use Rattle.vhd_image.specs.Opened.{ReadsAsImage};
ghost use Rattle.vhd_image.specs.Bodies.{StandsIn};
ghost use Rattle.vhd_image.specs.Calls.{MayPut};
ghost use Rattle.vhd_image.specs.Made.{HasEntriesTo, IsInTable, IsInSlots, IsMapOf, IsDiskSize, MayHave, linked, new_footer, new_header, stamp_of, uid_of, new_head, IsNewImage};
ghost use Rattle.vhd_image.specs.declared.images.Body.TheVariants.{Vhd};

use crate::bytes::halves;
use crate::images::{Body, Image};
use crate::opening::see_slots;
use crate::sizes::sectors_in;
use crate::steps::put_sector;
use sm_base::{Failed, Geometry, Name};
use uuid::Uuid;
use vg_volumes::Store;
use vhd_fields::{Footer, Header};
use vhd_map::Map;
use vhd_volumes::Head;

/// Writes a footer into a sector of a volume.
pub(crate) fn put_footer<S: Store>(
    store: &mut S,
    volume: &Name,
    footer: &Footer,
    at: u64,
) -> Result<(), Failed>
    requires { at < sectors_in (stored S.Store store.old) volume.now }
    ensures works { WorksOn S.Store volume.now store.old store.new }
    ensures cause { Counts S.Store result store.old store.new }
    ensures may_put { Does S.Store volume.now (MayPut at (footer_bytes footer.now)) store.old store.new }
    ensures put { OnOk result (Gives S.Store volume.now (λ r. r at ≡ footer_bytes footer.now) store.new) }
    ensures reads_back { IsFooter footer.now → footer_read (footer_bytes footer.now) ≡ Ok footer.now }
{
    let mut bytes = [0; 512];
    footer.write(&mut bytes);
    put_sector(store, volume, at, &bytes)
}

/// The unique id and the time stamp that a child's header gives of this parent: zeros of a raw one.
fn mark_of(parent: &Image) -> (Uuid, u32)
    ensures uid { result.0 ≡ uid_of parent.now }
    ensures stamp { result.1 ≡ stamp_of parent.now }
{
    match &parent.body {
        Body::Raw { .. } => (Uuid::nil(), 0),
        Body::Vhd { head, .. } => (head.footer.uid, head.footer.stamp),
    }
}

/// The header once it names this parent.
pub(crate) fn linked(header: &Header, parent: &Image) -> Header
    ensures header { result ≡ linked header.now parent.now }
    ensures uid { length (uid_of parent.now) ≡ 16 }
    ensures stamp { stamp_of parent.now < 2 ^ 32 }
{
    let (uid, stamp) = mark_of(parent);
    let _bytes = uid.as_bytes();
    Header {
        table_offset: header.table_offset,
        entries: header.entries,
        block: header.block,
        parent_uid: uid,
        parent_stamp: stamp,
        parent: Some(parent.name()),
    }
}

/// The header of a new image.
pub(crate) fn new_header(geometry: &Geometry, parent: Option<&Image>) -> Header
    ensures { result ≡ new_header geometry.now (option_copied parent.entry) }
{
    let header = Header {
        table_offset: 1536,
        entries: geometry.entries,
        block: 512 * geometry.block,
        parent_uid: Uuid::nil(),
        parent_stamp: 0,
        parent: None,
    };
    match parent {
        None => header,
        Some(image) => linked(&header, image),
    }
}

/// The footer of a new image.
fn new_footer(now: u32, sectors: u64, uid: Uuid, parent: Option<&Image>) -> Footer
    requires { 512 * sectors < 18446744073709551616 }
    ensures { result ≡ new_footer now sectors uid (option_copied parent.entry) }
{
    let kind = match parent {
        None => 3,
        Some(_) => 4,
    };
    Footer {
        stamp: now,
        creator: *b"lvhd",
        creator_version: 65536,
        host: 0,
        original: 512 * sectors,
        current: 512 * sectors,
        kind,
        data_offset: 512,
        uid,
    }
}

/// Writes the header into sectors 1 and 2 of a volume.
fn put_header<S: Store>(store: &mut S, volume: &Name, header: &Header) -> Result<(), Failed>
    requires within { 3 ≤ sectors_in (stored S.Store store.old) volume.now }
    requires proper { IsHeader header.now }
    ensures works { WorksOn S.Store volume.now store.old store.new }
    ensures cause { Counts S.Store result store.old store.new }
    ensures header { OnOk result (Gives S.Store volume.now (λ r. header_at r ≡ Some header.now) store.new) }
    ensures bytes { OnOk result (Gives S.Store volume.now (λ r. r 1 ++ r 2 ≡ header_bytes header.now) store.new) }
    ensures others { Does S.Store volume.now (KeepsBut (λ p. (1 ≤ p) × (p < 3))) store.old store.new }
{
    let mut bytes = [0; 1024];
    header.write(&mut bytes);
    let (front, back) = halves(&bytes);
    put_sector(store, volume, 1, &front)?;
    put_sector(store, volume, 2, &back)?;
    Ok(())
}

/// Writes the table of a map, sector by sector.
fn put_table<S: Store>(
    store: &mut S,
    geometry: &Geometry,
    volume: &Name,
    map: &Map,
) -> Result<(), Failed>
    requires entries { length map.now ≡ geometry.now.entries }
    requires room { first geometry.now.entries ≤ sectors_in (stored S.Store store.old) volume.now }
    ensures works { WorksOn S.Store volume.now store.old store.new }
    ensures cause { Counts S.Store result store.old store.new }
    ensures table { OnOk result (Gives S.Store volume.now
        (HasEntriesTo (128 * div_up geometry.now.entries 128) geometry.now map.now) store.new) }
    ensures others { Does S.Store volume.now (KeepsBut (IsInTable geometry.now)) store.old store.new }
{
    for index in 0..geometry.entries.div_ceil(128) {
        let mut bytes = [0; 512];
        map.write_sector(index, geometry, &mut bytes);
        put_sector(store, volume, 3 + index as u64, &bytes)?;
    }
    Ok(())
}

impl Image {
    /// Makes an image without slots in a volume: the footer's copy in sector 0, the header in sectors 1 and 2, the
    /// blank table, and the footer in the volume's last sector. It takes the blank map of T entries, takes no memory,
    /// and makes no sync. The size is in sectors, `now` in seconds since the beginning of the year 2000.
    ///
    /// # Errors
    ///
    /// The store failed; what the volume holds then is open.
    pub fn make<S: Store>(
        store: &mut S,
        volume: &Name,
        map: Map,
        uid: Uuid,
        sectors: u64,
        parent: Option<&Image>,
        now: u32,
    ) -> Result<Image, Failed>
        requires blank { map ≡ replicate (S.site store.old).geometry.entries None }
        requires room { HasRoomIn (stored S.Store store.old) volume.now 0 }
        requires size { IsDiskSize (S.site store.old).geometry sectors }
        requires parent { ForSome (option_copied parent) (MayHave sectors) }
        ensures works { WorksOn S.Store volume.now store.old store.new }
        ensures cause { Counts S.Store result store.old store.new }
        ensures fields { IfOk result (λ image. image ≡ Vhd
            (new_head (S.site store.old).geometry volume.now now sectors uid (option_copied parent.entry))
            (replicate (S.site store.old).geometry.entries None)) }
        ensures stands { IfOk result (StandsIn (S.site store.old).geometry
            (sectors_in (stored S.Store store.old) volume.now)) }
        // A read of the volume gives this image, without slots.
        ensures image { OnOk result (Holds S.Store volume.now
            (IsNewImage (stored S.Store store.old)
            (new_head (S.site store.old).geometry volume.now now sectors uid
            (option_copied parent.entry))) store.new) }
        // Its footers and its header, byte for byte.
        ensures last { OnOk result (Gives S.Store volume.now
            (λ r. r (sectors_in (stored S.Store store.old) volume.now - 1) ≡ footer_bytes
            (new_footer now sectors uid (option_copied parent.entry))) store.new) }
        ensures first { OnOk result (Gives S.Store volume.now
            (λ r. r 0 ≡ footer_bytes (new_footer now sectors uid (option_copied parent.entry))) store.new) }
        ensures header { OnOk result (Gives S.Store volume.now
            (λ r. r 1 ++ r 2 ≡ header_bytes
            (new_header (S.site store.old).geometry (option_copied parent.entry))) store.new) }
        ensures copy { OnOk result (Gives S.Store volume.now
            (λ r. footer_read (r 0) ≡ Ok (new_footer now sectors uid (option_copied parent.entry))) store.new) }
    {
        Image::seal(store, volume, map, uid, sectors, parent, now)
    }

    /// Makes an image of what a volume holds in its slots: the footer's copy in sector 0, the header in sectors 1 and 2, the
    /// table of this map of T entries, and the footer in the volume's last sector. What the slots hold stays as it is. It takes
    /// no memory, and makes no sync. The size is in sectors, `now` in seconds since the beginning of the year 2000.
    ///
    /// # Errors
    ///
    /// The store failed; what the volume holds outside its slots then is open.
    pub fn seal<S: Store>(
        store: &mut S,
        volume: &Name,
        map: Map,
        uid: Uuid,
        sectors: u64,
        parent: Option<&Image>,
        now: u32,
    ) -> Result<Image, Failed>
        requires map { IsMapOf (S.site store.old).geometry sectors map }
        requires room { HasRoomIn (stored S.Store store.old) volume.now (top_of map) }
        requires size { IsDiskSize (S.site store.old).geometry sectors }
        requires parent { ForSome (option_copied parent) (MayHave sectors) }
        ensures works { WorksOn S.Store volume.now store.old store.new }
        ensures cause { Counts S.Store result store.old store.new }
        ensures fields { IfOk result (λ image. image ≡ Vhd
            (new_head (S.site store.old).geometry volume.now now sectors uid (option_copied parent.entry)) map) }
        ensures stands { IfOk result (StandsIn (S.site store.old).geometry
            (sectors_in (stored S.Store store.old) volume.now)) }
        // A read of the volume gives this image, with the slots of the map.
        ensures image { OnOk result (Holds S.Store volume.now
            (λ h. ReadsAsImage (S.site store.old).geometry (sectors_in (stored S.Store store.old) volume.now) h
            (new_head (S.site store.old).geometry volume.now now sectors uid
            (option_copied parent.entry)) map) store.new) }
        // Each sector between the table and the last sector is as it was.
        ensures slots { Does S.Store volume.now
            (KeepsAt (IsInSlots (S.site store.old).geometry (sectors_in (stored S.Store store.old) volume.now)))
            store.old store.new }
        // Its footers and its header, byte for byte.
        ensures last { OnOk result (Gives S.Store volume.now
            (λ r. r (sectors_in (stored S.Store store.old) volume.now - 1) ≡ footer_bytes
            (new_footer now sectors uid (option_copied parent.entry))) store.new) }
        ensures first { OnOk result (Gives S.Store volume.now
            (λ r. r 0 ≡ footer_bytes (new_footer now sectors uid (option_copied parent.entry))) store.new) }
        ensures header { OnOk result (Gives S.Store volume.now
            (λ r. r 1 ++ r 2 ≡ header_bytes
            (new_header (S.site store.old).geometry (option_copied parent.entry))) store.new) }
        ensures copy { OnOk result (Gives S.Store volume.now
            (λ r. footer_read (r 0) ≡ Ok (new_footer now sectors uid (option_copied parent.entry))) store.new) }
    {
        let geometry = store.geometry();
        see_slots(&map);
        let last = sectors_in(store, volume) - 1;
        let footer = new_footer(now, sectors, uid, parent);
        let header = new_header(&geometry, parent);
        put_footer(store, volume, &footer, 0)?;
        put_header(store, volume, &header)?;
        put_table(store, &geometry, volume, &map)?;
        put_footer(store, volume, &footer, last)?;
        let head = Head {
            volume: *volume,
            footer,
            header,
        };
        Ok(Image {
            body: Body::Vhd { head, map },
        })
    }
}
