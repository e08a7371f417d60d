//! What is written of a fork between its commits.

ghost use Rattle.std.specs.Prelude.{◌≡◌, ◌≢◌, ◌^◌, ◌<◌, ◌-◌, replicate, unwrap_or, Some, None, IsSome, IfOk, OnOk};
ghost use Rattle.std.specs.List.{slice_set};
ghost use Rattle.sm_base.specs.Names.{base_uuid as base_uuid_of};
ghost use Rattle.vg_meta.specs.Roomy.{table_alone};
ghost use Rattle.vg_volumes.specs.Stored.{stored, Stays, Counts};
ghost use Rattle.vhd_image.specs.Bodies.{sector_count};
ghost use Rattle.vhd_image.specs.Made.{IsDiskSize, IsParentImage};
ghost use Rattle.vhd_image.specs.declared.images.Body.TheVariants.{Vhd};
ghost use Rattle.vhd_volumes.specs.Truth.{HasRoomIn};
ghost use Rattle.sm_base.specs.declared.names.Name.TheVariants as name;
ghost use Rattle.sm_record.specs.Records.{IsRecord};
ghost use Rattle.sm_mgt.specs.Places.{HasAllPlaces, place_for};
ghost use Rattle.sm_clone.specs.Forking.{child_head, IsBesideFork, IsFilled};

use crate::forks::Fork;
use sm_base::{Failed, Name, base_uuid};
use sm_mgt::Mgt;
use sm_record::Record;
use vg_volumes::Store;
use vhd_image::Image;
use vhd_map::Map;

/// Writes the two new images over the base, which hold nothing, and the twin's record into its place. The maps are blank.
pub fn fill<S: Store>(
    store: &mut S,
    records: &mut Mgt,
    fork: &Fork,
    base: &Image,
    entry: Record,
    own_map: Map,
    twin_map: Map,
    now: u32,
) -> Result<(Image, Image), Failed>
    requires own_room { HasRoomIn (stored S.Store store.old) (name.Vhd fork.now.disk) 0 }
    requires twin_room { HasRoomIn (stored S.Store store.old) (name.Vhd fork.now.twin) 0 }
    requires apart { name.Vhd fork.now.disk ≢ name.Vhd fork.now.twin }
    requires own_blank { own_map ≡ replicate (S.site store.old).geometry.entries None }
    requires twin_blank { twin_map ≡ replicate (S.site store.old).geometry.entries None }
    requires size { IsDiskSize (S.site store.old).geometry (sector_count base.now) }
    requires parent { IsParentImage base.now }
    requires numbered { (0 < (table_alone (S.table store.old)).sequence) × ((table_alone (S.table store.old)).sequence < 2 ^ 48) }
    requires places { HasAllPlaces S.Store store.old }
    requires place { IsSome (place_for records.old entry.uuid) }
    requires proper { IsRecord entry }
    requires twin { entry.uuid ≡ fork.now.twin }
    ensures stays { Stays S.Store store.old store.new }
    ensures cause { Counts S.Store result store.old store.new }
    ensures middle { S.told → IsBesideFork (S.site store.old) (table_alone (S.table store.old)) fork.now (S.area store.old) (S.area store.new)
        (unwrap_or (place_for records.old entry.uuid) 0) entry }
    ensures own { IfOk result (λ images. images.0 ≡ Vhd (child_head (S.site store.old).geometry fork.now.disk now
        (base_uuid_of ((table_alone (S.table store.old)).sequence - 1)) base.now) (replicate (S.site store.old).geometry.entries None)) }
    ensures twin { IfOk result (λ images. images.1 ≡ Vhd (child_head (S.site store.old).geometry fork.now.twin now
        (base_uuid_of (table_alone (S.table store.old)).sequence) base.now) (replicate (S.site store.old).geometry.entries None)) }
    ensures filled { OnOk result (S.told → IsFilled (S.site store.old) (table_alone (S.table store.old))
        (child_head (S.site store.old).geometry fork.now.disk now (base_uuid_of ((table_alone (S.table store.old)).sequence - 1)) base.now)
        (child_head (S.site store.old).geometry fork.now.twin now (base_uuid_of (table_alone (S.table store.old)).sequence) base.now)
        (unwrap_or (place_for records.old entry.uuid) 0) entry (S.area store.old) (S.area store.new)) }
    ensures kept { OnOk result (records.new ≡ slice_set records.old (unwrap_or (place_for records.old entry.uuid) 0) (Some entry)) }
{
    let number = store.table().seq();
    let sectors = base.sectors();
    let own = Name::Vhd(fork.disk);
    let own_uid = base_uuid(number - 1);
    let own_image = Image::make(store, &own, own_map, own_uid, sectors, Some(base), now)?;
    let twin = Name::Vhd(fork.twin);
    let twin_uid = base_uuid(number);
    let twin_image = Image::make(store, &twin, twin_map, twin_uid, sectors, Some(base), now)?;
    records.put(store, entry)?;
    Ok((own_image, twin_image))
}
