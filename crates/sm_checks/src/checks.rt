//! The checks that look at the table and the sizes alone.

ghost use Rattle.std.specs.Prelude.{◌≡◌, ℕ, ◌*◌, ◌<◌, ◌&&◌, not, nat_lt, length, filter, find, is_some, None};
ghost use Rattle.std.specs.Option.{option_copied};
ghost use Rattle.sm_base.specs.Kinds.{is_image};
ghost use Rattle.common_laws.specs.Lists.{first_some};
ghost use Rattle.sm_standing.specs.Checks.{record_volume_fault, too_many_fault, misnamed_fault, second_entry_fault, lost_entry_fault, old_leaf_fault};
ghost use Rattle.sm_standing.specs.Checks.{is_misnamed as is_misnamed_row, lesser};
ghost use Rattle.sm_standing.specs.Outlines.{Outline};
ghost use Rattle.sm_standing.specs.Entries.{is_past, base_number, folding, head, is_coalescing, is_inflating};
ghost use Rattle.vg_meta.specs.Roomy.{table_alone};
ghost use Rattle.sm_checks.specs.Faults.{HasTable, is_copy_placed, is_entry_lost, is_leaf_placed, is_old_besides, table_faults};

use crate::entries::{folding_in, second_entry, second_folding_in};
use crate::forks::is_forking;
use crate::leaves::{is_folding_leaf, is_old_of};
use crate::volumes::{has, is_hidden};
use sm_base::{Geometry, IMAGE_LIMIT, Name, Place, is_base};
use uuid::Uuid;
use vg_layout::record_extents;
use vg_meta::{Table, Volume};

/// The place of the first check by the table that fails.
pub fn table_fault(table: &Table, geometry: &Geometry) -> Option<Place>
    ensures { (x : Outline) → HasTable geometry.now (table_alone table.now) x → result ≡ first_some (table_faults x) }
{
    if let Some(place) = record_volume_fault(table, geometry) {
        return Some(place);
    }
    if let Some(place) = too_many_fault(table) {
        return Some(place);
    }
    if let Some(place) = misnamed_fault(table) {
        return Some(place);
    }
    if let Some(place) = second_fault(table) {
        return Some(place);
    }
    if let Some(place) = lost_fault(table) {
        return Some(place);
    }
    old_fault(table)
}

/// The volume of records is there, with exactly its extents.
fn record_volume_fault(table: &Table, geometry: &Geometry) -> Option<Place>
    ensures { (x : Outline) → HasTable geometry.now (table_alone table.now) x → result ≡ record_volume_fault x }
{
    match table.get(&Name::Mgt) {
        Some(volume) if volume.extents().len() == record_extents(geometry) as usize => None,
        _ => Some(Place::Mgt),
    }
}

/// There are at most 500 images.
fn too_many_fault(table: &Table) -> Option<Place>
    ensures { (x : Outline) → x.table ≡ table_alone table.now → result ≡ too_many_fault x }
{
    if count_images(table.volumes()) > IMAGE_LIMIT {
        Some(Place::Images)
    } else {
        None
    }
}

/// No image has another's UUID, nor the UUID of a base image that is still to come.
fn misnamed_fault(table: &Table) -> Option<Place>
    ensures { (x : Outline) → x.table ≡ table_alone table.now → result ≡ misnamed_fault x }
{
    let volume = first_misnamed(table.volumes(), table)?;
    Some(Place::Image {
        name: volume.name(),
    })
}

/// There is one entry of each group at most.
fn second_fault(table: &Table) -> Option<Place>
    ensures { (x : Outline) → x.table ≡ table_alone table.now → result ≡ second_entry_fault x }
{
    let name = lesser(second_folding_in(table), second_entry(table))?;
    Some(Place::Journal { name })
}

/// The lesser of two names, where there are two.
pub fn lesser(first: Option<Name>, second: Option<Name>) -> Option<Name>
    ensures { result ≡ lesser first second }
{
    let (Some(one), Some(other)) = (first, second) else {
        return first.or(second);
    };
    if one.compare(&other).is_lt() {
        Some(one)
    } else {
        Some(other)
    }
}

/// Each entry stands at a stage of its work, and its UUIDs are not still to come.
fn lost_fault(table: &Table) -> Option<Place>
    ensures { (x : Outline) → x.table ≡ table_alone table.now → result ≡ lost_entry_fault x }
{
    let volume = first_lost(table.volumes(), table)?;
    Some(Place::Journal {
        name: volume.name(),
    })
}

/// Each old leaf belongs to the entry of the folding of a leaf that swaps it. There is one entry of that group at most.
fn old_fault(table: &Table) -> Option<Place>
    ensures { (x : Outline) → x.table ≡ table_alone table.now → second_entry_fault x ≡ None → result ≡ old_leaf_fault x }
{
    let volume = first_orphaned(table.volumes(), table)?;
    Some(Place::Image {
        name: volume.name(),
    })
}

fn count_images(volumes: &[Volume]) -> usize
    ensures { result ≡ length (filter (λ v. is_image v.row.name) volumes.now) }
{
    volumes
        .iter()
        .filter(|volume| volume.name().is_image())
        .count()
}

fn first_misnamed<'a>(volumes: &'a [Volume], table: &Table) -> Option<&'a Volume>
    ensures { option_copied result ≡ find (λ v. is_misnamed_row (table_alone table.now) v.row) volumes.now }
{
    volumes.iter().find(|volume| is_misnamed(volume, table))
}

fn first_lost<'a>(volumes: &'a [Volume], table: &Table) -> Option<&'a Volume>
    ensures { option_copied result ≡ find (λ v. is_entry_lost (table_alone table.now) v.row.name) volumes.now }
{
    volumes.iter().find(|volume| is_lost(&volume.name(), table))
}

/// Whether a name is that of an entry that stands at no stage of its work, or whose UUIDs are still to come.
fn is_lost(name: &Name, table: &Table) -> bool
    ensures { result ≡ is_entry_lost (table_alone table.now) name.now }
{
    match name {
        Name::Inflate { image, extents } => {
            !is_inflating(table, image, *extents) || !is_past(table.seq(), image)
        }
        Name::Clone { disk, base, twin } => {
            !is_forking(table, disk, base, twin) || !are_past(table.seq(), disk, base, twin)
        }
        Name::Coalesce { child, parent } => !is_copy_placed(table, child, parent),
        Name::Relink { child, parent } => !is_copy_placed(table, child, parent),
        Name::Leaf { leaf, parent } => !is_leaf_placed(table, leaf, parent),
        Name::Mgt | Name::Vhd(_) | Name::Raw(_) | Name::Old(_) | Name::Cbt(_) => false,
    }
}

/// Whether the VHD image of a UUID is there, not new, with so many extents at least.
fn is_inflating(table: &Table, image: &Uuid, extents: u32) -> bool
    ensures { result ≡ is_inflating (table_alone table.now) image.now extents }
{
    match table.get(&Name::Vhd(*image)) {
        Some(volume) => !volume.is_fresh() && extents as usize <= volume.extents().len(),
        None => false,
    }
}

/// Whether a copy or a link stands at its stage, and its UUIDs are not still to come.
fn is_copy_placed(table: &Table, child: &Uuid, parent: &Uuid) -> bool
    ensures { result ≡ is_copy_placed (table_alone table.now) child.now parent.now }
{
    is_coalescing(table, child, parent)
        && is_past(table.seq(), child)
        && is_past(table.seq(), parent)
}

/// Whether the VHD image of a UUID is there, not new and hidden, and so is an image of the parent's.
fn is_coalescing(table: &Table, child: &Uuid, parent: &Uuid) -> bool
    ensures { result ≡ is_coalescing (table_alone table.now) child.now parent.now }
{
    is_hidden(table, &Name::Vhd(*child))
        && (is_hidden(table, &Name::Vhd(*parent)) || is_hidden(table, &Name::Raw(*parent)))
}

/// Whether the folding of a leaf stands at one of its stages, and its UUIDs are not still to come.
fn is_leaf_placed(table: &Table, leaf: &Uuid, parent: &Uuid) -> bool
    ensures { result ≡ is_leaf_placed (table_alone table.now) leaf.now parent.now }
{
    is_folding_leaf(table, leaf, parent)
        && is_past(table.seq(), leaf)
        && is_past(table.seq(), parent)
}

fn first_orphaned<'a>(volumes: &'a [Volume], table: &Table) -> Option<&'a Volume>
    ensures { option_copied result ≡ find (λ v. is_old_besides (table_alone table.now) (head (folding (table_alone table.now))) v.row.name) volumes.now }
{
    volumes
        .iter()
        .find(|volume| is_orphaned(&volume.name(), table))
}

/// Whether a name is that of an old leaf, and there is no entry to which it belongs.
fn is_orphaned(name: &Name, table: &Table) -> bool
    ensures { result ≡ is_old_besides (table_alone table.now) (head (folding (table_alone table.now))) name.now }
{
    let Name::Old(leaf) = name else {
        return false;
    };
    match folding_in(table) {
        Some(entry) => !is_old_of(table, leaf, &entry),
        None => true,
    }
}

/// Whether a name of an image is not free for it.
fn is_misnamed(volume: &Volume, table: &Table) -> bool
    ensures { result ≡ is_misnamed_row (table_alone table.now) volume.now.row }
{
    match volume.name() {
        Name::Vhd(uuid) => has(table, &Name::Raw(uuid)) || !is_past(table.seq(), &uuid),
        Name::Raw(uuid) => has(table, &Name::Vhd(uuid)) || !is_past(table.seq(), &uuid),
        Name::Old(uuid) => !is_past(table.seq(), &uuid),
        Name::Mgt
        | Name::Cbt(_)
        | Name::Clone { .. }
        | Name::Inflate { .. }
        | Name::Coalesce { .. }
        | Name::Relink { .. }
        | Name::Leaf { .. } => false,
    }
}

/// Whether the number in a base image's UUID is below the sequence number.
fn is_past(sequence: u64, uuid: &Uuid) -> bool
    ensures { result ≡ is_past sequence uuid.now }
{
    !is_base(uuid) || number_in(uuid) < sequence
}

fn are_past(sequence: u64, disk: &Uuid, base: &Uuid, twin: &Uuid) -> bool
    ensures { result ≡ (is_past sequence disk.now && (is_past sequence base.now && is_past sequence twin.now)) }
{
    is_past(sequence, disk) && is_past(sequence, base) && is_past(sequence, twin)
}

/// The number in the last six bytes.
fn number_in(uuid: &Uuid) -> u64
    ensures { result ≡ base_number uuid.now }
{
    let mut bytes = [0; 8];
    bytes[2..].copy_from_slice(&uuid.as_bytes()[10..]);
    u64::from_be_bytes(bytes)
}
