//! The check that looks at the records beside the table: each disk has exactly one.

ghost use Rattle.std.specs.Prelude.{◌≡◌, ◌||◌, Some, is_some, true};
ghost use Rattle.common_laws.specs.Lists.{given};
ghost use Rattle.sm_machine.specs.Disks.{uuid_before};
ghost use Rattle.sm_standing.specs.Checks.{disk_fault};
ghost use Rattle.sm_standing.specs.Outlines.{Outline};
ghost use Rattle.sm_standing.specs.Entries.{folding, head};
ghost use Rattle.sm_standing.specs.Standing.{standing_volume};
ghost use Rattle.vg_meta.specs.Roomy.{table_alone};
ghost use Rattle.sm_checks.specs.Faults.{HasPlaces, IsLeast, is_disk_if, is_shown, is_swapping, is_unrecorded_in, lesser, unrecorded};

use crate::entries::{entry_in, folding_in};
use crate::leaves::{is_leaf_renamed, is_leaf_swapped};
use crate::volumes::{image_with, is_visible};
use sm_base::{Name, Place};
use sm_mgt::{Mgt, UuidCounts};
use uuid::Uuid;
use vg_meta::{Table, Volume};

/// The disk with the least UUID that has no record or several.
pub fn disk_fault(table: &Table, mgt: &Mgt) -> Option<Place>
    ensures { (x : Outline) → x.table ≡ table_alone table.now → HasPlaces mgt.now x → result ≡ disk_fault x }
{
    let uuid = least_unrecorded(table, &mgt.uuid_counts())?;
    Some(Place::Disk { uuid })
}

/// Whether a UUID is a disk: of a fork whose base is there the disk stands in that, and neither base nor twin is one; a leaf that
/// is being swapped is one.
pub fn is_disk(table: &Table, uuid: &Uuid) -> bool
    ensures { result ≡ is_some (standing_volume (table_alone table.now) uuid.now) }
{
    let alone = is_disk_alone(table, uuid);
    match entry_in(table) {
        Some(entry) => is_disk_if(table, alone, &entry, uuid),
        None => alone,
    }
}

/// Whether a UUID is a disk where no fork is looked at.
fn is_disk_alone(table: &Table, uuid: &Uuid) -> bool
    ensures { result ≡ (is_swapping (table_alone table.now) (head (folding (table_alone table.now))) uuid.now || is_shown (table_alone table.now) uuid.now) }
{
    is_swapping(table, uuid) || is_shown(table, uuid)
}

/// Whether a UUID is that of a leaf that is being swapped.
fn is_swapping(table: &Table, uuid: &Uuid) -> bool
    ensures { result ≡ is_swapping (table_alone table.now) (head (folding (table_alone table.now))) uuid.now }
{
    match folding_in(table) {
        Some(entry) => is_swapped_by(table, &entry, uuid),
        None => false,
    }
}

/// The same, by the entry that is there.
fn is_swapped_by(table: &Table, entry: &Name, uuid: &Uuid) -> bool
    ensures { result ≡ is_swapping (table_alone table.now) (Some entry.now) uuid.now }
{
    match entry {
        Name::Leaf { leaf, parent } => {
            *uuid == *leaf
                && (is_leaf_renamed(table, leaf, parent) || is_leaf_swapped(table, leaf, parent))
        }
        Name::Mgt
        | Name::Vhd(_)
        | Name::Raw(_)
        | Name::Old(_)
        | Name::Cbt(_)
        | Name::Clone { .. }
        | Name::Inflate { .. }
        | Name::Coalesce { .. }
        | Name::Relink { .. } => false,
    }
}

/// Whether a UUID is a disk, by the entry of a fork where it is one, and by whether it is one without it.
fn is_disk_if(table: &Table, alone: bool, entry: &Name, uuid: &Uuid) -> bool
    ensures { result ≡ is_disk_if (table_alone table.now) alone (Some entry.now) uuid.now }
{
    match entry {
        Name::Clone { disk, base, twin } => {
            if *uuid == *disk {
                image_with(table, base).is_some() || alone
            } else {
                *uuid != *base && *uuid != *twin && alone
            }
        }
        Name::Mgt
        | Name::Vhd(_)
        | Name::Raw(_)
        | Name::Old(_)
        | Name::Cbt(_)
        | Name::Inflate { .. }
        | Name::Coalesce { .. }
        | Name::Relink { .. }
        | Name::Leaf { .. } => alone,
    }
}

/// Whether a VHD or a raw image of a UUID is there, not new, and visible.
fn is_shown(table: &Table, uuid: &Uuid) -> bool
    ensures { result ≡ is_shown (table_alone table.now) uuid.now }
{
    is_visible(table, &Name::Vhd(*uuid)) || is_visible(table, &Name::Raw(*uuid))
}

fn least_unrecorded(table: &Table, counts: &UuidCounts<'_>) -> Option<Uuid>
    ensures { IsLeast (λ u. is_unrecorded_in (table_alone table.now) counts.now u ≡ true) result }
{
    let mut least = None;
    for volume in table.volumes() {
        least = lesser(least, unrecorded(volume, table, counts));
    }
    least
}

/// The UUID of an image, and that of the disk of a fork or of a leaf's folding, where it is a disk that has no record or several.
#[tactic(auto, unfolding(crate::specs::Faults::unrecorded))]
fn unrecorded(volume: &Volume, table: &Table, counts: &UuidCounts<'_>) -> Option<Uuid>
    ensures { result ≡ unrecorded (table_alone table.now) counts.now volume.now.row.name }
{
    match volume.name() {
        Name::Vhd(uuid) => wrong_disk(uuid, table, counts),
        Name::Raw(uuid) => wrong_disk(uuid, table, counts),
        Name::Clone { disk, .. } => wrong_disk(disk, table, counts),
        Name::Leaf { leaf, .. } => wrong_disk(leaf, table, counts),
        Name::Mgt
        | Name::Old(_)
        | Name::Cbt(_)
        | Name::Inflate { .. }
        | Name::Coalesce { .. }
        | Name::Relink { .. } => None,
    }
}

/// A UUID, where it is a disk that has no record or several.
fn wrong_disk(uuid: Uuid, table: &Table, counts: &UuidCounts<'_>) -> Option<Uuid>
    ensures { result ≡ given (is_unrecorded_in (table_alone table.now) counts.now uuid) uuid }
{
    if is_disk(table, &uuid) && counts.count(&uuid) != 1 {
        Some(uuid)
    } else {
        None
    }
}

fn lesser(first: Option<Uuid>, second: Option<Uuid>) -> Option<Uuid>
    ensures { result ≡ lesser first second }
{
    let (Some(one), Some(other)) = (first, second) else {
        return first.or(second);
    };
    if is_before(&other, &one) {
        Some(other)
    } else {
        Some(one)
    }
}

/// Whether a UUID is before another, by their bytes.
fn is_before(uuid: &Uuid, other: &Uuid) -> bool
    ensures { result ≡ uuid_before uuid.now other.now }
{
    uuid.as_bytes()[..].cmp(&other.as_bytes()[..]).is_lt()
}
