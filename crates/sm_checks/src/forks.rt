//! The stages of a fork, by the table.

ghost use Rattle.std.specs.Prelude.{◌≡◌, ◌&&◌, ◌∷◌, []};
ghost use Rattle.sm_standing.specs.Entries.{is_among, is_fork_made, is_past};
ghost use Rattle.vg_meta.specs.Roomy.{table_alone};
ghost use Rattle.sm_checks.specs.Faults.{has_any, has_one, is_any_visible, is_apart, is_begun, is_fork_at_stage};

use crate::entries::folding_in;
use crate::volumes::{has, is_filled, is_hidden, is_visible, is_visible_or_gone};
use sm_base::Name;
use uuid::Uuid;
use vg_meta::Table;

/// Whether a fork stands at one of its two stages, and its three UUIDs differ, also from those of the entry of the other group.
pub fn is_forking(table: &Table, disk: &Uuid, base: &Uuid, twin: &Uuid) -> bool
    ensures { result ≡ is_fork_at_stage (table_alone table.now) disk.now base.now twin.now }
{
    *disk != *base
        && *disk != *twin
        && *base != *twin
        && is_apart(table, disk, base, twin)
        && (is_begun(table, disk, base, twin) || is_fork_made(table, disk, base, twin))
}

/// Whether the entry of the other group, where there is one, has none of three UUIDs.
fn is_apart(table: &Table, disk: &Uuid, base: &Uuid, twin: &Uuid) -> bool
    ensures { result ≡ is_apart (table_alone table.now) disk.now base.now twin.now }
{
    let Some(entry) = folding_in(table) else {
        return true;
    };
    let (child, parent) = match entry {
        Name::Coalesce { child, parent } => (child, parent),
        Name::Relink { child, parent } => (child, parent),
        Name::Leaf { leaf, parent } => (leaf, parent),
        Name::Mgt
        | Name::Vhd(_)
        | Name::Raw(_)
        | Name::Old(_)
        | Name::Cbt(_)
        | Name::Clone { .. }
        | Name::Inflate { .. } => return true,
    };
    !is_among(&child, disk, base, twin) && !is_among(&parent, disk, base, twin)
}

/// Whether a UUID is one of three.
fn is_among(uuid: &Uuid, disk: &Uuid, base: &Uuid, twin: &Uuid) -> bool
    ensures { result ≡ is_among (disk.now ∷ base.now ∷ twin.now ∷ []) uuid.now }
{
    *disk == *uuid || *base == *uuid || *twin == *uuid
}

/// Whether the disk's image was not renamed yet: it is the only one of its UUID, and visible; no image has the base's UUID
/// or the twin's. An old leaf counts as an image.
fn is_begun(table: &Table, disk: &Uuid, base: &Uuid, twin: &Uuid) -> bool
    ensures { result ≡ is_begun (table_alone table.now) disk.now base.now twin.now }
{
    !has_any(table, base)
        && !has_any(table, twin)
        && has_one(table, disk)
        && is_any_visible(table, disk)
}

/// Whether the base is there, and not new; the disk's and the twin's new images may be there, visible, and then it is hidden.
pub fn is_fork_made(table: &Table, disk: &Uuid, base: &Uuid, twin: &Uuid) -> bool
    ensures { result ≡ is_fork_made (table_alone table.now) disk.now base.now twin.now }
{
    let own = Name::Vhd(*disk);
    let other = Name::Vhd(*twin);
    let vhd = Name::Vhd(*base);
    let raw = Name::Raw(*base);
    (is_filled(table, &vhd) || is_filled(table, &raw))
        && !has(table, &Name::Raw(*disk))
        && !has(table, &Name::Raw(*twin))
        && is_visible_or_gone(table, &own)
        && is_visible_or_gone(table, &other)
        && (!has(table, &own) && !has(table, &other)
            || is_hidden(table, &vhd)
            || is_hidden(table, &raw))
}

/// Whether an image of a UUID is there, or an old leaf.
fn has_any(table: &Table, uuid: &Uuid) -> bool
    ensures { result ≡ has_any (table_alone table.now) uuid.now }
{
    has(table, &Name::Vhd(*uuid)) || has(table, &Name::Raw(*uuid)) || has(table, &Name::Old(*uuid))
}

/// Whether exactly one of these is there.
fn has_one(table: &Table, uuid: &Uuid) -> bool
    ensures { result ≡ has_one (table_alone table.now) uuid.now }
{
    let has_raw = has(table, &Name::Raw(*uuid));
    let has_old = has(table, &Name::Old(*uuid));
    if has(table, &Name::Vhd(*uuid)) {
        !has_raw && !has_old
    } else if has_raw {
        !has_old
    } else {
        has_old
    }
}

/// Whether one of these is there, not new, and visible.
fn is_any_visible(table: &Table, uuid: &Uuid) -> bool
    ensures { result ≡ is_any_visible (table_alone table.now) uuid.now }
{
    is_visible(table, &Name::Vhd(*uuid))
        || is_visible(table, &Name::Raw(*uuid))
        || is_visible(table, &Name::Old(*uuid))
}
