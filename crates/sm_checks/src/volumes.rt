//! Volumes of a table by name: whether one is there, not new, visible or hidden.

ghost use Rattle.std.specs.Prelude.{◌≡◌};
ghost use Rattle.sm_standing.specs.Entries.{image_with, is_filled, is_hidden, is_there, is_visible, is_visible_or_gone};
ghost use Rattle.vg_meta.specs.Roomy.{table_alone};
ghost use Rattle.sm_checks.specs.Faults.{is_unhidden};

use sm_base::Name;
use uuid::Uuid;
use vg_meta::Table;

pub fn has(table: &Table, name: &Name) -> bool
    ensures { result ≡ is_there (table_alone table.now) name.now }
{
    table.get(name).is_some()
}

/// Whether a volume is there, and not new.
pub fn is_filled(table: &Table, name: &Name) -> bool
    ensures { result ≡ is_filled (table_alone table.now) name.now }
{
    match table.get(name) {
        Some(volume) => !volume.is_fresh(),
        None => false,
    }
}

/// Whether a volume is there, not new, and visible.
pub fn is_visible(table: &Table, name: &Name) -> bool
    ensures { result ≡ is_visible (table_alone table.now) name.now }
{
    match table.get(name) {
        Some(volume) => !volume.is_hidden() && !volume.is_fresh(),
        None => false,
    }
}

/// Whether a volume is there, not new, and hidden.
pub fn is_hidden(table: &Table, name: &Name) -> bool
    ensures { result ≡ is_hidden (table_alone table.now) name.now }
{
    match table.get(name) {
        Some(volume) => volume.is_hidden() && !volume.is_fresh(),
        None => false,
    }
}

/// Whether a volume is there and visible, also while it is new.
pub fn is_unhidden(table: &Table, name: &Name) -> bool
    ensures { result ≡ is_unhidden (table_alone table.now) name.now }
{
    match table.get(name) {
        Some(volume) => !volume.is_hidden(),
        None => false,
    }
}

/// Whether a volume is not there, or visible, also while it is new.
pub fn is_visible_or_gone(table: &Table, name: &Name) -> bool
    ensures { result ≡ is_visible_or_gone (table_alone table.now) name.now }
{
    match table.get(name) {
        Some(volume) => !volume.is_hidden(),
        None => true,
    }
}

/// The VHD or raw image that has a UUID, visible or hidden.
#[tactic(auto, unfolding(sm_standing::specs::Entries::image_with))]
pub fn image_with(table: &Table, uuid: &Uuid) -> Option<Name>
    ensures { result ≡ image_with (table_alone table.now) uuid.now }
{
    let vhd = Name::Vhd(*uuid);
    if has(table, &vhd) {
        return Some(vhd);
    }
    let raw = Name::Raw(*uuid);
    if has(table, &raw) {
        return Some(raw);
    }
    None
}
