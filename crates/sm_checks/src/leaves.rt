//! The stages of the folding of a leaf, by the table.

ghost use Rattle.std.specs.Prelude.{◌≡◌};
ghost use Rattle.sm_standing.specs.Entries.{is_folding_leaf, is_leaf_copied, is_leaf_folded, is_leaf_renamed, is_leaf_swapped, is_old_of};
ghost use Rattle.vg_meta.specs.Roomy.{table_alone};

use crate::volumes::{has, is_filled, is_hidden, is_visible};
use sm_base::Name;
use uuid::Uuid;
use vg_meta::Table;

/// Whether the folding of a leaf stands at one of its four stages.
pub fn is_folding_leaf(table: &Table, leaf: &Uuid, parent: &Uuid) -> bool
    ensures { result ≡ is_folding_leaf (table_alone table.now) leaf.now parent.now }
{
    is_leaf_copied(table, leaf, parent)
        || is_leaf_renamed(table, leaf, parent)
        || is_leaf_swapped(table, leaf, parent)
        || is_leaf_folded(table, leaf, parent)
}

/// Whether the leaf is there, visible, its parent hidden, and nothing was swapped yet.
pub fn is_leaf_copied(table: &Table, leaf: &Uuid, parent: &Uuid) -> bool
    ensures { result ≡ is_leaf_copied (table_alone table.now) leaf.now parent.now }
{
    is_visible(table, &Name::Vhd(*leaf))
        && is_hidden(table, &Name::Vhd(*parent))
        && !has(table, &Name::Old(*leaf))
}

/// Whether the leaf was renamed, and the parent is still there, hidden.
pub fn is_leaf_renamed(table: &Table, leaf: &Uuid, parent: &Uuid) -> bool
    ensures { result ≡ is_leaf_renamed (table_alone table.now) leaf.now parent.now }
{
    has(table, &Name::Old(*leaf))
        && is_hidden(table, &Name::Vhd(*parent))
        && !has(table, &Name::Vhd(*leaf))
        && !has(table, &Name::Raw(*leaf))
}

/// Whether the parent has the leaf's name, and the old leaf is still there.
pub fn is_leaf_swapped(table: &Table, leaf: &Uuid, parent: &Uuid) -> bool
    ensures { result ≡ is_leaf_swapped (table_alone table.now) leaf.now parent.now }
{
    has(table, &Name::Old(*leaf))
        && is_filled(table, &Name::Vhd(*leaf))
        && !has(table, &Name::Vhd(*parent))
}

/// Whether the old leaf is gone.
fn is_leaf_folded(table: &Table, leaf: &Uuid, parent: &Uuid) -> bool
    ensures { result ≡ is_leaf_folded (table_alone table.now) leaf.now parent.now }
{
    is_visible(table, &Name::Vhd(*leaf))
        && !has(table, &Name::Old(*leaf))
        && !has(table, &Name::Vhd(*parent))
}

/// Whether an entry is that of the swap of this old leaf.
pub fn is_old_of(table: &Table, leaf: &Uuid, entry: &Name) -> bool
    ensures { result ≡ is_old_of (table_alone table.now) leaf.now entry.now }
{
    match entry {
        Name::Leaf { leaf: own, parent } => {
            *own == *leaf
                && (is_leaf_renamed(table, own, parent) || is_leaf_swapped(table, own, parent))
        }
        Name::Mgt
        | Name::Vhd(_)
        | Name::Raw(_)
        | Name::Old(_)
        | Name::Cbt(_)
        | Name::Clone { .. }
        | Name::Inflate { .. }
        | Name::Coalesce { .. }
        | Name::Relink { .. } => false,
    }
}
