//! The rows of the tree, each found by its name.

ghost use Rattle.std.specs.Prelude.{◌≡◌, ◌↔◌, IsTrue, ◌≤◌, ◌++◌, ◌∷◌, take, drop, length, IfSome, IfNone, None};
ghost use Rattle.vg_meta.specs.Halves.{AreUpTo};
ghost use Rattle.vhd_chain.specs.Trees.{AreOrdered, tree_row, row_name, with_row};
ghost use Rattle.vhd_chain.specs.declared.rows.TreeRow.{TreeRow};
ghost use Rattle.vhd_chain.specs.Places.{IsPlace};

use sm_base::Name;
use vhd_image::Image;

/// An image of the tree, and what the table says of its volume.
#[derive(Drop)]
pub struct TreeRow {
    /// The image.
    pub image: Image,
    /// Whether its volume is hidden: a base image that no disk is.
    pub hidden: bool,
    /// How many extents its volume has.
    pub extents: u32,
}

// Whether this is the row's name.
fn is_named(row: &TreeRow, name: &Name) -> bool
    ensures { IsTrue result ↔ (row_name row.now ≡ name.now) }
{
    row.image.name() == *name
}

/// How many rows have names that are not behind this one, by halving.
fn count_up_to(rows: &[TreeRow], name: &Name) -> usize
    requires order { AreOrdered rows.now }
    ensures within { result ≤ length rows.now }
    ensures up_to { AreUpTo row_name name.now rows.now result }
{
    rows.partition_point(|row| !name.compare(&row.image.name()).is_lt())
}

/// The place of the row of this name, by halving.
pub fn place(rows: &[TreeRow], name: &Name) -> Option<usize>
    requires order { AreOrdered rows.now }
    ensures found { IfSome result (IsPlace rows.now name.now) }
    ensures none { IfNone result (tree_row rows.now name.now ≡ None) }
{
    let count = count_up_to(rows, name);
    if count == 0 {
        return None;
    }
    let last = count - 1;
    if is_named(&rows[last], name) {
        Some(last)
    } else {
        None
    }
}

/// The place at which a row of this name is put in, by halving.
pub fn slot(rows: &[TreeRow], name: &Name) -> usize
    requires order { AreOrdered rows.now }
    ensures within { result ≤ length rows.now }
    ensures place { (r : TreeRow) → row_name r ≡ name.now → take result rows.now ++ r ∷ drop result rows.now ≡ with_row r rows.now }
{
    count_up_to(rows, name)
}
