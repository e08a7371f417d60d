//! Parents and children among the rows.

ghost use Rattle.std.specs.Prelude.{◌≡◌, ◌↔◌, IsTrue, Some, length, suc};
ghost use Rattle.std.specs.Option.{option_copied};
ghost use Rattle.sm_machine.specs.Shapes.{chain_limit};
ghost use Rattle.vhd_image.specs.Bodies.{parent_name};
ghost use Rattle.vhd_chain.specs.Trees.{AreOrdered, tree_row, children, first_name, chain_length};

use crate::rows::{TreeRow, place};
use sm_base::{CHAIN_LIMIT, Name};

/// The row of this name.
pub fn named<'a>(rows: &'a [TreeRow], name: &Name) -> Option<&'a TreeRow>
    requires order { AreOrdered rows.now }
    ensures { option_copied result ≡ tree_row rows.now name.now }
{
    let at = place(rows, name)?;
    Some(&rows[at])
}

// Whether the row's image has this parent.
fn is_child(row: &TreeRow, parent: &Name) -> bool
    ensures { IsTrue result ↔ (parent_name row.now.image ≡ Some parent.now) }
{
    match row.image.parent() {
        Some(own) => own == *parent,
        None => false,
    }
}

/// How many images have this parent.
pub fn count_children(rows: &[TreeRow], parent: &Name) -> usize
    ensures { result ≡ length (children rows.now parent.now) }
{
    let mut count = 0;
    for row in rows {
        if is_child(row, parent) {
            count += 1;
        }
    }
    count
}

/// The name of the first image that has this parent.
pub fn first_child(rows: &[TreeRow], parent: &Name) -> Option<Name>
    ensures { result ≡ first_name (children rows.now parent.now) }
{
    for row in rows {
        if is_child(row, parent) {
            return Some(row.image.name());
        }
    }
    None
}

/// The number of images of the chain from this name up, counted up to one more than a chain has.
pub fn chain(rows: &[TreeRow], name: &Name) -> u32
    requires order { AreOrdered rows.now }
    ensures { result ≡ chain_length rows.now (suc chain_limit) name.now }
{
    let mut next = *name;
    for below in 0..CHAIN_LIMIT + 1 {
        let Some(row) = named(rows, &next) else {
            return below;
        };
        let Some(parent) = row.image.parent() else {
            return below + 1;
        };
        next = parent;
    }
    CHAIN_LIMIT + 1
}
