//! The check that looks at the images in memory beside the table: each stands in its tree as it should.

ghost use Rattle.std.specs.Prelude.{◌≡◌, find};
ghost use Rattle.std.specs.Option.{option_copied};
ghost use Rattle.sm_standing.specs.Checks.{first_name, is_no_larger, tree_fault};
ghost use Rattle.sm_standing.specs.Outlines.{Outline};
ghost use Rattle.vg_meta.specs.Roomy.{rows_alone, table_alone};
ghost use Rattle.vhd_chain.specs.Trees.{tree_row};
ghost use Rattle.sm_ready.specs.Outlined.{link_in};
ghost use Rattle.sm_checks.specs.Faults.{HasChildren, HasLinks, IsFirstName, IsLeafParent, is_leaf_name, is_linked_in, is_tree_astray, leaf_parent};

use crate::checks::lesser;
use crate::volumes::{is_hidden, is_unhidden};
use sm_base::{CHAIN_LIMIT, Name, Place};
use vg_meta::{Table, Volume};
use vhd_chain::{Tree, TreeRow};
use vhd_image::Image;

/// The first VHD image that does not stand in its tree as it should: its parent is there, not new, hidden and not larger; its
/// chain has at most 30 images; and where it is visible it has no children.
pub fn tree_fault(table: &Table, tree: &Tree) -> Option<Place>
    ensures { (x : Outline) → x.table ≡ table_alone table.now → HasLinks tree.now.rows x → HasChildren tree.now.rows x → result ≡ tree_fault x }
{
    let name = lesser(
        first_astray(table.volumes(), table, tree),
        first_leaf_parent(table, tree),
    )?;
    Some(Place::Tree { name })
}

/// The name of the first volume whose image is linked wrongly, or whose chain is too long.
fn first_astray(volumes: &[Volume], table: &Table, tree: &Tree) -> Option<Name>
    ensures { result ≡ first_name (λ r. is_tree_astray (table_alone table.now) tree.now.rows r r.name) (rows_alone volumes.now) }
{
    let volume = astray_in(volumes, table, tree)?;
    Some(volume.name())
}

fn astray_in<'a>(volumes: &'a [Volume], table: &Table, tree: &Tree) -> Option<&'a Volume>
    ensures { option_copied result ≡ find (λ v. is_tree_astray (table_alone table.now) tree.now.rows v.row v.row.name) volumes.now }
{
    volumes.iter().find(|volume| is_astray(volume, table, tree))
}

/// Whether a volume is that of a VHD image in memory that is linked wrongly, or whose chain is too long.
fn is_astray(volume: &Volume, table: &Table, tree: &Tree) -> bool
    ensures { result ≡ is_tree_astray (table_alone table.now) tree.now.rows volume.now.row volume.now.row.name }
{
    let name = volume.name();
    let Name::Vhd(_) = name else {
        return false;
    };
    let Some(row) = tree.get(&name) else {
        return false;
    };
    let is_placed = is_linked(&row.image, table, tree) && tree.depth(&name) <= CHAIN_LIMIT;
    !is_placed
}

/// The first name of a parent that is a VHD image in memory and not hidden.
fn first_leaf_parent(table: &Table, tree: &Tree) -> Option<Name>
    ensures { IsFirstName (IsLeafParent (table_alone table.now) tree.now.rows) result }
{
    let mut first = None;
    for row in tree.rows() {
        first = lesser(first, leaf_parent(row, table, tree));
    }
    first
}

/// An image's parent, where it is a VHD image in memory and not hidden.
fn leaf_parent(row: &TreeRow, table: &Table, tree: &Tree) -> Option<Name>
    ensures { result ≡ leaf_parent (table_alone table.now) tree.now.rows row.now }
{
    match row.image.parent() {
        Some(parent) if is_leaf(&parent, table, tree) => Some(parent),
        _ => None,
    }
}

/// Whether a name is that of a VHD image in memory that is not hidden.
fn is_leaf(name: &Name, table: &Table, tree: &Tree) -> bool
    ensures { result ≡ is_leaf_name (table_alone table.now) tree.now.rows name.now }
{
    let Name::Vhd(_) = name else {
        return false;
    };
    match tree.get(name) {
        Some(_) => is_unhidden(table, name),
        None => false,
    }
}

/// Whether an image's parent, where it has one, is there, not new, hidden and not larger.
fn is_linked(image: &Image, table: &Table, tree: &Tree) -> bool
    ensures { result ≡ is_linked_in (table_alone table.now) tree.now.rows image.now }
{
    match image.parent() {
        Some(parent) => {
            is_hidden(table, &parent) && is_no_larger(tree, &parent, image.sectors())
        }
        None => true,
    }
}

/// Whether an image is there and has at most so many sectors.
fn is_no_larger(tree: &Tree, name: &Name, sectors: u64) -> bool
    ensures { result ≡ is_no_larger sectors (link_in (tree_row tree.now.rows name.now)) }
{
    match tree.get(name) {
        Some(row) => row.image.sectors() <= sectors,
        None => false,
    }
}
