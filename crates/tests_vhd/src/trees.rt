//! The tree of images in memory: a disk's image, and the one under it.

ghost use Rattle.std.specs.Prelude.{◌≡◌, OnOk};
ghost use Rattle.vg_volumes.specs.Stored.{stored};
ghost use Rattle.vhd_chain.specs.Reading.{AllStand};
ghost use Rattle.vhd_chain.specs.Trees.{with_row};
ghost use Rattle.vhd_chain.specs.declared.rows.TreeRow.{TreeRow};

use crate::heads::is_name;
use crate::images::opened;
use sm_base::Name;
use std::alloc::Global;
use std::test::Fail;
use tests_support::holds;
use vg_volumes::Store;
use vhd_chain::{Tree, TreeRow};
use vhd_image::Image;

/// Puts an image of five extents into a tree.
fn put(tree: &mut Tree, image: Image) -> Result<(), Fail>
    ensures put { OnOk result ((row : TreeRow) × (row.image ≡ image) × (tree.new.rows ≡ with_row row tree.old.rows)) }
{
    let name = image.name();
    if !is_name(&name) || tree.get(&name).is_some() || tree.spare() == 0 {
        return Err(Fail::from("a row that may be added"));
    }
    tree.add(TreeRow {
        image,
        hidden: false,
        extents: 5,
    });
    Ok(())
}

/// Whether a tree has just these two images in this order, the second with the first as parent.
fn has_both(tree: &Tree, base: &Name, child: &Name) -> bool {
    let in_order = match tree.rows() {
        [first, second] => first.image.name() == *base && second.image.name() == *child,
        _ => false,
    };
    in_order
        && tree.parent(child) == Some(*base)
        && tree.parent(base).is_none()
        && tree.child_count(base) == 1
        && tree.least_child(base) == Some(*child)
        && tree.depth(child) == 2
        && tree.depth(base) == 1
}

/// Whether an image's row gives its place to that of a raw one of no sectors, and gets it back.
fn gives_place(tree: &mut Tree, name: &Name) -> bool {
    if tree.get(name).is_none() {
        return false;
    }
    let first = tree.replace(TreeRow {
        image: Image::raw(name, 0),
        hidden: true,
        extents: 6,
    });
    let extents = first.extents;
    if tree.get(&first.image.name()).is_none() {
        return false;
    }
    let second = tree.replace(first);
    extents == 5 && second.extents == 6 && second.hidden && second.image.sectors() == 0
}

/// Whether the second can be taken out, once.
fn loses(tree: &mut Tree, base: &Name, child: &Name) -> bool {
    let spare = tree.spare();
    let is_taken = tree.take(child).is_some();
    is_taken
        && tree.take(child).is_none()
        && tree.get(child).is_none()
        && tree.get(base).is_some()
        && tree.least_child(base).is_none()
        && tree.spare() == spare + 1
}

/// Puts the image in a volume into a tree.
pub fn put_opened<S: Store>(
    alloc: Global,
    store: &mut S,
    tree: &mut Tree,
    name: &Name,
) -> Result<(), Fail>
    requires stand { AllStand (stored S.Store store.old) tree.old.rows }
    ensures stand { OnOk result (AllStand (stored S.Store store.new) tree.new.rows) }
    ensures flag { S.failed store.new ≡ S.failed store.old }
{
    let image = opened(alloc, store, name)?;
    put(tree, image)?;
    Ok(())
}

/// Puts two images of a store into a tree, the second first, and takes it out again.
pub fn plant<S: Store>(alloc: Global, store: &mut S, base: &Name, child: &Name) -> Result<(), Fail>
    ensures flag { S.failed store.new ≡ S.failed store.old }
{
    let mut tree = Tree::new(alloc);
    tree.reserve(2)?;
    put(&mut tree, opened(alloc, store, child)?)?;
    put(&mut tree, opened(alloc, store, base)?)?;
    holds(gives_place(&mut tree, child), "the row that was there")?;
    holds(has_both(&tree, base, child), "two images")?;
    holds(loses(&mut tree, base, child), "one that is left")
}
