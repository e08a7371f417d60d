//! The check that looks at the images in memory beside the entries. The new images of a fork have the base as parent, and
//! nothing else has; the child of a copy has the parent, and nothing else has; that of a link has it, and it is as large at least; that of
//! a leaf's folding has it, and nothing else has, and once it is swapped the image that goes on has no children.

ghost use Rattle.std.specs.Prelude.{◌≡◌, find, nat_le};
ghost use Rattle.sm_base.specs.declared.names.Name.TheVariants.{Vhd};
ghost use Rattle.std.specs.List.{list_any};
ghost use Rattle.std.specs.Option.{option_copied};
ghost use Rattle.sm_standing.specs.Checks.{entry_link_fault, has_uuid};
ghost use Rattle.sm_machine.specs.Shapes.{same_image};
ghost use Rattle.sm_standing.specs.Outlines.{Outline};
ghost use Rattle.vg_meta.specs.Roomy.{table_alone};
ghost use Rattle.sm_checks.specs.Faults.{HasChildren, HasLinks, HasVolumes, has_one_child, has_parent_in, is_as_large_in, is_copy_in};
ghost use Rattle.sm_checks.specs.Faults.{is_fork_linked_in, is_leaf_linked_in, is_link_in, is_parent_named, is_new_over, is_other_child, is_over, is_unlinked_in};

use crate::forks::is_fork_made;
use crate::leaves::{is_leaf_copied, is_leaf_renamed, is_leaf_swapped};
use crate::loading::is_vhd_of;
use sm_base::{Name, Place};
use uuid::Uuid;
use vg_meta::{Table, Volume};
use vhd_chain::{Tree, TreeRow};
use vhd_image::Image;

/// The first entry whose images are linked otherwise than it says.
pub fn link_fault(table: &Table, tree: &Tree) -> Option<Place>
    ensures { (x : Outline) → x.table ≡ table_alone table.now → HasLinks tree.now.rows x → HasVolumes tree.now.rows x
        → HasChildren tree.now.rows x → result ≡ entry_link_fault x }
{
    let volume = first_unlinked(table.volumes(), table, tree)?;
    Some(Place::Journal {
        name: volume.name(),
    })
}

fn first_unlinked<'a>(volumes: &'a [Volume], table: &Table, tree: &Tree) -> Option<&'a Volume>
    ensures { option_copied result ≡ find (λ v. is_unlinked_in (table_alone table.now) tree.now.rows v.row.name) volumes.now }
{
    volumes
        .iter()
        .find(|volume| is_unlinked(&volume.name(), table, tree))
}

/// Whether a name is that of an entry whose images are linked otherwise: of a fork where the base is there, of a copy, of a link or
/// of a leaf.
fn is_unlinked(name: &Name, table: &Table, tree: &Tree) -> bool
    ensures { result ≡ is_unlinked_in (table_alone table.now) tree.now.rows name.now }
{
    match name {
        Name::Clone { disk, base, twin } => {
            is_fork_made(table, disk, base, twin) && !is_linked(tree, disk, base, twin)
        }
        Name::Coalesce { child, parent } => !is_copy(tree, child, parent),
        Name::Relink { child, parent } => !is_link(tree, child, parent),
        Name::Leaf { leaf, parent } => !is_leaf_linked(table, tree, leaf, parent),
        Name::Mgt
        | Name::Vhd(_)
        | Name::Raw(_)
        | Name::Old(_)
        | Name::Cbt(_)
        | Name::Inflate { .. } => false,
    }
}

/// Whether the VHD image of a UUID has a parent of another, which is in memory, and no other image has it.
fn is_copy(tree: &Tree, child: &Uuid, parent: &Uuid) -> bool
    ensures { result ≡ is_copy_in tree.now.rows child.now parent.now }
{
    match tree.get(&Name::Vhd(*child)) {
        Some(row) => has_parent(tree, parent, &row.image, 0) && has_one_child(tree, parent),
        None => false,
    }
}

/// Whether the VHD image of a UUID has a parent of another, which is in memory and as large at least.
fn is_link(tree: &Tree, child: &Uuid, parent: &Uuid) -> bool
    ensures { result ≡ is_link_in tree.now.rows child.now parent.now }
{
    match tree.get(&Name::Vhd(*child)) {
        Some(row) => has_parent(tree, parent, &row.image, row.image.sectors()),
        None => false,
    }
}

/// Whether the leaf has the parent, and no other image has, before the swap; and whether the image that goes on has no children, from
/// then on.
fn is_leaf_linked(table: &Table, tree: &Tree, leaf: &Uuid, parent: &Uuid) -> bool
    ensures { result ≡ is_leaf_linked_in (table_alone table.now) tree.now.rows leaf.now parent.now }
{
    let own = Name::Vhd(*leaf);
    let below = Name::Vhd(*parent);
    if is_leaf_copied(table, leaf, parent) {
        is_vhd_image(tree.parent(&own), parent) && tree.child_count(&below) == 1
    } else if is_leaf_renamed(table, leaf, parent) {
        tree.child_count(&below) == 0
    } else if is_leaf_swapped(table, leaf, parent) {
        tree.child_count(&own) == 0
    } else {
        true
    }
}

/// Whether there is a name, and it is that of the VHD image of this UUID.
fn is_vhd_image(name: Option<Name>, uuid: &Uuid) -> bool
    ensures { result ≡ is_parent_named (Vhd uuid.now) name }
{
    match name {
        Some(name) => is_named(&name, uuid),
        None => false,
    }
}

#[tactic(auto, unfolding(sm_machine::specs::Shapes::same_image))]
fn is_named(name: &Name, uuid: &Uuid) -> bool
    ensures { result ≡ same_image name.now (Vhd uuid.now) }
{
    match name {
        Name::Vhd(own) => *own == *uuid,
        Name::Mgt
        | Name::Raw(_)
        | Name::Old(_)
        | Name::Cbt(_)
        | Name::Clone { .. }
        | Name::Inflate { .. }
        | Name::Coalesce { .. }
        | Name::Relink { .. }
        | Name::Leaf { .. } => false,
    }
}

/// Whether an image has a parent of this UUID, which is in memory and has so many sectors at least.
fn has_parent(tree: &Tree, parent: &Uuid, image: &Image, sectors: u64) -> bool
    ensures { result ≡ has_parent_in tree.now.rows parent.now (nat_le sectors) image.now }
{
    match image.parent() {
        Some(name) => has_uuid(&name, parent) && is_as_large(tree, &name, sectors),
        None => false,
    }
}

/// Whether an image is in memory and has so many sectors at least.
fn is_as_large(tree: &Tree, name: &Name, sectors: u64) -> bool
    ensures { result ≡ is_as_large_in tree.now.rows (nat_le sectors) name.now }
{
    match tree.get(name) {
        Some(row) => sectors <= row.image.sectors(),
        None => false,
    }
}

/// Whether one image has a parent of this UUID.
fn has_one_child(tree: &Tree, parent: &Uuid) -> bool
    ensures { result ≡ has_one_child tree.now.rows parent.now }
{
    let over_vhd = tree.child_count(&Name::Vhd(*parent));
    let over_raw = tree.child_count(&Name::Raw(*parent));
    over_vhd == 1 && over_raw == 0 || over_vhd == 0 && over_raw == 1
}

/// Whether the new images of a fork that are in memory have the base as parent, and no other has.
fn is_linked(tree: &Tree, disk: &Uuid, base: &Uuid, twin: &Uuid) -> bool
    ensures { result ≡ is_fork_linked_in tree.now.rows disk.now base.now twin.now }
{
    is_new_over(tree, base, disk)
        && is_new_over(tree, base, twin)
        && !has_other_child(tree.rows(), disk, base, twin)
}

/// Whether the VHD image of a UUID has the base as parent, where it is in memory.
fn is_new_over(tree: &Tree, base: &Uuid, uuid: &Uuid) -> bool
    ensures { result ≡ is_new_over tree.now.rows base.now uuid.now }
{
    match tree.get(&Name::Vhd(*uuid)) {
        Some(row) => is_over(&row.image, base),
        None => true,
    }
}

/// Whether an image has the base as parent that is none of the new ones.
fn has_other_child(rows: &[TreeRow], disk: &Uuid, base: &Uuid, twin: &Uuid) -> bool
    ensures { result ≡ list_any (is_other_child disk.now base.now twin.now) rows.now }
{
    rows.iter().any(|row| is_other_child(row, disk, base, twin))
}

fn is_other_child(row: &TreeRow, disk: &Uuid, base: &Uuid, twin: &Uuid) -> bool
    ensures { result ≡ is_other_child disk.now base.now twin.now row.now }
{
    let name = row.image.name();
    is_over(&row.image, base) && !is_vhd_of(&name, disk) && !is_vhd_of(&name, twin)
}

/// Whether an image has a parent of this UUID.
fn is_over(image: &Image, base: &Uuid) -> bool
    ensures { result ≡ is_over base.now image.now }
{
    match image.parent() {
        Some(parent) => has_uuid(&parent, base),
        None => false,
    }
}

/// Whether a name is that of a VHD or a raw image of this UUID.
#[tactic(auto, unfolding(sm_machine::specs::Shapes::same_image))]
fn has_uuid(name: &Name, uuid: &Uuid) -> bool
    ensures { result ≡ has_uuid uuid.now name.now }
{
    match name {
        Name::Vhd(own) => *own == *uuid,
        Name::Raw(own) => *own == *uuid,
        Name::Mgt
        | Name::Old(_)
        | Name::Cbt(_)
        | Name::Clone { .. }
        | Name::Inflate { .. }
        | Name::Coalesce { .. }
        | Name::Relink { .. }
        | Name::Leaf { .. } => false,
    }
}
