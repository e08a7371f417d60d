//! The images in memory once the folding of a leaf that a stop has cut short is ended, and once a fork is undone.

ghost use Rattle.std.specs.Prelude.{◌≡◌, ◌+◌, ◌≤◌, IfNone, IfSome, None, Some, length};
ghost use Rattle.sm_base.specs.declared.names.Name.TheVariants.{Leaf, Vhd};
ghost use Rattle.sm_base.specs.Names.{IsName};
ghost use Rattle.sm_standing.specs.Entries.{folding, head, image_with};
ghost use Rattle.sm_standing.specs.Opened.{under_name};
ghost use Rattle.vg_meta.specs.Roomy.{table_alone};
ghost use Rattle.vhd_chain.specs.Trees.{tree_row, without};
ghost use Rattle.sm_recover.specs.Backs.{CanGiveBack, IsFreeAgain, base_back, fork_back, row_back, rows_back};
ghost use Rattle.sm_recover.specs.Ending.{CanEnd, leaf_back, rows_ended};

use sm_base::Name;
use sm_checks::{entry_in, folding_in, image_with, is_leaf_renamed};
use uuid::Uuid;
use vg_meta::Table;
use vhd_chain::{Tree, TreeRow};

/// Gives the image that goes on the leaf's name and shows it, where a leaf is being folded: the parent's once the leaf was renamed, else
/// the leaf's own. Where none is being folded nothing changes.
pub fn take_name(tree: &mut Tree, table: &Table)
    requires { CanEnd (table_alone table.now) (head (folding (table_alone table.now))) tree.old.rows }
    ensures rows { tree.new.rows ≡ rows_ended (table_alone table.now) tree.old.rows }
    ensures room { length tree.old.rows + tree.old.spare ≤ length tree.new.rows + tree.new.spare }
{
    let Some(entry) = folding_in(table) else {
        return;
    };
    if let Name::Leaf { leaf, parent } = &entry {
        leaf_back(tree, table, leaf, parent);
    }
}

/// The same, by the entry of a leaf.
fn leaf_back(tree: &mut Tree, table: &Table, leaf: &Uuid, parent: &Uuid)
    requires { CanEnd (table_alone table.now) (Some (Leaf leaf.now parent.now)) tree.old.rows }
    ensures rows { tree.new.rows ≡ leaf_back (table_alone table.now) (Some (Leaf leaf.now parent.now)) tree.old.rows }
    ensures room { length tree.old.rows + tree.old.spare ≤ length tree.new.rows + tree.new.spare }
{
    if is_leaf_renamed(table, leaf, parent) {
        base_back(tree, &Name::Vhd(*parent), Name::Vhd(*leaf));
    } else {
        base_back(tree, &Name::Vhd(*leaf), Name::Vhd(*leaf));
    }
}

/// Takes the new images of a fork out of the tree, and gives the base the disk's name and shows it, where the base is there.
/// Where no fork is under way nothing changes.
pub fn give_back(tree: &mut Tree, table: &Table)
    requires { CanGiveBack (table_alone table.now) tree.old.rows }
    ensures rows { tree.new.rows ≡ rows_back (table_alone table.now) tree.old.rows }
    ensures room { length tree.old.rows + tree.old.spare ≤ length tree.new.rows + tree.new.spare }
{
    let Some(entry) = entry_in(table) else {
        return;
    };
    if let Name::Clone { disk, base, twin } = &entry {
        fork_back(tree, table, disk, base, twin);
    }
}

/// The same, by the entry of a fork.
fn fork_back(tree: &mut Tree, table: &Table, disk: &Uuid, base: &Uuid, twin: &Uuid)
    requires { (from : Name) → image_with (table_alone table.now) base.now ≡ Some from → IsFreeAgain disk.now tree.old.rows }
    ensures rows { tree.new.rows ≡ fork_back (image_with (table_alone table.now) base.now) disk.now (without (Vhd twin.now) tree.old.rows) }
    ensures room { length tree.old.rows + tree.old.spare ≤ length tree.new.rows + tree.new.spare }
{
    let _ = take_out(tree, &Name::Vhd(*twin));
    let Some(from) = image_with(table, base) else {
        return;
    };
    let _ = take_out(tree, &Name::Vhd(*disk));
    base_back(tree, &from, under_name(&from, disk));
}

/// Gives the row of a name another name, and shows it.
fn base_back(tree: &mut Tree, from: &Name, to: Name)
    requires name { IsName to }
    requires free { tree_row (without from.now tree.old.rows) to ≡ None }
    ensures rows { tree.new.rows ≡ base_back from.now to tree.old.rows }
    ensures room { length tree.old.rows + tree.old.spare ≤ length tree.new.rows + tree.new.spare }
{
    let Some(mut row) = take_out(tree, from) else {
        return;
    };
    show_as(&mut row, to);
    tree.add(row);
}

/// Takes a row out of the tree, where it is there. Room for as many images is left.
fn take_out(tree: &mut Tree, name: &Name) -> Option<TreeRow>
    ensures taken { result ≡ tree_row tree.old.rows name.now }
    ensures rows { tree.new.rows ≡ without name.now tree.old.rows }
    ensures some { IfSome result (λ _. tree.new.spare ≡ tree.old.spare + 1) }
    ensures none { IfNone result (tree.new ≡ tree.old) }
    ensures room { length tree.new.rows + tree.new.spare ≡ length tree.old.rows + tree.old.spare }
{
    let _rows = tree.rows();
    tree.take(name)
}

/// Gives the image of a row that was taken out of the tree another name, and shows it.
fn show_as(row: &mut TreeRow, name: Name)
    ensures { row.new ≡ row_back name row.old }
{
    row.image.renamed(name);
    row.hidden = false;
}

/// The name of a disk's image of the same kind as this one.
pub fn under_name(base: &Name, disk: &Uuid) -> Name
    ensures { result ≡ under_name base.now disk.now }
{
    match base {
        Name::Raw(_) => Name::Raw(*disk),
        Name::Mgt
        | Name::Vhd(_)
        | Name::Old(_)
        | Name::Cbt(_)
        | Name::Clone { .. }
        | Name::Inflate { .. }
        | Name::Coalesce { .. }
        | Name::Relink { .. }
        | Name::Leaf { .. } => Name::Vhd(*disk),
    }
}
