//! What is in memory once a fork is made.

ghost use Rattle.std.specs.Prelude.{◌≡◌, ◌≢◌, ◌≤◌, ◌+◌, false, None};
ghost use Rattle.sm_base.specs.Names.{IsName};
ghost use Rattle.vhd_chain.specs.Trees.{tree_row, row_name, with_row};
ghost use Rattle.sm_clone.specs.Forking.{HasUseRoom, IsUsedAs, base_row};

use crate::forks::Fork;
use sm_base::Name;
use sm_refs::Attachments;
use vhd_chain::{Tree, TreeRow};
use vhd_image::Image;

/// Gives the image of a row that was taken out of the tree the base's name, and hides it.
pub fn make_base(row: &mut TreeRow, fork: &Fork)
    ensures { row.new ≡ base_row fork.now row.old }
{
    row.image.renamed(fork.base_name());
    row.hidden = true;
}

/// Puts the base and the two images over it into the tree.
pub fn add_rows(tree: &mut Tree, base: TreeRow, own: TreeRow, twin: TreeRow)
    requires room { 3 ≤ tree.old.spare }
    requires names { IsName (row_name base) × IsName (row_name own) × IsName (row_name twin) }
    requires no_base { tree_row tree.old.rows (row_name base) ≡ None }
    requires no_own { tree_row tree.old.rows (row_name own) ≡ None }
    requires no_twin { tree_row tree.old.rows (row_name twin) ≡ None }
    requires apart { (row_name base ≢ row_name own) × (row_name base ≢ row_name twin) × (row_name own ≢ row_name twin) }
    ensures rows { tree.new.rows ≡ with_row twin (with_row own (with_row base tree.old.rows)) }
    ensures spare { tree.new.spare + 3 ≡ tree.old.spare }
{
    tree.add(base);
    tree.add(own);
    tree.add(twin);
}

/// The row of a visible image of so many extents.
pub fn shown_row(image: Image, extents: u32) -> TreeRow
    ensures { result ≡ record { image = image; hidden = false; extents = extents } }
{
    TreeRow {
        image,
        hidden: false,
        extents,
    }
}

/// Notes that the base is used as often as the disk's image was. A raw disk's new image is used in that one's place.
pub fn note_uses(attached: &mut Attachments, fork: &Fork)
    requires room { HasUseRoom fork.now attached.old }
    ensures uses { IsUsedAs fork.now attached.old attached.new }
    ensures room { attached.old.room ≤ attached.new.room }
{
    attached.forked(&fork.own, fork.base_name());
    let leaf = Name::Vhd(fork.disk);
    if fork.own != leaf {
        attached.forked(&fork.own, leaf);
        attached.relinked(&leaf, &fork.own);
    }
}
