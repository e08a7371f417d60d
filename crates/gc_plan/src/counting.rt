//! How many children each image has, and where the image of a name stands. The rows of the tree are in order of name, so a row is
//! found by halving them.

ghost use Rattle.std.specs.Prelude.{◌≡◌, ◌≤◌, ◌↔◌, IsTrue, IfOk, IfSome, IfNone, length};
ghost use Rattle.std.specs.Option.{option_copied};
ghost use Rattle.common_laws.specs.Lists.{In};
ghost use Rattle.sm_machine.specs.Shapes.{image_limit};
ghost use Rattle.vhd_chain.specs.Trees.{AreOrdered, children, row_name, tree_row};
ghost use Rattle.gc_plan.specs.Counting.{AreCounted, HasNoParent, HasNone, IsParentPlace, IsPlaceOf};

use sm_base::{IMAGE_LIMIT, Name, NoMemory};
use std::alloc::Global;
use std::marker::Model;
use vhd_chain::{Tree, TreeRow};

/// The numbers of children of images, each at the place of its row in the tree. A contract sees the numbers: as many as there may
/// be images.
#[derive(Drop)]
pub struct ChildCounts {
    counts: Vec<usize>,
}

impl Model for ChildCounts {
    ghost use Rattle.std.specs.Prelude.{ℕ, List};

    ghost Value = { List ℕ };

    ghost view = { λ c. c.counts.items };
}

impl ChildCounts {
    /// Numbers for as many images as there may be. This is the only call that takes memory.
    ///
    /// # Errors
    /// There is no memory.
    pub fn new(alloc: Global) -> Result<ChildCounts, NoMemory>
        ensures room { IfOk result (λ counts. image_limit ≤ length counts) }
    {
        match vec![in alloc; 0usize; IMAGE_LIMIT] {
            Ok(counts) => Ok(ChildCounts { counts }),
            Err(_) => Err(NoMemory),
        }
    }

    /// Counts the children of each image of a tree.
    pub(crate) fn count(&mut self, tree: &Tree)
        requires few { length tree.now.rows ≤ length self.old }
        ensures room { length self.new ≡ length self.old }
        ensures counted { AreCounted tree.now.rows self.new }
    {
        self.counts.fill(0);
        let rows = tree.rows();
        for row in rows {
            if let Some(at) = parent_place(rows, row) {
                self.counts[at] += 1;
            }
        }
    }

    /// How many children an image of the tree has.
    pub(crate) fn child_count(&self, tree: &Tree, row: &TreeRow) -> usize
        requires counted { AreCounted tree.now.rows self.now }
        ensures { In row.now tree.now.rows → result ≡ length (children tree.now.rows (row_name row.now)) }
    {
        match place(tree.rows(), &row.image.name()) {
            Some(at) => self.counts[at],
            None => 0,
        }
    }
}

/// Whether this is an image's name.
fn is_named(row: &TreeRow, name: &Name) -> bool
    ensures { IsTrue result ↔ (row_name row.now ≡ name.now) }
{
    row.image.name() == *name
}

/// The place of the row of this name.
fn place(rows: &[TreeRow], name: &Name) -> Option<usize>
    requires ordered { AreOrdered rows.now }
    ensures found { IfSome result (IsPlaceOf rows.now name.now) }
    ensures none { IfNone result (HasNone rows.now name.now) }
{
    let at = rows.partition_point(|row| row.image.name().compare(name).is_lt());
    let row = rows.get(at)?;
    if is_named(row, name) { Some(at) } else { None }
}

/// The place of the row of an image's parent.
fn parent_place(rows: &[TreeRow], row: &TreeRow) -> Option<usize>
    requires ordered { AreOrdered rows.now }
    ensures found { IfSome result (IsParentPlace rows.now row.now) }
    ensures none { IfNone result (HasNoParent rows.now row.now) }
{
    let parent = row.image.parent()?;
    place(rows, &parent)
}

/// The row of this name, or `None` exactly where there is none.
pub(crate) fn row_of<'a>(tree: &'a Tree, name: &Name) -> Option<&'a TreeRow>
    ensures { option_copied result ≡ tree_row tree.now.rows name.now }
{
    let rows = tree.rows();
    let at = place(rows, name)?;
    Some(&rows[at])
}
