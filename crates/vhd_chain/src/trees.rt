//! The tree of the images.

ghost use Rattle.std.specs.Prelude.{◌≡◌, ◌≤◌, ◌<◌, ◌+◌, [], None, Some, IsSome, IfSome, IfNone, OnOk, OnErr, length, suc};
ghost use Rattle.std.specs.Option.{option_copied};
ghost use Rattle.sm_base.specs.Names.{IsName};
ghost use Rattle.sm_machine.specs.Shapes.{chain_limit};
ghost use Rattle.vhd_chain.specs.Trees.{AreOrdered, tree_row, row_name, with_row, without, with_replaced, parent_of, children, first_name, IsLeastName, chain_length};

use crate::links::{chain, count_children, first_child, named};
use crate::rows::{TreeRow, place, slot};
use sm_base::{Name, NoMemory};
use std::alloc::Global;
use std::marker::Model;

/// The images, in order of the names of their volumes. A contract sees the rows, and how many may be added without
/// memory.
#[derive(Drop)]
pub struct Tree {
    rows: Vec<TreeRow>,
}

impl Model for Tree {
    ghost use Rattle.std.specs.Prelude.{◌-◌, vec_capacity, vec_len};
    ghost use Rattle.vhd_chain.specs.Trees.{Tree, AreOrdered};

    ghost Value = { Tree };

    ghost view = { λ t. record { rows = t.rows.items; spare = vec_capacity t.rows - vec_len t.rows } };

    ghost invariant = { λ t. AreOrdered t.rows.items };
}

impl Tree {
    /// A tree of no images. It takes no memory.
    pub fn new(alloc: Global) -> Tree
        ensures rows { result.rows ≡ [] }
        ensures spare { result.spare ≡ 0 }
    {
        Tree {
            rows: Vec::new(alloc),
        }
    }

    /// The rows, in order of name.
    pub fn rows(&self) -> &[TreeRow]
        ensures rows { result.now ≡ self.now.rows }
        ensures order { AreOrdered self.now.rows }
    {
        &self.rows
    }

    /// How many rows may be added without memory.
    pub fn spare(&self) -> usize
        ensures spare { result ≡ self.now.spare }
    {
        self.rows.capacity() - self.rows.len()
    }

    /// Makes room for rows: at `Ok` at least so many may be added without memory.
    pub fn reserve(&mut self, rows: usize) -> Result<(), NoMemory>
        ensures rows { self.new.rows ≡ self.old.rows }
        ensures no_fewer { self.old.spare ≤ self.new.spare }
        ensures ok { OnOk result (rows ≤ self.new.spare) }
        ensures err { OnErr result (self.new ≡ self.old) }
    {
        match self.rows.reserve(rows) {
            Ok(()) => Ok(()),
            Err(_) => Err(NoMemory),
        }
    }

    /// The row of this name, or `None` exactly where there is none.
    pub fn get(&self, name: &Name) -> Option<&TreeRow>
        ensures { option_copied result ≡ tree_row self.now.rows name.now }
    {
        named(&self.rows, name)
    }

    /// Puts a row in, in order of name. It takes no memory.
    pub fn add(&mut self, row: TreeRow)
        requires name { IsName (row_name row) }
        requires absent { tree_row self.old.rows (row_name row) ≡ None }
        requires room { 0 < self.old.spare }
        ensures rows { self.new.rows ≡ with_row row self.old.rows }
        ensures spare { self.new.spare + 1 ≡ self.old.spare }
    {
        let at = slot(&self.rows, &row.image.name());
        let _ = self.rows.insert(at, row);
    }

    /// Takes the row of this name out; `None` exactly where there is none, and then nothing changed.
    pub fn take(&mut self, name: &Name) -> Option<TreeRow>
        ensures taken { result ≡ tree_row self.old.rows name.now }
        ensures rows { self.new.rows ≡ without name.now self.old.rows }
        ensures some { IfSome result (λ _. self.new.spare ≡ self.old.spare + 1) }
        ensures none { IfNone result (self.new ≡ self.old) }
    {
        let at = place(&self.rows, name)?;
        Some(self.rows.remove(at))
    }

    /// Puts a row in the place of that of its name, which it answers: so an image that was changed is put back. It takes
    /// no memory.
    pub fn replace(&mut self, row: TreeRow) -> TreeRow
        requires there { IsSome (tree_row self.old.rows (row_name row)) }
        ensures was { tree_row self.old.rows (row_name row) ≡ Some result }
        ensures rows { self.new.rows ≡ with_replaced row self.old.rows }
        ensures spare { self.new.spare ≡ self.old.spare }
    {
        let Some(at) = place(&self.rows, &row.image.name()) else {
            unreachable!()
        };
        std::mem::replace(&mut self.rows[at], row)
    }

    /// The volume of the parent of the image of this name; `None` where it has none, and where it is not there.
    pub fn parent(&self, name: &Name) -> Option<Name>
        ensures { result ≡ parent_of self.now.rows name.now }
    {
        self.get(name)?.image.parent()
    }

    /// How many images have this parent.
    pub fn child_count(&self, name: &Name) -> usize
        ensures { result ≡ length (children self.now.rows name.now) }
    {
        count_children(&self.rows, name)
    }

    /// The least name of an image that has this parent, or `None` exactly where there is none.
    pub fn least_child(&self, name: &Name) -> Option<Name>
        ensures first { result ≡ first_name (children self.now.rows name.now) }
        ensures least { IfSome result (IsLeastName (children self.now.rows name.now)) }
    {
        first_child(&self.rows, name)
    }

    /// How many images are in the chain from this name up, counted up to 31. A parent that is not there is not
    /// counted.
    pub fn depth(&self, name: &Name) -> u32
        ensures { result ≡ chain_length self.now.rows (suc chain_limit) name.now }
    {
        chain(&self.rows, name)
    }
}
