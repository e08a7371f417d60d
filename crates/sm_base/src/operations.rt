//! The collector's running operation, its next step, and the mode of an attachment.
use crate::names::Name;

/// How a disk is attached.
#[derive(Clone, Copy, PartialEq, Eq)]
pub enum Mode {
    /// For reading alone.
    Ro,
    /// For reading and writing.
    Rw,
}

/// The operation that the collector has begun and not ended. A cursor is the least block that may
/// still have to be copied.
#[derive(Clone, Copy, PartialEq, Eq)]
pub enum Op {
    /// None.
    Idle,
    /// Copying the child's blocks into its parent.
    Copy {
        child: Name,
        parent: Name,
        cursor: u32,
    },
    /// Linking the child's children to its parent.
    Relink {
        child: Name,
        parent: Name,
    },
    /// Copying a leaf's blocks into its parent, which will take its name.
    Leaf {
        leaf: Name,
        parent: Name,
        cursor: u32,
    },
    /// Copying the blocks of the leaf of an attached disk into its parent, which will take its name. So many blocks below the
    /// cursor were written to since they were copied.
    Live {
        leaf: Name,
        parent: Name,
        cursor: u32,
        dirty: u32,
    },
}

/// The collector's next step. `to` is a number of extents.
#[derive(Clone, Copy)]
pub enum Plan {
    /// The child of a copy has no children left: give the operation up.
    Abandon,
    /// Copy this block.
    Copy { block: u32 },
    /// All blocks are copied: go on to linking.
    Turn,
    /// Link this child to the parent.
    RelinkOne { child: Name },
    /// No child is left: the operation is done.
    Finish,
    /// The parent takes the leaf's place.
    Swap,
    /// Remove a hidden image that has no children.
    Remove { name: Name },
    /// Cut an image's volume to the extents that it needs.
    Deflate { name: Name, to: u32 },
    /// Begin to coalesce the child into its parent, which is to have so many extents.
    Begin { child: Name, parent: Name, to: u32 },
    /// Begin to fold a leaf into its parent, which is to have so many extents.
    Leaf { leaf: Name, parent: Name, to: u32 },
    /// Begin to fold the leaf of an attached disk into its parent, which is to have so many extents.
    Live { leaf: Name, parent: Name, to: u32 },
    /// There is work, and no room for any of it. In extents.
    Blocked { need: u32, free: u32 },
    /// Nothing is to be done.
    Idle,
}
