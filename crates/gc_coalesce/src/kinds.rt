//! What is copied into its parent, and which operation and which journal entry copies it.

ghost use Rattle.std.specs.Prelude.{◌≡◌, [], true};
ghost use Rattle.sm_machine.specs.Operations.{begun};
ghost use Rattle.sm_machine.specs.WellFormed.{is_image_name};
ghost use Rattle.gc_coalesce.specs.Beginning.{copy_entry as entry_in};
ghost use Rattle.gc_coalesce.specs.Copying.{IsCopyOf, copy_of, copying};

use crate::ending::copy_entry;
use gc_abandon::leaf_entry;
use sm_base::{Name, Op};
use sm_operation::Operation;

/// What is copied into its parent.
#[derive(Clone, Copy)]
pub(crate) enum Kind {
    /// A hidden image.
    Hidden,
    /// The leaf of a disk that is not attached.
    Leaf,
    /// The leaf of a disk that is attached.
    Live,
}

/// The images of a copy that runs: the one that is copied, and its parent.
pub(crate) fn images(operation: &Operation) -> (Name, Name)
    requires copying { copying operation.now ≡ true }
    ensures { IsCopyOf operation.now result.0 result.1 }
{
    match operation.told() {
        Op::Copy { child, parent, .. } => (child, parent),
        Op::Leaf { leaf, parent, .. } => (leaf, parent),
        Op::Live { leaf, parent, .. } => (leaf, parent),
        Op::Idle => unreachable!(),
        Op::Relink { .. } => unreachable!(),
    }
}

/// The copy, of which nothing is done yet.
pub(crate) fn first(kind: Kind, child: &Name, parent: &Name) -> Op
    ensures { begun result ≡ copy_of kind child.now parent.now 0 [] }
{
    let parent = *parent;
    match kind {
        Kind::Hidden => Op::Copy {
            child: *child,
            parent,
            cursor: 0,
        },
        Kind::Leaf => Op::Leaf {
            leaf: *child,
            parent,
            cursor: 0,
        },
        Kind::Live => Op::Live {
            leaf: *child,
            parent,
            cursor: 0,
            dirty: 0,
        },
    }
}

/// The journal entry of the copy.
pub(crate) fn entry_for(kind: Kind, child: &Name, parent: &Name) -> Name
    requires child { is_image_name child.now ≡ true }
    requires parent { is_image_name parent.now ≡ true }
    ensures { result ≡ entry_in kind child.now parent.now }
{
    match kind {
        Kind::Hidden => copy_entry(child, parent),
        Kind::Leaf => leaf_entry(child, parent),
        Kind::Live => leaf_entry(child, parent),
    }
}
