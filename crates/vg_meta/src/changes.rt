//! The changes of a table.

ghost use Rattle.std.specs.Prelude.{◌≡◌};

use sm_base::Name;
use std::marker::Model;

/// Extents, in order. A contract sees the list of their numbers.
#[derive(Drop)]
pub struct Extents {
    list: Vec<u32>,
}

impl Model for Extents {
    ghost use Rattle.std.specs.Prelude.{List, ℕ};

    ghost Value = { List ℕ };

    ghost view = { λ e. e.list.items };
}

impl Extents {
    /// These extents. It takes no memory.
    pub fn new(list: Vec<u32>) -> Extents
        ensures { result ≡ list.items }
    {
        Extents { list }
    }

    /// The extents, in order.
    pub fn as_slice(&self) -> &[u32]
        ensures { result.now ≡ self.now }
    {
        &self.list
    }

    /// The vector that the extents were made of. It takes no memory.
    pub fn into_vec(self) -> Vec<u32>
        ensures { result.items ≡ self }
    {
        self.list
    }
}

/// The two marks of a volume.
#[derive(Clone, Copy, PartialEq, Eq)]
pub enum Tag {
    /// The volume is a base image that no disk is.
    Hidden,
    /// The volume was made and is not yet filled.
    Fresh,
}

/// A change of a table: what one commit does.
#[derive(Drop)]
pub enum Change {
    /// One volume more, not hidden.
    Create {
        name: Name,
        fresh: bool,
        extents: Extents,
    },
    /// A volume less.
    Remove {
        name: Name,
    },
    /// Another name.
    Rename {
        from: Name,
        to: Name,
    },
    /// More extents at the end of an image.
    Grow {
        name: Name,
        extents: Extents,
    },
    /// Only the first extents of an image stay.
    Cut {
        name: Name,
        keep: u32,
    },
    /// A mark of an image is set or taken away.
    Mark {
        name: Name,
        tag: Tag,
        on: bool,
    },
}
