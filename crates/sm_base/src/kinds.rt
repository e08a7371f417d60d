//! What a volume is, by its name.

ghost use Rattle.std.specs.Prelude.{◌≡◌};
ghost use Rattle.sm_base.specs.Kinds.{kind, holds_data, is_image, is_entry, is_log};

use crate::names::Name;

/// What a volume is.
#[derive(Clone, Copy)]
pub enum Kind {
    /// The records of the disks.
    Records,
    /// A VHD image.
    VhdImage,
    /// A raw image.
    RawImage,
    /// The old leaf of a leaf-coalesce.
    OldLeaf,
    /// The log of a tracked disk.
    Log,
    /// A journal entry.
    Entry,
}

impl Name {
    /// What a volume of this name is.
    pub fn kind(&self) -> Kind
        ensures kind { result ≡ kind self.now }
    {
        match self {
            Name::Mgt => Kind::Records,
            Name::Vhd(_) => Kind::VhdImage,
            Name::Raw(_) => Kind::RawImage,
            Name::Old(_) => Kind::OldLeaf,
            Name::Cbt(_) => Kind::Log,
            Name::Clone { .. }
            | Name::Inflate { .. }
            | Name::Coalesce { .. }
            | Name::Relink { .. }
            | Name::Leaf { .. } => Kind::Entry,
        }
    }

    /// Whether a volume of this name is an image, which holds the data of a disk: an old leaf is one too.
    pub fn is_image(&self) -> bool
        ensures image { result ≡ is_image self.now }
    {
        match self.kind() {
            Kind::VhdImage | Kind::RawImage | Kind::OldLeaf => true,
            Kind::Records | Kind::Log | Kind::Entry => false,
        }
    }

    /// Whether a volume of this name is the log of a tracked disk.
    pub fn is_log(&self) -> bool
        ensures log { result ≡ is_log self.now }
    {
        match self.kind() {
            Kind::Log => true,
            Kind::Records | Kind::VhdImage | Kind::RawImage | Kind::OldLeaf | Kind::Entry => false,
        }
    }

    /// Whether a volume of this name is a journal entry.
    pub fn is_entry(&self) -> bool
        ensures entry { result ≡ is_entry self.now }
    {
        match self.kind() {
            Kind::Entry => true,
            Kind::Records | Kind::VhdImage | Kind::RawImage | Kind::OldLeaf | Kind::Log => false,
        }
    }
}
