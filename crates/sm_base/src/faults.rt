//! What calls answer that did not do their work.
use crate::names::Name;
use uuid::Uuid;

/// A call of the device, or of a layer over it, failed.
#[derive(Clone, Copy, Debug, PartialEq, Eq)]
pub struct Failed;

/// A call found no memory, and has changed nothing.
#[derive(Clone, Copy, Debug, PartialEq, Eq)]
pub struct NoMemory;

/// Why a call of the volume group's users did not do its work.
#[derive(Clone, Copy, Debug, PartialEq, Eq)]
pub enum CallFault {
    /// The device failed.
    Device,
    /// Memory ran out, and nothing has changed.
    NoMemory,
}

/// Where a repository is damaged.
#[derive(Clone, Copy, PartialEq, Eq)]
pub enum Place {
    /// The label, in sector 0 of the device.
    Label,
    /// The table's header, in sector 2,050, or in sector 1 where the repository is of version 1.
    Header,
    /// The sum of the table's text.
    TableSum,
    /// The table's text, from this byte on.
    Table { at: u32 },
    /// The volume of records.
    Mgt,
    /// There are too many images.
    Images,
    /// A journal entry.
    Journal { name: Name },
    /// An image.
    Image { name: Name },
    /// An image's link to its parent.
    Tree { name: Name },
    /// The record in this place, counted from 0.
    Record { index: u32 },
    /// A disk, which has no record or several.
    Disk { uuid: Uuid },
    /// The log of a disk.
    Log { name: Name },
}

/// Why a repository is not opened.
#[derive(Clone, Copy, PartialEq, Eq)]
pub enum OpenFault {
    /// The device holds no repository.
    NotARepository,
    /// The repository has a version that this program does not know.
    Unsupported { version: u32 },
    /// The repository is damaged, here first.
    Damaged { place: Place },
    /// The device failed.
    Device,
    /// Memory ran out.
    NoMemory,
}
