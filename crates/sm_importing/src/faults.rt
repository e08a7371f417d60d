//! Why a volume was not made or did not grow.

/// Why a volume was not made or did not grow.
#[derive(Clone, Copy, Debug, PartialEq, Eq)]
pub enum RoomFault {
    /// More extents are needed than are free.
    NoSpace { need: u32, free: u32 },
    /// Memory ran out, or no place is left for the disk's record.
    NoMemory,
    /// A call of the store failed.
    Device,
}
