//! Why extents were not found.

/// Why extents were not found.
#[derive(Clone, Copy, Debug, PartialEq, Eq)]
pub enum FitFault {
    /// More extents are needed than are free.
    NoSpace { need: u32, free: u32 },
    /// Memory ran out.
    NoMemory,
}
