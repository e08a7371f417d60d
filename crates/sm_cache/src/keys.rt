//! Where a sector stands: in which volume, and at which of its places.

use sm_base::Name;

/// A sector of a volume.
#[derive(Clone, Copy, PartialEq, Eq, Hash)]
pub struct Spot {
    /// The volume's name.
    pub volume: Name,
    /// The sector's place in it, in sectors.
    pub at: u64,
}
