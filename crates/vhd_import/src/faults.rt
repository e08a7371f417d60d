//! Why an import ends without a disk.

use sm_base::Refusal;

/// Why an import ends without a disk.
#[derive(Clone, Copy, PartialEq, Eq)]
pub enum ImportFault {
    /// The file is not taken.
    Refused(Refusal),
    /// A byte came past the most that is read: 2^42 bytes.
    Long,
    /// A call of the device failed.
    Device,
    /// A call of the source failed.
    Source,
    /// Memory ran out.
    NoMemory,
}
