//! Why a footer or header is not read.

/// The first test that a footer or header fails.
#[derive(Clone, Copy, Debug, PartialEq, Eq)]
pub enum FieldFault {
    /// The cookie is another.
    Cookie,
    /// The checksum is not that of the other bytes.
    Checksum,
    /// The version is not 1.0.
    Version,
    /// The field at this offset, in bytes, has a value that is not taken.
    Field { offset: u32 },
}
