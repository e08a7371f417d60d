//! Why a text is no table.

use thiserror::Error;

/// Why a text was not read.
#[derive(Clone, Copy, Debug, Drop, Error, PartialEq, Eq)]
pub enum DecodeFault {
    /// The bytes spell no table, and this is the first place, in bytes, that does not fit.
    #[error("the table is damaged at byte {at}")]
    Damaged { at: u32 },
    /// Memory ran out.
    #[error("memory ran out")]
    NoMemory,
}
