//! How a text says which extents a volume has.

/// How a table's text says which extents each volume has.
#[derive(Clone, Copy, PartialEq, Eq)]
pub enum Grammar {
    /// Each extent by its number.
    Listed,
    /// Extents that follow one another by the first of them and their number.
    Segmented,
}
