//! Pieces of lists.

use std::ops::Range;

/// These of a list, or none where it has not all of them.
pub fn piece<T>(all: &[T], these: Range<usize>) -> &[T] {
    all.get(these).unwrap_or(&[])
}
