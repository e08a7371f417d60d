//! The device of a case: its disks by the book, and its bytes and its volumes' table written by hand.
//!
//! **What is kept here.** [`Book`] is the disks behind each line of a case's runs, as the lines and their replies say: UUID, label,
//! origin, flag, and one byte a sector. [`set`] and [`has`] write and ask for bytes of a device at the places that a case names,
//! [`committed`] commits a change of its volumes' table. A [`Device`] is one device in memory, or two of which the second stands behind the
//! first; devices are counted in sectors of 512 bytes.
//!
//! **What is promised.** Nothing beyond safety. That the book is right is tested: each reply to `list` and `read` in a run without a
//! fault, which a case states by itself, is held against it too.
#![tactic(auto)]

mod book;
mod devices;
mod groups;
mod sectors;

pub use book::{Book, Disk};
pub use devices::{Choice, Device, same_sectors};
pub use groups::committed;
pub use sectors::{has, set};
