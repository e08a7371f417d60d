//! The journal: entries that say, across a stop, what was under way.
//!
//! Kept here: nothing. An entry is a volume without extents that says all in its name, so it stands in the table of
//! volumes. Making an entry, replacing it by another and dropping it are one commit each: a stop leaves the table with
//! the old entries or with the new ones. Two entries may stand beside one another, at most one of each class:
//!
//! - a collector's operation: `coalesce`, `relink` or `leaf`;
//! - a call's enlarging or forking: `inflate` or `clone`.
//!
//! No call takes memory: the row of a new entry has to be spare. No call changes what stands beside the store. `list`
//! looks at each name of the table at most four times.
#![tactic(auto)]

mod changes;
mod entries;

pub use changes::{drop_entry, put, replace};
pub use entries::{Entries, list};
