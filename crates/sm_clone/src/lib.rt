//! A disk is made of another: a snapshot, or a clone.
//!
//! **What is kept here.** Nothing: each call works on a store and on what a session has in memory.
//!
//! **What it asks.** The session is between two steps (`IsBetweenSteps` of `sm_ready`), and no cause refuses the command
//! (`IsAllowed`).
//!
//! **What it promises.** `fork` makes the disk's image a hidden base, and two new images that hold nothing over it: the disk's own
//! and the twin's. While it works a journal entry names the disk, the base and the twin. A stop before the last commit, which
//! drops the entry, leaves the disks from before; behind it there is one more, which has the sectors of the disk. An attachment
//! goes on: the disk's new image takes extents as its attachment wants them. Where the disk's leaf is being folded that is given up
//! first, and the base has the number from before. A call for which memory is wanting writes nothing, and gives nothing up.
//!
//! **In which units.** Extents are counted; sizes are in sectors; times are in seconds since the beginning of the year 2000.
//!
//! **What it costs.** Eight commits, one more where a folding is given up, and the writes of two images without slots and of one
//! record. Memory is taken before anything is written: two maps of T entries, the lists of the extents, and three rows of the table.
//!
//! The definitions are in `specs/`: `Forking` (what is asked, by which calls it is done, and what is made).
#![tactic(auto)]

mod filling;
mod forking;
mod forks;
mod memory;
mod preparing;
mod runs;

pub use forking::fork;
