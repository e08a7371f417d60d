//! The fold of a disk's leaf, given up where a command on this disk begins.
//!
//! **What is kept here.** Nothing: each call works on a store and on what a session has in memory.
//!
//! **What it is.** Attach, detach, snapshot, clone, resize and delete of the disk whose leaf is being folded give the folding up, whether
//! the disk is attached or not, behind all refusals and all taking of memory: so where memory is wanting all is as it was. `give_up` does
//! so where the running operation folds the leaf of this disk, and else nothing; [`is_folded`] says which. It leaves the machine's shape without the operation, one commit later (`abandoned`). What
//! the command makes of that shape and of its disks the machine makes of those from before: but for a fork, whose base has the number
//! from before. It is asked between two steps of a session (`IsBetweenSteps` of `sm_ready`), and leaves the session there where it
//! succeeds.
//!
//! **What it promises.** No disk changes, since what was copied reads alike from leaf and parent. At every return, success and failure
//! alike, whatever a stop leaves is kept and shows the disks from before (`done`). Behind a call that succeeded table and memory are
//! orderly, and each image in memory is true of its volume; where an operation was given up nothing is pending (`done`), and the table
//! is that without the entry (`commits`).
//!
//! **What it costs.** One commit where the operation is given up, and no write besides. It takes no memory.
//!
//! The definitions are in `specs/`: `Abandoning` (what it makes of the operation and of the shape).
#![tactic(auto)]

mod abandoning;

pub use abandoning::{give_up, is_folded, leaf_entry, uuid_of};
