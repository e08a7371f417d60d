//! The leaf of an attached disk is folded into its parent while the disk's guest reads and writes.
//!
//! **What is kept here.** Nothing: each call works on a store and on what a session has in memory.
//!
//! **What it is.** The steps of a live folding: `begin` puts its entry, `copy_block` copies a block (both of `gc_coalesce`), and `swap`
//! ends it. Each is asked only where it is the machine's next step of the shape in memory (`next_step` of `sm_machine`), between two steps
//! of a session (`IsBetweenSteps` of `sm_ready`). A block that the guest writes to behind the cursor is dirty; `swap` copies the dirty
//! blocks, of which there are at most 16, the least first, and then the parent takes the leaf's place (`swap` of `gc_leaf`). `abandon`
//! gives a live folding up, as a command on the leaf's disk begins (`give_up` of `gc_abandon`).
//!
//! **What it promises.** `swap` changes no disk, and the disk stays attached: behind it nothing is counted under the parent's name
//! (`counts`). At every return, success and failure alike, whatever a stop leaves is kept and shows the disks from before (`done`), all
//! sectors at once of an image that it might leave as the call began (`still`). Behind a call that succeeded nothing is pending, table
//! and memory are orderly, each image in memory is true of its volume, and the debt is less.
//!
//! **What it costs.** `swap` makes five commits, and two syncs for each dirty block. It takes no memory; a buffer of the pool is borrowed.
//!
//! The definitions are in `specs/`: `Cleaning` (what is left once each dirty block was copied).
#![tactic(auto)]

mod swapping;

pub use gc_abandon::give_up as abandon;
pub use gc_coalesce::{begin_live as begin, copy_block};
pub use swapping::swap;
