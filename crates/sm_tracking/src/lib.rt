//! The log of a tracked disk between two steps: it is begun, pieces of it are marked, it is split behind a snapshot of the disk, and it ends.
//!
//! **What is kept here.** Nothing: each call works on a store and on what a session has in memory.
//!
//! **What it asks.** The session is between two steps (`IsBetweenSteps` of `sm_ready`). `begin` asks that no cause refuses the beginning, `end` that
//! the disk has a log, `split` what `prepare` took before the snapshot.
//!
//! **What it promises.** Behind a call that succeeded the session is between two steps again, and shape and memory are the machine's (`begun`,
//! `touched`, `split`, `ended` of `sm_machine` and `sm_log`); the disks are those from before. Whatever a stop leaves is kept and shows disks that
//! a stop might have shown before, and of each disk the log from before, the one from after, or one between.
//!
//! - `begin` makes the log on the least extents that are free (`least`): a stop leaves no log of the disk, or one that is new, or the log whole.
//! - `mark` makes the marks last before it comes back well: a stop leaves of each bit the old one or the new one. Where all pieces were marked it
//!   makes no call of the store (`still`).
//! - `split` makes the snapshot's log on the least extents that are free (`least`), and only then begins the disk's anew. A stop leaves the disk's log
//!   as it was, or the snapshot's whole (`order`); behind that it leaves of the disk's the new head with each bit old or cleared.
//! - `end` removes the log by one commit: a stop leaves the log or none.
//!
//! Behind `begin` and `end` nothing is pending (`lasting`), and behind `mark` and `split` nothing where nothing was.
//!
//! **What it costs.** `begin` makes two commits and two writes; `mark` makes one write and one sync, and no call of the store where all
//! of its pieces were marked; `split` makes two commits, four writes and two syncs; `end` makes one commit. Memory is taken by `begin`, for the
//! extents and the log, and by `prepare`: the bits of the snapshot's log, a mark for each extent of the group, and places for the log's extents.
//!
//! The definitions are in `specs/`: `Tracking` (what a call that changes logs, and no disk, did) and `Rooms` (what a split rests on).
#![tactic(auto)]

mod beginning;
mod ending;
mod marking;
mod rooms;
mod splitting;

pub use beginning::begin;
pub use ending::end;
pub use marking::mark;
pub use rooms::{Room, prepare};
pub use splitting::split;
