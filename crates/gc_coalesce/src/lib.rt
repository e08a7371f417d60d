//! The steps of the collector that coalesce images, one function a step: a hidden image is copied into its parent, block by block, then
//! each image that reads through it is linked to the parent, and then nothing reads through it and it goes. The leaf of a disk, attached
//! or not, is copied into its parent in the same way.
//!
//! **What is kept here.** Nothing: each call works on a store and on what a session has in memory.
//!
//! **What it is.** Each call is asked only where it is the machine's next step of the shape in memory (`planned`: `next_step` of
//! `sm_machine`), and leaves the shape that the machine has behind `gc` (`shape`), its commits counted. It is asked between two steps of
//! a session (`IsBetweenSteps` of `sm_ready`), and leaves the session there where it succeeds; `relink_one` and `finish`, on which an
//! opening goes on too, ask less. That the fold of a leaf is given
//! up, as a command on the leaf's disk begins, is no step of the collector: it is in `gc_abandon`.
//!
//! **What it promises.** No call changes a disk. At every return, success and failure alike, whatever a stop leaves is kept and shows
//! the disks from before (`done`); behind a call that succeeded nothing is pending, table and memory are orderly, and each image in
//! memory is true of its volume. `remove` takes a hidden image without children away. `begin` gives the parent extents for the blocks of
//! both, where it has too few (the least free ones, under a journal entry of their own), and the image's size, where it is smaller, and
//! then puts the operation's entry; `begin_leaf` and `begin_live` do so for a leaf. `copy_block` copies what the image, hidden or a leaf,
//! holds of one block: the parent changes only in sectors that the image holds (`masked`), and all that was written before lasts first
//! (`first`). `copy_dirty` does so for a block of an attached disk's leaf that was written to since it was copied. Since an attached disk
//! is written to between these calls, whatever a stop leaves of them or of a beginning shows the disks, all sectors at once, of an image
//! that it might leave as the call began (`still`). `turn` puts the entry of a link in place of that of a copy,
//! once no block is left. `relink_one` links the least child to the parent; its users are counted anew. `finish` takes the entry away
//! once no child is left, and `abandon` that of a copy whose image has lost its children. An opening that finds children half linked goes
//! on with `relink_one` and `finish`: so these ask nothing of new volumes and stray records.
//!
//! **In which units.** Extents are counted; blocks are counted from 0.
//!
//! **What it costs.** `remove`, `abandon`, `turn` and `finish` are one commit each. `begin`, `begin_leaf` and `begin_live` are one
//! commit, and three more where the parent gets extents; they alone take memory, all of it before the first write. `copy_block` and `copy_dirty` sync
//! before their first write and after their last, and read and write each run of held sectors once; where the parent did not hold one of them
//! it makes one sync more, however many runs there are (`write_marked` of `vhd_image`); it borrows a buffer of the pool. `relink_one` reads two
//! sectors and writes one, between two syncs.
//!
//! The definitions are in `specs/`: `Beginning` (when an operation may be entered, and what that makes of the shape), `Copying` (the cursor,
//! and what a copy leaves of the parent), `Blocks` (one block of the child in the parent).
#![tactic(auto)]

mod beginning;
mod blocks;
mod copying;
mod ending;
mod kinds;
mod linking;
mod removing;

pub use beginning::{begin, begin_leaf, begin_live};
pub use copying::{copy_block, copy_dirty};
pub use ending::{abandon, finish, turn};
pub use linking::relink_one;
pub use removing::remove;
