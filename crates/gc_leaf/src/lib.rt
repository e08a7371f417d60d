//! A disk's leaf, all of which was copied into its parent, goes, and the parent takes its place.
//!
//! **What is kept here.** Nothing: the call works on a store and on what a session has in memory.
//!
//! **What it is.** `swap` is asked only between two steps of a session (`IsBetweenSteps` of `sm_ready`), where it is the machine's
//! next step of the shape in memory (`planned`: `next_step` of `sm_machine`) and no block is dirty (`clean`): the operation folds a leaf,
//! attached or not, and no block of the leaf is left to copy. Its five commits, in this order: the leaf's
//! volume becomes an old leaf, which is no image; the parent's gets the leaf's name; it is shown; the old leaf goes; the operation's
//! entry goes. So a stop among them leaves the entry, by which an opening knows how far they were. `swap` leaves the shape that the
//! machine has behind `gc` (`shape`), its commits counted.
//!
//! **What it promises.** It changes no disk, and writes no sector of a volume (`keeps`): the parent's volume has the leaf's name, with
//! its extents as they were, and each other volume but the leaf's and the entry is as it was (`moved`). At every return, success and
//! failure alike, whatever a stop leaves is kept and shows the disks from before (`done`), all sectors at once of an image that it might
//! leave as the call began (`still`). Where the leaf's disk is attached it stays so, and nothing is counted under the parent's name any
//! more (`counts`). Behind a call that succeeded nothing is
//! pending, table and memory are orderly, and each image in memory is true of its volume. Behind one that failed memory is as it was
//! (`unchanged`), and the store makes no further commit (`stuck`).
//!
//! **What it costs.** Five commits, and no write besides. It takes no memory.
//!
//! `law_swap_sound` is the law behind the first commit: from the leaf's rename on, while the entry is there, all checks of an opening pass
//! that passed before. That the disks are those from before is `law_swapping` of `sm_standing`. The commits from there on are those by
//! which an opening ends a folding that was cut short, so what a stop leaves of them is said by its `law_leaf`.
//!
//! The definitions are in `specs/`: `Swapping` (the five changes, and what they make of the volumes, of the images in memory and of the
//! attachments),
//! `Moments` (a moment of a swap, volume by volume).
#![tactic(auto)]

mod laws;
mod runs;
mod swapping;

pub use laws::law_swap_sound;
pub use swapping::swap;
