//! Commands that make a disk.
//!
//! **What is kept here.** Nothing: each call works on a store and on what a session has in memory.
//!
//! **What it asks.** The session is between two steps (`IsBetweenSteps` of `sm_ready`), and no cause refuses the command (`IsAllowed` of
//! `sm_ready`): its caller has asked them.
//!
//! **What it promises.** `create` answers exactly as the machine says, the size of the disk, or that memory is wanting. While a
//! raw disk is made its volume is marked new, so that a stop before the last commit leaves the disks from before; afterwards
//! they are these and the new one, which reads as zeros. Its extents are the least that are free. A command for which memory is
//! wanting writes nothing.
//!
//! `create_vhd` makes a VHD disk where no cause refuses it, and answers as the machine says. Its volume too is marked new until its
//! image and its record are written. The image has no slots and no parent, so the disk reads as zeros; its unique id is spelled by
//! the table's number after the first commit, and its footers and its header are told byte for byte.
//!
//! Behind a command that was answered the session is between two steps again: each image in memory, the new one too, is true of what
//! its volume holds.
//!
//! **In which units.** Sizes are in bytes where a command gives them, else in sectors of 512 bytes or in extents. A raw disk's
//! size is rounded up to the extent, a VHD disk's to the block. Times are in seconds since the beginning of the year 2000.
//!
//! **What it costs.** A raw disk costs two commits, a write for each extent, and one sector for its record. A VHD disk costs two
//! commits, and the writes of two footers, two sectors of a header, a sector for each 128 entries of its table, and one record,
//! whatever its size. Memory is taken before anything is written: the zeros of one extent or the map of T entries, and the list
//! of its extents.
//!
//! The definitions are in `specs/`: `Making` (what is asked, and what is made), `Stages` (what is written in between), and `Vhds`
//! (all three of a VHD disk).
#![tactic(auto)]

mod creating;
mod making;
mod vhd_creating;
mod vhd_making;

pub use creating::create;
pub use vhd_creating::create_vhd;
