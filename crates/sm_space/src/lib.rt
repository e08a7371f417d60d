//! Volumes get more extents or fewer, and disks get larger.
//!
//! **What is kept here.** Nothing: each call works on a store and on what a session has in memory.
//!
//! **What it promises.** `inflate` gives the volume of a VHD image more extents, the least that are free, and writes the image's
//! footer at the new end. While it works a journal entry says how many extents the image had, so that a stop at any moment
//! leaves the disks from before, and the image is read in the extents that it had. Behind the last commit it is read in all of
//! them. No disk changes, and whatever a stop leaves shows the disks, all sectors at once, of an image that it might leave as the call began
//! (`still`). `plan_growth` takes the memory for that and writes nothing, and `enlarge` does the rest: so a caller may give the
//! folding of a leaf up in between. `deflate` cuts the volume of a VHD image to its first extents, where its slots have room in these: it
//! writes the image's footer at the end of them and then commits the cut. A stop at any moment leaves the disks from before; in
//! front of the commit the image is read in the extents that it had, with the footer that it had, and behind it in those that it
//! has. No disk changes. `resize` makes a VHD disk larger, or leaves it as large as it is: a stop at any moment leaves the disks from
//! before or those from after it, and behind its last sync the disk has zeros behind its old sectors. Where the disk is attached for
//! writing, its volume first gets the extents that it lacks for a slot of each new block; else it gets none. Then all lasts, before a
//! footer is written: so nothing of a guest is pending in the image when its size changes, and an attached disk and a detached one
//! grow alike. Where the disk's leaf is being folded, that is given up first (`gc_abandon`), once all memory was taken. Each call is asked
//! between two steps of a session (`IsBetweenSteps` of `sm_ready`), and leaves the session there where it succeeds: so an image whose
//! volume has other extents is true of its volume in all of these, the resized one with its new size. A call for which memory is
//! wanting writes nothing.
//!
//! **In which units.** Extents are counted; places in a volume are sectors of 512 bytes; the size that `resize` is given, and the
//! one that it answers, rounded up to the block, are in bytes.
//!
//! **What it costs.** `inflate` makes three commits, and writes one sector beside them. It takes memory before anything is
//! written: a row of the table for the entry, the list of the new extents, and places for them in the table. `deflate` writes one
//! sector and makes one commit. It takes no memory. `resize` writes two sectors and makes two syncs, one commit where it gives
//! a folding up, and what `inflate` does where it gives the image extents. Only there it takes memory.
//!
//! The definitions are in `specs/`: `Inflating` (what is asked of more extents, by which calls they are given, and what is made),
//! `Deflating` (of fewer), `Growing` (what is planned for a command that first gives a disk's image the extents that it lacks).
#![tactic(auto)]

mod deflating;
mod inflating;
mod resizing;

pub use deflating::deflate;
pub use inflating::{enlarge, inflate, plan_growth};
pub use resizing::resize;
