//! A new image while it is filled: its blocks are written into the slots of its volume, and at the end head and table.
//!
//! **What is kept here.** [`Filling`]: the name of the volume, the map, and one page: the bitmap and the sectors of one block. The other blocks
//! that were begun stand in their slots. A contract speaks of what the image holds by `held` (`specs/Filled`): each sector of the disk, from the
//! page or from the volume.
//!
//! **In which units.** Sectors are of 512 bytes, counted from the begin of the disk or of the volume; blocks and slots are counted from 0.
//!
//! **What a stop may leave.** Nothing that is told here: the volume is to be marked new, so that it counts for nothing whatever it holds. No call
//! syncs, and all other volumes and the table are left alone (`WorksOn` of `vg_volumes`). After `finish` a read of the volume gives a valid image
//! without a parent, and its caller syncs.
//!
//! **What it costs.** All memory is taken by `new`: 4 bytes an entry and one bit a slot, and one page. A block whose sectors come in order is written
//! once, by one write; one that is come back to is read by one read.
#![tactic(auto)]

mod calls;
mod fillings;
mod laws;
mod pages;

pub use fillings::Filling;
pub use laws::{law_grown, law_steady};
