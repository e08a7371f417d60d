//! The list of the disks, and the images beside the room.
//!
//! **What is kept here.** Nothing: a call reads what a session has in memory.
//!
//! **What it promises.** Both calls answer exactly as the machine says, or find no memory for the rows. `list` has a row for each disk,
//! in order of UUID, whatever the kind of its image. `stat` has the sequence number, the free extents, the running operation, and a
//! row for each image, visible or hidden, in order of name; it answers so whatever the device holds. The device is not asked.
//!
//! **In which units.** Sizes in rows are in bytes, those of images in sectors of 512 bytes. Extents are counted, and blocks, and the
//! attached disks that read through an image.
//!
//! **What it costs.** `list` makes one pass over the 512 places of records; for each record two searches of the tree, and one pass
//! over the rows so far. `stat` makes one pass over the images, with a look-up of a count for each, and one over the extents of the
//! table. Memory is taken for the rows alone, by `stat` once, in front of the first.
//!
//! The definitions are in `specs/`: `Listed` (the row of a record, and the rows in order), and `Images` (the row of an image).
#![tactic(auto)]

mod listing;
mod stats;

pub use listing::list;
pub use stats::stat;
