//! Tests of VHD images: of their fields and maps as bytes, and of images over a volume group on a device.
//!
//! **What is kept here.** Nothing. Outside tests there is one thing, [`own_sector`] and [`size_of`]: a plain slow reader of
//! an image, which takes the bytes of a volume and follows the definitions of `vhd_layout` alone.
//!
//! **What is shown.** The runs on images are over a group on a device in memory, on volumes whose sectors held an older
//! image's footers, headers and data before.
//!
//! - Footers, headers and geometries have the bytes of the format, worked by hand, and each field that is wrong is told.
//! - A map gives the least free slot, and writes and reads a sector of the table byte for byte.
//! - A new image of 64 KiB has the bytes of the format, worked by hand, in its five sectors, and leaves the stale bytes of
//!   all others.
//! - It is found by its last footer, by the copy where that is lost, and not at all where both are.
//! - A child names its parent, and another after a change that writes one sector; a larger disk has two new footers and
//!   holds none of its new sectors; an image ends sooner by one more footer; a raw image is all sectors of its volume.
//! - A disk's image and the one under it stand in a tree in memory, in order of name, and one is taken out again.
//! - A disk is read through a chain of three images, each run from the image that holds it, with so many reads of the
//!   device as runs and bitmaps; past the end of a shorter parent it is zeros.
//! - A write over three blocks, one held, one held in part and one new, stops at each of its calls, and five choices of what
//!   the device kept are opened each time: each sector of the disk has its old bytes or its new ones, and the plain reader
//!   finds what the image's own call finds. Where no call stops it all sectors are new.
//! - Each of its calls fails once: the caller is told, and each sector outside the write is as it was.
//! - A write makes one sync where it needs a bit or a slot, and none where it replaces what is held.
//!
//! The device tells no clause what it holds (`fixtures`), so what is read is compared as the tests run. What a call asks of
//! sizes and room is tested before it, or follows from what an earlier call ensures.
#![tactic(auto)]

#[cfg(test)]
mod chains;
#[cfg(test)]
mod fields;
#[cfg(test)]
mod fixtures;
#[cfg(test)]
mod head_tests;
#[cfg(test)]
mod heads;
#[cfg(test)]
mod images;
#[cfg(test)]
mod making_tests;
#[cfg(test)]
mod maps;
mod plain;
#[cfg(test)]
mod runs;
#[cfg(test)]
mod sectors;
#[cfg(test)]
mod stop_tests;
#[cfg(test)]
mod trees;
#[cfg(test)]
mod volumes;

pub use plain::{own_sector, size_of};
