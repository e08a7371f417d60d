//! What an image in a volume of a store is, whatever a stop may leave of the volume.
//!
//! Kept here: the type [`Head`] and definitions, no code that runs. The definitions join the image of a volume
//! (`vhd_layout`) to a store of volumes (`vg_volumes`): when an image stands in a store, when it is true of what
//! the store holds (`specs/Truth`), what a write may leave of it at any moment (`specs/Writes`), what a step did to
//! one volume of the store (`specs/Steps`), and when an image is steady (`specs/Steady`): true, with its head as a read
//! gives it and a sector in each slot, whatever a stop may leave.
//!
//! An image is true where three things hold: a read gives its footer, header and map; whatever a stop may leave of
//! the volume is a valid image; and no table that a stop may leave names a slot that the map has not. Between two calls
//! of a write the map may be ahead of the table, but each image that a stop may leave is valid, and follows one that it
//! could leave before: sector by sector as it was, or held with the bytes that were written. Of the sectors that a step
//! does not write a read and a stop give what they gave (`KeepsBut`).
//!
//! Places and sizes are in sectors of 512 bytes, rooms in extents. Lemmas for the crates above are in `proofs/`.
#![tactic(auto)]

mod heads;

pub use heads::Head;
