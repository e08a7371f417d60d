//! The definition of an image in a volume.
//!
//! Kept here: no code that runs. The crate has the definitions that the layers above share: where the parts of
//! an image stand (`specs/Layouts`), which volumes hold a valid image (`specs/Images`), what an image says, by
//! its own bytes alone (`specs/Contents`), and both as a function of the volume that computes
//! (`specs/Readings`). A volume is a function from a place, in sectors of 512 bytes, to the bytes there. What a
//! stop may leave is said above, of each volume that it may leave: it holds a valid image.
//!
//! A public function has an empty body; its contract is a law of the definitions ([`laws`]). None of them costs
//! anything. Images that the definitions accept and refuse are in the crate examples_vhd.
#![tactic(auto)]

pub mod laws;
