//! The block allocation table and the sector bitmaps of an image.
//!
//! Kept here: nothing on a device. [`Map`] keeps in memory which slot of its volume keeps which block of an
//! image; contracts see it as a list of T entries, each a slot or none. Its two calls on sectors write one
//! sector of the block allocation table and read one. [`bit`] and [`set_bit`] are over the bitmap that
//! begins a slot. Blocks and slots are counted from 0; a place in the table is in sectors of 512 bytes from
//! the image's begin.
//!
//! Nothing here is left by a stop: the layer above writes the sectors. A map only gains slots. `count`,
//! `top` and `least_free` look a number up and search nothing, and only `Map::blank` takes memory.
//!
//! The definitions are in `specs/`: `Slots` (what a map says), `Places` (where slots stand, and the
//! table's entries) and `Bitmaps`.
#![tactic(auto)]

mod bitmaps;
mod entries;
mod maps;
mod words;

pub use bitmaps::{bit, set_bit};
pub use maps::Map;
