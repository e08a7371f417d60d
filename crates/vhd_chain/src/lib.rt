//! The tree of the images in memory: what is known of each image of a repository, found by the name of its volume.
//!
//! **What is kept here.** A [`TreeRow`] is an image, whether its volume is hidden, and how many extents the volume has. The
//! [`Tree`] is a list of rows in strictly rising order of name, so that no name stands twice. A contract sees it as the
//! rows, and how many more may be added without memory. A row says what its caller put in, and `read` alone calls a
//! store: it writes nothing.
//!
//! **What it promises.** `get`, `add`, `replace` and `take` find, put in, put in another's place and take out exactly
//! the row of a name, and leave all others as they were. `parent` answers the parent that the image of a name says;
//! `child_count` and `least_child` answer how many images name one as parent, and which of these has the least name.
//! `depth` counts the images of a chain from one up. `read` gives the sectors of a disk as they are read through the
//! chain of an image: each sector is that of the first image from it up that holds it, and zeros where none of 30
//! images does or an image ends in front of it. No row need have its parent among the rows: where it has not, the chain
//! ends there, and zeros are read.
//!
//! **In which units.** Extents are those of the volume group, counted; images are counted; the sizes in an image are in
//! sectors of 512 bytes.
//!
//! **What it costs.** Each look-up by name is one by halving; `depth` makes one for each image that it counts, 31 at most.
//! `child_count` and `least_child` are a pass over the rows.
//! `read` reads each run of sectors that one image holds in one call of the store, and a bitmap of each VHD image that it
//! asks. `reserve` alone takes memory: `add` puts a row into the place that was made before, and moves those behind it.
//!
//! The definitions are in `specs/`: `Trees` (the rows, and what each call answers of them), `Places` (where a row stands),
//! `Reading` (what is read through a chain, by the definitions of a repository's images) and `Pieces` (the pieces of one
//! read). What crates above cite is in `proofs/`: `ByName` (the rows by name), and of `PieceLaws` that rows whose images
//! stand in a store still do once it was read.
#![tactic(auto)]

mod links;
mod reading;
mod rows;
mod trees;

pub use rows::TreeRow;
pub use trees::Tree;
