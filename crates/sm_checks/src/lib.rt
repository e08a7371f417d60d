//! The later checks of an opening: a store of volumes is looked at, and the first place that is damaged is named.
//!
//! **What is kept here.** Nothing. Each check looks at the table in memory, at the images as they are read off their volumes, or at
//! the disks' records, and writes nothing. Sizes are in sectors of 512 bytes unless a line says extents.
//!
//! **The model** (`specs/`). `Faults` says what each check looks at, `Loaded` has the images as they are read off their volumes, an image
//! that is being enlarged in the extents that it had, `Openable` what the checks by the table leave known of it and why these checks
//! stop, and `Links` what the checks leave known of a link. Which place is the first is `sm_standing`'s (its `Checks`).
//!
//! **What it promises.** The checks come in a fixed order, and the first that fails gives the place: by the table ([`table_fault`]), by the
//! images as they are read ([`load`]), by the trees that they make ([`tree_fault`]), by the links of forks, copies and leaves
//! ([`link_fault`]), and by the records ([`disk_fault`]). Images of every kind pass, visible and hidden, with parents and without: each
//! parent is there, not new, hidden and not larger, a chain has at most 30 images, and a visible image has no children. A repository is
//! refused that has an old leaf of no entry, or two entries of one of the two groups (`entries.rt`): those of forks and of enlargements,
//! and those of copies, of links and of leaves. An entry has to stand at its stage: of an enlargement the VHD image is there, not new, in
//! the extents that it had at least; of a fork (`forks.rt`), whose UUIDs are none of the other entry's, the disk's image is there and
//! nothing else of it, or the base is there, and the new images that are filled have it as parent, and nothing else has; of a copy or a
//! link the image is there, hidden, and its parent has the UUID that the entry says and is hidden: in a copy no other image has that
//! parent, in a link it is not smaller than the image; of the folding of a leaf (`leaves.rt`) leaf, old leaf and parent are there as at one
//! of its four stages, and while the leaf has its parent it is its only child. The images are read into memory as they are checked, in
//! order of name, each once, with room for all that may come; one that is being enlarged is read in the extents that it had, since in
//! those behind them anything may stand.
//!
//! **What it costs.** The checks go over the volumes once each; where a volume looks for another, or an image for its parent, it is found by
//! halving, and so are the entries, which stand behind all other volumes. The check of trees makes such a look-up for each image of the chain
//! of each VHD image. It goes over the images in memory once, and looks up the parent of each: of the visible images that are parents the
//! first is found so, whether there are none or many. That of a fork's entry goes over them once. They read of each VHD image the footer,
//! the header and the table, at most 3 sectors and one for each 128 entries, and one more where the last sector holds no footer. The check
//! of disks sorts the UUIDs of the 512 places once, in an array of its own, and counts the records of each disk by halving.
//! [`load`] takes the memory for the 500 images that the tree may come to have before it reads any, and then for each VHD image
//! that of its map, 4 bytes an entry; nothing else takes any.
#![tactic(auto)]

mod checks;
mod disks;
mod entries;
mod forks;
mod leaves;
mod links;
mod loading;
mod trees;
mod volumes;

pub use checks::table_fault;
pub use disks::{disk_fault, is_disk};
pub use entries::{entry_in, folding_in};
pub use leaves::{is_leaf_renamed, is_leaf_swapped};
pub use links::link_fault;
pub use loading::load;
pub use trees::tree_fault;
pub use volumes::{has, image_with};
