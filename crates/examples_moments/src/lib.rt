//! Worked contents with the bytes of their images: a fork, a swap and a relink, commit by commit.
//!
//! Kept here: nothing; no call touches a device or takes memory. The model is that of `sm_standing`: a content,
//! and the disks that it shows. Sizes are in sectors of 512 bytes.
//!
//! Promised: the hypotheses of the laws of `sm_standing` on the moments of a fork and of a swap can be met, and so can those on
//! an image that is removed, on one that grows, and on reads through chains; and what an opening makes of a fork, of a swap and
//! of a relink that stopped is what it should be.
//!
//! The definitions are in `specs/`: `WorkedImages` (images byte for byte), `Worked` (contents and commits), `Moments` (what
//! those images say, and the disks), `Opened` (shapes), `ByParts` (what an opening makes, by edits of a working copy of the
//! volumes: a second description, made by itself, beside the commits that define it).
//!
//! All are examples. They meet the hypotheses of the laws commit by commit (`moments`, `volumes`), on an image that is removed and
//! on one that grows (`changes`), and on reads through chains (`chains`); they read images, disks and checks off worked bytes
//! (`bytes`), and compute what an opening makes of a fork, of a swap and of a relink that stopped, by both descriptions, and that
//! its checks pass (`openings`). Only the examples of `examples_ready` stand on this crate.
#![tactic(auto)]

mod bytes;
mod chains;
mod changes;
mod moments;
mod openings;
mod volumes;

pub use bytes::{example_images, example_one_disk, example_saying, example_two_disks};
pub use chains::{example_copy_below, example_guest_write, example_relink, example_rename};
pub use changes::{example_raised, example_removed};
pub use moments::{example_fork, example_fork_volumes, example_swap};
pub use openings::{
    example_by_parts, example_fork_sound, example_fork_undone, example_relink_ended,
    example_relink_sound, example_swap_done, example_swap_sound,
};
pub use volumes::example_same_volume;
