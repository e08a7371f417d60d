//! Worked examples of what a repository stands for: small tables and contents that meet the hypotheses of the laws of
//! `sm_standing`, and contents that fail one check of an opening each.
//!
//! Kept here: nothing; no call touches a device or takes memory, and nothing but more examples stands on this crate. Each
//! example is the contract of a function that does nothing: where each UUID stands in worked tables at each moment of a fork,
//! a copy and a fold (`tables`), for each check of an opening contents that fail it (`faults`), a guest's write that no
//! check sees, an enlargement undone and a link's entry taken away (`outlines`), two works beside each other that leave the
//! same table whichever is undone or ended first (`orders`), and the empty repository, which is sound, kept and without disks
//! (`empty`). The contents are in `specs/`: `SmallContents`, `SmallTables`, `SmallOrders` and `FaultyContents`. Sizes are in
//! sectors of 512 bytes, room in extents.
#![tactic(auto)]

mod empty;
mod faults;
mod orders;
mod outlines;
mod tables;

pub use empty::example_empty;
pub use faults::{
    example_disk, example_entry_link, example_fork_link, example_invalid, example_leaf_link,
    example_lost_entry, example_misnamed, example_old_leaf, example_record, example_record_volume,
    example_relink_link, example_second_entry, example_too_many, example_tree,
};
pub use orders::{example_ended_first, example_undone_first};
pub use outlines::{
    example_but_leaf, example_enlarging, example_outline, example_undone, example_unfolded,
};
pub use tables::{
    example_coalesce, example_fork_begun, example_fork_ended, example_fork_made,
    example_fork_renamed, example_inflate, example_leaf_copied, example_leaf_folded,
    example_leaf_renamed, example_leaf_swapped, example_pair, example_raw, example_relink,
};
