//! What a repository stands for: the definitions that join the bytes of a device to the disks of its users.
//!
//! Kept here: nothing; no call touches a device or takes memory. A content is the table of a volume group
//! with the sectors of all extents. From it are read the images, what is read through a chain of them, the
//! standing volume of each disk, the disks in order of UUID, the checks of an opening with the place of the
//! first that fails, and what is kept whenever a device stops. The checks look at an outline of a content: its
//! sizes and its table, of each image the size and the parent, and what each record sector reads as. Sizes are in
//! sectors of 512 bytes, room in extents.
//!
//! The definitions are in `specs/`: `Contents`, `Entries` (journal entries and their stages), `Images` (an image, a turn, what
//! is read), `Answering` (the same without a bound), `Standing` (the disks), `Ordered` (their order), `Logs` (the logs of tracked
//! disks), `Outlines` (what the checks look at), `Checks` (the checks in their order), `LogChecks` (the last one, of logs), `Keeping`
//! (kept, but for logs), `Devices` (the same of a whole device), `Shapes` (the shape that a content spells), `Opened` (the commits that
//! an opening makes, repair by repair, and the shape of what stands behind them), `Dropped` (the logs of no use, which an opening
//! removes before), `Plain` and `PlainSound` (a repository in which nothing is under way), `Readings` (record sectors of two
//! contents), `Changes` (an image that comes, goes, grows or moves), `Enlarging` (an image that is being enlarged), `Undone` (while an
//! enlargement or a fork that was cut short is undone), `Unfolded` (a table without the entry of a copy or of a link), `Leaves` (while
//! the folding of a leaf that was cut short is ended), `Worlds` (what a change of the area leaves), `Volumes` (a volume that holds what
//! another held), `Apart` and `Besides` (one content, or outline, beside another), `Forks` and `Swaps` (a content at any moment of a fork,
//! or of a swap, beside the one from before).
//!
//! The laws are the contracts of functions that do nothing: of what is read through a chain (`chains`), of images in a
//! content (`images`), of what a commit or a write leaves of each volume (`worlds`), of the list of disks (`listing`), of a
//! repository in which nothing is under way, or an enlargement or a fork alone (`plain`), or a copy or a link
//! (`unfolding`), or the folding of a leaf (`leaves`), of outlines and the first check that fails (`faults`), of what a volume says under whatever name it
//! stands (`volumes`), of logs and the check of them (`logs`, `log_checks`), and of the moments of a fork (`forks`) and of a swap (`swaps`). That their hypotheses can be met is
//! shown in the crate examples_standing.
#![tactic(auto)]

mod chains;
mod faults;
mod forks;
mod images;
mod leaves;
mod listing;
mod log_checks;
mod logs;
mod plain;
mod swaps;
mod unfolding;
mod volumes;
mod worlds;

pub use chains::{
    law_copy_below, law_guest_write, law_no_parent, law_relink, law_rename, law_walk,
};
pub use faults::{law_beside, law_enlarging, law_first_fault, law_longest_chain, law_outline};
pub use forks::{law_fork_ended, law_fork_sound, law_forking};
pub use images::{
    law_chain_kept, law_chain_length, law_copied, law_moved, law_no_image, law_raised, law_read,
    law_removed, law_short_chain,
};
pub use leaves::law_leaf;
pub use listing::{
    law_disk, law_disks_follow, law_disks_in_order, law_one_disk_changed, law_one_disk_less,
    law_one_disk_more,
};
pub use log_checks::{law_logs_pass, law_logs_stay, law_pieces, law_right_logs};
pub use logs::{law_log_fault, law_logs};
pub use plain::{law_but_leaf, law_plain_kept, law_undone};
pub use swaps::law_swapping;
pub use unfolding::{law_linking, law_unfolded};
pub use volumes::{law_same_apart, law_same_volume, law_whole};
pub use worlds::{law_commit, law_other_choices, law_other_volumes};
