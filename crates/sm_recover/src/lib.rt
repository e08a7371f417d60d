//! The second half of an opening: what stands in a store is checked, and what a stop has left is repaired.
//!
//! **What is kept here.** Nothing. A store of volumes goes in, and what a session keeps in memory comes out: the tree of
//! the images, the places of the disks' records, the logs of tracked disks, no attachment and no operation. Sizes are in sectors of
//! 512 bytes unless a line says extents; a place of a record is a number from 0 to 511.
//!
//! **The model** (`specs/`). `Stores` has what the checks leave known (`IsOpenedOn`) and what an opening may leave (`IsRepairedFrom`),
//! and `Tracked` which logs are read. `Repairs` says what the checks leave known once what was under way is ended or undone, `Steps`
//! what changes make one after the other, `Linking` what linking children one after the other leaves, and `Backs` the images in memory
//! once a fork is undone; `Ending` has the table and the images in memory once the folding of a leaf is ended. What each check looks at
//! is `sm_checks`', and of the logs `sm_standing`'s (its `LogChecks`). What holds for images of any kind is `sm_ready`'s: what holds
//! of a store between two steps, memory at rest beside a store and what each repair makes of it (its `Repairs`), and the table that an
//! opening leaves (its `Cleaned`). The table without logs of no use is `sm_standing`'s (its `Dropped`), and so are the table without a
//! fork or an enlargement and the changes that lead to it (its `Undone`), the table without the entry of a copy or of a link (its
//! `Unfolded`), and that without the folding of a leaf (its `Leaves`). How one child is linked is `gc_coalesce`'s.
//!
//! **What it promises.** All checks come before the first write, those of `sm_checks` in their order and that of the logs behind them,
//! and the first that fails gives the place (`opening.rt`, one after another). The logs that are not new and whose disks are there are
//! read into memory by their check (`tracked.rt`). Once all checks passed, memory is that of the table in which nothing is under way
//! (`memory.rt`): of a fork the new images go, and the base, where it is there, is the disk's image, shown; of a leaf's folding the image
//! that goes on has the leaf's name, shown; of a link the image stands over its parent still. Then a repository of an earlier version is
//! taken over, which changes neither its table nor its sectors (`settling.rt`). Then each log of no use, one that is new or whose disk is
//! not there, is removed by a commit of its own (`dropping.rt`); behind that each log is that of a disk, and no repair changes one. Then
//! the folding of a leaf is ended (`folding.rt`), a commit each: where the leaf was renamed an enlargement of its parent is undone, and
//! the parent takes its name; from then on the image is shown and the old leaf goes; the entry goes last. Then the entry of a copy goes,
//! and the fork or the enlargement is undone (`undoing.rt`), a commit each (`steps.rt`): of an enlargement the image's volume is cut to
//! the extents that it had, where it has more; of a fork the twin's new image is removed, and where the base is there the disk's new
//! image is removed, and the base is shown and takes the disk's name; the entry goes last. While that is done the entry of a link
//! stands. Then it is the collector's operation again: each image that reads through the link's image is linked to the parent, in
//! order of name, and then the entry goes (`linking.rt`); the link's image stays, hidden and without children. Then each new volume is
//! removed by a commit of its own (`removals.rt`), each record of no disk is wiped (`wiping.rt`), and one sync makes this last
//! (`settling.rt`). At each moment a stop leaves what stood before, or a content that is kept, passes the check of logs, and has the same
//! disks and the same logs. Afterwards table and memory are orderly and tidy, told or not, with room for all images and attachments that
//! may come, and each log in memory is a good one of a disk; where the content is told each image in memory is true of its volume, the
//! store is ready and nothing is pending. The table is the one from before without logs of no use, without what was under way and without
//! its new volumes, its sequence number raised by one for each commit; and the shape in memory is the one that an opening is to make of
//! what stood before. What is said here of a ready store, of disks and of shape is promised where what stood held well: each slot of a
//! VHD image a sector, and under the entry of a link the parent, with equal bytes, whatever the image holds. No check sees that.
//!
//! **What it costs.** That of the checks first. `Mgt::load` reads the 512 sectors of records and takes memory for them; the logs are read
//! as `sm_log_reading` says, which takes the memory for 500 of them and for the bits of each; behind the checks an opening takes that of
//! the 1,005 rows that a table may come to have, less those that stand, and of as many attachments as images; nothing else takes any. A
//! removal of the first log of no use is asked for before any write, as it may not fit the table's slot. A repair is one commit for each
//! log of no use, at most five commits for a fork and two for an enlargement, one commit for a copy and for a link, for each child of a
//! link two syncs, two sectors read and one written, one commit for each new volume, one write for each stray record, and one sync, also
//! where nothing is to repair.
#![tactic(auto)]

mod dropping;
mod folding;
mod linking;
mod memory;
mod opening;
mod removals;
mod settling;
mod steps;
mod tracked;
mod undoing;
mod wiping;

pub use settling::settle;
