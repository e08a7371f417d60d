//! Which step the collector takes next, by what is in memory.
//!
//! **What is kept here.** [`ChildCounts`]: a number for each image that there may be, whose memory is taken when it is made. What
//! stood in it before a [`plan`] says nothing: `plan` counts the children of each image anew. It reads the table and what a session
//! has in memory, and changes neither.
//!
//! **What it is.** The machine's `next_step` (`Collector` of `sm_machine`) of the shape in memory (`shape_in` of `sm_ready`). At
//! rest its rules are tried in this order: a hidden image without children is removed; an image with more extents than its slots
//! need is cut; a hidden image is copied into its parent, then the leaf of a disk that is not attached into its own, then that of an
//! attached disk, where the parent has no other child and there is room; else the least room that one of these needs is said, or that
//! nothing is to be done. Each rule takes the image of the least name. While an operation runs, the next step is the next block from
//! the cursor on, or the next child to link, or, where too many blocks of an attached disk's leaf are dirty, the least of these, or the
//! operation's end.
//!
//! **What it promises.** The step is the machine's, all of it, names and numbers too, where table and memory are orderly and tidy
//! (`Answers` of `sm_ready`), whatever the sectors hold. It takes no memory, calls no store and cannot fail. One function stands
//! for each notion of the machine, under its name, and each for itself answers what that notion says.
//!
//! **In which units.** Room is counted in extents, sizes in sectors, blocks and slots from 0. A cursor is the least block that may
//! still have to be copied.
//!
//! **What it costs.** At rest at most nine passes over the images: one counts children, and the others are the rules'. In a pass
//! at most three rows are looked up for an image, its parent's and its own, each by name among the rows, which are in order: by
//! ten comparisons at most, since there are at most 500 images. The extents of the table are passed over once for the free ones.
//! The blocks of a pair are counted at most twice, each time by a pass over the entries of two tables. While an operation runs: a
//! few passes over the images, one over the entries of one table from the cursor on, and one over the flags of the dirty blocks
//! where there are more than 16.
//!
//! The definitions are in `specs/`: `Planning` (when an answer of an image or of a pair is the machine's, and the rules one by one),
//! `Counting` (when each row has its number of children).
#![tactic(auto)]

mod counting;
mod finding;
mod images;
mod pairs;
mod planning;

pub use counting::ChildCounts;
pub use planning::plan;
