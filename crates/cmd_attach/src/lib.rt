//! Disks are attached and detached.
//!
//! **What is kept here.** Nothing: each call works on a store and on what a session has in memory.
//!
//! **What it promises.** `attach` notes how a disk is in use, and `detach` that it no longer is; each image of the disk's chain
//! is counted as often as an attached disk uses it. Both sync first, so that nothing is pending behind them; a stop leaves the
//! disks from before, each sector as it might have been left before the call. Neither changes a disk. `attach` first takes all memory
//! that it needs, for the extents that the image lacks: where it finds none, all is as it was. Then it gives up the folding of the disk's
//! own leaf, if there is one (`gc_abandon`), and then it gives the image its extents. `detach` takes no memory. Each is asked
//! between two steps of a session (`IsBetweenSteps` of `sm_ready`), and leaves the session there where it succeeds.
//!
//! **In which units.** Images of a chain are counted, at most 30.
//!
//! **What it costs.** One sync, three commits where extents are given, one where a folding is given up, and two look-ups among the
//! images for each image of the chain. Detaching also takes one step for each attached disk, and for each image in use for each image
//! of the chain.
//!
//! The definitions are in `specs/`: `Attaching` (what is asked of memory, and what is left alone).
#![tactic(auto)]

mod attaching;
mod chains;
mod detaching;
mod enlarging;

pub use detaching::detach;
pub use enlarging::attach;
