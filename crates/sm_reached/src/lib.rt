//! What logs tell of two snapshots that were made in one run: no piece too many.
//!
//! Kept here: nothing. The logs of tracked disks name each piece in which a snapshot differs from an earlier one of its disk, which
//! `sm_machine` and those above it prove. This crate has the other half: within one run they name no piece that no line reached.
//!
//! The definitions are in `specs/`.
//!
//! - `Reached`: the commands of a run that were accepted, which pieces they reach, and what is told of two snapshots.
//! - `Examples`: two snapshots of a disk of two pieces.
//!
//! The module [`laws`] proves that it is so of each run. The tags that were given since the earlier snapshot, to disks whose logs
//! descend from that of its disk, are kept track of: each log since such a tag has such a tag itself or is that of the disk, and
//! its bits were set by writes of the disk. The walk from the later snapshot stays among these.
#![tactic(auto)]

pub mod laws;
