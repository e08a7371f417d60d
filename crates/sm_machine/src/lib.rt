//! The machine: what a repository is to those who use it.
//!
//! Kept here: nothing on a device. This crate has the lines of a script and the replies to them as
//! plain types, and the definitions by which a command turns disks and a shape into a reply, new disks
//! and a new shape. Sizes in commands and replies are in bytes, those of disks and images in sectors of
//! 512 bytes, and room is counted in extents. Nothing here touches a device or takes memory, and nothing
//! is left by a stop: what a stop may leave of the disks is one of the definitions.
//!
//! The definitions are in `specs/`. They compute, so that a script and its replies can be written down
//! and checked.
//!
//! - `Lines`: a script cut into lines, and the command that a line spells.
//! - `Replies`: a reply as it is printed. `Stats` is what one of them tells.
//! - `Disks`: the disks, each a list of sectors.
//! - `Operations`: the collector's operation, with the blocks that are dirty.
//! - `Shapes`: the images with their tables, records, attachments and the running operation.
//! - `Refusals`: why a command is refused, by the shape alone, first cause first.
//! - `Commits`: by how much the sequence number rises.
//! - `Collector`: the collector's next step, what it does, and the debt that it works off.
//! - `Steps`: the step of each command.
//! - `Tracking`: what a command does to the logs of tracked disks, and which logs there are.
//! - `Runs`: a run over lines, and what may be seen after a stop.
//! - `WellFormed`: which shapes there are.
//! - `Laws`: what the module [`laws`] proves of all of these.
#![tactic(auto)]

mod commands;
pub mod laws;
mod replies;

pub use commands::{Bytes, Command, LineBytes};
pub use replies::{DiskRow, DiskRows, Reply, StatRow, StatRows};
