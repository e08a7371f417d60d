//! The edge to the system: a file as a device, and readers and writers of bytes as source and sink.
//!
//! Kept here: the file or stream, and the count of its faults; the system's time is only counted anew. Nothing is told of what a file or a stream
//! holds, since no proof knows that; what is proved is that each call answers `Failed` only where its count
//! rose and any other answer only where it did not, stays within the buffer it was handed, and ends. A device has as many sectors of 512 bytes as its
//! file has whole ones. The calls take no memory.
//!
//! That a real file keeps a sector whole, and keeps what was synced, is trusted.
#![tactic(auto)]

mod clocks;
mod files;
mod streams;

pub use clocks::seconds_since_2000;
pub use files::FileDisk;
pub use streams::{ReadSource, WriteSink};
