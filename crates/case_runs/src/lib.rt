//! Runs of the program on the device of a case, and what they leave, held against the book of the case's disks.
//!
//! **What is kept here.** A [`Tester`] runs the program and counts how much was tried. A [`Bench`] is a case as it is worked: a device in memory
//! and the book of its disks, to which [`followed`] adds a run. [`probe`] opens what is left of a device and holds its
//! disks against the book; [`calls_of`] finds how many calls of the device a run makes. Devices are counted in sectors of 512 bytes.
//!
//! **What is promised.** Nothing beyond safety: whatever the program does, none of these panics, and each ends.
#![tactic(auto)]

mod bench;
mod calls;
mod probes;
mod tester;

pub use bench::{Bench, Known, answered, followed};
pub use calls::{are_calls, calls_of, calls_within};
pub use probes::{Answered, collects, probe, probe_copy};
pub use tester::{Counts, Outcome, RUN, Streams, Tester, WHOLE, count};
