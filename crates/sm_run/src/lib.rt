//! A run: lines are read from a source, each is one step of a machine, and its whole reply goes into a sink before the
//! next byte is read.
//!
//! **What is kept here.** Nothing on a device. [`Steps`] is the trait of what is stepped, over a device or over
//! anything else; lines are read and replies are printed as the script's language has it. A script is bytes, at most
//! 2^40 of them; a line ends with a newline or with the script's end, and an end directly behind a newline, or before
//! any byte, ends no further line. A line longer than 65,536 bytes spells nothing, so one byte more than that is all
//! that is kept of it.
//!
//! **What is promised.** [`run`] says it in one record, `HasRun` (`specs/Runs.antt`), by its answer. There are the
//! bytes that were taken from the source, and the turns: the lines whose replies went out whole, each with whether it
//! found no memory. At `Ok` the script was read to its end, its lines are those of the turns, and the sink got exactly
//! their replies. Where the source failed, or gave a byte past the most of a script, every line that a newline had
//! ended was answered. Where the device or the sink failed, one line more was read whole: of its reply nothing, or a
//! front, went out. The machine's state is the one after the turns, or after that line too. Memory is wanting only to
//! a line that spells a command whose step may want it (`may_want_memory`; a `gc` where it begins a folding): no other line is
//! answered so (`IsSpared`), no `write`, `fill` or `flush`.
//!
//! **What a stop may leave.** At every return the disks are those after some prefix of the accepted lines that
//! reaches at least the last acknowledged flush or changing command, sector by sector (`IsAsAfter`, `IsAsDuring`). A
//! stop is a device that fails from some call on, so this covers each moment of a run. The laws by which one step
//! makes what a stop may show grow stand by themselves: [`law_during`], [`law_after`], [`law_settled`].
//!
//! **What logs tell.** Where what the logs of tracked disks tell was true as a run began, whatever a stop leaves is truthful at every return (`truthful`).
//!
//! **Costs.** One [`LineBuffer`], of 65,537 bytes for a line and 32,256 for the bytes that it may spell, which the caller
//! takes before all else and which is used again for each line, so a run never ends for want of it; no other memory but
//! that of the steps. The source is read in pieces that end at a newline, since a longer piece would take lines from it
//! that a fault of the sink leaves unread. A run ends, after at most 2^40 + 1 bytes.
#![tactic(auto)]

mod answers;
mod buffers;
mod laws;
mod reading;
mod runs;
mod steps;

pub use buffers::LineBuffer;
pub use laws::{law_after, law_during, law_settled};
pub use runs::{RunFault, run};
pub use steps::{StepFault, Steps};
