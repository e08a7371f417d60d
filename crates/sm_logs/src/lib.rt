//! The logs of all tracked disks, in memory: one for each disk that has one, in order of the disks' UUIDs.
//!
//! Kept here: nothing on a device. [`Log`] is a log with its bits, and [`Logs`] has those of a repository. Contracts see them as a log and
//! as a list of logs (`Logs` of `sm_log`). A stop leaves nothing of them; whoever opens the repository reads them anew.
//!
//! **What it costs.** `Logs::new` takes the memory for 500 logs without their bits, which is as many as there are disks, so that putting one
//! in takes none. The bits of a log take a bit for each piece. A log is found by halving. What changed between two snapshots is
//! answered by one walk of at most as many steps as there are logs, and takes the memory for the bits that it answers.
//!
//! The definitions are in `specs/`: `Held` (how logs are held, and whether a write needs a mark).
#![tactic(auto)]

mod held;
mod rows;
mod walks;

pub use held::{LOG_LIMIT, Logs};
pub use rows::Log;
