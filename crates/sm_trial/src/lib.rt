//! A trial: the lines that a generator draws from a number are stepped one by one, and their replies are counted.
//!
//! **What is kept here.** Nothing on a device. A [`Tally`] counts replies: how many lines were accepted, how many refused, and the sum of
//! all bytes of all replies with their newlines. An [`Ending`] counts disks, images and free extents.
//!
//! **What is promised.** [`try_lines`] steps the 20,000 lines of a number over anything that steps as the machine says (`Steps` of `sm_run`).
//! At `Ok` the machine's state is the one behind all of them, and the tally is that of the machine's replies (`HasTried` in
//! `specs/Tallies`); no line found memory wanting. [`count_all`] asks for a `list` and a `stat` and counts their rows (`HasCounted` in
//! `specs/Endings`). At every return whatever a stop leaves opens again, and a call of the device failed exactly where the answer is
//! `Device`. Where what the logs of tracked disks tell was true as a call began, whatever a stop leaves is truthful at its return (`truthful`).
//!
//! **What it costs.** The room for the bytes of a line, 32,256 bytes, taken once; for each reply the memory of its text, which is given
//! back at once; and the memory of the steps. A reply of more than 65,536 bytes is answered with want of memory, since a sum has 64 bits.
#![tactic(auto)]

mod endings;
mod tallies;
mod trials;

pub use endings::{Ending, count_all};
pub use tallies::Tally;
pub use trials::try_lines;
