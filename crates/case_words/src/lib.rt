//! The words of a case file: short forms written out, bytes and numbers, what a line of a script would do, and what was found where a
//! case is not met.
//!
//! **What is kept here.** Nothing between two files. [`Written`] is a file with its short forms written out, [`Command`] what an accepted
//! line of a script does to the disks, [`Wrong`] what was found, with the line of the file. Files are lines of text, lines are counted
//! from 1. docs/CASES.md is the manual of the language.
//!
//! **What is promised.** Nothing beyond safety: the reading never panics and always ends.
#![tactic(auto)]

mod bytes;
mod commands;
mod spelling;
mod wrong;

pub use bytes::{bytes_of, is_filled, numbers_of};
pub use commands::{Command, cut};
pub use spelling::{Line, Written, times_of};
pub use wrong::{Wrong, differs, found};
