//! Works through cases: runs the whole program on devices in memory, and holds what it leaves against what a case says.
//!
//! **What is kept here.** Nothing between two cases. [`work_through`] is all of a program: it reads the files that the arguments
//! name, works through their cases and prints a line for each. A case is worked on a bench of `case_runs`, a device in memory and the
//! book of its disks; faults of its runs and of its imports are tried by `case_faults`. Devices are counted in sectors of 512 bytes.
//!
//! **What is promised.** Nothing beyond safety: whatever stands in a file, and whatever the program does, a driver does not panic
//! and ends. That it finds what it should is tested, and not proved: by cases that are wrong in one place each.
#![tactic(auto)]

mod acts;
mod calls;
mod cases;
mod devices;
mod printing;

pub use printing::work_through;
