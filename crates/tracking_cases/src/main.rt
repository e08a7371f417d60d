//! Works through the cases of the files that its arguments name, and prints a line for each. docs/CASES.md is the manual.
#![tactic(auto)]

use case_driver::work_through;
use std::io;
use std::process::ExitCode;

fn main(rt: HostRuntime) -> io::Result<ExitCode> {
    work_through(&rt)
}
