//! Steps the lines that a number draws on two new repositories in memory, one over a cache of one sector and one over a cache of 1,024, and
//! says what was accepted and refused where nothing differs: each reply has the same bytes, and in the end each sector of both devices.
#![tactic(auto)]

mod comparing;
mod opening;

use comparing::compare;
use std::io;
use std::process::ExitCode;

/// The numbers from which lines are drawn.
const NUMBERS: [u64; 3] = [0, 1, 2];

fn main(rt: HostRuntime) -> io::Result<ExitCode> {
    let mut code = ExitCode::SUCCESS;
    for number in NUMBERS {
        match compare(rt.alloc(), number) {
            Ok(counts) => {
                let (accepted, refused) = (counts.accepted, counts.refused);
                println!(rt; "same {number}: ok {accepted} no {refused}")?;
            }
            Err(difference) => {
                println!(rt; "bad {number}: {difference}")?;
                code = ExitCode::FAILURE;
            }
        }
    }
    Ok(code)
}
