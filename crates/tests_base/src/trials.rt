//! The lines of trials, worked by hand from the generator's definition.

use sm_script::Trial;
use std::process::Abort;
use std::str;
use std::test::Fail;

/// The next line of a trial is this one.
fn draws(rt: &impl Abort, trial: &mut Trial, line: &str) -> Result<(), Fail> {
    let mut room = [0; 128];
    let length = trial.line(&mut room);
    let drawn = room.get(..length).unwrap_or(&[]);
    assert!(rt; drawn == line.as_bytes(), "{line}");
    Ok(())
}

#[test]
fn first_lines_of_trials(rt: HostRuntime) -> Result<(), Fail> {
    let mut first = Trial::new(1);
    for line in [
        "detach 00000000-0000-4000-8000-000000000009",
        "flush 00000000-0000-4000-8000-000000000006",
        "fill 00000000-0000-4000-8000-000000000011 154 7 29",
        "fill 00000000-0000-4000-8000-000000000003 242 13 20",
        "fill 00000000-0000-4000-8000-000000000004 282 16 d4",
        "attach 00000000-0000-4000-8000-000000000007 ro",
        "gc",
        "clone 00000000-0000-4000-8000-000000000009 00000000-0000-4000-8000-000000000008",
    ] {
        draws(&rt, &mut first, line)?;
    }
    let mut last = Trial::new(u64::MAX);
    draws(
        &rt,
        &mut last,
        "fill 00000000-0000-4000-8000-000000000011 341 3 80",
    )?;
    draws(
        &rt,
        &mut last,
        "delete 00000000-0000-4000-8000-000000000009",
    )?;
    draws(
        &rt,
        &mut last,
        "resize 00000000-0000-4000-8000-000000000004 249856",
    )
}
