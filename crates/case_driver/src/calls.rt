//! How many calls of the device a script makes.

use case_runs::{Bench, Tester, answered, are_calls, calls_within};
use case_text::{Cost, Part, Step};
use case_words::{Wrong, found};

/// A script is answered on a copy of the device, if there is one.
fn is_answered(tester: &mut Tester, bench: &Bench<'_>, steps: &[Step<'_>]) -> Result<(), Wrong> {
    if steps.is_empty() {
        return Ok(());
    }
    let mut copy = bench.disk.copy(tester.alloc)?;
    let _printed = answered(tester, &mut copy, steps, false, bench.known.units)?;
    Ok(())
}

/// A script is answered on a copy of the device, and makes so many calls of its first part, its opening and its end with them. Without a script
/// that is an opening, which may be refused.
pub fn calls(
    tester: &mut Tester,
    bench: &Bench<'_>,
    steps: &[Step<'_>],
    wanted: u64,
) -> Result<(), Wrong> {
    is_answered(tester, bench, steps)?;
    let calls = calls_within(tester, &bench.disk, Part::First, steps, steps.len())?;
    are_calls(tester.alloc, wanted, calls)
}

/// A script is answered on a copy of the device, and its last line makes so many calls of its first part.
pub fn costs(
    tester: &mut Tester,
    bench: &mut Bench<'_>,
    steps: &[Step<'_>],
    cost: Cost,
) -> Result<(), Wrong> {
    if steps.is_empty() {
        return Err(found(tester.alloc, "no line makes calls"));
    }
    is_answered(tester, bench, steps)?;
    let before = calls_within(
        tester,
        &bench.disk,
        Part::First,
        steps,
        steps.len().saturating_sub(1),
    )?;
    let all = calls_within(tester, &bench.disk, Part::First, steps, steps.len())?;
    let made = all.saturating_sub(before);
    let above = bench.cost.replace(made);
    match (cost, above) {
        (Cost::Any, _) => Ok(()),
        (Cost::Calls(wanted), _) => are_calls(tester.alloc, wanted, made),
        (Cost::Same, Some(above)) => are_calls(tester.alloc, above, made),
        (Cost::Same, None) => Err(found(tester.alloc, "no costs stand above")),
    }
}
