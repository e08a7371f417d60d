//! How many calls of the device a run makes.

use crate::tester::{RUN, Streams, Tester, WHOLE};
use case_device::Device;
use case_text::{Part, Step, text_of};
use case_words::{Wrong, differs};
use lvhd_command::Status;
use std::alloc::Global;

/// How many calls of a part of the device a script makes, up to 65,536, whatever its run comes to: up to the first that may fail without
/// the status of it.
pub fn calls_of(
    tester: &mut Tester,
    disk: &Device,
    part: Part,
    script: &str,
    streams: Streams,
) -> Result<u64, Wrong> {
    let mut low = 0u64;
    let mut high = 65_536u64;
    for _halving in 0..17 {
        let middle = low.saturating_add(high.saturating_sub(low) / 2);
        let mut copy = disk.copy(tester.alloc)?;
        copy.fail(tester.alloc, part, middle)?;
        let outcome = tester.run_with(&mut copy, RUN, script, streams)?;
        if outcome.status == Status::Device {
            low = middle.saturating_add(1).min(high);
        } else {
            high = middle;
        }
    }
    Ok(high)
}

/// How many calls of a part of the device the first lines of a script make.
pub fn calls_within(
    tester: &mut Tester,
    disk: &Device,
    part: Part,
    steps: &[Step<'_>],
    count: usize,
) -> Result<u64, Wrong> {
    let text = text_of(tester.alloc, steps, count, false)?;
    calls_of(tester, disk, part, text.as_str(), WHOLE)
}

/// Whether so many calls of the device were made.
pub fn are_calls(alloc: Global, wanted: u64, calls: u64) -> Result<(), Wrong> {
    if calls == wanted {
        return Ok(());
    }
    let wanted = format!(in alloc; "{wanted}")?;
    let calls = format!(in alloc; "{calls}")?;
    Err(differs(
        alloc,
        "calls of the device",
        wanted.as_str(),
        calls.as_str(),
    ))
}
