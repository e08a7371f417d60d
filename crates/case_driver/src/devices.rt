//! Devices, formats and refusals.

use case_device::{Choice, Device, same_sectors};
use case_runs::{Outcome, RUN, Streams, Tester, WHOLE};
use case_text::Part;
use case_words::{Wrong, differs, found};
use lvhd_command::Status;
use std::alloc::Global;

/// A case begins on a device of so many sectors: 64 extents of 32 behind the front of the volume group.
const USUAL_SECTORS: u64 = 6144;

/// The first sector behind the records of a case's first repository.
const USUAL_FREE: u64 = 4608;

/// A sink that is full after three bytes.
const FULL: Streams = Streams {
    piece: 3,
    until: None,
    room: Some(3),
};

/// Each byte of a stale sector.
const STALE: [u8; 512] = [0xee; 512];

/// Writes stale bytes into the sectors of a device from this one on, so that they last.
fn spoil(alloc: Global, disk: &mut Device, from: u64) -> Result<(), Wrong> {
    for at in from..disk.sectors() {
        disk.put(alloc, at, &STALE)?;
    }
    disk.settle()
}

/// A device of so many sectors, of stale bytes or of zeros.
pub fn device(alloc: Global, sectors: u64, is_stale: bool) -> Result<Device, Wrong> {
    let mut disk = Device::new(alloc, sectors)?;
    if is_stale {
        spoil(alloc, &mut disk, 0)?;
    }
    Ok(disk)
}

/// The device that a case begins on: a repository on 6,144 sectors, over stale bytes.
pub fn usual_device(tester: &mut Tester) -> Result<Device, Wrong> {
    let mut disk = Device::new(tester.alloc, USUAL_SECTORS)?;
    let words = "16384 4096 64 99999999-9999-4999-8999-999999999999";
    formatted(tester, &mut disk, words, "ok extents 64 free 48")?;
    spoil(tester.alloc, &mut disk, USUAL_FREE)?;
    disk.copy(tester.alloc)
}

/// Whether a device is as it was, by what a stop leaves at least and by what it leaves of one value more.
fn stayed(alloc: Global, before: &mut Device, after: &Device) -> Result<(), Wrong> {
    let mut least = after.copy(alloc)?;
    let mut next = after.left(alloc, Choice::both(&[1]))?;
    if same_sectors(alloc, before, &mut least)? && same_sectors(alloc, before, &mut next)? {
        return Ok(());
    }
    Err(found(alloc, "the device is not as it was"))
}

/// Whether a run ended with this one line: done, or refused with the device as it was.
fn ends(
    tester: &Tester,
    outcome: &Outcome,
    wanted: &str,
    before: &mut Device,
    after: &Device,
) -> Result<(), Wrong> {
    let got = outcome.printed.as_str();
    if got.strip_suffix("\n").unwrap_or("") != wanted {
        return Err(differs(tester.alloc, "the line", wanted, got));
    }
    if !wanted.starts_with("error ") {
        return tester.ended(outcome, Status::Done);
    }
    tester.ended(outcome, Status::Refused)?;
    stayed(tester.alloc, before, after)
}

/// Runs the program with words, over a script of one line.
fn run_words(
    tester: &mut Tester,
    disk: &mut Device,
    words: &str,
    streams: Streams,
) -> Result<Outcome, Wrong> {
    let words: Vec<&str> = words.split_whitespace().collect(tester.alloc)?;
    tester.run_with(disk, &words, "list\n", streams)
}

/// Whether a run ended at a full sink, into which the front of this line was printed.
fn fills(tester: &Tester, outcome: &Outcome, line: &str) -> Result<(), Wrong> {
    tester.ended(outcome, Status::Sink)?;
    let got = outcome.printed.as_str();
    if line.starts_with(got) && Some(got.len()) == FULL.room {
        return Ok(());
    }
    Err(differs(tester.alloc, "a full sink", line, got))
}

/// A format that is refused makes no call of the device, so it is refused where the first fails; with a full sink it is not. The device
/// is as it was each time.
fn format_refused(
    tester: &mut Tester,
    disk: &mut Device,
    before: &mut Device,
    words: &str,
    line: &str,
) -> Result<(), Wrong> {
    disk.fail(tester.alloc, Part::First, 0)?;
    let outcome = run_words(tester, disk, words, WHOLE)?;
    ends(tester, &outcome, line, before, disk)?;
    let outcome = run_words(tester, disk, words, FULL)?;
    fills(tester, &outcome, line)?;
    *disk = disk.copy(tester.alloc)?;
    stayed(tester.alloc, before, disk)
}

/// Runs `format` with these words behind it, which prints this line. Where the line is an error, the device is as it was.
pub fn formatted(
    tester: &mut Tester,
    disk: &mut Device,
    words: &str,
    line: &str,
) -> Result<(), Wrong> {
    let alloc = tester.alloc;
    let words = format!(in alloc; "format {words}")?;
    let mut before = disk.copy(alloc)?;
    if line.starts_with("error ") {
        return format_refused(tester, disk, &mut before, words.as_str(), line);
    }
    let outcome = run_words(tester, disk, words.as_str(), WHOLE)?;
    ends(tester, &outcome, line, &mut before, disk)
}

/// Runs a trial by a number, which prints this line.
pub fn tried(
    tester: &mut Tester,
    disk: &mut Device,
    number: &str,
    line: &str,
) -> Result<(), Wrong> {
    let alloc = tester.alloc;
    let words = format!(in alloc; "trial {number}")?;
    let mut before = disk.copy(alloc)?;
    let outcome = run_words(tester, disk, words.as_str(), WHOLE)?;
    ends(tester, &outcome, line, &mut before, disk)
}

/// Runs words that spell no form: nothing is printed, and the device is as it was.
pub fn misspelled(tester: &mut Tester, disk: &mut Device, words: &str) -> Result<(), Wrong> {
    let mut before = disk.copy(tester.alloc)?;
    let outcome = run_words(tester, disk, words, WHOLE)?;
    tester.ended(&outcome, Status::Words)?;
    if !outcome.printed.is_empty() {
        return Err(differs(tester.alloc, "words", "nothing", outcome.printed.as_str()));
    }
    stayed(tester.alloc, &mut before, disk)
}

/// Opens a copy of a device, of a part of which this call fails, for a run that is refused: nothing is printed at the fault, or else this line.
/// Answers whether the call was met.
fn refused_at(
    tester: &mut Tester,
    disk: &Device,
    before: &mut Device,
    wanted: &str,
    part: Part,
    call: u64,
) -> Result<bool, Wrong> {
    let mut copy = disk.copy(tester.alloc)?;
    copy.fail(tester.alloc, part, call)?;
    let outcome = tester.run(&mut copy, "list\n")?;
    if outcome.status != Status::Device {
        ends(tester, &outcome, wanted, before, &copy)?;
        return Ok(false);
    }
    if !outcome.printed.is_empty() {
        return Err(differs(
            tester.alloc,
            "at a fault",
            "nothing",
            outcome.printed.as_str(),
        ));
    }
    stayed(tester.alloc, before, &copy)?;
    Ok(true)
}

/// The same with a sink that is full after three bytes.
fn refused_full(
    tester: &mut Tester,
    disk: &Device,
    before: &mut Device,
    wanted: &str,
) -> Result<(), Wrong> {
    let mut copy = disk.copy(tester.alloc)?;
    let outcome = tester.run_with(&mut copy, RUN, "list\n", FULL)?;
    fills(tester, &outcome, wanted)?;
    stayed(tester.alloc, before, &copy)
}

/// A run on a device is refused by a line: with each call of a part of it failing in turn, and with none.
fn refused_within(
    tester: &mut Tester,
    disk: &Device,
    before: &mut Device,
    wanted: &str,
    part: Part,
) -> Result<(), Wrong> {
    for call in 0..1000 {
        if !refused_at(tester, disk, before, wanted, part, call)? {
            return Ok(());
        }
    }
    Err(found(tester.alloc, "an opening that does not end"))
}

/// A run on a device is refused by a line: with each call of the opening failing in turn, with none, and with a full sink. The device
/// is as it was each time.
pub fn refused(tester: &mut Tester, disk: &Device, wanted: &str) -> Result<(), Wrong> {
    if !wanted.starts_with("error ") {
        return Err(differs(tester.alloc, "a refusal", "an error", wanted));
    }
    let mut before = disk.copy(tester.alloc)?;
    refused_within(tester, disk, &mut before, wanted, Part::First)?;
    if disk.has_border() {
        refused_within(tester, disk, &mut before, wanted, Part::Second)?;
    }
    refused_full(tester, disk, &mut before, wanted)
}
