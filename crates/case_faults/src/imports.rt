//! A file that is imported: whole, in pieces, and with each fault in turn.

use crate::choices::{choices_of, left_by};
use crate::faults::{disturbed, status_of, streams_of};
use case_device::{Book, Device};
use case_runs::{Answered, Bench, Outcome, Streams, Tester, WHOLE, count, followed, probe_copy};
use case_text::{Fault, Part, Step};
use case_words::{Wrong, differs, found};
use lvhd_command::Status;

/// An import makes fewer calls of the device than this.
const MOST_CALLS: u64 = 10_000;

/// In a file of so many bytes the source fails at each of them.
const SHORT_FILE: usize = 1536;

/// In a longer one it fails at so many, evenly apart.
const SOURCE_FAULTS: usize = 96;

/// The choices by which a device is left behind a fault of the source: nothing is pending then, so they leave the same.
const FEW_CHOICES: usize = 2;

/// A sink that is full after three bytes.
const FULL: Streams = Streams {
    piece: 3,
    until: None,
    room: Some(3),
};

/// An import as it is tried: the words and the bytes of the file, the device in front of it, and how it ends without a fault.
#[derive(Clone, Copy)]
struct Tried<'a> {
    words: &'a [&'a str],
    bytes: &'a [u8],
    disk: &'a Device,
    line: &'a str,
    book: &'a Book<'a>,
    /// The line of the book behind which the disks are as before.
    before: usize,
    /// And the one behind which the new disk is there.
    after: usize,
}

/// The disks are those behind a line.
fn shows_at(
    tester: &mut Tester,
    tried: &Tried<'_>,
    line: usize,
    disk: &Device,
) -> Result<(), Wrong> {
    let answered = Answered {
        lines: line,
        read: line,
    };
    let _text = probe_copy(tester, tried.book, answered, disk)?;
    Ok(())
}

/// An import ended as it does without a fault: it printed nothing, or its error.
fn ends(tester: &Tester, tried: &Tried<'_>, outcome: &Outcome) -> Result<(), Wrong> {
    let printed = outcome.printed.as_str();
    if tried.line == "ok" {
        tester.ended(outcome, Status::Done)?;
        if printed.is_empty() {
            return Ok(());
        }
        return Err(differs(tester.alloc, "an import", "nothing", printed));
    }
    tester.ended(outcome, Status::Denied)?;
    if printed.strip_suffix("\n") == Some(tried.line) {
        return Ok(());
    }
    Err(differs(tester.alloc, "an import", tried.line, printed))
}

/// Imports the file on a copy of the device, in pieces of so many bytes.
fn in_pieces(tester: &mut Tester, tried: &Tried<'_>, piece: usize) -> Result<Device, Wrong> {
    let mut disk = tried.disk.copy(tester.alloc)?;
    let streams = Streams { piece, ..WHOLE };
    let outcome = tester.run_bytes(&mut disk, tried.words, tried.bytes, streams)?;
    ends(tester, tried, &outcome)?;
    shows_at(tester, tried, tried.after, &disk)?;
    Ok(disk)
}

/// What each of the first choices leaves of a device shows the disks from before, or, where it may, the new one with them.
fn each_left(
    tester: &mut Tester,
    tried: &Tried<'_>,
    disk: &Device,
    choices: usize,
    lines: (usize, usize),
) -> Result<(), Wrong> {
    for chosen in choices_of(tester.alloc, disk)?.iter().take(choices) {
        let left = left_by(tester.alloc, disk, *chosen)?;
        if let Err(wrong) = shows_at(tester, tried, lines.0, &left) {
            if lines.0 == lines.1 {
                return Err(wrong);
            }
            shows_at(tester, tried, lines.1, &left)?;
        }
    }
    Ok(())
}

/// Imports the file with a fault. Where it is met the status says so and nothing was printed; a fault of the source leaves the disks from
/// before. Answers whether it was met.
fn meets(tester: &mut Tester, tried: &Tried<'_>, fault: Fault, number: u64) -> Result<bool, Wrong> {
    count(&mut tester.counts.faults);
    let mut disk = disturbed(tester.alloc, tried.disk, fault, number)?;
    let streams = streams_of(fault, number);
    let outcome = tester.run_bytes(&mut disk, tried.words, tried.bytes, streams)?;
    if outcome.status != status_of(fault) {
        ends(tester, tried, &outcome)?;
        each_left(
            tester,
            tried,
            &disk,
            FEW_CHOICES,
            (tried.after, tried.after),
        )?;
        return Ok(false);
    }
    if !outcome.printed.is_empty() {
        let printed = outcome.printed.as_str();
        return Err(differs(tester.alloc, "at a fault", "nothing", printed));
    }
    let (last, choices) = if fault.is_of_device() {
        (tried.after, usize::MAX)
    } else {
        (tried.before, FEW_CHOICES)
    };
    each_left(tester, tried, &disk, choices, (tried.before, last))?;
    Ok(true)
}

/// Says at which fault something was found.
fn met(tester: &mut Tester, tried: &Tried<'_>, fault: Fault, number: u64) -> Result<bool, Wrong> {
    let alloc = tester.alloc;
    match meets(tester, tried, fault, number) {
        Ok(is_met) => Ok(is_met),
        Err(wrong) => {
            let head = format!(in alloc; "at fault {number}")?;
            Err(wrong.under(alloc, head.as_str()))
        }
    }
}

/// Imports the file with each call of a device failing in turn, alone or with all behind it.
fn each_call(tester: &mut Tester, tried: &Tried<'_>, fault: Fault) -> Result<(), Wrong> {
    for call in 0..MOST_CALLS {
        if !met(tester, tried, fault, call)? {
            return Ok(());
        }
    }
    Err(found(tester.alloc, "an import that does not end"))
}

/// Imports the file from a source that fails behind each number of its bytes, or of a longer file behind some, up to the first that is not met.
fn each_byte(tester: &mut Tester, tried: &Tried<'_>) -> Result<(), Wrong> {
    let bytes = tried.bytes.len();
    let step = if bytes > SHORT_FILE {
        bytes / SOURCE_FAULTS
    } else {
        1
    };
    for number in (0..bytes.saturating_add(1)).step_by(step.max(1)) {
        if !met(tester, tried, Fault::Source { piece: 512 }, number as u64)? {
            return Ok(());
        }
    }
    Ok(())
}

/// An error that has no room in its sink, behind which the disks are those from before.
fn into_full(tester: &mut Tester, tried: &Tried<'_>) -> Result<(), Wrong> {
    let mut disk = tried.disk.copy(tester.alloc)?;
    let outcome = tester.run_bytes(&mut disk, tried.words, tried.bytes, FULL)?;
    tester.ended(&outcome, Status::Sink)?;
    let printed = outcome.printed.as_str();
    if !tried.line.starts_with(printed) || printed.len() != 3 {
        return Err(differs(tester.alloc, "a full sink", tried.line, printed));
    }
    each_left(
        tester,
        tried,
        &disk,
        FEW_CHOICES,
        (tried.before, tried.before),
    )
}

/// Tries an import in all ways. Answers the device behind it.
fn tried_all(tester: &mut Tester, tried: &Tried<'_>) -> Result<Device, Wrong> {
    let disk = in_pieces(tester, tried, 3)?;
    let _same = in_pieces(tester, tried, 1)?;
    let _same = in_pieces(tester, tried, 1000)?;
    each_call(tester, tried, Fault::Stop(Part::First))?;
    each_call(tester, tried, Fault::Fail(Part::First))?;
    each_byte(tester, tried)?;
    if tried.line != "ok" {
        into_full(tester, tried)?;
    }
    Ok(disk)
}

/// The lines of the book behind which the disks are as before and as behind an import that ends so. Where it is not refused the script makes the
/// disk, on a copy of the device.
fn lines_around<'a>(
    tester: &mut Tester,
    bench: &mut Bench<'a>,
    steps: &[Step<'a>],
    line: &str,
) -> Result<(usize, usize), Wrong> {
    let Bench { disk, known, .. } = bench;
    if line == "ok" {
        let mut made = disk.copy(tester.alloc)?;
        let _printed = followed(tester, &mut made, known, steps, false)?;
        return Ok((0, known.book.count()));
    }
    let count = known.book.count();
    Ok((count, count))
}

/// Tries the import of a case's file in all ways. Answers the device behind it.
fn tried_on(
    tester: &mut Tester,
    bench: &Bench<'_>,
    uuid: &str,
    line: &str,
    lines: (usize, usize),
) -> Result<Device, Wrong> {
    let tried = Tried {
        words: &["import", uuid],
        bytes: &bench.file,
        disk: &bench.disk,
        line,
        book: &bench.known.book,
        before: lines.0,
        after: lines.1,
    };
    tried_all(tester, &tried)
}

/// Imports the file of a case as a disk with this UUID: it prints nothing and the disks are then those that the script makes, or it prints this
/// error and they are those from before. With each fault of device, source and sink in turn they are those from before, or at a fault of the device
/// those with the new one.
pub fn imported<'a>(
    tester: &mut Tester,
    bench: &mut Bench<'a>,
    steps: &[Step<'a>],
    uuid: &str,
    line: &str,
) -> Result<(), Wrong> {
    let lines = lines_around(tester, bench, steps, line)?;
    bench.disk = tried_on(tester, bench, uuid, line, lines)?;
    Ok(())
}
