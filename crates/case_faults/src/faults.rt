//! Faults of a run, each in turn, and what is done on what each leaves.

use crate::choices::{Chosen, choices_of, left_by};
use case_device::{Book, Choice, Device, same_sectors};
use case_runs::{
    Answered, Bench, Outcome, RUN, Streams, Tester, WHOLE, answered, are_calls, calls_of,
    calls_within, collects, count, followed, probe, probe_copy,
};
use case_text::{
    Act, Entry, FIRST_VALUES, Fault, File, Left, Part, Script, Step, text_of, trial_of,
};
use case_words::{Wrong, differs, found};
use lvhd_command::Status;
use std::alloc::{AllocError, Global};

/// An opening makes fewer calls of the device than this.
const MOST_CALLS: u64 = 1000;

/// The run whose faults are tried, as it is without a fault.
#[derive(Clone, Copy)]
struct Sound<'a> {
    fault: Fault,
    text: &'a str,
    printed: &'a str,
    /// So many of its lines stand before the first whose faults are tried.
    from: usize,
    calls: &'a Calls,
}

/// How many calls of each part of the device come before the first line is read, and before the reply to each line; none are known of a
/// second part without sectors.
#[derive(Drop)]
struct Calls {
    first: Vec<u64>,
    second: Vec<u64>,
}

/// What is done on what a fault leaves.
#[derive(Clone, Copy)]
struct Rest<'a> {
    file: &'a File<'a>,
    entries: &'a [Entry<'a>],
    bench: &'a Bench<'a>,
}

/// A fault that was tried.
#[derive(Clone, Copy)]
struct Met {
    number: u64,
    answered: Answered,
    /// The run came to its end, so the fault was not met.
    is_over: bool,
}

/// How many lines end in the first bytes of a text.
fn lines_within(text: &str, bytes: usize) -> usize {
    let mut lines = 0usize;
    for byte in text.bytes().take(bytes) {
        if byte == b'\n' {
            lines = lines.saturating_add(1);
        }
    }
    lines
}

/// Whether a text is the front of another that has so many whole lines.
fn is_front_of_lines(whole: &str, printed: &str) -> bool {
    whole.starts_with(printed) && (printed.is_empty() || printed.ends_with("\n"))
}

/// The streams of a run with a fault.
pub fn streams_of(fault: Fault, number: u64) -> Streams {
    match fault {
        Fault::Stop(_) | Fault::Fail(_) => WHOLE,
        Fault::Sink => Streams {
            room: Some(number as usize),
            ..WHOLE
        },
        Fault::Source { piece } => Streams {
            piece,
            until: Some(number as usize),
            room: None,
        },
    }
}

/// The device of a case, which fails as it is told.
pub fn disturbed(alloc: Global, disk: &Device, fault: Fault, number: u64) -> Result<Device, Wrong> {
    let mut disk = disk.copy(alloc)?;
    match fault {
        Fault::Stop(part) => disk.stop(part, number),
        Fault::Fail(part) => disk.fail(alloc, part, number)?,
        Fault::Sink | Fault::Source { .. } => {}
    }
    Ok(disk)
}

/// How many lines a script has.
fn lines_of(sound: &Sound<'_>) -> usize {
    sound.calls.first.len().saturating_sub(1)
}

/// The calls of the part of the device whose fault is tried.
fn calls_tried<'a>(sound: &Sound<'a>) -> &'a [u64] {
    match sound.fault.part() {
        Part::First => &sound.calls.first,
        Part::Second => &sound.calls.second,
    }
}

/// How many lines are answered before a call of the device, and whether the first could be read.
fn lines_before(calls: &[u64], number: u64) -> (usize, bool) {
    let mut reached = 0usize;
    for before in calls {
        if *before <= number {
            reached = reached.saturating_add(1);
        }
    }
    (reached.saturating_sub(1), reached > 0)
}

/// How many lines are answered and read at a fault.
fn wanted_at(sound: &Sound<'_>, number: u64, printed: &str) -> Answered {
    let (lines, is_read) = match sound.fault {
        Fault::Stop(_) | Fault::Fail(_) => lines_before(calls_tried(sound), number),
        Fault::Sink => (lines_within(printed, usize::MAX), true),
        Fault::Source { .. } => (lines_within(sound.text, number as usize), false),
    };
    let next = lines.saturating_add(1);
    Answered {
        lines,
        read: if is_read {
            next.min(lines_of(sound))
        } else {
            lines
        },
    }
}

/// Whether what was printed is what a fault leaves of what is printed without it.
fn is_right(sound: &Sound<'_>, number: u64, lines: usize, printed: &str) -> bool {
    if sound.fault == Fault::Sink {
        return sound.printed.starts_with(printed) && printed.len() as u64 == number;
    }
    is_front_of_lines(sound.printed, printed) && lines_within(printed, usize::MAX) == lines
}

/// The status of a run whose fault was met.
pub fn status_of(fault: Fault) -> Status {
    match fault {
        Fault::Stop(_) | Fault::Fail(_) => Status::Device,
        Fault::Sink => Status::Sink,
        Fault::Source { .. } => Status::Source,
    }
}

/// The first lines of a text.
fn front_of(alloc: Global, text: &str, lines: usize) -> Result<String, AllocError> {
    let mut front = String::new(alloc);
    for line in text.lines().take(lines) {
        front.push_str(line)?;
        front.push('\n')?;
    }
    Ok(front)
}

/// How many lines were answered and read at a fault: what was printed and the status have to be what the fault leaves.
fn judged(
    tester: &Tester,
    sound: &Sound<'_>,
    number: u64,
    outcome: &Outcome,
) -> Result<Answered, Wrong> {
    let printed = outcome.printed.as_str();
    let answered = wanted_at(sound, number, printed);
    if !is_right(sound, number, answered.lines, printed) {
        let wanted = front_of(tester.alloc, sound.printed, answered.lines)?;
        let wanted = wanted.as_str();
        return Err(differs(tester.alloc, "replies at a fault", wanted, printed));
    }
    tester.ended(outcome, status_of(sound.fault))?;
    Ok(answered)
}

/// An opening of what is left stops at a call of a part, and the disks then read as they do without that. Answers whether it came to its end.
fn stopped_again(
    tester: &mut Tester,
    book: &Book<'_>,
    answered: Answered,
    image: &Device,
    at: (Part, u64),
    wanted: &str,
) -> Result<bool, Wrong> {
    count(&mut tester.counts.openings);
    let mut copy = image.copy(tester.alloc)?;
    copy.stop(at.0, at.1);
    let outcome = tester.run(&mut copy, "")?;
    let mut left = copy.left(tester.alloc, Choice::both(&[3]))?;
    let got = probe(tester, book, answered, &mut left)?;
    if got.as_str() != wanted {
        return Err(found(tester.alloc, "a stopped opening changes the disks"));
    }
    Ok(outcome.status == Status::Done)
}

/// Whether an image is that of which an opening was stopped last.
fn is_stopped(tester: &mut Tester, image: &mut Device) -> Result<bool, Wrong> {
    match &mut tester.stopped {
        Some(last) => same_sectors(tester.alloc, last, image),
        None => Ok(false),
    }
}

/// An opening of an image stops at each of its calls of a part, and the disks read as they do without that.
fn stop_part(
    tester: &mut Tester,
    book: &Book<'_>,
    answered: Answered,
    image: &Device,
    part: Part,
    wanted: &str,
) -> Result<(), Wrong> {
    for call in 0..MOST_CALLS {
        if stopped_again(tester, book, answered, image, (part, call), wanted)? {
            return Ok(());
        }
    }
    Err(found(tester.alloc, "an opening that does not end"))
}

/// An opening of an image stops at each of its calls, and the disks read as they do without that.
fn stop_each(
    tester: &mut Tester,
    book: &Book<'_>,
    answered: Answered,
    image: &Device,
) -> Result<(), Wrong> {
    let wanted = probe_copy(tester, book, answered, image)?;
    let wanted = wanted.as_str();
    stop_part(tester, book, answered, image, Part::First, wanted)?;
    if image.has_border() {
        stop_part(tester, book, answered, image, Part::Second, wanted)?;
    }
    Ok(())
}

/// An opening of what is left stops at each of its calls, and the disks read as they do without that. Where the fault before left the
/// same, that was tried.
fn again(
    tester: &mut Tester,
    book: &Book<'_>,
    answered: Answered,
    image: &mut Device,
) -> Result<(), Wrong> {
    if is_stopped(tester, image)? {
        return Ok(());
    }
    stop_each(tester, book, answered, image)?;
    tester.stopped = Some(image.copy(tester.alloc)?);
    Ok(())
}

/// Probes what each choice leaves of a device.
fn probe_choices(
    tester: &mut Tester,
    book: &Book<'_>,
    answered: Answered,
    disk: &Device,
) -> Result<(), Wrong> {
    for chosen in choices_of(tester.alloc, disk)? {
        let mut left = left_by(tester.alloc, disk, chosen)?;
        let _text = probe(tester, book, answered, &mut left)?;
    }
    Ok(())
}

/// Runs anew with a fault, opens the device as it is, with what is pending on it, and stops that opening at a call: what each choice
/// leaves has the disks of the book. Answers whether the opening came to its end.
fn stopped_pending(
    tester: &mut Tester,
    sound: &Sound<'_>,
    rest: &Rest<'_>,
    met: Met,
    call: u64,
) -> Result<bool, Wrong> {
    count(&mut tester.counts.openings);
    let mut disk = disturbed(tester.alloc, &rest.bench.disk, sound.fault, met.number)?;
    let streams = streams_of(sound.fault, met.number);
    let _outcome = tester.run_with(&mut disk, RUN, sound.text, streams)?;
    disk.stop(sound.fault.part(), call);
    let outcome = tester.run(&mut disk, "")?;
    probe_choices(tester, &rest.bench.known.book, met.answered, &disk)?;
    Ok(outcome.status == Status::Done)
}

/// An opening of the device as a fault leaves it, with what is pending on it, stops at each of its calls. A device that stopped is
/// not opened so, and one whose fault was not met has nothing pending.
fn again_pending(
    tester: &mut Tester,
    sound: &Sound<'_>,
    rest: &Rest<'_>,
    met: Met,
) -> Result<(), Wrong> {
    if matches!(sound.fault, Fault::Stop(_)) || met.is_over {
        return Ok(());
    }
    for call in 0..MOST_CALLS {
        if stopped_pending(tester, sound, rest, met, call)? {
            return Ok(());
        }
    }
    Err(found(tester.alloc, "an opening that does not end"))
}

/// Runs a script on what is left.
fn run_on(
    tester: &mut Tester,
    rest: &Rest<'_>,
    script: Script,
    left: &mut Device,
) -> Result<(), Wrong> {
    let steps = rest.file.steps(script);
    let units = rest.bench.known.units;
    let _printed = answered(tester, left, steps, script.is_open, units)?;
    Ok(())
}

/// Whether so many lines were answered.
fn are_lines(alloc: Global, wanted: usize, lines: usize) -> Result<(), Wrong> {
    if lines == wanted {
        return Ok(());
    }
    let wanted = format!(in alloc; "{wanted}")?;
    let lines = format!(in alloc; "{lines}")?;
    Err(differs(alloc, "lines answered", wanted.as_str(), lines.as_str()))
}

/// The run with a fault of its sink or source made so many calls of the device.
fn made(
    tester: &mut Tester,
    sound: &Sound<'_>,
    rest: &Rest<'_>,
    met: Met,
    wanted: u64,
) -> Result<(), Wrong> {
    let streams = streams_of(sound.fault, met.number);
    let calls = calls_of(tester, &rest.bench.disk, Part::First, sound.text, streams)?;
    are_calls(tester.alloc, wanted, calls)
}

/// Whether an entry is done on what a choice leaves. What is done once for each fault is done on what the first values leave.
fn is_done_on(act: Act<'_>, chosen: Chosen) -> bool {
    match act {
        Act::Shows | Act::Run | Act::Answered(_) => true,
        Act::Again(Left::Choice(one)) => chosen == Chosen::both(one),
        _ => chosen == Chosen::both(FIRST_VALUES),
    }
}

/// Does one entry on what is left.
fn do_on(
    tester: &mut Tester,
    sound: &Sound<'_>,
    rest: &Rest<'_>,
    entry: &Entry<'_>,
    met: Met,
    left: &mut Device,
) -> Result<(), Wrong> {
    let book = &rest.bench.known.book;
    match entry.act {
        Act::Shows => {
            let _text = probe(tester, book, met.answered, left)?;
            Ok(())
        }
        Act::Run => run_on(tester, rest, entry.script, left),
        Act::Answered(lines) => are_lines(tester.alloc, lines, met.answered.lines),
        Act::Again(Left::Choice(_)) => again(tester, book, met.answered, left),
        Act::Again(Left::Pending) => again_pending(tester, sound, rest, met),
        Act::Ends(wanted) => collects(tester, book, met.answered, left, wanted),
        Act::Made(calls) => made(tester, sound, rest, met, calls),
        _ => Err(found(tester.alloc, "this is not done behind faults")),
    }
}

/// What was found at a fault, in a line.
fn at_fault(alloc: Global, number: u64, chosen: Chosen, wrong: Wrong) -> Wrong {
    let Ok(choice) = chosen.told(alloc) else {
        return Wrong::Memory;
    };
    match format!(in alloc; "at fault {number}, {choice}") {
        Ok(head) => wrong.under(alloc, head.as_str()),
        Err(_) => Wrong::Memory,
    }
}

/// Does the rest of a case on what a choice leaves of a device.
fn on_choice(
    tester: &mut Tester,
    sound: &Sound<'_>,
    rest: &Rest<'_>,
    met: Met,
    chosen: Chosen,
    disk: &Device,
) -> Result<(), Wrong> {
    for entry in rest.entries {
        if is_done_on(entry.act, chosen) {
            let mut left = left_by(tester.alloc, disk, chosen)?;
            if let Err(wrong) = do_on(tester, sound, rest, entry, met, &mut left) {
                return Err(at_fault(tester.alloc, met.number, chosen, wrong.at(entry.line)));
            }
        }
    }
    Ok(())
}

/// Does the rest of a case on what each of five choices, or of five for each part, leaves of a device.
fn on_each_choice(
    tester: &mut Tester,
    sound: &Sound<'_>,
    rest: &Rest<'_>,
    met: Met,
    disk: &Device,
) -> Result<(), Wrong> {
    for chosen in choices_of(tester.alloc, disk)? {
        on_choice(tester, sound, rest, met, chosen, disk)?;
    }
    Ok(())
}

/// The first fault that is not met, since the run comes to its end before it.
fn end_of(sound: &Sound<'_>) -> u64 {
    match sound.fault {
        Fault::Stop(_) | Fault::Fail(_) => match calls_tried(sound).last() {
            Some(calls) => calls.saturating_add(1),
            None => 0,
        },
        Fault::Sink => sound.printed.len() as u64,
        Fault::Source { .. } => (sound.text.len() as u64).saturating_add(1),
    }
}

/// How many lines were answered where a fault was not met: all, as without it.
fn unmet(tester: &Tester, sound: &Sound<'_>, outcome: &Outcome) -> Result<Answered, Wrong> {
    tester.ended(outcome, Status::Done)?;
    let printed = outcome.printed.as_str();
    if printed != sound.printed {
        return Err(differs(tester.alloc, "replies", sound.printed, printed));
    }
    let lines = lines_of(sound);
    Ok(Answered { lines, read: lines })
}

/// How a fault went.
fn met_of(
    tester: &Tester,
    sound: &Sound<'_>,
    number: u64,
    outcome: &Outcome,
) -> Result<Met, Wrong> {
    let is_over = number >= end_of(sound);
    let answered = if is_over {
        unmet(tester, sound, outcome)
    } else {
        judged(tester, sound, number, outcome)
    };
    match answered {
        Ok(answered) => Ok(Met {
            number,
            answered,
            is_over,
        }),
        Err(wrong) => Err(at_number(tester.alloc, number, wrong)),
    }
}

/// What was found at a fault.
fn at_number(alloc: Global, number: u64, wrong: Wrong) -> Wrong {
    match format!(in alloc; "at fault {number}") {
        Ok(head) => wrong.under(alloc, head.as_str()),
        Err(_) => Wrong::Memory,
    }
}

/// Does the rest of a case on what a fault leaves of a device, and probes a device that goes on as it is.
fn on_fault(
    tester: &mut Tester,
    sound: &Sound<'_>,
    rest: &Rest<'_>,
    met: Met,
    disk: &mut Device,
) -> Result<(), Wrong> {
    if met.answered.lines < sound.from {
        return Ok(());
    }
    count(&mut tester.counts.faults);
    on_each_choice(tester, sound, rest, met, disk)?;
    if matches!(sound.fault, Fault::Fail(_)) {
        let book = &rest.bench.known.book;
        if let Err(wrong) = probe(tester, book, met.answered, disk) {
            return Err(at_number(tester.alloc, met.number, wrong));
        }
    }
    Ok(())
}

/// Runs with one fault, and does the rest of the case.
fn try_one(
    tester: &mut Tester,
    sound: &Sound<'_>,
    rest: &Rest<'_>,
    number: u64,
) -> Result<(), Wrong> {
    let mut disk = disturbed(tester.alloc, &rest.bench.disk, sound.fault, number)?;
    let streams = streams_of(sound.fault, number);
    let outcome = tester.run_with(&mut disk, RUN, sound.text, streams)?;
    let met = met_of(tester, sound, number, &outcome)?;
    if met.is_over {
        return on_each_choice(tester, sound, rest, met, &disk);
    }
    on_fault(tester, sound, rest, met, &mut disk)
}

/// Tries each fault of a run up to the first that is not met.
fn try_each(tester: &mut Tester, sound: &Sound<'_>, rest: &Rest<'_>) -> Result<(), Wrong> {
    for number in 0..end_of(sound).saturating_add(1) {
        try_one(tester, sound, rest, number)?;
    }
    Ok(())
}

/// Tries faults of a run: the one, which has to be met, or each.
fn try_named(
    tester: &mut Tester,
    sound: &Sound<'_>,
    rest: &Rest<'_>,
    only: Option<u64>,
) -> Result<(), Wrong> {
    match only {
        None => try_each(tester, sound, rest),
        Some(number) if number >= end_of(sound) => {
            Err(found(tester.alloc, "a fault that is not met"))
        }
        Some(number) => try_one(tester, sound, rest, number),
    }
}

/// Tries faults of a run, of which one at least has to be met behind the lines that are passed over.
fn try_faults(
    tester: &mut Tester,
    sound: &Sound<'_>,
    rest: &Rest<'_>,
    only: Option<u64>,
) -> Result<(), Wrong> {
    if sound.fault.part() == Part::Second && sound.calls.second.is_empty() {
        return Err(found(tester.alloc, "no second part"));
    }
    let before = tester.counts.faults;
    try_named(tester, sound, rest, only)?;
    if tester.counts.faults > before {
        return Ok(());
    }
    Err(found(tester.alloc, "no fault is met"))
}

/// Tries all faults that words name.
fn try_all(
    tester: &mut Tester,
    sound: &Sound<'_>,
    rest: &Rest<'_>,
    words: &str,
) -> Result<(), Wrong> {
    for one in words.split(", ") {
        let trial = match trial_of(one) {
            Ok(trial) => trial,
            Err(why) => return Err(found(tester.alloc, why)),
        };
        let sound = Sound {
            fault: trial.fault,
            ..*sound
        };
        if let Err(wrong) = try_faults(tester, &sound, rest, trial.only) {
            return Err(wrong.under(tester.alloc, one));
        }
    }
    Ok(())
}

/// The run whose faults are tried, without a fault, on a copy of the device. Answers what was printed.
fn first_run<'a>(
    tester: &mut Tester,
    bench: &mut Bench<'a>,
    steps: &[Step<'a>],
    is_open: bool,
) -> Result<String, Wrong> {
    let mut copy = bench.disk.copy(tester.alloc)?;
    followed(tester, &mut copy, &mut bench.known, steps, is_open)
}

/// How many calls of a part of the device come before the first line of a script is read, and before the reply to each. The last call of
/// each run is its end.
fn calls_before(
    tester: &mut Tester,
    disk: &Device,
    part: Part,
    steps: &[Step<'_>],
) -> Result<Vec<u64>, Wrong> {
    let mut all = Vec::new(tester.alloc);
    for count in 0..steps.len().saturating_add(1) {
        let calls = calls_within(tester, disk, part, steps, count)?;
        all.push(calls.saturating_sub(1))?;
    }
    Ok(all)
}

/// The same of the second part, of which nothing is known where it has no sectors.
fn calls_behind(tester: &mut Tester, disk: &Device, steps: &[Step<'_>]) -> Result<Vec<u64>, Wrong> {
    if !disk.has_border() {
        return Ok(Vec::new(tester.alloc));
    }
    calls_before(tester, disk, Part::Second, steps)
}

/// A run without a fault is answered as it is to be, and then its faults are tried: what stands behind it in the case is done on what
/// each leaves.
pub fn with_faults<'a>(
    tester: &mut Tester,
    bench: &mut Bench<'a>,
    file: &File<'a>,
    entry: &Entry<'a>,
    entries: &[Entry<'a>],
    words: &str,
) -> Result<(), Wrong> {
    let script = entry.script;
    let steps = file.steps(script);
    tester.stopped = None;
    let printed = first_run(tester, bench, steps, script.is_open)?;
    let text = text_of(tester.alloc, steps, steps.len(), script.is_open)?;
    let calls = Calls {
        first: calls_before(tester, &bench.disk, Part::First, steps)?,
        second: calls_behind(tester, &bench.disk, steps)?,
    };
    let sound = Sound {
        fault: Fault::Stop(Part::First),
        text: text.as_str(),
        printed: printed.as_str(),
        from: script.from,
        calls: &calls,
    };
    let rest = Rest {
        file,
        entries,
        bench,
    };
    try_all(tester, &sound, &rest, words)
}
