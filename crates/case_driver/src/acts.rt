//! What the lines of a case do that try no faults.

use crate::calls::{calls, costs};
use crate::devices::{device, formatted, misspelled, refused, tried};
use case_device::{Book, committed, has, set};
use case_faults::imported;
use case_runs::{Answered, Bench, Tester, followed, probe};
use case_text::{Act, Entry, File, Script, Units};
use case_words::{Wrong, bytes_of, found};
use std::alloc::Global;

/// The disks are those behind the last run.
fn shows(tester: &mut Tester, bench: &mut Bench<'_>) -> Result<(), Wrong> {
    let lines = bench.known.book.count();
    let answered = Answered { lines, read: lines };
    let _text = probe(tester, &bench.known.book, answered, &mut bench.disk)?;
    Ok(())
}

/// Runs a script on the device of a case.
fn run<'a>(
    tester: &mut Tester,
    bench: &mut Bench<'a>,
    file: &File<'a>,
    script: Script,
) -> Result<(), Wrong> {
    let steps = file.steps(script);
    let Bench { disk, known, .. } = bench;
    let _printed = followed(tester, disk, known, steps, script.is_open)?;
    Ok(())
}

/// Makes a repository by the words of a format.
fn format(
    tester: &mut Tester,
    bench: &mut Bench<'_>,
    words: &str,
    line: &str,
    units: Units,
) -> Result<(), Wrong> {
    formatted(tester, &mut bench.disk, words, line)?;
    if line.starts_with("ok") {
        bench.known.units = units;
        bench.known.book = Book::new(tester.alloc)?;
    }
    Ok(())
}

/// Does what an entry says to the device itself, or asks of it.
fn handle(alloc: Global, bench: &mut Bench<'_>, act: Act<'_>) -> Result<(), Wrong> {
    match act {
        Act::Device { sectors, is_stale } => {
            bench.disk = device(alloc, sectors, is_stale)?;
            Ok(())
        }
        Act::Border(sectors) => {
            bench.disk = bench.disk.bordered(alloc, sectors)?;
            Ok(())
        }
        Act::Set {
            place,
            bytes,
            seals,
        } => set(alloc, &mut bench.disk, place, bytes, seals),
        Act::Has { place, bytes } => has(alloc, &mut bench.disk, place, bytes),
        Act::Commit(commit) => {
            bench.disk = committed(alloc, &bench.disk, commit)?;
            Ok(())
        }
        Act::Forget => {
            bench.known.is_held = false;
            Ok(())
        }
        Act::File(words) => {
            bench.file = bytes_of(alloc, words)?;
            Ok(())
        }
        Act::After(_) => Ok(()),
        _ => Err(found(alloc, "this is not done here")),
    }
}

/// Does what an entry says that tries no faults.
pub fn perform<'a>(
    tester: &mut Tester,
    bench: &mut Bench<'a>,
    file: &File<'a>,
    entry: &Entry<'a>,
) -> Result<(), Wrong> {
    match entry.act {
        Act::Run => run(tester, bench, file, entry.script),
        Act::Refused(line) => refused(tester, &bench.disk, line),
        Act::Format { words, line, units } => format(tester, bench, words, line, units),
        Act::Words(words) => misspelled(tester, &mut bench.disk, words),
        Act::Trial { number, line } => tried(tester, &mut bench.disk, number, line),
        Act::Import { uuid, line } => {
            imported(tester, bench, file.steps(entry.script), uuid, line)
        }
        Act::Shows => shows(tester, bench),
        Act::Calls(number) => calls(tester, bench, file.steps(entry.script), number),
        Act::Costs(cost) => costs(tester, bench, file.steps(entry.script), cost),
        act => handle(tester.alloc, bench, act),
    }
}
