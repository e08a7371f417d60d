//! Cases, each worked from its beginning, and what is said of each.

use crate::acts::perform;
use case_device::Device;
use case_faults::with_faults;
use case_runs::{Bench, Tester, count};
use case_text::{Act, File, Head, Kind};
use case_words::Wrong;
use std::alloc::{AllocError, Global};

/// What is said of a case, and whether that is well.
#[derive(Drop)]
pub struct Said {
    pub text: String,
    pub is_well: bool,
}

/// Does what the lines of a case or a part say. Faults of a run are tried last, with what stands behind them.
fn work_on<'a>(
    tester: &mut Tester,
    bench: &mut Bench<'a>,
    file: &File<'a>,
    head: &Head<'a>,
) -> Result<(), Wrong> {
    for (index, entry) in file.entries(head).iter().enumerate() {
        let (done, is_over) = match entry.act {
            Act::Try(words) => {
                let rest = file.behind(head, index);
                (with_faults(tester, bench, file, entry, rest, words), true)
            }
            _ => (perform(tester, bench, file, entry), false),
        };
        if let Err(wrong) = done {
            return Err(wrong.at(entry.line));
        }
        if is_over {
            return Ok(());
        }
    }
    Ok(())
}

/// Works a case, behind the parts that it begins with.
fn work<'a>(
    tester: &mut Tester,
    usual: &Device,
    file: &File<'a>,
    head: &Head<'a>,
) -> Result<(), Wrong> {
    let chain = file.chain(tester.alloc, head)?;
    let mut bench = Bench::new(tester.alloc, usual)?;
    for head in chain.iter().rev() {
        work_on(tester, &mut bench, file, head)?;
    }
    Ok(())
}

/// What was found in a case, behind a word: `found NAME: FILE:LINE: WHAT`.
fn told(
    alloc: Global,
    word: &str,
    head: &Head<'_>,
    file: &str,
    line: usize,
    what: &str,
) -> Result<String, AllocError> {
    let name = head.name;
    format!(in alloc; "{word} {name}: {file}:{line}: {what}")
}

/// What is said of a case in which something was found, or nothing. In a case that is wrong something has to be.
fn judged(
    alloc: Global,
    head: &Head<'_>,
    file: &str,
    done: Result<(), Wrong>,
) -> Result<Said, AllocError> {
    let is_wrong = head.kind == Kind::Wrong;
    let text = match done {
        Ok(()) if is_wrong => told(alloc, "bad", head, file, head.line, "nothing was found")?,
        Ok(()) => {
            let name = head.name;
            let text = format!(in alloc; "ok {name}")?;
            return Ok(Said {
                text,
                is_well: true,
            });
        }
        Err(Wrong::Memory) => told(alloc, "bad", head, file, head.line, "no memory")?,
        Err(Wrong::Found { line, what }) => {
            let word = if is_wrong { "found" } else { "bad" };
            let line = line.unwrap_or(head.line);
            let text = told(alloc, word, head, file, line, what.as_str())?;
            return Ok(Said {
                text,
                is_well: is_wrong,
            });
        }
    };
    Ok(Said {
        text,
        is_well: false,
    })
}

/// Works a case of a file, and answers what is said of it.
pub fn verdict<'a>(
    tester: &mut Tester,
    usual: &Device,
    name: &str,
    file: &File<'a>,
    head: &Head<'a>,
) -> Result<Said, AllocError> {
    count(&mut tester.counts.cases);
    let done = work(tester, usual, file, head);
    judged(tester.alloc, head, name, done)
}
