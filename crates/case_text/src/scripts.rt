//! The script of a run: its lines, and what each is to be answered.

use case_words::{Command, Wrong, differs};
use std::alloc::{AllocError, Global};

/// A line of a script.
#[derive(Clone, Copy)]
pub struct Step<'a> {
    /// Its number in the file.
    pub line: usize,
    pub text: &'a str,
    pub command: Command<'a>,
    /// What it is to be answered, where the case says so.
    pub reply: Option<&'a str>,
}

/// Which steps of a file are a script.
#[derive(Clone, Copy)]
pub struct Script {
    pub first: usize,
    pub count: usize,
    /// So many of its lines stand before the first whose faults are tried.
    pub from: usize,
    /// Its last line has no newline.
    pub is_open: bool,
}

/// To what the size of a disk is rounded up, in bytes: of a raw one, of a VHD one.
#[derive(Clone, Copy)]
pub struct Units {
    pub extent: u64,
    pub block: u64,
}

impl<'a> Step<'a> {
    /// What a line of a case says: `LINE`, or `LINE => REPLY`. `empty` is the line without words.
    pub fn of(line: usize, text: &'a str) -> Step<'a> {
        let (text, reply) = match text.split_once(" => ") {
            Some((text, reply)) => (text, Some(reply)),
            None => (text, None),
        };
        let text = if text == "empty" { "" } else { text };
        Step {
            line,
            text,
            command: Command::of(text),
            reply,
        }
    }
}

/// A size rounded up to a unit, in bytes.
fn rounded(size: u64, unit: u64) -> u64 {
    size.div_ceil(unit.max(1)).saturating_mul(unit)
}

/// The size that a line is answered by where a case does not say, in bytes.
fn usual_size(command: Command<'_>, units: Units) -> Option<u64> {
    match command {
        Command::Create {
            size,
            is_raw: true,
            ..
        } => Some(rounded(size, units.extent)),
        Command::Create { size, .. } | Command::Resize { size, .. } => {
            Some(rounded(size, units.block))
        }
        _ => None,
    }
}

/// What a line is answered where a case does not say: `ok`, and the size of a disk that is made or enlarged.
fn usual(alloc: Global, step: &Step<'_>, units: Units) -> Result<String, AllocError> {
    match usual_size(step.command, units) {
        Some(size) => format!(in alloc; "ok {size}"),
        None => String::from_str(alloc, "ok"),
    }
}

/// The first lines of a script, each with its newline.
pub fn text_of(
    alloc: Global,
    steps: &[Step<'_>],
    count: usize,
    is_open: bool,
) -> Result<String, AllocError> {
    let mut text = String::new(alloc);
    for step in steps.iter().take(count) {
        text.push_str(step.text)?;
        text.push('\n')?;
    }
    if is_open {
        let _newline = text.pop();
    }
    Ok(text)
}

/// Whether a reply is this one, or one that begins so.
fn is_like(wanted: &str, got: &str) -> bool {
    match wanted.strip_suffix(" ..") {
        Some(front) => got.starts_with(front),
        None => wanted == got,
    }
}

/// Whether a reply is one that is wanted, or any but this.
fn meets(wanted: &str, got: &str) -> bool {
    match wanted.strip_prefix("not ") {
        Some(other) => !is_like(other, got),
        None => is_like(wanted, got),
    }
}

/// Whether a reply is one of those that are wanted, which ` | ` separates.
pub fn is_met(wanted: &str, got: &str) -> bool {
    for one in wanted.split(" | ") {
        if meets(one, got) {
            return true;
        }
    }
    false
}

/// Whether a reply is one that a step wants.
fn answers(alloc: Global, step: &Step<'_>, units: Units, got: &str) -> Result<(), Wrong> {
    if let Some(wanted) = step.reply {
        if is_met(wanted, got) {
            return Ok(());
        }
        return Err(differs(alloc, step.text, wanted, got).at(step.line));
    }
    let wanted = usual(alloc, step, units)?;
    if wanted.as_str() == got {
        return Ok(());
    }
    Err(differs(alloc, step.text, wanted.as_str(), got).at(step.line))
}

/// Compares what a run printed with the replies that its script wants, to the end of both.
pub fn compare(
    alloc: Global,
    steps: &[Step<'_>],
    units: Units,
    printed: &str,
) -> Result<(), Wrong> {
    let mut replies = printed.lines();
    for step in steps {
        let Some(got) = replies.next() else {
            return Err(differs(alloc, step.text, "a reply", "none").at(step.line));
        };
        answers(alloc, step, units, got)?;
    }
    match replies.next() {
        Some(more) => Err(differs(alloc, "behind the script", "nothing", more)),
        None => Ok(()),
    }
}
