//! What is left of a device is opened, and its disks are read and held against the book.

use crate::tester::{Tester, count};
use case_device::{Book, Device, Disk};
use case_text::is_met;
use case_words::{Wrong, differs, found};
use std::alloc::{AllocError, Global};

/// The collector's steps at the end of a case, more than there are.
const STEPS: usize = 40;

/// What was answered of a run: so many lines, of so many that were read.
#[derive(Clone, Copy)]
pub struct Answered {
    pub lines: usize,
    pub read: usize,
}

/// A line of the script by which disks are read back.
#[derive(Clone, Copy)]
enum Question<'a> {
    /// Which disks there are.
    List,
    /// A disk is attached.
    Attach { uuid: &'a str },
    /// A sector of an attached disk is read.
    Read { uuid: &'a str, sector: usize },
}

/// The lines of a book behind which a sector may be what it was.
#[derive(Clone, Copy)]
struct Span {
    first: usize,
    last: usize,
}

/// The disks behind the lines answered and behind one more that was read.
fn disks_of<'a>(
    alloc: Global,
    book: &Book<'a>,
    answered: Answered,
) -> Result<Vec<Disk<'a>>, AllocError> {
    let mut all = Vec::new(alloc);
    for disk in book.disks(answered.read) {
        all.push(*disk)?;
    }
    for disk in book.disks(answered.lines) {
        if book.disk(answered.read, disk.uuid).is_none() {
            all.push(*disk)?;
        }
    }
    Ok(all)
}

/// Asks for the sectors of a disk that are read back, and for its last.
fn ask_disk<'a>(
    to: &mut Vec<Question<'a>>,
    disk: &Disk<'a>,
    touched: &[bool],
) -> Result<(), AllocError> {
    let uuid = disk.uuid;
    let last = disk.sectors.saturating_sub(1);
    to.push(Question::Attach { uuid })?;
    for (sector, mark) in touched.iter().enumerate().take(last) {
        if *mark {
            to.push(Question::Read { uuid, sector })?;
        }
    }
    to.push(Question::Read { uuid, sector: last })?;
    Ok(())
}

/// The lines by which all disks are read back.
fn questions_of<'a>(
    alloc: Global,
    book: &Book<'a>,
    answered: Answered,
) -> Result<Vec<Question<'a>>, AllocError> {
    let disks = disks_of(alloc, book, answered)?;
    let mut all = vec![in alloc; Question::List]?;
    for disk in &disks {
        ask_disk(&mut all, disk, book.touched())?;
    }
    Ok(all)
}

/// A question as a line.
fn line_of(alloc: Global, question: Question<'_>) -> Result<String, AllocError> {
    match question {
        Question::List => String::from_str(alloc, "list\n"),
        Question::Attach { uuid } => format!(in alloc; "attach {uuid} ro\n"),
        Question::Read { uuid, sector } => format!(in alloc; "read {uuid} {sector} 1\n"),
    }
}

/// Questions as a script.
fn script_of(alloc: Global, questions: &[Question<'_>]) -> Result<String, AllocError> {
    let mut text = String::new(alloc);
    for question in questions {
        let line = line_of(alloc, *question)?;
        text.push_str(line.as_str())?;
    }
    Ok(text)
}

/// The last line among those answered and read behind which the disks are listed so.
fn line_listed(
    alloc: Global,
    book: &Book<'_>,
    answered: Answered,
    listed: &str,
) -> Result<Option<usize>, AllocError> {
    let mut last = None;
    for line in answered.lines..answered.read.saturating_add(1) {
        let text = book.listed(alloc, line)?;
        if text.as_str() == listed {
            last = Some(line);
        }
    }
    Ok(last)
}

/// Whether a sector read so behind one of these lines.
fn had(book: &Book<'_>, span: Span, uuid: &str, sector: usize, reply: &str) -> bool {
    let Some(digits) = reply.strip_prefix("ok ") else {
        return false;
    };
    for line in span.first..span.last.saturating_add(1) {
        if book.reads_so(line, uuid, sector, digits) {
            return true;
        }
    }
    false
}

/// Whether a disk has a sector behind a line.
fn has_sector(book: &Book<'_>, line: usize, uuid: &str, sector: usize) -> bool {
    match book.disk(line, uuid) {
        Some(disk) => sector < disk.sectors,
        None => false,
    }
}

/// Holds a reply against the book. Of a disk that is not there, and of sectors that it has not, nothing is asked.
fn hold(
    alloc: Global,
    book: &Book<'_>,
    span: Span,
    question: Question<'_>,
    reply: &str,
) -> Result<(), Wrong> {
    let Question::Read { uuid, sector } = question else {
        return Ok(());
    };
    if !has_sector(book, span.last, uuid, sector) || had(book, span, uuid, sector, reply) {
        return Ok(());
    }
    let place = format!(in alloc; "sector {sector} of disk {uuid}")?;
    Err(differs(alloc, place.as_str(), "what it was behind some line", reply))
}

/// Holds the replies to questions against the book.
fn hold_all(
    alloc: Global,
    book: &Book<'_>,
    span: Span,
    questions: &[Question<'_>],
    text: &str,
) -> Result<(), Wrong> {
    if text.lines().count() != questions.len() {
        return Err(found(alloc, "a disk that is not read to its end"));
    }
    for (question, reply) in questions.iter().zip(text.lines()) {
        hold(alloc, book, span, *question, reply)?;
    }
    Ok(())
}

/// Opens a device and reads its disks: they are those behind the lines answered, or behind one that was read, and each sector is
/// what it was behind a line from the last on that made all last. Answers what was printed.
pub fn probe(
    tester: &mut Tester,
    book: &Book<'_>,
    answered: Answered,
    disk: &mut Device,
) -> Result<String, Wrong> {
    let alloc = tester.alloc;
    count(&mut tester.counts.images);
    let questions = questions_of(alloc, book, answered)?;
    let script = script_of(alloc, &questions)?;
    let text = tester.printed(disk, script.as_str())?;
    let listed = text.lines().next().unwrap_or("");
    let Some(last) = line_listed(alloc, book, answered, listed)? else {
        return Err(differs(alloc, "the disks", "those behind a line", listed));
    };
    let first = book.last_settled(answered.lines);
    hold_all(alloc, book, Span { first, last }, &questions, text.as_str())?;
    Ok(text)
}

/// The same of a copy of what a stop leaves at least.
pub fn probe_copy(
    tester: &mut Tester,
    book: &Book<'_>,
    answered: Answered,
    image: &Device,
) -> Result<String, Wrong> {
    let mut copy = image.copy(tester.alloc)?;
    probe(tester, book, answered, &mut copy)
}

/// The collector's steps, and then the images are told of.
fn collection(alloc: Global) -> Result<String, AllocError> {
    let mut text = String::new(alloc);
    for _step in 0..STEPS {
        text.push_str("gc\n")?;
    }
    text.push_str("stat\n")?;
    Ok(text)
}

/// Whether a text ends as one of those that are wanted.
fn ends_met(wanted: &str, got: &str) -> bool {
    for one in wanted.split(" | ") {
        if got.ends_with(one) {
            return true;
        }
    }
    is_met(wanted, got)
}

/// Collects on a device: the images are told of so at the end.
fn collect(tester: &mut Tester, disk: &mut Device, wanted: &str) -> Result<(), Wrong> {
    let script = collection(tester.alloc)?;
    let text = tester.printed(disk, script.as_str())?;
    let images = text.lines().last().unwrap_or("");
    if ends_met(wanted, images) {
        return Ok(());
    }
    Err(differs(tester.alloc, "the images at the end", wanted, images))
}

/// Collects on what is left: the images are told of so at the end, and the disks read as before.
pub fn collects(
    tester: &mut Tester,
    book: &Book<'_>,
    answered: Answered,
    left: &mut Device,
    wanted: &str,
) -> Result<(), Wrong> {
    let before = probe_copy(tester, book, answered, left)?;
    collect(tester, left, wanted)?;
    let after = probe(tester, book, answered, left)?;
    if before.as_str() == after.as_str() {
        return Ok(());
    }
    Err(found(
        tester.alloc,
        "the disks read otherwise behind the collection",
    ))
}
