//! A case as it is worked: its device, and the book of the disks on it.

use crate::tester::Tester;
use case_device::{Book, Device};
use case_text::{Step, Units, compare, text_of};
use case_words::Wrong;
use lvhd_command::Status;
use std::alloc::Global;

/// What the case knows of the disks on its device.
#[derive(Drop)]
pub struct Known<'a> {
    pub book: Book<'a>,
    pub units: Units,
    /// Whether replies are held against the book.
    pub is_held: bool,
}

/// A case as it is worked.
#[derive(Drop)]
pub struct Bench<'a> {
    pub disk: Device,
    pub known: Known<'a>,
    /// How many calls of the device the last line made of which that was asked.
    pub cost: Option<u64>,
    /// The bytes of the file that is imported next.
    pub file: Vec<u8>,
}

impl<'a> Bench<'a> {
    /// A case on a device as each case begins on.
    pub fn new(alloc: Global, usual: &Device) -> Result<Bench<'a>, Wrong> {
        let known = Known {
            book: Book::new(alloc)?,
            units: Units {
                extent: 16_384,
                block: 4096,
            },
            is_held: true,
        };
        Ok(Bench {
            disk: usual.copy(alloc)?,
            known,
            cost: None,
            file: Vec::new(alloc),
        })
    }
}

impl<'a> Known<'a> {
    /// Adds a line and its reply to the book, and holds the reply against it.
    fn add(&mut self, alloc: Global, step: &Step<'a>, reply: &str) -> Result<(), Wrong> {
        self.book.follow(alloc, step, reply)?;
        if self.is_held {
            return self.book.hold(alloc, step, reply);
        }
        Ok(())
    }

    /// Adds a run to the book: lines, and what each was answered.
    fn follow(&mut self, alloc: Global, steps: &[Step<'a>], printed: &str) -> Result<(), Wrong> {
        self.book.begin();
        for (step, reply) in steps.iter().zip(printed.lines()) {
            if let Err(wrong) = self.add(alloc, step, reply) {
                return Err(wrong.at(step.line));
            }
        }
        Ok(())
    }
}

/// Runs a script on a device: it is answered as it is to be, to its end. Answers what was printed.
pub fn answered(
    tester: &mut Tester,
    disk: &mut Device,
    steps: &[Step<'_>],
    is_open: bool,
    units: Units,
) -> Result<String, Wrong> {
    let text = text_of(tester.alloc, steps, steps.len(), is_open)?;
    let outcome = tester.run(disk, text.as_str())?;
    tester.ended(&outcome, Status::Done)?;
    compare(tester.alloc, steps, units, outcome.printed.as_str())?;
    Ok(outcome.printed)
}

/// Runs a script on a device as [`answered`] does, and adds it to the book.
pub fn followed<'a>(
    tester: &mut Tester,
    disk: &mut Device,
    known: &mut Known<'a>,
    steps: &[Step<'a>],
    is_open: bool,
) -> Result<String, Wrong> {
    let printed = answered(tester, disk, steps, is_open, known.units)?;
    known.follow(tester.alloc, steps, printed.as_str())?;
    Ok(printed)
}
