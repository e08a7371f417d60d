//! Runs of the program on a device in memory.

use case_device::Device;
use case_words::{Wrong, differs};
use lvhd_command::{Status, lvhd};
use sm_disk::{MemSink, MemSource};
use std::alloc::Global;
use std::mem;

/// The word that runs a script.
pub const RUN: &[&str] = &["run"];

/// How much was tried.
#[derive(Clone, Copy)]
pub struct Counts {
    pub cases: u64,
    /// Runs of the program, each opening and each probe among them.
    pub runs: u64,
    /// Faults of a run whose script is tried.
    pub faults: u64,
    /// Images that were held against the book.
    pub images: u64,
    /// Openings of what a fault left that were stopped.
    pub openings: u64,
}

/// What the program is run with.
#[derive(Drop)]
pub struct Tester {
    pub alloc: Global,
    pub counts: Counts,
    /// The image of which an opening was stopped last at each of its calls. The program does the same on the same image.
    pub stopped: Option<Device>,
}

/// The source of a run, and the room of its sink, in bytes.
#[derive(Clone, Copy)]
pub struct Streams {
    /// The source gives so many in a call.
    pub piece: usize,
    /// It fails behind so many.
    pub until: Option<usize>,
    /// The sink fails behind so many.
    pub room: Option<usize>,
}

/// A source that gives three bytes in a call, and a sink with no end.
pub const WHOLE: Streams = Streams {
    piece: 3,
    until: None,
    room: None,
};

/// How a run ended, and what it printed.
#[derive(Drop)]
pub struct Outcome {
    pub status: Status,
    pub printed: String,
}

impl Counts {
    /// Nothing was tried yet.
    pub const NONE: Counts = Counts {
        cases: 0,
        runs: 0,
        faults: 0,
        images: 0,
        openings: 0,
    };
}

/// One more.
pub fn count(number: &mut u64) {
    *number = number.saturating_add(1);
}

/// A sink's bytes as a text.
fn text_of(alloc: Global, sink: &MemSink) -> Result<String, Wrong> {
    let text = str::from_utf8(sink.bytes()).unwrap_or("bytes that are no text");
    Ok(String::from_str(alloc, text)?)
}

impl Tester {
    /// Nothing was tried yet.
    pub fn new(alloc: Global) -> Tester {
        Tester {
            alloc,
            counts: Counts::NONE,
            stopped: None,
        }
    }

    /// Runs the program on a device, with a source of these bytes.
    pub fn run_bytes(
        &mut self,
        disk: &mut Device,
        words: &[&str],
        bytes: &[u8],
        streams: Streams,
    ) -> Result<Outcome, Wrong> {
        count(&mut self.counts.runs);
        let piece = streams.piece.max(1);
        let mut source = MemSource::new(self.alloc, bytes, piece, streams.until)?;
        let mut sink = MemSink::new(self.alloc, streams.room)?;
        let taken = mem::replace(disk, Device::new(self.alloc, 0)?);
        let span = taken.span(self.alloc)?;
        let (status, after) = lvhd(self.alloc, words, 0, span, &mut source, &mut sink);
        *disk = Device::of(after);
        Ok(Outcome {
            status,
            printed: text_of(self.alloc, &sink)?,
        })
    }

    /// Runs the program on a device, with a source of this text.
    pub fn run_with(
        &mut self,
        disk: &mut Device,
        words: &[&str],
        script: &str,
        streams: Streams,
    ) -> Result<Outcome, Wrong> {
        self.run_bytes(disk, words, script.as_bytes(), streams)
    }

    /// Runs a script on a device.
    pub fn run(&mut self, disk: &mut Device, script: &str) -> Result<Outcome, Wrong> {
        self.run_with(disk, RUN, script, WHOLE)
    }

    /// Runs a script on a device to its end, and answers what is printed.
    pub fn printed(&mut self, disk: &mut Device, script: &str) -> Result<String, Wrong> {
        let outcome = self.run(disk, script)?;
        self.ended(&outcome, Status::Done)?;
        Ok(outcome.printed)
    }

    /// Whether a run ended with this status, and printed whole lines where its sink was not full.
    pub fn ended(&self, outcome: &Outcome, wanted: Status) -> Result<(), Wrong> {
        let printed = outcome.printed.as_str();
        let is_whole = printed.is_empty() || printed.ends_with("\n");
        if outcome.status == wanted && (is_whole || wanted == Status::Sink) {
            return Ok(());
        }
        if outcome.status == wanted {
            return Err(differs(self.alloc, "the last line", "a newline", printed));
        }
        let code = outcome.status.code();
        let wanted = wanted.code();
        let alloc = self.alloc;
        let text = format!(in alloc; "status {code} and not {wanted}")?;
        Err(differs(alloc, text.as_str(), "", outcome.printed.as_str()))
    }
}
