//! The faults of a run that a case has tried.

use case_words::cut;

/// One of the two parts of a device. Where a case names no border, the first is the whole device.
#[derive(Clone, Copy, PartialEq, Eq)]
pub enum Part {
    First,
    Second,
}

/// What fails.
#[derive(Clone, Copy, PartialEq, Eq)]
pub enum Fault {
    /// A call of a part of the device, and all behind it.
    Stop(Part),
    /// A call of a part of the device alone.
    Fail(Part),
    /// The sink, behind so many bytes.
    Sink,
    /// The source, behind so many bytes, which gives so many in a call.
    Source { piece: usize },
}

impl Fault {
    /// Whether it is one of the device.
    pub fn is_of_device(self) -> bool {
        matches!(self, Fault::Stop(_) | Fault::Fail(_))
    }

    /// The part of the device of which it is; the first where it is one of the streams.
    pub fn part(self) -> Part {
        match self {
            Fault::Stop(part) | Fault::Fail(part) => part,
            Fault::Sink | Fault::Source { .. } => Part::First,
        }
    }
}

/// Faults that are tried.
#[derive(Clone, Copy)]
pub struct Trial {
    pub fault: Fault,
    /// The one that is tried, where it is one: a call of the part or a number of bytes, counted from 0.
    pub only: Option<u64>,
}

/// How many bytes a source gives in a call, where a case does not say.
pub const USUAL_PIECE: usize = 3;

/// What fails, as words name it: `stop`, `fail`, `stop second`, `fail second`, `sink`, `source`, `source 7`.
fn fault_of(words: &str) -> Result<Fault, &'static str> {
    match cut(words) {
        ("stop", "") => Ok(Fault::Stop(Part::First)),
        ("fail", "") => Ok(Fault::Fail(Part::First)),
        ("stop", "second") => Ok(Fault::Stop(Part::Second)),
        ("fail", "second") => Ok(Fault::Fail(Part::Second)),
        ("sink", "") => Ok(Fault::Sink),
        ("source", "") => Ok(Fault::Source { piece: USUAL_PIECE }),
        ("source", piece) => match piece.parse::<usize>() {
            Ok(piece) => Ok(Fault::Source { piece }),
            Err(_) => Err("no number of bytes"),
        },
        _ => Err("no such fault"),
    }
}

/// The one fault that words and a number name.
fn one_of(words: &str, number: &str) -> Result<Trial, &'static str> {
    match number.parse::<u64>() {
        Ok(number) => Ok(Trial {
            fault: fault_of(words)?,
            only: Some(number),
        }),
        Err(_) => Err("no such fault"),
    }
}

/// The faults that words name: `each stop`, `each source 7`, `fail 6`, `stop second 6`.
pub fn trial_of(text: &str) -> Result<Trial, &'static str> {
    let (word, rest) = cut(text);
    if word == "each" {
        return Ok(Trial {
            fault: fault_of(rest)?,
            only: None,
        });
    }
    match (word, cut(rest)) {
        ("stop", ("second", number)) => one_of("stop second", number),
        ("fail", ("second", number)) => one_of("fail second", number),
        _ => one_of(word, rest),
    }
}
