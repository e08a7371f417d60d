//! What was found where a case is not met.

use sm_base::{Failed, NoMemory};
use std::alloc::{AllocError, AllocFailed, Global};

/// Why a case is not met.
#[derive(Drop)]
pub enum Wrong {
    /// There was no memory.
    Memory,
    /// This was found, in this line of the file once that is known.
    Found { line: Option<usize>, what: String },
}

impl Wrong {
    /// The same, found in a line, where no line was named yet.
    pub fn at(self, line: usize) -> Wrong {
        match self {
            Wrong::Found { line: None, what } => Wrong::Found {
                line: Some(line),
                what,
            },
            other => other,
        }
    }

    /// The same, behind a head.
    pub fn under(self, alloc: Global, head: &str) -> Wrong {
        match self {
            Wrong::Memory => Wrong::Memory,
            Wrong::Found { line, what } => headed(alloc, head, line, what.as_str()),
        }
    }
}

impl From<AllocError> for Wrong {
    fn from(_error: AllocError) -> Wrong {
        Wrong::Memory
    }
}

impl<T: Drop> From<AllocFailed<T>> for Wrong {
    fn from(_error: AllocFailed<T>) -> Wrong {
        Wrong::Memory
    }
}

impl From<NoMemory> for Wrong {
    fn from(_error: NoMemory) -> Wrong {
        Wrong::Memory
    }
}

/// A device in memory that was told of no fault fails only for want of memory.
impl From<Failed> for Wrong {
    fn from(_error: Failed) -> Wrong {
        Wrong::Memory
    }
}

/// A text that was found, in no line yet.
fn of_text(text: Result<String, AllocError>) -> Wrong {
    match text {
        Ok(what) => Wrong::Found { line: None, what },
        Err(_) => Wrong::Memory,
    }
}

/// This was found.
pub fn found(alloc: Global, what: &str) -> Wrong {
    of_text(String::from_str(alloc, what))
}

/// The first 160 characters of a text, its lines joined by `/`.
fn front(alloc: Global, text: &str) -> Result<String, AllocError> {
    let mut to = String::new(alloc);
    for letter in text.trim_end().chars().take(160) {
        to.push(if letter == '\n' { '/' } else { letter })?;
    }
    Ok(to)
}

fn difference(alloc: Global, what: &str, wanted: &str, got: &str) -> Result<String, AllocError> {
    let wanted = front(alloc, wanted)?;
    let got = front(alloc, got)?;
    format!(in alloc; "{what}: wanted `{wanted}`, got `{got}`")
}

/// One text was wanted, and another found; the first 160 characters of each are told.
pub fn differs(alloc: Global, what: &str, wanted: &str, got: &str) -> Wrong {
    of_text(difference(alloc, what, wanted, got))
}

/// This was found, behind a head.
fn headed(alloc: Global, head: &str, line: Option<usize>, what: &str) -> Wrong {
    match format!(in alloc; "{head}: {what}") {
        Ok(what) => Wrong::Found { line, what },
        Err(_) => Wrong::Memory,
    }
}
