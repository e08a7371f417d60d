//! A case file with its short forms written out.

use std::alloc::{AllocError, Global};

/// A line with its number in the file, counted from 1.
#[derive(Clone, Copy)]
pub struct Line<'a> {
    pub number: usize,
    pub text: &'a str,
}

/// The text of a case file, its short forms written out, without comments and empty lines. A line that stands for several is
/// so many lines.
#[derive(Drop)]
pub struct Written {
    text: String,
    /// The number of each line in the file.
    numbers: Vec<usize>,
}

/// The UUID that a capital stands for.
fn uuid_of(letter: &str) -> Option<&'static str> {
    match letter {
        "A" => Some("11111111-1111-4111-8111-111111111111"),
        "B" => Some("22222222-2222-4222-8222-222222222222"),
        "C" => Some("33333333-3333-4333-8333-333333333333"),
        "E" => Some("44444444-4444-4444-8444-444444444444"),
        "F" => Some("55555555-5555-4555-8555-555555555555"),
        "G" => Some("77777777-7777-4777-8777-777777777777"),
        "H" => Some("88888888-8888-4888-8888-888888888888"),
        "R" => Some("99999999-9999-4999-8999-999999999999"),
        "N" => Some("00000000-0000-0000-0000-000000000000"),
        _ => None,
    }
}

/// The number behind the sign of a base UUID.
fn base_number(atom: &str) -> Option<u64> {
    atom.strip_prefix("#")?.parse::<u64>().ok()
}

/// The two digits of a byte, and how often they stand.
fn run_of(atom: &str) -> Option<(&str, u64)> {
    let (digits, times) = atom.split_once("*")?;
    Some((digits, times.parse::<u64>().ok()?))
}

/// Whether a character is part of a short form.
fn is_atom(letter: char) -> bool {
    letter.is_ascii_alphanumeric() || letter == '#' || letter == '*' || letter == '@'
}

/// Writes digits so many times.
fn put_times(to: &mut String, digits: &str, times: u64) -> Result<(), AllocError> {
    for _time in 0..times {
        to.push_str(digits)?;
    }
    Ok(())
}

/// Writes an atom out, and answers whether it was a run of bytes.
fn put_atom(alloc: Global, to: &mut String, atom: &str, turn: u64) -> Result<bool, AllocError> {
    if let Some(uuid) = uuid_of(atom) {
        to.push_str(uuid)?;
    } else if let Some(number) = base_number(atom) {
        let text = format!(in alloc; "6c766864-0000-8000-8000-{number:012x}")?;
        to.push_str(text.as_str())?;
    } else if atom == "@" {
        let text = format!(in alloc; "22222222-2222-4222-8222-{turn:012x}")?;
        to.push_str(text.as_str())?;
    } else if let Some((digits, times)) = run_of(atom) {
        put_times(to, digits, times)?;
        return Ok(true);
    } else {
        to.push_str(atom)?;
    }
    Ok(false)
}

/// Writes a text with its short forms written out: a capital that stands alone is a disk's UUID, `#6` the UUID of a base, `@` that
/// of the disk of this turn, and `ab*512` two digits so many times; a `+` joins such runs.
fn put_spelled(alloc: Global, to: &mut String, text: &str, turn: u64) -> Result<(), AllocError> {
    let mut atom = String::new(alloc);
    for letter in text.chars() {
        if is_atom(letter) {
            atom.push(letter)?;
        } else {
            let was_run = put_atom(alloc, to, atom.as_str(), turn)?;
            atom.clear();
            if letter != '+' || !was_run {
                to.push(letter)?;
            }
        }
    }
    let _was_run = put_atom(alloc, to, atom.as_str(), turn)?;
    Ok(())
}

/// How often a line of a script stands, and the line.
pub fn times_of(text: &str) -> (u64, &str) {
    if let Some((times, rest)) = text.split_once("x ") {
        if let Ok(times) = times.parse::<u64>() {
            return (times, rest);
        }
    }
    (1, text)
}

/// Whether a line has a name, which is not written out.
fn is_named(line: &str) -> bool {
    line.starts_with("case ")
        || line.starts_with("wrong ")
        || line.starts_with("part ")
        || line.starts_with("after ")
}

impl Written {
    /// A file's text written out.
    pub fn of(alloc: Global, file: &str) -> Result<Written, AllocError> {
        let mut written = Written {
            text: String::new(alloc),
            numbers: Vec::new(alloc),
        };
        let mut number = 0usize;
        for line in file.lines() {
            number = number.saturating_add(1);
            written.add(alloc, number, line)?;
        }
        Ok(written)
    }

    /// The lines, in the order of the file.
    pub fn lines(&self, alloc: Global) -> Result<Vec<Line<'_>>, AllocError> {
        let mut lines = Vec::new(alloc);
        for (text, number) in self.text.lines().zip(self.numbers.iter()) {
            lines.push(Line {
                number: *number,
                text,
            })?;
        }
        Ok(lines)
    }

    /// Adds what a line of the file says.
    fn add(&mut self, alloc: Global, number: usize, line: &str) -> Result<(), AllocError> {
        let text = line.trim();
        if text.is_empty() || text.starts_with("//") {
            return Ok(());
        }
        if line.starts_with(" ") {
            return self.add_steps(alloc, number, text);
        }
        if is_named(line) {
            self.text.push_str(text)?;
        } else {
            put_spelled(alloc, &mut self.text, text, 0)?;
        }
        self.end(number)
    }

    /// Adds a line of a script, so often as it says; one that says 0 stands as it is, and is refused.
    fn add_steps(&mut self, alloc: Global, number: usize, text: &str) -> Result<(), AllocError> {
        let (times, body) = times_of(text);
        if times == 0 {
            return self.add_turn(alloc, number, text, 0);
        }
        for turn in 0..times {
            self.add_turn(alloc, number, body, turn)?;
        }
        Ok(())
    }

    /// Adds lines of a script that stand in one line of the file.
    fn add_turn(
        &mut self,
        alloc: Global,
        number: usize,
        body: &str,
        turn: u64,
    ) -> Result<(), AllocError> {
        for step in body.split("; ") {
            self.text.push(' ')?;
            put_spelled(alloc, &mut self.text, step, turn)?;
            self.end(number)?;
        }
        Ok(())
    }

    /// Ends a line.
    fn end(&mut self, number: usize) -> Result<(), AllocError> {
        self.text.push('\n')?;
        self.numbers.push(number)?;
        Ok(())
    }
}
