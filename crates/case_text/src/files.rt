//! The cases of a file.

use crate::acts::{Act, Left, act_of};
use crate::faults::{Fault, trial_of};
use crate::pieces::piece;
use crate::scripts::{Script, Step};
use case_words::{Line, Wrong, found, times_of};
use std::alloc::{AllocError, Global};

/// What a head begins.
#[derive(Clone, Copy, PartialEq, Eq)]
pub enum Kind {
    /// A case.
    Case,
    /// A case in which something has to be found.
    Wrong,
    /// A piece that cases begin with.
    Part,
}

/// A case or a part.
#[derive(Clone, Copy)]
pub struct Head<'a> {
    pub kind: Kind,
    pub name: &'a str,
    /// The number of its line.
    pub line: usize,
    first: usize,
    count: usize,
}

/// A line at the margin, and the script below it.
#[derive(Clone, Copy)]
pub struct Entry<'a> {
    pub line: usize,
    pub text: &'a str,
    pub act: Act<'a>,
    pub script: Script,
}

/// The cases of a file.
#[derive(Drop)]
pub struct File<'a> {
    heads: Vec<Head<'a>>,
    entries: Vec<Entry<'a>>,
    steps: Vec<Step<'a>>,
    /// Why it can't be read into cases, and the number of the line.
    trouble: Option<(usize, &'static str)>,
}

/// What begins with a line, and its name.
fn head_of(text: &str) -> Option<(Kind, &str)> {
    let (word, name) = text.split_once(" ").unwrap_or((text, ""));
    match word {
        "case" => Some((Kind::Case, name)),
        "wrong" => Some((Kind::Wrong, name)),
        "part" => Some((Kind::Part, name)),
        _ => None,
    }
}

/// Why a line can't stand in a script.
fn script_trouble(act: &Act<'_>, script: Script, text: &str) -> Option<&'static str> {
    let tries = matches!(act, Act::Try(_));
    if matches!(act, Act::Unread(_)) {
        return None;
    }
    if !act.takes_script() {
        return Some("no script stands here");
    }
    if text == "from here" && !tries {
        return Some("no faults are tried here");
    }
    if script.is_open {
        return Some("a line behind the last");
    }
    if times_of(text).0 == 0 {
        return Some("a line that stands no time");
    }
    None
}

/// Why words name no faults.
fn fault_trouble(words: &str) -> Option<&'static str> {
    for one in words.split(", ") {
        if let Err(why) = trial_of(one) {
            return Some(why);
        }
    }
    None
}

/// Whether words name a fault behind which the device goes on.
fn goes_on(words: &str) -> bool {
    for one in words.split(", ") {
        if let Ok(trial) = trial_of(one) {
            if !matches!(trial.fault, Fault::Stop(_)) {
                return true;
            }
        }
    }
    false
}

/// Whether words name a fault of the device.
fn is_of_device(words: &str) -> bool {
    for one in words.split(", ") {
        if let Ok(trial) = trial_of(one) {
            if trial.fault.is_of_device() {
                return true;
            }
        }
    }
    false
}

/// Why an act can't stand behind the faults that words name.
fn untried(act: &Act<'_>, words: &str) -> Option<&'static str> {
    match act {
        Act::Again(Left::Pending) if !goes_on(words) => Some("each device stops above"),
        Act::Made(_) if is_of_device(words) => Some("calls fail above"),
        _ => None,
    }
}

/// Why an act can't stand where it does: behind faults that are tried or not, in a part or a case.
fn misplaced(act: &Act<'_>, tried: Option<&str>, is_part: bool) -> Option<&'static str> {
    let is_tried = tried.is_some();
    match act {
        Act::Again(_) | Act::Ends(_) | Act::Answered(_) | Act::Made(_) if !is_tried => {
            Some("no faults are tried above")
        }
        Act::Again(_) | Act::Made(_) => untried(act, tried.unwrap_or("")),
        Act::Shows | Act::Run => None,
        Act::Ends(_) | Act::Answered(_) => None,
        Act::Unread(why) => Some(*why),
        _ if is_tried => Some("this can't stand behind faults that are tried"),
        Act::Try(_) if is_part => Some("no faults are tried in a part"),
        Act::Try(words) => fault_trouble(words),
        _ => None,
    }
}

impl<'a> File<'a> {
    /// The cases and parts, in the order of the file.
    pub fn heads<'b>(&'b self) -> &'b [Head<'a>]
    where
        'a: 'b,
    {
        &self.heads
    }

    /// Why the file can't be read into cases, and the number of the line.
    pub fn trouble(&self) -> Option<(usize, &'static str)> {
        self.trouble
    }

    /// The lines at the margin of a case or a part.
    pub fn entries<'b>(&'b self, head: &Head<'a>) -> &'b [Entry<'a>]
    where
        'a: 'b,
    {
        let end = head.first.saturating_add(head.count);
        piece(&self.entries, head.first..end)
    }

    /// The lines at the margin of a case or a part behind the one with an index.
    pub fn behind<'b>(&'b self, head: &Head<'a>, index: usize) -> &'b [Entry<'a>]
    where
        'a: 'b,
    {
        let first = head.first.saturating_add(index).saturating_add(1);
        piece(&self.entries, first..head.first.saturating_add(head.count))
    }

    /// The lines of a script.
    pub fn steps<'b>(&'b self, script: Script) -> &'b [Step<'a>]
    where
        'a: 'b,
    {
        let end = script.first.saturating_add(script.count);
        piece(&self.steps, script.first..end)
    }

    /// The part with a name.
    fn part(&self, name: &str) -> Option<Head<'a>> {
        self.heads
            .iter()
            .copied()
            .find(|head| head.kind == Kind::Part && head.name == name)
    }

    /// Whether a case or a part has this name already.
    fn has_name(&self, kind: Kind, name: &str) -> bool {
        let is_part = kind == Kind::Part;
        self.heads.iter().any(|head| (head.kind == Kind::Part) == is_part && head.name == name)
    }

    /// The faults that the last case tries.
    fn tried(&self, head: &Head<'a>) -> Option<&'a str> {
        for entry in self.entries(head) {
            if let Act::Try(words) = entry.act {
                return Some(words);
            }
        }
        None
    }

    /// What a line at the margin says where it stands, below the last head.
    fn act_at(&self, head: &Head<'a>, text: &'a str) -> Act<'a> {
        let act = match act_of(text) {
            Ok(act) => act,
            Err(why) => return Act::Unread(why),
        };
        if head.count > 0 && matches!(act, Act::After(_)) {
            return Act::Unread("a part is named in the first line alone");
        }
        match misplaced(&act, self.tried(head), head.kind == Kind::Part) {
            Some(why) => Act::Unread(why),
            None => act,
        }
    }

    /// Adds a line at the margin.
    fn add_entry(&mut self, line: Line<'a>, act: Act<'a>) -> Result<(), AllocError> {
        let script = Script {
            first: self.steps.len(),
            count: 0,
            from: 0,
            is_open: false,
        };
        self.entries.push(Entry {
            line: line.number,
            text: line.text,
            act,
            script,
        })?;
        if let Some(head) = self.heads.last_mut() {
            head.count = head.count.saturating_add(1);
        }
        Ok(())
    }

    /// Adds a case or a part.
    fn add_head(&mut self, line: Line<'a>, kind: Kind, name: &'a str) -> Result<(), AllocError> {
        let is_twice = self.has_name(kind, name);
        self.heads.push(Head {
            kind,
            name,
            line: line.number,
            first: self.entries.len(),
            count: 0,
        })?;
        if is_twice {
            self.add_entry(line, Act::Unread("there is such a name above"))?;
        }
        Ok(())
    }

    /// Adds a line of a script to the last entry.
    fn add_step(&mut self, line: Line<'a>) -> Result<(), AllocError> {
        let Some(entry) = self.entries.last_mut() else {
            return Ok(());
        };
        let text = line.text.trim();
        if let Some(why) = script_trouble(&entry.act, entry.script, text) {
            entry.act = Act::Unread(why);
            entry.line = line.number;
            entry.text = text;
        }
        match text {
            "from here" => entry.script.from = entry.script.count,
            "no newline" => entry.script.is_open = true,
            text => {
                entry.script.count = entry.script.count.saturating_add(1);
                self.steps.push(Step::of(line.number, text))?;
            }
        }
        Ok(())
    }

    /// The file can't be read into cases, for this line.
    fn refuse(&mut self, line: Line<'a>, why: &'static str) {
        if self.trouble.is_none() {
            self.trouble = Some((line.number, why));
        }
    }

    /// Adds a line.
    fn add(&mut self, line: Line<'a>) -> Result<(), AllocError> {
        if let Some((kind, name)) = head_of(line.text) {
            if name.is_empty() {
                self.refuse(line, "a head without a name");
            }
            return self.add_head(line, kind, name);
        }
        let Some(head) = self.heads.last().copied() else {
            self.refuse(line, "a line in front of the first case");
            return Ok(());
        };
        if line.text.starts_with(" ") {
            if head.count == 0 {
                self.refuse(line, "a line of a script below none at the margin");
            }
            return self.add_step(line);
        }
        let act = self.act_at(&head, line.text);
        self.add_entry(line, act)
    }

    /// Finds what of a case or a part can't be read.
    fn check(&self, alloc: Global, head: &Head<'a>) -> Result<(), Wrong> {
        if head.count == 0 {
            return Err(found(alloc, "nothing is said").at(head.line));
        }
        for entry in self.entries(head) {
            if let Act::Unread(why) = entry.act {
                return Err(found(alloc, entry.text).under(alloc, why).at(entry.line));
            }
        }
        Ok(())
    }

    /// The part that a case or a part begins with.
    fn begun(&self, alloc: Global, head: &Head<'a>) -> Result<Option<Head<'a>>, Wrong> {
        let Some(entry) = self.entries(head).first() else {
            return Ok(None);
        };
        let Act::After(name) = entry.act else {
            return Ok(None);
        };
        match self.part(name) {
            Some(part) => Ok(Some(part)),
            None => Err(
                found(alloc, name)
                    .under(alloc, "no such part")
                    .at(entry.line),
            ),
        }
    }

    /// A case and the parts that it begins with, the last first. All their lines can be read.
    pub fn chain(&self, alloc: Global, head: &Head<'a>) -> Result<Vec<Head<'a>>, Wrong> {
        let mut chain = vec![in alloc; *head]?;
        let mut next = *head;
        for _part in &self.heads {
            self.check(alloc, &next)?;
            let Some(part) = self.begun(alloc, &next)? else {
                return Ok(chain);
            };
            chain.push(part)?;
            next = part;
        }
        Err(found(alloc, "parts that begin with each other").at(head.line))
    }
}

/// Reads the lines of a file into cases. Lines that say nothing are found by [`File::chain`], where a case is worked.
pub fn read<'a>(alloc: Global, lines: &[Line<'a>]) -> Result<File<'a>, AllocError> {
    let mut file = File {
        heads: Vec::new(alloc),
        entries: Vec::new(alloc),
        steps: Vec::new(alloc),
        trouble: None,
    };
    for line in lines {
        file.add(*line)?;
    }
    Ok(file)
}
