//! The disks that a script leaves behind each of its lines, as its lines and their replies say.

use case_text::{Step, piece};
use case_words::{Command, Wrong, differs, found, is_filled};
use std::alloc::{AllocError, Global};

/// A disk. Its texts are those of the script.
#[derive(Clone, Copy)]
pub struct Disk<'a> {
    pub uuid: &'a str,
    label: &'a str,
    origin: &'a str,
    is_read_only: bool,
    pub sectors: usize,
    /// Which of the book's contents it has.
    content: usize,
}

/// The disks behind a line: which of the book's they are, in order of UUID, and whether the line makes all last.
#[derive(Clone, Copy)]
struct Behind {
    first: usize,
    end: usize,
    lasts: bool,
}

/// The disks in front of a run and behind each of its lines. Lines are counted from 1, and line 0 is the moment before the first.
#[derive(Drop)]
pub struct Book<'a> {
    disks: Vec<Disk<'a>>,
    /// Of each content the byte that fills each of its first sectors; the sectors behind them hold zeros.
    contents: Vec<Vec<u8>>,
    lines: Vec<Behind>,
    /// Line 0 of the run is this.
    start: usize,
    /// Which sectors are read back: the first, those that hold more than zeros behind some line, and each one behind such a sector.
    touched: Vec<bool>,
}

/// A sector from this one on is not followed.
const FOLLOWED: usize = 1_000_000;

/// The bytes that a reply tells as a size, in sectors.
fn sectors_told(reply: &str) -> usize {
    match reply.strip_prefix("ok ") {
        Some(size) => size.parse::<usize>().unwrap_or(0) / 512,
        None => 0,
    }
}

/// Fills sectors.
fn fill(content: &mut Vec<u8>, from: usize, count: usize, byte: u8) -> Result<(), AllocError> {
    let end = from.saturating_add(count);
    if end > content.len() {
        content.resize(end, 0)?;
    }
    for sector in content.iter_mut().skip(from).take(count) {
        *sector = byte;
    }
    Ok(())
}

/// Marks the sectors that hold more than zeros, and each one behind such a sector.
fn mark(touched: &mut Vec<bool>, content: &[u8]) -> Result<(), AllocError> {
    let end = content.len().saturating_add(1);
    if end > touched.len() {
        touched.resize(end, false)?;
    }
    let mut was = false;
    for (to, byte) in touched.iter_mut().zip(content.iter().chain(&[0])) {
        *to |= was || *byte != 0;
        was = *byte != 0;
    }
    Ok(())
}

/// What `list` says of a disk.
fn listed(alloc: Global, disk: &Disk<'_>) -> Result<String, AllocError> {
    let Disk {
        uuid,
        label,
        origin,
        ..
    } = *disk;
    let size = disk.sectors.saturating_mul(512);
    let kind = if disk.is_read_only { "ro" } else { "rw" };
    format!(in alloc; " {uuid},{size},{kind},{origin},{label}")
}

impl<'a> Book<'a> {
    /// The book of a repository without disks.
    pub fn new(alloc: Global) -> Result<Book<'a>, AllocError> {
        let none = Behind {
            first: 0,
            end: 0,
            lasts: true,
        };
        Ok(Book {
            disks: Vec::new(alloc),
            contents: Vec::new(alloc),
            lines: vec![in alloc; none]?,
            start: 0,
            touched: vec![in alloc; true]?,
        })
    }

    /// A run begins: what was behind the last line is now before the first.
    pub fn begin(&mut self) {
        self.start = self.lines.len().saturating_sub(1);
        if let Some(behind) = self.lines.last_mut() {
            behind.lasts = true;
        }
    }

    /// How many lines the run has.
    pub fn count(&self) -> usize {
        self.lines
            .len()
            .saturating_sub(self.start)
            .saturating_sub(1)
    }

    /// Which sectors of the disks are read back, beside the last of each.
    pub fn touched(&self) -> &[bool] {
        &self.touched
    }

    /// Where the disks behind a line stand.
    fn behind(&self, line: usize) -> Behind {
        let nothing = Behind {
            first: 0,
            end: 0,
            lasts: false,
        };
        let at = self.start.saturating_add(line);
        self.lines.get(at).copied().unwrap_or(nothing)
    }

    /// The disks behind a line, in order of UUID.
    pub fn disks<'b>(&'b self, line: usize) -> &'b [Disk<'a>]
    where
        'a: 'b,
    {
        let behind = self.behind(line);
        piece(&self.disks, behind.first..behind.end)
    }

    /// A disk behind a line.
    pub fn disk(&self, line: usize, uuid: &str) -> Option<Disk<'a>> {
        self.disks(line)
            .iter()
            .copied()
            .find(|disk| disk.uuid == uuid)
    }

    /// What `list` says behind a line.
    pub fn listed(&self, alloc: Global, line: usize) -> Result<String, AllocError> {
        let count = self.disks(line).len();
        let mut text = format!(in alloc; "ok {count}")?;
        for disk in self.disks(line) {
            let one = listed(alloc, disk)?;
            text.push_str(one.as_str())?;
        }
        Ok(text)
    }

    /// The last line up to this one that made all last.
    pub fn last_settled(&self, line: usize) -> usize {
        let mut last = 0;
        for at in 0..line.saturating_add(1) {
            if self.behind(at).lasts {
                last = at;
            }
        }
        last
    }

    /// The byte that fills a sector of a disk.
    fn byte_at(&self, disk: &Disk<'a>, sector: usize) -> u8 {
        match self.contents.get(disk.content) {
            Some(content) => content.get(sector).copied().unwrap_or(0),
            None => 0,
        }
    }

    /// Whether a disk has a sector behind a line, and it reads as these digits.
    pub fn reads_so(&self, line: usize, uuid: &str, sector: usize, digits: &str) -> bool {
        match self.disk(line, uuid) {
            Some(disk) => {
                sector < disk.sectors && is_filled(digits.as_bytes(), self.byte_at(&disk, sector))
            }
            None => false,
        }
    }

    /// Copies disks from one place to another to the end, those alone whose UUIDs are below this one, or above it.
    fn copy(&mut self, from: Behind, uuid: &str, is_below: bool) -> Result<(), AllocError> {
        for at in from.first..from.end {
            if let Some(disk) = self.disks.get(at).copied()
                && disk.uuid != uuid
                && (disk.uuid < uuid) == is_below
            {
                self.disks.push(disk)?;
            }
        }
        Ok(())
    }

    /// Adds a line behind which a disk is another, or is not there.
    fn put(&mut self, uuid: &str, disk: Option<Disk<'a>>) -> Result<(), AllocError> {
        let from = self.behind(self.count());
        let first = self.disks.len();
        self.copy(from, uuid, true)?;
        if let Some(disk) = disk {
            self.disks.push(disk)?;
        }
        self.copy(from, uuid, false)?;
        let end = self.disks.len();
        self.lines.push(Behind {
            first,
            end,
            lasts: true,
        })?;
        Ok(())
    }

    /// Adds a line behind which the disks are what they were.
    fn stay(&mut self, lasts: bool) -> Result<(), AllocError> {
        let mut behind = self.behind(self.count());
        behind.lasts = lasts;
        self.lines.push(behind)?;
        Ok(())
    }

    /// The disk with a UUID behind the last line.
    fn last(&self, uuid: &str) -> Option<Disk<'a>> {
        self.disk(self.count(), uuid)
    }

    /// A disk is made of another.
    fn fork(&mut self, uuid: &'a str, twin: &'a str, is_read_only: bool) -> Result<(), AllocError> {
        let Some(disk) = self.last(uuid) else {
            return self.stay(true);
        };
        let made = Disk {
            uuid: twin,
            origin: uuid,
            is_read_only,
            ..disk
        };
        self.put(twin, Some(made))
    }

    /// The contents of a disk, to be changed.
    fn copied(&self, alloc: Global, disk: &Disk<'a>) -> Result<Vec<u8>, AllocError> {
        match self.contents.get(disk.content) {
            Some(content) => content.clone(),
            None => Ok(Vec::new(alloc)),
        }
    }

    /// Sectors of a disk are filled.
    fn fill(
        &mut self,
        alloc: Global,
        disk: Disk<'a>,
        from: usize,
        count: usize,
        byte: u8,
    ) -> Result<(), AllocError> {
        let mut content = self.copied(alloc, &disk)?;
        fill(&mut content, from, count, byte)?;
        mark(&mut self.touched, &content)?;
        let made = Disk {
            content: self.contents.len(),
            ..disk
        };
        self.contents.push(content)?;
        self.put(disk.uuid, Some(made))?;
        if let Some(behind) = self.lines.last_mut() {
            behind.lasts = false;
        }
        Ok(())
    }

    /// Adds the line of an accepted fill.
    fn filled(
        &mut self,
        alloc: Global,
        uuid: &str,
        from: usize,
        count: usize,
        byte: u8,
    ) -> Result<(), Wrong> {
        let Some(disk) = self.last(uuid) else {
            return Ok(self.stay(false)?);
        };
        if from.saturating_add(count) > FOLLOWED {
            return Err(found(alloc, "a write so far behind is not followed"));
        }
        Ok(self.fill(alloc, disk, from, count, byte)?)
    }

    /// Adds a line that changes a disk that is there, or makes one.
    fn change(&mut self, step: &Step<'a>, reply: &str) -> Result<(), AllocError> {
        let sectors = sectors_told(reply);
        match step.command {
            Command::Create { uuid, label, .. } => {
                let disk = Disk {
                    uuid,
                    label,
                    origin: "-",
                    is_read_only: false,
                    sectors,
                    content: usize::MAX,
                };
                self.put(uuid, Some(disk))
            }
            Command::Delete { uuid } => self.put(uuid, None),
            Command::Fork {
                uuid,
                twin,
                is_read_only,
            } => self.fork(uuid, twin, is_read_only),
            Command::Resize { uuid, .. } => {
                let disk = self.last(uuid).map(|disk| Disk { sectors, ..disk });
                self.put(uuid, disk)
            }
            Command::Label { uuid, label } => {
                let disk = self.last(uuid).map(|disk| Disk { label, ..disk });
                self.put(uuid, disk)
            }
            Command::Settle => self.stay(true),
            _ => self.stay(false),
        }
    }

    /// Adds a line of a run and its reply.
    pub fn follow(&mut self, alloc: Global, step: &Step<'a>, reply: &str) -> Result<(), Wrong> {
        if !reply.starts_with("ok") {
            return Ok(self.stay(false)?);
        }
        match step.command {
            Command::Fill {
                uuid,
                from,
                count,
                byte,
            } => self.filled(alloc, uuid, from, count, byte),
            Command::Mixed => Err(found(alloc, "a write of more than one byte is not followed")),
            _ => Ok(self.change(step, reply)?),
        }
    }

    /// Whether a reply to a read of a disk is what the book has of these sectors behind the last line.
    fn is_read(&self, disk: &Disk<'a>, from: usize, reply: &str) -> bool {
        let digits = reply.strip_prefix("ok ").unwrap_or("");
        let mut sector = from;
        for one in digits.as_bytes().chunks(1024) {
            if !is_filled(one, self.byte_at(disk, sector)) {
                return false;
            }
            sector = sector.saturating_add(1);
        }
        true
    }

    /// Holds an accepted reply to `list` or `read` against the disks behind the last line.
    pub fn hold(&self, alloc: Global, step: &Step<'a>, reply: &str) -> Result<(), Wrong> {
        if !reply.starts_with("ok") {
            return Ok(());
        }
        match step.command {
            Command::List => {
                let wanted = self.listed(alloc, self.count())?;
                if wanted.as_str() != reply {
                    return Err(differs(alloc, "the book at list", wanted.as_str(), reply));
                }
            }
            Command::Read { uuid, from } => {
                if let Some(disk) = self.last(uuid)
                    && !self.is_read(&disk, from, reply)
                {
                    return Err(differs(alloc, "the book", step.text, reply));
                }
            }
            _ => {}
        }
        Ok(())
    }
}
