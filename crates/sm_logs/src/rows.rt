//! A log in memory, and where one stands among others.

ghost use Rattle.std.specs.Prelude.{◌≡◌, ◌≤◌, ◌+◌, ◌*◌, ℕ, Bool, List, length, IfOk, IfErr};
ghost use Rattle.std.specs.Cmp.Lexicographic.{slice_cmp};
ghost use Rattle.std.specs.List.{list_all};
ghost use Rattle.std.specs.Ordering.{nat_cmp};
ghost use Rattle.sm_log.specs.Logs.{Log, begun_anew, bit, is_log_of, piece_sectors, pieces_touched, touched, twin_log};
ghost use Rattle.sm_log.specs.declared.heads.Head.{Head as LogHead};
ghost use Rattle.sm_logs.specs.Held.{IsPlace, IsRising, IsSlot};

use sm_base::NoMemory;
use sm_log::{Bits, Head};
use std::alloc::Global;
use std::cmp::Ordering;
use std::marker::Model;
use uuid::Uuid;

/// The log of a tracked disk.
#[derive(Drop)]
pub struct Log {
    disk: Uuid,
    extents: u32,
    tag: u64,
    since: u64,
    bits: Bits,
}

impl Model for Log {
    ghost use Rattle.sm_log.specs.Logs.{Log};

    ghost Value = { Log };

    ghost view = { λ a. record { disk = a.disk; extents = a.extents; tag = a.tag; since = a.since; bits = a.bits } };
}

impl Log {
    /// A log of a disk. `extents` are those of the log's volume; `tag` and `since` are as in [`Head`].
    pub fn new(disk: Uuid, extents: u32, tag: u64, since: u64, bits: Bits) -> Log
        ensures { let l : Log = record { disk = disk; extents = extents; tag = tag; since = since; bits = bits } in result ≡ l }
    {
        Log {
            disk,
            extents,
            tag,
            since,
            bits,
        }
    }

    /// The log that a snapshot gets of its disk's. It takes the memory for its bits.
    pub fn twin(&self, alloc: Global, twin: Uuid, tag: u64) -> Result<Log, NoMemory>
        ensures { IfOk result (λ l. l ≡ twin_log twin tag self.now) }
    {
        let mut bits = Bits::new(alloc, self.bits.pieces())?;
        bits.add(&self.bits);
        Ok(Log::new(twin, self.extents, tag, self.since, bits))
    }

    /// The disk whose log this is.
    pub fn disk(&self) -> Uuid
        ensures { result ≡ self.now.disk }
    {
        self.disk
    }

    /// Whether this is the log of a disk.
    pub fn is_of(&self, disk: &Uuid) -> bool
        ensures { result ≡ is_log_of disk.now self.now }
    {
        self.disk == *disk
    }

    // How its disk's UUID and another are ordered, by their bytes.
    fn order(&self, disk: &Uuid) -> Ordering
        ensures { result ≡ slice_cmp nat_cmp self.now.disk disk.now }
    {
        self.disk.cmp(disk)
    }

    /// How many extents the log's volume has.
    pub fn extents(&self) -> u32
        ensures { result ≡ self.now.extents }
    {
        self.extents
    }

    /// What the first sector of the log's volume is to say.
    pub fn head(&self) -> Head
        ensures { let h : LogHead = record { tag = self.now.tag; since = self.now.since; pieces = length self.now.bits } in result ≡ h }
    {
        Head {
            tag: self.tag,
            since: self.since,
            pieces: self.bits.pieces(),
        }
    }

    /// The bits.
    pub fn bits(&self) -> &Bits
        ensures { result.now ≡ self.now.bits }
    {
        &self.bits
    }

    /// Whether the bits of all pieces are set that so many sectors of the disk from one on reach.
    pub fn is_touched(&self, sector: u64, count: u64) -> bool
        requires some { 1 ≤ count }
        ensures { result ≡ list_all (bit self.now.bits) (pieces_touched sector count) }
    {
        self.bits.are_marked(sector, count)
    }

    // Sets the bits of the pieces that so many sectors of the disk from one on reach.
    pub(crate) fn touch(&mut self, sector: u64, count: u64)
        requires some { 1 ≤ count }
        ensures { self.new ≡ touched sector count self.old }
    {
        self.bits.mark(sector, count);
    }

    // Clears all bits, and names the snapshot since which they are set anew.
    pub(crate) fn begin(&mut self, tag: u64)
        ensures { self.new ≡ begun_anew tag self.old }
    {
        self.since = tag;
        self.bits.clear();
    }
}

/// The place of the log of a disk, by halving, or the one where it belongs.
pub(crate) fn place(logs: &[Log], disk: &Uuid) -> Result<usize, usize>
    requires rising { IsRising logs.now }
    ensures found { IfOk result (IsPlace logs.now disk.now) }
    ensures none { IfErr result (IsSlot logs.now disk.now) }
{
    logs.binary_search_by(|log| log.order(disk))
}
