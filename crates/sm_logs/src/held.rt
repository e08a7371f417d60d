//! The logs of a repository, in memory.

ghost use Rattle.std.specs.Prelude.{◌≡◌, ◌≤◌, ◌<◌, ◌+◌, ◌*◌, [], ℕ, None, Some, IfOk, IfSome, MatchOption, OnErr, IsSome, is_some, length};
ghost use Rattle.std.specs.Option.{option_copied};
ghost use Rattle.std.specs.String.{string_bytes};
ghost use Rattle.sm_log.specs.Logs.{Log, begun_anew, changed, log_of, on_log, piece_sectors, touched, with_log, without_log};
ghost use Rattle.sm_logs.specs.Held.{IsRising, is_touched, told};

use crate::rows::{Log, place};
use crate::walks::{leads, united};
use sm_base::NoMemory;
use sm_log::{Bits, spelled_first};
use std::alloc::Global;
use std::marker::Model;
use uuid::Uuid;

/// The most logs that there are: one for each disk.
pub const LOG_LIMIT: usize = 500;

/// The logs, in order of their disks' UUIDs. A contract sees them as a list.
#[derive(Drop)]
pub struct Logs {
    rows: Vec<Log>,
}

impl Model for Logs {
    ghost use Rattle.std.specs.Prelude.{List, vec_capacity};
    ghost use Rattle.sm_log.specs.Logs.{Log};
    ghost use Rattle.sm_logs.specs.Held.{AreHeld};

    ghost Value = { List Log };

    ghost view = { λ a. a.rows.items };

    ghost invariant = { λ a. AreHeld a.rows.items (vec_capacity a.rows) };
}

impl Logs {
    /// No log, and places for 500.
    pub fn new(alloc: Global) -> Result<Logs, NoMemory>
        ensures { IfOk result (λ logs. logs ≡ []) }
    {
        let Ok(rows) = Vec::with_capacity(alloc, LOG_LIMIT) else {
            return Err(NoMemory);
        };
        Ok(Logs { rows })
    }

    /// The logs, in order of their disks' UUIDs.
    pub fn rows(&self) -> &[Log]
        ensures rows { result.now ≡ self.now }
        ensures rising { IsRising self.now }
    {
        &self.rows
    }

    /// The log of a disk, or `None` exactly where it has none.
    pub fn get(&self, disk: &Uuid) -> Option<&Log>
        ensures { option_copied result ≡ log_of disk.now self.now }
    {
        let Ok(at) = place(&self.rows, disk) else {
            return None;
        };
        Some(&self.rows[at])
    }

    /// Puts in the log of a disk that has none. It takes no memory.
    pub fn insert(&mut self, log: Log)
        requires absent { log_of log.disk self.old ≡ None }
        requires room { length self.old < 500 }
        ensures { self.new ≡ with_log log self.old }
    {
        let Err(at) = place(&self.rows, &log.disk()) else {
            unreachable!()
        };
        let _ = self.rows.insert(at, log);
    }

    /// Takes out the log of a disk, which is `None` exactly where it has none.
    pub fn remove(&mut self, disk: &Uuid) -> Option<Log>
        ensures taken { result ≡ log_of disk.now self.old }
        ensures rest { self.new ≡ without_log disk.now self.old }
    {
        let Ok(at) = place(&self.rows, disk) else {
            return None;
        };
        Some(self.rows.remove(at))
    }

    /// The log of a disk, where it has one, begins anew since the snapshot with this tag: no bit of it is set.
    pub fn begin(&mut self, disk: &Uuid, tag: u64)
        ensures { self.new ≡ on_log disk.now (begun_anew tag) self.old }
    {
        let Ok(at) = place(&self.rows, disk) else {
            return;
        };
        let log = &mut self.rows[at];
        log.begin(tag);
    }

    /// Whether a disk has no log, or its log has the bits set of all pieces that so many of the disk's sectors from one on reach.
    pub fn is_touched(&self, disk: &Uuid, sector: u64, count: u64) -> bool
        requires some { 1 ≤ count }
        ensures { result ≡ is_touched disk.now sector count self.now }
    {
        match self.get(disk) {
            Some(log) => log.is_touched(sector, count),
            None => true,
        }
    }

    /// Sets in the log of a disk, where it has one, the bits of the pieces that so many of its sectors from one on reach; pieces behind the
    /// last are nothing.
    pub fn touch(&mut self, disk: &Uuid, sector: u64, count: u64)
        requires some { 1 ≤ count }
        ensures { self.new ≡ on_log disk.now (touched sector count) self.old }
    {
        let Ok(at) = place(&self.rows, disk) else {
            return;
        };
        let log = &mut self.rows[at];
        log.touch(sector, count);
    }

    /// Whether the logs lead from the later of two disks back to the earlier one, or both are one disk: then there is an answer to what changed
    /// between their snapshots.
    pub fn leads(&self, earlier: &Uuid, later: &Uuid) -> bool
        ensures { (pieces : ℕ) → result ≡ is_some (changed pieces earlier.now later.now self.now) }
    {
        if earlier == later {
            return true;
        }
        match self.get(later) {
            Some(log) => leads(&self.rows, log, earlier, self.rows.len()),
            None => false,
        }
    }

    /// What changed between the snapshots of two disks, as text: a bit for each piece of a disk with so many. It is `None` exactly where
    /// `changed` is.
    pub fn told(
        &self,
        alloc: Global,
        earlier: &Uuid,
        later: &Uuid,
        pieces: u32,
    ) -> Result<Option<String>, NoMemory>
        ensures told { IfOk result (λ text. MatchOption text (told pieces earlier.now later.now self.now ≡ None)
            (λ t. told pieces earlier.now later.now self.now ≡ Some (string_bytes t))) }
        ensures memory { OnErr result (IsSome (changed pieces earlier.now later.now self.now)) }
    {
        let Some(bits) = self.changed(alloc, earlier, later, pieces)? else {
            return Ok(None);
        };
        let text = spelled_first(alloc, bits, pieces)?;
        Ok(Some(text))
    }

    /// The pieces, of a disk with so many, that may have been written between the snapshots of two disks; `None` exactly where the logs do
    /// not lead from the later one back to the earlier one, which takes no memory.
    pub fn changed(
        &self,
        alloc: Global,
        earlier: &Uuid,
        later: &Uuid,
        pieces: u32,
    ) -> Result<Option<Bits>, NoMemory>
        ensures changed { IfOk result (λ bits. bits ≡ changed pieces earlier.now later.now self.now) }
        ensures memory { OnErr result (IsSome (changed pieces earlier.now later.now self.now)) }
    {
        if earlier == later {
            let bits = Bits::new(alloc, pieces)?;
            return Ok(Some(bits));
        }
        let Some(log) = self.get(later) else {
            return Ok(None);
        };
        united(alloc, &self.rows, log, earlier, pieces, self.rows.len())
    }
}
