//! A store of volumes in memory.

ghost use Rattle.std.specs.Prelude.{◌≡◌, ◌≤◌, ◌-◌, ◌^◌, ◌↔◌, min, IsTrue, is_err, OnOk, OnErr, IfOk};
ghost use Rattle.sm_base.specs.Limits.{extent_limit};
ghost use Rattle.sm_disk.specs.Held.{IsCounted, IsSettled, Keeps};
ghost use Rattle.sm_disk.specs.Failing.{HasPassed, Names, Stops, fails};
ghost use Rattle.vg_layout.specs.Places.{record_extents};
ghost use Rattle.vg_volumes.specs.Sites.{size_of};
ghost use Rattle.vg_memory.specs.Stores.{IsNewStore, area_of, has_failed};
ghost use Rattle.vg_memory.specs.Accepting.{CanCommit};
ghost use Rattle.vg_meta.specs.Roomy.{table_alone};

use crate::accepting::has_room;
use sm_base::{Failed, Geometry, Name, NoMemory};
use sm_disk::{Disk, MemDisk};
use std::alloc::Global;
use std::marker::Model;
use uuid::Uuid;
use vg_layout::record_extents;
use vg_meta::{Change, Table};
use vg_volumes::text_limit;

/// How the commits of a store have gone.
#[derive(Drop)]
pub enum Course {
    /// None has failed.
    Sound,
    /// One has failed, and the table is as before.
    Stopped,
    /// One has failed as it took effect. A stop leaves the table, or what this change makes of it.
    Undecided { change: Change },
}

impl Course {
    /// Whether a commit has failed.
    fn has_failed(&self) -> bool
        ensures { result ≡ has_failed self.now }
    {
        match self {
            Course::Sound => false,
            Course::Stopped | Course::Undecided { .. } => true,
        }
    }
}

/// A store of volumes in memory. It tells what it holds.
#[derive(Drop)]
pub struct MemoryStore {
    pub(crate) geometry: Geometry,
    pub(crate) extents: u32,
    pub(crate) identity: Uuid,
    pub(crate) table: Table,
    /// The sectors of all extents. No call of it is told to fail.
    pub(crate) area: MemDisk,
    /// A device without sectors: a sync of it counts a call, and fails where the call is to fail.
    pub(crate) calls: MemDisk,
    pub(crate) course: Course,
}

impl Model for MemoryStore {
    ghost use Rattle.std.specs.Prelude.{◌+◌, ◌*◌};
    ghost use Rattle.vg_memory.specs.Stores.{StoreInMemory, HoldsGroup};

    ghost Value = { StoreInMemory };

    ghost view = { λ s. record {
      site = record { geometry = s.geometry; count = s.extents; layout = 0; identity = s.identity; sectors = s.extents * s.geometry.extent };
      table = s.table;
      slots = s.area.slots;
      course = s.course;
      orders = s.calls.orders;
      faults = s.calls.faults + s.area.faults;
      short = s.area.short;
    } };

    ghost invariant = { λ s. HoldsGroup s.geometry.extent s.extents s.table s.area };
}

impl MemoryStore {
    /// The store of a new repository: the volume of the records alone, on the first extents, all sectors zeros and
    /// nothing pending. The repository's UUID is nil, and no call fails.
    ///
    /// # Errors
    ///
    /// Want of memory.
    pub fn new(alloc: Global, geometry: Geometry, extents: u32) -> Result<MemoryStore, NoMemory>
        requires records { record_extents geometry.extent ≤ extents }
        requires few { extents ≤ extent_limit }
        ensures new { IfOk result (λ s. IsNewStore geometry extents s) }
    {
        let table = Table::formatted(alloc, record_extents(&geometry))?;
        let sectors = u64::from(extents) * u64::from(geometry.extent);
        let area = MemDisk::new(alloc, sectors)?;
        let calls = MemDisk::new(alloc, 0)?;
        Ok(MemoryStore {
            geometry,
            extents,
            identity: Uuid::nil(),
            table,
            area,
            calls,
            course: Course::Sound,
        })
    }

    /// The calls with these numbers fail too, counted from 0, the next call: a commit makes two calls, the sync of the
    /// area and the flip to the changed table; a read, a write and a sync are one each. A write among them still leaves
    /// all its sectors pending.
    ///
    /// # Errors
    ///
    /// Want of memory, and nothing has changed.
    pub fn fail(&mut self, alloc: Global, calls: &[u64]) -> Result<(), NoMemory>
        ensures named { OnOk result (Names calls.now self.old.orders self.new.orders) }
        ensures rest { self.new ≡ record self.old { orders = self.new.orders } }
        ensures unchanged { OnErr result (self.new ≡ self.old) }
    {
        self.calls.fail(alloc, calls)
    }

    /// This call and every later one fail too.
    pub fn stop(&mut self, call: u64)
        ensures stops { Stops call self.old.orders self.new.orders }
        ensures rest { self.new ≡ record self.old { orders = self.new.orders } }
    {
        self.calls.stop(call);
    }

    /// Whether `commit` takes a change: no commit has failed, the change is allowed, there is room for it, and the text
    /// of the table that it leaves is short enough.
    pub fn accepts(&self, change: &Change) -> bool
        ensures can { IsTrue result ↔ CanCommit self.now change.now }
    {
        if self.course.has_failed() || !self.table.allows(change, self.extents) {
            return false;
        }
        has_room(&self.table, change) && self.table.fits(change, text_limit(self.extents))
    }

    /// The sectors of a volume, at most 2^64 - 1, and 0 where there is none of the name.
    pub fn size(&self, volume: &Name) -> u64
        ensures { result ≡ min (size_of self.now.site (table_alone self.now.table) volume.now) (2 ^ 64 - 1) }
    {
        match self.table.get(volume) {
            Some(volume) => (volume.extents().len() as u64).saturating_mul(u64::from(
                self.geometry.extent,
            )),
            None => 0,
        }
    }

    /// Counts a call, which fails where it was told to.
    pub(crate) fn call(&mut self) -> Result<(), Failed>
        ensures rest { self.new ≡ record self.old { orders = self.new.orders; faults = self.new.faults } }
        ensures counts { self.old.faults ≤ self.new.faults }
        ensures cause { IsCounted result self.old.faults self.new.faults }
        ensures exact { is_err result ≡ fails self.old.orders 0 }
        ensures passed { HasPassed self.old.orders self.new.orders }
    {
        self.calls.sync()
    }

    /// A call that makes all that was written last.
    pub(crate) fn settle(&mut self) -> Result<(), Failed>
        ensures rest { self.new ≡ record self.old { slots = self.new.slots; orders = self.new.orders; faults = self.new.faults; short = self.new.short } }
        ensures counts { self.old.faults ≤ self.new.faults }
        ensures cause { IsCounted result self.old.faults self.new.faults }
        ensures exact { is_err result ≡ fails self.old.orders 0 }
        ensures passed { HasPassed self.old.orders self.new.orders }
        ensures unchanged { OnErr result (self.new.slots ≡ self.old.slots) }
        ensures keeps { Keeps (area_of self.old) (area_of self.new) }
        ensures settled { OnOk result (IsSettled (area_of self.new)) }
    {
        self.call()?;
        let Ok(()) = self.area.sync() else {
            unreachable!()
        };
        Ok(())
    }
}
