//! The store in memory as a store of volumes.

ghost use Rattle.std.specs.Prelude.{◌≡◌, ◌≤◌, ℕ, List, true, false, ◌||◌, is_err, length, OnOk, OnErr};
ghost use Rattle.sm_disk.specs.Held.{IsCounted, IsWhole, SameHeld, Gave, Torn, Wrote, Keeps, IsSettled};
ghost use Rattle.sm_disk.specs.Failing.{fails};
ghost use Rattle.vg_meta.specs.Tables.{VolumeTable, rows, extents_of};
ghost use Rattle.vg_meta.specs.Roomy.{table_alone};
ghost use Rattle.vg_meta.specs.Changes.{Permits, HasRoom, applied};
ghost use Rattle.vg_volumes.specs.Commits.{IsEither, current_version};
ghost use Rattle.vg_volumes.specs.Sites.{area_size, size_of, volume_of, Fits, NoLessRoom, RoomAfter};
ghost use Rattle.vg_volumes.specs.Volumes.{SameElsewhere};
ghost use Rattle.vg_memory.specs.Stores.{LeavesMemory, HavePassed, IsCommitStopped, area_of, beside_none, has_failed};

use crate::memory::{Course, MemoryStore};
use crate::sectors::{read_sectors, write_sectors};
use sm_base::{Failed, Geometry, Name, NoMemory};
use sm_disk::Disk;
use uuid::Uuid;
use vg_meta::{Change, Table};
use vg_volumes::{CURRENT_VERSION, Store, text_limit};

impl Store for MemoryStore {
    ghost use Rattle.std.proofs.Common.{refl};
    ghost use Rattle.std.proofs.Math.Nat.{le_refl, lt_irrefl};
    ghost use Rattle.vg_memory.specs.Laws.{leaves_one, leaves_reads};

    ghost told = { Unit {0} };

    ghost site = { λ s. s.site };

    ghost table = { λ s. s.table };

    ghost area = { area_of };

    ghost device = { area_of };

    ghost beside = { λ s. beside_none };

    ghost failed = { λ s. has_failed s.course };

    ghost version = { λ s. current_version };

    ghost leaves = { λ s t image. LeavesMemory s t image };

    ghost faults = { λ s. s.faults };

    fn geometry(&self) -> Geometry {
        self.geometry
    }

    fn extents(&self) -> u32 {
        let _sectors = self.area.sectors();
        self.extents
    }

    fn table(&self) -> &Table {
        &self.table
    }

    fn repository(&self) -> Uuid {
        self.identity
    }

    fn version(&self) -> u32 {
        CURRENT_VERSION
    }

    fn upgrade(&mut self) -> Result<(), Failed> {
        Ok(())
    }

    fn reserve_for(&mut self, change: &Change) -> Result<(), NoMemory> {
        match change {
            Change::Create { .. } => self.reserve_rows(1),
            Change::Grow { name, extents } => {
                if self.table.get(name).is_none() {
                    return Ok(());
                }
                self.table.reserve_extents(name, extents.as_slice().len())
            }
            Change::Remove { .. }
            | Change::Rename { .. }
            | Change::Cut { .. }
            | Change::Mark { .. } => Ok(()),
        }
    }

    fn reserve_rows(&mut self, rows: usize) -> Result<(), NoMemory> {
        self.table.reserve(rows)
    }

    fn is_ready(&self, change: &Change) -> bool {
        self.table.allows(change, self.extents())
            && self.table.has_room(change)
            && self.table.fits(change, text_limit(self.extents))
    }

    fn commit(&mut self, change: Change) -> Result<(), Failed>
        requires usable { has_failed self.old.course ≡ false }
        requires allowed { Permits self.old.site.count (table_alone self.old.table) change }
        requires room { HasRoom self.old.table change }
        requires fits { Fits self.old.site.count (table_alone self.old.table) change }
        ensures site { self.new.site ≡ self.old.site }
        ensures counts { self.old.faults ≤ self.new.faults }
        ensures cause { IsCounted result self.old.faults self.new.faults }
        ensures changed { OnOk result ((table_alone self.new.table ≡ applied (table_alone self.old.table) change) × (has_failed self.new.course ≡ false)) }
        ensures unchanged { OnErr result ((table_alone self.new.table ≡ table_alone self.old.table) × (has_failed self.new.course ≡ true)) }
        ensures room_after { OnOk result (RoomAfter change self.old.table self.new.table) }
        ensures beside { Keeps beside_none beside_none }
        ensures keeps { Keeps (area_of self.old) (area_of self.new) }
        ensures settled { OnOk result (IsSettled (area_of self.new)) }
        ensures crash { (t : VolumeTable) (image : ℕ → List ℕ) → LeavesMemory self.new t image
            → IsEither (area_size self.old.site) (table_alone self.old.table) (applied (table_alone self.old.table) change) (area_of self.old) t image }
        ensures exact { is_err result ≡ (fails self.old.orders 0 || fails self.old.orders 1) }
        ensures passed { OnOk result (HavePassed 2 self.old.orders self.new.orders) }
        ensures stopped { IsCommitStopped change self.old self.new }
    {
        let Ok(()) = self.settle() else {
            self.course = Course::Stopped;
            return Err(Failed);
        };
        let Ok(()) = self.call() else {
            self.course = Course::Undecided { change };
            return Err(Failed);
        };
        self.table.apply(change);
        Ok(())
    }

    fn read(&mut self, volume: &Name, at: u64, to: &mut [u8]) -> Result<(), Failed>
        requires { IsWhole at (length to.old) (size_of self.old.site (table_alone self.old.table) volume.now) }
        ensures site { self.new.site ≡ self.old.site }
        ensures table { (table_alone self.new.table ≡ table_alone self.old.table) × (has_failed self.new.course ≡ has_failed self.old.course) }
        ensures no_less { NoLessRoom self.old.table self.new.table }
        ensures counts { self.old.faults ≤ self.new.faults }
        ensures cause { IsCounted result self.old.faults self.new.faults }
        ensures device { Keeps (area_of self.old) (area_of self.new) }
        ensures beside { Keeps beside_none beside_none }
        ensures same { SameHeld (area_of self.old) (area_of self.new) }
        ensures leaves { (t : VolumeTable) (image : ℕ → List ℕ) → LeavesMemory self.new t image → LeavesMemory self.old t image }
        ensures gave { OnOk result (Gave at (volume_of self.old.site (table_alone self.old.table) (area_of self.old) volume.now) to.new) }
        ensures exact { is_err result ≡ fails self.old.orders 0 }
        ensures passed { HavePassed 1 self.old.orders self.new.orders }
        ensures unchanged { (self.new.table ≡ self.old.table) × (self.new.course ≡ self.old.course) }
    {
        self.call()?;
        let Some(volume) = self.table.get(volume) else {
            unreachable!()
        };
        let extent = self.geometry.extent;
        read_sectors(&mut self.area, extent, volume.extents(), at, to);
        Ok(())
    }

    fn write(&mut self, volume: &Name, at: u64, from: &[u8]) -> Result<(), Failed>
        requires { IsWhole at (length from.now) (size_of self.old.site (table_alone self.old.table) volume.now) }
        ensures site { self.new.site ≡ self.old.site }
        ensures table { (table_alone self.new.table ≡ table_alone self.old.table) × (has_failed self.new.course ≡ has_failed self.old.course) }
        ensures no_less { NoLessRoom self.old.table self.new.table }
        ensures counts { self.old.faults ≤ self.new.faults }
        ensures cause { IsCounted result self.old.faults self.new.faults }
        ensures beside { Keeps beside_none beside_none }
        ensures torn { Torn at from.now
            (volume_of self.old.site (table_alone self.old.table) (area_of self.old) volume.now)
            (volume_of self.old.site (table_alone self.old.table) (area_of self.new) volume.now) }
        ensures wrote { OnOk result (Wrote at from.now
            (volume_of self.old.site (table_alone self.old.table) (area_of self.old) volume.now)
            (volume_of self.old.site (table_alone self.old.table) (area_of self.new) volume.now)) }
        ensures elsewhere { SameElsewhere self.old.site.geometry.extent
            (extents_of (rows (table_alone self.old.table) volume.now)) (area_of self.old) (area_of self.new) }
        ensures exact { is_err result ≡ (fails self.old.orders 0 || self.new.short) }
        ensures adds { self.new.short ≡ false → Wrote at from.now
            (volume_of self.old.site (table_alone self.old.table) (area_of self.old) volume.now)
            (volume_of self.old.site (table_alone self.old.table) (area_of self.new) volume.now) }
        ensures passed { HavePassed 1 self.old.orders self.new.orders }
        ensures unchanged { (self.new.table ≡ self.old.table) × (self.new.course ≡ self.old.course) }
    {
        let told = self.call();
        let Some(volume) = self.table.get(volume) else {
            unreachable!()
        };
        let extent = self.geometry.extent;
        write_sectors(&mut self.area, extent, volume.extents(), at, from)?;
        told
    }

    fn sync(&mut self) -> Result<(), Failed>
        ensures site { self.new.site ≡ self.old.site }
        ensures table { (table_alone self.new.table ≡ table_alone self.old.table) × (has_failed self.new.course ≡ has_failed self.old.course) }
        ensures no_less { NoLessRoom self.old.table self.new.table }
        ensures counts { self.old.faults ≤ self.new.faults }
        ensures cause { IsCounted result self.old.faults self.new.faults }
        ensures device { Keeps (area_of self.old) (area_of self.new) }
        ensures beside { Keeps beside_none beside_none }
        ensures keeps { Keeps (area_of self.old) (area_of self.new) }
        ensures leaves { (t : VolumeTable) (image : ℕ → List ℕ) → LeavesMemory self.new t image → LeavesMemory self.old t image }
        ensures settled { OnOk result (IsSettled (area_of self.new)) }
        ensures exact { is_err result ≡ fails self.old.orders 0 }
        ensures passed { HavePassed 1 self.old.orders self.new.orders }
        ensures unchanged { (self.new.table ≡ self.old.table) × (self.new.course ≡ self.old.course) }
        ensures failed { OnErr result (self.new.slots ≡ self.old.slots) }
    {
        self.settle()
    }

    ghost versions = { λ s. le_refl current_version };

    ghost current = { λ s usable. refl };

    ghost leaves_old = { λ s told old. absurd (lt_irrefl current_version old) };

    ghost leaves_now = { λ s told usable t image left. leaves_one s t image usable left };

    ghost leaves_read = { λ s told usable. leaves_reads s };
}
