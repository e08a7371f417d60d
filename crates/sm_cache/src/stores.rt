//! The cache as a store of volumes: the clauses of the trait, said of the store below, and then those on the entries.

ghost use Rattle.std.specs.Prelude.{◌≡◌, ◌≢◌, ◌<◌, ◌≤◌, ◌⊎◌, ℕ, List, true, false, length, IsOk, OnOk, OnErr};
ghost use Rattle.sm_disk.specs.Held.{Held, IsWhole, SameHeld, Gave, Torn, Wrote, Keeps, IsSettled, IsCounted};
ghost use Rattle.vg_meta.specs.Tables.{VolumeTable, rows, extents_of};
ghost use Rattle.vg_meta.specs.Roomy.{RoomyTable, table_alone};
ghost use Rattle.vg_meta.specs.Changes.{Permits, HasRoom, applied};
ghost use Rattle.vg_volumes.specs.Commits.{IsEither, current_version};
ghost use Rattle.vg_volumes.specs.Sites.{Site, area_size, size_of, volume_of, Fits, NoLessRoom, RoomAfter};
ghost use Rattle.vg_volumes.specs.Volumes.{SameElsewhere};
ghost use Rattle.sm_cache.specs.Kept.{HasEntry, HasNoEntry, dropped, emptied, in_front, with_entry};
ghost use Rattle.sm_cache.specs.Light.{is_light as is_light_of};

use crate::caches::Cache;
use crate::changes::is_light;
use crate::kept::{after_write, recall, remember};
use sm_base::{Failed, Geometry, Name, NoMemory};
use uuid::Uuid;
use vg_meta::{Change, Table};
use vg_volumes::Store;

impl<S: Store> Store for Cache<S> {
    ghost told = { S.told };

    ghost site = { λ c. S.site c.inner };

    ghost table = { λ c. S.table c.inner };

    ghost area = { λ c. S.area c.inner };

    ghost device = { λ c. S.device c.inner };

    ghost beside = { λ c. S.beside c.inner };

    ghost failed = { λ c. S.failed c.inner };

    ghost version = { λ c. S.version c.inner };

    ghost leaves = { λ c t image. S.leaves c.inner t image };

    ghost faults = { λ c. S.faults c.inner };

    fn geometry(&self) -> Geometry {
        self.inner.geometry()
    }

    fn extents(&self) -> u32 {
        self.inner.extents()
    }

    fn table(&self) -> &Table {
        self.inner.table()
    }

    fn repository(&self) -> Uuid {
        self.inner.repository()
    }

    fn version(&self) -> u32 {
        self.inner.version()
    }

    fn upgrade(&mut self) -> Result<(), Failed>
        ensures site { S.site self.new.inner ≡ S.site self.old.inner }
        ensures table { table_alone (S.table self.new.inner) ≡ table_alone (S.table self.old.inner) }
        ensures no_less { NoLessRoom (S.table self.old.inner) (S.table self.new.inner) }
        ensures counts { S.faults self.old.inner ≤ S.faults self.new.inner }
        ensures cause { IsCounted result (S.faults self.old.inner) (S.faults self.new.inner) }
        ensures current { OnOk result (S.version self.new.inner ≡ current_version) }
        ensures usable { OnOk result (S.version self.old.inner < current_version → S.failed self.new.inner ≡ false) }
        ensures unchanged { OnErr result ((S.version self.new.inner ≡ S.version self.old.inner) × (S.failed self.new.inner ≡ S.failed self.old.inner)) }
        ensures succeeds { S.version self.old.inner ≡ current_version → IsOk result }
        ensures same { S.version self.old.inner ≡ current_version → (S.area self.new.inner ≡ S.area self.old.inner) × (S.failed self.new.inner ≡ S.failed self.old.inner) }
        ensures device { S.version self.old.inner ≡ current_version → S.device self.new.inner ≡ S.device self.old.inner }
        ensures beside { S.told → Keeps (S.beside self.old.inner) (S.beside self.new.inner) }
        ensures keeps { S.told → Keeps (S.area self.old.inner) (S.area self.new.inner) }
        ensures leaves { S.told → (t : VolumeTable) (image : ℕ → List ℕ) → S.leaves self.new.inner t image → S.leaves self.old.inner t image }
        ensures settled { OnOk result (S.told → S.version self.old.inner < current_version → IsSettled (S.area self.new.inner)) }
        ensures kept { self.new.kept ≡ self.old.kept }
    {
        self.inner.upgrade()
    }

    fn reserve_for(&mut self, change: &Change) -> Result<(), NoMemory>
        ensures site { S.site self.new.inner ≡ S.site self.old.inner }
        ensures same { (S.area self.new.inner ≡ S.area self.old.inner) × (S.failed self.new.inner ≡ S.failed self.old.inner) × (S.faults self.new.inner ≡ S.faults self.old.inner) × (S.version self.new.inner ≡ S.version self.old.inner) }
        ensures device { (S.device self.new.inner ≡ S.device self.old.inner) × (S.beside self.new.inner ≡ S.beside self.old.inner) }
        ensures table { table_alone (S.table self.new.inner) ≡ table_alone (S.table self.old.inner) }
        ensures leaves { (t : VolumeTable) (image : ℕ → List ℕ) → S.leaves self.new.inner t image → S.leaves self.old.inner t image }
        ensures no_less { NoLessRoom (S.table self.old.inner) (S.table self.new.inner) }
        ensures made { OnOk result (Permits (S.site self.old.inner).count (table_alone (S.table self.old.inner)) change.now → HasRoom (S.table self.new.inner) change.now) }
        ensures kept { self.new.kept ≡ self.old.kept }
    {
        self.inner.reserve_for(change)
    }

    fn reserve_rows(&mut self, rows: usize) -> Result<(), NoMemory>
        ensures site { S.site self.new.inner ≡ S.site self.old.inner }
        ensures same { (S.area self.new.inner ≡ S.area self.old.inner) × (S.failed self.new.inner ≡ S.failed self.old.inner) × (S.faults self.new.inner ≡ S.faults self.old.inner) × (S.version self.new.inner ≡ S.version self.old.inner) }
        ensures device { (S.device self.new.inner ≡ S.device self.old.inner) × (S.beside self.new.inner ≡ S.beside self.old.inner) }
        ensures table { table_alone (S.table self.new.inner) ≡ table_alone (S.table self.old.inner) }
        ensures leaves { (t : VolumeTable) (image : ℕ → List ℕ) → S.leaves self.new.inner t image → S.leaves self.old.inner t image }
        ensures no_less { NoLessRoom (S.table self.old.inner) (S.table self.new.inner) }
        ensures made { OnOk result (rows ≤ (S.table self.new.inner).spare) }
        ensures kept { self.new.kept ≡ self.old.kept }
    {
        self.inner.reserve_rows(rows)
    }

    fn is_ready(&self, change: &Change) -> bool {
        self.inner.is_ready(change)
    }

    /// The store below makes the change. All entries go, whether it succeeds or fails, but where the change leaves the sectors of each
    /// volume where they are.
    fn commit(&mut self, change: Change) -> Result<(), Failed>
        requires usable { S.failed self.old.inner ≡ false }
        requires allowed { Permits (S.site self.old.inner).count (table_alone (S.table self.old.inner)) change }
        requires room { HasRoom (S.table self.old.inner) change }
        requires fits { Fits (S.site self.old.inner).count (table_alone (S.table self.old.inner)) change }
        ensures site { S.site self.new.inner ≡ S.site self.old.inner }
        ensures counts { S.faults self.old.inner ≤ S.faults self.new.inner }
        ensures cause { IsCounted result (S.faults self.old.inner) (S.faults self.new.inner) }
        ensures changed { OnOk result ((table_alone (S.table self.new.inner) ≡ applied (table_alone (S.table self.old.inner)) change) × (S.failed self.new.inner ≡ false)) }
        ensures unchanged { OnErr result ((table_alone (S.table self.new.inner) ≡ table_alone (S.table self.old.inner)) × (S.failed self.new.inner ≡ true)) }
        ensures room_after { OnOk result (RoomAfter change (S.table self.old.inner) (S.table self.new.inner)) }
        ensures beside { S.told → Keeps (S.beside self.old.inner) (S.beside self.new.inner) }
        ensures keeps { S.told → Keeps (S.area self.old.inner) (S.area self.new.inner) }
        ensures settled { OnOk result (S.told → IsSettled (S.area self.new.inner)) }
        ensures crash { S.told → (t : VolumeTable) (image : ℕ → List ℕ) → S.leaves self.new.inner t image
            → IsEither (area_size (S.site self.old.inner)) (table_alone (S.table self.old.inner)) (applied (table_alone (S.table self.old.inner)) change) (S.area self.old.inner) t image }
        ensures light { is_light_of change ≡ true → self.new.kept ≡ self.old.kept }
        ensures emptied { is_light_of change ≡ false → self.new.kept ≡ emptied self.old.kept }
    {
        // It is called for what it says of the table.
        let _table = self.inner.table();
        let light = is_light(&change);
        let done = self.inner.commit(change);
        if !light {
            self.kept.clear();
        }
        done
    }

    /// A sector that is kept is answered from its entry, which comes first; the store below is as it was. Of any other read the store
    /// below gives the answer; where this was one sector its entry comes first, but where there is no memory for it.
    fn read(&mut self, volume: &Name, at: u64, to: &mut [u8]) -> Result<(), Failed>
        requires { IsWhole at (length to.old) (size_of (S.site self.old.inner) (table_alone (S.table self.old.inner)) volume.now) }
        ensures site { S.site self.new.inner ≡ S.site self.old.inner }
        ensures table { (table_alone (S.table self.new.inner) ≡ table_alone (S.table self.old.inner)) × (S.failed self.new.inner ≡ S.failed self.old.inner) × (S.version self.new.inner ≡ S.version self.old.inner) }
        ensures no_less { NoLessRoom (S.table self.old.inner) (S.table self.new.inner) }
        ensures counts { S.faults self.old.inner ≤ S.faults self.new.inner }
        ensures cause { IsCounted result (S.faults self.old.inner) (S.faults self.new.inner) }
        ensures device { S.told → Keeps (S.device self.old.inner) (S.device self.new.inner) }
        ensures beside { S.told → Keeps (S.beside self.old.inner) (S.beside self.new.inner) }
        ensures same { S.told → SameHeld (S.area self.old.inner) (S.area self.new.inner) }
        ensures leaves { S.told → (t : VolumeTable) (image : ℕ → List ℕ) → S.leaves self.new.inner t image → S.leaves self.old.inner t image }
        ensures gave { OnOk result (S.told → Gave at (volume_of (S.site self.old.inner) (table_alone (S.table self.old.inner)) (S.area self.old.inner) volume.now) to.new) }
        ensures hit { (v : List ℕ) → HasEntry self.old.kept volume.now at (length to.old) v → IsOk result × (to.new ≡ v) × (self.new.inner ≡ self.old.inner) }
        ensures front { (v : List ℕ) → HasEntry self.old.kept volume.now at (length to.old) v → self.new.kept ≡ in_front volume.now at v self.old.kept }
        ensures enters { HasNoEntry self.old.kept volume.now at (length to.old)
            → OnOk result ((self.new.kept ≡ with_entry volume.now at to.new self.old.kept) ⊎ (self.new.kept ≡ self.old.kept)) }
        ensures bad { OnErr result (self.new.kept ≡ self.old.kept) }
        ensures longer { length to.old ≢ 512 → self.new.kept ≡ self.old.kept }
    {
        if to.len() != 512 {
            return self.inner.read(volume, at, to);
        }
        if recall(&mut self.kept, volume, at, to) {
            return Ok(());
        }
        let done = self.inner.read(volume, at, to);
        if done.is_ok() {
            remember(&mut self.kept, volume, at, to);
        }
        done
    }

    /// The store below is written first. Where that was one sector which is kept, its entry has the new bytes and comes first; no entry is
    /// made. A longer write, and one that failed, drops the entries of its sectors.
    fn write(&mut self, volume: &Name, at: u64, from: &[u8]) -> Result<(), Failed>
        requires { IsWhole at (length from.now) (size_of (S.site self.old.inner) (table_alone (S.table self.old.inner)) volume.now) }
        ensures site { S.site self.new.inner ≡ S.site self.old.inner }
        ensures table { (table_alone (S.table self.new.inner) ≡ table_alone (S.table self.old.inner)) × (S.failed self.new.inner ≡ S.failed self.old.inner) × (S.version self.new.inner ≡ S.version self.old.inner) }
        ensures no_less { NoLessRoom (S.table self.old.inner) (S.table self.new.inner) }
        ensures counts { S.faults self.old.inner ≤ S.faults self.new.inner }
        ensures cause { IsCounted result (S.faults self.old.inner) (S.faults self.new.inner) }
        ensures beside { S.told → Keeps (S.beside self.old.inner) (S.beside self.new.inner) }
        ensures torn { S.told → Torn at from.now
            (volume_of (S.site self.old.inner) (table_alone (S.table self.old.inner)) (S.area self.old.inner) volume.now)
            (volume_of (S.site self.old.inner) (table_alone (S.table self.old.inner)) (S.area self.new.inner) volume.now) }
        ensures wrote { OnOk result (S.told → Wrote at from.now
            (volume_of (S.site self.old.inner) (table_alone (S.table self.old.inner)) (S.area self.old.inner) volume.now)
            (volume_of (S.site self.old.inner) (table_alone (S.table self.old.inner)) (S.area self.new.inner) volume.now)) }
        ensures elsewhere { S.told → SameElsewhere (S.site self.old.inner).geometry.extent
            (extents_of (rows (table_alone (S.table self.old.inner)) volume.now)) (S.area self.old.inner) (S.area self.new.inner) }
        ensures renewed { OnOk result ((v : List ℕ) → HasEntry self.old.kept volume.now at (length from.now) v → self.new.kept ≡ in_front volume.now at from.now self.old.kept) }
        ensures none { OnOk result (HasNoEntry self.old.kept volume.now at (length from.now) → self.new.kept ≡ self.old.kept) }
        ensures longer { length from.now ≢ 512 → self.new.kept ≡ dropped volume.now at (length from.now) self.old.kept }
        ensures bad { OnErr result (self.new.kept ≡ dropped volume.now at (length from.now) self.old.kept) }
    {
        // Both are called for what they say of the sizes.
        let _table = self.inner.table();
        let _extents = self.inner.extents();
        let done = self.inner.write(volume, at, from);
        after_write(&mut self.kept, volume, at, from, &done);
        done
    }

    fn sync(&mut self) -> Result<(), Failed>
        ensures site { S.site self.new.inner ≡ S.site self.old.inner }
        ensures table { (table_alone (S.table self.new.inner) ≡ table_alone (S.table self.old.inner)) × (S.failed self.new.inner ≡ S.failed self.old.inner) × (S.version self.new.inner ≡ S.version self.old.inner) }
        ensures no_less { NoLessRoom (S.table self.old.inner) (S.table self.new.inner) }
        ensures counts { S.faults self.old.inner ≤ S.faults self.new.inner }
        ensures cause { IsCounted result (S.faults self.old.inner) (S.faults self.new.inner) }
        ensures device { S.told → Keeps (S.device self.old.inner) (S.device self.new.inner) }
        ensures beside { S.told → Keeps (S.beside self.old.inner) (S.beside self.new.inner) }
        ensures keeps { S.told → Keeps (S.area self.old.inner) (S.area self.new.inner) }
        ensures leaves { S.told → (t : VolumeTable) (image : ℕ → List ℕ) → S.leaves self.new.inner t image → S.leaves self.old.inner t image }
        ensures settled { OnOk result (S.told → IsSettled (S.area self.new.inner)) }
        ensures kept { self.new.kept ≡ self.old.kept }
    {
        self.inner.sync()
    }

    ghost versions = { λ c. S.versions c.inner };

    ghost current = { λ c usable. S.current c.inner usable };

    ghost leaves_old = { λ c told old t image left. S.leaves_old c.inner told old t image left };

    ghost leaves_now = { λ c told usable t image left. S.leaves_now c.inner told usable t image left };

    ghost leaves_read = { λ c told usable. S.leaves_read c.inner told usable };
}
