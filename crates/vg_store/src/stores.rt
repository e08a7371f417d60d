//! A volume group as a store of volumes. Of an earlier version it makes no commit, until it is taken over.

use crate::groups::Group;
use crate::volumes::{read_volume, write_volume};
use sm_base::{Failed, Geometry, Name, NoMemory};
use sm_disk::Disk;
use uuid::Uuid;
use vg_meta::{Change, Table};
use vg_upgrade::take_over;
use vg_volumes::{CURRENT_VERSION, Store, text_limit};

impl<D: Disk> Store for Group<D> {
    ghost use Rattle.std.specs.Prelude.{◌*◌, vec_len};
    ghost use Rattle.vg_meta.specs.Roomy.{table_alone};
    ghost use Rattle.vg_layout.specs.Fields.{layout_number, plate, pointer};
    ghost use Rattle.vg_store.specs.Groups.{LeavesGroup, area_of, beside_of};
    ghost use Rattle.vg_meta.specs.Text.{text};
    ghost use Rattle.vg_store.specs.Leaving.{leaves_early, leaves_one, leaves_reads};

    ghost told = { D.told };

    ghost site = { λ g. record { geometry = g.label.geometry; count = g.label.extents; layout = layout_number g.label.layout; identity = g.label.repository; sectors = D.size g.disk } };

    ghost table = { λ g. g.table };

    ghost area = { λ g. area_of (layout_number g.label.layout) (D.held g.disk) };

    ghost device = { λ g. D.held g.disk };

    ghost beside = { λ g. beside_of (layout_number g.label.layout) (g.label.extents * g.label.geometry.extent) (D.held g.disk) };

    ghost failed = { λ g. g.failed };

    ghost version = { λ g. g.version };

    ghost leaves = { λ g t image. LeavesGroup (D.size g.disk) (D.held g.disk) (plate g.label) t image };

    ghost faults = { λ g. D.faults g.disk };

    fn geometry(&self) -> Geometry {
        self.label.geometry
    }

    fn extents(&self) -> u32 {
        let _sectors = self.disk.sectors();
        self.label.extents
    }

    fn table(&self) -> &Table {
        &self.table
    }

    fn repository(&self) -> Uuid {
        self.label.repository
    }

    fn version(&self) -> u32 {
        self.version
    }

    fn upgrade(&mut self) -> Result<(), Failed> {
        if self.version == CURRENT_VERSION {
            return Ok(());
        }
        let header = take_over(&mut self.disk, &self.label, &self.table, &mut self.buffer)?;
        self.header = header;
        self.version = CURRENT_VERSION;
        self.failed = false;
        Ok(())
    }

    fn reserve_for(&mut self, change: &Change) -> Result<(), NoMemory> {
        match change {
            Change::Create { .. } => self.reserve_rows(1),
            Change::Grow { name, extents } => {
                if self.table.get(name).is_none() {
                    return Ok(());
                }
                self.table.reserve_extents(name, extents.as_slice().len())
            }
            Change::Remove { .. }
            | Change::Rename { .. }
            | Change::Cut { .. }
            | Change::Mark { .. } => Ok(()),
        }
    }

    fn reserve_rows(&mut self, rows: usize) -> Result<(), NoMemory> {
        self.table.reserve(rows)
    }

    fn is_ready(&self, change: &Change) -> bool {
        self.table.allows(change, self.extents())
            && self.table.has_room(change)
            && self.table.fits(change, text_limit(self.extents()))
    }

    fn commit(&mut self, change: Change) -> Result<(), Failed> {
        self.commit_change(change)
    }

    fn read(&mut self, volume: &Name, at: u64, to: &mut [u8]) -> Result<(), Failed> {
        let Some(volume) = self.table.get_near(volume, &mut self.near) else {
            unreachable!()
        };
        let extent = self.label.geometry.extent;
        read_volume(
            &mut self.disk,
            self.label.layout,
            extent,
            volume.extents(),
            at,
            to,
        )
    }

    fn write(&mut self, volume: &Name, at: u64, from: &[u8]) -> Result<(), Failed> {
        let Some(volume) = self.table.get_near(volume, &mut self.near) else {
            unreachable!()
        };
        let extent = self.label.geometry.extent;
        write_volume(
            &mut self.disk,
            self.label.layout,
            extent,
            volume.extents(),
            at,
            from,
        )
    }

    fn sync(&mut self) -> Result<(), Failed> {
        self.disk.sync()
    }

    ghost versions = { λ s. s.known.most };

    ghost current = { λ s usable. s.current usable };

    ghost leaves_old = { λ s told early t image left. leaves_early (D.size s.disk) (s.label.extents * s.label.geometry.extent) (D.held s.disk) (plate s.label) (pointer s.header) (table_alone s.table) t s.version (vec_len s.buffer) image s.area s.few s.known early s.room s.fits (s.taken told early) left };

    ghost leaves_now = { λ s told usable t image left. leaves_one (D.size s.disk) (s.label.extents * s.label.geometry.extent) (D.held s.disk) (plate s.label) (pointer s.header) (table_alone s.table) t (text (table_alone s.table)) image s.area (s.rests told usable) (s.summed usable) s.spelled left };

    ghost leaves_read = { λ s told usable. leaves_reads (D.size s.disk) (D.held s.disk) (plate s.label) (pointer s.header) (table_alone s.table) (text (table_alone s.table)) (s.rests told usable) (s.summed usable) s.spelled };
}
