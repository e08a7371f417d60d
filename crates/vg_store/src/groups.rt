//! A volume group on a device.

ghost use Rattle.std.specs.Prelude.{◌≡◌, ◌≤◌, ◌<◌, ◌+◌, ◌*◌, ℕ, List, false, IfOk, IfErr, length, sum, vec_len};
ghost use Rattle.std.proofs.Props.{props};
ghost use Rattle.sm_disk.specs.Held.{Allows, Keeps, IsSettled, reads};
ghost use Rattle.vg_meta.specs.Roomy.{table_alone};
ghost use Rattle.vg_meta.specs.Tables.{VolumeTable};
ghost use Rattle.vg_meta.specs.Text.{text};
ghost use Rattle.vg_meta.specs.Reading.{Spells};
ghost use Rattle.vg_layout.specs.Fields.{layout_number, plate, pointer};
ghost use Rattle.vg_layout.specs.Opening.{StandsOn, IsRefused, version_of};
ghost use Rattle.vg_layout.specs.Places.{area_place, frame_of, most_extents, slot_bytes};
ghost use Rattle.vg_volumes.specs.Commits.{IsBefore, current_version};
ghost use Rattle.vg_store.specs.Groups.{IsVersionOf, Rests, GroupStands, LeavesGroup, area_of};
ghost use Rattle.vg_upgrade.specs.Upgrades.{IsBeingTaken};
ghost use Rattle.vg_store.specs.Openings.{IsAnswer};
ghost use Rattle.vg_meta.specs.Proper.{IsName-prop};
ghost use Rattle.vg_store.specs.Proper.{GroupStands-prop};

use crate::openings::{Found, find};
use sm_base::{Geometry, OpenFault};
use sm_disk::Disk;
use std::alloc::Global;
use uuid::Uuid;
use vg_layout::{GroupLabel, TableHeader};
use vg_meta::Table;
use vg_volumes::CURRENT_VERSION;

/// A volume group on a device, of version 1 or 2. Its table stands in memory. In version 2, while no commit has failed, the label,
/// the header and the text of this very table are the only ones that a stop may leave. In version 1 no commit is made; it stands
/// as it was found, or an upgrade has begun to take it over.
pub struct Group<D: Disk> {
    pub(crate) disk: D,
    pub(crate) label: GroupLabel,
    pub(crate) version: u32,
    pub(crate) header: TableHeader,
    pub(crate) table: Table,
    pub(crate) buffer: Vec<u8>,
    // No commit may be made: one has failed, or the version is an earlier one.
    pub(crate) failed: bool,
    // The place in the table at which the volume stood that was read or written last: the next one is sought from there on.
    pub(crate) near: usize,
    // The extents are as few as the layout has, and on the device.
    ghost few: { label.extents ≤ most_extents (layout_number label.layout) },
    ghost area: { area_place (layout_number label.layout) + label.extents * label.geometry.extent ≤ D.size disk },
    // The version may have the layout.
    ghost known: { IsVersionOf version (layout_number label.layout) } by { Prim.hlevel props },
    // The buffer has the bytes of a slot of the current version.
    ghost room: { vec_len buffer ≡ slot_bytes (frame_of current_version (layout_number label.layout)) },
    // The table has a text by segments, and the buffer has room for it.
    ghost spelled: { Spells label.extents (text (table_alone table)) (table_alone table) } by { Prim.hlevel (props, IsName-prop) },
    ghost fits: { length (text (table_alone table)) ≤ vec_len buffer },
    // While a commit may be made, the version is the current one, and the header has the sum of that text.
    ghost current: { failed ≡ false → version ≡ current_version },
    ghost summed: { failed ≡ false → sum (text (table_alone table)) ≡ header.sum },
    // And the text stands on the device, where a stop leaves nothing else in front of the extents.
    ghost rests: { D.told → failed ≡ false → Rests (D.size disk) (D.held disk) (plate label) (pointer header) (text (table_alone table)) } by { Prim.hlevel props },
    // While the version is an earlier one, the group is one of that version, which an upgrade may have begun to take over.
    ghost taken: { D.told → version < current_version → IsBeingTaken (D.size disk) (D.held disk) (plate label) (pointer header) (table_alone table) } by { Prim.hlevel (props, IsName-prop) },
    // Whatever a stop leaves, also after a commit that failed, a group with this label stands there.
    ghost stands: { D.told → (image : ℕ → List ℕ) → Allows (D.size disk) (D.held disk) image → GroupStands (D.size disk) image (plate label) } by { Prim.hlevel (props, GroupStands-prop) },
}

impl<D: Disk> Group<D> {
    /// Opens the group on a device: a sync, so that what a read gives lasts, and then the five checks, of which the first that
    /// fails gives the answer. Behind the label a buffer for the texts of its layout is taken. Nothing is written.
    ///
    /// # Errors
    ///
    /// The answer of the first check that fails, a fault of the device, or want of memory, with the device handed
    /// back.
    pub fn open(alloc: Global, disk: D) -> Result<Group<D>, (OpenFault, D)>
        ensures size { IfOk result (λ g. D.size g.disk ≡ D.size disk) }
        ensures calm { IfOk result (λ g. D.faults g.disk ≡ D.faults disk) }
        ensures keeps { IfOk result (λ g. D.told → Keeps (D.held disk) (D.held g.disk)) }
        ensures area { IfOk result (λ g. D.told → Keeps (area_of (layout_number g.label.layout) (D.held disk)) (area_of (layout_number g.label.layout) (D.held g.disk))) }
        ensures settled { IfOk result (λ g. D.told → IsSettled (D.held g.disk)) }
        ensures usable { IfOk result (λ g. g.version ≡ current_version → g.failed ≡ false) }
        ensures version { IfOk result (λ g. D.told → version_of (reads (D.held disk)) ≡ g.version) }
        ensures stands { IfOk result (λ g. D.told → StandsOn (D.size disk) (reads (D.held disk)) (record { plate = plate g.label; pointer = pointer g.header; table = table_alone g.table })) }
        ensures size_back { IfErr result (λ e. D.size e.1 ≡ D.size disk) }
        ensures counts_back { IfErr result (λ e. D.faults disk ≤ D.faults e.1) }
        ensures keeps_back { IfErr result (λ e. D.told → Keeps (D.held disk) (D.held e.1)) }
        ensures err { IfErr result (λ e. IsAnswer (λ f. D.told → IsRefused (D.size disk) (reads (D.held disk)) f) (D.faults disk) (D.faults e.1) e.0) }
    {
        let mut disk = disk;
        let Ok(()) = disk.sync() else {
            return Err((OpenFault::Device, disk));
        };
        match find(alloc, &mut disk) {
            Ok(
                Found {
                    label,
                    version,
                    header,
                    table,
                    buffer,
                },
            ) => Ok(Group {
                disk,
                label,
                version,
                header,
                table,
                buffer,
                failed: version != CURRENT_VERSION,
                near: 0,
            }),
            Err(fault) => Err((fault, disk)),
        }
    }

    /// The sizes that the repository was formatted with.
    pub fn geometry(&self) -> Geometry
        ensures { result ≡ self.now.label.geometry }
    {
        self.label.geometry
    }

    /// The number of extents.
    pub fn extents(&self) -> u32
        ensures { result ≡ self.now.label.extents }
    {
        self.label.extents
    }

    /// The repository's UUID.
    pub fn repository(&self) -> Uuid
        ensures { result ≡ self.now.label.repository }
    {
        self.label.repository
    }

    /// The version of the repository.
    pub fn version(&self) -> u32
        ensures { result ≡ self.now.version }
    {
        self.version
    }

    /// The table of volumes.
    pub fn table(&self) -> &Table
        ensures { result.now ≡ self.now.table }
    {
        &self.table
    }

    /// The device, as it is. No call is made on it.
    pub fn into_disk(self) -> D
        ensures disk { result ≡ self.disk }
        ensures leaves { D.told → self.failed ≡ false → (t : VolumeTable) (image : ℕ → List ℕ)
            → LeavesGroup (D.size result) (D.held result) (plate self.label) t image
            → IsBefore (self.label.extents * self.label.geometry.extent) (table_alone self.table) (area_of (layout_number self.label.layout) (D.held result)) t image }
        ensures leaves_old { D.told → self.version < current_version → (t : VolumeTable) (image : ℕ → List ℕ)
            → LeavesGroup (D.size result) (D.held result) (plate self.label) t image
            → IsBefore (self.label.extents * self.label.geometry.extent) (table_alone self.table) (area_of (layout_number self.label.layout) (D.held result)) t image }
        ensures stands { D.told → (image : ℕ → List ℕ) → Allows (D.size result) (D.held result) image → GroupStands (D.size result) image (plate self.label) }
    {
        let Group {
            disk,
            label: _,
            version: _,
            header: _,
            table: _,
            buffer: _,
            failed: _,
            near: _,
        } = self;
        disk
    }
}
