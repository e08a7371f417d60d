//! The trait of a store of volumes.

ghost use Rattle.std.specs.Prelude.{◌↔◌, ◌≡◌, ◌≤◌, ◌<◌, ◌+◌, ℕ, List, Bool, true, false, length, IsOk, OnOk, OnErr, IsTrue};
ghost use Rattle.sm_base.specs.Limits.{extent_limit};
ghost use Rattle.sm_disk.specs.Held.{Held, IsWhole, SameHeld, Gave, Torn, Wrote, Keeps, IsSettled, HasSectors, IsCounted, reads};
ghost use Rattle.vg_meta.specs.Tables.{VolumeTable, IsTable, rows, extents_of};
ghost use Rattle.vg_meta.specs.Roomy.{RoomyTable, table_alone, places};
ghost use Rattle.vg_meta.specs.Changes.{Permits, HasRoom, applied};
ghost use Rattle.vg_volumes.specs.Commits.{IsBefore, IsEither, current_version};
ghost use Rattle.vg_volumes.specs.Sites.{Site, area_size, size_of, volume_of, Fits, NoLessRoom, RoomAfter, text_limit};
ghost use Rattle.vg_volumes.specs.Volumes.{SameElsewhere};

use sm_base::{Failed, Geometry, Name, NoMemory};
use uuid::Uuid;
use vg_meta::{Change, Table};

/// The version of a repository by which commits are made.
pub const CURRENT_VERSION: u32 = 2;

/// The most bytes that a table's text may have where a group has so many extents: those of a slot of the narrow layout, or of
/// the wide one.
pub fn text_limit(extents: u32) -> u32
    ensures { result ≡ text_limit extents }
{
    if extents <= 65_536 {
        1_047_040
    } else {
        8_519_680
    }
}

/// A store of volumes. Clauses on content hold where the store tells its content (`told`).
pub trait Store {
    /// Whether what the store holds is told: a fact that holds, or one that never does.
    ghost told: { Type 0 };

    /// What never changes: the sizes, the number of extents and their layout, the repository's UUID, and how large the device is.
    ghost site: { Self → Site };

    /// The table, and beside it the spare numbers.
    ghost table: { Self → RoomyTable };

    /// The sectors of all extents: what they hold, and what a crash may leave of them.
    ghost area: { Self → Held };

    /// What is held of the whole device that the store stands on.
    ghost device: { Self → Held };

    /// What is held of the device's places that are no part of the store.
    ghost beside: { Self → Held };

    /// No commit may be made: one has failed, or the repository is of an earlier version.
    ghost failed: { Self → Bool };

    /// The version of the repository.
    ghost version: { Self → ℕ };

    /// What a stop may leave: a table, and the sectors of the area.
    ghost leaves: { Self → VolumeTable → (ℕ → List ℕ) → Type 0 };

    /// How many calls have failed. It never falls.
    ghost faults: { Self → ℕ };

    /// The sizes that the repository was formatted with.
    fn geometry(&self) -> Geometry
        ensures { result ≡ (site self.now).geometry };

    /// The number of extents, at most 1,048,576.
    fn extents(&self) -> u32
        ensures count { result ≡ (site self.now).count }
        ensures few { (site self.now).count ≤ extent_limit }
        ensures sectors { told → HasSectors (area_size (site self.now)) (area self.now) };

    /// The table of volumes.
    fn table(&self) -> &Table
        ensures table { result.now ≡ table self.now }
        ensures spread { IsTable (site self.now).count (table_alone (table self.now)) };

    /// The repository's UUID.
    fn repository(&self) -> Uuid
        ensures { result ≡ (site self.now).identity };

    /// The version of the repository: the current one, or an earlier one.
    fn version(&self) -> u32
        ensures { result ≡ version self.now };

    /// Takes a repository of an earlier version over to the current one: the table stays, and of the extents nothing is written. Where the
    /// version is current no call is made. It takes no memory. At `Failed` the version is what it was.
    fn upgrade(&mut self) -> Result<(), Failed>
        ensures site { site self.new ≡ site self.old }
        ensures table { table_alone (table self.new) ≡ table_alone (table self.old) }
        ensures no_less { NoLessRoom (table self.old) (table self.new) }
        ensures counts { faults self.old ≤ faults self.new }
        ensures cause { IsCounted result (faults self.old) (faults self.new) }
        ensures current { OnOk result (version self.new ≡ current_version) }
        ensures usable { OnOk result (version self.old < current_version → failed self.new ≡ false) }
        ensures unchanged { OnErr result ((version self.new ≡ version self.old) × (failed self.new ≡ failed self.old)) }
        ensures succeeds { version self.old ≡ current_version → IsOk result }
        ensures same { version self.old ≡ current_version → (area self.new ≡ area self.old) × (failed self.new ≡ failed self.old) }
        ensures device { version self.old ≡ current_version → device self.new ≡ device self.old }
        ensures beside { told → Keeps (beside self.old) (beside self.new) }
        ensures keeps { told → Keeps (area self.old) (area self.new) }
        ensures leaves { told → (t : VolumeTable) (image : ℕ → List ℕ) → leaves self.new t image → leaves self.old t image }
        ensures settled { OnOk result (told → version self.old < current_version → IsSettled (area self.new)) };

    /// Makes room for a change, so that its commit takes no memory. What is spare counts: a change that has room
    /// takes none.
    fn reserve_for(&mut self, change: &Change) -> Result<(), NoMemory>
        ensures same { (site self.new ≡ site self.old) × (area self.new ≡ area self.old) × (failed self.new ≡ failed self.old) × (faults self.new ≡ faults self.old) × (version self.new ≡ version self.old) }
        ensures device { (device self.new ≡ device self.old) × (beside self.new ≡ beside self.old) }
        ensures table { table_alone (table self.new) ≡ table_alone (table self.old) }
        ensures leaves { (t : VolumeTable) (image : ℕ → List ℕ) → leaves self.new t image → leaves self.old t image }
        ensures no_less { NoLessRoom (table self.old) (table self.new) }
        ensures made { OnOk result (Permits (site self.old).count (table_alone (table self.old)) change.now → HasRoom (table self.new) change.now) };

    /// Makes room for rows: at `Ok` at least so many are spare. What is spare counts, so a step that adds several
    /// volumes asks for all of them at once.
    fn reserve_rows(&mut self, rows: usize) -> Result<(), NoMemory>
        ensures same { (site self.new ≡ site self.old) × (area self.new ≡ area self.old) × (failed self.new ≡ failed self.old) × (faults self.new ≡ faults self.old) × (version self.new ≡ version self.old) }
        ensures device { (device self.new ≡ device self.old) × (beside self.new ≡ beside self.old) }
        ensures table { table_alone (table self.new) ≡ table_alone (table self.old) }
        ensures leaves { (t : VolumeTable) (image : ℕ → List ℕ) → leaves self.new t image → leaves self.old t image }
        ensures no_less { NoLessRoom (table self.old) (table self.new) }
        ensures made { OnOk result (rows ≤ (table self.new).spare) };

    /// Whether a commit may make a change: it is allowed, there is room for it, and the text of the table after it fits
    /// its slot. No call is made on the device.
    fn is_ready(&self, change: &Change) -> bool
        ensures ready { IsTrue result ↔ (Permits (site self.now).count (table_alone (table self.now)) change.now
            × HasRoom (table self.now) change.now × Fits (site self.now).count (table_alone (table self.now)) change.now) };

    /// Changes the table. At `Ok` the change has taken effect and nothing is pending. At `Failed` the store
    /// still answers the earlier table and reads as before, and no further commit is made.
    fn commit(&mut self, change: Change) -> Result<(), Failed>
        requires usable { failed self.old ≡ false }
        requires allowed { Permits (site self.old).count (table_alone (table self.old)) change }
        requires room { HasRoom (table self.old) change }
        requires fits { Fits (site self.old).count (table_alone (table self.old)) change }
        ensures site { site self.new ≡ site self.old }
        ensures counts { faults self.old ≤ faults self.new }
        ensures cause { IsCounted result (faults self.old) (faults self.new) }
        ensures changed { OnOk result ((table_alone (table self.new) ≡ applied (table_alone (table self.old)) change) × (failed self.new ≡ false)) }
        ensures unchanged { OnErr result ((table_alone (table self.new) ≡ table_alone (table self.old)) × (failed self.new ≡ true)) }
        ensures room_after { OnOk result (RoomAfter change (table self.old) (table self.new)) }
        ensures beside { told → Keeps (beside self.old) (beside self.new) }
        ensures keeps { told → Keeps (area self.old) (area self.new) }
        ensures settled { OnOk result (told → IsSettled (area self.new)) }
        ensures crash { told → (t : VolumeTable) (image : ℕ → List ℕ) → leaves self.new t image
            → IsEither (area_size (site self.old)) (table_alone (table self.old)) (applied (table_alone (table self.old)) change) (area self.old) t image };

    /// Reads whole sectors of a volume, at least one, from its sector `at` on.
    fn read(&mut self, volume: &Name, at: u64, to: &mut [u8]) -> Result<(), Failed>
        requires { IsWhole at (length to.old) (size_of (site self.old) (table_alone (table self.old)) volume.now) }
        ensures site { site self.new ≡ site self.old }
        ensures table { (table_alone (table self.new) ≡ table_alone (table self.old)) × (failed self.new ≡ failed self.old) × (version self.new ≡ version self.old) }
        ensures no_less { NoLessRoom (table self.old) (table self.new) }
        ensures counts { faults self.old ≤ faults self.new }
        ensures cause { IsCounted result (faults self.old) (faults self.new) }
        ensures device { told → Keeps (device self.old) (device self.new) }
        ensures beside { told → Keeps (beside self.old) (beside self.new) }
        ensures same { told → SameHeld (area self.old) (area self.new) }
        ensures leaves { told → (t : VolumeTable) (image : ℕ → List ℕ) → leaves self.new t image → leaves self.old t image }
        ensures gave { OnOk result (told → Gave at (volume_of (site self.old) (table_alone (table self.old)) (area self.old) volume.now) to.new) };

    /// Writes whole sectors of a volume, at least one, from its sector `at` on. No other volume is touched.
    fn write(&mut self, volume: &Name, at: u64, from: &[u8]) -> Result<(), Failed>
        requires { IsWhole at (length from.now) (size_of (site self.old) (table_alone (table self.old)) volume.now) }
        ensures site { site self.new ≡ site self.old }
        ensures table { (table_alone (table self.new) ≡ table_alone (table self.old)) × (failed self.new ≡ failed self.old) × (version self.new ≡ version self.old) }
        ensures no_less { NoLessRoom (table self.old) (table self.new) }
        ensures counts { faults self.old ≤ faults self.new }
        ensures cause { IsCounted result (faults self.old) (faults self.new) }
        ensures beside { told → Keeps (beside self.old) (beside self.new) }
        ensures torn { told → Torn at from.now
            (volume_of (site self.old) (table_alone (table self.old)) (area self.old) volume.now)
            (volume_of (site self.old) (table_alone (table self.old)) (area self.new) volume.now) }
        ensures wrote { OnOk result (told → Wrote at from.now
            (volume_of (site self.old) (table_alone (table self.old)) (area self.old) volume.now)
            (volume_of (site self.old) (table_alone (table self.old)) (area self.new) volume.now)) }
        ensures elsewhere { told → SameElsewhere (site self.old).geometry.extent
            (extents_of (rows (table_alone (table self.old)) volume.now)) (area self.old) (area self.new) };

    /// Makes all that was written last.
    fn sync(&mut self) -> Result<(), Failed>
        ensures site { site self.new ≡ site self.old }
        ensures table { (table_alone (table self.new) ≡ table_alone (table self.old)) × (failed self.new ≡ failed self.old) × (version self.new ≡ version self.old) }
        ensures no_less { NoLessRoom (table self.old) (table self.new) }
        ensures counts { faults self.old ≤ faults self.new }
        ensures cause { IsCounted result (faults self.old) (faults self.new) }
        ensures device { told → Keeps (device self.old) (device self.new) }
        ensures beside { told → Keeps (beside self.old) (beside self.new) }
        ensures keeps { told → Keeps (area self.old) (area self.new) }
        ensures leaves { told → (t : VolumeTable) (image : ℕ → List ℕ) → leaves self.new t image → leaves self.old t image }
        ensures settled { OnOk result (told → IsSettled (area self.new)) };

    /// No version is later than the current one.
    ghost versions: { (s : Self) → version s ≤ current_version };

    /// A commit is made by the current version alone.
    ghost current: { (s : Self) → failed s ≡ false → version s ≡ current_version };

    /// By an earlier version no commit is made: a stop leaves the one table, and of the area a choice sector by sector.
    ghost leaves_old: { (s : Self) → told → version s < current_version → (t : VolumeTable) (image : ℕ → List ℕ) → leaves s t image
        → IsBefore (area_size (site s)) (table_alone (table s)) (area s) t image };

    /// While a commit may be made, too, a stop leaves the one table, and of the area a choice sector by sector.
    ghost leaves_now: { (s : Self) → told → failed s ≡ false → (t : VolumeTable) (image : ℕ → List ℕ) → leaves s t image
        → IsBefore (area_size (site s)) (table_alone (table s)) (area s) t image };

    /// And it may leave what reads give.
    ghost leaves_read: { (s : Self) → told → failed s ≡ false → leaves s (table_alone (table s)) (reads (area s)) };
}
