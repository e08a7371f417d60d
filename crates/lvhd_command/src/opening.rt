//! A device is opened.

ghost use Rattle.std.specs.Prelude.{◌≡◌, ◌≤◌, ◌*◌, ℕ, List, false, Ok, IfOk, IfErr};
ghost use Rattle.sm_base.specs.declared.faults.OpenFault.{OpenFault};
ghost use Rattle.sm_disk.specs.Held.{Allows, Keeps, IsSettled, reads};
ghost use Rattle.sm_standing.specs.Devices.{Shows};
ghost use Rattle.vg_meta.specs.Roomy.{table_alone};
ghost use Rattle.vg_meta.specs.Tables.{VolumeTable};
ghost use Rattle.vg_layout.specs.Fields.{layout_number, plate, pointer};
ghost use Rattle.vg_layout.specs.Opening.{IsRefused, StandsOn, plate_of};
ghost use Rattle.vg_volumes.specs.Commits.{IsBefore, current_version};
ghost use Rattle.vg_store.specs.Groups.{GroupStands, LeavesGroup, area_of};
ghost use Rattle.vg_store.specs.Openings.{IsAnswer};
ghost use Rattle.sm_ready.specs.Sessions.{IsAtEase};
ghost use Rattle.sm_ready.specs.Stores.{MayShow};
ghost use Rattle.sm_recover.specs.Repairs.{UnlessDeviceFailed};
ghost use Rattle.sm_run.specs.Runs.{BeginsSettled};
ghost use Rattle.lvhd_command.specs.Devices.{HoldsWellOn, IsKeptDevice, IsSoundOn, IsRefusedOn, IsOpenedOn, IsTruthfulDevice, IsTruthfulOn, plate_at};
ghost use Rattle.sm_session.specs.Truth.{AreTold};
ghost use Rattle.lvhd_command.specs.Running.{ShowsNothingNew, KeepsBeside, MayHaveLabel};
ghost use Rattle.lvhd_command.specs.Sessions.{IsReadySession, KeepsSession, session_leaves, site_of, state_of};

use sm_base::OpenFault;
use sm_cache::Cache;
use sm_disk::Disk;
use sm_session::Session;
use std::alloc::Global;
use vg_store::Group;

/// How many sectors of the repository are kept in memory, at most.
const KEPT_SECTORS: usize = 1_024;

/// Opens the repository on a device: it is synced, all checks are made, a repository of version 1 is taken over, and what a stop has left is repaired. `now` is in
/// seconds since 2000-01-01 00:00 UTC. What is promised of the sectors and of the disks rests on what no check sees: that each
/// slot of a VHD image holds a sector, and that an image whose children are being linked past it was copied. It is so on a device
/// that is kept.
///
/// # Errors
/// The answer of the first check that fails, a fault of the device, or want of memory, with the device. Unless a call of
/// the device failed nothing was written, and where a check fails nothing was written whatever the answer.
pub fn open<D: Disk>(
    alloc: Global,
    disk: D,
    now: u32,
) -> Result<Session<Cache<Group<D>>>, (OpenFault, D)>
    ensures size { IfOk result (λ s. D.size s.store.inner.disk ≡ D.size disk) }
    ensures calm { IfOk result (λ s. D.faults s.store.inner.disk ≡ D.faults disk) }
    ensures whole { IfOk result (λ s. s.broken ≡ false) }
    ensures now { IfOk result (λ s. s.now ≡ now) }
    ensures ease { IfOk result (λ s. IsAtEase s.memory) }
    ensures sound { IfOk result (λ s. D.told → IsSoundOn (D.size disk) (reads (D.held disk))) }
    ensures ready { IfOk result (λ s. D.told → HoldsWellOn (D.size disk) (reads (D.held disk)) → IsReadySession s) }
    ensures shown { IfOk result (λ s. D.told → HoldsWellOn (D.size disk) (reads (D.held disk))
        → Shows (D.size disk) (reads (D.held disk)) (state_of s).disks) }
    ensures opened { IfOk result (λ s. D.told → HoldsWellOn (D.size disk) (reads (D.held disk))
        → IsOpenedOn (D.size disk) (reads (D.held disk)) (state_of s).shape) }
    ensures label { IfOk result (λ s. D.told → plate_of (D.size disk) (reads (D.held disk)) ≡ Ok (plate_at (site_of s))) }
    ensures kept { IfOk result (λ s. D.told → HoldsWellOn (D.size disk) (reads (D.held disk)) → KeepsSession s) }
    ensures telling { IfOk result (λ s. D.told → HoldsWellOn (D.size disk) (reads (D.held disk)) → IsTruthfulOn (D.size disk) (reads (D.held disk))
        → AreTold (site_of s) (session_leaves s) (state_of s).shape) }
    ensures begins { IfOk result (λ s. D.told → HoldsWellOn (D.size disk) (reads (D.held disk))
        → BeginsSettled (state_of s) (MayShow (site_of s) (session_leaves s))) }
    ensures beside { IfOk result (λ s. D.told → KeepsBeside (D.size disk) (D.held disk) (D.held s.store.inner.disk)) }
    ensures size_back { IfErr result (λ e. D.size e.1 ≡ D.size disk) }
    ensures counts_back { IfErr result (λ e. D.faults disk ≤ D.faults e.1) }
    ensures refused { IfErr result (λ e. IsAnswer (λ f. D.told → IsRefusedOn (D.size disk) (reads (D.held disk)) f) (D.faults disk) (D.faults e.1) e.0) }
    ensures untouched { IfErr result (λ e. D.told → UnlessDeviceFailed e.0 (Keeps (D.held disk) (D.held e.1))) }
    ensures unsound { IfErr result (λ e. D.told → (f : OpenFault) → IsRefusedOn (D.size disk) (reads (D.held disk)) f
        → Keeps (D.held disk) (D.held e.1)) }
    ensures beside_back { IfErr result (λ e. D.told → KeepsBeside (D.size disk) (D.held disk) (D.held e.1)) }
    ensures label_back { IfErr result (λ e. D.told → MayHaveLabel (D.size disk) (D.held disk) (D.held e.1)) }
    ensures kept_back { IfErr result (λ e. D.told → IsKeptDevice (D.size disk) (D.held disk) → IsKeptDevice (D.size disk) (D.held e.1)) }
    ensures truthful_back { IfErr result (λ e. D.told → HoldsWellOn (D.size disk) (reads (D.held disk)) → IsTruthfulDevice (D.size disk) (D.held disk)
        → IsTruthfulDevice (D.size disk) (D.held e.1)) }
    ensures shown_back { IfErr result (λ e. D.told → HoldsWellOn (D.size disk) (reads (D.held disk))
        → ShowsNothingNew (D.size disk) (D.held disk) (D.held e.1)) }
{
    let cache = match open_group(alloc, disk) {
        Ok(cache) => cache,
        Err((fault, disk)) => return Err((fault, disk)),
    };
    match Session::begin(alloc, cache, now) {
        Ok(session) => Ok(session),
        Err((fault, cache)) => Err((fault, into_disk(cache))),
    }
}

/// Opens the volume group on a device, by the first five checks, with room for the sectors that are kept of it.
///
/// # Errors
/// The answer of the first check that fails, a fault of the device, or want of memory, with the device. Nothing was written.
fn open_group<D: Disk>(alloc: Global, disk: D) -> Result<Cache<Group<D>>, (OpenFault, D)>
    ensures size { IfOk result (λ c. D.size c.inner.disk ≡ D.size disk) }
    ensures calm { IfOk result (λ c. D.faults c.inner.disk ≡ D.faults disk) }
    ensures keeps { IfOk result (λ c. D.told → Keeps (D.held disk) (D.held c.inner.disk)) }
    ensures area { IfOk result (λ c. D.told → Keeps (area_of (layout_number c.inner.label.layout) (D.held disk)) (area_of (layout_number c.inner.label.layout) (D.held c.inner.disk))) }
    ensures settled { IfOk result (λ c. D.told → IsSettled (D.held c.inner.disk)) }
    ensures usable { IfOk result (λ c. c.inner.version ≡ current_version → c.inner.failed ≡ false) }
    ensures stands { IfOk result (λ c. D.told → StandsOn (D.size disk) (reads (D.held disk))
        (record { plate = plate c.inner.label; pointer = pointer c.inner.header; table = table_alone c.inner.table })) }
    ensures size_back { IfErr result (λ e. D.size e.1 ≡ D.size disk) }
    ensures counts_back { IfErr result (λ e. D.faults disk ≤ D.faults e.1) }
    ensures keeps_back { IfErr result (λ e. D.told → Keeps (D.held disk) (D.held e.1)) }
    ensures err { IfErr result (λ e. IsAnswer (λ f. D.told → IsRefused (D.size disk) (reads (D.held disk)) f) (D.faults disk) (D.faults e.1) e.0) }
{
    let group = match Group::open(alloc, disk) {
        Ok(group) => group,
        Err(back) => return Err(back),
    };
    match Cache::new(alloc, group, KEPT_SECTORS) {
        Ok(cache) => Ok(cache),
        Err(group) => Err((OpenFault::NoMemory, group.into_disk())),
    }
}

/// The device below, as it is. No call is made on it.
pub(crate) fn into_disk<D: Disk>(cache: Cache<Group<D>>) -> D
    ensures disk { result ≡ cache.inner.disk }
    ensures leaves { D.told → cache.inner.failed ≡ false → (t : VolumeTable) (image : ℕ → List ℕ)
        → LeavesGroup (D.size result) (D.held result) (plate cache.inner.label) t image
        → IsBefore (cache.inner.label.extents * cache.inner.label.geometry.extent) (table_alone cache.inner.table) (area_of (layout_number cache.inner.label.layout) (D.held result)) t image }
    ensures stands { D.told → (image : ℕ → List ℕ) → Allows (D.size result) (D.held result) image → GroupStands (D.size result) image (plate cache.inner.label) }
{
    cache.into_inner().into_disk()
}
