//! The volume of a disk that is imported: it is made, grows, and goes.

ghost use Rattle.std.specs.Prelude.{◌≡◌, ◌<◌, ◌+◌, ◌-◌, ◌≤◌, ℕ, List, IsSome, IfOk, IfErr, OnOk, OnErr, length};
ghost use Rattle.std.specs.declared.result.Result.TheVariants.{Ok, Err};
ghost use Rattle.std.specs.Result.{IsOk};
ghost use Rattle.sm_base.specs.Names.{IsUuid};
ghost use Rattle.sm_disk.specs.Held.{Keeps};
ghost use Rattle.sm_base.specs.declared.names.Name.TheVariants.{Vhd};
ghost use Rattle.vg_meta.specs.Changes.{AreFree, HasRoom, Permits, applied, without};
ghost use Rattle.vg_meta.specs.Roomy.{table_alone};
ghost use Rattle.vg_meta.specs.Tables.{VolumeTable, extents_of, free as free_of, rows};
ghost use Rattle.vg_meta.specs.declared.changes.Change.TheVariants.{Remove};
ghost use Rattle.vg_extents.specs.Fits.{AreLeastFree};
ghost use Rattle.vg_volumes.specs.Stored.{Counts, OnlyReads};
ghost use Rattle.sm_mgt.specs.Places.{place_for};
ghost use Rattle.sm_ready.specs.Framing.{IsBetweenSteps, StepsOn};
ghost use Rattle.sm_ready.specs.Known.{known};
ghost use Rattle.sm_ready.specs.Sessions.{IsReadyStore};
ghost use Rattle.sm_importing.specs.declared.faults.RoomFault.TheVariants.{Device};
ghost use Rattle.sm_importing.specs.Imports.{EndsImporting, GoesOnImporting, ImportsSince, IsBegun, IsGrown, IsGrowth, IsImporting, LeavesStill, MayImport, SameBeside, StopsImporting, extents_of_volume, thin_in};
ghost use Rattle.sm_importing.specs.Rooms.{CountsRoom, IsLack};

use crate::faults::RoomFault;
use sm_base::{Failed, Name};
use sm_calls::commit;
use sm_ready::Memory;
use std::alloc::Global;
use uuid::Uuid;
use vg_extents::{FitFault, first_fit};
use vg_meta::{Change, Extents, Table};
use vg_volumes::Store;

/// The least free extents of a table, so many.
fn least_free(alloc: Global, table: &Table, extents: u32, need: u32) -> Result<Vec<u32>, RoomFault>
    ensures least { IfOk result (λ v. AreLeastFree extents need (table_alone table.now) v.items) }
    ensures free { IfOk result (λ v. AreFree extents (table_alone table.now).volumes v.items) }
    ensures lack { IfErr result (IsLack need (length (free_of extents (table_alone table.now)))) }
    ensures no_device { result ≡ Err Device → ⊥ }
{
    match first_fit(alloc, table, extents, need) {
        Ok(found) => Ok(found),
        Err(FitFault::NoSpace { need, free }) => Err(RoomFault::NoSpace { need, free }),
        Err(FitFault::NoMemory) => Err(RoomFault::NoMemory),
    }
}

/// Sixteen bytes are those of a UUID. The call does nothing.
fn law_uuid(bytes: &[u8])
    requires { length bytes.now ≡ 16 }
    ensures { IsUuid bytes.now }
{
    let _count = bytes.len();
}

/// Takes all memory that the volume of a new disk needs: the list of the least extents that are free, so many, and room for its row. The
/// disk's record must have a place.
fn plan_volume<S: Store>(
    alloc: Global,
    store: &mut S,
    memory: &Memory,
    disk: &Uuid,
    need: u32,
) -> Result<Vec<u32>, RoomFault>
    ensures reads { OnlyReads S.Store store.old store.new }
    ensures same { (S.site store.new ≡ S.site store.old) × (S.area store.new ≡ S.area store.old) × (S.faults store.new ≡ S.faults store.old) }
    ensures table { table_alone (S.table store.new) ≡ table_alone (S.table store.old) }
    ensures leaves { (t : VolumeTable) (image : ℕ → List ℕ) → S.leaves store.new t image → S.leaves store.old t image }
    ensures row { OnOk result (0 < (S.table store.new).spare) }
    ensures place { OnOk result (IsSome (place_for memory.now.records disk.now)) }
    ensures least { IfOk result (λ v. AreLeastFree (S.site store.old).count need (table_alone (S.table store.old)) v.items) }
    ensures free { IfOk result (λ v. AreFree (S.site store.old).count (table_alone (S.table store.old)).volumes v.items) }
    ensures lack { IfErr result (IsLack need (length (free_of (S.site store.old).count (table_alone (S.table store.old))))) }
    ensures no_device { result ≡ Err Device → ⊥ }
{
    let extents = store.extents();
    let found = least_free(alloc, store.table(), extents, need)?;
    if !memory.records.has_room(disk) {
        return Err(RoomFault::NoMemory);
    }
    let Ok(()) = store.reserve_rows(1) else {
        return Err(RoomFault::NoMemory);
    };
    Ok(found)
}

/// Begins the import of a disk: makes its volume, marked new, by one commit, on the least extents that are free, as many as an image
/// without slots has.
///
/// # Errors
///
/// `NoSpace` where fewer extents are free, and `NoMemory` where memory ran out or no place is left for the disk's record: nothing was
/// written. `Device` where a call of the store failed. A stop leaves the disks from before.
pub fn begin<S: Store>(
    alloc: Global,
    store: &mut S,
    memory: &Memory,
    disk: &Uuid,
) -> Result<(), RoomFault>
    requires session { IsBetweenSteps S.Store store.old memory.now }
    requires may { MayImport (known memory.now) disk.now }
    ensures step { StepsOn S.Store 1 store.old store.new }
    ensures cause { CountsRoom S.Store result store.old store.new }
    ensures lack { IfErr result (IsLack (thin_in (S.site store.old) 0)
        (length (free_of (S.site store.old).count (table_alone (S.table store.old))))) }
    ensures poor { OnErr result ((result ≡ Err Device → ⊥) → OnlyReads S.Store store.old store.new
        × ((t : VolumeTable) (image : ℕ → List ℕ) → S.leaves store.new t image → S.leaves store.old t image)) }
    ensures table { OnOk result (IsBegun (S.site store.old).count (thin_in (S.site store.old) 0)
        (table_alone (S.table store.old)) (Vhd disk.now) (table_alone (S.table store.new))) }
    ensures volumes { OnOk result (without (Vhd disk.now) (table_alone (S.table store.new)).volumes ≡ (table_alone (S.table store.old)).volumes) }
    ensures importing { OnOk result (IsImporting S.Store store.new memory.now disk.now) }
    ensures since { OnOk result (S.told → IsReadyStore S.Store store.old memory.now → ImportsSince S.Store disk.now memory.now store.old store.new) }
    ensures stops { S.told → IsReadyStore S.Store store.old memory.now → LeavesStill S.Store memory.now store.old store.new }
{
    law_uuid(disk.as_bytes());
    let need = store.geometry().thin(0) as u32;
    let found = plan_volume(alloc, store, memory, disk, need)?;
    let change = Change::Create {
        name: Name::Vhd(*disk),
        fresh: true,
        extents: Extents::new(found),
    };
    let Ok(()) = commit(store, change) else {
        return Err(RoomFault::Device);
    };
    Ok(())
}

/// How many extents a volume has.
pub(crate) fn extents_in(table: &Table, name: &Name) -> usize
    ensures { result ≡ length (extents_of (rows (table_alone table.now) name.now)) }
{
    match table.get(name) {
        Some(volume) => volume.extents().len(),
        None => 0,
    }
}

/// Takes all memory that a volume needs for more extents: the list of the least that are free, so many, and room for them in the table.
/// The answer is the change that gives them to the volume.
fn plan_growth<S: Store>(
    alloc: Global,
    store: &mut S,
    name: &Name,
    more: u32,
) -> Result<Change, RoomFault>
    ensures reads { OnlyReads S.Store store.old store.new }
    ensures same { (S.site store.new ≡ S.site store.old) × (S.area store.new ≡ S.area store.old) × (S.faults store.new ≡ S.faults store.old) }
    ensures table { table_alone (S.table store.new) ≡ table_alone (S.table store.old) }
    ensures leaves { (t : VolumeTable) (image : ℕ → List ℕ) → S.leaves store.new t image → S.leaves store.old t image }
    ensures growth { IfOk result (λ growth. IsGrowth (S.site store.old).count (table_alone (S.table store.old)) name.now more growth) }
    ensures room { IfOk result (λ growth. Permits (S.site store.old).count (table_alone (S.table store.old)) growth → HasRoom (S.table store.new) growth) }
    ensures lack { IfErr result (IsLack more (length (free_of (S.site store.old).count (table_alone (S.table store.old))))) }
    ensures no_device { result ≡ Err Device → ⊥ }
{
    let extents = store.extents();
    let found = least_free(alloc, store.table(), extents, more)?;
    let growth = Change::Grow {
        name: *name,
        extents: Extents::new(found),
    };
    let Ok(()) = store.reserve_for(&growth) else {
        return Err(RoomFault::NoMemory);
    };
    Ok(growth)
}

/// Gives the volume of a disk that is imported so many extents more, by one commit: the least that are free.
fn add_extents<S: Store>(
    alloc: Global,
    store: &mut S,
    memory: &Memory,
    disk: &Uuid,
    more: u32,
) -> Result<(), RoomFault>
    requires importing { IsImporting S.Store store.old memory.now disk.now }
    requires some { 0 < more }
    ensures step { StepsOn S.Store 1 store.old store.new }
    ensures cause { CountsRoom S.Store result store.old store.new }
    ensures lack { IfErr result (IsLack more (length (free_of (S.site store.old).count (table_alone (S.table store.old))))) }
    ensures keeps { S.told → Keeps (S.area store.old) (S.area store.new) }
    ensures poor { OnErr result ((result ≡ Err Device → ⊥) → IsImporting S.Store store.new memory.now disk.now
        × (table_alone (S.table store.new) ≡ table_alone (S.table store.old))) }
    ensures grown { OnOk result (IsGrown (S.site store.old).count more (table_alone (S.table store.old)) (Vhd disk.now) (table_alone (S.table store.new))) }
    ensures volumes { OnOk result (SameBeside (Vhd disk.now) (table_alone (S.table store.old)) (table_alone (S.table store.new))) }
    ensures importing { OnOk result (IsImporting S.Store store.new memory.now disk.now) }
    ensures since { (result ≡ Err Device → ⊥) → GoesOnImporting S.Store disk.now memory.now store.old store.new }
    ensures stops { StopsImporting S.Store disk.now memory.now store.old store.new }
{
    let growth = plan_growth(alloc, store, &Name::Vhd(*disk), more)?;
    let Ok(()) = commit(store, growth) else {
        return Err(RoomFault::Device);
    };
    Ok(())
}

/// Gives the volume of a disk that is imported the extents of an image with one slot more than so many, by one commit, where it has fewer:
/// the least that are free. What it holds stays.
///
/// # Errors
///
/// `NoSpace` where fewer extents are free, and `NoMemory` where memory ran out: nothing was written, and the import may be given up.
/// `Device` where a call of the store failed. A stop leaves the disks from before the import.
pub fn grow<S: Store>(
    alloc: Global,
    store: &mut S,
    memory: &Memory,
    disk: &Uuid,
    slots: u32,
) -> Result<(), RoomFault>
    requires importing { IsImporting S.Store store.old memory.now disk.now }
    requires within { slots < (S.site store.old).geometry.entries }
    ensures step { StepsOn S.Store 1 store.old store.new }
    ensures cause { CountsRoom S.Store result store.old store.new }
    ensures lack { IfErr result (IsLack (thin_in (S.site store.old) (slots + 1) - extents_of_volume (table_alone (S.table store.old)) (Vhd disk.now))
        (length (free_of (S.site store.old).count (table_alone (S.table store.old))))) }
    ensures idle { thin_in (S.site store.old) (slots + 1) ≤ extents_of_volume (table_alone (S.table store.old)) (Vhd disk.now) → IsOk result × (store.new ≡ store.old) }
    ensures keeps { S.told → Keeps (S.area store.old) (S.area store.new) }
    ensures poor { OnErr result ((result ≡ Err Device → ⊥) → IsImporting S.Store store.new memory.now disk.now
        × (table_alone (S.table store.new) ≡ table_alone (S.table store.old))) }
    ensures grown { OnOk result (extents_of_volume (table_alone (S.table store.old)) (Vhd disk.now) < thin_in (S.site store.old) (slots + 1)
        → IsGrown (S.site store.old).count (thin_in (S.site store.old) (slots + 1) - extents_of_volume (table_alone (S.table store.old)) (Vhd disk.now))
        (table_alone (S.table store.old)) (Vhd disk.now) (table_alone (S.table store.new))) }
    ensures volumes { OnOk result (SameBeside (Vhd disk.now) (table_alone (S.table store.old)) (table_alone (S.table store.new))) }
    ensures importing { OnOk result (IsImporting S.Store store.new memory.now disk.now) }
    ensures since { (result ≡ Err Device → ⊥) → GoesOnImporting S.Store disk.now memory.now store.old store.new }
    ensures stops { StopsImporting S.Store disk.now memory.now store.old store.new }
{
    let wanted = store.geometry().thin(u64::from(slots) + 1);
    let had = extents_in(store.table(), &Name::Vhd(*disk)) as u64;
    if wanted <= had {
        return Ok(());
    }
    add_extents(alloc, store, memory, disk, (wanted - had) as u32)
}

/// Gives the import of a disk up: removes its volume, by one commit. It takes no memory.
///
/// # Errors
///
/// A call of the store failed; a stop leaves the disks from before the import.
pub fn give_up<S: Store>(store: &mut S, memory: &Memory, disk: &Uuid) -> Result<(), Failed>
    requires importing { IsImporting S.Store store.old memory.now disk.now }
    ensures step { StepsOn S.Store 1 store.old store.new }
    ensures cause { Counts S.Store result store.old store.new }
    ensures table { OnOk result (table_alone (S.table store.new) ≡ applied (table_alone (S.table store.old)) (Remove (Vhd disk.now))) }
    ensures session { OnOk result (IsBetweenSteps S.Store store.new memory.now) }
    ensures ends { EndsImporting S.Store disk.now memory.now store.old store.new (result ≡ Ok tt) }
{
    let change = Change::Remove {
        name: Name::Vhd(*disk),
    };
    commit(store, change)?;
    Ok(())
}
