//! A sector is put on a disk that is imported: its volume grows where that takes a slot.

ghost use Rattle.std.specs.Prelude.{◌≡◌, ◌≢◌, ◌+◌, ◌-◌, ◌/◌, ◌<◌, ◌≤◌, ◌∷◌, ℕ, List, IfErr, OnOk, OnErr, length};
ghost use Rattle.std.specs.declared.result.Result.TheVariants.{Err};
ghost use Rattle.sm_disk.specs.Held.{Rose};
ghost use Rattle.sm_base.specs.declared.names.Name.TheVariants.{Vhd};
ghost use Rattle.vg_meta.specs.Roomy.{table_alone};
ghost use Rattle.vg_meta.specs.Tables.{free as free_of};
ghost use Rattle.vg_volumes.specs.Stored.{Faults, SameBeside, stored};
ghost use Rattle.vhd_filling.specs.Filled.{HoldsSame, TakesSlot, held_now, slots_taken};
ghost use Rattle.vhd_import.specs.Making.{AnswersRoom, put_lacks};
ghost use Rattle.vhd_import.specs.Puts.{Put};
ghost use Rattle.vhd_import.specs.Room.{Target};
ghost use Rattle.vhd_import.specs.declared.disks.PutFault.TheVariants as put;
ghost use Rattle.sm_ready.specs.Framing.{StepsOn};
ghost use Rattle.sm_importing.specs.declared.faults.RoomFault.TheVariants.{Device};
ghost use Rattle.sm_importing.specs.Imports.{GoesOnImporting, GrowsEachCommit, StopsImporting, extents_of_volume, thin_in};
ghost use Rattle.sm_importing.specs.Rooms.{CountsRoom, IsLack};
ghost use Rattle.sm_importing.specs.Disks.{HasPutRoom, HoldsPuts, IsFilled, PutsAs, is_device as is_device_of, put_fault as put_fault_of, room_for, target_of};

use crate::faults::RoomFault;
use crate::importing::grow;
use sm_ready::Memory;
use std::alloc::Global;
use uuid::Uuid;
use vg_volumes::Store;
use vhd_filling::Filling;
use vhd_import::PutFault;

/// Why nothing was put, where the volume has no room.
pub(crate) fn put_fault(fault: RoomFault) -> PutFault
    ensures { result ≡ put_fault_of fault }
{
    match fault {
        RoomFault::NoSpace { need, free } => PutFault::NoSpace { need, free },
        RoomFault::NoMemory => PutFault::NoMemory,
        RoomFault::Device => PutFault::Device,
    }
}

/// Whether nothing was put since a call of the store failed.
pub(crate) fn is_device(fault: PutFault) -> bool
    ensures { result ≡ is_device_of fault }
{
    match fault {
        PutFault::Device => true,
        PutFault::NoSpace { .. } => false,
        PutFault::NoMemory => false,
    }
}

/// Gives the volume the extents for the slot that a put takes, where it takes one.
fn make_room<S: Store>(
    alloc: Global,
    store: &mut S,
    memory: &Memory,
    disk: &Uuid,
    filling: &Filling,
    sector: u64,
    bytes: &[u8; 512],
) -> Result<(), RoomFault>
    requires filled { IsFilled S.Store store.old memory.now disk.now filling.now }
    requires within { sector / filling.now.geometry.block < filling.now.geometry.entries }
    ensures step { StepsOn S.Store 1 store.old store.new }
    ensures cause { CountsRoom S.Store result store.old store.new }
    ensures room { OnOk result (HasPutRoom S.Store store.new memory.now disk.now filling.now sector bytes.now) }
    ensures held { OnOk result (S.told → HoldsSame (held_now S.Store filling.now store.old) (held_now S.Store filling.now store.new)) }
    ensures still { OnOk result (extents_of_volume (table_alone (S.table store.new)) (Vhd disk.now) ≡ extents_of_volume (table_alone (S.table store.old)) (Vhd disk.now)
        → store.new ≡ store.old) }
    ensures grows { (result ≡ Err Device → ⊥) → GrowsEachCommit (Vhd disk.now) (table_alone (S.table store.old)) (table_alone (S.table store.new)) }
    ensures enough { OnOk result (TakesSlot filling.now sector bytes.now
        → thin_in (S.site store.old) (slots_taken filling.now + 1) - thin_in (S.site store.old) (slots_taken filling.now)
        ≤ length (free_of (S.site store.old).count (table_alone (S.table store.old)))) }
    ensures takes { OnErr result (TakesSlot filling.now sector bytes.now) }
    ensures lack { IfErr result (IsLack (thin_in (S.site store.old) (slots_taken filling.now + 1) - thin_in (S.site store.old) (slots_taken filling.now))
        (length (free_of (S.site store.old).count (table_alone (S.table store.old))))) }
    ensures kept { (result ≡ Err Device → ⊥) → room_for S.Store store.new disk.now ≡ room_for S.Store store.old disk.now }
    ensures poor { OnErr result ((result ≡ Err Device → ⊥) → IsFilled S.Store store.new memory.now disk.now filling.now) }
    ensures since { (result ≡ Err Device → ⊥) → GoesOnImporting S.Store disk.now memory.now store.old store.new }
    ensures stops { StopsImporting S.Store disk.now memory.now store.old store.new }
{
    if !filling.takes_slot(sector, bytes) {
        return Ok(());
    }
    grow(alloc, store, memory, disk, filling.slots())
}

/// Puts a sector of the disk into its image, behind the growth that it asks for.
///
/// # Errors
///
/// `NoSpace` and `NoMemory`: nothing was put. `Device` where a call of the store failed; what the image holds then is open.
pub(crate) fn put_sector<S: Store>(
    alloc: Global,
    store: &mut S,
    memory: &Memory,
    disk: &Uuid,
    filling: &mut Filling,
    sector: u64,
    bytes: &[u8; 512],
) -> Result<(), PutFault>
    requires filled { IsFilled S.Store store.old memory.now disk.now filling.old }
    requires within { sector / filling.old.geometry.block < filling.old.geometry.entries }
    ensures step { StepsOn S.Store 1 store.old store.new }
    // It makes no commit but the one that gives the volume extents, and without that one nothing else is synced.
    ensures grows { (result ≡ Err put.Device → ⊥) → GrowsEachCommit (Vhd disk.now) (table_alone (S.table store.old)) (table_alone (S.table store.new)) }
    ensures still { OnOk result (extents_of_volume (table_alone (S.table store.new)) (Vhd disk.now) ≡ extents_of_volume (table_alone (S.table store.old)) (Vhd disk.now)
        → S.told → SameBeside (Vhd disk.now) (stored S.Store store.old) (stored S.Store store.new)) }
    ensures device { result ≡ Err put.Device → Faults S.Store store.old store.new }
    ensures calm { (result ≡ Err put.Device → ⊥) → S.faults store.new ≡ S.faults store.old }
    ensures filled { (result ≡ Err put.Device → ⊥) → IsFilled S.Store store.new memory.now disk.now filling.new }
    ensures sizes { (result ≡ Err put.Device → ⊥) → filling.new.geometry ≡ filling.old.geometry }
    ensures kept { (result ≡ Err put.Device → ⊥) → room_for S.Store store.new disk.now ≡ room_for S.Store store.old disk.now }
    ensures holds { OnOk result ((t : Target) (puts : List Put) → HoldsPuts S.Store filling.old store.old t puts
        → HoldsPuts S.Store filling.new store.new t (record { sector = sector; bytes = bytes.now } ∷ puts)) }
    ensures room { (puts : List Put) → PutsAs S.Store filling.old store.old disk.now puts
        → AnswersRoom (put_lacks (target_of filling.old.geometry (room_for S.Store store.old disk.now)) (record { sector = sector; bytes = bytes.now }) puts) result }
    ensures since { (result ≡ Err put.Device → ⊥) → GoesOnImporting S.Store disk.now memory.now store.old store.new }
    ensures stops { StopsImporting S.Store disk.now memory.now store.old store.new }
{
    let room = make_room(alloc, store, memory, disk, filling, sector, bytes);
    match room {
        Ok(()) => match filling.put(store, sector, bytes) {
            Ok(()) => Ok(()),
            Err(_) => Err(PutFault::Device),
        },
        Err(fault) => Err(put_fault(fault)),
    }
}
