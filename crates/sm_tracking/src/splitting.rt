//! The log of a disk is split behind the snapshot that was taken of the disk.

ghost use Rattle.std.specs.Prelude.{◌≡◌, ◌≤◌, ◌⊎◌, ℕ, List, Ok, OnOk};
ghost use Rattle.sm_log.specs.Logs.{split as split_logs};
ghost use Rattle.sm_machine.specs.Tracking.{with_logs};
ghost use Rattle.vg_meta.specs.Roomy.{table_alone};
ghost use Rattle.vg_meta.specs.Tables.{VolumeTable};
ghost use Rattle.vg_volumes.specs.Stored.{Counts};
ghost use Rattle.sm_ready.specs.Does.{store_shape};
ghost use Rattle.sm_ready.specs.Framing.{IsBetweenSteps, StepsOn};
ghost use Rattle.sm_ready.specs.Sessions.{IsReadyStore};
ghost use Rattle.sm_ready.specs.Stores.{StoreLeaves, content_in};
ghost use Rattle.sm_tracking.specs.Rooms.{CanSplit, IsRoomFor};
ghost use Rattle.sm_tracking.specs.Tracking.{HasChangedLogs, IsLogOnLeast, IsSplitInOrder};

use crate::rooms::{Room, find_least};
use sm_base::Failed;
use sm_ready::Memory;
use uuid::Uuid;
use vg_volumes::Store;

/// Splits the log of a disk of which a snapshot was taken: the snapshot gets the log that [`prepare`](crate::prepare) made for it, on the least extents
/// that are free. Only behind that does the disk's log begin anew. No memory is taken. Where there are no extents for the log, which no snapshot that
/// was let through leaves behind, nothing is done.
///
/// # Errors
/// A call of the store failed: memory may be ahead of the store, and the disk's log lost no bit before the snapshot's log and the new head lasted.
pub fn split<S: Store>(
    store: &mut S,
    memory: &mut Memory,
    room: Room,
    disk: &Uuid,
) -> Result<(), Failed>
    requires session { IsBetweenSteps S.Store store.old memory.old }
    requires room { IsRoomFor (S.site store.old).count memory.old.logs disk.now room }
    ensures step { StepsOn S.Store 2 store.old store.new }
    ensures cause { Counts S.Store result store.old store.new }
    ensures session_still { OnOk result (IsBetweenSteps S.Store store.new memory.new) }
    ensures memory { OnOk result ((memory.new ≡ memory.old) ⊎ (memory.new ≡ record memory.old { logs = split_logs disk.now room.log.disk room.log.tag memory.old.logs })) }
    ensures shape { CanSplit (store_shape S.Store store.old memory.old) room → OnOk result (store_shape S.Store store.new memory.new
        ≡ with_logs (split_logs disk.now room.log.disk room.log.tag memory.old.logs) 2 (store_shape S.Store store.old memory.old)) }
    ensures least { CanSplit (store_shape S.Store store.old memory.old) room
        → OnOk result (IsLogOnLeast (S.site store.old) (table_alone (S.table store.old)) room.log.disk room.log.extents (table_alone (S.table store.new))) }
    ensures order { S.told → IsReadyStore S.Store store.old memory.old → CanSplit (store_shape S.Store store.old memory.old) room
        → (v : VolumeTable) (image : ℕ → List ℕ) → StoreLeaves S.Store store.new v image
        → IsSplitInOrder (content_in (S.site store.old) v image) disk.now room.log.disk memory.old.logs (split_logs disk.now room.log.disk room.log.tag memory.old.logs) }
    ensures split { S.told → IsReadyStore S.Store store.old memory.old → CanSplit (store_shape S.Store store.old memory.old) room
        → HasChangedLogs S.Store store.old memory.old store.new memory.new (split_logs disk.now room.log.disk room.log.tag memory.old.logs) (result ≡ Ok tt) }
{
    let Room {
        log,
        mut marks,
        mut extents,
    } = room;
    let need = log.extents() as u32;
    find_least(store.table(), &mut marks, &mut extents, need);
    if log.head().pieces == 0 || extents.len() < need as usize {
        return Ok(());
    }
    sm_cbt::split(store, &mut memory.logs, log, extents, disk)
}
