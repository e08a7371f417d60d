//! Tracking of a disk begins.

ghost use Rattle.std.specs.Prelude.{◌≡◌, ◌<◌, ◌⊎◌, ℕ, List, None, true, OnErr, OnOk};
ghost use Rattle.sm_base.specs.declared.faults.CallFault.TheVariants as fault;
ghost use Rattle.sm_disk.specs.Held.{IsSettled};
ghost use Rattle.sm_machine.specs.declared.commands.Command.TheVariants.{Track};
ghost use Rattle.sm_machine.specs.Tracking.{begun};
ghost use Rattle.vg_meta.specs.Tables.{VolumeTable};
ghost use Rattle.vg_volumes.specs.Stored.{OnlyReads};
ghost use Rattle.sm_ready.specs.Does.{store_shape};
ghost use Rattle.sm_ready.specs.Framing.{CountsDevice, IsBetweenSteps, StepsOn};
ghost use Rattle.sm_ready.specs.Refusing.{IsAllowed};
ghost use Rattle.sm_ready.specs.Sessions.{IsReadyStore};
ghost use Rattle.sm_ready.specs.Stores.{StoreLeaves, content_in};
ghost use Rattle.sm_standing.specs.Logs.{IsLogOf};
ghost use Rattle.sm_tracking.specs.Tracking.{HasChangedLogs, HasLogOnLeast};

use crate::rooms::law_uuid;
use sm_base::CallFault;
use sm_cbt::start;
use sm_logs::LOG_LIMIT;
use sm_ready::{Memory, disk_pieces, log_room};
use std::alloc::Global;
use uuid::Uuid;
use vg_extents::first_fit;
use vg_volumes::Store;

/// Makes the log of a disk, where no cause refuses it, on the least extents that are free. All memory is taken before anything is written. Where it
/// succeeded nothing is pending. A stop leaves no log of the disk, or a table whose sequence number is above 0, as those of the new log are 0.
///
/// # Errors
/// `NoMemory` where memory ran out, or where there is no place in memory for one log more, which never comes about while each log is that of a disk;
/// nothing has changed. `Device` where a call of the store failed: memory is as it was, and a stop leaves no log of the disk, or one that is new, or
/// the log whole.
pub fn begin<S: Store>(
    alloc: Global,
    store: &mut S,
    memory: &mut Memory,
    disk: &Uuid,
) -> Result<(), CallFault>
    requires session { IsBetweenSteps S.Store store.old memory.old }
    requires allowed { IsAllowed S.Store (Track disk.now true) store.old memory.old }
    ensures step { StepsOn S.Store 2 store.old store.new }
    ensures cause { CountsDevice S.Store result store.old store.new }
    ensures memory { OnOk result (memory.new ≡ record memory.old { logs = (begun (store_shape S.Store store.old memory.old) disk.now).logs }) }
    ensures kept { OnErr result (memory.new ≡ memory.old) }
    ensures session_still { OnOk result (IsBetweenSteps S.Store store.new memory.new) }
    ensures poor { result ≡ Err fault.NoMemory
        → OnlyReads S.Store store.old store.new × ((t : VolumeTable) (image : ℕ → List ℕ) → S.leaves store.new t image → S.leaves store.old t image) }
    ensures shape { OnOk result (store_shape S.Store store.new memory.new ≡ begun (store_shape S.Store store.old memory.old) disk.now) }
    ensures lasting { OnOk result (S.told → IsSettled (S.area store.new)) }
    ensures least { OnOk result (HasLogOnLeast S.Store store.old memory.old store.new disk.now) }
    ensures numbered { S.told → IsReadyStore S.Store store.old memory.old → (v : VolumeTable) (image : ℕ → List ℕ) → StoreLeaves S.Store store.new v image
        → IsLogOf (content_in (S.site store.old) v image) disk.now None ⊎ (0 < v.sequence) }
    ensures tracked { S.told → IsReadyStore S.Store store.old memory.old
        → HasChangedLogs S.Store store.old memory.old store.new memory.new (begun (store_shape S.Store store.old memory.old) disk.now).logs (result ≡ Ok tt) }
{
    if memory.logs.rows().len() >= LOG_LIMIT {
        return Err(CallFault::NoMemory);
    }
    law_uuid(disk.as_bytes());
    let geometry = store.geometry();
    let extents = store.extents();
    let pieces = disk_pieces(memory, disk);
    let need = log_room(memory, &geometry, disk);
    let Ok(found) = first_fit(alloc, store.table(), extents, need as u32) else {
        return Err(CallFault::NoMemory);
    };
    start(alloc, store, &mut memory.logs, disk, pieces, found)
}
