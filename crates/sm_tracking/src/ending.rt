//! Tracking of a disk ends.

ghost use Rattle.std.specs.Prelude.{◌≡◌, IsSome, Ok, OnErr, OnOk};
ghost use Rattle.sm_disk.specs.Held.{IsSettled};
ghost use Rattle.sm_log.specs.Logs.{log_of, without_log};
ghost use Rattle.sm_machine.specs.Tracking.{ended};
ghost use Rattle.vg_volumes.specs.Stored.{Counts};
ghost use Rattle.sm_ready.specs.Does.{store_shape};
ghost use Rattle.sm_ready.specs.Framing.{IsBetweenSteps, StepsOn};
ghost use Rattle.sm_ready.specs.Sessions.{IsReadyStore};
ghost use Rattle.sm_tracking.specs.Tracking.{HasChangedLogs};

use sm_base::Failed;
use sm_cbt::stop;
use sm_ready::Memory;
use uuid::Uuid;
use vg_volumes::Store;

/// Removes the log of a disk, by one commit. Where it succeeded nothing is pending.
///
/// # Errors
/// The commit failed: memory is as it was, and a stop leaves the log or none.
pub fn end<S: Store>(store: &mut S, memory: &mut Memory, disk: &Uuid) -> Result<(), Failed>
    requires session { IsBetweenSteps S.Store store.old memory.old }
    requires tracked { IsSome (log_of disk.now memory.old.logs) }
    ensures step { StepsOn S.Store 1 store.old store.new }
    ensures cause { Counts S.Store result store.old store.new }
    ensures memory { OnOk result (memory.new ≡ record memory.old { logs = without_log disk.now memory.old.logs }) }
    ensures kept { OnErr result (memory.new ≡ memory.old) }
    ensures session_still { OnOk result (IsBetweenSteps S.Store store.new memory.new) }
    ensures shape { OnOk result (store_shape S.Store store.new memory.new ≡ ended (store_shape S.Store store.old memory.old) disk.now) }
    ensures lasting { OnOk result (S.told → IsSettled (S.area store.new)) }
    ensures removed { S.told → IsReadyStore S.Store store.old memory.old
        → HasChangedLogs S.Store store.old memory.old store.new memory.new (without_log disk.now memory.old.logs) (result ≡ Ok tt) }
{
    stop(store, &mut memory.logs, disk)
}
