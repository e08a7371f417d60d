//! Pieces of a disk are marked in its log before they are written.

ghost use Rattle.std.specs.Prelude.{◌≡◌, ◌≤◌, true, IfSome, IsOk, Ok};
ghost use Rattle.sm_base.specs.declared.names.Name.TheVariants.{Cbt};
ghost use Rattle.vg_volumes.specs.Stored.{Counts, WorksOn};
ghost use Rattle.sm_cbt.specs.Marks.{IsWithinLog};
ghost use Rattle.sm_log.specs.Logs.{log_of, on_log, touched};
ghost use Rattle.sm_logs.specs.Held.{is_touched};
ghost use Rattle.sm_ready.specs.Framing.{IsBetweenSteps};
ghost use Rattle.sm_ready.specs.Sessions.{IsReadyStore};
ghost use Rattle.sm_tracking.specs.Tracking.{HasChangedLogs};

use sm_base::Failed;
use sm_cbt::touch;
use sm_ready::Memory;
use uuid::Uuid;
use vg_volumes::Store;

/// Marks the pieces that so many sectors of a disk from one on reach in its log, where it has one, in memory and on the store, so that the marks last.
/// Where the disk has no log, and where all of them were marked, no call of the store is made.
///
/// # Errors
/// A call of the store failed: memory has the marks, and a stop leaves each of them or not.
pub fn mark<S: Store>(
    store: &mut S,
    memory: &mut Memory,
    disk: &Uuid,
    sector: u64,
    count: u64,
) -> Result<(), Failed>
    requires session { IsBetweenSteps S.Store store.old memory.old }
    requires some { 1 ≤ count }
    ensures works { WorksOn S.Store (Cbt disk.now) store.old store.new }
    ensures cause { Counts S.Store result store.old store.new }
    ensures memory { memory.new ≡ record memory.old { logs = on_log disk.now (touched sector count) memory.old.logs } }
    ensures session_still { IsBetweenSteps S.Store store.new memory.new }
    ensures still { is_touched disk.now sector count memory.old.logs ≡ true → IsOk result × (store.new ≡ store.old) }
    ensures marked { S.told → IsReadyStore S.Store store.old memory.old → IfSome (log_of disk.now memory.old.logs) (IsWithinLog sector count)
        → HasChangedLogs S.Store store.old memory.old store.new memory.new (on_log disk.now (touched sector count) memory.old.logs) (result ≡ Ok tt) }
{
    touch(store, &mut memory.logs, disk, sector, count)
}
