//! Tracking of a disk begins and ends: its log is made, and removed.

ghost use Rattle.std.specs.Prelude.{◌≡◌, ℕ, ◌<◌, ◌^◌, None, false, List, length, OnOk, OnErr};
ghost use Rattle.sm_base.specs.declared.faults.CallFault.TheVariants as fault;
ghost use Rattle.sm_base.specs.declared.names.Name.TheVariants.{Cbt};
ghost use Rattle.vg_meta.specs.declared.changes.Change.TheVariants.{Remove};
ghost use Rattle.vg_meta.specs.Roomy.{table_alone};
ghost use Rattle.vg_meta.specs.Tables.{VolumeTable};
ghost use Rattle.vg_volumes.specs.Stored.{CanCommit, Commits, Counts, FailsToCommit, Faults, IsEitherOf, Leaves, OnlyReads, stored};
ghost use Rattle.sm_log.specs.Logs.{log_of, new_log, with_log, without_log};
ghost use Rattle.sm_logs.specs.Held.{log_limit};
ghost use Rattle.sm_cbt.specs.Making.{FailsToMake, IsMaking, Makes, MayMake};

use crate::volumes::make;
use sm_base::{CallFault, Failed, Name};
use sm_log::Bits;
use sm_logs::{Log, Logs};
use std::alloc::Global;
use uuid::Uuid;
use vg_meta::Change;
use vg_volumes::Store;

/// Makes the log of a disk that has none, of so many pieces, on these extents: its volume, in which no bit is set, and then what memory has of it. All
/// memory is taken before anything is written.
///
/// # Errors
/// A call of the store failed, and no volume of the log is there, or one that is new; or memory ran out, and nothing has changed. Memory has no
/// log of the disk then.
pub fn start<S: Store>(
    alloc: Global,
    store: &mut S,
    logs: &mut Logs,
    disk: &Uuid,
    pieces: u32,
    extents: Vec<u32>,
) -> Result<(), CallFault>
    requires absent { log_of disk.now logs.old ≡ None }
    requires few { length logs.old < log_limit }
    requires counted { length extents.items < 2 ^ 32 }
    requires usable { S.failed store.old ≡ false }
    requires may { MayMake (S.site store.old) (table_alone (S.table store.old)) (new_log disk.now (length extents.items) pieces) extents.items }
    ensures logs { OnOk result (logs.new ≡ with_log (new_log disk.now (length extents.items) pieces) logs.old) }
    ensures kept { OnErr result (logs.new ≡ logs.old) }
    ensures makes { OnOk result (Makes S.Store (new_log disk.now (length extents.items) pieces) extents.items store.old store.new) }
    ensures fails { result ≡ Err fault.Device → FailsToMake S.Store (new_log disk.now (length extents.items) pieces) extents.items store.old store.new }
    ensures poor { result ≡ Err fault.NoMemory → OnlyReads S.Store store.old store.new × (S.faults store.new ≡ S.faults store.old) }
    ensures fewer { result ≡ Err fault.NoMemory → (t : VolumeTable) (image : ℕ → List ℕ) → S.leaves store.new t image → S.leaves store.old t image }
    ensures cause { (result ≡ Err fault.Device → Faults S.Store store.old store.new) × OnOk result (S.faults store.new ≡ S.faults store.old) }
    ensures crash { Leaves S.Store store.new (IsMaking (stored S.Store store.old) (new_log disk.now (length extents.items) pieces) extents.items) }
{
    let count = extents.len() as u32;
    let Ok(bits) = Bits::new(alloc, pieces) else {
        return Err(CallFault::NoMemory);
    };
    let log = Log::new(*disk, count, 0, 0, bits);
    let Ok(()) = store.reserve_rows(1) else {
        return Err(CallFault::NoMemory);
    };
    let Ok(()) = make(store, &log, extents) else {
        return Err(CallFault::Device);
    };
    logs.insert(log);
    Ok(())
}

/// Removes the log of a disk: its volume by one commit, and then what memory has of it.
///
/// # Errors
/// The commit failed; memory has the log still.
pub fn stop<S: Store>(store: &mut S, logs: &mut Logs, disk: &Uuid) -> Result<(), Failed>
    requires { CanCommit S.Store (Remove (Cbt disk.now)) store.old }
    ensures logs { OnOk result (logs.new ≡ without_log disk.now logs.old) }
    ensures kept { OnErr result (logs.new ≡ logs.old) }
    ensures commits { OnOk result (Commits S.Store (Remove (Cbt disk.now)) store.old store.new) }
    ensures fails { OnErr result (FailsToCommit S.Store store.old store.new) }
    ensures cause { Counts S.Store result store.old store.new }
    ensures crash { Leaves S.Store store.new (IsEitherOf (stored S.Store store.old) (Remove (Cbt disk.now))) }
{
    let name = Name::Cbt(*disk);
    store.commit(Change::Remove { name })?;
    let _ = logs.remove(disk);
    Ok(())
}
