//! Carrying out what makes a disk of another: a snapshot, or a clone.

ghost use Rattle.std.specs.Prelude.{◌≡◌, ◌≤◌, ◌⊎◌, ℕ, List, false, IfOk, OnOk};
ghost use Rattle.sm_clone.specs.Forking.{forking};
ghost use Rattle.vg_meta.specs.Tables.{VolumeTable};
ghost use Rattle.sm_base.specs.declared.refusals.Refusal.{Refusal};
ghost use Rattle.sm_base.specs.declared.refusals.Refusal.TheVariants.{NoMemory};
ghost use Rattle.sm_machine.specs.declared.replies.Reply.TheVariants.{No};
ghost use Rattle.sm_machine.specs.Runs.{is_accepted};
ghost use Rattle.vg_volumes.specs.Stored.{OnlyReads, Counts};
ghost use Rattle.sm_ready.specs.Refusing.{IsAllowed};
ghost use Rattle.sm_machine.specs.declared.commands.Command.TheVariants.{Snapshot};
ghost use Rattle.sm_machine.specs.Tracking.{AreGoodLogs, logs_after};
ghost use Rattle.vg_meta.specs.Roomy.{table_alone};
ghost use Rattle.sm_ready.specs.Does.{store_shape};
ghost use Rattle.sm_ready.specs.Framing.{IsBetweenSteps, StepsOn};
ghost use Rattle.sm_ready.specs.Sessions.{IsReadyStore};
ghost use Rattle.sm_ready.specs.Taken.{StoreTakes};
ghost use Rattle.sm_tracking.specs.Rooms.{IsRoomFor};
ghost use Rattle.sm_session.specs.Stepped.{StoreSteps};

use sm_base::{CallFault, Failed, Refusal};
use sm_clone::fork;
use sm_machine::Reply;
use sm_ready::Memory;
use sm_tracking::{Room, prepare, split};
use std::alloc::Global;
use uuid::Uuid;
use vg_volumes::Store;

/// Makes a disk, the twin, of another, where no cause refuses it: a snapshot, which is read-only, or a clone.
pub(crate) fn derive<S: Store>(
    alloc: Global,
    store: &mut S,
    memory: &mut Memory,
    disk: &Uuid,
    twin: &Uuid,
    read_only: bool,
    now: u32,
) -> Result<Reply, Failed>
    requires session { IsBetweenSteps S.Store store.old memory.old }
    requires allowed { IsAllowed S.Store (forking disk.now twin.now read_only) store.old memory.old }
    ensures step { StepsOn S.Store 9 store.old store.new }
    ensures cause { Counts S.Store result store.old store.new }
    ensures session_still { OnOk result (IsBetweenSteps S.Store store.new memory.new) }
    ensures logs { memory.new.logs ≡ memory.old.logs }
    ensures refused { IfOk result (λ r. is_accepted r ≡ false → (t : VolumeTable) (image : ℕ → List ℕ) → S.leaves store.new t image → S.leaves store.old t image) }
    ensures poor { IfOk result (λ r. (x : Refusal) → r ≡ No x → x ≡ NoMemory) }
    ensures untouched { IfOk result (λ r. is_accepted r ≡ false → OnlyReads S.Store store.old store.new × (memory.new ≡ memory.old)) }
    ensures taken { S.told → IsReadyStore S.Store store.old memory.old
        → StoreTakes S.Store (forking disk.now twin.now read_only) store.old memory.old store.new memory.new result }
{
    match fork(alloc, store, memory, disk, twin, read_only, now) {
        Ok(()) => Ok(Reply::Done),
        Err(CallFault::NoMemory) => Ok(Reply::No(Refusal::NoMemory)),
        Err(CallFault::Device) => Err(Failed),
    }
}

/// Makes a snapshot of a tracked disk, where no cause refuses it, and then splits the disk's log, for which this room was taken.
fn snapshot_tracked<S: Store>(
    alloc: Global,
    store: &mut S,
    memory: &mut Memory,
    disk: &Uuid,
    twin: &Uuid,
    room: Room,
    now: u32,
) -> Result<Reply, Failed>
    requires session { IsBetweenSteps S.Store store.old memory.old }
    requires allowed { IsAllowed S.Store (Snapshot disk.now twin.now) store.old memory.old }
    requires room { IsRoomFor (S.site store.old).count memory.old.logs disk.now room }
    requires twin { (room.log.disk ≡ twin.now) × (room.log.tag ≡ (table_alone (S.table store.old)).sequence) }
    ensures step { StepsOn S.Store 11 store.old store.new }
    ensures cause { Counts S.Store result store.old store.new }
    ensures session_still { OnOk result (IsBetweenSteps S.Store store.new memory.new) }
    ensures logs { OnOk result ((memory.new.logs ≡ memory.old.logs) ⊎ (memory.new.logs ≡ logs_after (store_shape S.Store store.old memory.old) (Snapshot disk.now twin.now))) }
    ensures refused { IfOk result (λ r. is_accepted r ≡ false → (t : VolumeTable) (image : ℕ → List ℕ) → S.leaves store.new t image → S.leaves store.old t image) }
    ensures poor { IfOk result (λ r. (x : Refusal) → r ≡ No x → x ≡ NoMemory) }
    ensures untouched { IfOk result (λ r. is_accepted r ≡ false → OnlyReads S.Store store.old store.new × (memory.new ≡ memory.old)) }
    ensures taken { S.told → IsReadyStore S.Store store.old memory.old → ∥ AreGoodLogs (store_shape S.Store store.old memory.old) ∥₁
        → StoreSteps S.Store (Snapshot disk.now twin.now) store.old memory.old store.new memory.new result }
{
    match derive(alloc, store, memory, disk, twin, true, now)? {
        Reply::Done => {}
        other => return Ok(other),
    }
    split(store, memory, room, disk)?;
    Ok(Reply::Done)
}

/// Makes a snapshot of a disk, where no cause refuses it, and splits the disk's log, where it has one. What the split needs is taken first.
pub(crate) fn snapshot<S: Store>(
    alloc: Global,
    store: &mut S,
    memory: &mut Memory,
    disk: &Uuid,
    twin: &Uuid,
    now: u32,
) -> Result<Reply, Failed>
    requires session { IsBetweenSteps S.Store store.old memory.old }
    requires allowed { IsAllowed S.Store (Snapshot disk.now twin.now) store.old memory.old }
    ensures step { StepsOn S.Store 11 store.old store.new }
    ensures cause { Counts S.Store result store.old store.new }
    ensures session_still { OnOk result (IsBetweenSteps S.Store store.new memory.new) }
    ensures logs { OnOk result ((memory.new.logs ≡ memory.old.logs) ⊎ (memory.new.logs ≡ logs_after (store_shape S.Store store.old memory.old) (Snapshot disk.now twin.now))) }
    ensures refused { IfOk result (λ r. is_accepted r ≡ false → (t : VolumeTable) (image : ℕ → List ℕ) → S.leaves store.new t image → S.leaves store.old t image) }
    ensures poor { IfOk result (λ r. (x : Refusal) → r ≡ No x → x ≡ NoMemory) }
    ensures untouched { IfOk result (λ r. is_accepted r ≡ false → OnlyReads S.Store store.old store.new × (memory.new ≡ memory.old)) }
    ensures taken { S.told → IsReadyStore S.Store store.old memory.old → ∥ AreGoodLogs (store_shape S.Store store.old memory.old) ∥₁
        → StoreSteps S.Store (Snapshot disk.now twin.now) store.old memory.old store.new memory.new result }
{
    let extents = store.extents();
    let tag = store.table().seq();
    let Ok(room) = prepare(alloc, memory, extents, disk, *twin, tag) else {
        return Ok(Reply::No(Refusal::NoMemory));
    };
    match room {
        Some(room) => snapshot_tracked(alloc, store, memory, disk, twin, room, now),
        None => derive(alloc, store, memory, disk, twin, true, now),
    }
}
