//! The log of a disk begins and ends, or goes behind the disk, and what the logs tell.

ghost use Rattle.std.specs.Prelude.{◌≡◌, ◌⊎◌, ℕ, List, true, false, Ok, IfOk, OnOk};
ghost use Rattle.vg_meta.specs.Tables.{VolumeTable};
ghost use Rattle.vg_volumes.specs.Stored.{Counts, OnlyReads};
ghost use Rattle.sm_base.specs.declared.refusals.Refusal.{Refusal};
ghost use Rattle.sm_base.specs.declared.refusals.Refusal.TheVariants.{NoMemory};
ghost use Rattle.sm_log.specs.Logs.{changed as changed_pieces, log_of, without_log};
ghost use Rattle.sm_machine.specs.declared.commands.Command.TheVariants.{Track};
ghost use Rattle.sm_machine.specs.declared.replies.Reply.TheVariants.{Changed, No};
ghost use Rattle.sm_machine.specs.Refusals.{disk_pieces as machine_pieces, of_log};
ghost use Rattle.sm_machine.specs.Runs.{is_accepted, takes_memory};
ghost use Rattle.sm_machine.specs.Steps.{changed_text};
ghost use Rattle.sm_machine.specs.Tracking.{AreGoodLogs, logs_after, with_logs};
ghost use Rattle.sm_ready.specs.Does.{store_shape};
ghost use Rattle.sm_ready.specs.Framing.{IsBetweenSteps, StepsOn};
ghost use Rattle.sm_ready.specs.Known.{known};
ghost use Rattle.sm_ready.specs.Refusing.{IsAllowed, Recalls};
ghost use Rattle.sm_ready.specs.Sessions.{IsReadyStore};
ghost use Rattle.sm_session.specs.Carrying.{most_log_commits};
ghost use Rattle.sm_session.specs.Stepped.{StoreSteps};
ghost use Rattle.sm_tracking.specs.Tracking.{HasChangedLogs};

use sm_base::{CallFault, Failed, Refusal};
use sm_machine::{Bytes, Reply};
use sm_ready::{Memory, disk_pieces};
use sm_tracking::{begin, end};
use std::alloc::Global;
use uuid::Uuid;
use vg_volumes::Store;

/// Removes the log of a disk, where it has one, by one commit.
pub(crate) fn untrack<S: Store>(
    store: &mut S,
    memory: &mut Memory,
    disk: &Uuid,
) -> Result<(), Failed>
    requires session { IsBetweenSteps S.Store store.old memory.old }
    ensures step { StepsOn S.Store 1 store.old store.new }
    ensures cause { Counts S.Store result store.old store.new }
    ensures memory { OnOk result (memory.new ≡ record memory.old { logs = without_log disk.now memory.old.logs }) }
    ensures session_still { OnOk result (IsBetweenSteps S.Store store.new memory.new) }
    ensures shape { OnOk result (store_shape S.Store store.new memory.new
        ≡ with_logs (without_log disk.now memory.old.logs) (of_log (λ l. 1) (log_of disk.now memory.old.logs)) (store_shape S.Store store.old memory.old)) }
    ensures removed { S.told → IsReadyStore S.Store store.old memory.old
        → HasChangedLogs S.Store store.old memory.old store.new memory.new (without_log disk.now memory.old.logs) (result ≡ Ok tt) }
{
    if memory.logs.get(disk).is_none() {
        return Ok(());
    }
    end(store, memory, disk)
}

/// Begins to track a disk, or ends it, where no cause refuses it. The memory that a beginning takes is taken first.
pub(crate) fn track<S: Store>(
    alloc: Global,
    store: &mut S,
    memory: &mut Memory,
    disk: &Uuid,
    on: bool,
) -> Result<Reply, Failed>
    requires session { IsBetweenSteps S.Store store.old memory.old }
    requires allowed { IsAllowed S.Store (Track disk.now on) store.old memory.old }
    ensures step { StepsOn S.Store (most_log_commits (Track disk.now on)) store.old store.new }
    ensures cause { Counts S.Store result store.old store.new }
    ensures session_still { OnOk result (IsBetweenSteps S.Store store.new memory.new) }
    ensures logs { OnOk result ((memory.new.logs ≡ memory.old.logs) ⊎ (memory.new.logs ≡ logs_after (store_shape S.Store store.old memory.old) (Track disk.now on))) }
    ensures refused { IfOk result (λ r. is_accepted r ≡ false → (t : VolumeTable) (image : ℕ → List ℕ) → S.leaves store.new t image → S.leaves store.old t image) }
    ensures spared { IfOk result (λ r. r ≡ No NoMemory → takes_memory (Track disk.now on) ≡ true) }
    ensures poor { IfOk result (λ r. (x : Refusal) → r ≡ No x → x ≡ NoMemory) }
    ensures untouched { IfOk result (λ r. is_accepted r ≡ false → OnlyReads S.Store store.old store.new × (memory.new ≡ memory.old)) }
    ensures taken { S.told → IsReadyStore S.Store store.old memory.old → ∥ AreGoodLogs (store_shape S.Store store.old memory.old) ∥₁
        → StoreSteps S.Store (Track disk.now on) store.old memory.old store.new memory.new result }
{
    if on {
        match begin(alloc, store, memory, disk) {
            Ok(()) => Ok(Reply::Done),
            Err(CallFault::NoMemory) => Ok(Reply::No(Refusal::NoMemory)),
            Err(CallFault::Device) => Err(Failed),
        }
    } else {
        end(store, memory, disk)?;
        Ok(Reply::Done)
    }
}

/// The pieces that changed between two disks, as text, or want of memory. The text is empty where the logs do not lead from the later disk back
/// to the earlier one.
pub(crate) fn changed(alloc: Global, memory: &Memory, from: &Uuid, to: &Uuid) -> Reply
    ensures poor { (x : Refusal) → result ≡ No x → x ≡ NoMemory }
    ensures changed { (result ≡ No NoMemory) ⊎ ((pieces : ℕ) × Recalls (λ σ. machine_pieces from.now σ) (known memory.now) pieces
        × (result ≡ Changed (changed_text pieces (changed_pieces pieces from.now to.now memory.now.logs)))) }
{
    let pieces = disk_pieces(memory, from);
    match memory.logs.told(alloc, from, to, pieces) {
        Ok(Some(text)) => {
            let bytes = text.into_bytes();
            Reply::Changed(Bytes { bytes })
        }
        Ok(None) => {
            let bytes = Vec::new(alloc);
            Reply::Changed(Bytes { bytes })
        }
        Err(_) => Reply::No(Refusal::NoMemory),
    }
}
