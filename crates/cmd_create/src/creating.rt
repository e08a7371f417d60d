//! Making a raw disk, by a command.

ghost use Rattle.std.specs.Prelude.{◌≡◌, ℕ, List, true, false, IfOk, OnOk};
ghost use Rattle.sm_machine.specs.declared.replies.Reply.TheVariants.{No};
ghost use Rattle.sm_base.specs.declared.refusals.Refusal.TheVariants.{NoMemory};
ghost use Rattle.sm_base.specs.declared.refusals.Refusal.{Refusal};
ghost use Rattle.vg_meta.specs.Roomy.{table_alone};
ghost use Rattle.vg_meta.specs.Tables.{VolumeTable};
ghost use Rattle.sm_machine.specs.declared.commands.Command.TheVariants.{Create};
ghost use Rattle.sm_machine.specs.Runs.{is_accepted};
ghost use Rattle.vg_volumes.specs.Stored.{OnlyReads, Counts};
ghost use Rattle.sm_ready.specs.Framing.{IsBetweenSteps, StepsOn};
ghost use Rattle.sm_ready.specs.Sessions.{IsReadyStore, StaysInUse};
ghost use Rattle.sm_ready.specs.Taken.{StoreTakes};
ghost use Rattle.cmd_create.specs.Making.{IsOnLeast};
ghost use Rattle.sm_ready.specs.Refusing.{IsAllowed, extents_for};

use crate::making::make_raw;
use sm_base::{CallFault, Failed, Label, Refusal, SECTOR};
use sm_machine::Reply;
use sm_ready::{Memory, extents_needed};
use std::alloc::Global;
use uuid::Uuid;
use vg_extents::first_fit;
use vg_volumes::Store;

/// Makes a raw disk of at least so many bytes, where no cause refuses it. A disk for which memory is wanting writes
/// nothing.
///
/// # Errors
/// A call of the store failed; a stop leaves the disks from before, or these and the new one.
#[tactic(auto, unfolding(sm_machine::specs::Runs::is_accepted))]
pub fn create<S: Store>(
    alloc: Global,
    store: &mut S,
    memory: &mut Memory,
    disk: &Uuid,
    size: u64,
    label: &Label,
) -> Result<Reply, Failed>
    requires session { IsBetweenSteps S.Store store.old memory.old }
    requires allowed { IsAllowed S.Store (Create disk.now size true label.now) store.old memory.old }
    ensures step { StepsOn S.Store 2 store.old store.new }
    ensures cause { Counts S.Store result store.old store.new }
    ensures in_use { StaysInUse memory.old memory.new }
    ensures session_still { OnOk result (IsBetweenSteps S.Store store.new memory.new) }
    ensures poor { IfOk result (λ r. (x : Refusal) → r ≡ No x → x ≡ NoMemory) }
    ensures refused { IfOk result (λ r. is_accepted r ≡ false → (t : VolumeTable) (image : ℕ → List ℕ) → S.leaves store.new t image → S.leaves store.old t image) }
    ensures untouched { IfOk result (λ r. is_accepted r ≡ false → OnlyReads S.Store store.old store.new × (memory.new ≡ memory.old)) }
    ensures least { IfOk result (λ r. is_accepted r ≡ true
        → IsOnLeast (S.site store.old) (table_alone (S.table store.old)) disk.now (extents_for (S.site store.old).geometry.extent size) (table_alone (S.table store.new))) }
    ensures taken { S.told → IsReadyStore S.Store store.old memory.old
        → StoreTakes S.Store (Create disk.now size true label.now) store.old memory.old store.new memory.new result }
{
    let geometry = store.geometry();
    let extents = store.extents();
    let need = extents_needed(&geometry, size);
    let Ok(found) = first_fit(alloc, store.table(), extents, need as u32) else {
        return Ok(Reply::No(Refusal::NoMemory));
    };
    match make_raw(alloc, store, memory, *disk, *label, found) {
        Ok(()) => Ok(Reply::Size(need * u64::from(geometry.extent) * SECTOR)),
        Err(CallFault::NoMemory) => Ok(Reply::No(Refusal::NoMemory)),
        Err(CallFault::Device) => Err(Failed),
    }
}
