//! Making a VHD disk, by a command.

ghost use Rattle.std.specs.Prelude.{◌≡◌, ℕ, List, true, false, IfOk, OnOk};
ghost use Rattle.sm_machine.specs.declared.replies.Reply.TheVariants.{No};
ghost use Rattle.sm_base.specs.declared.refusals.Refusal.TheVariants.{NoMemory};
ghost use Rattle.sm_base.specs.declared.refusals.Refusal.{Refusal};
ghost use Rattle.sm_base.specs.declared.names.Name.TheVariants.{Vhd};
ghost use Rattle.vg_meta.specs.Roomy.{table_alone};
ghost use Rattle.vg_meta.specs.Tables.{VolumeTable};
ghost use Rattle.vg_volumes.specs.Stored.{stored, sectors_in, OnlyReads, Counts};
ghost use Rattle.vhd_chain.specs.Trees.{with_row};
ghost use Rattle.vhd_volumes.specs.Steps.{Gives};
ghost use Rattle.sm_machine.specs.declared.commands.Command.TheVariants.{Create};
ghost use Rattle.sm_machine.specs.Runs.{is_accepted};
ghost use Rattle.sm_ready.specs.Framing.{IsBetweenSteps, StepsOn};
ghost use Rattle.sm_ready.specs.Refusing.{IsAllowed};
ghost use Rattle.sm_ready.specs.Sessions.{IsReadyStore, StaysInUse};
ghost use Rattle.sm_ready.specs.Taken.{StoreTakes};
ghost use Rattle.cmd_create.specs.Vhds.{IsVhdOnLeast, HasHead, made_head, made_row, vhd_sectors};

use crate::vhd_making::make_vhd;
use sm_base::{CallFault, Failed, Label, Refusal, SECTOR};
use sm_machine::Reply;
use sm_ready::Memory;
use std::alloc::Global;
use uuid::Uuid;
use vg_extents::first_fit;
use vg_volumes::Store;

/// Makes a VHD disk of at least so many bytes, where no cause refuses it. One for which memory is wanting writes nothing.
/// `now` is in seconds since the beginning of the year 2000.
///
/// # Errors
/// A call of the store failed; a stop leaves the disks from before, or these and the new one.
#[tactic(auto, unfolding(sm_machine::specs::Runs::is_accepted))]
pub fn create_vhd<S: Store>(
    alloc: Global,
    store: &mut S,
    memory: &mut Memory,
    disk: &Uuid,
    size: u64,
    label: &Label,
    now: u32,
) -> Result<Reply, Failed>
    requires session { IsBetweenSteps S.Store store.old memory.old }
    requires allowed { IsAllowed S.Store (Create disk.now size false label.now) store.old memory.old }
    ensures step { StepsOn S.Store 2 store.old store.new }
    ensures cause { Counts S.Store result store.old store.new }
    ensures in_use { StaysInUse memory.old memory.new }
    ensures session_still { OnOk result (IsBetweenSteps S.Store store.new memory.new) }
    ensures poor { IfOk result (λ r. (x : Refusal) → r ≡ No x → x ≡ NoMemory) }
    ensures refused { IfOk result (λ r. is_accepted r ≡ false → (t : VolumeTable) (image : ℕ → List ℕ) → S.leaves store.new t image → S.leaves store.old t image) }
    ensures untouched { IfOk result (λ r. is_accepted r ≡ false → OnlyReads S.Store store.old store.new × (memory.new ≡ memory.old)) }
    ensures least { IfOk result (λ r. is_accepted r ≡ true → IsVhdOnLeast (S.site store.old) (table_alone (S.table store.old)) disk.now (table_alone (S.table store.new))) }
    // The image in memory, which has no slots, and nothing else: made now, with a unique id by the number after one commit.
    ensures image { IfOk result (λ r. is_accepted r ≡ true → memory.new.tree.rows
        ≡ with_row (made_row (S.site store.old) (table_alone (S.table store.old)) disk.now now (vhd_sectors (S.site store.old).geometry.block size)) memory.old.tree.rows) }
    // Its footers and its header, byte for byte.
    ensures head { IfOk result (λ r. is_accepted r ≡ true → Gives S.Store (Vhd disk.now) (HasHead (sectors_in (stored S.Store store.new) (Vhd disk.now))
        (made_head (S.site store.old) (table_alone (S.table store.old)) disk.now now (vhd_sectors (S.site store.old).geometry.block size))) store.new) }
    ensures taken { S.told → IsReadyStore S.Store store.old memory.old
        → StoreTakes S.Store (Create disk.now size false label.now) store.old memory.old store.new memory.new result }
{
    let geometry = store.geometry();
    let block = u64::from(geometry.block);
    let sectors = size.div_ceil(SECTOR * block) * block;
    let need = geometry.thin(0) as u32;
    let Ok(found) = first_fit(alloc, store.table(), store.extents(), need) else {
        return Ok(Reply::No(Refusal::NoMemory));
    };
    match make_vhd(alloc, store, memory, *disk, *label, found, sectors, now) {
        Ok(()) => Ok(Reply::Size(sectors * SECTOR)),
        Err(CallFault::NoMemory) => Ok(Reply::No(Refusal::NoMemory)),
        Err(CallFault::Device) => Err(Failed),
    }
}
