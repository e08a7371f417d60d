//! Sectors of a disk are read.

ghost use Rattle.std.specs.Prelude.{◌≡◌, ℕ, List, false, IfOk};
ghost use Rattle.sm_machine.specs.declared.replies.Reply.TheVariants.{No};
ghost use Rattle.sm_base.specs.declared.refusals.Refusal.TheVariants.{NoMemory};
ghost use Rattle.sm_base.specs.declared.refusals.Refusal.{Refusal};
ghost use Rattle.vg_meta.specs.Tables.{VolumeTable};
ghost use Rattle.vg_volumes.specs.Stored.{Counts, OnlyReads};
ghost use Rattle.sm_machine.specs.declared.commands.Command.TheVariants.{Read};
ghost use Rattle.sm_machine.specs.Runs.{is_accepted};
ghost use Rattle.sm_ready.specs.Framing.{IsBetweenSteps};
ghost use Rattle.sm_ready.specs.Refusing.{IsAllowed};
ghost use Rattle.sm_ready.specs.Sessions.{IsReadyStore};
ghost use Rattle.sm_ready.specs.Taken.{StoreTakes};

use sm_base::{Failed, Refusal};
use sm_machine::{Bytes, Reply};
use sm_ready::{Memory, image_name};
use std::alloc::Global;
use uuid::Uuid;
use vg_volumes::Store;

/// The bytes of a sector.
const SECTOR: usize = 512;

/// Reads so many sectors of a disk, at most 128, from one on, or finds no memory for their bytes. Nothing is written.
///
/// # Errors
/// A call of the store failed.
#[tactic(auto, unfolding(sm_machine::specs::Runs::is_accepted))]
pub fn read<S: Store>(
    alloc: Global,
    store: &mut S,
    memory: &Memory,
    disk: &Uuid,
    sector: u64,
    count: u64,
) -> Result<Reply, Failed>
    requires session { IsBetweenSteps S.Store store.old memory.now }
    requires allowed { IsAllowed S.Store (Read disk.now sector count) store.old memory.now }
    ensures reads_only { OnlyReads S.Store store.old store.new }
    ensures cause { Counts S.Store result store.old store.new }
    ensures session_still { IsBetweenSteps S.Store store.new memory.now }
    ensures poor { IfOk result (λ r. (x : Refusal) → r ≡ No x → x ≡ NoMemory) }
    ensures refused { IfOk result (λ r. is_accepted r ≡ false → (t : VolumeTable) (image : ℕ → List ℕ) → S.leaves store.new t image → S.leaves store.old t image) }
    ensures taken { S.told → IsReadyStore S.Store store.old memory.now
        → StoreTakes S.Store (Read disk.now sector count) store.old memory.now store.new memory.now result }
{
    let Ok(mut bytes) = vec![in alloc; 0; SECTOR * count as usize] else {
        return Ok(Reply::No(Refusal::NoMemory));
    };
    let volume = image_name(&memory.tree, disk);
    memory.tree.read(store, &volume, sector, &mut bytes)?;
    Ok(Reply::Bytes(Bytes { bytes }))
}
