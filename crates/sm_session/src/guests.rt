//! Carrying out what a guest's host asks: a disk comes into use, its sectors are read and written, and it goes out of use.

ghost use Rattle.std.specs.Prelude.{◌≡◌, ◌≤◌, ◌<◌, ◌+◌, ◌*◌, ℕ, List, true, false, IfOk, OnOk};
ghost use Rattle.vg_meta.specs.Tables.{VolumeTable};
ghost use Rattle.sm_machine.specs.Runs.{is_accepted};
ghost use Rattle.sm_run.specs.Runs.{may_want_memory};
ghost use Rattle.sm_ready.specs.Does.{store_shape};
ghost use Rattle.sm_base.specs.declared.refusals.Refusal.{Refusal};
ghost use Rattle.sm_base.specs.declared.refusals.Refusal.TheVariants.{NoMemory};
ghost use Rattle.sm_machine.specs.declared.replies.Reply.TheVariants.{No};
ghost use Rattle.vg_volumes.specs.Stored.{OnlyReads, Counts};
ghost use Rattle.sm_ready.specs.Refusing.{IsAllowed};
ghost use Rattle.sm_ready.specs.Framing.{IsBetweenSteps, StepsOn};
ghost use Rattle.sm_ready.specs.Sessions.{IsReadyStore};
ghost use Rattle.sm_ready.specs.Taken.{StoreTakes};
ghost use Rattle.sm_session.specs.Carrying.{WritesOnlyIts, is_guests, most_commits};

use cmd_attach::{attach, detach};
use cmd_guest::{fill, flush, read, write};
use sm_base::{CallFault, Failed, Refusal};
use sm_machine::{Command, Reply};
use sm_pool::Pool;
use sm_ready::Memory;
use std::alloc::Global;
use vg_volumes::Store;

/// Carries out a guest's command that no cause refuses. A fill borrows a buffer of the pool, which it gives back.
pub(crate) fn serve<S: Store>(
    alloc: Global,
    store: &mut S,
    memory: &mut Memory,
    pool: &mut Pool,
    command: &Command,
) -> Result<Reply, Failed>
    requires session { IsBetweenSteps S.Store store.old memory.old }
    requires buffer { (0 < pool.old.free) × (512 * (1 + (S.site store.old).geometry.block) ≤ pool.old.bytes) }
    requires guests { is_guests command.now ≡ true }
    requires allowed { IsAllowed S.Store command.now store.old memory.old }
    ensures step { StepsOn S.Store (most_commits command.now) store.old store.new }
    ensures cause { Counts S.Store result store.old store.new }
    ensures pool { pool.new ≡ pool.old }
    ensures session_still { OnOk result (IsBetweenSteps S.Store store.new memory.new) }
    ensures logs { memory.new.logs ≡ memory.old.logs }
    ensures refused { IfOk result (λ r. is_accepted r ≡ false → (t : VolumeTable) (image : ℕ → List ℕ) → S.leaves store.new t image → S.leaves store.old t image) }
    ensures spared { IfOk result (λ r. r ≡ No NoMemory → may_want_memory (store_shape S.Store store.old memory.old) command.now ≡ true) }
    ensures poor { IfOk result (λ r. (x : Refusal) → r ≡ No x → x ≡ NoMemory) }
    ensures untouched { IfOk result (λ r. is_accepted r ≡ false → OnlyReads S.Store store.old store.new × (memory.new ≡ memory.old)) }
    ensures writes { WritesOnlyIts S.Store memory.old command.now store.old store.new }
    ensures taken { S.told → IsReadyStore S.Store store.old memory.old
        → StoreTakes S.Store command.now store.old memory.old store.new memory.new result }
{
    match command {
        Command::Attach { disk, mode } => match attach(alloc, store, memory, disk, *mode) {
            Ok(()) => Ok(Reply::Done),
            Err(CallFault::NoMemory) => Ok(Reply::No(Refusal::NoMemory)),
            Err(CallFault::Device) => Err(Failed),
        },
        Command::Detach { disk } => {
            detach(store, memory, disk)?;
            Ok(Reply::Done)
        }
        Command::Write {
            disk,
            sector,
            bytes,
        } => {
            write(store, memory, disk, *sector, &bytes.bytes)?;
            Ok(Reply::Done)
        }
        Command::Fill {
            disk,
            sector,
            count,
            byte,
        } => {
            fill(store, memory, pool, disk, *sector, *count, *byte)?;
            Ok(Reply::Done)
        }
        Command::Read {
            disk,
            sector,
            count,
        } => read(alloc, store, memory, disk, *sector, *count),
        Command::Flush { .. } => {
            flush(store)?;
            Ok(Reply::Done)
        }
        _ => unreachable!(),
    }
}
