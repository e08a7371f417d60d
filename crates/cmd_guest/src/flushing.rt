//! All that was written is made last.

ghost use Rattle.std.specs.Prelude.{◌≡◌, ℕ, false, List};
ghost use Rattle.vg_volumes.specs.Stored.{Counts, Stays};
ghost use Rattle.sm_machine.specs.declared.commands.Command.TheVariants.{Flush};
ghost use Rattle.sm_machine.specs.declared.replies.Reply.TheVariants.{Done};
ghost use Rattle.sm_ready.specs.Framing.{IsBetweenSteps};
ghost use Rattle.sm_ready.specs.Refusing.{IsAllowed};
ghost use Rattle.sm_ready.specs.Sessions.{IsOrderlyStore, IsReadyStore};
ghost use Rattle.sm_ready.specs.declared.memory.Memory.{Memory};
ghost use Rattle.sm_ready.specs.Taken.{StoreTakes};
ghost use Rattle.cmd_guest.specs.Taken.{answered};

use sm_base::Failed;
use vg_volumes::Store;

/// Makes all last that guests wrote, of every disk, by one sync.
///
/// # Errors
/// The sync failed: what was written may last, or not.
pub fn flush<S: Store>(store: &mut S) -> Result<(), Failed>
    requires usable { S.failed store.old ≡ false }
    ensures stays { Stays S.Store store.old store.new }
    ensures cause { Counts S.Store result store.old store.new }
    ensures session_still { (m : Memory) → IsBetweenSteps S.Store store.old m → IsBetweenSteps S.Store store.new m }
    ensures taken { S.told → (m : Memory) (disk : List ℕ) → IsOrderlyStore S.Store store.old m → IsReadyStore S.Store store.old m
        → IsAllowed S.Store (Flush disk) store.old m → StoreTakes S.Store (Flush disk) store.old m store.new m (answered Done result) }
{
    store.sync()
}
