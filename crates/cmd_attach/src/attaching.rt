//! Attaching a disk whose image has its extents, and detaching one.

ghost use Rattle.std.specs.Prelude.{◌≡◌, OnOk, OnErr};
ghost use Rattle.vg_volumes.specs.Stored.{Counts, Stays};
ghost use Rattle.sm_machine.specs.declared.commands.Command.TheVariants as command;
ghost use Rattle.sm_ready.specs.Refusing.{IsAllowed};
ghost use Rattle.sm_ready.specs.Does.{IsKeptUp, NeedsNone, ShapesAs, StoreDoes};
ghost use Rattle.sm_ready.specs.Framing.{IsBetweenSteps};
ghost use Rattle.sm_ready.specs.Sessions.{IsReadyStore};
ghost use Rattle.cmd_attach.specs.Attaching.{StaysBeside};

use crate::chains::chain_into;
use sm_base::{CHAIN_LIMIT, Failed, Mode, Name};
use sm_ready::{Memory, image_name};
use uuid::Uuid;
use vg_volumes::Store;

/// Notes that a disk is attached for this mode; its image has the extents that the mode asks for. Makes all last first.
///
/// # Errors
/// The sync failed; the disk is not attached.
pub(crate) fn note<S: Store>(
    store: &mut S,
    memory: &mut Memory,
    disk: &Uuid,
    mode: Mode,
) -> Result<(), Failed>
    requires session { IsBetweenSteps S.Store store.old memory.old }
    requires allowed { IsAllowed S.Store (command.Attach disk.now mode) store.old memory.old }
    requires kept_up { IsKeptUp S.Store (command.Attach disk.now mode) store.old memory.old }
    requires enough { NeedsNone S.Store (command.Attach disk.now mode) store.old memory.old }
    ensures stays { Stays S.Store store.old store.new }
    ensures cause { Counts S.Store result store.old store.new }
    ensures session_still { IsBetweenSteps S.Store store.new memory.new }
    ensures others { StaysBeside memory.old memory.new }
    ensures shape { OnOk result (ShapesAs S.Store (command.Attach disk.now mode) store.old memory.old store.new memory.new) }
    ensures done { S.told → IsReadyStore S.Store store.old memory.old
        → StoreDoes S.Store (command.Attach disk.now mode) store.old memory.old store.new memory.new (result ≡ Ok tt) }
{
    store.sync()?;
    let mut names = [Name::Mgt; CHAIN_LIMIT as usize];
    let leaf = image_name(&memory.tree, disk);
    let count = chain_into(&memory.tree, &leaf, &mut names);
    memory.attached.enter(*disk, mode, &names[..count]);
    Ok(())
}

/// Notes that a disk is no longer attached, where no operation is given up. Makes all last first.
///
/// # Errors
/// The sync failed; the disk is attached as before.
pub(crate) fn leave<S: Store>(store: &mut S, memory: &mut Memory, disk: &Uuid) -> Result<(), Failed>
    requires session { IsBetweenSteps S.Store store.old memory.old }
    requires allowed { IsAllowed S.Store (command.Detach disk.now) store.old memory.old }
    requires kept_up { IsKeptUp S.Store (command.Detach disk.now) store.old memory.old }
    ensures stays { Stays S.Store store.old store.new }
    ensures cause { Counts S.Store result store.old store.new }
    ensures session_still { IsBetweenSteps S.Store store.new memory.new }
    ensures others { StaysBeside memory.old memory.new }
    ensures attached { OnErr result (memory.new.attached ≡ memory.old.attached) }
    ensures shape { OnOk result (ShapesAs S.Store (command.Detach disk.now) store.old memory.old store.new memory.new) }
    ensures done { S.told → IsReadyStore S.Store store.old memory.old
        → StoreDoes S.Store (command.Detach disk.now) store.old memory.old store.new memory.new (result ≡ Ok tt) }
{
    store.sync()?;
    let mut names = [Name::Mgt; CHAIN_LIMIT as usize];
    let leaf = image_name(&memory.tree, disk);
    let count = chain_into(&memory.tree, &leaf, &mut names);
    memory.attached.leave(disk, &names[..count]);
    Ok(())
}
