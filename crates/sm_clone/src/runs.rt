//! Commits, made one after the other.

ghost use Rattle.std.specs.Prelude.{◌≡◌, true, false, OnOk, OnErr};
ghost use Rattle.sm_base.specs.declared.names.Name.TheVariants.{Vhd};
ghost use Rattle.vg_meta.specs.declared.changes.Change.TheVariants.{Create, Mark, Rename};
ghost use Rattle.vg_meta.specs.declared.changes.Tag.TheVariants.{Fresh, Hidden};
ghost use Rattle.vg_volumes.specs.Stored.{Counts};
ghost use Rattle.sm_journal.specs.Entries.{putting};
ghost use Rattle.sm_clone.specs.Forking.{base_name, entry_name, first_changes, last_changes};
ghost use Rattle.sm_calls.specs.Calls.{CanRun, DoesRun, commits};

use crate::forks::Fork;
use sm_base::{Failed, Name};
use sm_calls::{commit_three, commit_two};
use uuid::Uuid;
use vg_meta::{Change, Extents, Table, Tag};
use vg_volumes::Store;

/// The change that makes the entry of a fork.
fn entry_change(table: &Table, fork: &Fork) -> Change
    ensures { result ≡ putting (entry_name fork.now) }
{
    Change::Create {
        name: fork.entry(),
        fresh: false,
        extents: table.no_extents(),
    }
}

/// The change that gives the disk's image the base's name.
fn moved_image(fork: &Fork) -> Change
    ensures { result ≡ Rename fork.now.own (base_name fork.now) }
{
    Change::Rename {
        from: fork.own,
        to: fork.base_name(),
    }
}

/// The change that hides the base.
fn hidden_image(fork: &Fork) -> Change
    ensures { result ≡ Mark (base_name fork.now) Hidden true }
{
    Change::Mark {
        name: fork.base_name(),
        tag: Tag::Hidden,
        on: true,
    }
}

/// The change that makes a new volume of a VHD image.
fn new_image(disk: Uuid, extents: Vec<u32>) -> Change
    ensures { result ≡ Create (Vhd disk) true extents.items }
{
    Change::Create {
        name: Name::Vhd(disk),
        fresh: true,
        extents: Extents::new(extents),
    }
}

/// The change by which the volume of a VHD image is no longer new.
fn shown_image(disk: Uuid) -> Change
    ensures { result ≡ Mark (Vhd disk) Fresh false }
{
    Change::Mark {
        name: Name::Vhd(disk),
        tag: Tag::Fresh,
        on: false,
    }
}

/// Makes the entry, the base and the two new volumes, by five commits.
pub fn begin<S: Store>(
    store: &mut S,
    fork: &Fork,
    own: Vec<u32>,
    twins: Vec<u32>,
) -> Result<(), Failed>
    requires { CanRun S.Store (commits (first_changes fork.now own.items twins.items)) store.old }
    ensures run { OnOk result (DoesRun S.Store (commits (first_changes fork.now own.items twins.items)) store.old store.new (Unit {0})) }
    ensures cut { OnErr result (DoesRun S.Store (commits (first_changes fork.now own.items twins.items)) store.old store.new ⊥) }
    ensures cause { Counts S.Store result store.old store.new }
{
    let entry = entry_change(store.table(), fork);
    let moved = moved_image(fork);
    let hidden = hidden_image(fork);
    commit_three(store, entry, moved, hidden)?;
    let own = new_image(fork.disk, own);
    let twin = new_image(fork.twin, twins);
    commit_two(store, own, twin)?;
    Ok(())
}

/// Takes the marks of the two new volumes away and drops the entry, by three commits.
pub fn end<S: Store>(store: &mut S, fork: &Fork) -> Result<(), Failed>
    requires { CanRun S.Store (commits (last_changes fork.now)) store.old }
    ensures run { OnOk result (DoesRun S.Store (commits (last_changes fork.now)) store.old store.new (Unit {0})) }
    ensures cut { OnErr result (DoesRun S.Store (commits (last_changes fork.now)) store.old store.new ⊥) }
    ensures cause { Counts S.Store result store.old store.new }
{
    let own = shown_image(fork.disk);
    let twin = shown_image(fork.twin);
    let dropped = Change::Remove { name: fork.entry() };
    commit_three(store, own, twin, dropped)?;
    Ok(())
}
