//! The three commits of an entry.

ghost use Rattle.std.specs.Prelude.{◌≡◌, OnOk, OnErr};
ghost use Rattle.vg_meta.specs.declared.changes.Change.TheVariants.{Remove, Rename};
ghost use Rattle.vg_volumes.specs.Stored.{stored, CanCommit, Commits, Counts, FailsToCommit, Leaves, IsEitherOf};
ghost use Rattle.sm_journal.specs.Entries.{putting};

use sm_base::{Failed, Name};
use vg_meta::{Change, Table};
use vg_volumes::Store;

/// The change that makes an entry.
fn put_change(table: &Table, entry: Name) -> Change
    ensures { result ≡ putting entry }
{
    Change::Create {
        name: entry,
        fresh: false,
        extents: table.no_extents(),
    }
}

/// Makes an entry, by one commit. It takes no memory.
pub fn put<S: Store>(store: &mut S, entry: Name) -> Result<(), Failed>
    requires { CanCommit S.Store (putting entry) store.old }
    ensures commits { OnOk result (Commits S.Store (putting entry) store.old store.new) }
    ensures fails { OnErr result (FailsToCommit S.Store store.old store.new) }
    ensures cause { Counts S.Store result store.old store.new }
    ensures crash { Leaves S.Store store.new (IsEitherOf (stored S.Store store.old) (putting entry)) }
{
    let change = put_change(store.table(), entry);
    store.commit(change)?;
    Ok(())
}

/// Replaces an entry by another, by one commit. It takes no memory.
pub fn replace<S: Store>(store: &mut S, from: Name, to: Name) -> Result<(), Failed>
    requires { CanCommit S.Store (Rename from to) store.old }
    ensures commits { OnOk result (Commits S.Store (Rename from to) store.old store.new) }
    ensures fails { OnErr result (FailsToCommit S.Store store.old store.new) }
    ensures cause { Counts S.Store result store.old store.new }
    ensures crash { Leaves S.Store store.new (IsEitherOf (stored S.Store store.old) (Rename from to)) }
{
    store.commit(Change::Rename { from, to })?;
    Ok(())
}

/// Drops an entry, by one commit. It takes no memory.
pub fn drop_entry<S: Store>(store: &mut S, entry: &Name) -> Result<(), Failed>
    requires { CanCommit S.Store (Remove entry.now) store.old }
    ensures commits { OnOk result (Commits S.Store (Remove entry.now) store.old store.new) }
    ensures fails { OnErr result (FailsToCommit S.Store store.old store.new) }
    ensures cause { Counts S.Store result store.old store.new }
    ensures crash { Leaves S.Store store.new (IsEitherOf (stored S.Store store.old) (Remove entry.now)) }
{
    store.commit(Change::Remove { name: *entry })?;
    Ok(())
}
