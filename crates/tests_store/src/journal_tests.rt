//! The journal's entries, over both stores by the same calls.

ghost use Rattle.std.specs.Prelude.{◌≡◌, false, IfOk, OnOk};

use sm_base::{Failed, Name};
use sm_journal::{Entries, drop_entry as drop_one, list, put as put_one, replace as replace_one};
use std::alloc::Global;
use std::test::Fail;
use tests_support::{holds, prepare};
use uuid::Uuid;
use vg_meta::{Change, Extents};
use vg_volumes::Store;

fn uuid(byte: u8) -> Uuid {
    Uuid::from_bytes([byte; 16])
}

/// The entries of a collector's operation. In order of name they follow one another.
fn coalesce() -> Name {
    Name::Coalesce {
        child: uuid(1),
        parent: uuid(2),
    }
}

fn leaf() -> Name {
    Name::Leaf {
        leaf: uuid(1),
        parent: uuid(2),
    }
}

fn relink() -> Name {
    Name::Relink {
        child: uuid(1),
        parent: uuid(2),
    }
}

/// The entries of a call. In order of name they follow one another.
fn fork() -> Name {
    Name::Clone {
        disk: uuid(3),
        base: uuid(4),
        twin: uuid(5),
    }
}

fn inflate() -> Name {
    Name::Inflate {
        image: uuid(3),
        extents: 17,
    }
}

/// Makes an entry, where one may be made.
fn put<S: Store>(alloc: Global, store: &mut S, entry: &Name) -> Result<Result<(), Failed>, Fail>
    requires { S.failed store.old ≡ false }
    ensures { IfOk result (λ done. OnOk done (S.failed store.new ≡ false)) }
{
    let change = Change::Create {
        name: *entry,
        fresh: false,
        extents: Extents::new(Vec::new(alloc)),
    };
    prepare(store, &change)?;
    Ok(put_one(store, *entry))
}

/// Turns an entry into another, where it may be turned.
fn turn<S: Store>(store: &mut S, from: &Name, to: &Name) -> Result<Result<(), Failed>, Fail>
    requires { S.failed store.old ≡ false }
    ensures { IfOk result (λ done. OnOk done (S.failed store.new ≡ false)) }
{
    prepare(
        store,
        &Change::Rename {
            from: *from,
            to: *to,
        },
    )?;
    Ok(replace_one(store, *from, *to))
}

/// Drops an entry, where it is there.
fn drop_entry<S: Store>(store: &mut S, entry: &Name) -> Result<Result<(), Failed>, Fail>
    requires { S.failed store.old ≡ false }
    ensures { IfOk result (λ done. OnOk done (S.failed store.new ≡ false)) }
{
    prepare(store, &Change::Remove { name: *entry })?;
    Ok(drop_one(store, entry))
}

/// Whether these entries stand in the table, which has had so many commits since its format.
fn stand<S: Store>(
    store: &S,
    commits: u64,
    first: Option<Name>,
    second: Option<Name>,
    more: bool,
) -> bool {
    let table = store.table();
    let wanted = Entries {
        first,
        second,
        more,
    };
    list(table) == wanted && table.seq() == commits.saturating_add(1)
}

/// One entry of each class stands beside the other.
pub fn classes_stand<S: Store>(alloc: Global, store: &mut S) -> Result<(), Fail>
    requires { S.failed store.old ≡ false }
    ensures { OnOk result (S.failed store.new ≡ false) }
{
    holds(stand(store, 0, None, None, false), "no entry")?;
    put(alloc, store, &coalesce())??;
    holds(
        stand(store, 1, Some(coalesce()), None, false),
        "an operation",
    )?;
    put(alloc, store, &inflate())??;
    let both = stand(store, 2, Some(coalesce()), Some(inflate()), false);
    holds(both, "an operation and a call")?;
    turn(store, &coalesce(), &relink())??;
    let turned = stand(store, 3, Some(relink()), Some(inflate()), false);
    holds(turned, "an entry is turned")
}

/// Of two entries of a class the first in order of name is listed, and that there are more.
fn twins_are_told<S: Store>(alloc: Global, store: &mut S) -> Result<(), Fail>
    requires { S.failed store.old ≡ false }
    ensures { OnOk result (S.failed store.new ≡ false) }
{
    put(alloc, store, &leaf())??;
    holds(
        stand(store, 4, Some(leaf()), Some(inflate()), true),
        "two operations",
    )?;
    drop_entry(store, &relink())??;
    holds(
        stand(store, 5, Some(leaf()), Some(inflate()), false),
        "one is dropped",
    )?;
    put(alloc, store, &fork())??;
    holds(
        stand(store, 6, Some(leaf()), Some(fork()), true),
        "two calls",
    )?;
    drop_entry(store, &fork())??;
    drop_entry(store, &leaf())??;
    holds(stand(store, 8, None, Some(inflate()), false), "a call")?;
    drop_entry(store, &inflate())??;
    holds(stand(store, 9, None, None, false), "no entry is left")
}

/// Entries are put, turned and dropped.
pub fn entries_stand<S: Store>(alloc: Global, store: &mut S) -> Result<(), Fail>
    requires { S.failed store.old ≡ false }
{
    classes_stand(alloc, store)?;
    twins_are_told(alloc, store)?;
    Ok(())
}

/// What `classes_stand` makes stands in a group that is opened again.
pub fn still_stand<S: Store>(store: &S) -> Result<(), Fail> {
    let stood = stand(store, 3, Some(relink()), Some(inflate()), false);
    holds(stood, "the entries that were made")
}

/// A commit of the journal.
#[derive(Clone, Copy)]
pub enum Commit {
    Put,
    Turn,
    Drop,
}

/// Makes an entry, and then a commit that fails: the table stays.
pub fn commit_fails<S: Store>(alloc: Global, store: &mut S, commit: Commit) -> Result<(), Fail>
    requires { S.failed store.old ≡ false }
{
    put(alloc, store, &coalesce())??;
    let done = match commit {
        Commit::Put => put(alloc, store, &inflate())?,
        Commit::Turn => turn(store, &coalesce(), &relink())?,
        Commit::Drop => drop_entry(store, &coalesce())?,
    };
    holds(done == Err(Failed), "a commit that fails")?;
    holds(
        stand(store, 1, Some(coalesce()), None, false),
        "the table stays",
    )
}
