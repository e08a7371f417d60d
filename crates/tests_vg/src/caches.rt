//! What a cache keeps of a store, by the calls that it makes of it. Some calls of the store below fail, by their numbers: so each read that makes a
//! call, and each that makes none, is seen.

ghost use Rattle.std.specs.Prelude.{◌≡◌, ◌<◌, false, IfOk, OnOk};
ghost use Rattle.vg_memory.specs.Stores.{has_failed};

use crate::memory_stores::{first, new};
use sm_base::{Failed, Name};
use sm_cache::Cache;
use std::alloc::Global;
use std::test::Fail;
use tests_support::{holds, prepare, size};
use uuid::Uuid;
use vg_memory::MemoryStore;
use vg_meta::{Change, Extents};
use vg_volumes::Store;

/// A cache of so many sectors over a new store. The calls with these numbers fail, counted from 0.
fn cached(alloc: Global, failing: &[u64], sectors: usize) -> Result<Cache<MemoryStore>, Fail>
    requires { 0 < sectors }
    ensures { IfOk result (λ c. has_failed c.inner.course ≡ false) }
{
    let mut store = new(alloc)?;
    store.fail(alloc, failing)?;
    match Cache::new(alloc, store, sectors) {
        Ok(cache) => Ok(cache),
        Err(_store) => Err(Fail::from("a cache")),
    }
}

/// A read of a sector of the records gives its first byte, or fails.
fn reads<S: Store>(store: &mut S, at: u64, want: Result<u8, Failed>) -> Result<(), Fail>
    ensures { S.failed store.new ≡ S.failed store.old }
{
    if at >= size(store, &Name::Mgt) {
        return Err(Fail::from("a sector of the records"));
    }
    let mut sector = [0xff; 512];
    let done = store.read(&Name::Mgt, at, &mut sector);
    holds(done.map(|()| sector[0]) == want, "a read")
}

/// A write of one sector of the records, or of two, from sector 3 on ends so.
fn writes<S: Store>(store: &mut S, bytes: &[u8], want: Result<(), Failed>) -> Result<(), Fail>
    ensures { S.failed store.new ≡ S.failed store.old }
{
    if size(store, &Name::Mgt) < 5 || (bytes.len() != 512 && bytes.len() != 1024) {
        return Err(Fail::from("two sectors of the records"));
    }
    let done = store.write(&Name::Mgt, 3, bytes);
    holds(done == want, "a write")
}

/// Commits a change, which makes two calls.
fn commits<S: Store>(store: &mut S, change: Change) -> Result<(), Fail>
    requires { S.failed store.old ≡ false }
    ensures { OnOk result (S.failed store.new ≡ false) }
{
    prepare(store, &change)?;
    store.commit(change)?;
    Ok(())
}

/// A read makes call 0, and a second one none. A write of one sector, call 1, keeps its entry. A longer one, call 2, drops it: a
/// read makes call 3, which fails, and then call 4. A write that fails, call 5, drops it too: a read makes call 6, which fails, and
/// then call 7, and has what the write left.
fn keeps_and_drops<S: Store>(store: &mut S) -> Result<(), Fail>
    ensures { S.failed store.new ≡ S.failed store.old }
{
    reads(store, 3, Ok(0))?;
    reads(store, 3, Ok(0))?;
    writes(store, &[7; 512], Ok(()))?;
    reads(store, 3, Ok(7))?;
    writes(store, &[8; 1024], Ok(()))?;
    reads(store, 3, Err(Failed))?;
    reads(store, 3, Ok(8))?;
    writes(store, &[9; 512], Err(Failed))?;
    reads(store, 3, Err(Failed))?;
    reads(store, 3, Ok(9))
}

/// An image is made, on extents 20 and 18.
fn new_image(alloc: Global) -> Result<Change, Fail> {
    let mut extents = Vec::new(alloc);
    extents.extend_from_slice(&[20, 18])?;
    Ok(Change::Create {
        name: first(),
        fresh: true,
        extents: Extents::new(extents),
    })
}

/// A journal entry is made.
fn new_entry(alloc: Global) -> Change {
    Change::Create {
        name: Name::Inflate {
            image: Uuid::from_bytes([1; 16]),
            extents: 4,
        },
        fresh: false,
        extents: Extents::new(Vec::new(alloc)),
    }
}

/// Behind call 7 an image is made, calls 8 and 9: all entries go, so that a read makes call 10, which fails, and then call 11. A journal
/// entry, calls 12 and 13, leaves them: a read of the same sector makes none, and one of another makes call 14, which fails.
fn commits_drop_all<S: Store>(alloc: Global, store: &mut S) -> Result<(), Fail>
    requires { S.failed store.old ≡ false }
{
    commits(store, new_image(alloc)?)?;
    reads(store, 3, Err(Failed))?;
    reads(store, 3, Ok(9))?;
    commits(store, new_entry(alloc))?;
    reads(store, 3, Ok(9))?;
    reads(store, 4, Err(Failed))
}

/// Both, one after the other.
fn shows<S: Store>(alloc: Global, store: &mut S) -> Result<(), Fail>
    requires { S.failed store.old ≡ false }
{
    keeps_and_drops(store)?;
    commits_drop_all(alloc, store)
}

#[test]
fn entries_come_and_go(rt: HostRuntime) -> Result<(), Fail> {
    let mut cache = cached(rt.alloc(), &[3, 5, 6, 10, 14], 4)?;
    let shown = shows(rt.alloc(), &mut cache);
    let _store = cache.into_inner();
    shown
}

/// Of two entries the one goes that was used longer ago: sectors 3 and 4 are read, calls 0 and 1, and then 3 again, so that sector 5, call 2,
/// takes the place of 4. A read of 3 makes none, and one of 4 call 3, which fails.
fn oldest_goes<S: Store>(store: &mut S) -> Result<(), Fail> {
    for at in [3, 4, 3, 5, 3] {
        reads(store, at, Ok(0))?;
    }
    reads(store, 4, Err(Failed))
}

#[test]
fn the_entry_that_was_used_longest_ago_goes(rt: HostRuntime) -> Result<(), Fail> {
    let mut cache = cached(rt.alloc(), &[3], 2)?;
    let shown = oldest_goes(&mut cache);
    let _store = cache.into_inner();
    shown
}

/// Sectors 3, 4 and 5 are read, calls 0 to 2. A write of 3 and 4 fails, call 3: their entries go, so that a read of each makes a call, 4 and 5,
/// which fails. The entry of 5 stays: a read of it makes none. Then a read of 3, call 6, and one of 4, call 7, have what the write left.
fn longer_write_fails<S: Store>(store: &mut S) -> Result<(), Fail> {
    for at in [3, 4, 5] {
        reads(store, at, Ok(0))?;
    }
    writes(store, &[9; 1024], Err(Failed))?;
    for (at, want) in [
        (3, Err(Failed)),
        (4, Err(Failed)),
        (5, Ok(0)),
        (3, Ok(9)),
        (4, Ok(9)),
    ] {
        reads(store, at, want)?;
    }
    Ok(())
}

#[test]
fn a_longer_write_that_fails_drops_the_entries_of_its_sectors(rt: HostRuntime) -> Result<(), Fail> {
    let mut cache = cached(rt.alloc(), &[3, 4, 5], 4)?;
    let shown = longer_write_fails(&mut cache);
    let _store = cache.into_inner();
    shown
}

/// A commit fails.
fn commit_fails<S: Store>(store: &mut S, change: Change) -> Result<(), Fail>
    requires { S.failed store.old ≡ false }
{
    prepare(store, &change)?;
    let done = store.commit(change);
    holds(done == Err(Failed), "a commit")
}

/// Sector 3 is read, call 0. An image is to be made, and the commit fails in its first call or its second: the entry goes, so that a read makes
/// the next call, which fails, and then one more.
fn image_fails<S: Store>(alloc: Global, store: &mut S) -> Result<(), Fail>
    requires { S.failed store.old ≡ false }
{
    reads(store, 3, Ok(0))?;
    commit_fails(store, new_image(alloc)?)?;
    reads(store, 3, Err(Failed))?;
    reads(store, 3, Ok(0))
}

#[test]
fn a_commit_that_fails_drops_the_entries(rt: HostRuntime) -> Result<(), Fail> {
    for failing in [[1, 2], [2, 3]] {
        let mut cache = cached(rt.alloc(), &failing, 4)?;
        let shown = image_fails(rt.alloc(), &mut cache);
        let _store = cache.into_inner();
        shown?;
    }
    Ok(())
}

/// Sector 3 is read, call 0. A journal entry is to be made, and the commit fails in its first call or its second: what is kept stays, so that a
/// read makes no call. One of sector 4 makes the next, which fails.
fn entry_fails<S: Store>(alloc: Global, store: &mut S) -> Result<(), Fail>
    requires { S.failed store.old ≡ false }
{
    reads(store, 3, Ok(0))?;
    commit_fails(store, new_entry(alloc))?;
    reads(store, 3, Ok(0))?;
    reads(store, 4, Err(Failed))
}

#[test]
fn a_commit_of_a_journal_entry_that_fails_keeps_them(rt: HostRuntime) -> Result<(), Fail> {
    for failing in [[1, 2], [2, 3]] {
        let mut cache = cached(rt.alloc(), &failing, 4)?;
        let shown = entry_fails(rt.alloc(), &mut cache);
        let _store = cache.into_inner();
        shown?;
    }
    Ok(())
}

/// Sector 3 is read and written, calls 0 and 1, and a sync fails, call 2: the entry stays, so that a read makes no call. One of sector 4 makes
/// call 3, which fails, and then, behind a sync, call 4, another makes call 5.
fn sync_fails<S: Store>(store: &mut S) -> Result<(), Fail> {
    reads(store, 3, Ok(0))?;
    writes(store, &[7; 512], Ok(()))?;
    let done = store.sync();
    holds(done == Err(Failed), "a sync")?;
    reads(store, 3, Ok(7))?;
    reads(store, 4, Err(Failed))?;
    store.sync()?;
    reads(store, 3, Ok(7))?;
    reads(store, 4, Ok(0))
}

#[test]
fn a_sync_that_fails_keeps_the_entries(rt: HostRuntime) -> Result<(), Fail> {
    let mut cache = cached(rt.alloc(), &[2, 3], 4)?;
    let shown = sync_fails(&mut cache);
    let _store = cache.into_inner();
    shown
}
