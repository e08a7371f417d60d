//! Each public call of the store in memory at work, with values worked by hand.

ghost use Rattle.std.specs.Prelude.{◌≡◌, false, IfOk};
ghost use Rattle.vg_memory.specs.Stores.{has_failed};

use crate::groups::asks_often;
use sm_base::{Failed, Geometry, Name};
use std::alloc::Global;
use std::test::Fail;
use tests_support::holds;
use uuid::Uuid;
use vg_layout::record_extents;
use vg_memory::{MemoryStore, Store};
use vg_meta::{Change, Extents};

/// The first image.
pub fn first() -> Name {
    Name::Vhd(Uuid::from_bytes([1; 16]))
}

/// A store of 24 extents of 32 sectors. The records have the first 16.
pub fn new(alloc: Global) -> Result<MemoryStore, Fail>
    ensures { IfOk result (λ s. has_failed s.course ≡ false) }
{
    let geometry = Geometry::of(16_384, 4096, 100).ok_or("a geometry")?;
    if record_extents(&geometry) > 24 {
        return Err("room for the records".into());
    }
    Ok(MemoryStore::new(alloc, geometry, 24)?)
}

/// Makes room for a change, and commits it.
fn commit(store: &mut MemoryStore, change: Change) -> Result<Result<(), Failed>, Fail> {
    store.reserve_for(&change)?;
    if !store.accepts(&change) {
        return Err("a change that is taken".into());
    }
    Ok(store.commit(change))
}

/// Makes the first image on the extents 20 and 18.
fn make_image(alloc: Global, store: &mut MemoryStore) -> Result<(), Fail> {
    let mut list = Vec::new(alloc);
    list.extend_from_slice(&[20, 18])?;
    let change = Change::Create {
        name: first(),
        fresh: true,
        extents: Extents::new(list),
    };
    commit(store, change)??;
    Ok(())
}

/// The first byte of a sector.
fn byte(store: &mut MemoryStore, name: &Name, at: u64) -> Result<Result<u8, Failed>, Fail> {
    if at >= store.size(name) {
        return Err(Fail::from("a sector of the volume"));
    }
    let mut sector = [9; 512];
    let done = store.read(name, at, &mut sector);
    Ok(done.map(|()| sector[0]))
}

/// Fills two sectors of the image with 1 and 2.
fn fill(store: &mut MemoryStore, at: u64) -> Result<Result<(), Failed>, Fail> {
    let name = first();
    let size = store.size(&name);
    if at >= size || size - at < 2 {
        return Err(Fail::from("two sectors of the volume"));
    }
    let mut sectors = [1; 1024];
    sectors[512..].fill(2);
    Ok(store.write(&name, at, &sectors))
}

/// A new store has the records alone.
fn is_new(store: &mut MemoryStore) -> Result<(), Fail> {
    let last = byte(store, &Name::Mgt, 511)?;
    let is_right = store.extents() == 24
        && store.geometry().extent == 32
        && store.repository().is_nil()
        && store.table().volumes().len() == 1
        && store.size(&Name::Mgt) == 512
        && last == Ok(0);
    holds(is_right, "a new store")
}

/// Named calls fail, and then all do from a stop on. A write that fails may leave its sectors.
fn calls_fail(alloc: Global, store: &mut MemoryStore) -> Result<(), Fail> {
    store.fail(alloc, &[0, 2])?;
    holds(fill(store, 3)? == Err(Failed), "a write that fails")?;
    for want in [Ok(1), Err(Failed), Ok(1)] {
        holds(byte(store, &first(), 3)? == want, "a read")?;
    }
    holds(byte(store, &first(), 4)? == Ok(2), "the second sector")?;
    store.stop(1);
    let syncs = [store.sync(), store.sync()];
    holds(syncs == [Ok(()), Err(Failed)], "a stop")?;
    let done = commit(store, Change::Remove { name: first() })?;
    let is_there = store.table().get(&first()).is_some();
    holds(done == Err(Failed) && is_there, "a commit that fails")
}

/// A new store, its room for rows, and its calls that fail.
fn shows(alloc: Global, store: &mut MemoryStore) -> Result<(), Fail> {
    is_new(store)?;
    asks_often(store)?;
    make_image(alloc, store)?;
    calls_fail(alloc, store)
}

/// A commit makes two calls. Where one fails, the image stays; a second commit is not taken.
fn commit_fails(
    alloc: Global,
    store: &mut MemoryStore,
    call: u64,
    fails: bool,
) -> Result<(), Fail> {
    make_image(alloc, store)?;
    store.fail(alloc, &[call])?;
    let done = commit(store, Change::Remove { name: first() })?;
    let is_right = done.is_err() == fails
        && store.table().get(&first()).is_some() == fails
        && !store.accepts(&Change::Remove { name: first() });
    holds(is_right, "a commit")
}

#[test]
fn a_store_and_its_commits(rt: HostRuntime) -> Result<(), Fail> {
    let mut store = new(rt.alloc())?;
    shows(rt.alloc(), &mut store)?;
    for (call, fails) in [(0, true), (1, true), (2, false)] {
        let mut store = new(rt.alloc())?;
        commit_fails(rt.alloc(), &mut store, call, fails)?;
    }
    Ok(())
}
