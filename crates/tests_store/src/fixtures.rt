//! A new store in memory.

ghost use Rattle.std.specs.Prelude.{◌≡◌, false, IfOk};
ghost use Rattle.vg_memory.specs.Stores.{has_failed};

use std::alloc::Global;
use std::test::Fail;
use tests_support::geometry;
use vg_layout::record_extents;
use vg_memory::MemoryStore;

/// A new store in memory of 64 extents. The calls with these numbers fail.
pub fn plain(alloc: Global, failing: &[u64]) -> Result<MemoryStore, Fail>
    ensures { IfOk result (λ s. has_failed s.course ≡ false) }
{
    let geometry = geometry()?;
    if record_extents(&geometry) > 64 {
        return Err(Fail::from("room for the records"));
    }
    let mut store = MemoryStore::new(alloc, geometry, 64)?;
    store.fail(alloc, failing)?;
    Ok(store)
}
