//! All memory of a fork, taken before anything is written.

ghost use Rattle.std.specs.Prelude.{◌≡◌, ◌≤◌, ◌<◌, ◌+◌, ◌++◌, ◌^◌, ℕ, List, length, replicate, None, IsSome, IfOk, OnOk};
ghost use Rattle.vg_extents.specs.Fits.{AreLeastFree};
ghost use Rattle.vg_meta.specs.Changes.{AreFree};
ghost use Rattle.vg_meta.specs.Roomy.{table_alone};
ghost use Rattle.vg_meta.specs.Tables.{VolumeTable, free as free_of};
ghost use Rattle.vg_volumes.specs.Stored.{OnlyReads};
ghost use Rattle.sm_mgt.specs.Places.{place_for};
ghost use Rattle.sm_ready.specs.Does.{store_shape};
ghost use Rattle.sm_ready.specs.Framing.{IsBetweenSteps};
ghost use Rattle.sm_ready.specs.Refusing.{IsAllowed};
ghost use Rattle.sm_clone.specs.Forking.{AreForFork, forking, own_name, sectors_of};
ghost use Rattle.vhd_chain.specs.Trees.{tree_row};

use sm_base::NoMemory;
use sm_machine::Command;
use sm_ready::{Memory, need};
use std::alloc::Global;
use uuid::Uuid;
use vg_extents::{FitFault, first_fit};
use vg_meta::Table;
use vg_volumes::Store;
use vhd_map::Map;

/// What a fork takes of memory: the extents of the disk's new image and of the twin's, and a blank map for each.
#[derive(Drop)]
pub struct Parts {
    pub own: Vec<u32>,
    pub twins: Vec<u32>,
    pub own_map: Map,
    pub twin_map: Map,
}

/// The least free extents, rising, so many and then so many more.
fn split_fit(
    alloc: Global,
    table: &Table,
    extents: u32,
    first: u32,
    more: u32,
) -> Result<(Vec<u32>, Vec<u32>), NoMemory>
    requires few { first + more < 2 ^ 32 }
    requires enough { first + more ≤ length (free_of extents (table_alone table.now)) }
    ensures first { IfOk result (λ r. length r.0.items ≡ first) }
    ensures more { IfOk result (λ r. length r.1.items ≡ more) }
    ensures least { IfOk result (λ r. AreLeastFree extents (first + more) (table_alone table.now) (r.0.items ++ r.1.items)) }
    ensures free { IfOk result (λ r. AreFree extents (table_alone table.now).volumes (r.0.items ++ r.1.items)) }
{
    let mut found = match first_fit(alloc, table, extents, first + more) {
        Ok(found) => found,
        Err(FitFault::NoSpace { .. }) => unreachable!(),
        Err(FitFault::NoMemory) => return Err(NoMemory),
    };
    let Ok(rest) = Vec::from_slice(alloc, &found[first as usize..]) else {
        return Err(NoMemory);
    };
    found.truncate(first as usize);
    Ok((found, rest))
}

/// Takes all memory that a fork needs. Room for its rows in the tree, for its counts and for its record was taken before.
pub fn prepare<S: Store>(
    alloc: Global,
    store: &mut S,
    memory: &Memory,
    disk: &Uuid,
    twin: &Uuid,
    read_only: bool,
) -> Result<Parts, NoMemory>
    requires session { IsBetweenSteps S.Store store.old memory.now }
    requires allowed { IsAllowed S.Store (forking disk.now twin.now read_only) store.old memory.now }
    ensures reads { OnlyReads S.Store store.old store.new }
    ensures calm { S.faults store.new ≡ S.faults store.old }
    ensures same { (S.site store.new ≡ S.site store.old) × (S.area store.new ≡ S.area store.old) }
    ensures table { table_alone (S.table store.new) ≡ table_alone (S.table store.old) }
    ensures leaves { (t : VolumeTable) (image : ℕ → List ℕ) → S.leaves store.new t image → S.leaves store.old t image }
    ensures rows { OnOk result (3 ≤ (S.table store.new).spare) }
    ensures place { OnOk result (IsSome (place_for memory.now.records twin.now)) }
    ensures extents { IfOk result (λ p. AreForFork (S.site store.old) (table_alone (S.table store.old)) (store_shape S.Store store.old memory.now) disk.now
        (sectors_of (tree_row memory.now.tree.rows (own_name memory.now.tree.rows disk.now))) p.own.items p.twins.items) }
    ensures own_map { IfOk result (λ p. p.own_map ≡ replicate (S.site store.old).geometry.entries None) }
    ensures twin_map { IfOk result (λ p. p.twin_map ≡ replicate (S.site store.old).geometry.entries None) }
{
    if !memory.records.has_room(twin) {
        return Err(NoMemory);
    }
    let geometry = store.geometry();
    // A clone takes the extents of the two images alone, a snapshot those of its log too.
    let command = Command::Clone {
        disk: *disk,
        twin: *twin,
    };
    let all = need(memory, &geometry, &command) as u32;
    let more = geometry.thin(0) as u32;
    let (own, twins) = split_fit(alloc, store.table(), store.extents(), all - more, more)?;
    let own_map = Map::blank(alloc, geometry.entries)?;
    let twin_map = Map::blank(alloc, geometry.entries)?;
    store.reserve_rows(3)?;
    Ok(Parts {
        own,
        twins,
        own_map,
        twin_map,
    })
}
