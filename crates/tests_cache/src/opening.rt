//! A new repository on a device in memory, opened over a cache of so many sectors.

ghost use Rattle.std.specs.Prelude.{◌≡◌, ◌<◌, false, IfOk};
ghost use Rattle.sm_disk.specs.Held.{IsSettled};
ghost use Rattle.sm_disk.specs.Memory.{held_by};

use crate::comparing::Difference;
use sm_base::Geometry;
use sm_cache::Cache;
use sm_disk::MemDisk;
use sm_session::Session;
use std::alloc::Global;
use uuid::Uuid;
use vg_store::{Group, format};

/// A repository that is open, over a cache and a device in memory.
pub type Open = Session<Cache<Group<MemDisk>>>;

/// The sectors of a device.
const SECTORS: u64 = 20_480;

/// The repository's UUID.
const REPOSITORY: [u8; 16] = [0, 0, 0, 0, 0, 0, 0, 0, 0, 0, 0, 0, 0, 0, 0, 1];

/// A device with a new repository: extents of 32 sectors, blocks of 8, and 64 entries.
fn formatted(alloc: Global) -> Result<MemDisk, Difference> {
    let Some(geometry) = Geometry::of(16_384, 4_096, 64) else {
        return Err(Difference::Opening);
    };
    let Ok(mut disk) = MemDisk::new(alloc, SECTORS) else {
        return Err(Difference::Opening);
    };
    match format(alloc, &mut disk, geometry, Uuid::from_bytes(REPOSITORY)) {
        Ok(_) => Ok(disk),
        Err(_) => Err(Difference::Opening),
    }
}

/// The group on a device, over which at most so many sectors are kept.
fn cached(alloc: Global, disk: MemDisk, sectors: usize) -> Result<Cache<Group<MemDisk>>, Difference>
    requires { 0 < sectors }
    ensures usable { IfOk result (λ c. c.inner.version ≡ 2 → c.inner.failed ≡ false) }
    ensures settled { IfOk result (λ c. IsSettled (held_by c.inner.disk.slots)) }
{
    let group = match Group::open(alloc, disk) {
        Ok(group) => group,
        Err((_fault, _disk)) => return Err(Difference::Opening),
    };
    match Cache::new(alloc, group, sectors) {
        Ok(cache) => Ok(cache),
        Err(group) => {
            let _disk = group.into_disk();
            Err(Difference::Opening)
        }
    }
}

/// A new repository, open, of which at most so many sectors are kept.
pub fn open(alloc: Global, sectors: usize) -> Result<Open, Difference>
    requires { 0 < sectors }
{
    let cache = cached(alloc, formatted(alloc)?, sectors)?;
    match Session::begin(alloc, cache, 0) {
        Ok(session) => Ok(session),
        Err((_fault, cache)) => {
            let _disk = cache.into_inner().into_disk();
            Err(Difference::Opening)
        }
    }
}

/// The device of a repository.
pub fn into_disk(open: Open) -> MemDisk {
    open.into_store().into_inner().into_disk()
}
