//! The sectors of a volume, and what is asked before a call on them.

ghost use Rattle.std.specs.Prelude.{◌≡◌, ◌≤◌, ◌<◌, ◌*◌, length, IfOk, OnOk};
ghost use Rattle.vg_meta.specs.Roomy.{table_alone};
ghost use Rattle.vg_volumes.specs.Stored.{stored, sectors_in};

use sm_base::{Failed, Name};
use std::alloc::Global;
use std::test::Fail;
use vg_volumes::Store;

/// The extents of a volume.
pub fn extents_of<S: Store>(store: &S, name: &Name) -> Result<u32, Fail>
    ensures { IfOk result (λ n. n * (S.site store.now).geometry.extent ≡ sectors_in (stored S.Store store.now) name.now) }
{
    let _geometry = store.geometry();
    let Some(volume) = store.table().get(name) else {
        return Err(Fail::from("a volume"));
    };
    let Ok(extents) = u32::try_from(volume.extents().len()) else {
        return Err(Fail::from("few extents"));
    };
    Ok(extents)
}

/// The sectors of a volume.
pub fn sectors_in<S: Store>(store: &S, name: &Name) -> Result<u64, Fail>
    ensures { IfOk result (λ n. n ≡ sectors_in (stored S.Store store.now) name.now) }
{
    let extents = extents_of(store, name)?;
    Ok(u64::from(extents) * u64::from(store.geometry().extent))
}

/// Writes a sector of a volume.
pub fn put<S: Store>(
    store: &mut S,
    name: &Name,
    at: u64,
    from: &[u8; 512],
) -> Result<Result<(), Failed>, Fail>
    ensures flag { S.failed store.new ≡ S.failed store.old }
{
    if at >= sectors_in(store, name)? {
        return Err(Fail::from("a sector of the volume"));
    }
    Ok(store.write(name, at, from))
}

/// Reads a sector of a volume.
pub fn get<S: Store>(store: &mut S, name: &Name, at: u64) -> Result<[u8; 512], Fail>
    ensures flag { S.failed store.new ≡ S.failed store.old }
{
    if at >= sectors_in(store, name)? {
        return Err(Fail::from("a sector of the volume"));
    }
    let mut bytes = [0; 512];
    store.read(name, at, &mut bytes)?;
    Ok(bytes)
}

/// Reads a volume.
pub fn bytes_of<S: Store>(alloc: Global, store: &mut S, name: &Name) -> Result<Vec<u8>, Fail>
    ensures flag { S.failed store.new ≡ S.failed store.old }
{
    let sectors = sectors_in(store, name)?;
    if sectors == 0 || sectors > 4096 {
        return Err(Fail::from("a small volume"));
    }
    let mut bytes = vec![in alloc; 0u8; 512 * sectors as usize]?;
    store.read(name, 0, &mut bytes)?;
    Ok(bytes)
}
