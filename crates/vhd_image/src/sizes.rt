//! The size of a volume.

ghost use Rattle.std.specs.Prelude.{◌≡◌, ◌<◌, ◌^◌};
ghost use Rattle.vg_volumes.specs.Stored.{stored, sectors_in};

use sm_base::Name;
use vg_volumes::Store;

/// The sectors of a volume, 0 where there is none.
pub(crate) fn sectors_in<S: Store>(store: &S, volume: &Name) -> u64
    ensures { result ≡ sectors_in (stored S.Store store.now) volume.now }
{
    let extent = store.geometry().extent as u64;
    let _extents = store.extents();
    let table = store.table();
    match table.get(volume) {
        None => 0,
        Some(row) => row.extents().len() as u64 * extent,
    }
}
