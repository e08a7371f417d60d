//! Calls of a store on the sectors of one volume, and the place of a slot.

ghost use Rattle.std.specs.Prelude.{◌≡◌, ◌<◌, length, OnOk, OnErr};
ghost use Rattle.sm_base.specs.Numbers.{first};
ghost use Rattle.sm_disk.specs.Held.{IsWhole, SameHeld, Gave, Wrote};
ghost use Rattle.vhd_map.specs.Places.{spot};
ghost use Rattle.vg_volumes.specs.Stored.{stored, sectors_in, SameBeside, WorksOn, Counts};
ghost use Rattle.vhd_volumes.specs.Steps.{Does, Holds};
ghost use Rattle.vhd_filling.specs.Filled.{place_in};

use sm_base::{Failed, Geometry, Name};
use vg_volumes::Store;

/// The sector of a volume at which a slot stands.
pub(crate) fn slot_place(geometry: &Geometry, slot: u32) -> u64
    ensures { result ≡ place_in geometry.now slot 0 }
{
    let stride = 1 + geometry.block as u64;
    geometry.first() + slot as u64 * stride
}

/// Writes whole sectors of the volume.
pub(crate) fn put<S: Store>(
    store: &mut S,
    volume: &Name,
    at: u64,
    from: &[u8],
) -> Result<(), Failed>
    requires { IsWhole at (length from.now) (sectors_in (stored S.Store store.old) volume.now) }
    ensures works { WorksOn S.Store volume.now store.old store.new }
    ensures cause { Counts S.Store result store.old store.new }
    ensures beside { S.told → SameBeside volume.now (stored S.Store store.old) (stored S.Store store.new) }
    ensures wrote { OnOk result (Does S.Store volume.now (Wrote at from.now) store.old store.new) }
{
    store.write(volume, at, from)?;
    Ok(())
}

/// Reads whole sectors of the volume.
pub(crate) fn get<S: Store>(
    store: &mut S,
    volume: &Name,
    at: u64,
    to: &mut [u8],
) -> Result<(), Failed>
    requires { IsWhole at (length to.old) (sectors_in (stored S.Store store.old) volume.now) }
    ensures works { WorksOn S.Store volume.now store.old store.new }
    ensures cause { Counts S.Store result store.old store.new }
    ensures beside { S.told → SameBeside volume.now (stored S.Store store.old) (stored S.Store store.new) }
    ensures same { Does S.Store volume.now SameHeld store.old store.new }
    ensures long { length to.new ≡ length to.old }
    ensures gave { OnOk result (Holds S.Store volume.now (λ h. Gave at h to.new) store.old) }
{
    store.read(volume, at, to)?;
    Ok(())
}
