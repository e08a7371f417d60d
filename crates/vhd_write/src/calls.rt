//! Calls of a store on the sectors of one volume, and the place of a slot.

ghost use Rattle.std.specs.Prelude.{◌≡◌, ℕ, ◌+◌, ◌*◌, ◌/◌, ◌^◌, ◌<◌, ◌≤◌, length, OnOk, OnErr, IfOk};
ghost use Rattle.sm_base.specs.Numbers.{first};
ghost use Rattle.sm_disk.specs.Held.{IsWhole, SameHeld, Torn, Wrote, Keeps, IsSettled};
ghost use Rattle.vhd_map.specs.Places.{spot};
ghost use Rattle.vg_volumes.specs.Stored.{stored, sectors_in, WorksOn, Counts};
ghost use Rattle.vhd_volumes.specs.Steps.{Holds, Does, Gives};
ghost use Rattle.vhd_write.specs.Payloads.{piece_of};

use crate::payloads::Payload;
use sm_base::{Failed, Geometry, Name};
use vg_volumes::Store;

/// The sector of a volume at which a part of a slot stands: its bitmap for 0, and sector i of its block for 1 + i.
pub(crate) fn place_of(geometry: &Geometry, slot: u32, part: u32) -> u64
    requires slot { slot < geometry.now.entries }
    requires part { part ≤ geometry.now.block }
    ensures { result ≡ spot (first geometry.now.entries) geometry.now.block slot part }
{
    let stride = 1 + u64::from(geometry.block);
    geometry.first() + (u64::from(slot) * stride + u64::from(part))
}

/// Writes whole sectors of the volume.
pub(crate) fn put<S: Store>(
    store: &mut S,
    volume: &Name,
    at: u64,
    from: &[u8],
) -> Result<(), Failed>
    requires { IsWhole at (length from.now) (sectors_in (stored S.Store store.old) volume.now) }
    ensures works { WorksOn S.Store volume.now store.old store.new }
    ensures cause { Counts S.Store result store.old store.new }
    ensures torn { Does S.Store volume.now (Torn at from.now) store.old store.new }
    ensures wrote { OnOk result (Does S.Store volume.now (Wrote at from.now) store.old store.new) }
{
    store.write(volume, at, from)?;
    Ok(())
}

/// Writes so many sectors of the bytes, behind so many of them, to the volume's sectors from `at` on: as many in a call of the
/// store as stand in memory in one piece.
pub(crate) fn put_piece<S: Store>(
    store: &mut S,
    volume: &Name,
    at: u64,
    from: &Payload<'_>,
    skip: u64,
    count: u64,
) -> Result<(), Failed>
    requires whole { IsWhole at (512 * count) (sectors_in (stored S.Store store.old) volume.now) }
    requires low { at + count < 2 ^ 64 }
    requires inside { 512 * (skip + count) ≤ length from.now }
    ensures works { WorksOn S.Store volume.now store.old store.new }
    ensures cause { Counts S.Store result store.old store.new }
    ensures torn { Does S.Store volume.now (Torn at (piece_of skip count from.now)) store.old store.new }
    ensures wrote { OnOk result (Does S.Store volume.now (Wrote at (piece_of skip count from.now)) store.old store.new) }
{
    // No more sectors are asked for than there are.
    let _all = from.sectors();
    let mut done = 0;
    while done < count {
        let run = from.run(skip + done, count - done);
        put(store, volume, at + done, run)?;
        done += run.len() as u64 / 512;
    }
    Ok(())
}

/// Writes the bytes, whole sectors and at least one, to the volume's sectors from `at` on.
///
/// # Errors
///
/// The store failed; any of the sectors may be written.
pub fn put_payload<S: Store>(
    store: &mut S,
    volume: &Name,
    at: u64,
    from: &Payload<'_>,
) -> Result<(), Failed>
    requires whole { IsWhole at (length from.now) (sectors_in (stored S.Store store.old) volume.now) }
    requires low { at + length from.now / 512 < 2 ^ 64 }
    ensures works { WorksOn S.Store volume.now store.old store.new }
    ensures cause { Counts S.Store result store.old store.new }
    ensures torn { Does S.Store volume.now (Torn at from.now) store.old store.new }
    ensures wrote { OnOk result (Does S.Store volume.now (Wrote at from.now) store.old store.new) }
{
    let count = from.sectors();
    put_piece(store, volume, at, from, 0, count)
}

/// Reads one sector of the volume.
pub(crate) fn get<S: Store>(store: &mut S, volume: &Name, at: u64) -> Result<[u8; 512], Failed>
    requires { at < sectors_in (stored S.Store store.old) volume.now }
    ensures works { WorksOn S.Store volume.now store.old store.new }
    ensures cause { Counts S.Store result store.old store.new }
    ensures same { Does S.Store volume.now SameHeld store.old store.new }
    ensures gave { IfOk result (λ sector. Gives S.Store volume.now (λ r. sector ≡ r at) store.old) }
    ensures long { IfOk result (λ sector. length sector ≡ 512) }
{
    let mut sector = [0; 512];
    store.read(volume, at, &mut sector)?;
    Ok(sector)
}

/// Makes all that was written last.
pub(crate) fn settle<S: Store>(store: &mut S, volume: &Name) -> Result<(), Failed>
    ensures works { WorksOn S.Store volume.now store.old store.new }
    ensures cause { Counts S.Store result store.old store.new }
    ensures keeps { Does S.Store volume.now Keeps store.old store.new }
    ensures settled { OnOk result (Holds S.Store volume.now IsSettled store.new) }
{
    store.sync()?;
    Ok(())
}
