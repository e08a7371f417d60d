//! One sector of a volume, read or written.

ghost use Rattle.std.specs.Prelude.{◌≡◌, ◌<◌, length, OnOk, OnErr, IfOk};
ghost use Rattle.sm_disk.specs.Held.{IsWhole, Gave};
ghost use Rattle.vg_volumes.specs.Stored.{stored, sectors_in, OnlyReads, WorksOn, Counts};
ghost use Rattle.vhd_volumes.specs.Steps.{Does, Gives, Holds};
ghost use Rattle.vhd_image.specs.Calls.{MayPut};

use sm_base::{Failed, Name};
use vg_volumes::Store;

/// Reads one sector of a volume.
pub(crate) fn sector_of<S: Store>(
    store: &mut S,
    volume: &Name,
    at: u64,
) -> Result<[u8; 512], Failed>
    requires { at < sectors_in (stored S.Store store.old) volume.now }
    ensures reads_only { OnlyReads S.Store store.old store.new }
    ensures cause { Counts S.Store result store.old store.new }
    ensures long { IfOk result (λ bytes. length bytes ≡ 512) }
    ensures gave { Gives S.Store volume.now (λ r. IfOk result (λ bytes. bytes ≡ r at)) store.old }
{
    let mut bytes = [0; 512];
    store.read(volume, at, &mut bytes)?;
    Ok(bytes)
}

/// Reads whole sectors of a volume.
pub(crate) fn get_sectors<S: Store>(
    store: &mut S,
    volume: &Name,
    at: u64,
    to: &mut [u8],
) -> Result<(), Failed>
    requires { IsWhole at (length to.old) (sectors_in (stored S.Store store.old) volume.now) }
    ensures reads_only { OnlyReads S.Store store.old store.new }
    ensures cause { Counts S.Store result store.old store.new }
    ensures gave { OnOk result (Holds S.Store volume.now (λ h. Gave at h to.new) store.old) }
{
    store.read(volume, at, to)?;
    Ok(())
}

/// Writes one sector of a volume.
pub(crate) fn put_sector<S: Store>(
    store: &mut S,
    volume: &Name,
    at: u64,
    from: &[u8; 512],
) -> Result<(), Failed>
    requires { at < sectors_in (stored S.Store store.old) volume.now }
    ensures works { WorksOn S.Store volume.now store.old store.new }
    ensures cause { Counts S.Store result store.old store.new }
    ensures may_put { Does S.Store volume.now (MayPut at from.now) store.old store.new }
    ensures put { OnOk result (Gives S.Store volume.now (λ r. r at ≡ from.now) store.new) }
{
    store.write(volume, at, from)?;
    Ok(())
}
