//! The sectors of a volume in the area, one by one.

ghost use Rattle.std.specs.Prelude.{◌≡◌, ◌≤◌, ◌<◌, ◌+◌, ◌-◌, ◌^◌, is_err, length, OnOk};
ghost use Rattle.sm_disk.specs.Held.{IsCounted, IsWhole, SameHeld, Gave, Torn, Wrote};
ghost use Rattle.sm_disk.specs.Memory.{held_by};
ghost use Rattle.vg_volumes.specs.Volumes.{spot, span, volume, SameElsewhere, AreIn};
ghost use Rattle.vg_memory.specs.Stores.{IsQuiet};

use sm_base::Failed;
use sm_disk::{Disk, MemDisk};

/// The place in the area of a volume's sector `at + done`.
fn place_of(extent: u32, extents: &[u32], at: u64, done: usize) -> u64
    requires within { at + done < span extent extents.now }
    requires few { done < 2 ^ 60 }
    ensures place { result ≡ spot extent extents.now (at + done) }
{
    let extent = u64::from(extent);
    let ahead = at % extent + done as u64;
    let index = (at / extent + ahead / extent) as usize;
    u64::from(extents[index]) * extent + ahead % extent
}

/// Reads whole sectors of a volume, at least one, from its sector `at` on.
pub(crate) fn read_sectors(area: &mut MemDisk, extent: u32, extents: &[u32], at: u64, to: &mut [u8])
    requires whole { IsWhole at (length to.old) (span extent extents.now) }
    requires inside { AreIn area.old.sectors extent extents.now }
    requires quiet { IsQuiet area.old.orders }
    ensures size { area.new.sectors ≡ area.old.sectors }
    ensures quiet { IsQuiet area.new.orders }
    ensures faults { area.new.faults ≡ area.old.faults }
    ensures same { SameHeld (held_by area.old.slots) (held_by area.new.slots) }
    ensures gave { Gave at (volume extent extents.now (held_by area.old.slots)) to.new }
{
    let _sectors = area.sectors();
    let count = to.len() / 512;
    let mut done = 0;
    while done < count {
        let place = place_of(extent, extents, at, done);
        let (_, rest) = to.split_at_mut(512 * done);
        let (sector, _) = rest.split_at_mut(512);
        let Ok(()) = area.read(place, sector) else {
            unreachable!()
        };
        done += 1;
    }
}

/// Writes whole sectors of a volume, at least one, from its sector `at` on. They are pending until a sync. It fails only
/// where memory is short, and then any of them may be pending.
pub(crate) fn write_sectors(
    area: &mut MemDisk,
    extent: u32,
    extents: &[u32],
    at: u64,
    from: &[u8],
) -> Result<(), Failed>
    requires whole { IsWhole at (length from.now) (span extent extents.now) }
    requires inside { AreIn area.old.sectors extent extents.now }
    requires quiet { IsQuiet area.old.orders }
    ensures size { area.new.sectors ≡ area.old.sectors }
    ensures quiet { IsQuiet area.new.orders }
    ensures counts { area.old.faults ≤ area.new.faults }
    ensures cause { IsCounted result area.old.faults area.new.faults }
    ensures torn { Torn at from.now
        (volume extent extents.now (held_by area.old.slots))
        (volume extent extents.now (held_by area.new.slots)) }
    ensures wrote { OnOk result (Wrote at from.now
        (volume extent extents.now (held_by area.old.slots))
        (volume extent extents.now (held_by area.new.slots))) }
    ensures elsewhere { SameElsewhere extent extents.now (held_by area.old.slots) (held_by area.new.slots) }
    ensures short { area.new.short ≡ is_err result }
{
    let _sectors = area.sectors();
    let count = from.len() / 512;
    let mut done = 0;
    while done < count {
        let place = place_of(extent, extents, at, done);
        let (_, rest) = from.split_at(512 * done);
        let (sector, _) = rest.split_at(512);
        area.write(place, sector)?;
        done += 1;
    }
    Ok(())
}
