//! Reading and writing the sectors of a volume.
//!
//! The extents of a volume may stand anywhere behind the front of the device. A call goes over the runs of its
//! sectors: those of extents that stand one after the other are read or written by one call of the device. A
//! run is found by a look at each of its extents, and no memory is taken. At every return what a stop may leave
//! of the volume is what one write of these bytes may leave of a device (`Torn`, `Wrote`), and nothing else on
//! the device has changed.

ghost use Rattle.std.specs.Prelude.{◌≡◌, ◌≤◌, ◌<◌, ◌+◌, ◌-◌, ◌^◌, length, OnOk};
ghost use Rattle.sm_disk.specs.Held.{IsCounted, IsWhole, SameHeld, Gave, Torn, Wrote};
ghost use Rattle.vg_volumes.specs.Volumes.{span, volume, SameElsewhere};
ghost use Rattle.vg_layout.specs.Fields.{layout_number};
ghost use Rattle.vg_store.specs.Groups.{area_of};
ghost use Rattle.vg_store.specs.Runs.{AreAdjacent, AreOn, IsRun, SameInFront};

use sm_base::Failed;
use sm_disk::Disk;
use vg_layout::Layout;

/// Sectors of a volume that stand one after the other on the device, in places of the device.
#[derive(Clone, Copy)]
struct Run {
    place: u64,
    sectors: usize,
}

/// How many of the extents from `index` on stand one after the other on the device, at most `most`.
fn adjacent(extents: &[u32], index: usize, most: usize) -> usize
    requires there { index < length extents.now }
    requires some { 0 < most }
    ensures some { 0 < result }
    ensures most { result ≤ most }
    ensures each { AreAdjacent extents.now index result }
{
    let first = u64::from(extents[index]);
    let end = most.min(extents.len() - index);
    for count in 1..end {
        if u64::from(extents[index + count]) != first + count as u64 {
            return count;
        }
    }
    end
}

/// The run of a volume's sectors from its sector `at + done` on, of at most `left` sectors: it ends where the next
/// extent stands elsewhere. An extent has `extent` sectors.
fn run_at(layout: Layout, extent: u32, extents: &[u32], at: u64, done: usize, left: usize) -> Run
    requires on { AreOn (layout_number layout) (2 ^ 64 - 1) extent extents.now }
    requires some { 0 < left }
    requires within { at + (done + left) ≤ span extent extents.now }
    requires few { done + left < 2 ^ 60 }
    ensures run { IsRun (layout_number layout) extent extents.now (at + done) result.place result.sectors }
    ensures most { result.sectors ≤ left }
{
    let extent = u64::from(extent);
    let ahead = at % extent + done as u64;
    let index = (at / extent + ahead / extent) as usize;
    let offset = ahead % extent;
    let reached = (offset + left as u64).div_ceil(extent) as usize;
    let sectors = adjacent(extents, index, reached) as u64 * extent - offset;
    Run {
        place: layout.area() + u64::from(extents[index]) * extent + offset,
        sectors: (sectors as usize).min(left),
    }
}

/// Reads whole sectors of a volume, at least one, from its sector `at` on. The volume has the `extents`, of
/// `extent` sectors each, which stand by the `layout`. Where it fails, what `to` holds afterwards is open.
pub(crate) fn read_volume<D: Disk>(
    disk: &mut D,
    layout: Layout,
    extent: u32,
    extents: &[u32],
    at: u64,
    to: &mut [u8],
) -> Result<(), Failed>
    requires whole { IsWhole at (length to.old) (span extent extents.now) }
    requires on { AreOn (layout_number layout) (D.size disk.old) extent extents.now }
    ensures size { D.size disk.new ≡ D.size disk.old }
    ensures counts { D.faults disk.old ≤ D.faults disk.new }
    ensures cause { IsCounted result (D.faults disk.old) (D.faults disk.new) }
    ensures same { D.told → SameHeld (D.held disk.old) (D.held disk.new) }
    ensures gave { OnOk result (D.told → Gave at (volume extent extents.now (area_of (layout_number layout) (D.held disk.old))) to.new) }
{
    let _sectors = disk.sectors();
    let count = to.len() / 512;
    let mut done = 0;
    while done < count {
        let run = run_at(layout, extent, extents, at, done, count - done);
        let (_, rest) = to.split_at_mut(512 * done);
        let (part, _) = rest.split_at_mut(512 * run.sectors);
        disk.read(run.place, part)?;
        done += run.sectors;
    }
    Ok(())
}

/// Writes whole sectors of a volume, at least one, from its sector `at` on. The volume has the `extents`, of
/// `extent` sectors each, which stand by the `layout`. What was written is pending until a sync; where it fails, any of the sectors may be.
pub(crate) fn write_volume<D: Disk>(
    disk: &mut D,
    layout: Layout,
    extent: u32,
    extents: &[u32],
    at: u64,
    from: &[u8],
) -> Result<(), Failed>
    requires whole { IsWhole at (length from.now) (span extent extents.now) }
    requires on { AreOn (layout_number layout) (D.size disk.old) extent extents.now }
    ensures size { D.size disk.new ≡ D.size disk.old }
    ensures counts { D.faults disk.old ≤ D.faults disk.new }
    ensures cause { IsCounted result (D.faults disk.old) (D.faults disk.new) }
    ensures torn { D.told → Torn at from.now
        (volume extent extents.now (area_of (layout_number layout) (D.held disk.old)))
        (volume extent extents.now (area_of (layout_number layout) (D.held disk.new))) }
    ensures wrote { OnOk result (D.told → Wrote at from.now
        (volume extent extents.now (area_of (layout_number layout) (D.held disk.old)))
        (volume extent extents.now (area_of (layout_number layout) (D.held disk.new)))) }
    ensures elsewhere { D.told → SameElsewhere extent extents.now (area_of (layout_number layout) (D.held disk.old)) (area_of (layout_number layout) (D.held disk.new)) }
    ensures front { D.told → SameInFront (layout_number layout) (D.held disk.old) (D.held disk.new) }
{
    let _sectors = disk.sectors();
    let count = from.len() / 512;
    let mut done = 0;
    while done < count {
        let run = run_at(layout, extent, extents, at, done, count - done);
        let (_, rest) = from.split_at(512 * done);
        let (part, _) = rest.split_at(512 * run.sectors);
        disk.write(run.place, part)?;
        done += run.sectors;
    }
    Ok(())
}
