//! Sizes in sectors, and the extents that a command takes.

ghost use Rattle.std.specs.Prelude.{◌≡◌, ◌≤◌, ◌<◌, ◌*◌, ◌^◌};
ghost use Rattle.sm_log.specs.Logs.{log_of};
ghost use Rattle.sm_machine.specs.Refusals as machine;
ghost use Rattle.sm_machine.specs.Shapes.{attached_as, disk_image, is_rw, thick_in, thin_in};
ghost use Rattle.sm_ready.specs.Known.{known, machine_row};
ghost use Rattle.sm_ready.specs.Refusing.{Measures, Needs, Recalls, Sizes, extents_for};

use crate::asking::{image, is_vhd};
use crate::memory::Memory;
use sm_base::{Geometry, Mode, SECTOR};
use sm_machine::Command;
use uuid::Uuid;
use vhd_chain::TreeRow;

/// The extents that a raw disk of so many bytes takes.
pub fn extents_needed(geometry: &Geometry, size: u64) -> u64
    ensures extents { result ≡ extents_for geometry.now.extent size }
    ensures sectors { result * geometry.now.extent < 2 ^ 63 }
{
    size.div_ceil(SECTOR * u64::from(geometry.extent))
}

/// A size in bytes as sectors, rounded up: a raw disk's to the extent, a VHD image's to the block.
pub fn rounded(geometry: &Geometry, raw: bool, size: u64) -> u64
    ensures { Sizes (λ σ. machine.rounded σ raw size) geometry.now result }
{
    if raw {
        extents_needed(geometry, size) * u64::from(geometry.extent)
    } else {
        let block = u64::from(geometry.block);
        size.div_ceil(SECTOR * block) * block
    }
}

/// The extents of an image of so many sectors of which each block has a slot. No image has more blocks than its table.
pub fn thick(geometry: &Geometry, sectors: u64) -> u64
    ensures exact { sectors ≤ geometry.now.entries * geometry.now.block → Sizes (λ σ. thick_in σ sectors) geometry.now result }
    ensures few { result < 2 ^ 32 }
{
    let most = u64::from(geometry.entries) * u64::from(geometry.block);
    geometry.thick(sectors.min(most))
}

/// The extents of an image that has no slot.
fn thin(geometry: &Geometry) -> u64
    ensures exact { Sizes (λ σ. thin_in σ 0) geometry.now result }
    ensures few { result < 2 ^ 32 }
{
    geometry.thin(0)
}

/// The extents that a VHD image lacks for a slot in each block of so many sectors; a raw one lacks none.
fn lacking_for(geometry: &Geometry, row: &TreeRow, sectors: u64) -> u64
    ensures { sectors ≤ geometry.now.entries * geometry.now.block → Sizes (λ σ. machine.lacking_for σ sectors (machine_row row.now)) geometry.now result }
{
    if is_vhd(row) {
        thick(geometry, sectors).saturating_sub(u64::from(row.extents))
    } else {
        0
    }
}

/// The extents that the visible image of a UUID lacks for being written to.
fn lacking_of(memory: &Memory, geometry: &Geometry, disk: &Uuid) -> u64
    ensures { Measures (λ σ. machine.with_image_of (machine.lacking σ) (disk_image disk.now σ)) geometry.now (known memory.now) result }
{
    match image(memory, disk) {
        Some(row) => lacking_for(geometry, row, row.image.sectors()),
        None => 0,
    }
}

/// The extents that a disk's image lacks for so many sectors: none where the disk is not attached for writing.
fn lacking_larger(memory: &Memory, geometry: &Geometry, disk: &Uuid, sectors: u64) -> u64
    ensures { sectors ≤ geometry.now.entries * geometry.now.block
        → Measures (λ σ. machine.with_image_of (machine.lacking_larger σ disk.now sectors) (disk_image disk.now σ)) geometry.now (known memory.now) result }
{
    let Some(row) = image(memory, disk) else {
        return 0;
    };
    match memory.attached.mode(disk) {
        Some(Mode::Rw) => lacking_for(geometry, row, sectors),
        Some(Mode::Ro) => 0,
        None => 0,
    }
}

/// The extents that an image of a disk needs: each block a slot where the disk is attached for writing, else none.
fn wanted(memory: &Memory, geometry: &Geometry, disk: &Uuid, sectors: u64) -> u64
    ensures exact { sectors ≤ geometry.now.entries * geometry.now.block → Measures (λ σ. machine.wanted σ (is_rw (attached_as disk.now σ)) sectors) geometry.now (known memory.now) result }
    ensures few { result < 2 ^ 32 }
{
    match memory.attached.mode(disk) {
        Some(Mode::Rw) => thick(geometry, sectors),
        Some(Mode::Ro) => thin(geometry),
        None => thin(geometry),
    }
}

/// The extents of the two images that a fork makes: the disk's own, and the twin.
fn fork_need(memory: &Memory, geometry: &Geometry, disk: &Uuid) -> u64
    ensures exact { Measures (λ σ. machine.with_image_of (machine.fork_need σ disk.now) (disk_image disk.now σ)) geometry.now (known memory.now) result }
    ensures few { result < 2 ^ 33 }
{
    match image(memory, disk) {
        Some(row) => wanted(memory, geometry, disk, row.image.sectors()) + thin(geometry),
        None => 0,
    }
}

/// The extents of a disk's log, which those of a snapshot's log are too.
fn log_need(memory: &Memory, disk: &Uuid) -> u64
    ensures exact { result ≡ machine.of_log (λ l. l.extents) (log_of disk.now memory.now.logs) }
    ensures few { result < 2 ^ 32 }
{
    match memory.logs.get(disk) {
        Some(log) => u64::from(log.extents()),
        None => 0,
    }
}

/// The number of pieces of a disk.
pub fn disk_pieces(memory: &Memory, disk: &Uuid) -> u32
    ensures { Recalls (λ σ. machine.disk_pieces disk.now σ) (known memory.now) result }
{
    match image(memory, disk) {
        Some(row) => row.image.sectors().div_ceil(128).min(u64::from(u32::MAX)) as u32,
        None => 0,
    }
}

/// The extents that the log of a disk takes: a sector, and one for 4,096 of its pieces.
pub fn log_room(memory: &Memory, geometry: &Geometry, disk: &Uuid) -> u64
    ensures exact { Measures (λ σ. machine.log_room σ disk.now) geometry.now (known memory.now) result }
    ensures few { result < 2 ^ 32 }
{
    let sectors = 1 + u64::from(disk_pieces(memory, disk)).div_ceil(4096);
    sectors.div_ceil(u64::from(geometry.extent))
}

/// The extents that a command takes whose size is not bad.
pub fn need(memory: &Memory, geometry: &Geometry, command: &Command) -> u64
    ensures { Needs command.now geometry.now (known memory.now) result }
{
    match command {
        Command::Create { size, raw, .. } => {
            if *raw {
                extents_needed(geometry, *size)
            } else {
                thin(geometry)
            }
        }
        Command::Attach { disk, mode } => match mode {
            Mode::Ro => 0,
            Mode::Rw => lacking_of(memory, geometry, disk),
        },
        Command::Resize { disk, size } => {
            let sectors = rounded(geometry, false, *size);
            lacking_larger(memory, geometry, disk, sectors)
        }
        Command::Snapshot { disk, .. } => {
            fork_need(memory, geometry, disk) + log_need(memory, disk)
        }
        Command::Clone { disk, .. } => fork_need(memory, geometry, disk),
        Command::Track { disk, on } => {
            if *on {
                log_room(memory, geometry, disk)
            } else {
                0
            }
        }
        _ => 0,
    }
}
