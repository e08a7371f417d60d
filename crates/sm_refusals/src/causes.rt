//! The causes for which a command is refused: one function each, by what is in memory. Each answers what the machine's test of
//! the same name says of the shape in memory. None takes memory or calls a store. Sizes and bytes of a line may be any numbers
//! of 64 bits: no sum wraps.

ghost use Rattle.std.specs.Prelude.{◌≡◌, ◌≤◌, ◌+◌, ◌==◌, ◌&&◌, ◌||◌, is_none, is_some, length, nat_lt, not};
ghost use Rattle.std.specs.Str.{bytes_eq};
ghost use Rattle.sm_base.specs.Names.{is_base as is_base_uuid};
ghost use Rattle.vg_meta.specs.Tables.{VolumeTable};
ghost use Rattle.vg_meta.specs.Roomy.{table_alone};
ghost use Rattle.vg_volumes.specs.Sites.{Site};
ghost use Rattle.sm_machine.specs.Refusals as machine;
ghost use Rattle.sm_machine.specs.Shapes.{attached_as, disk_image, disk_record, is_ro, is_vhd as is_vhd_name};
ghost use Rattle.sm_ready.specs.Known.{Known, has_image as has_image_in, known, shape_in};
ghost use Rattle.sm_ready.specs.Refusing.{IsSiteOf, Measures, Recalls};

use sm_base::{CHAIN_LIMIT, Geometry, IMAGE_LIMIT, Mode, Name, SECTOR, SPENT_SEQUENCE, is_base};
use sm_machine::{Command, LineBytes};
use sm_ready::{Memory, also_named, forked, image, is_vhd, named, new_uuid, rounded};
use uuid::Uuid;
use vg_meta::Table;

/// The most sectors of one read.
const READ_LIMIT: u64 = 128;

/// Whether a UUID is nil or has the form that base images have.
pub(crate) fn is_reserved_uuid(disk: &Uuid) -> bool
    ensures { result ≡ (bytes_eq disk.now machine.nil || is_base_uuid disk.now) }
{
    disk.is_nil() || is_base(disk)
}

/// Whether the new UUID is nil or has the form that base images have.
#[tactic(auto, unfolding(sm_machine::specs::Refusals::is_reserved))]
pub(crate) fn is_reserved(command: &Command) -> bool
    ensures { result ≡ machine.is_reserved command.now }
{
    match new_uuid(command) {
        Some(disk) => is_reserved_uuid(&disk),
        None => false,
    }
}

/// Whether a disk has the UUID.
fn is_disk(memory: &Memory, disk: &Uuid) -> bool
    ensures { Recalls (λ σ. is_some (disk_record disk.now σ)) (known memory.now) result }
{
    memory.records.find(disk).is_some()
}

/// Whether there is a UUID, and no disk has it.
fn is_missing(memory: &Memory, disk: Option<Uuid>) -> bool
    ensures { Recalls (λ σ. machine.of_some (λ u. is_none (disk_record u σ)) disk) (known memory.now) result }
{
    match disk {
        Some(disk) => !is_disk(memory, &disk),
        None => false,
    }
}

/// Whether no disk has the UUID, or the second one that is named.
#[tactic(auto, unfolding(sm_machine::specs::Refusals::is_unknown))]
pub(crate) fn is_unknown(memory: &Memory, command: &Command) -> bool
    ensures { Recalls (λ σ. machine.is_unknown σ command.now) (known memory.now) result }
{
    is_missing(memory, also_named(command)) || is_missing(memory, named(command))
}

/// Whether an image has the UUID, visible or hidden.
pub(crate) fn has_image(memory: &Memory, disk: &Uuid) -> bool
    ensures { result ≡ has_image_in memory.now.tree.rows disk.now }
{
    memory.tree.get(&Name::Vhd(*disk)).is_some() || memory.tree.get(&Name::Raw(*disk)).is_some()
}

/// Whether an image has the new UUID, visible or hidden.
pub(crate) fn is_taken(memory: &Memory, command: &Command) -> bool
    ensures { Recalls (λ σ. machine.is_taken σ command.now) (known memory.now) result }
{
    match new_uuid(command) {
        Some(disk) => has_image(memory, &disk),
        None => false,
    }
}

/// Whether a disk is attached.
fn is_attached(memory: &Memory, disk: &Uuid) -> bool
    ensures { Recalls (λ σ. is_some (attached_as disk.now σ)) (known memory.now) result }
{
    memory.attached.mode(disk).is_some()
}

/// Whether a disk is attached for reading alone.
fn is_only_read(memory: &Memory, disk: &Uuid) -> bool
    ensures { Recalls (λ σ. is_ro (attached_as disk.now σ)) (known memory.now) result }
{
    match memory.attached.mode(disk) {
        Some(Mode::Ro) => true,
        Some(Mode::Rw) => false,
        None => false,
    }
}

/// Attach, delete: whether the disk is attached; resize: whether it is attached for reading alone.
pub(crate) fn is_in_use(memory: &Memory, command: &Command) -> bool
    ensures { Recalls (λ σ. machine.is_in_use σ command.now) (known memory.now) result }
{
    match command {
        Command::Attach { disk, .. } => is_attached(memory, disk),
        Command::Delete { disk } => is_attached(memory, disk),
        Command::Resize { disk, .. } => is_only_read(memory, disk),
        _ => false,
    }
}

/// Write, fill, read, flush, detach: whether the disk is not attached.
pub(crate) fn is_not_attached(memory: &Memory, command: &Command) -> bool
    ensures { Recalls (λ σ. machine.is_not_attached σ command.now) (known memory.now) result }
{
    match command {
        Command::Write { disk, .. } => !is_attached(memory, disk),
        Command::Fill { disk, .. } => !is_attached(memory, disk),
        Command::Read { disk, .. } => !is_attached(memory, disk),
        Command::Flush { disk } => !is_attached(memory, disk),
        Command::Detach { disk } => !is_attached(memory, disk),
        _ => false,
    }
}

/// Whether a disk is a snapshot.
fn is_snapshot(memory: &Memory, disk: &Uuid) -> bool
    ensures { Recalls (λ σ. machine.is_snapshot disk.now σ) (known memory.now) result }
{
    match memory.records.find(disk) {
        Some(record) => record.read_only,
        None => false,
    }
}

/// Write, fill: whether the disk is attached for reading alone; attach for writing, resize, a beginning of tracking: whether it is a snapshot.
pub(crate) fn is_read_only(memory: &Memory, command: &Command) -> bool
    ensures { Recalls (λ σ. machine.is_read_only σ command.now) (known memory.now) result }
{
    match command {
        Command::Write { disk, .. } => is_only_read(memory, disk),
        Command::Fill { disk, .. } => is_only_read(memory, disk),
        Command::Attach { disk, mode } => match mode {
            Mode::Ro => false,
            Mode::Rw => is_snapshot(memory, disk),
        },
        Command::Resize { disk, .. } => is_snapshot(memory, disk),
        Command::Track { disk, on } => *on && is_snapshot(memory, disk),
        _ => false,
    }
}

/// Whether a disk's image is raw.
fn is_raw(memory: &Memory, disk: &Uuid) -> bool
    ensures { Recalls (λ σ. machine.of_some (λ i. not (is_vhd_name i.name)) (disk_image disk.now σ)) (known memory.now) result }
{
    match image(memory, disk) {
        Some(row) => !is_vhd(row),
        None => false,
    }
}

/// Resize: whether the disk's image is raw.
pub(crate) fn is_raw_disk(memory: &Memory, command: &Command) -> bool
    ensures { Recalls (λ σ. machine.is_raw_disk σ command.now) (known memory.now) result }
{
    match command {
        Command::Resize { disk, .. } => is_raw(memory, disk),
        _ => false,
    }
}

/// Resize, a beginning of tracking: whether the disk is tracked.
pub(crate) fn is_tracked(memory: &Memory, command: &Command) -> bool
    ensures { Recalls (λ σ. machine.is_tracked σ command.now) (known memory.now) result }
{
    match command {
        Command::Resize { disk, .. } => memory.logs.get(disk).is_some(),
        Command::Track { disk, on } => *on && memory.logs.get(disk).is_some(),
        _ => false,
    }
}

/// An end of tracking: whether the disk is not tracked; what changed between two disks: whether the logs do not lead from the second one back
/// to the first.
pub(crate) fn is_untracked(memory: &Memory, command: &Command) -> bool
    ensures { Recalls (λ σ. machine.is_untracked σ command.now) (known memory.now) result }
{
    match command {
        Command::Track { disk, on } => !*on && memory.logs.get(disk).is_none(),
        Command::Changed { from, to } => !memory.logs.leads(from, to),
        _ => false,
    }
}

/// Whether so many sectors from one on are none, or not all among the first so many.
fn is_past(size: u64, sector: u64, count: u64) -> bool
    ensures { result ≡ ((count == 0) || nat_lt size (sector + count)) }
{
    count == 0 || size < sector || size - sector < count
}

/// Whether so many sectors from one on are none, or not all within the disk.
fn is_outside(memory: &Memory, disk: &Uuid, sector: u64, count: u64) -> bool
    ensures { Recalls (λ σ. machine.is_outside σ disk.now sector count) (known memory.now) result }
{
    match image(memory, disk) {
        Some(row) => is_past(row.image.sectors(), sector, count),
        None => count == 0,
    }
}

/// How many bytes there are.
fn byte_count(bytes: &LineBytes) -> u64
    ensures { result ≡ length bytes.now }
{
    bytes.bytes.len() as u64
}

/// Write, fill, read: whether the sectors are none, or not all within the disk; read: whether they are more than a line may
/// read; write: whether the bytes are no whole sectors.
pub(crate) fn is_out_of_range(memory: &Memory, command: &Command) -> bool
    ensures { Recalls (λ σ. machine.is_out_of_range σ command.now) (known memory.now) result }
{
    match command {
        Command::Write {
            disk,
            sector,
            bytes,
        } => {
            let length = byte_count(bytes);
            is_outside(memory, disk, *sector, length / SECTOR) || length % SECTOR != 0
        }
        Command::Fill {
            disk,
            sector,
            count,
            ..
        } => is_outside(memory, disk, *sector, *count),
        Command::Read {
            disk,
            sector,
            count,
        } => is_outside(memory, disk, *sector, *count) || *count > READ_LIMIT,
        _ => false,
    }
}

/// Whether a size is 0, or its sectors are more than `most`, or for a raw disk more than `all`.
fn passes(size: u64, sectors: u64, most: u64, raw: bool, all: u64) -> bool
    ensures { result ≡ ((size == 0) || nat_lt most sectors || (raw && nat_lt all sectors)) }
{
    size == 0 || sectors > most || raw && sectors > all
}

/// Whether a size is 0, or rounded up passes the blocks of a table, or for a raw disk all extents.
fn is_bad(geometry: &Geometry, extents: u32, raw: bool, size: u64) -> bool
    ensures { (s : Site) (t : VolumeTable) (m : Known) → IsSiteOf geometry.now extents s → result ≡ machine.is_bad (shape_in s t m) raw size }
{
    let sectors = rounded(geometry, raw, size);
    let most = u64::from(geometry.entries) * u64::from(geometry.block);
    let all = u64::from(extents) * u64::from(geometry.extent);
    passes(size, sectors, most, raw, all)
}

/// Create, resize: whether the size is bad.
pub(crate) fn is_bad_size(geometry: &Geometry, extents: u32, command: &Command) -> bool
    ensures { (s : Site) (t : VolumeTable) (m : Known) → IsSiteOf geometry.now extents s → result ≡ machine.is_bad_size (shape_in s t m) command.now }
{
    match command {
        Command::Create { size, raw, .. } => is_bad(geometry, extents, *raw, *size),
        Command::Resize { size, .. } => is_bad(geometry, extents, false, *size),
        _ => false,
    }
}

/// Resize: whether the rounded size is below the present one.
pub(crate) fn is_shrink(memory: &Memory, geometry: &Geometry, command: &Command) -> bool
    ensures { Measures (λ σ. machine.is_shrink σ command.now) geometry.now (known memory.now) result }
{
    match command {
        Command::Resize { disk, size } => match image(memory, disk) {
            Some(row) => rounded(geometry, false, *size) < row.image.sectors(),
            None => false,
        },
        _ => false,
    }
}

/// The number of images in the chain of a disk.
fn depth(memory: &Memory, disk: &Uuid) -> u32
    ensures { Recalls (λ σ. machine.depth disk.now σ) (known memory.now) result }
{
    match image(memory, disk) {
        Some(row) => memory.tree.depth(&row.image.name()),
        None => 0,
    }
}

/// Snapshot, clone: the number of images in the chain of the disk that another is made of; 0 for other commands.
pub(crate) fn fork_depth(memory: &Memory, command: &Command) -> u32
    ensures { Recalls (λ σ. machine.fork_depth σ command.now) (known memory.now) result }
{
    match forked(command) {
        Some(disk) => depth(memory, &disk),
        None => 0,
    }
}

/// Snapshot, clone: whether the disk's chain is full, by its length.
pub(crate) fn is_deep(memory: &Memory, command: &Command) -> bool
    ensures { Recalls (λ σ. machine.is_deep σ command.now) (known memory.now) result }
{
    CHAIN_LIMIT <= fork_depth(memory, command)
}

/// The images that a command makes.
#[tactic(auto, unfolding(sm_machine::specs::Refusals::images_needed))]
pub(crate) fn images_needed(command: &Command) -> u32
    ensures is { result ≡ machine.images_needed command.now }
    ensures few { result ≤ 2 }
{
    match command {
        Command::Create { .. } => 1,
        Command::Snapshot { .. } => 2,
        Command::Clone { .. } => 2,
        _ => 0,
    }
}

/// Create, snapshot, clone: whether the images would be too many.
pub(crate) fn is_too_many(memory: &Memory, command: &Command) -> bool
    ensures { Recalls (λ σ. machine.is_too_many σ command.now) (known memory.now) result }
{
    let most = IMAGE_LIMIT - images_needed(command) as usize;
    new_uuid(command).is_some() && most < memory.tree.rows().len()
}

/// Create, snapshot, clone: whether the sequence number is nearly used up.
pub(crate) fn is_spent(table: &Table, command: &Command) -> bool
    ensures { (s : Site) (m : Known) → result ≡ machine.is_spent (shape_in s (table_alone table.now) m) command.now }
{
    new_uuid(command).is_some() && SPENT_SEQUENCE <= table.seq()
}
