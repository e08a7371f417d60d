//! The rows of the disks, made of the tree of the images and of the records in memory.
//!
//! A record whose disk has no visible image is left out: it is stray. Records stand in no order, so each row is put into its
//! place by UUID. Sizes are in bytes.

ghost use Rattle.std.specs.Prelude.{◌≡◌, ◌≤◌, ◌⊎◌, ◌++◌, ◌∷◌, take, drop, length, OnOk, IfOk};
ghost use Rattle.sm_base.specs.declared.refusals.Refusal.{Refusal};
ghost use Rattle.sm_base.specs.declared.refusals.Refusal.TheVariants.{NoMemory as NoMemoryRefusal};
ghost use Rattle.sm_disk.specs.Held.{Held};
ghost use Rattle.vg_meta.specs.Tables.{VolumeTable};
ghost use Rattle.vg_volumes.specs.Sites.{Site};
ghost use Rattle.sm_machine.specs.declared.commands.Command.TheVariants.{List as ListDisks};
ghost use Rattle.sm_machine.specs.declared.replies.Reply.TheVariants.{No};
ghost use Rattle.sm_machine.specs.Steps.{step};
ghost use Rattle.sm_mgt.specs.Places.{place_count};
ghost use Rattle.sm_ready.specs.Known.{known};
ghost use Rattle.sm_ready.specs.Orderly.{IsOrderly};
ghost use Rattle.sm_ready.specs.Ready.{IsReady, IsTidy};
ghost use Rattle.sm_ready.specs.Sessions.{state_in};
ghost use Rattle.cmd_list.specs.Listed.{visible_size, shown_size, listed_row, is_row_before, with_row, listed};
ghost use Rattle.vhd_chain.specs.Trees.{tree_row};

use sm_base::{Name, NoMemory, Refusal, SECTOR};
use sm_machine::{DiskRow, DiskRows, Reply};
use sm_mgt::Record;
use sm_ready::Memory;
use std::alloc::Global;
use uuid::Uuid;
use vhd_chain::Tree;

/// The number of places of records.
const PLACES: u32 = 512;

/// The size in sectors of the image of this name, where it is visible.
fn image_size(tree: &Tree, name: &Name) -> Option<u64>
    ensures { result ≡ visible_size (tree_row tree.now.rows name.now) }
{
    let row = tree.get(name)?;
    if row.hidden {
        return None;
    }
    Some(row.image.sectors())
}

/// The size in sectors of a disk's visible image.
#[tactic(auto, unfolding(sm_ready::specs::Shown::of_shown))]
fn disk_size(tree: &Tree, disk: &Uuid) -> Option<u64>
    ensures { result ≡ shown_size tree.now.rows disk.now }
{
    image_size(tree, &Name::Vhd(*disk)).or(image_size(tree, &Name::Raw(*disk)))
}

/// The row of a record's disk, or `None` where no visible image has its UUID. A size that no image of a repository has is told
/// as the greatest number of 64 bits.
fn disk_row(tree: &Tree, entry: &Record) -> Option<DiskRow>
    ensures { result ≡ listed_row tree.now.rows entry.now }
{
    let sectors = disk_size(tree, &entry.uuid)?;
    Some(DiskRow {
        uuid: entry.uuid,
        size: sectors.saturating_mul(SECTOR),
        read_only: entry.read_only,
        origin: entry.origin,
        label: entry.label,
    })
}

/// Whether a row is before another, in order of UUID.
fn is_before(row: &DiskRow, other: &DiskRow) -> bool
    ensures { result ≡ is_row_before row.now other.now }
{
    row.uuid.as_bytes()[..]
        .cmp(&other.uuid.as_bytes()[..])
        .is_lt()
}

/// The place at which a row is put in.
fn slot(rows: &[DiskRow], row: &DiskRow) -> usize
    ensures within { result ≤ length rows.now }
    ensures place { take result rows.now ++ row.now ∷ drop result rows.now ≡ with_row row.now rows.now }
{
    for (at, other) in rows.iter().enumerate() {
        if is_before(row, other) {
            return at;
        }
    }
    rows.len()
}

/// Puts a row into its place.
fn put(rows: &mut Vec<DiskRow>, row: DiskRow) -> Result<(), NoMemory>
    ensures { OnOk result (rows.new.items ≡ with_row row rows.old.items) }
{
    let at = slot(rows, &row);
    match rows.insert(at, row) {
        Ok(()) => Ok(()),
        Err(_) => Err(NoMemory),
    }
}

/// The rows of all disks, in order of UUID. The last place comes first.
fn rows_in(alloc: Global, memory: &Memory) -> Result<DiskRows, NoMemory>
    ensures { IfOk result (λ rows. length memory.now.records ≡ place_count → rows ≡ listed memory.now.tree.rows memory.now.records) }
{
    let mut rows = Vec::new(alloc);
    for place in (0..PLACES).rev() {
        let Some(entry) = memory.records.at(place) else {
            continue;
        };
        let Some(row) = disk_row(&memory.tree, entry) else {
            continue;
        };
        put(&mut rows, row)?;
    }
    Ok(DiskRows { rows })
}

/// The disks, in order of UUID, or want of memory.
pub fn list(alloc: Global, memory: &Memory) -> Reply
    ensures poor { (x : Refusal) → result ≡ No x → x ≡ NoMemoryRefusal }
    ensures listed { (s : Site) (t : VolumeTable) (area : Held) → IsOrderly s t (known memory.now) → IsTidy t (known memory.now) → IsReady s t area (known memory.now)
        → (result ≡ No NoMemoryRefusal) ⊎ (result ≡ (step (state_in s t area (known memory.now)) ListDisks).reply) }
{
    match rows_in(alloc, memory) {
        Ok(rows) => Reply::List(rows),
        Err(_) => Reply::No(Refusal::NoMemory),
    }
}
