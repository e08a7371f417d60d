//! The rows of the images, made of the tree and of the attachments in memory, and the room beside them.
//!
//! Each image has a row, visible or hidden, in order of name. Sizes are in bytes. A raw image has no map, so that its number of
//! blocks is 0.

ghost use Rattle.std.specs.Prelude.{◌≡◌, ◌⊎◌, List, IfOk};
ghost use Rattle.sm_base.specs.declared.refusals.Refusal.{Refusal};
ghost use Rattle.sm_base.specs.declared.refusals.Refusal.TheVariants.{NoMemory as NoMemoryRefusal};
ghost use Rattle.vg_meta.specs.Roomy.{table_alone};
ghost use Rattle.vg_volumes.specs.Sites.{Site};
ghost use Rattle.sm_machine.specs.Disks.{Disk};
ghost use Rattle.sm_machine.specs.Steps.{reply_to};
ghost use Rattle.sm_machine.specs.declared.commands.Command.TheVariants.{Stat as StatImages};
ghost use Rattle.sm_machine.specs.declared.replies.Reply.TheVariants.{No};
ghost use Rattle.sm_ready.specs.Known.{known, shape_in};
ghost use Rattle.sm_ready.specs.Orderly.{IsOrderly};
ghost use Rattle.sm_ready.specs.Ready.{IsTidy};
ghost use Rattle.cmd_list.specs.Images.{image_row as image_row_of, image_rows};
ghost use Rattle.vhd_chain.specs.Reading.{slots_of};
ghost use Rattle.vhd_map.specs.Slots.{used_count};

use sm_base::{NoMemory, Refusal, SECTOR};
use sm_machine::{Reply, StatRow, StatRows};
use sm_ready::Memory;
use sm_refs::Attachments;
use std::alloc::Global;
use vg_extents::free;
use vg_meta::Table;
use vhd_chain::{Tree, TreeRow};
use vhd_image::Image;

/// The number of blocks that have a slot.
fn block_count(image: &Image) -> u32
    ensures { result ≡ used_count (slots_of image.now) }
{
    match image.map() {
        Some(map) => map.count(),
        None => 0,
    }
}

/// The row of an image. A size that no image of a repository has is told as the greatest number of 64 bits.
fn image_row(attached: &Attachments, row: &TreeRow) -> StatRow
    ensures { result ≡ image_row_of attached.now row.now }
{
    let name = row.image.name();
    StatRow {
        name,
        hidden: row.hidden,
        parent: row.image.parent(),
        size: row.image.sectors().saturating_mul(SECTOR),
        blocks: block_count(&row.image),
        extents: row.extents,
        refs: attached.count(&name),
    }
}

/// The rows of all images, in order of name. Memory is taken for all of them before the first.
fn rows_of(alloc: Global, tree: &Tree, attached: &Attachments) -> Result<Vec<StatRow>, NoMemory>
    ensures { IfOk result (λ rows. rows.items ≡ image_rows attached.now tree.now.rows) }
{
    let images = tree.rows();
    let Ok(mut rows) = Vec::with_capacity(alloc, images.len()) else {
        return Err(NoMemory);
    };
    for image in images {
        let Ok(()) = rows.push(image_row(attached, image)) else {
            unreachable!()
        };
    }
    Ok(rows)
}

/// The sequence number, the free extents of `extents` in all, the running operation, and the images in order of name, or want of
/// memory.
pub fn stat(alloc: Global, table: &Table, memory: &Memory, extents: u32) -> Reply
    ensures poor { (x : Refusal) → result ≡ No x → x ≡ NoMemoryRefusal }
    ensures answered { (s : Site) (ds : List Disk) → s.count ≡ extents → IsOrderly s (table_alone table.now) (known memory.now) → IsTidy (table_alone table.now) (known memory.now)
        → (result ≡ No NoMemoryRefusal) ⊎ (result ≡ reply_to ds (shape_in s (table_alone table.now) (known memory.now)) StatImages) }
{
    match rows_of(alloc, &memory.tree, &memory.attached) {
        Ok(rows) => Reply::Stat(StatRows {
            seq: table.seq(),
            free: free(table, extents),
            op: memory.operation.told(),
            rows,
        }),
        Err(_) => Reply::No(Refusal::NoMemory),
    }
}
