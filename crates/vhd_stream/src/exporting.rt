//! A disk is sent as a VHD file.

ghost use Rattle.std.specs.Prelude.{◌≡◌, ◌≢◌, ◌<◌, ◌≤◌, ◌+◌, ◌*◌, ◌++◌, ◌^◌, ⊤, ℕ, List, true, Err, IfOk, length, take, drop, replicate};
ghost use Rattle.std.specs.List.{concat, flat_map, range_with_len};
ghost use Rattle.sm_base.specs.Numbers.{div_up};
ghost use Rattle.sm_disk.specs.Held.{Rose};
ghost use Rattle.sm_disk.specs.Streams.{Adds};
ghost use Rattle.sm_ready.specs.Does.{store_shape};
ghost use Rattle.sm_ready.specs.Framing.{IsBetweenSteps};
ghost use Rattle.sm_ready.specs.Known.{known};
ghost use Rattle.sm_ready.specs.Refusing.{Recalls};
ghost use Rattle.sm_ready.specs.Sessions.{IsReadyStore};
ghost use Rattle.sm_ready.specs.Stores.{store_content};
ghost use Rattle.sm_script.specs.Pieces.{Writes};
ghost use Rattle.vg_volumes.specs.Stored.{OnlyReads, stored};
ghost use Rattle.vhd_chain.specs.Reading.{AllAreTrue, AllStand};
ghost use Rattle.vhd_fields.specs.Footers.{footer_bytes};
ghost use Rattle.vhd_fields.specs.Headers.{header_bytes};
ghost use Rattle.vhd_stream.specs.declared.exporting.ExportFault.TheVariants as fault;
ghost use Rattle.vhd_stream.specs.Exports.{ExportOf, export_footer, export_header, exported, full_bitmap, piece, table_sector};
ghost use Rattle.vhd_stream.specs.Known.{blocks_known, blocks_read, has_disk};
ghost use Rattle.vhd_stream.specs.Sending.{HasSent, Sends, send_sides, sink_sides};

use crate::blocks::is_there;
use crate::tables::send_table;
use sm_base::{Failed, Geometry, Name, NoMemory};
use sm_disk::{Sink, write_all};
use sm_ready::{Memory, image_name};
use std::alloc::Global;
use uuid::Uuid;
use vg_volumes::Store;
use vhd_chain::Tree;
use vhd_fields::{Footer, Header};

/// The bytes of a bitmap, and of a sector.
const BITMAP: usize = 512;

/// Why a file was not sent whole.
#[derive(Clone, Copy, Debug, PartialEq, Eq)]
pub enum ExportFault {
    /// The device failed.
    Device,
    /// The sink failed.
    Sink,
    /// Memory ran out, and nothing was sent.
    NoMemory,
}

/// The footer of the file of a disk of so many blocks.
fn footer_of(count: u32, geometry: &Geometry, uuid: Uuid, now: u32) -> Footer
    requires { count ≤ 1044480 }
    ensures { result ≡ export_footer (count * geometry.now.block) uuid now }
{
    let bytes = 512 * (u64::from(count) * u64::from(geometry.block));
    Footer {
        stamp: now,
        creator: *b"lvhd",
        creator_version: 65536,
        host: 0,
        original: bytes,
        current: bytes,
        kind: 3,
        data_offset: 512,
        uid: uuid,
    }
}

/// The header of the file of a disk of so many blocks, each of so many sectors.
fn header_of(blocks: u32, block: u32) -> Header
    requires { block ≤ 4096 }
    ensures { result ≡ export_header blocks block }
{
    Header {
        table_offset: 1536,
        entries: blocks,
        block: 512 * block,
        parent_uid: Uuid::nil(),
        parent_stamp: 0,
        parent: None,
    }
}

/// Sends footer, header and table.
fn send_front<K: Sink>(
    tree: &Tree,
    name: &Name,
    block: u32,
    count: u32,
    footer: &[u8; 512],
    sink: &mut K,
) -> Result<(), Failed>
    requires few { (8 ≤ block) × (block ≤ 4096) × (count ≤ 1044480) }
    ensures { Writes (footer.now ++ (header_bytes (export_header count block)
        ++ flat_map (table_sector (blocks_known block tree.now.rows name.now count)) (range_with_len 0 (div_up count 128))))
        (K.content sink.old) (K.content sink.new) (K.faults sink.old) (K.faults sink.new) result }
{
    let mut header = [0; 1024];
    header_of(count, block).write(&mut header);
    write_all(sink, footer)?;
    write_all(sink, &header)?;
    send_table(tree, name, block, count, sink)
}

/// Sends bytes.
fn send<K: Sink>(sink: &mut K, bytes: &[u8]) -> Result<(), ExportFault>
    ensures { (device : ℕ) → Sends ⊤ bytes.now (sink_sides K.content K.faults sink.old sink.new device) result }
{
    match write_all(sink, bytes) {
        Ok(()) => Ok(()),
        Err(_) => Err(ExportFault::Sink),
    }
}

/// Sends a block that is there, by a page that holds its bitmap and has room for its sectors.
fn send_there<S: Store, K: Sink>(
    store: &mut S,
    tree: &Tree,
    name: &Name,
    count: u32,
    b: u32,
    page: &mut [u8],
    sink: &mut K,
) -> Result<(), ExportFault>
    requires stand { AllStand (stored S.Store store.old) tree.now.rows }
    requires true_now { S.told → AllAreTrue (stored S.Store store.old) tree.now.rows }
    requires long { length page.old ≡ 512 + 512 * (S.site store.old).geometry.block }
    requires bitmap { take 512 page.old ≡ full_bitmap (S.site store.old).geometry.block }
    requires within { (b < count) × (count ≤ 1044480) }
    requires there { (blocks_read (stored S.Store store.old) tree.now.rows name.now count).there b ≡ true }
    ensures reads { OnlyReads S.Store store.old store.new }
    ensures bitmap { take 512 page.new ≡ take 512 page.old }
    ensures sends { Sends S.told (concat (piece (blocks_read (stored S.Store store.old) tree.now.rows name.now count) b))
        (send_sides K.content K.faults S.faults sink.old sink.new store.old store.new) result }
{
    let block = store.geometry().block;
    let sector = u64::from(b) * u64::from(block);
    match tree.read(store, name, sector, &mut page[BITMAP..]) {
        Ok(()) => send(sink, page),
        Err(_) => Err(ExportFault::Device),
    }
}

/// Sends a block, where it is there.
fn send_block<S: Store, K: Sink>(
    store: &mut S,
    tree: &Tree,
    name: &Name,
    count: u32,
    b: u32,
    page: &mut [u8],
    sink: &mut K,
) -> Result<(), ExportFault>
    requires stand { AllStand (stored S.Store store.old) tree.now.rows }
    requires true_now { S.told → AllAreTrue (stored S.Store store.old) tree.now.rows }
    requires long { length page.old ≡ 512 + 512 * (S.site store.old).geometry.block }
    requires bitmap { take 512 page.old ≡ full_bitmap (S.site store.old).geometry.block }
    requires within { (b < count) × (count ≤ 1044480) }
    ensures reads { OnlyReads S.Store store.old store.new }
    ensures bitmap { take 512 page.new ≡ take 512 page.old }
    ensures sends { Sends S.told (concat (piece (blocks_read (stored S.Store store.old) tree.now.rows name.now count) b))
        (send_sides K.content K.faults S.faults sink.old sink.new store.old store.new) result }
{
    let block = store.geometry().block;
    if is_there(tree, name, block, b) {
        send_there(store, tree, name, count, b, page, sink)
    } else {
        Ok(())
    }
}

/// Sends the blocks that are there, in rising order.
fn send_blocks<S: Store, K: Sink>(
    store: &mut S,
    tree: &Tree,
    name: &Name,
    count: u32,
    page: &mut [u8],
    sink: &mut K,
) -> Result<(), ExportFault>
    requires stand { AllStand (stored S.Store store.old) tree.now.rows }
    requires true_now { S.told → AllAreTrue (stored S.Store store.old) tree.now.rows }
    requires long { length page.old ≡ 512 + 512 * (S.site store.old).geometry.block }
    requires bitmap { take 512 page.old ≡ full_bitmap (S.site store.old).geometry.block }
    requires few { count ≤ 1044480 }
    ensures reads { OnlyReads S.Store store.old store.new }
    ensures sends { Sends S.told (flat_map (λ b. concat (piece (blocks_read (stored S.Store store.old) tree.now.rows name.now count) b)) (range_with_len 0 count))
        (send_sides K.content K.faults S.faults sink.old sink.new store.old store.new) result }
{
    for b in 0..count {
        match send_block(store, tree, name, count, b, page, sink) {
            Ok(()) => {}
            Err(fault) => return Err(fault),
        }
    }
    Ok(())
}

/// Sends the blocks that are there, and a footer behind them.
fn send_rest<S: Store, K: Sink>(
    store: &mut S,
    tree: &Tree,
    name: &Name,
    count: u32,
    footer: &[u8; 512],
    page: &mut [u8],
    sink: &mut K,
) -> Result<(), ExportFault>
    requires stand { AllStand (stored S.Store store.old) tree.now.rows }
    requires true_now { S.told → AllAreTrue (stored S.Store store.old) tree.now.rows }
    requires long { length page.old ≡ 512 + 512 * (S.site store.old).geometry.block }
    requires bitmap { take 512 page.old ≡ full_bitmap (S.site store.old).geometry.block }
    requires few { count ≤ 1044480 }
    ensures reads { OnlyReads S.Store store.old store.new }
    ensures sends { Sends S.told (flat_map (λ b. concat (piece (blocks_read (stored S.Store store.old) tree.now.rows name.now count) b)) (range_with_len 0 count) ++ footer.now)
        (send_sides K.content K.faults S.faults sink.old sink.new store.old store.new) result }
{
    match send_blocks(store, tree, name, count, page, sink) {
        Ok(()) => send(sink, footer),
        Err(fault) => Err(fault),
    }
}

/// Sends the file of a disk of so many blocks: footer, header, table, the blocks that are there, and the footer again.
fn send_file<S: Store, K: Sink>(
    store: &mut S,
    tree: &Tree,
    name: &Name,
    count: u32,
    uuid: &Uuid,
    now: u32,
    page: &mut [u8],
    sink: &mut K,
) -> Result<(), ExportFault>
    requires stand { AllStand (stored S.Store store.old) tree.now.rows }
    requires true_now { S.told → AllAreTrue (stored S.Store store.old) tree.now.rows }
    requires long { length page.old ≡ 512 + 512 * (S.site store.old).geometry.block }
    requires bitmap { take 512 page.old ≡ full_bitmap (S.site store.old).geometry.block }
    requires few { count ≤ 1044480 }
    ensures reads { OnlyReads S.Store store.old store.new }
    ensures sends { Sends S.told (concat (exported (blocks_read (stored S.Store store.old) tree.now.rows name.now count) uuid.now now))
        (send_sides K.content K.faults S.faults sink.old sink.new store.old store.new) result }
{
    let geometry = store.geometry();
    let mut footer = [0; 512];
    let made = footer_of(count, &geometry, *uuid, now);
    made.write(&mut footer);
    match send_front(tree, name, geometry.block, count, &footer, sink) {
        Ok(()) => send_rest(store, tree, name, count, &footer, page, sink),
        Err(_) => Err(ExportFault::Sink),
    }
}

/// Sets so many bytes to ones, from the first on.
fn set_bits(page: &mut [u8], bytes: usize)
    requires { bytes ≤ length page.old }
    ensures { page.new ≡ replicate bytes 255 ++ drop bytes page.old }
{
    page[..bytes].fill(255);
}

/// A page: the bitmap of a block that holds each of its sectors, and room for them.
fn page_of(alloc: Global, block: u32) -> Result<Vec<u8>, NoMemory>
    requires { block ≤ 4096 }
    ensures long { IfOk result (λ page. length page.items ≡ 512 + 512 * block) }
    ensures bitmap { IfOk result (λ page. take 512 page.items ≡ full_bitmap block) }
{
    let Ok(mut page) = vec![in alloc; 0; BITMAP + BITMAP * block as usize] else {
        return Err(NoMemory);
    };
    set_bits(&mut page, block as usize / 8);
    Ok(page)
}

/// Whether a disk has the UUID, between two steps.
pub fn is_disk(memory: &Memory, disk: &Uuid) -> bool
    ensures { Recalls (has_disk disk.now) (known memory.now) result }
{
    memory.records.find(disk).is_some()
}

/// Sends a disk to a sink as a dynamic VHD file that stands by itself, made at `now`, in seconds since 2000-01-01 00:00 UTC. Nothing
/// is written to the store. A block is read by one read for each run of its sectors that one image holds.
///
/// # Errors
/// A call of the store failed, or one of the sink did: a front of the file was sent. Memory for a block and its bitmap was wanting: nothing
/// was sent.
pub fn export<S: Store, K: Sink>(
    alloc: Global,
    store: &mut S,
    memory: &Memory,
    disk: &Uuid,
    now: u32,
    sink: &mut K,
) -> Result<(), ExportFault>
    requires session { IsBetweenSteps S.Store store.old memory.now }
    requires known { has_disk disk.now (store_shape S.Store store.old memory.now) ≡ true }
    ensures reads { OnlyReads S.Store store.old store.new }
    ensures sent { S.told → IsReadyStore S.Store store.old memory.now → (bytes : List ℕ)
        × ExportOf (store_content S.Store store.old) disk.now now bytes × HasSent bytes (K.content sink.old) (K.content sink.new) result }
    ensures device { result ≡ Err fault.Device → Rose (S.faults store.old) (S.faults store.new) }
    ensures sink { result ≡ Err fault.Sink → Rose (K.faults sink.old) (K.faults sink.new) }
    ensures poor { result ≡ Err fault.NoMemory → (sink.new ≡ sink.old) × (store.new ≡ store.old) }
    ensures calm { result ≢ Err fault.Device → S.faults store.new ≡ S.faults store.old }
    ensures sink_calm { result ≢ Err fault.Sink → K.faults sink.new ≡ K.faults sink.old }
    ensures sink_counts { K.faults sink.old ≤ K.faults sink.new }
{
    let name = image_name(&memory.tree, disk);
    let Some(row) = memory.tree.get(&name) else {
        unreachable!()
    };
    let block = store.geometry().block;
    let count = (row.image.sectors() / u64::from(block)) as u32;
    let Ok(mut page) = page_of(alloc, block) else {
        return Err(ExportFault::NoMemory);
    };
    send_file(
        store,
        &memory.tree,
        &name,
        count,
        disk,
        now,
        &mut page,
        sink,
    )
}
