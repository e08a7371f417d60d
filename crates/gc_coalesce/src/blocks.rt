//! What an image holds in one block is copied into its parent.

ghost use Rattle.std.specs.Prelude.{◌≡◌, ◌<◌, ◌≤◌, ◌+◌, ◌*◌, ℕ, true, false, None, length, IfNone, IfOk, IfSome, OnOk};
ghost use Rattle.vg_volumes.specs.Stored.{Counts, OnlyReads, stored};
ghost use Rattle.vhd_chain.specs.Reading.{own_read};
ghost use Rattle.vhd_image.specs.Bodies.{ImageIsTrue, ImageStands, sector_count};
ghost use Rattle.vhd_write.specs.Marks.{HasMark};
ghost use Rattle.gc_coalesce.specs.Blocks.{AreGathered, AreUnmarkedFrom, CanCopy, Copies, HasCopied};

use sm_base::Failed;
use sm_pool::Pool;
use vg_volumes::Store;
use vhd_image::Image;
use vhd_map::bit;
use vhd_write::{alike, mark};

/// The bytes of a sector.
const SECTOR: usize = 512;

/// Reads the run that begins at a sector of the block, and answers how many sectors it has. Where the child holds them, they are marked,
/// and their bytes stand at their place among those of the block.
fn gather_run<S: Store>(
    store: &mut S,
    child: &Image,
    block: u32,
    part: u32,
    marks: &mut [u8; 512],
    bytes: &mut [u8],
) -> Result<u32, Failed>
    requires stands { ImageStands (stored S.Store store.old) child.now }
    requires true_now { S.told → ImageIsTrue (stored S.Store store.old) child.now }
    requires within { block * (S.site store.old).geometry.block + (S.site store.old).geometry.block ≤ sector_count child.now }
    requires inside { part < (S.site store.old).geometry.block }
    requires long { length bytes.old ≡ 512 * (S.site store.old).geometry.block }
    requires before { S.told → AreGathered (own_read (stored S.Store store.old) child.now)
        (block * (S.site store.old).geometry.block) marks.old bytes.old part }
    requires clean { AreUnmarkedFrom part marks.old }
    ensures reads_only { OnlyReads S.Store store.old store.new }
    ensures cause { Counts S.Store result store.old store.new }
    ensures inside { IfOk result (λ count. (0 < count) × (part + count ≤ (S.site store.old).geometry.block)) }
    ensures gathered { IfOk result (λ count. S.told → AreGathered (own_read (stored S.Store store.old) child.now)
        (block * (S.site store.old).geometry.block) marks.new bytes.new (part + count)) }
    ensures clean { IfOk result (λ count. AreUnmarkedFrom (part + count) marks.new) }
{
    let wide = store.geometry().block;
    let sector = block as u64 * wide as u64 + part as u64;
    let run = child.run(store, sector, wide - part)?;
    let done = part as usize;
    let next = done + run.sectors as usize;
    if run.held {
        child.read_held(store, sector, &mut bytes[SECTOR * done..SECTOR * next])?;
        mark(marks, part, run.sectors);
    }
    Ok(run.sectors)
}

/// Reads what the child holds in the block, each sector at its place among the bytes of the block, and answers which sectors these are;
/// nothing where there is none.
fn gather<S: Store>(
    store: &mut S,
    child: &Image,
    block: u32,
    bytes: &mut [u8],
) -> Result<Option<[u8; 512]>, Failed>
    requires stands { ImageStands (stored S.Store store.old) child.now }
    requires true_now { S.told → ImageIsTrue (stored S.Store store.old) child.now }
    requires within { block * (S.site store.old).geometry.block + (S.site store.old).geometry.block ≤ sector_count child.now }
    requires long { length bytes.old ≡ 512 * (S.site store.old).geometry.block }
    ensures reads_only { OnlyReads S.Store store.old store.new }
    ensures cause { Counts S.Store result store.old store.new }
    ensures some { IfOk result (λ found. IfSome found (λ marks. HasMark (S.site store.old).geometry.block marks)) }
    ensures gathered { IfOk result (λ found. IfSome found (λ marks. S.told
        → AreGathered (own_read (stored S.Store store.old) child.now)
        (block * (S.site store.old).geometry.block) marks bytes.new (S.site store.old).geometry.block)) }
    ensures none { IfOk result (λ found. IfNone found (S.told → (i : ℕ) → i < (S.site store.old).geometry.block
        → own_read (stored S.Store store.old) child.now (block * (S.site store.old).geometry.block + i) ≡ None)) }
{
    let wide = store.geometry().block;
    let mut marks = [0; 512];
    let mut part = 0;
    while part < wide {
        part += gather_run(store, child, block, part, &mut marks, bytes)?;
    }
    if !bit(&marks, 0) && alike(&marks, 0, wide) == wide {
        return Ok(None);
    }
    Ok(Some(marks))
}

/// Copies what the child holds in the block, with room for the bytes of a block.
fn copy_held<S: Store>(
    store: &mut S,
    bytes: &mut [u8],
    child: &Image,
    parent: &mut Image,
    block: u32,
) -> Result<(), Failed>
    requires usable { S.failed store.old ≡ false }
    requires can { CanCopy S.Store child.now parent.old block store.old }
    requires long { length bytes.old ≡ 512 * (S.site store.old).geometry.block }
    ensures cause { Counts S.Store result store.old store.new }
    ensures copies { Copies S.Store child.now parent.old parent.new store.old store.new }
    ensures copied { OnOk result (HasCopied S.Store child.now block (block * (S.site store.old).geometry.block)
        (S.site store.old).geometry.block parent.old parent.new store.old store.new) }
{
    let Some(marks) = gather(store, child, block, bytes)? else {
        return Ok(());
    };
    parent.write_marked(store, block, &marks, bytes)?;
    Ok(())
}

/// Copies what the child holds in a block into the parent by one write, with a buffer of the pool, which it gives back.
///
/// # Errors
///
/// A call of the store failed; each sector of the parent is as it might have been before, or has the child's bytes.
pub(crate) fn copy_sectors<S: Store>(
    store: &mut S,
    pool: &mut Pool,
    child: &Image,
    parent: &mut Image,
    block: u32,
) -> Result<(), Failed>
    requires usable { S.failed store.old ≡ false }
    requires can { CanCopy S.Store child.now parent.old block store.old }
    requires buffer { (0 < pool.old.free) × (512 * (1 + (S.site store.old).geometry.block) ≤ pool.old.bytes) }
    ensures cause { Counts S.Store result store.old store.new }
    ensures pool { pool.new ≡ pool.old }
    ensures copies { Copies S.Store child.now parent.old parent.new store.old store.new }
    ensures copied { OnOk result (HasCopied S.Store child.now block (block * (S.site store.old).geometry.block)
        (S.site store.old).geometry.block parent.old parent.new store.old store.new) }
{
    // No more buffers are free than the pool has.
    let _free = pool.free();
    let Some(mut piece) = pool.take() else {
        unreachable!()
    };
    let wide = store.geometry().block as usize;
    let copied = copy_held(
        store,
        &mut piece.bytes_mut()[..SECTOR * wide],
        child,
        parent,
        block,
    );
    pool.give(piece);
    copied
}
