//! Sectors of a disk are filled with a byte.

ghost use Rattle.std.specs.Prelude.{◌≡◌, ◌<◌, ◌≤◌, ◌+◌, ◌*◌, length, replicate, OnOk};
ghost use Rattle.vg_volumes.specs.Stored.{Counts, Stays};
ghost use Rattle.sm_machine.specs.declared.commands.Command.TheVariants.{Fill};
ghost use Rattle.sm_machine.specs.declared.replies.Reply.TheVariants.{Done};
ghost use Rattle.sm_ready.specs.Does.{ShapesAs};
ghost use Rattle.sm_ready.specs.Frames.{IsBesideTree};
ghost use Rattle.sm_ready.specs.Framing.{IsBetweenSteps};
ghost use Rattle.sm_ready.specs.Refusing.{IsAllowed};
ghost use Rattle.sm_ready.specs.Sessions.{IsReadyStore};
ghost use Rattle.sm_ready.specs.Taken.{StoreTakes};
ghost use Rattle.cmd_guest.specs.Taken.{answered};
ghost use Rattle.cmd_guest.specs.Writing.{WritesOnly};

use crate::writing::put;
use sm_base::Failed;
use sm_pool::Pool;
use sm_ready::Memory;
use uuid::Uuid;
use vg_volumes::Store;
use vhd_write::Payload;

/// The bytes of a sector.
const SECTOR: usize = 512;

/// The fill: one write of so many sectors of the byte. The buffer gets the byte in as many sectors as one block takes of them at
/// most, so that a short fill goes over few of its bytes.
fn fill_with<S: Store>(
    store: &mut S,
    memory: &mut Memory,
    piece: &mut [u8],
    disk: &Uuid,
    sector: u64,
    count: u64,
    byte: u8,
) -> Result<(), Failed>
    requires session { IsBetweenSteps S.Store store.old memory.old }
    requires allowed { IsAllowed S.Store (Fill disk.now sector count byte) store.old memory.old }
    requires long { 512 * (S.site store.old).geometry.block ≤ length piece.old }
    ensures stays { Stays S.Store store.old store.new }
    ensures cause { Counts S.Store result store.old store.new }
    ensures writes { WritesOnly S.Store memory.old disk.now sector (replicate (512 * count) byte) store.old store.new }
    ensures beside_tree { IsBesideTree (record memory.old { operation = memory.new.operation }) memory.new }
    ensures session_still { OnOk result (IsBetweenSteps S.Store store.new memory.new) }
    ensures shape { OnOk result (ShapesAs S.Store (Fill disk.now sector count byte) store.old memory.old store.new memory.new) }
    ensures taken { S.told → IsReadyStore S.Store store.old memory.old
        → StoreTakes S.Store (Fill disk.now sector count byte) store.old memory.old store.new memory.new (answered Done result) }
{
    let most = count.min(u64::from(store.geometry().block));
    let piece = &mut piece[..SECTOR * most as usize];
    piece.fill(byte);
    let from = Payload::repeated(piece, byte, count);
    put(store, memory, disk, sector, count, &from)
}

/// Fills so many sectors of a disk, at least one, with a byte, from a sector on. It takes no memory but a buffer of the pool,
/// which it gives back, is never refused for space, and puts nothing anywhere but where a write of all these sectors has to.
/// What it writes lasts once the store is synced.
///
/// # Errors
/// A call of the store failed; each sector is as it might have been before, or as it is filled.
pub fn fill<S: Store>(
    store: &mut S,
    memory: &mut Memory,
    pool: &mut Pool,
    disk: &Uuid,
    sector: u64,
    count: u64,
    byte: u8,
) -> Result<(), Failed>
    requires session { IsBetweenSteps S.Store store.old memory.old }
    requires allowed { IsAllowed S.Store (Fill disk.now sector count byte) store.old memory.old }
    requires buffer { (0 < pool.old.free) × (512 * (1 + (S.site store.old).geometry.block) ≤ pool.old.bytes) }
    ensures stays { Stays S.Store store.old store.new }
    ensures cause { Counts S.Store result store.old store.new }
    ensures pool { pool.new ≡ pool.old }
    ensures writes { WritesOnly S.Store memory.old disk.now sector (replicate (512 * count) byte) store.old store.new }
    ensures beside_tree { IsBesideTree (record memory.old { operation = memory.new.operation }) memory.new }
    ensures session_still { OnOk result (IsBetweenSteps S.Store store.new memory.new) }
    ensures shape { OnOk result (ShapesAs S.Store (Fill disk.now sector count byte) store.old memory.old store.new memory.new) }
    ensures taken { S.told → IsReadyStore S.Store store.old memory.old
        → StoreTakes S.Store (Fill disk.now sector count byte) store.old memory.old store.new memory.new (answered Done result) }
{
    // No more buffers are free than the pool has.
    let _free = pool.free();
    let Some(mut piece) = pool.take() else {
        unreachable!()
    };
    let filled = fill_with(store, memory, piece.bytes_mut(), disk, sector, count, byte);
    pool.give(piece);
    filled
}
