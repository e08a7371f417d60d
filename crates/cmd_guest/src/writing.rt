//! Sectors of a disk are written.

ghost use Rattle.std.specs.Prelude.{◌≡◌, ◌/◌, length, OnOk};
ghost use Rattle.vg_volumes.specs.Stored.{Counts, Stays};
ghost use Rattle.sm_machine.specs.declared.commands.Command.TheVariants.{Write};
ghost use Rattle.sm_machine.specs.declared.replies.Reply.TheVariants.{Done};
ghost use Rattle.sm_ready.specs.Does.{ShapesAs};
ghost use Rattle.sm_ready.specs.Frames.{IsBesideTree};
ghost use Rattle.sm_ready.specs.Framing.{IsBetweenSteps};
ghost use Rattle.sm_ready.specs.Refusing.{IsAllowed};
ghost use Rattle.sm_ready.specs.Sessions.{IsReadyStore};
ghost use Rattle.sm_ready.specs.Taken.{StoreTakes};
ghost use Rattle.cmd_guest.specs.Taken.{answered};
ghost use Rattle.cmd_guest.specs.Writing.{WritesOnly};

use crate::marking::mark;
use sm_base::Failed;
use sm_ready::{Memory, image_name};
use uuid::Uuid;
use vg_volumes::Store;
use vhd_write::Payload;

/// The bytes of a sector.
const SECTOR: u64 = 512;

/// Writes so many sectors to a disk, from one on.
pub(crate) fn put<S: Store>(
    store: &mut S,
    memory: &mut Memory,
    disk: &Uuid,
    sector: u64,
    count: u64,
    from: &Payload<'_>,
) -> Result<(), Failed>
    requires session { IsBetweenSteps S.Store store.old memory.old }
    requires allowed { IsAllowed S.Store (Write disk.now sector from.now) store.old memory.old }
    requires count { count ≡ length from.now / 512 }
    ensures stays { Stays S.Store store.old store.new }
    ensures cause { Counts S.Store result store.old store.new }
    ensures writes { WritesOnly S.Store memory.old disk.now sector from.now store.old store.new }
    ensures beside_tree { IsBesideTree (record memory.old { operation = memory.new.operation }) memory.new }
    ensures session_still { OnOk result (IsBetweenSteps S.Store store.new memory.new) }
    ensures shape { OnOk result (ShapesAs S.Store (Write disk.now sector from.now) store.old memory.old store.new memory.new) }
    ensures taken { S.told → IsReadyStore S.Store store.old memory.old
        → StoreTakes S.Store (Write disk.now sector from.now) store.old memory.old store.new memory.new (answered Done result) }
{
    let volume = image_name(&memory.tree, disk);
    let Some(mut row) = memory.tree.take(&volume) else {
        unreachable!()
    };
    // No more sectors are written than the image has.
    let _sectors = row.image.sectors();
    let block = u64::from(store.geometry().block);
    let end = (sector + count - 1) / block + 1;
    mark(&mut memory.operation, disk, sector / block, end);
    let written = row.image.write(store, sector, from);
    memory.tree.add(row);
    written
}

/// Writes whole sectors of a disk, at least one, from a sector on. It takes no memory, is never refused for space, and puts nothing
/// anywhere but where it has to. What it writes lasts once the store is synced.
///
/// # Errors
/// A call of the store failed; each sector is as it might have been before, or as it is written.
pub fn write<S: Store>(
    store: &mut S,
    memory: &mut Memory,
    disk: &Uuid,
    sector: u64,
    bytes: &[u8],
) -> Result<(), Failed>
    requires session { IsBetweenSteps S.Store store.old memory.old }
    requires allowed { IsAllowed S.Store (Write disk.now sector bytes.now) store.old memory.old }
    ensures stays { Stays S.Store store.old store.new }
    ensures cause { Counts S.Store result store.old store.new }
    ensures writes { WritesOnly S.Store memory.old disk.now sector bytes.now store.old store.new }
    ensures beside_tree { IsBesideTree (record memory.old { operation = memory.new.operation }) memory.new }
    ensures session_still { OnOk result (IsBetweenSteps S.Store store.new memory.new) }
    ensures shape { OnOk result (ShapesAs S.Store (Write disk.now sector bytes.now) store.old memory.old store.new memory.new) }
    ensures taken { S.told → IsReadyStore S.Store store.old memory.old
        → StoreTakes S.Store (Write disk.now sector bytes.now) store.old memory.old store.new memory.new (answered Done result) }
{
    let count = bytes.len() as u64 / SECTOR;
    put(store, memory, disk, sector, count, &Payload::given(bytes))
}
