//! A disk is made of another: by eight commits, and by one more where the folding of its leaf is given up first.

ghost use Rattle.std.specs.Prelude.{◌≡◌, ℕ, List, Err, OnOk, Some, length, unwrap_or};
ghost use Rattle.vg_meta.specs.Tables.{VolumeTable};
ghost use Rattle.std.specs.List.{slice_set};
ghost use Rattle.sm_base.specs.declared.faults.CallFault.TheVariants as fault;
ghost use Rattle.vg_meta.specs.Roomy.{table_alone};
ghost use Rattle.vg_volumes.specs.Stored.{Counts, OnlyReads};
ghost use Rattle.vhd_chain.specs.Trees.{tree_row};
ghost use Rattle.sm_mgt.specs.Places.{place_for, record_in};
ghost use Rattle.gc_abandon.specs.Abandoning.{unfolded, unfolded_table};
ghost use Rattle.sm_ready.specs.Does.{ShapesAs, StoreDoes, store_shape};
ghost use Rattle.sm_ready.specs.Framing.{CountsDevice, IsBetweenSteps, StepsOn};
ghost use Rattle.sm_ready.specs.Refusing.{IsAllowed};
ghost use Rattle.sm_ready.specs.Sessions.{IsReadyStore};
ghost use Rattle.sm_clone.specs.Forking.{CanFork, HasForkedRows, IsForkedOnLeast, fork_of, forked_places, forked_rows, forking, own_name, sectors_of, shape_forked, table_forked};
ghost use Rattle.sm_standing.specs.Entries.{base_number};

use crate::filling::fill;
use crate::forks::{Fork, twin_record};
use crate::memory::{add_rows, make_base, note_uses, shown_row};
use crate::preparing::{Parts, prepare};
use crate::runs::{begin, end};
use gc_abandon::give_up;
use sm_base::{CallFault, Failed, base_uuid};
use sm_ready::{Memory, image_name};
use sm_record::Record;
use std::alloc::Global;
use uuid::Uuid;
use vg_volumes::Store;

/// Makes the fork where all memory was taken: the eight commits, and between them the two images and the twin's record.
fn make_fork<S: Store>(
    store: &mut S,
    memory: &mut Memory,
    fork: &Fork,
    parts: Parts,
    entry: Record,
    now: u32,
) -> Result<(), Failed>
    requires can { CanFork S.Store store.old memory.old fork.now parts entry }
    ensures step { StepsOn S.Store 8 store.old store.new }
    ensures cause { Counts S.Store result store.old store.new }
    ensures session_still { OnOk result (IsBetweenSteps S.Store store.new memory.new) }
    ensures others { memory.new.operation ≡ memory.old.operation }
    ensures logs { memory.new.logs ≡ memory.old.logs }
    ensures table { OnOk result (table_alone (S.table store.new) ≡ table_forked (table_alone (S.table store.old)) fork.now parts.own.items parts.twins.items) }
    ensures images { OnOk result (memory.new.tree.rows ≡ forked_rows (S.site store.old) (table_alone (S.table store.old)) fork.now now
        (length parts.own.items) (length parts.twins.items) (tree_row memory.old.tree.rows fork.now.own) memory.old.tree.rows) }
    ensures records { OnOk result (memory.new.records ≡ slice_set memory.old.records (unwrap_or (place_for memory.old.records entry.uuid) 0) (Some entry)) }
    ensures shape { OnOk result (store_shape S.Store store.new memory.new
        ≡ shape_forked (store_shape S.Store store.old memory.old) (base_number fork.now.base) (forking fork.now.disk fork.now.twin entry.read_only)) }
    ensures done { S.told → IsReadyStore S.Store store.old memory.old
        → StoreDoes S.Store (forking fork.now.disk fork.now.twin entry.read_only) store.old memory.old store.new memory.new (result ≡ Ok tt) }
{
    let Some(mut base) = memory.tree.take(&fork.own) else {
        unreachable!()
    };
    make_base(&mut base, fork);
    let own_count = parts.own.len() as u32;
    let twin_count = parts.twins.len() as u32;
    begin(store, fork, parts.own, parts.twins)?;
    let (own, twin) = fill(
        store,
        &mut memory.records,
        fork,
        &base.image,
        entry,
        parts.own_map,
        parts.twin_map,
        now,
    )?;
    end(store, fork)?;
    let own = shown_row(own, own_count);
    let twin = shown_row(twin, twin_count);
    add_rows(&mut memory.tree, base, own, twin);
    note_uses(&mut memory.attached, fork);
    Ok(())
}

/// Makes a new disk, the twin, of a disk, which goes on: the disk's image becomes a hidden base, and both disks get images that
/// hold nothing over it. The twin has the disk's label, and the disk is its origin. `now` is in seconds since the beginning of
/// the year 2000. Where the disk's leaf is being folded that is given up first, once all memory was taken; the base's UUID is by the
/// table's number from before.
///
/// # Errors
///
/// `NoMemory` where memory ran out or no place is left for the record, and nothing was written; `Device` where a call of the
/// store failed: a stop leaves the disks from before, or these and the twin.
pub fn fork<S: Store>(
    alloc: Global,
    store: &mut S,
    memory: &mut Memory,
    disk: &Uuid,
    twin: &Uuid,
    read_only: bool,
    now: u32,
) -> Result<(), CallFault>
    requires session { IsBetweenSteps S.Store store.old memory.old }
    requires allowed { IsAllowed S.Store (forking disk.now twin.now read_only) store.old memory.old }
    ensures step { StepsOn S.Store 9 store.old store.new }
    ensures cause { CountsDevice S.Store result store.old store.new }
    ensures session_still { OnOk result (IsBetweenSteps S.Store store.new memory.new) }
    ensures poor { result ≡ Err fault.NoMemory
        → OnlyReads S.Store store.old store.new × ((t : VolumeTable) (image : ℕ → List ℕ) → S.leaves store.new t image → S.leaves store.old t image)
        × (memory.new ≡ memory.old) }
    ensures operation { OnOk result (memory.new.operation ≡ unfolded memory.old.operation disk.now) }
    ensures least { OnOk result (IsForkedOnLeast (S.site store.old) (unfolded_table memory.old.operation disk.now (table_alone (S.table store.old))) (store_shape S.Store store.old memory.old)
        (fork_of (table_alone (S.table store.old)).sequence memory.old.tree.rows disk.now twin.now)
        (sectors_of (tree_row memory.old.tree.rows (own_name memory.old.tree.rows disk.now))) (table_alone (S.table store.new))) }
    // The images in memory: the base, and two without slots over it, made now. Their headers name the base's volume, its unique id
    // and its time stamp; their own unique ids are by the table's number behind the commit that makes each.
    ensures images { OnOk result (HasForkedRows (S.site store.old) (unfolded_table memory.old.operation disk.now (table_alone (S.table store.old))) (store_shape S.Store store.old memory.old)
        (fork_of (table_alone (S.table store.old)).sequence memory.old.tree.rows disk.now twin.now) now memory.old.tree.rows memory.new.tree.rows) }
    ensures records { OnOk result (memory.new.records ≡ forked_places disk.now twin.now read_only (record_in memory.old.records disk.now) memory.old.records) }
    ensures logs { memory.new.logs ≡ memory.old.logs }
    ensures shape { OnOk result (ShapesAs S.Store (forking disk.now twin.now read_only) store.old memory.old store.new memory.new) }
    ensures done { S.told → IsReadyStore S.Store store.old memory.old
        → StoreDoes S.Store (forking disk.now twin.now read_only) store.old memory.old store.new memory.new (result ≡ Ok tt) }
{
    let Some(record) = memory.records.find(disk) else {
        unreachable!()
    };
    let entry = twin_record(disk, twin, read_only, record);
    let Ok(parts) = prepare(alloc, store, memory, disk, twin, read_only) else {
        return Err(CallFault::NoMemory);
    };
    let fork = Fork {
        disk: *disk,
        own: image_name(&memory.tree, disk),
        base: base_uuid(store.table().seq()),
        twin: *twin,
    };
    let Ok(()) = give_up(store, memory, disk) else {
        return Err(CallFault::Device);
    };
    let Ok(()) = make_fork(store, memory, &fork, parts, entry, now) else {
        return Err(CallFault::Device);
    };
    Ok(())
}
