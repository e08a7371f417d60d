//! All checks, one after another, and then the memory of a session: the images that stand, the logs of disks, and room for all that may come.
//! Nothing is written.

ghost use Rattle.std.specs.Prelude.{◌≡◌, ◌≢◌, ◌≤◌, ◌+◌, [], None, Err, OnOk, IfOk, IfErr, IfNone, length};
ghost use Rattle.common_laws.specs.Lists.{first_some};
ghost use Rattle.sm_mgt.specs.Places.{Agrees, place_count, records_of};
ghost use Rattle.sm_base.specs.declared.faults.OpenFault.TheVariants as fault;
ghost use Rattle.sm_standing.specs.Checks.{fault_of, first_fault};
ghost use Rattle.sm_standing.specs.Dropped.{drop_changes, dropped};
ghost use Rattle.sm_standing.specs.LogChecks.{first_place};
ghost use Rattle.sm_standing.specs.Outlines.{Outline};
ghost use Rattle.vg_meta.specs.Roomy.{table_alone};
ghost use Rattle.vg_volumes.specs.Stored.{OnlyReads};
ghost use Rattle.sm_machine.specs.Operations.{Idle};
ghost use Rattle.sm_machine.specs.Shapes.{image_limit};
ghost use Rattle.sm_ready.specs.Runs.{AllMay};
ghost use Rattle.sm_ready.specs.Sessions.{IsAtEase, HasRows, HasTreeRoom};
ghost use Rattle.sm_ready.specs.Stores.{store_content};
ghost use Rattle.sm_checks.specs.Faults.{HasLinks, HasPlaces, HasTable, PassImages, table_faults};
ghost use Rattle.sm_checks.specs.Loaded.{AreRowsOf, HasEachRow, read_volumes, stored_read};
ghost use Rattle.sm_checks.specs.Openable.{IsCheckStopped, IsOpenableStore};
ghost use Rattle.sm_recover.specs.Stores.{IsOpenedOn, IsOpeningStopped};

use crate::dropping::may_drop;
use crate::memory::{give_back, take_name};
use crate::tracked::checked_logs;
use sm_base::{IMAGE_LIMIT, NoMemory, OpenFault, Place};
use sm_checks::{disk_fault, link_fault, load, table_fault, tree_fault};
use sm_mgt::Mgt;
use sm_operation::Operation;
use sm_ready::Memory;
use sm_refs::Attachments;
use std::alloc::Global;
use vg_volumes::Store;
use vhd_chain::Tree;

/// The most rows that a table may come to have: those of 500 images, of 500 logs, of the volume of records, and of 4 journal entries.
const MOST_ROWS: usize = 1_005;

/// Checks what stands in a store, takes the memory for all rows that its table and its tree may come to have, and answers
/// what a session keeps in memory: what stands beside the table without logs of no use and without the entries that it may have, as if
/// what they say were ended or undone; of a link the child stands over its parent still, and both are hidden and of one size. New volumes
/// are no rows of the tree, and records of no disk are in their places.
pub fn checked_with_room<S: Store>(alloc: Global, store: &mut S) -> Result<Memory, OpenFault>
    ensures reads { OnlyReads S.Store store.old store.new }
    ensures droppable { OnOk result (AllMay (S.site store.old).count (table_alone (S.table store.old)) (drop_changes (table_alone (S.table store.old)))) }
    ensures openable { OnOk result (IsOpenableStore S.Store store.old) }
    ensures sound { OnOk result (S.told → first_place (store_content S.Store store.old) ≡ None) }
    ensures opened { IfOk result (IsOpenedOn S.Store store.old (dropped (table_alone (S.table store.old)))) }
    ensures at_ease { IfOk result IsAtEase }
    ensures tree_room { IfOk result HasTreeRoom }
    ensures attachment_room { IfOk result (λ m. image_limit ≤ m.attached.room) }
    ensures calm { result ≢ Err fault.Device → S.faults store.new ≡ S.faults store.old }
    ensures cause { IfErr result (IsOpeningStopped S.told (store_content S.Store store.old) (S.faults store.old) (S.faults store.new)) }
    ensures room { OnOk result (HasRows (S.table store.new)) }
{
    let (mut tree, records) = checked(alloc, store)?;
    take_name(&mut tree, store.table());
    give_back(&mut tree, store.table());
    let logs = checked_logs(alloc, store, &tree)?;
    let Ok((attached, operation)) = room_of(alloc, store) else {
        return Err(OpenFault::NoMemory);
    };
    Ok(Memory {
        tree,
        records,
        logs,
        attached,
        operation,
    })
}

/// Takes the memory for what a session keeps beside the images, the records and the logs, and makes room for all rows. That a commit can
/// remove the first log of no use is seen here too, while nothing is written; each one behind it makes the table's text shorter.
fn room_of<S: Store>(alloc: Global, store: &mut S) -> Result<(Attachments, Operation), NoMemory>
    ensures reads { OnlyReads S.Store store.old store.new }
    ensures calm { S.faults store.new ≡ S.faults store.old }
    ensures unattached { IfOk result (λ p. (p.0.disks ≡ []) × (p.0.counts ≡ [])) }
    ensures attachment_room { IfOk result (λ p. image_limit ≤ p.0.room) }
    ensures idle { IfOk result (λ p. p.1 ≡ Idle) }
    ensures droppable { OnOk result (AllMay (S.site store.old).count (table_alone (S.table store.old)) (drop_changes (table_alone (S.table store.old)))) }
    ensures room { OnOk result (HasRows (S.table store.new)) }
{
    make_room(store)?;
    let attached = Attachments::new(alloc, IMAGE_LIMIT)?;
    let operation = Operation::new(alloc)?;
    if !may_drop(store) {
        return Err(NoMemory);
    }
    Ok((attached, operation))
}

/// Checks what stands in a store, and answers the images and the places of the records.
fn checked<S: Store>(alloc: Global, store: &mut S) -> Result<(Tree, Mgt), OpenFault>
    ensures reads { OnlyReads S.Store store.old store.new }
    ensures checked { OnOk result (IsOpenableStore S.Store store.old) }
    ensures sound { OnOk result (S.told → first_fault (store_content S.Store store.old) ≡ None) }
    ensures agrees { S.told → IfOk result (λ p. Agrees (records_of S.Store store.old) p.1) }
    ensures passed { IfOk result (λ p. (x : Outline) → HasTable (S.site store.old).geometry (table_alone (S.table store.old)) x → HasLinks p.0.rows x → HasPlaces p.1 x → fault_of x ≡ None) }
    ensures rows { IfOk result (λ p. AreRowsOf (read_volumes (table_alone (S.table store.old))) p.0.rows) }
    ensures each { IfOk result (λ p. HasEachRow S.told (stored_read S.Store store.old) (read_volumes (table_alone (S.table store.old))) p.0.rows) }
    ensures room { IfOk result (λ p. image_limit ≤ length p.0.rows + p.0.spare) }
    ensures long { IfOk result (λ p. length p.1 ≡ place_count) }
    ensures calm { result ≢ Err fault.Device → S.faults store.new ≡ S.faults store.old }
    ensures cause { IfErr result (IsCheckStopped S.told (store_content S.Store store.old) (S.faults store.old) (S.faults store.new)) }
{
    let tree = checked_images(alloc, store)?;
    let mgt = Mgt::load(alloc, store)?;
    if let Some(place) = disk_fault(store.table(), &mgt) {
        return Err(OpenFault::Damaged { place });
    }
    Ok((tree, mgt))
}

/// The checks in front of the records, by the table and by the images, which it answers.
fn checked_images<S: Store>(alloc: Global, store: &mut S) -> Result<Tree, OpenFault>
    ensures reads { OnlyReads S.Store store.old store.new }
    ensures checked { OnOk result (IsOpenableStore S.Store store.old) }
    ensures tables { OnOk result ((x : Outline) → HasTable (S.site store.old).geometry (table_alone (S.table store.old)) x → first_some (table_faults x) ≡ None) }
    ensures passed { IfOk result (λ tree. (x : Outline) → HasTable (S.site store.old).geometry (table_alone (S.table store.old)) x → HasLinks tree.rows x → PassImages x) }
    ensures rows { IfOk result (λ tree. AreRowsOf (read_volumes (table_alone (S.table store.old))) tree.rows) }
    ensures each { IfOk result (λ tree. HasEachRow S.told (stored_read S.Store store.old) (read_volumes (table_alone (S.table store.old))) tree.rows) }
    ensures room { IfOk result (λ tree. image_limit ≤ length tree.rows + tree.spare) }
    ensures calm { result ≢ Err fault.Device → S.faults store.new ≡ S.faults store.old }
    ensures cause { IfErr result (IsCheckStopped S.told (store_content S.Store store.old) (S.faults store.old) (S.faults store.new)) }
{
    if let Some(place) = first_by_table(store) {
        return Err(OpenFault::Damaged { place });
    }
    let tree = load(alloc, store)?;
    if let Some(place) = tree_fault(store.table(), &tree) {
        return Err(OpenFault::Damaged { place });
    }
    if let Some(place) = link_fault(store.table(), &tree) {
        return Err(OpenFault::Damaged { place });
    }
    Ok(tree)
}

/// The place of the first check by the table that fails. Where none does, what the repairs rest on is known.
fn first_by_table<S: Store>(store: &S) -> Option<Place>
    ensures says { (x : Outline) → HasTable (S.site store.now).geometry (table_alone (S.table store.now)) x → first_some (table_faults x) ≡ result }
    ensures checked { IfNone result (IsOpenableStore S.Store store.now) }
{
    let geometry = store.geometry();
    let _extents = store.extents();
    table_fault(store.table(), &geometry)
}

/// Makes room for all rows that the table may come to have. What stands counts, so that no later row takes memory.
fn make_room<S: Store>(store: &mut S) -> Result<(), NoMemory>
    ensures reads { OnlyReads S.Store store.old store.new }
    ensures calm { S.faults store.new ≡ S.faults store.old }
    ensures room { OnOk result (HasRows (S.table store.new)) }
{
    let rows = store.table().volumes().len();
    store.reserve_rows(MOST_ROWS.saturating_sub(rows))?;
    Ok(())
}
