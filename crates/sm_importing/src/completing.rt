//! The end of an import: the disk's record is put, and its volume is not new any more.

ghost use Rattle.std.specs.Prelude.{◌≡◌, ◌<◌, ℕ, List, false, Some, None, IsSome, OnOk, OnErr};
ghost use Rattle.std.specs.List.{slice_set};
ghost use Rattle.std.specs.declared.result.Result.TheVariants.{Ok};
ghost use Rattle.sm_base.specs.Names.{IsName};
ghost use Rattle.sm_base.specs.declared.names.Name.TheVariants.{Vhd};
ghost use Rattle.vg_meta.specs.Roomy.{table_alone};
ghost use Rattle.vg_volumes.specs.Stored.{Counts};
ghost use Rattle.vhd_chain.specs.Trees.{row_name, tree_row, with_row};
ghost use Rattle.sm_mgt.specs.Places.{HasAllPlaces, place_for};
ghost use Rattle.sm_record.specs.Records.{IsRecord};
ghost use Rattle.sm_calls.specs.Calls.{DoesRun};
ghost use Rattle.sm_ready.specs.Framing.{IsBetweenSteps, StepsOn};
ghost use Rattle.sm_ready.specs.Known.{known};
ghost use Rattle.sm_ready.specs.Sessions.{StaysInUse};
ghost use Rattle.sm_importing.specs.Endings.{CompletesImporting, IsImageIn, IsSteadyAtRest, marked, place_of, record_calls, row_of};
ghost use Rattle.sm_importing.specs.Imports.{IsImporting, extents_of_volume};

use crate::importing::extents_in;
use sm_base::{Failed, Name};
use sm_calls::{commit, sync};
use sm_ready::Memory;
use sm_record::Record;
use vg_meta::{Change, Tag};
use vg_volumes::Store;
use vhd_chain::TreeRow;
use vhd_image::Image;

/// Puts the record of a disk into its place, and makes all that was written last.
fn put_record<S: Store>(store: &mut S, memory: &mut Memory, entry: Record) -> Result<(), Failed>
    requires usable { S.failed store.old ≡ false }
    requires places { HasAllPlaces S.Store store.old }
    requires place { IsSome (place_for memory.old.records entry.uuid) }
    requires proper { IsRecord entry }
    ensures run { OnOk result (DoesRun S.Store (record_calls (S.site store.old) (table_alone (S.table store.old)) (place_of memory.old entry) entry) store.old store.new (Unit {0})) }
    ensures cut { OnErr result (DoesRun S.Store (record_calls (S.site store.old) (table_alone (S.table store.old)) (place_of memory.old entry) entry) store.old store.new ⊥) }
    ensures cause { Counts S.Store result store.old store.new }
    ensures others { (memory.new.tree ≡ memory.old.tree) × (memory.new.attached ≡ memory.old.attached) × (memory.new.operation ≡ memory.old.operation) }
    ensures logs { memory.new.logs ≡ memory.old.logs }
    ensures kept { OnOk result (memory.new.records ≡ slice_set memory.old.records (place_of memory.old entry) (Some entry)) }
{
    memory.records.put(store, entry)?;
    sync(store)?;
    Ok(())
}

/// Ends the import of a disk: puts its record, makes all that was written last, and takes the mark of its volume away, by one commit. The
/// volume holds the disk's image; the record is that of its UUID. It takes no memory.
///
/// # Errors
///
/// A call of the store failed; a stop leaves the disks from before the import, or these and the new one.
pub fn complete<S: Store>(
    store: &mut S,
    memory: &mut Memory,
    entry: Record,
    image: Image,
) -> Result<(), Failed>
    requires importing { IsImporting S.Store store.old memory.old entry.uuid }
    requires proper { IsRecord entry }
    requires writable { entry.read_only ≡ false }
    requires image { IsImageIn (S.site store.old) (table_alone (S.table store.old)) (Vhd entry.uuid) image }
    requires steady { IsSteadyAtRest S.Store store.old (Vhd entry.uuid) image }
    ensures step { StepsOn S.Store 1 store.old store.new }
    ensures cause { Counts S.Store result store.old store.new }
    ensures in_use { StaysInUse memory.old memory.new }
    ensures table { OnOk result (table_alone (S.table store.new) ≡ marked (table_alone (S.table store.old)) (Vhd entry.uuid)) }
    ensures image_row { OnOk result (memory.new.tree.rows
        ≡ with_row (row_of image (extents_of_volume (table_alone (S.table store.old)) (Vhd entry.uuid))) memory.old.tree.rows) }
    ensures record_put { OnOk result (memory.new.records ≡ slice_set memory.old.records (place_of memory.old entry) (Some entry)) }
    ensures session { OnOk result (IsBetweenSteps S.Store store.new memory.new) }
    ensures completes { CompletesImporting S.Store entry memory.old store.old store.new (known memory.new) (result ≡ Ok tt) }
{
    let name = Name::Vhd(entry.uuid);
    let extents = extents_in(store.table(), &name) as u32;
    put_record(store, memory, entry)?;
    let mark = Change::Mark {
        name,
        tag: Tag::Fresh,
        on: false,
    };
    commit(store, mark)?;
    memory.tree.add(TreeRow {
        image,
        hidden: false,
        extents,
    });
    Ok(())
}
