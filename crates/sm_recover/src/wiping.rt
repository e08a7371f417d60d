//! The records of no disk are wiped. They are what a stop has left of disks that were being made or taken away.

ghost use Rattle.std.specs.Prelude.{◌≡◌, ◌<◌, ℕ, false, true, OnOk};
ghost use Rattle.sm_base.specs.declared.names.Name.TheVariants.{Mgt as mgt_name};
ghost use Rattle.sm_mgt.specs.Places.{Agrees, HasAllPlaces, place_count, records_of};
ghost use Rattle.sm_standing.specs.Plain.{IsPlain};
ghost use Rattle.vg_meta.specs.Roomy.{table_alone};
ghost use Rattle.vg_volumes.specs.Stored.{Writes, Counts};
ghost use Rattle.sm_ready.specs.Repairs.{IsRightAt, IsStrayAt, IsWithoutStrays, IsZeroedAt};

use sm_base::{Failed, RECORD_LIMIT};
use sm_checks::is_disk;
use sm_mgt::Mgt;
use vg_meta::Table;
use vg_volumes::Store;

/// The number of places.
const PLACES: u32 = RECORD_LIMIT;

/// Wipes each record of no disk, in order of place. A sync is the caller's.
pub fn wipe_strays<S: Store>(store: &mut S, mgt: &mut Mgt) -> Result<(), Failed>
    requires size { HasAllPlaces S.Store store.old }
    requires plain { IsPlain (table_alone (S.table store.old)) }
    ensures writes { Writes S.Store mgt_name (IsZeroedAt (IsStrayAt (table_alone (S.table store.old)) mgt.old)) store.old store.new }
    ensures cause { Counts S.Store result store.old store.new }
    ensures agrees { OnOk result (S.told → Agrees (records_of S.Store store.old) mgt.old → Agrees (records_of S.Store store.new) mgt.new) }
    ensures right { OnOk result ((k : ℕ) → k < place_count → IsRightAt (table_alone (S.table store.old)) mgt.new k) }
    ensures freed { OnOk result (IsWithoutStrays (table_alone (S.table store.old)) mgt.old mgt.new) }
{
    for place in 0..PLACES {
        wipe_stray(store, mgt, place)?;
    }
    Ok(())
}

/// Wipes the record in this place, where it is that of no disk.
fn wipe_stray<S: Store>(store: &mut S, mgt: &mut Mgt, place: u32) -> Result<(), Failed>
    requires size { HasAllPlaces S.Store store.old }
    requires plain { IsPlain (table_alone (S.table store.old)) }
    requires within { place < place_count }
    ensures writes { Writes S.Store mgt_name (IsZeroedAt (IsStrayAt (table_alone (S.table store.old)) mgt.old)) store.old store.new }
    ensures cause { Counts S.Store result store.old store.new }
    ensures agrees { OnOk result (S.told → Agrees (records_of S.Store store.old) mgt.old → Agrees (records_of S.Store store.new) mgt.new) }
    ensures right { OnOk result (IsRightAt (table_alone (S.table store.old)) mgt.new place) }
    ensures freed { OnOk result (IsWithoutStrays (table_alone (S.table store.old)) mgt.old mgt.new) }
{
    if !is_stray(store.table(), mgt, place) {
        return Ok(());
    }
    mgt.wipe(store, place)?;
    Ok(())
}

/// Whether this place has the record of no disk.
fn is_stray(table: &Table, mgt: &Mgt, place: u32) -> bool
    requires plain { IsPlain (table_alone table.now) }
    requires within { place < place_count }
    ensures stray { result ≡ true → IsStrayAt (table_alone table.now) mgt.now place }
    ensures right { result ≡ false → IsRightAt (table_alone table.now) mgt.now place }
{
    match mgt.at(place) {
        Some(record) => !is_disk(table, &record.uuid),
        None => false,
    }
}
