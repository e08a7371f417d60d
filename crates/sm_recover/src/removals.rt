//! New volumes are removed. They are what a stop has left of images that were being made.

ghost use Rattle.std.specs.Prelude.{◌≡◌, ◌≤◌, false, find, IfSome, IfNone, OnOk};
ghost use Rattle.std.specs.Option.{option_copied};
ghost use Rattle.sm_disk.specs.Held.{Keeps};
ghost use Rattle.common_laws.specs.Lists.{In};
ghost use Rattle.vg_meta.specs.Roomy.{table_alone};
ghost use Rattle.vg_meta.specs.Tables.{Row};
ghost use Rattle.vg_volumes.specs.Stored.{Counts, Leaves, stored};
ghost use Rattle.sm_ready.specs.Cleaned.{HasFewRemovals};
ghost use Rattle.sm_ready.specs.Repairs.{IsAtRest, IsNewVolume, IsSame, RestsAgain};
ghost use Rattle.sm_recover.specs.Repairs.{IsCheckedStore};
ghost use Rattle.sm_ready.specs.Known.{Known};
ghost use Rattle.sm_ready.specs.Orderly.{IsOrderly};
ghost use Rattle.sm_ready.specs.Sessions.{HasRows};
ghost use Rattle.sm_ready.specs.Stores.{content_in, store_content};
ghost use Rattle.sm_standing.specs.Opened.{cleaned};

use sm_base::{Failed, Name};
use vg_meta::{Change, Table, Volume};
use vg_volumes::Store;

/// Removes each new volume, in order of name, by a commit of its own. At each moment memory that was at rest beside the
/// store is so, and a stop leaves the disks from before.
pub fn remove_new<S: Store>(store: &mut S) -> Result<(), Failed>
    requires usable { S.failed store.old ≡ false }
    requires checked { IsCheckedStore S.Store store.old }
    ensures site { S.site store.new ≡ S.site store.old }
    ensures counts { S.faults store.old ≤ S.faults store.new }
    ensures cause { Counts S.Store result store.old store.new }
    ensures usable_still { OnOk result (S.failed store.new ≡ false) }
    ensures checked { OnOk result (IsCheckedStore S.Store store.new) }
    ensures none_new { OnOk result ((r : Row) → In r (table_alone (S.table store.new)).volumes → r.fresh ≡ false) }
    ensures cleaned { OnOk result (table_alone (S.table store.new) ≡ cleaned (table_alone (S.table store.old))) }
    ensures few { HasFewRemovals (table_alone (S.table store.old)) (table_alone (S.table store.new)) }
    ensures few_left { Leaves S.Store store.new (λ t image. HasFewRemovals (table_alone (S.table store.old)) t) }
    ensures room { OnOk result (HasRows (S.table store.old) → HasRows (S.table store.new)) }
    ensures beside { S.told → Keeps (S.beside store.old) (S.beside store.new) }
    ensures keeps { S.told → Keeps (S.area store.old) (S.area store.new) }
    ensures orderly { OnOk result ((m : Known) → IsOrderly (S.site store.old) (table_alone (S.table store.old)) m → IsOrderly (S.site store.new) (table_alone (S.table store.new)) m) }
    ensures rest { OnOk result (S.told → (m : Known) → RestsAgain (stored S.Store store.old) (stored S.Store store.new) m m) }
    ensures crash { (m : Known) → Leaves S.Store store.new (λ t image. IsAtRest (stored S.Store store.old) m → IsSame (store_content S.Store store.old) (content_in (S.site store.old) t image)) }
{
    while let Some(name) = first_new(store.table()) {
        store.commit(Change::Remove { name })?;
    }
    Ok(())
}

/// The name of the first new volume.
fn first_new(table: &Table) -> Option<Name>
    ensures some { IfSome result (IsNewVolume (table_alone table.now)) }
    ensures none { IfNone result ((r : Row) → In r (table_alone table.now).volumes → r.fresh ≡ false) }
{
    let volume = first_fresh(table.volumes())?;
    Some(volume.name())
}

fn first_fresh(volumes: &[Volume]) -> Option<&Volume>
    ensures { option_copied result ≡ find (λ v. v.row.fresh) volumes.now }
{
    volumes.iter().find(|volume| volume.is_fresh())
}
