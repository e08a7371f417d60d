//! The checks; then a repository of an earlier version is taken over; then the repairs: logs of no use go, the folding of a leaf is ended, the
//! entry of a copy goes, a fork or an enlargement is undone, the children of a link are linked and its entry goes, new volumes go, and records of no
//! disk are wiped. Each repair of the table is a commit of its own, so its sequence number rises by one for each log of no use, by six at
//! most for the folding of a leaf, by five at most for a fork, by two at most for an enlargement, by one for a copy or a link, and by one for
//! each new volume.

ghost use Rattle.std.specs.Prelude.{◌≡◌, ◌≢◌, ◌⊎◌, ◌<◌, ◌≤◌, ℕ, List, None, Err, false, OnOk, OnErr, IfOk, IfErr};
ghost use Rattle.sm_base.specs.declared.names.Name.TheVariants.{Mgt as mgt_name};
ghost use Rattle.sm_disk.specs.Held.{IsSettled, Keeps, Rose};
ghost use Rattle.sm_mgt.specs.Places.{place_count};
ghost use Rattle.sm_base.specs.declared.faults.OpenFault.TheVariants as fault;
ghost use Rattle.sm_standing.specs.Checks.{first_fault};
ghost use Rattle.sm_standing.specs.Dropped.{dropped, opening};
ghost use Rattle.sm_standing.specs.LogChecks.{first_place};
ghost use Rattle.sm_standing.specs.Logs.{logs};
ghost use Rattle.sm_machine.specs.Tracking.{AreGoodLogs};
ghost use Rattle.sm_ready.specs.Does.{store_shape};
ghost use Rattle.sm_ready.specs.Ready.{HasNoStrayLog};
ghost use Rattle.sm_standing.specs.Standing.{disks};
ghost use Rattle.vg_meta.specs.Roomy.{table_alone};
ghost use Rattle.vg_meta.specs.Tables.{VolumeTable};
ghost use Rattle.vg_volumes.specs.Commits.{current_version};
ghost use Rattle.vg_volumes.specs.Sites.{NoLessRoom};
ghost use Rattle.vg_volumes.specs.Stored.{OnlyReads, Counts, Leaves, WorksOn, stored};
ghost use Rattle.sm_ready.specs.Cleaned.{HasFewRemovals};
ghost use Rattle.sm_ready.specs.Repairs.{IsAtRest, IsRightAt, IsSame, IsWithoutStrays, LeavesSame, RestsAgain};
ghost use Rattle.sm_recover.specs.Repairs.{IsCheckedStore, IsEndableStore, StandsAs, UnlessDeviceFailed};
ghost use Rattle.sm_machine.specs.Shapes.{image_limit};
ghost use Rattle.sm_ready.specs.Frames.{HasTrueImages};
ghost use Rattle.sm_ready.specs.Known.{Known, known, shape_in};
ghost use Rattle.sm_ready.specs.Sessions.{IsAtEase, HasRows, HasTreeRoom, IsOrderlyStore, IsReadyStore, IsTidyStore};
ghost use Rattle.sm_ready.specs.Stores.{content_in, store_content};
ghost use Rattle.sm_recover.specs.Ending.{HasFewEnds, HasFewMends};
ghost use Rattle.sm_checks.specs.Links.{IsLinkRight};
ghost use Rattle.sm_checks.specs.Loaded.{stored_undone};
ghost use Rattle.sm_recover.specs.Stores.{HeldWell, IsOpenedOn, IsOpeningStopped, MayBeRepairedFrom};
ghost use Rattle.sm_standing.specs.Unfolded.{unfolded};
ghost use Rattle.sm_ready.specs.Orderly.{IsOrderly};
ghost use Rattle.vhd_chain.specs.Reading.{AllAreTrue};
ghost use Rattle.sm_standing.specs.Keeping.{HoldsWell};
ghost use Rattle.sm_standing.specs.Opened.{cleaned, ended, opened, undone};

use crate::dropping::drop_logs;
use crate::folding::end_leaf;
use crate::linking::link_up;
use crate::opening::checked_with_room;
use crate::removals::remove_new;
use crate::undoing::undo;
use crate::wiping::wipe_strays;
use sm_base::{Failed, OpenFault};
use sm_mgt::Mgt;
use sm_ready::Memory;
use std::alloc::Global;
use vg_volumes::Store;

/// Checks what stands in a store, all checks before the first write, those of the logs of tracked disks as the last. Then a repository of an
/// earlier version is taken over, and what a stop has left is repaired: logs that are new, or whose disk is not there, are removed; the
/// folding of a leaf is ended, the entry of a copy goes, a fork or an enlargement is undone, a link is ended, volumes that are new are
/// removed, and records of no disk are wiped. Answers what a session keeps in memory: the images, the places of the records, the logs, no
/// attachment and no operation. Memory is taken before the first write, and none after it.
///
/// No check can see whether each slot of a VHD image holds a sector, nor whether under the entry of a link the parent holds whatever
/// the image holds, as no check reads bitmaps. What is promised of the sectors and of the disks rests on it: it is so in each content
/// that is kept.
///
/// # Errors
/// `Damaged` with the first place at which the checks fail, and nothing was written; `Device` where a call of the
/// store failed; `NoMemory`, and nothing was written. Where a check fails nothing was written, whatever the answer.
pub fn settle<S: Store>(alloc: Global, store: &mut S) -> Result<Memory, OpenFault>
    requires usable { S.version store.old ≡ current_version → S.failed store.old ≡ false }
    requires settled { S.told → IsSettled (S.area store.old) }
    ensures site { S.site store.new ≡ S.site store.old }
    ensures counts { S.faults store.old ≤ S.faults store.new }
    ensures beside { S.told → Keeps (S.beside store.old) (S.beside store.new) }
    ensures sound { OnOk result (S.told → first_place (store_content S.Store store.old) ≡ None) }
    ensures calm { result ≢ Err fault.Device → S.faults store.new ≡ S.faults store.old }
    ensures cause { IfErr result (IsOpeningStopped S.told (store_content S.Store store.old) (S.faults store.old) (S.faults store.new)) }
    ensures refused { IfErr result (λ e. UnlessDeviceFailed e (OnlyReads S.Store store.old store.new)) }
    ensures unsound { OnErr result (S.told → (first_place (store_content S.Store store.old) ≡ None → ⊥) → Keeps (S.device store.old) (S.device store.new)) }
    ensures usable_still { OnOk result (S.failed store.new ≡ false) }
    ensures orderly { IfOk result (λ m. IsOrderlyStore S.Store store.new m) }
    ensures tidy { IfOk result (λ m. IsTidyStore S.Store store.new m) }
    ensures at_ease { IfOk result IsAtEase }
    ensures no_stray_log { IfOk result (λ m. HasNoStrayLog (known m)) }
    ensures good_logs { IfOk result (λ m. ∥ AreGoodLogs (store_shape S.Store store.new m) ∥₁) }
    ensures room { OnOk result (HasRows (S.table store.new)) }
    ensures tree_room { IfOk result HasTreeRoom }
    ensures attachment_room { IfOk result (λ m. image_limit ≤ m.attached.room) }
    ensures true_images { IfOk result (λ m. HasTrueImages S.Store store.new m) }
    ensures cleaned { OnOk result (table_alone (S.table store.new) ≡ cleaned (undone (ended (dropped (table_alone (S.table store.old)))))) }
    ensures few { HasFewEnds (table_alone (S.table store.old)) (table_alone (S.table store.new)) }
    ensures few_left { Leaves S.Store store.new (λ t image. HasFewEnds (table_alone (S.table store.old)) t) }
    ensures settled { OnOk result (S.told → IsSettled (S.area store.new)) }
    ensures ready { IfOk result (λ m. S.told → HoldsWell (store_content S.Store store.old) → IsReadyStore S.Store store.new m) }
    ensures disks { OnOk result (S.told → HoldsWell (store_content S.Store store.old) → disks (store_content S.Store store.new)
        ≡ disks (store_content S.Store store.old)) }
    ensures logs { IfOk result (λ m. S.told → HoldsWell (store_content S.Store store.old) → m.logs ≡ logs (store_content S.Store store.old)) }
    ensures opened { IfOk result (λ m. S.told → HoldsWell (store_content S.Store store.old)
        → shape_in (S.site store.new) (table_alone (S.table store.new)) (known m) ≡ opening (store_content S.Store store.old)) }
    ensures crash { Leaves S.Store store.new (λ t image. S.leaves store.old t image ⊎ MayBeRepairedFrom (store_content S.Store store.old) (content_in (S.site store.old) t image)) }
{
    let mut memory = checked_with_room(alloc, store)?;
    take_over(store)?;
    let Ok(()) = drop_logs(store) else {
        return Err(OpenFault::Device);
    };
    let Ok(()) = mend(store, &mut memory) else {
        return Err(OpenFault::Device);
    };
    Ok(memory)
}

/// A repository of an earlier version is taken over to the current one.
fn take_over<S: Store>(store: &mut S) -> Result<(), OpenFault>
    requires usable { S.version store.old ≡ current_version → S.failed store.old ≡ false }
    ensures site { S.site store.new ≡ S.site store.old }
    ensures table { table_alone (S.table store.new) ≡ table_alone (S.table store.old) }
    ensures no_less { NoLessRoom (S.table store.old) (S.table store.new) }
    ensures counts { S.faults store.old ≤ S.faults store.new }
    ensures calm { result ≢ Err fault.Device → S.faults store.new ≡ S.faults store.old }
    ensures cause { IfErr result (λ e. (e ≡ fault.Device) × Rose (S.faults store.old) (S.faults store.new)) }
    ensures beside { S.told → Keeps (S.beside store.old) (S.beside store.new) }
    ensures leaves { S.told → (t : VolumeTable) (image : ℕ → List ℕ) → S.leaves store.new t image → S.leaves store.old t image }
    ensures usable_still { OnOk result (S.failed store.new ≡ false) }
    ensures stands { OnOk result (StandsAs S.Store store.old store.new) }
{
    let Ok(()) = store.upgrade() else {
        return Err(OpenFault::Device);
    };
    Ok(())
}

/// The repairs behind the logs of no use: the folding of a leaf is ended, and then all else that a stop has left.
fn mend<S: Store>(store: &mut S, memory: &mut Memory) -> Result<(), Failed>
    requires usable { S.failed store.old ≡ false }
    requires settled { S.told → IsSettled (S.area store.old) }
    requires sound { S.told → first_fault (store_content S.Store store.old) ≡ None }
    requires opened { IsOpenedOn S.Store store.old (table_alone (S.table store.old)) memory.old }
    requires at_ease { IsAtEase memory.old }
    requires tree_room { HasTreeRoom memory.old }
    ensures site { S.site store.new ≡ S.site store.old }
    ensures counts { S.faults store.old ≤ S.faults store.new }
    ensures beside { S.told → Keeps (S.beside store.old) (S.beside store.new) }
    ensures cause { Counts S.Store result store.old store.new }
    ensures usable_still { OnOk result (S.failed store.new ≡ false) }
    ensures orderly { OnOk result (IsOrderlyStore S.Store store.new memory.new) }
    ensures tidy { OnOk result (IsTidyStore S.Store store.new memory.new) }
    ensures at_ease { OnOk result (IsAtEase memory.new) }
    ensures no_stray_log { OnOk result (HasNoStrayLog (known memory.new)) }
    ensures good_logs { OnOk result (∥ AreGoodLogs (store_shape S.Store store.new memory.new) ∥₁) }
    ensures room { OnOk result (HasRows (S.table store.old) → HasRows (S.table store.new)) }
    ensures tree_room { OnOk result (HasTreeRoom memory.new) }
    ensures attachments { OnOk result (memory.old.attached.room ≤ memory.new.attached.room) }
    ensures true_images { OnOk result (HasTrueImages S.Store store.new memory.new) }
    ensures cleaned { OnOk result (table_alone (S.table store.new) ≡ cleaned (undone (ended (table_alone (S.table store.old))))) }
    ensures few { HasFewMends (table_alone (S.table store.old)) (table_alone (S.table store.new)) }
    ensures few_left { Leaves S.Store store.new (λ t image. HasFewMends (table_alone (S.table store.old)) t) }
    ensures settled { OnOk result (S.told → IsSettled (S.area store.new)) }
    ensures ready { OnOk result (S.told → HoldsWell (store_content S.Store store.old) → IsReadyStore S.Store store.new memory.new) }
    ensures disks { OnOk result (S.told → HoldsWell (store_content S.Store store.old) → disks (store_content S.Store store.new) ≡ disks (store_content S.Store store.old)) }
    ensures opened { OnOk result (S.told → HoldsWell (store_content S.Store store.old)
        → shape_in (S.site store.new) (table_alone (S.table store.new)) (known memory.new) ≡ opened (store_content S.Store store.old)) }
    ensures crash { Leaves S.Store store.new (λ t image. HoldsWell (store_content S.Store store.old) → IsSame (store_content S.Store store.old) (content_in (S.site store.old) t image)) }
{
    end_leaf(store)?;
    restore(store, memory)?;
    Ok(())
}

/// The repairs where no leaf is being folded: the entry of a copy goes, a fork or an enlargement is undone, a link is ended, new volumes
/// go, and records of no disk are wiped.
fn restore<S: Store>(store: &mut S, memory: &mut Memory) -> Result<(), Failed>
    requires usable { S.failed store.old ≡ false }
    requires endable { IsEndableStore S.Store store.old }
    requires orderly { IsOrderly (S.site store.old) (undone (unfolded (table_alone (S.table store.old)))) (known memory.old) }
    requires linking { IsLinkRight (table_alone (S.table store.old)) memory.old.tree.rows }
    requires at_ease { IsAtEase memory.old }
    requires no_stray_log { HasNoStrayLog (known memory.old) }
    requires tree_room { HasTreeRoom memory.old }
    requires true_now { S.told → IsSettled (S.area store.old) × AllAreTrue (stored_undone S.Store store.old) memory.old.tree.rows }
    ensures site { S.site store.new ≡ S.site store.old }
    ensures counts { S.faults store.old ≤ S.faults store.new }
    ensures beside { S.told → Keeps (S.beside store.old) (S.beside store.new) }
    ensures cause { Counts S.Store result store.old store.new }
    ensures usable_still { OnOk result (S.failed store.new ≡ false) }
    ensures orderly { OnOk result (IsOrderlyStore S.Store store.new memory.new) }
    ensures tidy { OnOk result (IsTidyStore S.Store store.new memory.new) }
    ensures at_ease { OnOk result (IsAtEase memory.new) }
    ensures room { OnOk result (HasRows (S.table store.old) → HasRows (S.table store.new)) }
    ensures tree_room { OnOk result (HasTreeRoom memory.new) }
    ensures attachments { OnOk result (memory.old.attached.room ≤ memory.new.attached.room) }
    ensures true_images { OnOk result (HasTrueImages S.Store store.new memory.new) }
    ensures logs { memory.new.logs ≡ memory.old.logs }
    ensures no_stray_log { OnOk result (HasNoStrayLog (known memory.new)) }
    ensures good_logs { OnOk result (∥ AreGoodLogs (shape_in (S.site store.old) (undone (unfolded (table_alone (S.table store.old)))) (known memory.old)) ∥₁ → ∥ AreGoodLogs (store_shape S.Store store.new memory.new) ∥₁) }
    ensures cleaned { OnOk result (table_alone (S.table store.new) ≡ cleaned (undone (unfolded (table_alone (S.table store.old))))) }
    ensures few { HasFewRemovals (table_alone (S.table store.old)) (table_alone (S.table store.new)) }
    ensures few_left { Leaves S.Store store.new (λ t image. HasFewRemovals (table_alone (S.table store.old)) t) }
    ensures settled { OnOk result (S.told → IsSettled (S.area store.new)) }
    ensures ready { OnOk result (S.told → HeldWell S.Store store.old memory.old → IsReadyStore S.Store store.new memory.new) }
    ensures disks { OnOk result (S.told → HeldWell S.Store store.old memory.old → disks (store_content S.Store store.new) ≡ disks (store_content S.Store store.old)) }
    ensures opened { OnOk result (S.told → HeldWell S.Store store.old memory.old
        → shape_in (S.site store.new) (table_alone (S.table store.new)) (known memory.new) ≡ opened (store_content S.Store store.old)) }
    ensures crash { Leaves S.Store store.new (λ t image. HeldWell S.Store store.old memory.old → IsSame (store_content S.Store store.old) (content_in (S.site store.old) t image)) }
{
    undo(store)?;
    link_up(store, memory)?;
    repair(store, memory)?;
    Ok(())
}

/// Removes the new volumes, and wipes the records of no disk.
fn repair<S: Store>(store: &mut S, memory: &mut Memory) -> Result<(), Failed>
    requires usable { S.failed store.old ≡ false }
    requires checked { IsCheckedStore S.Store store.old }
    requires orderly { IsOrderlyStore S.Store store.old memory.old }
    ensures site { S.site store.new ≡ S.site store.old }
    ensures counts { S.faults store.old ≤ S.faults store.new }
    ensures beside { S.told → Keeps (S.beside store.old) (S.beside store.new) }
    ensures cause { Counts S.Store result store.old store.new }
    ensures usable_still { OnOk result (S.failed store.new ≡ false) }
    ensures tree { memory.new.tree ≡ memory.old.tree }
    ensures attached { memory.new.attached ≡ memory.old.attached }
    ensures logs { memory.new.logs ≡ memory.old.logs }
    ensures operation { memory.new.operation ≡ memory.old.operation }
    ensures room { OnOk result (HasRows (S.table store.old) → HasRows (S.table store.new)) }
    ensures cleaned { OnOk result (table_alone (S.table store.new) ≡ cleaned (table_alone (S.table store.old))) }
    ensures few { HasFewRemovals (table_alone (S.table store.old)) (table_alone (S.table store.new)) }
    ensures few_left { Leaves S.Store store.new (λ t image. HasFewRemovals (table_alone (S.table store.old)) t) }
    ensures orderly { OnOk result (IsOrderlyStore S.Store store.new memory.new) }
    ensures tidy { OnOk result (IsTidyStore S.Store store.new memory.new) }
    ensures settled { OnOk result (S.told → IsSettled (S.area store.new)) }
    ensures rest { OnOk result (S.told → RestsAgain (stored S.Store store.old) (stored S.Store store.new) (known memory.old) (known memory.new)) }
    ensures true_images { OnOk result (HasTrueImages S.Store store.old memory.old → HasTrueImages S.Store store.new memory.new) }
    ensures crash { Leaves S.Store store.new (λ t image. IsAtRest (stored S.Store store.old) (known memory.old) → IsSame (store_content S.Store store.old) (content_in (S.site store.old) t image)) }
{
    remove_new(store)?;
    tidy_records(store, &mut memory.records)?;
    Ok(())
}

/// Wipes the records of no disk, and makes all last.
fn tidy_records<S: Store>(store: &mut S, mgt: &mut Mgt) -> Result<(), Failed>
    requires usable { S.failed store.old ≡ false }
    requires checked { IsCheckedStore S.Store store.old }
    ensures works { WorksOn S.Store mgt_name store.old store.new }
    ensures cause { Counts S.Store result store.old store.new }
    ensures right { OnOk result ((k : ℕ) → k < place_count → IsRightAt (table_alone (S.table store.old)) mgt.new k) }
    ensures freed { OnOk result (IsWithoutStrays (table_alone (S.table store.old)) mgt.old mgt.new) }
    ensures settled { OnOk result (S.told → IsSettled (S.area store.new)) }
    ensures rest { OnOk result (S.told → (m : Known) → RestsAgain (stored S.Store store.old) (stored S.Store store.new) (record m { places = mgt.old }) (record m { places = mgt.new })) }
    ensures crash { (m : Known) → LeavesSame S.Store (record m { places = mgt.old }) store.old store.new }
{
    wipe_strays(store, mgt)?;
    store.sync()?;
    Ok(())
}
