//! Attaching a disk, whatever extents its image has.

ghost use Rattle.std.specs.Prelude.{◌≡◌, ◌<◌, ◌+◌, ℕ, List, Err, OnOk};
ghost use Rattle.vg_meta.specs.Tables.{VolumeTable};
ghost use Rattle.sm_base.specs.declared.faults.CallFault.TheVariants as fault;
ghost use Rattle.vg_meta.specs.Roomy.{table_alone};
ghost use Rattle.vg_volumes.specs.Stored.{Counts, OnlyReads};
ghost use Rattle.sm_machine.specs.declared.commands.Command.TheVariants as command;
ghost use Rattle.sm_machine.specs.Refusals.{need as needed};
ghost use Rattle.sm_ready.specs.Refusing.{IsAllowed};
ghost use Rattle.sm_ready.specs.Does.{IsKeptUp, ShapesAs, StoreDoes, store_shape};
ghost use Rattle.sm_ready.specs.Framing.{CountsDevice, IsBetweenSteps, StepsOn};
ghost use Rattle.sm_ready.specs.Sessions.{IsReadyStore};
ghost use Rattle.sm_space.specs.Inflating.{IsEnlarged, extents_in};
ghost use Rattle.sm_space.specs.Growing.{HasGrowth};
ghost use Rattle.gc_abandon.specs.Abandoning.{unfolded, unfolded_table};
ghost use Rattle.vhd_chain.specs.Trees.{tree_row};
ghost use Rattle.sm_base.specs.declared.names.Name.TheVariants.{Vhd};

use crate::attaching::note;
use gc_abandon::give_up;
use sm_base::{CallFault, Failed, Mode, Name};
use sm_machine::Command;
use sm_ready::{Memory, need};
use sm_space::{enlarge, plan_growth};
use std::alloc::Global;
use uuid::Uuid;
use vg_meta::Change;
use vg_volumes::Store;

/// Attaches a disk where no operation is given up, and all memory was taken.
fn attach_kept<S: Store>(
    store: &mut S,
    memory: &mut Memory,
    disk: &Uuid,
    mode: Mode,
    growth: Option<(u32, Change)>,
) -> Result<(), Failed>
    requires session { IsBetweenSteps S.Store store.old memory.old }
    requires allowed { IsAllowed S.Store (command.Attach disk.now mode) store.old memory.old }
    requires kept_up { IsKeptUp S.Store (command.Attach disk.now mode) store.old memory.old }
    requires growth { HasGrowth S.Store store.old memory.old (command.Attach disk.now mode) disk.now growth }
    ensures step { StepsOn S.Store 3 store.old store.new }
    ensures cause { Counts S.Store result store.old store.new }
    ensures session_still { OnOk result (IsBetweenSteps S.Store store.new memory.new) }
    ensures others { (memory.new.records ≡ memory.old.records) × (memory.new.operation ≡ memory.old.operation) }
    ensures logs { memory.new.logs ≡ memory.old.logs }
    ensures least { OnOk result (0 < needed (store_shape S.Store store.old memory.old) (command.Attach disk.now mode)
        → IsEnlarged (S.site store.old).count (table_alone (S.table store.old)) disk.now
        (extents_in (tree_row memory.old.tree.rows (Vhd disk.now)) + needed (store_shape S.Store store.old memory.old) (command.Attach disk.now mode)) (table_alone (S.table store.new))) }
    ensures shape { OnOk result (ShapesAs S.Store (command.Attach disk.now mode) store.old memory.old store.new memory.new) }
    ensures done { S.told → IsReadyStore S.Store store.old memory.old
        → StoreDoes S.Store (command.Attach disk.now mode) store.old memory.old store.new memory.new (result ≡ Ok tt) }
{
    let Some((to, growth)) = growth else {
        note(store, memory, disk, mode)?;
        return Ok(());
    };
    enlarge(store, memory, disk, to, growth)?;
    note(store, memory, disk, mode)?;
    Ok(())
}

/// Attaches a disk where all memory was taken. An operation that folds its leaf is given up first.
fn attach_given<S: Store>(
    store: &mut S,
    memory: &mut Memory,
    disk: &Uuid,
    mode: Mode,
    growth: Option<(u32, Change)>,
) -> Result<(), Failed>
    requires session { IsBetweenSteps S.Store store.old memory.old }
    requires allowed { IsAllowed S.Store (command.Attach disk.now mode) store.old memory.old }
    requires growth { HasGrowth S.Store store.old memory.old (command.Attach disk.now mode) disk.now growth }
    ensures step { StepsOn S.Store 4 store.old store.new }
    ensures cause { Counts S.Store result store.old store.new }
    ensures session_still { OnOk result (IsBetweenSteps S.Store store.new memory.new) }
    ensures others { memory.new.records ≡ memory.old.records }
    ensures logs { memory.new.logs ≡ memory.old.logs }
    ensures operation { OnOk result (memory.new.operation ≡ unfolded memory.old.operation disk.now) }
    ensures least { OnOk result (0 < needed (store_shape S.Store store.old memory.old) (command.Attach disk.now mode)
        → IsEnlarged (S.site store.old).count (unfolded_table memory.old.operation disk.now (table_alone (S.table store.old))) disk.now
        (extents_in (tree_row memory.old.tree.rows (Vhd disk.now)) + needed (store_shape S.Store store.old memory.old) (command.Attach disk.now mode)) (table_alone (S.table store.new))) }
    ensures shape { OnOk result (ShapesAs S.Store (command.Attach disk.now mode) store.old memory.old store.new memory.new) }
    ensures done { S.told → IsReadyStore S.Store store.old memory.old
        → StoreDoes S.Store (command.Attach disk.now mode) store.old memory.old store.new memory.new (result ≡ Ok tt) }
{
    give_up(store, memory, disk)?;
    attach_kept(store, memory, disk, mode, growth)
}

/// Attaches a disk. Where its leaf is being folded, that is given up first, once all memory was taken. Where it is attached for
/// writing and its VHD image lacks extents for a slot of each block, it then gets them, the least that are free: so no write of a
/// guest wants space.
///
/// # Errors
/// `NoMemory` where memory ran out, and nothing was written; `Device` where a call of the store failed. The disk is not
/// attached.
pub fn attach<S: Store>(
    alloc: Global,
    store: &mut S,
    memory: &mut Memory,
    disk: &Uuid,
    mode: Mode,
) -> Result<(), CallFault>
    requires session { IsBetweenSteps S.Store store.old memory.old }
    requires allowed { IsAllowed S.Store (command.Attach disk.now mode) store.old memory.old }
    ensures step { StepsOn S.Store 4 store.old store.new }
    ensures cause { CountsDevice S.Store result store.old store.new }
    ensures session_still { OnOk result (IsBetweenSteps S.Store store.new memory.new) }
    ensures poor { result ≡ Err fault.NoMemory
        → OnlyReads S.Store store.old store.new × ((t : VolumeTable) (image : ℕ → List ℕ) → S.leaves store.new t image → S.leaves store.old t image)
        × (memory.new ≡ memory.old) }
    ensures others { memory.new.records ≡ memory.old.records }
    ensures logs { memory.new.logs ≡ memory.old.logs }
    ensures operation { OnOk result (memory.new.operation ≡ unfolded memory.old.operation disk.now) }
    ensures least { OnOk result (0 < needed (store_shape S.Store store.old memory.old) (command.Attach disk.now mode)
        → IsEnlarged (S.site store.old).count (unfolded_table memory.old.operation disk.now (table_alone (S.table store.old))) disk.now
        (extents_in (tree_row memory.old.tree.rows (Vhd disk.now)) + needed (store_shape S.Store store.old memory.old) (command.Attach disk.now mode)) (table_alone (S.table store.new))) }
    ensures shape { OnOk result (ShapesAs S.Store (command.Attach disk.now mode) store.old memory.old store.new memory.new) }
    ensures done { S.told → IsReadyStore S.Store store.old memory.old
        → StoreDoes S.Store (command.Attach disk.now mode) store.old memory.old store.new memory.new (result ≡ Ok tt) }
{
    let geometry = store.geometry();
    let lacking = need(memory, &geometry, &Command::Attach { disk: *disk, mode });
    if lacking == 0 {
        let Ok(()) = attach_given(store, memory, disk, mode, None) else {
            return Err(CallFault::Device);
        };
        return Ok(());
    }
    let Some(row) = memory.tree.get(&Name::Vhd(*disk)) else {
        unreachable!()
    };
    let to = row.extents + lacking as u32;
    let Ok(growth) = plan_growth(alloc, store, memory, disk, to) else {
        return Err(CallFault::NoMemory);
    };
    let Ok(()) = attach_given(store, memory, disk, mode, Some((to, growth))) else {
        return Err(CallFault::Device);
    };
    Ok(())
}
