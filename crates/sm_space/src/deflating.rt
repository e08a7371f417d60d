//! The volume of a VHD image is cut to its first extents.
//!
//! Behind its last slot in use an image has free sectors, as far as its footer, which is its last. So the footer is written
//! first where the image is to end: no slot lies there, and the image reads as before. The commit that cuts the volume makes
//! that footer last before it lets the image end there. No journal entry is needed: at each moment a footer stands at the end
//! that the table gives.

ghost use Rattle.std.specs.Prelude.{◌≡◌, OnErr, OnOk};
ghost use Rattle.std.specs.declared.result.Result.TheVariants.{Ok};
ghost use Rattle.sm_base.specs.declared.names.Name.TheVariants.{Vhd};
ghost use Rattle.vg_meta.specs.Changes.{applied};
ghost use Rattle.vg_meta.specs.Roomy.{table_alone};
ghost use Rattle.vg_meta.specs.declared.changes.Change.TheVariants.{Cut};
ghost use Rattle.vg_volumes.specs.Stored.{Counts};
ghost use Rattle.vhd_chain.specs.Trees.{tree_row};
ghost use Rattle.sm_standing.specs.Standing.{disks};
ghost use Rattle.sm_ready.specs.Does.{store_shape};
ghost use Rattle.sm_ready.specs.Done.{HasDone};
ghost use Rattle.sm_ready.specs.Framing.{IsBetweenSteps, StepsOn};
ghost use Rattle.sm_ready.specs.Known.{known};
ghost use Rattle.sm_ready.specs.Sessions.{IsReadyStore};
ghost use Rattle.sm_ready.specs.Stores.{StoreLeaves, store_content};
ghost use Rattle.sm_calls.specs.Calls.{CanRun, DoesRun};
ghost use Rattle.sm_space.specs.Deflating.{CanDeflate, cut_calls, deflated};
ghost use Rattle.sm_space.specs.Inflating.{CanEnd};

use crate::inflating::{end_image, set_extents};
use sm_base::{Failed, Name};
use sm_calls::commit;
use sm_ready::Memory;
use uuid::Uuid;
use vg_meta::Change;
use vg_volumes::Store;
use vhd_chain::Tree;

/// Writes the footer where the image is to end, and cuts the volume there.
fn run_cut<S: Store>(store: &mut S, tree: &Tree, name: &Name, to: u32) -> Result<(), Failed>
    requires can { CanRun S.Store
        (cut_calls (S.site store.old) (table_alone (S.table store.old)) name.now (tree_row tree.now.rows name.now) to) store.old }
    requires image { CanEnd S.Store store.old tree.now.rows name.now to }
    ensures run { OnOk result (DoesRun S.Store
        (cut_calls (S.site store.old) (table_alone (S.table store.old)) name.now (tree_row tree.now.rows name.now) to) store.old store.new (Unit {0})) }
    ensures cut { OnErr result (DoesRun S.Store
        (cut_calls (S.site store.old) (table_alone (S.table store.old)) name.now (tree_row tree.now.rows name.now) to) store.old store.new ⊥) }
    ensures cause { Counts S.Store result store.old store.new }
{
    let shorter = Change::Cut {
        name: *name,
        keep: to,
    };
    end_image(store, tree, name, to)?;
    commit(store, shorter)?;
    Ok(())
}

/// Cuts the volume of the VHD image of this UUID, visible or hidden, to its first so many extents, in which its slots have
/// room. The image is the same. It takes no memory.
///
/// # Errors
///
/// A call of the store failed; a stop leaves the disks from before.
pub fn deflate<S: Store>(
    store: &mut S,
    memory: &mut Memory,
    disk: &Uuid,
    to: u32,
) -> Result<(), Failed>
    requires session { IsBetweenSteps S.Store store.old memory.old }
    requires there { CanDeflate (store_shape S.Store store.old memory.old) (Vhd disk.now) to }
    ensures step { StepsOn S.Store 1 store.old store.new }
    ensures cause { Counts S.Store result store.old store.new }
    ensures session_still { OnOk result (IsBetweenSteps S.Store store.new memory.new) }
    ensures others { (memory.new.records ≡ memory.old.records) × (memory.new.attached ≡ memory.old.attached) × (memory.new.operation ≡ memory.old.operation) }
    ensures logs { memory.new.logs ≡ memory.old.logs }
    ensures shape { OnOk result (store_shape S.Store store.new memory.new ≡ deflated (Vhd disk.now) to (store_shape S.Store store.old memory.old)) }
    ensures cut { OnOk result (table_alone (S.table store.new) ≡ applied (table_alone (S.table store.old)) (Cut (Vhd disk.now) to)) }
    ensures done { S.told → IsReadyStore S.Store store.old memory.old
        → HasDone (S.site store.old) (table_alone (S.table store.old)) (table_alone (S.table store.new)) (S.area store.old) (S.area store.new) (known memory.new)
        (StoreLeaves S.Store store.old) (StoreLeaves S.Store store.new) (result ≡ Ok tt) (disks (store_content S.Store store.old)) }
{
    let name = Name::Vhd(*disk);
    run_cut(store, &memory.tree, &name, to)?;
    set_extents(memory, &name, to);
    Ok(())
}
