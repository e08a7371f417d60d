//! A link that a stop has cut short is ended: each child of the image is linked to the image's parent, and the entry goes.

ghost use Rattle.std.specs.Prelude.{◌≡◌, ◌≤◌, [], false, length, OnOk};
ghost use Rattle.sm_disk.specs.Held.{IsSettled, Keeps};
ghost use Rattle.sm_standing.specs.Entries.{folding, head};
ghost use Rattle.sm_standing.specs.Unfolded.{unfolded};
ghost use Rattle.vg_meta.specs.Roomy.{table_alone};
ghost use Rattle.vg_volumes.specs.Stored.{Counts, Leaves, stored};
ghost use Rattle.vhd_chain.specs.Trees.{children};
ghost use Rattle.sm_ready.specs.Does.{store_shape};
ghost use Rattle.sm_ready.specs.Frames.{HasCommits, HasTrueImages};
ghost use Rattle.sm_ready.specs.Known.{known, shape_in};
ghost use Rattle.sm_ready.specs.Orderly.{IsOrderly};
ghost use Rattle.sm_ready.specs.Repairs.{IsSame};
ghost use Rattle.sm_ready.specs.Sessions.{HasRows, IsAtEase, IsOrderlyStore, IsReadyStore};
ghost use Rattle.sm_ready.specs.Stores.{content_in, store_content};
ghost use Rattle.sm_recover.specs.Linking.{IsLinkBegun, LinkedBy, LinksAll, LinksPast, LinksRest, LinksSome, link_image};
ghost use Rattle.sm_recover.specs.Repairs.{IsLinkable};

use gc_coalesce::{finish, relink_one};
use sm_base::{Failed, Name, Op};
use sm_checks::folding_in;
use sm_ready::Memory;
use vg_meta::Table;
use vg_volumes::Store;

/// Links each image that reads through the image of the entry to that image's parent, and removes the entry. Nothing is pending
/// between two links, so at each moment a stop leaves the disks from before.
pub fn link_up<S: Store>(store: &mut S, memory: &mut Memory) -> Result<(), Failed>
    requires usable { S.failed store.old ≡ false }
    requires linkable { IsLinkable (S.site store.old) (table_alone (S.table store.old)) memory.old.tree.rows (head (folding (table_alone (S.table store.old)))) }
    requires orderly { IsOrderly (S.site store.old) (unfolded (table_alone (S.table store.old))) (known memory.old) }
    requires at_ease { IsAtEase memory.old }
    requires true_now { HasTrueImages S.Store store.old memory.old }
    ensures site { S.site store.new ≡ S.site store.old }
    ensures counts { S.faults store.old ≤ S.faults store.new }
    ensures beside { S.told → Keeps (S.beside store.old) (S.beside store.new) }
    ensures cause { Counts S.Store result store.old store.new }
    ensures usable_still { OnOk result (S.failed store.new ≡ false) }
    ensures unfolded { OnOk result (table_alone (S.table store.new) ≡ unfolded (table_alone (S.table store.old))) }
    ensures few { HasCommits (length (folding (table_alone (S.table store.old)))) (table_alone (S.table store.old)) (table_alone (S.table store.new)) }
    ensures few_left { Leaves S.Store store.new (λ t image. HasCommits (length (folding (table_alone (S.table store.old)))) (table_alone (S.table store.old)) t) }
    ensures room { OnOk result (HasRows (S.table store.old) → HasRows (S.table store.new)) }
    ensures tree { OnOk result ((length memory.new.tree.rows ≡ length memory.old.tree.rows) × (memory.new.tree.spare ≡ memory.old.tree.spare)) }
    ensures at_ease { OnOk result (IsAtEase memory.new) }
    ensures attachments { OnOk result (memory.old.attached.room ≤ memory.new.attached.room) }
    ensures orderly { OnOk result (IsOrderlyStore S.Store store.new memory.new) }
    ensures logs { memory.new.logs ≡ memory.old.logs }
    ensures true_still { OnOk result (HasTrueImages S.Store store.new memory.new) }
    ensures rest { OnOk result (S.told → IsLinkBegun (stored S.Store store.old) (known memory.old) → LinksRest S.Store store.old store.new memory.new) }
    ensures shape { OnOk result (LinkedBy (head (folding (table_alone (S.table store.old)))) memory.old.tree.rows
        (shape_in (S.site store.old) (unfolded (table_alone (S.table store.old))) (known memory.old)) (store_shape S.Store store.new memory.new)) }
    ensures crash { Leaves S.Store store.new (λ t image. IsLinkBegun (stored S.Store store.old) (known memory.old) → IsSame (store_content S.Store store.old) (content_in (S.site store.old) t image)) }
{
    let Some(child) = linked_image(store.table()) else {
        return Ok(());
    };
    let Some(parent) = memory.tree.parent(&child) else {
        return Ok(());
    };
    memory.operation.set(Op::Relink { child, parent });
    link_all(store, memory, &child)?;
    Ok(())
}

/// The image whose children are being linked, where the entry of a link is there.
fn linked_image(table: &Table) -> Option<Name>
    ensures { result ≡ link_image (head (folding (table_alone table.now))) }
{
    let Name::Relink { child, .. } = folding_in(table)? else {
        return None;
    };
    Some(Name::Vhd(child))
}

/// Links the children of an image that goes, and removes the entry.
fn link_all<S: Store>(store: &mut S, memory: &mut Memory, child: &Name) -> Result<(), Failed>
    requires usable { S.failed store.old ≡ false }
    requires orderly { IsOrderlyStore S.Store store.old memory.old }
    requires true_now { HasTrueImages S.Store store.old memory.old }
    requires links { LinksPast child.now memory.old.operation }
    ensures site { S.site store.new ≡ S.site store.old }
    ensures counts { S.faults store.old ≤ S.faults store.new }
    ensures beside { S.told → Keeps (S.beside store.old) (S.beside store.new) }
    ensures cause { Counts S.Store result store.old store.new }
    ensures logs { memory.new.logs ≡ memory.old.logs }
    ensures few { HasCommits 1 (table_alone (S.table store.old)) (table_alone (S.table store.new)) }
    ensures few_left { Leaves S.Store store.new (λ t image. HasCommits 1 (table_alone (S.table store.old)) t) }
    ensures all { OnOk result (LinksAll S.Store store.old memory.old store.new memory.new) }
    ensures crash { Leaves S.Store store.new (λ t image. IsSettled (S.area store.old) → IsReadyStore S.Store store.old memory.old
        → IsSame (store_content S.Store store.old) (content_in (S.site store.old) t image)) }
{
    link_children(store, memory, child)?;
    finish(store, memory)?;
    Ok(())
}

/// Links each image that reads through one that goes to the operation's parent, in order of name.
fn link_children<S: Store>(store: &mut S, memory: &mut Memory, child: &Name) -> Result<(), Failed>
    requires usable { S.failed store.old ≡ false }
    requires orderly { IsOrderlyStore S.Store store.old memory.old }
    requires true_now { HasTrueImages S.Store store.old memory.old }
    requires links { LinksPast child.now memory.old.operation }
    ensures site { S.site store.new ≡ S.site store.old }
    ensures counts { S.faults store.old ≤ S.faults store.new }
    ensures beside { S.told → Keeps (S.beside store.old) (S.beside store.new) }
    ensures cause { Counts S.Store result store.old store.new }
    ensures logs { memory.new.logs ≡ memory.old.logs }
    ensures table { table_alone (S.table store.new) ≡ table_alone (S.table store.old) }
    ensures few_left { Leaves S.Store store.new (λ t image. HasCommits 0 (table_alone (S.table store.old)) t) }
    ensures some { OnOk result (LinksSome S.Store store.old memory.old store.new memory.new) }
    ensures none_left { OnOk result (children memory.new.tree.rows child.now ≡ []) }
    ensures crash { Leaves S.Store store.new (λ t image. IsSettled (S.area store.old) → IsReadyStore S.Store store.old memory.old
        → IsSame (store_content S.Store store.old) (content_in (S.site store.old) t image)) }
{
    while let Some(name) = memory.tree.least_child(child) {
        relink_one(store, memory, &name)?;
    }
    Ok(())
}
