//! Taking one command.

ghost use Rattle.std.specs.Prelude.{◌≡◌, ◌≤◌, ◌<◌, ◌+◌, ◌*◌, ◌⊎◌, ℕ, List, true, false, Ok, Some, IfOk, OnOk, length};
ghost use Rattle.vg_meta.specs.Roomy.{table_alone};
ghost use Rattle.vg_meta.specs.Tables.{VolumeTable};
ghost use Rattle.sm_machine.specs.declared.commands.Command.TheVariants.{Create, Gc};
ghost use Rattle.sm_machine.specs.Collector.{IsLess, debt, next_step};
ghost use Rattle.sm_machine.specs.Laws.{is_working};
ghost use Rattle.sm_machine.specs.Refusals.{refusal};
ghost use Rattle.sm_machine.specs.Runs.{is_accepted};
ghost use Rattle.sm_base.specs.declared.refusals.Refusal.{Refusal};
ghost use Rattle.sm_base.specs.declared.refusals.Refusal.TheVariants.{NoMemory};
ghost use Rattle.sm_machine.specs.declared.replies.Reply.TheVariants.{No};
ghost use Rattle.sm_machine.specs.Shapes.{image_limit};
ghost use Rattle.vg_volumes.specs.Stored.{OnlyReads, Counts};
ghost use Rattle.cmd_create.specs.Making.{IsOnLeast};
ghost use Rattle.sm_ready.specs.Does.{store_shape};
ghost use Rattle.sm_ready.specs.Refusing.{IsAllowed, extents_for};
ghost use Rattle.sm_ready.specs.Framing.{IsBetweenSteps, StepsOn};
ghost use Rattle.sm_ready.specs.Sessions.{IsReadyStore};
ghost use Rattle.sm_ready.specs.Taken.{StoreTakes};
ghost use Rattle.sm_run.specs.Runs.{may_want_memory};
ghost use Rattle.sm_session.specs.Carrying.{MarksAndWritesIts, WritesOnlyIts, is_of_logs, most_commits, most_log_commits};
ghost use Rattle.sm_session.specs.Stepped.{StoreSteps};
ghost use Rattle.sm_machine.specs.Tracking.{AreGoodLogs, logs_after};

use crate::collecting::gc;
use crate::forks::{derive, snapshot};
use crate::guests::serve;
use crate::sizes::raise;
use crate::tracking::{changed, track, untrack};
use cmd_change::{delete, label};
use cmd_create::{create, create_vhd};
use cmd_list::{list, stat};
use gc_plan::ChildCounts;
use sm_base::{Failed, SECTOR};
use sm_machine::{Command, Reply};
use sm_pool::Pool;
use sm_ready::Memory;
use sm_refusals::refuse;
use sm_tracking::mark;
use std::alloc::Global;
use vg_volumes::Store;

/// Carries out a command that no cause refuses and that is not one of logs alone. `now` is the stamp of an image that it makes.
fn carry_out<S: Store>(
    alloc: Global,
    store: &mut S,
    memory: &mut Memory,
    pool: &mut Pool,
    children: &mut ChildCounts,
    command: &Command,
    now: u32,
) -> Result<Reply, Failed>
    requires session { IsBetweenSteps S.Store store.old memory.old }
    requires buffer { (0 < pool.old.free) × (512 * (1 + (S.site store.old).geometry.block) ≤ pool.old.bytes) }
    requires children { image_limit ≤ length children.old }
    requires allowed { IsAllowed S.Store command.now store.old memory.old }
    requires disks { is_of_logs command.now ≡ false }
    ensures step { StepsOn S.Store (most_commits command.now) store.old store.new }
    ensures cause { Counts S.Store result store.old store.new }
    ensures pool { pool.new ≡ pool.old }
    ensures children { length children.new ≡ length children.old }
    ensures session_still { OnOk result (IsBetweenSteps S.Store store.new memory.new) }
    ensures logs { memory.new.logs ≡ memory.old.logs }
    ensures refused { IfOk result (λ r. is_accepted r ≡ false → (t : VolumeTable) (image : ℕ → List ℕ) → S.leaves store.new t image → S.leaves store.old t image) }
    ensures spared { IfOk result (λ r. r ≡ No NoMemory → may_want_memory (store_shape S.Store store.old memory.old) command.now ≡ true) }
    ensures poor { IfOk result (λ r. (x : Refusal) → r ≡ No x → x ≡ NoMemory) }
    ensures untouched { IfOk result (λ r. is_accepted r ≡ false → OnlyReads S.Store store.old store.new × (memory.new ≡ memory.old)) }
    ensures least { (u : List ℕ) (size : ℕ) (label : List ℕ) → command.now ≡ Create u size true label → IfOk result (λ r. is_accepted r ≡ true
        → IsOnLeast (S.site store.old) (table_alone (S.table store.old)) u (extents_for (S.site store.old).geometry.extent size) (table_alone (S.table store.new))) }
    ensures lowered_gc { command.now ≡ Gc → IfOk result (λ r. is_accepted r ≡ true
        → is_working (next_step (store_shape S.Store store.old memory.old)) ≡ true
        → ∥ IsLess (debt (store_shape S.Store store.new memory.new)) (debt (store_shape S.Store store.old memory.old)) ∥₁) }
    ensures writes { WritesOnlyIts S.Store memory.old command.now store.old store.new }
    ensures taken { S.told → IsReadyStore S.Store store.old memory.old
        → StoreTakes S.Store command.now store.old memory.old store.new memory.new result }
{
    match command {
        Command::Create {
            disk,
            size,
            raw,
            label,
        } => {
            if *raw {
                create(alloc, store, memory, disk, *size, label)
            } else {
                create_vhd(alloc, store, memory, disk, *size, label, now)
            }
        }
        Command::Delete { disk } => {
            delete(store, memory, disk)?;
            Ok(Reply::Done)
        }
        Command::Label { disk, text } => {
            label(store, memory, disk, text)?;
            Ok(Reply::Done)
        }
        Command::Resize { disk, size } => raise(alloc, store, memory, disk, *size),
        Command::Snapshot { disk, twin } => derive(alloc, store, memory, disk, twin, true, now),
        Command::Clone { disk, twin } => derive(alloc, store, memory, disk, twin, false, now),
        Command::List => Ok(list(alloc, memory)),
        Command::Stat => {
            let extents = store.extents();
            Ok(stat(alloc, store.table(), memory, extents))
        }
        Command::Gc => gc(alloc, store, memory, pool, children),
        _ => serve(alloc, store, memory, pool, command),
    }
}

/// Carries out a command that no cause refuses, with what it does to the log of its disk: pieces are marked before they are written, a deleted disk's
/// log goes behind the disk, and the log of a disk is split behind its snapshot; and a command of logs alone. `now` is the stamp of an image that
/// it makes.
fn carry_tracked<S: Store>(
    alloc: Global,
    store: &mut S,
    memory: &mut Memory,
    pool: &mut Pool,
    children: &mut ChildCounts,
    command: &Command,
    now: u32,
) -> Result<Reply, Failed>
    requires session { IsBetweenSteps S.Store store.old memory.old }
    requires buffer { (0 < pool.old.free) × (512 * (1 + (S.site store.old).geometry.block) ≤ pool.old.bytes) }
    requires children { image_limit ≤ length children.old }
    requires allowed { IsAllowed S.Store command.now store.old memory.old }
    ensures step { StepsOn S.Store (most_commits command.now + most_log_commits command.now) store.old store.new }
    ensures cause { Counts S.Store result store.old store.new }
    ensures pool { pool.new ≡ pool.old }
    ensures children { length children.new ≡ length children.old }
    ensures session_still { OnOk result (IsBetweenSteps S.Store store.new memory.new) }
    ensures logs { OnOk result ((memory.new.logs ≡ memory.old.logs) ⊎ (memory.new.logs ≡ logs_after (store_shape S.Store store.old memory.old) command.now)) }
    ensures refused { IfOk result (λ r. is_accepted r ≡ false → (t : VolumeTable) (image : ℕ → List ℕ) → S.leaves store.new t image → S.leaves store.old t image) }
    ensures spared { IfOk result (λ r. r ≡ No NoMemory → may_want_memory (store_shape S.Store store.old memory.old) command.now ≡ true) }
    ensures poor { IfOk result (λ r. (x : Refusal) → r ≡ No x → x ≡ NoMemory) }
    ensures untouched { IfOk result (λ r. is_accepted r ≡ false → OnlyReads S.Store store.old store.new × (memory.new ≡ memory.old)) }
    ensures least { (u : List ℕ) (size : ℕ) (label : List ℕ) → command.now ≡ Create u size true label → IfOk result (λ r. is_accepted r ≡ true
        → IsOnLeast (S.site store.old) (table_alone (S.table store.old)) u (extents_for (S.site store.old).geometry.extent size) (table_alone (S.table store.new))) }
    ensures lowered_gc { command.now ≡ Gc → IfOk result (λ r. is_accepted r ≡ true
        → is_working (next_step (store_shape S.Store store.old memory.old)) ≡ true
        → ∥ IsLess (debt (store_shape S.Store store.new memory.new)) (debt (store_shape S.Store store.old memory.old)) ∥₁) }
    ensures writes { MarksAndWritesIts S.Store memory.old command.now store.old store.new }
    ensures taken { S.told → IsReadyStore S.Store store.old memory.old → ∥ AreGoodLogs (store_shape S.Store store.old memory.old) ∥₁
        → StoreSteps S.Store command.now store.old memory.old store.new memory.new result }
{
    match command {
        Command::Write {
            disk,
            sector,
            bytes,
        } => {
            let count = bytes.bytes.len() as u64 / SECTOR;
            mark(store, memory, disk, *sector, count)?;
            carry_out(alloc, store, memory, pool, children, command, now)
        }
        Command::Fill {
            disk,
            sector,
            count,
            ..
        } => {
            mark(store, memory, disk, *sector, *count)?;
            carry_out(alloc, store, memory, pool, children, command, now)
        }
        Command::Delete { disk } => {
            let reply = carry_out(alloc, store, memory, pool, children, command, now)?;
            untrack(store, memory, disk)?;
            Ok(reply)
        }
        Command::Snapshot { disk, twin } => snapshot(alloc, store, memory, disk, twin, now),
        Command::Track { disk, on } => track(alloc, store, memory, disk, *on),
        Command::Changed { from, to } => Ok(changed(alloc, memory, from, to)),
        _ => carry_out(alloc, store, memory, pool, children, command, now),
    }
}

/// Takes a command. One that a cause refuses is answered with the first of them. `now` is the stamp of an image that it makes, in
/// seconds since 2000-01-01 00:00 UTC.
pub fn take<S: Store>(
    alloc: Global,
    store: &mut S,
    memory: &mut Memory,
    pool: &mut Pool,
    children: &mut ChildCounts,
    command: &Command,
    now: u32,
) -> Result<Reply, Failed>
    requires session { IsBetweenSteps S.Store store.old memory.old }
    requires buffer { (0 < pool.old.free) × (512 * (1 + (S.site store.old).geometry.block) ≤ pool.old.bytes) }
    requires children { image_limit ≤ length children.old }
    ensures step { StepsOn S.Store (most_commits command.now + most_log_commits command.now) store.old store.new }
    ensures cause { Counts S.Store result store.old store.new }
    ensures pool { pool.new ≡ pool.old }
    ensures children { length children.new ≡ length children.old }
    ensures session_still { OnOk result (IsBetweenSteps S.Store store.new memory.new) }
    ensures logs { OnOk result ((memory.new.logs ≡ memory.old.logs) ⊎ (memory.new.logs ≡ logs_after (store_shape S.Store store.old memory.old) command.now)) }
    ensures refused { IfOk result (λ r. is_accepted r ≡ false → (t : VolumeTable) (image : ℕ → List ℕ) → S.leaves store.new t image → S.leaves store.old t image) }
    ensures spared { IfOk result (λ r. r ≡ No NoMemory → may_want_memory (store_shape S.Store store.old memory.old) command.now ≡ true) }
    ensures untouched { IfOk result (λ r. is_accepted r ≡ false → OnlyReads S.Store store.old store.new × (memory.new ≡ memory.old)) }
    ensures exact { (x : Refusal) → refusal (store_shape S.Store store.old memory.old) command.now ≡ Some x → result ≡ Ok (No x) }
    ensures exact_only { IfOk result (λ r. (x : Refusal) → r ≡ No x → (x ≡ NoMemory) ⊎ (refusal (store_shape S.Store store.old memory.old) command.now ≡ Some x)) }
    ensures least { (u : List ℕ) (size : ℕ) (label : List ℕ) → command.now ≡ Create u size true label → IfOk result (λ r. is_accepted r ≡ true
        → IsOnLeast (S.site store.old) (table_alone (S.table store.old)) u (extents_for (S.site store.old).geometry.extent size) (table_alone (S.table store.new))) }
    ensures lowered_gc { command.now ≡ Gc → IfOk result (λ r. is_accepted r ≡ true
        → is_working (next_step (store_shape S.Store store.old memory.old)) ≡ true
        → ∥ IsLess (debt (store_shape S.Store store.new memory.new)) (debt (store_shape S.Store store.old memory.old)) ∥₁) }
    ensures writes { MarksAndWritesIts S.Store memory.old command.now store.old store.new }
    ensures taken { S.told → IsReadyStore S.Store store.old memory.old → ∥ AreGoodLogs (store_shape S.Store store.old memory.old) ∥₁
        → StoreSteps S.Store command.now store.old memory.old store.new memory.new result }
{
    let geometry = store.geometry();
    let extents = store.extents();
    let refusal = refuse(store.table(), memory, &geometry, extents, command);
    if let Some(refusal) = refusal {
        return Ok(Reply::No(refusal));
    }
    carry_tracked(alloc, store, memory, pool, children, command, now)
}
