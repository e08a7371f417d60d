//! The collector's next step.

ghost use Rattle.std.specs.Prelude.{◌≡◌, ◌≤◌, length};
ghost use Rattle.vg_meta.specs.Roomy.{table_alone};
ghost use Rattle.sm_machine.specs.Collector as machine;
ghost use Rattle.sm_machine.specs.Shapes.{children};
ghost use Rattle.sm_operation.specs.Kept.{dirty_in};
ghost use Rattle.sm_ready.specs.Known.{known};
ghost use Rattle.sm_ready.specs.Refusing.{Answers, Recalls};
ghost use Rattle.gc_plan.specs.Counting.{AreCounted};
ghost use Rattle.gc_plan.specs.Planning.{Fills, fold_next};

use crate::counting::ChildCounts;
use crate::finding::{blocked, deflation, folding, removal};
use crate::images::next_block;
use crate::pairs::Kind;
use sm_base::{Geometry, Name, Op, Plan};
use sm_operation::Operation;
use sm_ready::Memory;
use vg_extents::free;
use vg_meta::Table;

/// The most blocks that may be dirty where a parent takes the place of an attached disk's leaf.
const DIRTY_LIMIT: u32 = 16;

/// Nothing is to be removed or cut: the first image that can be folded.
fn plan_fold(memory: &Memory, counts: &ChildCounts, geometry: &Geometry, free: u32) -> Plan
    requires counted { AreCounted memory.now.tree.rows counts.now }
    ensures { Fills fold_next geometry.now free (known memory.now) result }
{
    match folding(memory, counts, geometry, free, Kind::Hidden) {
        Some(plan) => plan,
        None => match folding(memory, counts, geometry, free, Kind::Leaf) {
            Some(plan) => plan,
            None => match folding(memory, counts, geometry, free, Kind::Live) {
                Some(plan) => plan,
                None => blocked(memory, counts, geometry, free),
            },
        },
    }
}

/// No operation runs: the first rule that applies.
fn plan_idle(
    table: &Table,
    memory: &Memory,
    counts: &ChildCounts,
    geometry: &Geometry,
    extents: u32,
) -> Plan
    requires counted { AreCounted memory.now.tree.rows counts.now }
    ensures { Answers machine.plan_idle geometry.now extents (table_alone table.now) (known memory.now) result }
{
    match removal(memory, counts) {
        Some(plan) => plan,
        None => match deflation(memory, geometry) {
            Some(plan) => plan,
            None => plan_fold(memory, counts, geometry, free(table, extents)),
        },
    }
}

/// The next block to copy, or else what comes when all are copied.
fn copy_or(done: Plan, block: Option<u32>) -> Plan
    ensures { result ≡ machine.copy_or done block }
{
    match block {
        Some(block) => Plan::Copy { block },
        None => done,
    }
}

/// A copy goes on while its child has children.
fn plan_copy(memory: &Memory, child: &Name, cursor: u32) -> Plan
    ensures { Recalls (λ σ. machine.plan_copy σ child.now cursor (children child.now σ.images)) (known memory.now) result }
{
    if memory.tree.child_count(child) == 0 {
        return Plan::Abandon;
    }
    copy_or(Plan::Turn, next_block(memory, child, cursor))
}

/// The next child to link, or else the end.
fn plan_relink(memory: &Memory, child: &Name) -> Plan
    ensures { Recalls (λ σ. machine.relink_or (children child.now σ.images)) (known memory.now) result }
{
    match memory.tree.least_child(child) {
        Some(child) => Plan::RelinkOne { child },
        None => Plan::Finish,
    }
}

/// No block is left to copy of a live folding: where too many are dirty the least of them is copied again, else the parent takes the leaf's
/// place.
fn clean_or(operation: &Operation, count: u32) -> Plan
    requires { count ≡ length (dirty_in operation.now) }
    ensures { result ≡ machine.clean_or (dirty_in operation.now) }
{
    if count <= DIRTY_LIMIT {
        return Plan::Swap;
    }
    copy_or(Plan::Swap, operation.least_dirty())
}

/// The collector's next step, by table and memory alone. A repository has `extents` extents in all. It takes no memory and makes
/// no call; where no operation runs it counts the children of the images anew.
pub fn plan(
    table: &Table,
    memory: &Memory,
    counts: &mut ChildCounts,
    geometry: &Geometry,
    extents: u32,
) -> Plan
    requires few { length memory.now.tree.rows ≤ length counts.old }
    ensures exact { Answers machine.next_step geometry.now extents (table_alone table.now) (known memory.now) result }
    ensures room { length counts.new ≡ length counts.old }
{
    match memory.operation.told() {
        Op::Idle => {
            counts.count(&memory.tree);
            plan_idle(table, memory, counts, geometry, extents)
        }
        Op::Copy { child, cursor, .. } => plan_copy(memory, &child, cursor),
        Op::Relink { child, .. } => plan_relink(memory, &child),
        Op::Leaf { leaf, cursor, .. } => copy_or(Plan::Swap, next_block(memory, &leaf, cursor)),
        Op::Live {
            leaf,
            cursor,
            dirty,
            ..
        } => {
            let done = clean_or(&memory.operation, dirty);
            copy_or(done, next_block(memory, &leaf, cursor))
        }
    }
}
