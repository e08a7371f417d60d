//! The rules of a collector that is at rest, one function each: the step that a rule gives for the image of the least name at
//! which it applies. Each is one pass over the images.

ghost use Rattle.std.specs.Prelude.{◌≡◌};
ghost use Rattle.sm_ready.specs.Known.{known};
ghost use Rattle.sm_ready.specs.Refusing.{Measures, Recalls};
ghost use Rattle.gc_plan.specs.Counting.{AreCounted};
ghost use Rattle.gc_plan.specs.Planning as rules;
ghost use Rattle.gc_plan.specs.Planning.{Fills, FillsOf, MeasuresOf, MeasuresPair, begun, begun_at, blocked_next, candidates, growth_of, least_of};

use crate::counting::ChildCounts;
use crate::images::{enough, is_garbage, is_loose};
use crate::pairs::{Kind, Pair, candidate, fits, growth, target};
use sm_base::{Geometry, Plan};
use sm_ready::Memory;
use vhd_chain::TreeRow;

/// Removes the first hidden image that has no children.
pub(crate) fn removal(memory: &Memory, counts: &ChildCounts) -> Option<Plan>
    requires counted { AreCounted memory.now.tree.rows counts.now }
    ensures { Recalls rules.removal (known memory.now) result }
{
    let rows = memory.tree.rows();
    for row in rows {
        if is_garbage(memory, counts, row) {
            return Some(Plan::Remove {
                name: row.image.name(),
            });
        }
    }
    None
}

/// Cuts the first image that has more extents than it needs.
pub(crate) fn deflation(memory: &Memory, geometry: &Geometry) -> Option<Plan>
    ensures { Measures rules.deflation geometry.now (known memory.now) result }
{
    let rows = memory.tree.rows();
    for row in rows {
        if is_loose(memory, geometry, row) {
            return Some(Plan::Deflate {
                name: row.image.name(),
                to: enough(geometry, row),
            });
        }
    }
    None
}

/// The step that begins to fold an image of this kind into its parent.
fn begin(memory: &Memory, geometry: &Geometry, kind: Kind, pair: &Pair<'_>) -> Plan
    ensures { MeasuresPair (begun kind) geometry.now (known memory.now) pair.now result }
{
    let child = pair.child.image.name();
    let parent = pair.parent.image.name();
    let to = target(memory, geometry, pair);
    match kind {
        Kind::Hidden => Plan::Begin { child, parent, to },
        Kind::Leaf => Plan::Leaf {
            leaf: child,
            parent,
            to,
        },
        Kind::Live => Plan::Live {
            leaf: child,
            parent,
            to,
        },
    }
}

/// The same for one image, where it is of this kind and there is room.
fn begin_at(
    memory: &Memory,
    counts: &ChildCounts,
    geometry: &Geometry,
    free: u32,
    kind: Kind,
    row: &TreeRow,
) -> Option<Plan>
    requires counted { AreCounted memory.now.tree.rows counts.now }
    ensures { FillsOf (begun_at kind) geometry.now free (known memory.now) row.now result }
{
    let pair = candidate(memory, counts, kind, row)?;
    if fits(memory, geometry, free, &pair) {
        Some(begin(memory, geometry, kind, &pair))
    } else {
        None
    }
}

/// Begins to fold the first image of this kind into its parent for which there is room.
pub(crate) fn folding(
    memory: &Memory,
    counts: &ChildCounts,
    geometry: &Geometry,
    free: u32,
    kind: Kind,
) -> Option<Plan>
    requires counted { AreCounted memory.now.tree.rows counts.now }
    ensures { Fills (rules.folding kind) geometry.now free (known memory.now) result }
{
    let rows = memory.tree.rows();
    for row in rows {
        let plan = begin_at(memory, counts, geometry, free, kind, row);
        if plan.is_some() {
            return plan;
        }
    }
    None
}

/// The lesser of two numbers that may be missing.
fn lesser(one: Option<u32>, other: Option<u32>) -> Option<u32>
    ensures { result ≡ rules.lesser one other }
{
    match one {
        Some(a) => match other {
            Some(b) => Some(a.min(b)),
            None => one,
        },
        None => other,
    }
}

/// The extents that an image's parent is to gain, where the image is of this kind.
fn growth_at(
    memory: &Memory,
    counts: &ChildCounts,
    geometry: &Geometry,
    kind: Kind,
    row: &TreeRow,
) -> Option<u32>
    requires counted { AreCounted memory.now.tree.rows counts.now }
    ensures { MeasuresOf (growth_of kind) geometry.now (known memory.now) row.now result }
{
    let pair = candidate(memory, counts, kind, row)?;
    Some(growth(memory, geometry, &pair))
}

/// The least extents that a parent of an image of this kind is to gain.
fn least_growth(
    memory: &Memory,
    counts: &ChildCounts,
    geometry: &Geometry,
    kind: Kind,
) -> Option<u32>
    requires counted { AreCounted memory.now.tree.rows counts.now }
    ensures { Measures (λ σ. least_of σ (candidates kind σ)) geometry.now (known memory.now) result }
{
    let mut least = None;
    let rows = memory.tree.rows();
    for row in rows {
        least = lesser(least, growth_at(memory, counts, geometry, kind, row));
    }
    least
}

/// Where images are left and there is room for none, the least room that one needs; else nothing is to be done.
pub(crate) fn blocked(memory: &Memory, counts: &ChildCounts, geometry: &Geometry, free: u32) -> Plan
    requires counted { AreCounted memory.now.tree.rows counts.now }
    ensures { Fills blocked_next geometry.now free (known memory.now) result }
{
    let hidden = least_growth(memory, counts, geometry, Kind::Hidden);
    let leaf = least_growth(memory, counts, geometry, Kind::Leaf);
    let live = least_growth(memory, counts, geometry, Kind::Live);
    match lesser(hidden, lesser(leaf, live)) {
        Some(need) => Plan::Blocked { need, free },
        None => Plan::Idle,
    }
}
