//! Images that may be folded into their parents, and the room that it takes, in extents.

ghost use Rattle.std.specs.Prelude.{◌≡◌, ◌==◌, ◌&&◌, ◌||◌, IfSome, is_some, length, not, true};
ghost use Rattle.std.specs.Option.{option_map};
ghost use Rattle.common_laws.specs.Lists.{In};
ghost use Rattle.sm_machine.specs.Collector as machine;
ghost use Rattle.sm_machine.specs.Shapes.{attached_as, image_uuid, is_vhd as is_vhd_name};
ghost use Rattle.sm_ready.specs.Known.{known};
ghost use Rattle.vhd_chain.specs.Reading.{slots_of};
ghost use Rattle.vhd_chain.specs.Trees.{row_name};
ghost use Rattle.vhd_image.specs.Bodies.{sector_count};
ghost use Rattle.gc_plan.specs.Counting.{AreCounted};
ghost use Rattle.gc_plan.specs.Planning.{FillsPair, IsPairIn, MeasuresPair, RecallsOf, as_pair, candidate_of};

use crate::counting::{ChildCounts, row_of};
use crate::images::{has_one_child, is_attached, is_childless, is_vhd, is_written, thin, top};
use sm_base::Geometry;
use sm_ready::{Memory, thick};
use vhd_chain::TreeRow;

/// An image that may be folded into its parent.
#[derive(Clone, Copy)]
pub(crate) struct Pair<'a> {
    pub(crate) child: &'a TreeRow,
    pub(crate) parent: &'a TreeRow,
}

/// Which images are folded into their parents.
#[derive(Clone, Copy)]
pub(crate) enum Kind {
    /// Hidden ones that have children.
    Hidden,
    /// Those of disks that are not attached.
    Leaf,
    /// Those of disks that are attached.
    Live,
}

/// The image and its parent, where the parent has no other child.
fn with_parent<'a>(memory: &'a Memory, counts: &ChildCounts, row: &'a TreeRow) -> Option<Pair<'a>>
    requires counted { AreCounted memory.now.tree.rows counts.now }
    ensures exact { RecallsOf machine.with_parent (known memory.now) row.now (option_map as_pair result) }
    ensures there { In row.now memory.now.tree.rows → IfSome result (IsPairIn memory.now.tree.rows) }
{
    let name = row.image.parent()?;
    let parent = row_of(&memory.tree, &name)?;
    if has_one_child(memory, counts, parent) {
        Some(Pair { child: row, parent })
    } else {
        None
    }
}

/// Whether an image is a hidden VHD image with children.
fn is_between(memory: &Memory, counts: &ChildCounts, row: &TreeRow) -> bool
    requires counted { AreCounted memory.now.tree.rows counts.now }
    ensures { RecallsOf (λ σ i. i.hidden && (is_vhd_name i.name && not (machine.is_childless σ i))) (known memory.now) row.now result }
{
    row.hidden && (is_vhd(row) && !is_childless(memory, counts, row))
}

/// Whether an image is the VHD image of a disk that is not attached.
fn is_unused(memory: &Memory, row: &TreeRow) -> bool
    ensures { RecallsOf (λ σ i. not i.hidden && (is_vhd_name i.name && not (is_some (attached_as (image_uuid i.name) σ)))) (known memory.now) row.now result }
{
    !row.hidden && (is_vhd(row) && !is_attached(memory, row))
}

/// Whether an image is the VHD image of a disk that is attached.
fn is_used(memory: &Memory, row: &TreeRow) -> bool
    ensures { RecallsOf (λ σ i. not i.hidden && (is_vhd_name i.name && is_some (attached_as (image_uuid i.name) σ))) (known memory.now) row.now result }
{
    !row.hidden && (is_vhd(row) && is_attached(memory, row))
}

/// Whether the parent is a VHD image, or a raw one of the same size.
fn is_proper(pair: &Pair<'_>) -> bool
    ensures { result ≡ (is_vhd_name (row_name pair.now.parent.now) || (sector_count pair.now.parent.now.image == sector_count pair.now.child.now.image)) }
{
    is_vhd(pair.parent) || pair.parent.image.sectors() == pair.child.image.sectors()
}

/// A hidden VHD image with children and its parent, which is a VHD image, or a raw one of the same size.
fn pair_of<'a>(memory: &'a Memory, counts: &ChildCounts, row: &'a TreeRow) -> Option<Pair<'a>>
    requires counted { AreCounted memory.now.tree.rows counts.now }
    ensures exact { RecallsOf machine.pair_of (known memory.now) row.now (option_map as_pair result) }
    ensures there { In row.now memory.now.tree.rows → IfSome result (IsPairIn memory.now.tree.rows) }
{
    if !is_between(memory, counts, row) {
        return None;
    }
    let pair = with_parent(memory, counts, row)?;
    if is_proper(&pair) { Some(pair) } else { None }
}

/// The VHD image of a disk that is not attached and its parent, which is a VHD image.
fn leaf_of<'a>(memory: &'a Memory, counts: &ChildCounts, row: &'a TreeRow) -> Option<Pair<'a>>
    requires counted { AreCounted memory.now.tree.rows counts.now }
    ensures exact { RecallsOf machine.leaf_of (known memory.now) row.now (option_map as_pair result) }
    ensures there { In row.now memory.now.tree.rows → IfSome result (IsPairIn memory.now.tree.rows) }
{
    if !is_unused(memory, row) {
        return None;
    }
    let pair = with_parent(memory, counts, row)?;
    if is_vhd(pair.parent) {
        Some(pair)
    } else {
        None
    }
}

/// The VHD image of a disk that is attached and its parent, which is a VHD image.
fn live_of<'a>(memory: &'a Memory, counts: &ChildCounts, row: &'a TreeRow) -> Option<Pair<'a>>
    requires counted { AreCounted memory.now.tree.rows counts.now }
    ensures exact { RecallsOf machine.live_of (known memory.now) row.now (option_map as_pair result) }
    ensures there { In row.now memory.now.tree.rows → IfSome result (IsPairIn memory.now.tree.rows) }
{
    if !is_used(memory, row) {
        return None;
    }
    let pair = with_parent(memory, counts, row)?;
    if is_vhd(pair.parent) {
        Some(pair)
    } else {
        None
    }
}

/// An image of this kind and its parent.
pub(crate) fn candidate<'a>(
    memory: &'a Memory,
    counts: &ChildCounts,
    kind: Kind,
    row: &'a TreeRow,
) -> Option<Pair<'a>>
    requires counted { AreCounted memory.now.tree.rows counts.now }
    ensures exact { RecallsOf (candidate_of kind) (known memory.now) row.now (option_map as_pair result) }
    ensures there { In row.now memory.now.tree.rows → IfSome result (IsPairIn memory.now.tree.rows) }
{
    match kind {
        Kind::Hidden => pair_of(memory, counts, row),
        Kind::Leaf => leaf_of(memory, counts, row),
        Kind::Live => live_of(memory, counts, row),
    }
}

/// The number of blocks that have a slot in the one image or in the other. Their tables are equally long.
fn count_either(pair: &Pair<'_>) -> u32
    ensures { length (slots_of pair.now.parent.now.image) ≡ length (slots_of pair.now.child.now.image)
        → result ≡ machine.count_either (slots_of pair.now.parent.now.image) (slots_of pair.now.child.now.image) }
{
    let Some(parent) = pair.parent.image.map() else {
        return 0;
    };
    let Some(child) = pair.child.image.map() else {
        return 0;
    };
    if parent.entries() == child.entries() {
        parent.union_count(child)
    } else {
        0
    }
}

/// The extents that a VHD parent needs: as many as the blocks of both, or as many as all blocks where the child is written to.
fn needed(memory: &Memory, geometry: &Geometry, pair: &Pair<'_>) -> u32
    requires { is_vhd_name (row_name pair.now.parent.now) ≡ true }
    ensures { MeasuresPair machine.needed geometry.now (known memory.now) pair.now result }
{
    if is_written(memory, pair.child) {
        thick(geometry, pair.child.image.sectors()) as u32
    } else {
        thin(geometry, top(pair.parent).max(count_either(pair)))
    }
}

/// The extents that the parent is to have: those that it has, or those that it needs.
pub(crate) fn target(memory: &Memory, geometry: &Geometry, pair: &Pair<'_>) -> u32
    ensures { MeasuresPair machine.target geometry.now (known memory.now) pair.now result }
{
    if is_vhd(pair.parent) {
        pair.parent.extents.max(needed(memory, geometry, pair))
    } else {
        pair.parent.extents
    }
}

/// The extents that the parent is to gain.
pub(crate) fn growth(memory: &Memory, geometry: &Geometry, pair: &Pair<'_>) -> u32
    ensures { MeasuresPair machine.growth geometry.now (known memory.now) pair.now result }
{
    target(memory, geometry, pair).saturating_sub(pair.parent.extents)
}

/// Whether there is room for them.
pub(crate) fn fits(memory: &Memory, geometry: &Geometry, free: u32, pair: &Pair<'_>) -> bool
    ensures { FillsPair machine.fits geometry.now free (known memory.now) pair.now result }
{
    growth(memory, geometry, pair) <= free
}
