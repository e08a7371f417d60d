//! What the collector asks of one image: one function a notion of the machine, each of which answers what the machine's of the
//! same name says of the shape in memory. Slots and blocks are counted from 0, and room is counted in extents.

ghost use Rattle.std.specs.Prelude.{◌≡◌, ◌≤◌, ◌*◌, is_some, length};
ghost use Rattle.sm_machine.specs.Collector as machine;
ghost use Rattle.sm_machine.specs.Collector.{table_of};
ghost use Rattle.sm_machine.specs.Shapes as shapes;
ghost use Rattle.sm_machine.specs.Shapes.{attached_as, image_uuid, is_vhd as is_vhd_name, thin_in};
ghost use Rattle.sm_ready.specs.Known.{Known, known};
ghost use Rattle.sm_ready.specs.Refusing.{Recalls, Sizes};
ghost use Rattle.vhd_chain.specs.Trees.{row_name};
ghost use Rattle.vhd_chain.specs.Reading.{slots_of};
ghost use Rattle.gc_plan.specs.Counting.{AreCounted};
ghost use Rattle.gc_plan.specs.Planning.{MeasuresOf, RecallsOf};

use crate::counting::ChildCounts;
use sm_base::{Geometry, Mode, Name};
use sm_ready::Memory;
use vhd_chain::TreeRow;

/// Whether an image is a VHD image.
#[tactic(auto, unfolding(sm_machine::specs::Shapes::is_vhd))]
pub(crate) fn is_vhd(row: &TreeRow) -> bool
    ensures { result ≡ is_vhd_name (row_name row.now) }
{
    match row.image.name() {
        Name::Vhd(_) => true,
        Name::Mgt
        | Name::Raw(_)
        | Name::Old(_)
        | Name::Cbt(_)
        | Name::Clone { .. }
        | Name::Inflate { .. }
        | Name::Coalesce { .. }
        | Name::Relink { .. }
        | Name::Leaf { .. } => false,
    }
}

/// How the disk that has an image's UUID is attached.
fn mode(memory: &Memory, row: &TreeRow) -> Option<Mode>
    ensures { RecallsOf (λ σ i. attached_as (image_uuid i.name) σ) (known memory.now) row.now result }
{
    match row.image.name() {
        Name::Vhd(disk) => memory.attached.mode(&disk),
        Name::Raw(disk) => memory.attached.mode(&disk),
        Name::Mgt
        | Name::Old(_)
        | Name::Cbt(_)
        | Name::Clone { .. }
        | Name::Inflate { .. }
        | Name::Coalesce { .. }
        | Name::Relink { .. }
        | Name::Leaf { .. } => None,
    }
}

/// Whether the disk that has an image's UUID is attached.
pub(crate) fn is_attached(memory: &Memory, row: &TreeRow) -> bool
    ensures { RecallsOf (λ σ i. is_some (attached_as (image_uuid i.name) σ)) (known memory.now) row.now result }
{
    mode(memory, row).is_some()
}

/// Whether it is attached for writing.
fn is_rw(mode: Option<Mode>) -> bool
    ensures { result ≡ shapes.is_rw mode }
{
    match mode {
        Some(Mode::Rw) => true,
        Some(Mode::Ro) => false,
        None => false,
    }
}

/// Whether an image has no children.
pub(crate) fn is_childless(memory: &Memory, counts: &ChildCounts, row: &TreeRow) -> bool
    requires counted { AreCounted memory.now.tree.rows counts.now }
    ensures { RecallsOf machine.is_childless (known memory.now) row.now result }
{
    counts.child_count(&memory.tree, row) == 0
}

/// Whether an image has exactly one child.
pub(crate) fn has_one_child(memory: &Memory, counts: &ChildCounts, row: &TreeRow) -> bool
    requires counted { AreCounted memory.now.tree.rows counts.now }
    ensures { RecallsOf machine.has_one_child (known memory.now) row.now result }
{
    counts.child_count(&memory.tree, row) == 1
}

/// Whether an image is hidden and has no children.
pub(crate) fn is_garbage(memory: &Memory, counts: &ChildCounts, row: &TreeRow) -> bool
    requires counted { AreCounted memory.now.tree.rows counts.now }
    ensures { RecallsOf machine.is_garbage (known memory.now) row.now result }
{
    row.hidden && is_childless(memory, counts, row)
}

/// Whether an image is the own one of a disk that is attached for writing.
pub(crate) fn is_written(memory: &Memory, row: &TreeRow) -> bool
    ensures { RecallsOf machine.is_written (known memory.now) row.now result }
{
    !row.hidden && is_rw(mode(memory, row))
}

/// The extents of an image with so many slots. No image has more slots than its table has entries.
pub(crate) fn thin(geometry: &Geometry, slots: u32) -> u32
    ensures { slots ≤ geometry.now.entries → Sizes (λ σ. thin_in σ slots) geometry.now result }
{
    let slots = u64::from(slots.min(geometry.entries));
    geometry.thin(slots) as u32
}

/// One more than the highest slot of an image, else 0.
pub(crate) fn top(row: &TreeRow) -> u32
    ensures top { result ≡ shapes.top (slots_of row.now.image) }
    ensures within { result ≤ length (slots_of row.now.image) }
{
    match row.image.map() {
        Some(map) => map.top(),
        None => 0,
    }
}

/// The extents that are enough for the slots of an image.
pub(crate) fn enough(geometry: &Geometry, row: &TreeRow) -> u32
    ensures { (m : Known) → MeasuresOf (λ σ i. thin_in σ (shapes.top i.slots)) geometry.now m row.now result }
{
    thin(geometry, top(row))
}

/// Whether an image is a VHD image that has more extents than its slots need, and is not being written to.
pub(crate) fn is_loose(memory: &Memory, geometry: &Geometry, row: &TreeRow) -> bool
    ensures { MeasuresOf machine.is_loose geometry.now (known memory.now) row.now result }
{
    is_vhd(row) && !is_written(memory, row) && enough(geometry, row) < row.extents
}

/// The least block from this one on that has a slot in the table of the image of this name.
pub(crate) fn next_block(memory: &Memory, name: &Name, cursor: u32) -> Option<u32>
    ensures { Recalls (λ σ. machine.next_block cursor (table_of name.now σ)) (known memory.now) result }
{
    let row = memory.tree.get(name)?;
    let map = row.image.map()?;
    map.next(cursor)
}
