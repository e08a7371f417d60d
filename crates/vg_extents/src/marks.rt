//! One mark for each extent of a group: whether a volume has it.

ghost use Rattle.std.specs.Prelude.{◌≡◌, ◌++◌, ℕ, List, length, IfOk};
ghost use Rattle.vg_meta.specs.Tables.{extents_in};
ghost use Rattle.vg_meta.specs.Roomy.{rows_alone};
ghost use Rattle.vg_meta.specs.Taken.{IsMarked};

use sm_base::NoMemory;
use std::alloc::Global;
use vg_meta::Volume;

// Marks extents. Those past the marks are left out.
fn mark(marks: &mut [bool], extents: &[u32])
    ensures { (us : List ℕ) → IsMarked us marks.old → IsMarked (us ++ extents.now) marks.new }
{
    for extent in extents {
        let at = *extent as usize;
        if at >= marks.len() {
            continue;
        }
        marks[at] = true;
    }
}

// Marks the extents of volumes.
fn mark_all(marks: &mut [bool], volumes: &[Volume])
    ensures { (us : List ℕ) → IsMarked us marks.old → IsMarked (us ++ extents_in (rows_alone volumes.now)) marks.new }
{
    for volume in volumes {
        mark(marks, volume.extents());
    }
}

/// One mark for each extent below a count: whether a volume has it.
pub fn marked(alloc: Global, volumes: &[Volume], count: u32) -> Result<Vec<bool>, NoMemory>
    ensures marks { IfOk result (λ marks. IsMarked (extents_in (rows_alone volumes.now)) marks.items) }
    ensures many { IfOk result (λ marks. length marks.items ≡ count) }
{
    let Ok(mut marks) = vec![in alloc; false; count as usize] else {
        return Err(NoMemory);
    };
    mark_all(&mut marks, volumes);
    Ok(marks)
}
