//! Which blocks of a live folding a write makes dirty.

ghost use Rattle.std.specs.Prelude.{◌≡◌, ◌+◌, ◌-◌, ◌≤◌, ℕ, true};
ghost use Rattle.common_laws.specs.Lists.{numbers};
ghost use Rattle.sm_base.specs.declared.names.Name.{Name};
ghost use Rattle.sm_machine.specs.Commits.{folds};
ghost use Rattle.sm_machine.specs.Operations.{told};
ghost use Rattle.sm_machine.specs.Steps.{written_op};
ghost use Rattle.sm_machine.specs.WellFormed.{is_image_name};
ghost use Rattle.gc_abandon.specs.Abandoning.{folded_pair};

use gc_abandon::is_folded;
use sm_operation::Operation;
use uuid::Uuid;

/// Notes that blocks of a disk are written to, from the first one on and before the end: of a live folding of the disk's leaf those below the cursor are
/// dirty from now on.
pub(crate) fn mark(operation: &mut Operation, disk: &Uuid, first: u64, end: u64)
    requires image { (leaf parent : Name) → folded_pair (told operation.old) ≡ Some (leaf, parent) → is_image_name leaf ≡ true }
    requires order { first ≤ end }
    requires few { folds operation.old disk.now ≡ true → end ≤ 1044480 }
    ensures { operation.new ≡ written_op disk.now (numbers first (end - first)) operation.old }
{
    if !is_folded(&operation.told(), disk) {
        return;
    }
    for block in first..end {
        operation.touch(block as u32);
    }
}
