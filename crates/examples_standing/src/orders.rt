//! Two works that were cut short beside each other: whichever is undone or ended first, the same table is left.

ghost use Rattle.std.specs.Prelude.{◌≡◌};
ghost use Rattle.sm_standing.specs.Opened.{cleaned, ended, undone};
ghost use Rattle.examples_standing.specs.SmallOrders.{leaf_beside_fork, leaf_beside_fork_left, parent_enlarged, parent_enlarged_left, leaf_enlarged, leaf_enlarged_left, copied_enlarged, copied_enlarged_left, link_beside_fork, link_beside_fork_left, copy_beside_fork};

/// What an opening leaves, in the order in which it makes its commits.
pub fn example_ended_first()
    ensures leaf_beside_fork { cleaned (undone (ended leaf_beside_fork)) ≡ leaf_beside_fork_left }
    ensures parent_enlarged { cleaned (undone (ended parent_enlarged)) ≡ parent_enlarged_left }
    ensures leaf_enlarged { cleaned (undone (ended leaf_enlarged)) ≡ leaf_enlarged_left }
    ensures copied_enlarged { cleaned (undone (ended copied_enlarged)) ≡ copied_enlarged_left }
    ensures link_beside_fork { cleaned (undone (ended link_beside_fork)) ≡ link_beside_fork_left }
    ensures copy_beside_fork { cleaned (undone (ended copy_beside_fork)) ≡ link_beside_fork_left }
{}

/// The same in the order in which the format lists them.
pub fn example_undone_first()
    ensures leaf_beside_fork { cleaned (ended (undone leaf_beside_fork)) ≡ leaf_beside_fork_left }
    ensures parent_enlarged { cleaned (ended (undone parent_enlarged)) ≡ parent_enlarged_left }
    ensures leaf_enlarged { cleaned (ended (undone leaf_enlarged)) ≡ leaf_enlarged_left }
    ensures copied_enlarged { cleaned (ended (undone copied_enlarged)) ≡ copied_enlarged_left }
    ensures link_beside_fork { cleaned (ended (undone link_beside_fork)) ≡ link_beside_fork_left }
    ensures copy_beside_fork { cleaned (ended (undone copy_beside_fork)) ≡ link_beside_fork_left }
{}
