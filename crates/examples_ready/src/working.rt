//! Repositories at work: a copy is under way, children are linked after it, a guest writes, and the leaf of an attached disk is folded.

ghost use Rattle.std.specs.Prelude.{◌≡◌, [], ◌∷◌};
ghost use Rattle.sm_base.specs.declared.names.Name.TheVariants.{Vhd};
ghost use Rattle.sm_base.specs.declared.operations.Plan.TheVariants.{RelinkOne};
ghost use Rattle.sm_machine.specs.Collector.{next_step};
ghost use Rattle.vg_volumes.specs.Sites.{volume_of};
ghost use Rattle.vhd_volumes.specs.Steady.{IsQuiet};
ghost use Rattle.sm_ready.specs.Known.{shape_in};
ghost use Rattle.sm_ready.specs.Orderly.{IsOrderly};
ghost use Rattle.sm_ready.specs.Ready.{IsReady, IsTidy};
ghost use Rattle.examples_moments.specs.Worked.{first, leaf_copied};
ghost use Rattle.examples_ready.specs.Repositories.{plain_table, written_known, written_area, written_shape, chain_area, copy_table, copy_known, copy_shape, link_table, link_known, link_shape, live_known, live_area, live_shape};
ghost use Rattle.examples_ready.specs.WorkedRows.{site};

/// A hidden image is copied into the base under it, and its block 0 was: under the entry of the copy, with the cursor at 1.
pub fn example_copying()
    ensures shape { shape_in site copy_table copy_known ≡ copy_shape }
    ensures orderly { IsOrderly site copy_table copy_known }
    ensures ready { IsReady site copy_table chain_area copy_known }
    ensures tidy { IsTidy copy_table copy_known }
{}

/// The base holds all that the hidden image holds, and the disk still lies over the hidden image: under the entry of the link,
/// and the disk's image is what the machine links next.
pub fn example_linking()
    ensures shape { shape_in site link_table link_known ≡ link_shape }
    ensures orderly { IsOrderly site link_table link_known }
    ensures ready { IsReady site link_table chain_area link_known }
    ensures tidy { IsTidy link_table link_known }
    ensures step { next_step (shape_in site link_table link_known) ≡ RelinkOne (Vhd first) }
{}

/// A disk is attached for writing, and its guest has written a sector that no sync followed. A stop may leave of this sector
/// what a read does not give, and still all is ready.
pub fn example_writing()
    ensures shape { shape_in site plain_table written_known ≡ written_shape }
    ensures orderly { IsOrderly site plain_table written_known }
    ensures ready { IsReady site plain_table written_area written_known }
    ensures tidy { IsTidy plain_table written_known }
    ensures not_quiet { ¬ IsQuiet (volume_of site plain_table written_area (Vhd first)) }
{}

/// The image of a disk that is attached for writing is folded into the base under it. Its block 0 was copied, and then the guest wrote to
/// it: base and leaf differ there, and the block is dirty.
pub fn example_living()
    ensures shape { shape_in site leaf_copied (live_known (0 ∷ [])) ≡ live_shape (0 ∷ []) }
    ensures orderly { IsOrderly site leaf_copied (live_known (0 ∷ [])) }
    ensures ready { IsReady site leaf_copied live_area (live_known (0 ∷ [])) }
    ensures tidy { IsTidy leaf_copied (live_known (0 ∷ [])) }
{}
