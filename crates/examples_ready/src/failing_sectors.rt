//! Memory and sectors that fail one field of the invariant of the sectors.

ghost use Rattle.std.specs.Prelude.{◌≡◌, ◌*◌, ℕ, false, List, []};
ghost use Rattle.sm_base.specs.declared.names.Name.TheVariants.{Cbt};
ghost use Rattle.common_laws.specs.Lists.{In};
ghost use Rattle.sm_mgt.specs.Places.{Agrees, records_held};
ghost use Rattle.sm_standing.specs.Logs.{IsLogged};
ghost use Rattle.vg_volumes.specs.Sites.{volume_of};
ghost use Rattle.vhd_chain.specs.Trees.{row_name};
ghost use Rattle.vhd_chain.specs.declared.rows.TreeRow.{TreeRow};
ghost use Rattle.vhd_image.specs.Steady.{IsSteady};
ghost use Rattle.vhd_volumes.specs.Steady.{IsQuiet};
ghost use Rattle.sm_ready.specs.Known.{shape_in};
ghost use Rattle.sm_ready.specs.Orderly.{IsOrderly};
ghost use Rattle.sm_ready.specs.Ready.{IsBelow, IsReady, is_written_in};
ghost use Rattle.sm_ready.specs.Stores.{content_now};
ghost use Rattle.examples_moments.specs.Worked.{leaf_copied};
ghost use Rattle.examples_ready.specs.FailingMemory.{forgotten_known, relabelled_known, tracked_known};
ghost use Rattle.examples_ready.specs.FailingSectors.{log_area, uncopied_area, unsynced_area};
ghost use Rattle.examples_ready.specs.FailingTables.{log_table};
ghost use Rattle.examples_ready.specs.Repositories.{copy, copy_table, copy_known, link, link_table, link_known, live, live_known, live_area, plain_table, plain_known, plain_area, written_area};
ghost use Rattle.examples_ready.specs.WorkedRows.{site, sizes};

/// The volume names a slot that memory does not.
pub fn example_forgotten()
    ensures orderly { IsOrderly site plain_table forgotten_known }
    ensures fails { ¬ IsReady site plain_table plain_area forgotten_known }
    ensures only { ((r : TreeRow) → In r forgotten_known.rows → IsSteady sizes (r.extents * 32) (volume_of site plain_table plain_area (row_name r)) r.image) → IsReady site plain_table plain_area forgotten_known }
{}

/// A sector is pending in an image that no guest writes to.
pub fn example_loose()
    ensures fails { ¬ IsReady site plain_table written_area plain_known }
    ensures only { ((r : TreeRow) → In r plain_known.rows → is_written_in (shape_in site plain_table plain_known) (row_name r) ≡ false → IsQuiet (volume_of site plain_table written_area (row_name r))) → IsReady site plain_table written_area plain_known }
{}

/// The cursor of a copy is past a block that the parent holds otherwise.
pub fn example_uncopied()
    ensures fails { ¬ IsReady site copy_table uncopied_area copy_known }
    ensures only { IsBelow (content_now site copy_table uncopied_area) copy → IsReady site copy_table uncopied_area copy_known }
{}

/// The copy was turned into a link, and the parent holds a block otherwise.
pub fn example_unheld()
    ensures orderly { IsOrderly site link_table link_known }
    ensures fails { ¬ IsReady site link_table uncopied_area link_known }
    ensures only { IsBelow (content_now site link_table uncopied_area) link → IsReady site link_table uncopied_area link_known }
{}

/// The guest wrote to a block behind the cursor of a live folding, and the block is not among the dirty ones.
pub fn example_unmarked()
    ensures orderly { IsOrderly site leaf_copied (live_known []) }
    ensures fails { ¬ IsReady site leaf_copied live_area (live_known []) }
    ensures only { IsBelow (content_now site leaf_copied live_area) (live []) → IsReady site leaf_copied live_area (live_known []) }
{}

/// Memory has a label that was not written.
pub fn example_relabelled()
    ensures orderly { IsOrderly site plain_table relabelled_known }
    ensures fails { ¬ IsReady site plain_table plain_area relabelled_known }
    ensures only { Agrees (records_held site plain_table plain_area) relabelled_known.places → IsReady site plain_table plain_area relabelled_known }
{}

/// A record was written, and not synced.
pub fn example_unsynced()
    ensures fails { ¬ IsReady site plain_table unsynced_area plain_known }
    ensures only { IsQuiet (records_held site plain_table unsynced_area) → IsReady site plain_table unsynced_area plain_known }
{}

/// Memory has the log of a disk, and no volume spells it.
pub fn example_unspelled()
    ensures fails { ¬ IsReady site plain_table plain_area tracked_known }
    ensures only { IsLogged (content_now site plain_table plain_area) tracked_known.logs → IsReady site plain_table plain_area tracked_known }
{}

/// A sector of a new log was written, and not synced.
pub fn example_unlasting()
    ensures fails { ¬ IsReady site log_table log_area plain_known }
    ensures only { ((u : List ℕ) → IsQuiet (volume_of site log_table log_area (Cbt u))) → IsReady site log_table log_area plain_known }
{}
