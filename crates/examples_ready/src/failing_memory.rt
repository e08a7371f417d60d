//! Memory that fails one field of the invariant of table and memory, or of the one between two commands.

ghost use Rattle.std.specs.Prelude.{◌≡◌, ◌≤◌, ◌*◌, ℕ, List, length};
ghost use Rattle.sm_base.specs.Limits.{extent_limit};
ghost use Rattle.sm_base.specs.Kinds.{is_entry};
ghost use Rattle.sm_base.specs.declared.names.Name.{Name};
ghost use Rattle.sm_base.specs.declared.names.Name.TheVariants.{Cbt};
ghost use Rattle.common_laws.specs.Lists.{In};
ghost use Rattle.sm_log.specs.Logs.{log_of};
ghost use Rattle.sm_machine.specs.Shapes.{refs};
ghost use Rattle.sm_machine.specs.WellFormed.{IsWellFormed};
ghost use Rattle.sm_mgt.specs.Places.{place_count};
ghost use Rattle.sm_refs.specs.Attached.{count_of};
ghost use Rattle.sm_standing.specs.Entries.{names_in};
ghost use Rattle.vg_meta.specs.Tables.{rows};
ghost use Rattle.vhd_chain.specs.declared.rows.TreeRow.{TreeRow};
ghost use Rattle.vhd_image.specs.Bodies.{StandsIn};
ghost use Rattle.sm_ready.specs.Known.{entry_of, log_face, row_face, shape_in};
ghost use Rattle.sm_ready.specs.Orderly.{IsOrderly, IsRoomy};
ghost use Rattle.sm_ready.specs.Ready.{IsTidy, HasNoStray};
ghost use Rattle.examples_ready.specs.FailingMemory.{tight_known, short_known, high_known, unrecorded_known, uncounted_known, stray_known, tracked_known};
ghost use Rattle.examples_ready.specs.FailingTables.{entryless_table, tight_table};
ghost use Rattle.examples_ready.specs.Repositories.{plain_table, plain_known, copy_known};
ghost use Rattle.examples_ready.specs.WorkedRows.{site, site_of, sizes};

/// The group has an extent more than a group may have.
pub fn example_wide()
    ensures fails { ¬ IsOrderly (site_of 1048577) plain_table plain_known }
    ensures only { 1048577 ≤ extent_limit → IsOrderly (site_of 1048577) plain_table plain_known }
{}

/// Memory has a place too few.
pub fn example_short_places()
    ensures fails { ¬ IsOrderly site plain_table short_known }
    ensures only { length short_known.places ≡ place_count → IsOrderly site plain_table short_known }
{}

/// The collector copies, and the table has no entry of the copy.
pub fn example_entryless()
    ensures fails { ¬ IsOrderly site entryless_table copy_known }
    ensures only { names_in entryless_table is_entry ≡ entry_of copy_known.op → IsOrderly site entryless_table copy_known }
{}

/// A block has a slot that would end behind the volume.
pub fn example_high_slot()
    ensures fails { ¬ IsOrderly site plain_table high_known }
    ensures only { ((r : TreeRow) → In r high_known.rows → StandsIn sizes (r.extents * 32) r.image) → IsOrderly site plain_table high_known }
{}

/// A visible image has no record.
pub fn example_unrecorded()
    ensures fails { ¬ IsOrderly site plain_table unrecorded_known }
    ensures only { ∥ IsWellFormed (shape_in site plain_table unrecorded_known) ∥₁ → IsOrderly site plain_table unrecorded_known }
{}

/// A disk is attached, and its image is not counted as used.
pub fn example_uncounted()
    ensures fails { ¬ IsOrderly site plain_table uncounted_known }
    ensures only { ((n : Name) → count_of uncounted_known.attached n ≡ refs n (shape_in site plain_table uncounted_known)) → IsOrderly site plain_table uncounted_known }
{}

/// Memory has the log of a disk, and the table has no volume of it.
pub fn example_tracked()
    ensures fails { ¬ IsOrderly site plain_table tracked_known }
    ensures only { ((u : List ℕ) → row_face (rows plain_table (Cbt u)) ≡ log_face (log_of u tracked_known.logs)) → IsOrderly site plain_table tracked_known }
{}

/// A record of no image is no fault between two steps, and is one between two commands.
pub fn example_stray()
    ensures orderly { IsOrderly site plain_table stray_known }
    ensures fails { ¬ IsTidy plain_table stray_known }
    ensures only { HasNoStray stray_known → IsTidy plain_table stray_known }
{}

/// The parent of a copy has no room for the blocks of both images.
pub fn example_tight()
    ensures fails { ¬ IsOrderly site tight_table tight_known }
    ensures only { IsRoomy (shape_in site tight_table tight_known) → IsOrderly site tight_table tight_known }
{}
