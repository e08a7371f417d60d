//! Tables that fail one field of the invariant of table and memory, or of the one between two commands. `only` says that no
//! other field fails: with this one all would hold.

ghost use Rattle.std.specs.Prelude.{◌≡◌, ◌≤◌, true, false, length};
ghost use Rattle.sm_base.specs.Kinds.{is_image};
ghost use Rattle.sm_base.specs.declared.names.Name.{Name};
ghost use Rattle.sm_base.specs.declared.names.Name.TheVariants.{Mgt};
ghost use Rattle.common_laws.specs.Lists.{In};
ghost use Rattle.vg_meta.specs.Tables.{IsTable, Row, rows, extents_of};
ghost use Rattle.vg_layout.specs.Places.{record_extents};
ghost use Rattle.sm_machine.specs.WellFormed.{is_image_name};
ghost use Rattle.sm_standing.specs.Checks.{images, is_misnamed};
ghost use Rattle.vhd_chain.specs.Trees.{tree_row};
ghost use Rattle.sm_ready.specs.Known.{row_face, tree_face};
ghost use Rattle.sm_ready.specs.Orderly.{IsOrderly};
ghost use Rattle.sm_ready.specs.Ready.{IsTidy};
ghost use Rattle.examples_ready.specs.FailingTables.{crowded_table, shared_table, short_table, hidden_table, twin_table, begun_table};
ghost use Rattle.examples_ready.specs.Repositories.{plain_known, pair_known};
ghost use Rattle.examples_ready.specs.WorkedRows.{site, site_of};

/// Two images have one extent: it is no table.
pub fn example_shared_extents()
    ensures fails { ¬ IsOrderly site shared_table pair_known }
    ensures only { IsTable 64 shared_table → IsOrderly site shared_table pair_known }
{}

/// The volume of records has an extent too few for its places.
pub fn example_short_records()
    ensures fails { ¬ IsOrderly site short_table plain_known }
    ensures only { length (extents_of (rows short_table Mgt)) ≡ record_extents 32 → IsOrderly site short_table plain_known }
{}

/// The table hides a disk that memory shows.
pub fn example_hidden()
    ensures fails { ¬ IsOrderly site hidden_table plain_known }
    ensures only { ((n : Name) → is_image n ≡ true → row_face (rows hidden_table n) ≡ tree_face (tree_row plain_known.rows n)) → IsOrderly site hidden_table plain_known }
{}

/// A new volume has a UUID that has an image.
pub fn example_twin()
    ensures fails { ¬ IsOrderly site twin_table plain_known }
    ensures only { ((r : Row) → In r twin_table.volumes → r.fresh ≡ true → (is_misnamed twin_table r ≡ false) × (is_image_name r.name ≡ true)) → IsOrderly site twin_table plain_known }
{}

/// A new volume is no fault between two steps, and is one between two commands.
pub fn example_begun()
    ensures orderly { IsOrderly site begun_table plain_known }
    ensures fails { ¬ IsTidy begun_table plain_known }
    ensures only { ((r : Row) → In r begun_table.volumes → r.fresh ≡ false) → IsTidy begun_table plain_known }
{}

/// A new volume is that of an image more than a repository may have; memory has two images.
pub fn example_crowded()
    ensures fails { ¬ IsOrderly (site_of 1024) crowded_table plain_known }
    ensures only { length (images crowded_table) ≤ 500 → IsOrderly (site_of 1024) crowded_table plain_known }
{}
