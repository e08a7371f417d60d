//! What a guest writes is no part of an outline; an image that is being enlarged, and a disk that is being forked, and either
//! undone; children that are being linked, and the table without that; and what the checks say where no leaf is being folded.

ghost use Rattle.std.specs.Prelude.{◌≡◌, ◌∷◌, ◌<◌, ℕ, [], List, None, Some, false, take, true};
ghost use Rattle.sm_base.specs.declared.faults.Place.TheVariants as at;
ghost use Rattle.sm_base.specs.declared.names.Name.TheVariants.{Vhd, Raw, Old, Clone, Coalesce, Inflate, Leaf, Relink};
ghost use Rattle.sm_standing.specs.Besides.{IsBeside};
ghost use Rattle.sm_standing.specs.Checks.{fault_of, PassesButLeaf, first_fault};
ghost use Rattle.sm_standing.specs.Enlarging.{IsEnlarging};
ghost use Rattle.sm_standing.specs.Opened.{applied_all, undo_changes, undone};
ghost use Rattle.sm_standing.specs.Outlines.{outline};
ghost use Rattle.sm_standing.specs.Standing.{standing_volume};
ghost use Rattle.sm_standing.specs.Undone.{IsBeingEnlarged, undone_from};
ghost use Rattle.sm_standing.specs.Unfolded.{unfolded};
ghost use Rattle.examples_standing.specs.SmallContents.{lone_raw, one, two, three, four, record_row, sized_row};
ghost use Rattle.examples_standing.specs.SmallOutlines.{thin_outline, thin_table, enlarging_table, entries_table, old_table, mixed_outline, forking_table, forking_outline, linking_images, linking_outline, linking_table, copying_outline};

/// A guest writes into a raw disk, behind the records: the outline is as it was, and so is the first fault.
pub fn example_outline()
    ensures same { (a b : ℕ → List ℕ) → ((p : ℕ) → p < 8 → b p ≡ a p) → outline (lone_raw b) ≡ outline (lone_raw a) }
    ensures fault { (a b : ℕ → List ℕ) → ((p : ℕ) → p < 8 → b p ≡ a p) → first_fault (lone_raw b) ≡ first_fault (lone_raw a) }
{}

/// A thin disk of one extent while it gets two more: with its entry no check fails, none failed before, and the disk stands
/// where it stood.
pub fn example_enlarging()
    ensures enlarging { IsEnlarging thin_outline enlarging_table one 1 }
    ensures before { fault_of thin_outline ≡ None }
    ensures sound { fault_of (record thin_outline { table = enlarging_table }) ≡ None }
    ensures stands { standing_volume enlarging_table one ≡ Some (Vhd one) }
    ensures beside { IsBeside thin_outline (record thin_outline { table = enlarging_table }) (one ∷ []) }
{}

/// A raw disk beside a VHD disk passes all checks, and no leaf is being folded there. A hidden VHD image beside it passes too, and a VHD disk over the raw
/// image where that is hidden; over a visible one it stops at the tree, and an old leaf stops at the image. The entry of an enlargement
/// passes, a second one and one at no stage do not, whatever entry of the other group is beside them. The entry of a fork passes where
/// the base is the only parent of its new images, that of a link where the parent is no smaller than the image, and that of a copy
/// where the image is its parent's only child.
pub fn example_but_leaf()
    ensures passes { fault_of (mixed_outline false false None) ≡ None }
    ensures quiet { PassesButLeaf (mixed_outline false false None) }
    ensures hidden { fault_of (mixed_outline false true None) ≡ None }
    ensures child { fault_of (mixed_outline true false (Some (Raw two))) ≡ None }
    ensures parent { fault_of (mixed_outline false false (Some (Raw two))) ≡ Some (at.Tree (Vhd one)) }
    ensures old { fault_of (record thin_outline { table = old_table }) ≡ Some (at.Image (Old one)) }
    ensures enlarging { fault_of (record thin_outline { table = enlarging_table }) ≡ None }
    ensures second { fault_of (record thin_outline { table = entries_table (Inflate one 1 ∷ Inflate one 2 ∷ []) }) ≡ Some (at.Journal (Inflate one 2)) }
    ensures lost { fault_of (record thin_outline { table = entries_table (Inflate one 4 ∷ []) }) ≡ Some (at.Journal (Inflate one 4)) }
    ensures other { fault_of (record thin_outline { table = entries_table (Inflate one 1 ∷ Inflate one 2 ∷ Leaf one two ∷ []) }) ≡ Some (at.Journal (Inflate one 2)) }
    ensures fork { fault_of (forking_outline (Some (Vhd two))) ≡ None }
    ensures unlinked { fault_of (forking_outline None) ≡ Some (at.Journal (Clone one two three)) }
    ensures link { fault_of (linking_outline 32) ≡ None }
    ensures smaller { fault_of (linking_outline 24) ≡ Some (at.Journal (Relink two three)) }
    ensures copy { fault_of (copying_outline (Vhd two)) ≡ None }
    ensures shared { fault_of (copying_outline (Vhd three)) ≡ Some (at.Journal (Coalesce two three)) }
{}

/// A thin disk of one extent got two more, and a stop came: it is cut to one extent, and the entry is removed. Where it got none
/// yet the entry goes at once, and a table without the entry stays as it is.
pub fn example_undone()
    ensures being { IsBeingEnlarged enlarging_table one 1 }
    ensures cut { applied_all enlarging_table (take 1 (undo_changes enlarging_table)) ≡ record { sequence = 7; volumes = sized_row false (Inflate one 1) [] ∷ thin_table.volumes } }
    ensures undone { undone enlarging_table ≡ record { sequence = 8; volumes = thin_table.volumes } }
    ensures at_once { undone (record { sequence = 5; volumes = sized_row false (Inflate one 1) [] ∷ thin_table.volumes }) ≡ record { sequence = 6; volumes = thin_table.volumes } }
    ensures none { undone thin_table ≡ thin_table }
{}

/// A disk was being forked, its own new image filled and that of the twin not yet: the new images go, and the base is shown and
/// takes the disk's name. That is the name that the image had; what speaks of no fork has its own.
pub fn example_fork_undone()
    ensures undone { undone forking_table ≡ record { sequence = 15; volumes = record_row (0 ∷ 1 ∷ 2 ∷ 3 ∷ 4 ∷ 5 ∷ 6 ∷ 7 ∷ 8 ∷ 9 ∷ 10 ∷ 11 ∷ 12 ∷ 13 ∷ 14 ∷ 15 ∷ []) ∷ sized_row false (Vhd one) (16 ∷ []) ∷ [] } }
    ensures image { undone_from forking_table (Vhd one) ≡ Some (Vhd two) }
    ensures base { undone_from forking_table (Vhd two) ≡ None }
    ensures twin { undone_from forking_table (Vhd three) ≡ None }
    ensures other { undone_from forking_table (Vhd four) ≡ Some (Vhd four) }
{}

/// The children of an image were being linked to its parent: without the entry the images are left. A table without such an entry
/// stays as it is.
pub fn example_unfolded()
    ensures unfolded { unfolded linking_table ≡ record { sequence = 9; volumes = linking_images } }
    ensures none { unfolded thin_table ≡ thin_table }
{}
