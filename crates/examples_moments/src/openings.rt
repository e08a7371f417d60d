//! What an opening makes of the worked contents, with the images that they hold, and that none of its checks fails there.

ghost use Rattle.std.specs.Prelude.{◌≡◌, ◌∷◌, [], None};
ghost use Rattle.sm_standing.specs.Checks.{first_fault};
ghost use Rattle.sm_standing.specs.Opened.{opened};
ghost use Rattle.sm_standing.specs.Shapes.{shape};
ghost use Rattle.sm_standing.specs.Standing.{disks};
ghost use Rattle.examples_moments.specs.ByParts.{opened_by_parts};
ghost use Rattle.examples_moments.specs.Moments.{top, written, disk_of};
ghost use Rattle.examples_moments.specs.Opened.{one_disk_shape, relinked_shape};
ghost use Rattle.examples_moments.specs.Worked.{first_record, unforked, forking_at, filled_at, uncopied, swapping_at, relinking, relinked_at};

/// A fork that stopped goes back to the one disk, whatever was made by then: only the sequence number is greater, by the
/// fork's commits so far and those of the way back. These are one for each new image that is there, one to unmark the
/// base if it is hidden, one to rename it if it is there, and one for the entry.
pub fn example_fork_undone()
    ensures before { shape unforked ≡ one_disk_shape 4 (top 17) }
    ensures entry_made { opened (forking_at 1) ≡ one_disk_shape 6 (top 17) }
    ensures renamed { opened (forking_at 2) ≡ one_disk_shape 8 (top 17) }
    ensures base_hidden { opened (forking_at 3) ≡ one_disk_shape 10 (top 17) }
    ensures disk_made { opened (forking_at 4) ≡ one_disk_shape 12 (top 17) }
    ensures twin_made { opened (forking_at 5) ≡ one_disk_shape 14 (top 17) }
    ensures disk_filled { opened (filled_at 6) ≡ one_disk_shape 15 (top 17) }
    ensures twin_filled { opened (filled_at 7) ≡ one_disk_shape 16 (top 17) }
{}

/// No check of an opening fails while the entry of the fork is there: after each of its commits but the last.
pub fn example_fork_sound()
    ensures entry_made { first_fault (forking_at 1) ≡ None }
    ensures renamed { first_fault (forking_at 2) ≡ None }
    ensures base_hidden { first_fault (forking_at 3) ≡ None }
    ensures disk_made { first_fault (forking_at 4) ≡ None }
    ensures twin_made { first_fault (forking_at 5) ≡ None }
    ensures disk_filled { first_fault (filled_at 6) ≡ None }
    ensures twin_filled { first_fault (filled_at 7) ≡ None }
{}

/// A swap that stopped behind its first commit is done to its end, with as many commits as it has.
pub fn example_swap_done()
    ensures leaf_renamed { opened (swapping_at 1) ≡ one_disk_shape 9 (top 34) }
    ensures parent_renamed { opened (swapping_at 2) ≡ one_disk_shape 9 (top 34) }
    ensures parent_shown { opened (swapping_at 3) ≡ one_disk_shape 9 (top 34) }
    ensures leaf_removed { opened (swapping_at 4) ≡ one_disk_shape 9 (top 34) }
    ensures entry_removed { opened (swapping_at 5) ≡ one_disk_shape 9 (top 34) }
    ensures disks_before { disks (swapping_at 0) ≡ disk_of first_record (written 34) ∷ [] }
    ensures disks_after { disks (swapping_at 5) ≡ disk_of first_record (written 34) ∷ [] }
{}

/// No check of an opening fails while the entry of the swap is there: before the leaf's sector is copied, before the
/// swap, and after each of its commits but the last.
pub fn example_swap_sound()
    ensures uncopied { first_fault uncopied ≡ None }
    ensures before { first_fault (swapping_at 0) ≡ None }
    ensures leaf_renamed { first_fault (swapping_at 1) ≡ None }
    ensures parent_renamed { first_fault (swapping_at 2) ≡ None }
    ensures parent_shown { first_fault (swapping_at 3) ≡ None }
    ensures leaf_removed { first_fault (swapping_at 4) ≡ None }
{}

/// No check of an opening fails under the entry of the relink: while the disk's chain has three images, and when it is
/// linked to the base.
pub fn example_relink_sound()
    ensures before { first_fault relinking ≡ None }
    ensures linked { first_fault (relinked_at 0) ≡ None }
{}

/// A relink that stopped: the disk is linked to the parent of the hidden image, which stays without children.
pub fn example_relink_ended()
    ensures { opened relinking ≡ relinked_shape (disks relinking) }
{}

/// By edits of a working copy of the volumes, in the order in which the format lists the repairs, the same comes out at each of
/// these moments as by commits.
pub fn example_by_parts()
    ensures fork_1 { opened_by_parts (forking_at 1) ≡ opened (forking_at 1) }
    ensures fork_2 { opened_by_parts (forking_at 2) ≡ opened (forking_at 2) }
    ensures fork_3 { opened_by_parts (forking_at 3) ≡ opened (forking_at 3) }
    ensures fork_4 { opened_by_parts (forking_at 4) ≡ opened (forking_at 4) }
    ensures fork_5 { opened_by_parts (forking_at 5) ≡ opened (forking_at 5) }
    ensures fork_6 { opened_by_parts (filled_at 6) ≡ opened (filled_at 6) }
    ensures fork_7 { opened_by_parts (filled_at 7) ≡ opened (filled_at 7) }
    ensures swap_1 { opened_by_parts (swapping_at 1) ≡ opened (swapping_at 1) }
    ensures swap_2 { opened_by_parts (swapping_at 2) ≡ opened (swapping_at 2) }
    ensures swap_3 { opened_by_parts (swapping_at 3) ≡ opened (swapping_at 3) }
    ensures swap_4 { opened_by_parts (swapping_at 4) ≡ opened (swapping_at 4) }
    ensures swap_5 { opened_by_parts (swapping_at 5) ≡ opened (swapping_at 5) }
    ensures relink { opened_by_parts relinking ≡ opened relinking }
{}
