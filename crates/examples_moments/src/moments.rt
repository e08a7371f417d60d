//! A worked fork and a worked swap, commit by commit: each content meets the hypotheses of the laws.

ghost use Rattle.std.specs.Prelude.{◌≡◌, None};
ghost use Rattle.sm_base.specs.declared.names.Name.TheVariants.{Vhd};
ghost use Rattle.sm_standing.specs.Forks.{IsForkable, IsForking, IsForked, IsForkMoment};
ghost use Rattle.sm_standing.specs.Checks.{first_fault};
ghost use Rattle.examples_moments.specs.Moments.{top, filled, child};
ghost use Rattle.sm_standing.specs.Swaps.{IsSwappable, IsSwapping};
ghost use Rattle.examples_moments.specs.Worked.{first, second, base, second_record, unforked, forking_at, filled_at, swapping_at};

/// A disk of 64 KiB is forked: before the fork, after each of its eight commits, and at the end.
pub fn example_fork()
    ensures before { IsForkable unforked first base second (Vhd first) (top 17) }
    ensures entry_made { IsForking unforked (forking_at 1) first base second (Vhd first) (Vhd first) }
    ensures renamed { IsForking unforked (forking_at 2) first base second (Vhd first) (Vhd base) }
    ensures base_hidden { IsForking unforked (forking_at 3) first base second (Vhd first) (Vhd base) }
    ensures disk_made { IsForking unforked (forking_at 4) first base second (Vhd first) (Vhd base) }
    ensures twin_made { IsForking unforked (forking_at 5) first base second (Vhd first) (Vhd base) }
    ensures disk_filled { IsForking unforked (filled_at 6) first base second (Vhd first) (Vhd base) }
    ensures twin_filled { IsForking unforked (filled_at 7) first base second (Vhd first) (Vhd base) }
    ensures entry_removed { IsForked unforked (filled_at 8) first base second (Vhd first) (Vhd base) (top 17) child child second_record }
{}

/// The same fork, volume by volume: all checks pass before it; its entry is made, the disk's image is renamed and not yet hidden,
/// both new images are made, and both are filled.
pub fn example_fork_volumes()
    ensures before { first_fault unforked ≡ None }
    ensures entry_made { IsForkMoment unforked (forking_at 1) first base second (Vhd first) (Vhd first) }
    ensures renamed { IsForkMoment unforked (forking_at 2) first base second (Vhd first) (Vhd base) }
    ensures made { IsForkMoment unforked (forking_at 5) first base second (Vhd first) (Vhd base) }
    ensures filled { IsForkMoment unforked (filled_at 7) first base second (Vhd first) (Vhd base) }
{}

/// A leaf that holds a sector, which its parent holds alike, is swapped: before the swap, and after each of its five commits.
pub fn example_swap()
    ensures before { IsSwappable (swapping_at 0) first base (filled 34) (top 34) }
    ensures leaf_renamed { IsSwapping (swapping_at 0) (swapping_at 1) first base (Vhd base) }
    ensures parent_renamed { IsSwapping (swapping_at 0) (swapping_at 2) first base (Vhd first) }
    ensures parent_shown { IsSwapping (swapping_at 0) (swapping_at 3) first base (Vhd first) }
    ensures leaf_removed { IsSwapping (swapping_at 0) (swapping_at 4) first base (Vhd first) }
    ensures entry_removed { IsSwapping (swapping_at 0) (swapping_at 5) first base (Vhd first) }
{}
