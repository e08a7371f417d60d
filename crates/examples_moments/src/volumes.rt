//! The commit of a fork that renames the disk's image, by volumes.

ghost use Rattle.std.specs.Prelude.{false};
ghost use Rattle.sm_base.specs.declared.names.Name.TheVariants.{Vhd};
ghost use Rattle.sm_standing.specs.Forks.{forked};
ghost use Rattle.sm_standing.specs.Volumes.{IsSameVolume, AreSameApart};
ghost use Rattle.examples_moments.specs.Worked.{first, second, base, image_row, unforked, forking_at};

/// The commit of a fork that renames the disk's image: the base has what the image had, and all else is as it was.
pub fn example_same_volume()
    ensures base { IsSameVolume unforked (forking_at 2) (Vhd first) (Vhd base) (image_row false (Vhd first) 16) (image_row false (Vhd base) 16) }
    ensures others { AreSameApart unforked (forking_at 2) (forked first base second) }
{}
