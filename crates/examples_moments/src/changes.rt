//! Worked changes of one image: one that was nobody's parent is removed, and another grows.

ghost use Rattle.std.specs.Prelude.{◌≡◌, ◌∷◌, [], ℕ, ◌≤◌, true, Some};
ghost use Rattle.sm_base.specs.declared.names.Name.TheVariants.{Vhd};
ghost use Rattle.sm_disk.specs.Sectors.{zeros};
ghost use Rattle.vg_meta.specs.Tables.{Row};
ghost use Rattle.sm_standing.specs.Changes.{IsRaised, IsRemoved};
ghost use Rattle.sm_standing.specs.Contents.{Content};
ghost use Rattle.sm_standing.specs.Images.{Image, image_of, image_reads};
ghost use Rattle.sm_standing.specs.Standing.{disks};
ghost use Rattle.examples_moments.specs.Moments.{child, small, small_top, large, written, disk_of};
ghost use Rattle.examples_moments.specs.Worked.{first, second, base, first_record, image_row, relinked_at, still_linked, ungrown, grown, over_larger};
ghost use Rattle.examples_moments.specs.WorkedImages.{sector_of};

/// A relink has ended: a disk of 64 KiB lies over a base, and beside it lies the hidden image past which it was linked,
/// an empty child of the base. That image is removed, and the disk is as before. While the disk still lies over it, no
/// content is one without it in this sense.
pub fn example_removed()
    ensures image { image_of (relinked_at 1) (Vhd second) ≡ Some child }
    ensures removed { IsRemoved (relinked_at 1) (relinked_at 2) (Vhd second) (image_row true (Vhd second) 26) }
    ensures disks_before { disks (relinked_at 1) ≡ disk_of first_record (written 17) ∷ [] }
    ensures disks_after { disks (relinked_at 2) ≡ disk_of first_record (written 17) ∷ [] }
    ensures not_while_a_parent { (b : Content) (was : Row) → ¬ IsRemoved still_linked b (Vhd second) was }
{}

/// The image of a disk, which holds sector 0, grows from 32 KiB to 64 KiB, so from 64 sectors of 512 bytes to 128, over
/// a base of 64 sectors: the disk reads as before, and zeros behind. Over a base of 128 sectors, whose later half would
/// show, no content is one in which it grew in this sense.
pub fn example_raised()
    ensures raised { IsRaised ungrown grown (Vhd first) small large }
    ensures old_size { small.size ≡ 64 }
    ensures new_size { large.size ≡ 128 }
    ensures parent { small.parent ≡ Some (Vhd base) }
    ensures below { image_of ungrown (Vhd base) ≡ Some small_top }
    ensures below_size { small_top.size ≡ 64 }
    ensures kept { image_reads grown (Vhd first) 0 ≡ sector_of 34 }
    ensures zeros { (s : ℕ) → 64 ≤ s → image_reads grown (Vhd first) s ≡ zeros }
    ensures not_over_a_larger { (b : Content) (i j : Image) → ¬ IsRaised over_larger b (Vhd first) i j }
{}
