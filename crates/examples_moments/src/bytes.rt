//! Worked contents, byte for byte: what their images say, which disks they show, and that no check of an opening fails.

ghost use Rattle.std.specs.Prelude.{◌≡◌, ◌∷◌, [], ℕ, ◌≤◌, None, Some};
ghost use Rattle.sm_base.specs.declared.names.Name.TheVariants.{Vhd};
ghost use Rattle.vhd_layout.specs.Contents.{content_at};
ghost use Rattle.examples_vhd.specs.SmallImages.{fresh_image, written_image};
ghost use Rattle.sm_standing.specs.Checks.{first_fault};
ghost use Rattle.sm_standing.specs.Images.{image_of};
ghost use Rattle.sm_standing.specs.Standing.{disks};
ghost use Rattle.examples_moments.specs.Moments.{top, filled, child, written, disk_of};
ghost use Rattle.examples_moments.specs.Worked.{first, second, base, first_record, second_record, fresh_disk, written_disk, unforked, two_disks};
ghost use Rattle.examples_moments.specs.WorkedImages.{sector_of};

/// The image of a disk as it was made, and as two of its sectors were written, is read off its volume.
pub fn example_images()
    ensures fresh { image_of fresh_disk (Vhd first) ≡ Some (content_at 8 64 160 fresh_image) }
    ensures written { image_of written_disk (Vhd first) ≡ Some (content_at 8 64 160 written_image) }
{}

/// What the worked images say: 128 sectors each, of which the one holds the first and the other none; the base as the
/// parent of a child.
pub fn example_saying()
    ensures size { (byte : ℕ) → (top byte).size ≡ 128 }
    ensures no_parent { (byte : ℕ) → (top byte).parent ≡ None }
    ensures held { (byte : ℕ) → (top byte).own 0 ≡ Some (sector_of byte) }
    ensures others { (byte s : ℕ) → 1 ≤ s → (top byte).own s ≡ None }
    ensures child_size { child.size ≡ 128 }
    ensures child_parent { child.parent ≡ Some (Vhd base) }
    ensures child_empty { (s : ℕ) → child.own s ≡ None }
    ensures filled_parent { (byte : ℕ) → (filled byte).parent ≡ Some (Vhd base) }
    ensures filled_alike { (byte : ℕ) → (top byte).own ≡ (filled byte).own }
{}

/// One disk of 64 KiB whose sector 0 is written.
pub fn example_one_disk()
    ensures image { image_of unforked (Vhd first) ≡ Some (top 17) }
    ensures disks { disks unforked ≡ disk_of first_record (written 17) ∷ [] }
    ensures sound { first_fault unforked ≡ None }
{}

/// A snapshot of it was made, and sector 0 of the disk was written again: each of the two reads its own bytes.
pub fn example_two_disks()
    ensures base { image_of two_disks (Vhd base) ≡ Some (top 17) }
    ensures disk { image_of two_disks (Vhd first) ≡ Some (filled 34) }
    ensures twin { image_of two_disks (Vhd second) ≡ Some child }
    ensures disks { disks two_disks ≡ disk_of first_record (written 34) ∷ disk_of second_record (written 17) ∷ [] }
    ensures sound { first_fault two_disks ≡ None }
{}
