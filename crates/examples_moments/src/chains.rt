//! Worked changes of one sector in chains of images: each meets the hypotheses of a law of `sm_standing`, at sector 0.

ghost use Rattle.std.specs.Prelude.{◌≡◌, ◌≢◌, ℕ, List};
ghost use Rattle.sm_base.specs.declared.names.Name.{Name};
ghost use Rattle.sm_base.specs.declared.names.Name.TheVariants.{Vhd};
ghost use Rattle.sm_standing.specs.Changes.{turns_of};
ghost use Rattle.sm_standing.specs.Images.{here, up};
ghost use Rattle.sm_standing.specs.Answering.{IsNoParent, SendsUpAlone, SameBut, renamed_answer};
ghost use Rattle.examples_moments.specs.Worked.{first, second, base, exchanged, filled_at, two_disks, uncopied, swapping_at, relinking, relinked_at};
ghost use Rattle.examples_moments.specs.WorkedImages.{sector_of};

/// A guest writes sector 0 of a disk that held nothing over its base: the image is nobody's parent, and all others do what
/// they did (`law_no_parent`, `law_guest_write`).
pub fn example_guest_write()
    ensures no_parent { IsNoParent (turns_of (filled_at 8) 0) (Vhd first) }
    ensures others { SameBut (turns_of (filled_at 8) 0) (turns_of two_disks 0) (Vhd first) }
    ensures before { turns_of (filled_at 8) 0 (Vhd first) ≡ up (Vhd base) }
    ensures after { turns_of two_disks 0 (Vhd first) ≡ here (sector_of 34) }
{}

/// Sector 0 of a leaf is copied into its parent, which held other bytes there: the leaf is the only child, and answers
/// itself (`law_copy_below`).
pub fn example_copy_below()
    ensures only { SendsUpAlone (turns_of uncopied 0) (Vhd first) (Vhd base) }
    ensures held { turns_of uncopied 0 (Vhd first) ≡ here (sector_of 34) }
    ensures others { SameBut (turns_of uncopied 0) (turns_of (swapping_at 0) 0) (Vhd base) }
    ensures before { turns_of uncopied 0 (Vhd base) ≡ here (sector_of 17) }
    ensures after { turns_of (swapping_at 0) 0 (Vhd base) ≡ here (sector_of 34) }
{}

/// A disk is linked past a hidden image, which holds nothing, to that image's parent (`law_relink`).
pub fn example_relink()
    ensures before { turns_of relinking 0 (Vhd first) ≡ up (Vhd second) }
    ensures after { turns_of (relinked_at 0) 0 (Vhd first) ≡ up (Vhd base) }
    ensures others { SameBut (turns_of relinking 0) (turns_of (relinked_at 0) 0) (Vhd first) }
    ensures past { turns_of relinking 0 (Vhd second) ≡ up (Vhd base) }
    ensures two { Vhd first ≢ Vhd second }
{}

/// The parent of a folded leaf gets the leaf's name: each image does under its new name what it did (`law_rename`).
pub fn example_rename()
    ensures renamed { (n : Name) → turns_of (swapping_at 2) 0 (exchanged n) ≡ renamed_answer exchanged (turns_of (swapping_at 1) 0 n) }
    ensures before { turns_of (swapping_at 1) 0 (Vhd base) ≡ here (sector_of 34) }
    ensures after { turns_of (swapping_at 2) 0 (Vhd first) ≡ here (sector_of 34) }
{}
