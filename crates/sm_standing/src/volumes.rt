//! Laws of what an image says.

ghost use Rattle.std.specs.Prelude.{◌≡◌, [], ℕ, List, Some};
ghost use Rattle.sm_base.specs.Numbers.{IsGeometry};
ghost use Rattle.sm_base.specs.declared.names.Name.{Name};
ghost use Rattle.sm_base.specs.declared.names.Name.TheVariants.{Vhd, Raw, Clone};
ghost use Rattle.vg_meta.specs.Tables.{VolumeTable, Row};
ghost use Rattle.sm_standing.specs.Contents.{Content};
ghost use Rattle.sm_standing.specs.Entries.{making, head};
ghost use Rattle.sm_standing.specs.Images.{image_of};
ghost use Rattle.sm_standing.specs.Apart.{IsSameApart};
ghost use Rattle.sm_standing.specs.Forks.{forked};
ghost use Rattle.sm_standing.specs.Volumes.{IsAtSize, IsSameVolume, AreSameApart};

/// A volume with the extents, the mark and the sectors of another holds the same image, or like it none, under
/// whatever name it stands: so a commit that renames an image, or that speaks of other volumes, leaves it as it is.
pub fn law_same_volume()
    ensures vhd { (a b : Content) (u v : List ℕ) (was now : Row) → IsGeometry a.extent a.block a.entries → IsSameVolume a b (Vhd u) (Vhd v) was now
        → IsAtSize a.table (Vhd u) → IsAtSize b.table (Vhd v) → image_of b (Vhd v) ≡ image_of a (Vhd u) }
    ensures raw { (a b : Content) (u v : List ℕ) (was now : Row) → IsSameVolume a b (Raw u) (Raw v) was now → image_of b (Raw v) ≡ image_of a (Raw u) }
{}

/// Where each volume of none of the names at work has the same row and the same sectors, it holds the same image.
pub fn law_same_apart()
    ensures { (a b : Content) (us : List (List ℕ)) → IsGeometry a.extent a.block a.entries → AreSameApart a b us → IsSameApart a b us }
{}

/// No image is being enlarged where no entry of that group stands, nor under the entry of a fork.
pub fn law_whole()
    ensures none { (t : VolumeTable) (n : Name) → making t ≡ [] → IsAtSize t n }
    ensures fork { (t : VolumeTable) (n : Name) (disk base twin : List ℕ) → head (making t) ≡ Some (Clone disk base twin) → IsAtSize t n }
{}
