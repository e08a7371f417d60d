//! Laws of a swap: at each moment between its commits the disks are those from before.

ghost use Rattle.std.specs.Prelude.{◌≡◌, ℕ, List};
ghost use Rattle.sm_base.specs.declared.names.Name.{Name};
ghost use Rattle.sm_standing.specs.Contents.{Content};
ghost use Rattle.sm_standing.specs.Images.{Image};
ghost use Rattle.sm_standing.specs.Standing.{disks};
ghost use Rattle.sm_standing.specs.Swaps.{IsSwappable, IsSwapping};

/// From the leaf's rename on until the entry is removed, and behind that, the disks are those from before.
pub fn law_swapping()
    ensures { (a b : Content) (leaf parent : List ℕ) (m : Name) (i q : Image) → IsSwappable a leaf parent i q
        → IsSwapping a b leaf parent m → disks b ≡ disks a }
{}
