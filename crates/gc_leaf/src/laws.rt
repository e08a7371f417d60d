//! A law of a swap: at each moment between its commits all checks of an opening pass that passed before.

ghost use Rattle.std.specs.Prelude.{◌≡◌, ℕ, List, None};
ghost use Rattle.sm_base.specs.declared.names.Name.{Name};
ghost use Rattle.sm_standing.specs.Checks.{first_fault};
ghost use Rattle.sm_standing.specs.Contents.{Content};
ghost use Rattle.sm_standing.specs.Images.{Image};
ghost use Rattle.sm_standing.specs.Swaps.{IsSwappable};
ghost use Rattle.gc_leaf.specs.Moments.{IsSwapMoment};

/// From the leaf's rename on, while the entry of the swap is there, no check of an opening fails that did not fail before it.
pub fn law_swap_sound()
    ensures { (a b : Content) (leaf parent : List ℕ) (m : Name) (i q : Image) → IsSwappable a leaf parent i q → first_fault a ≡ None
        → IsSwapMoment a b leaf parent m → first_fault b ≡ None }
{}
