//! What an outline depends on, its first fault, and the longest chain that passes.

ghost use Rattle.std.specs.Prelude.{◌≡◌, ◌++◌, ◌∷◌, ℕ, List, None, Option, Some, false, suc, true};
ghost use Rattle.sm_base.specs.declared.faults.Place.{Place};
ghost use Rattle.sm_base.specs.declared.names.Name.TheVariants.{Vhd};
ghost use Rattle.common_laws.specs.Lists.{In};
ghost use Rattle.vg_meta.specs.Tables.{Row, VolumeTable};
ghost use Rattle.sm_machine.specs.Shapes.{chain_limit};
ghost use Rattle.sm_standing.specs.Besides.{IsBeside};
ghost use Rattle.sm_standing.specs.Checks.{all_faults, fault_of, first_fault, is_linked, chain_length, is_tree_wrong};
ghost use Rattle.sm_standing.specs.Contents.{Content};
ghost use Rattle.sm_standing.specs.Enlarging.{IsEnlarging};
ghost use Rattle.sm_standing.specs.Outlines.{Outline, Link, IsOutlinedAlike, outline};
ghost use Rattle.sm_standing.specs.Standing.{standing_volume, uuids};

/// What the checks look at is the same where the sizes, the table, each image's size and parent and each record sector
/// are. So what a guest writes, and where an image's blocks stand, decides no check.
pub fn law_outline()
    ensures same { (a b : Content) → IsOutlinedAlike a b → outline b ≡ outline a }
    ensures fault { (a b : Content) → IsOutlinedAlike a b → first_fault b ≡ first_fault a }
{}

/// The answer is the first of the faults: one that nothing stands in front of, and none where there is none.
pub fn law_first_fault()
    ensures first { (o : Outline) (before after : List (Option Place)) (p : Place) → all_faults o ≡ before ++ (Some p ∷ after) → ((f : Option Place) → In f before → f ≡ None) → fault_of o ≡ Some p }
    ensures one_of { (o : Outline) (p : Place) → fault_of o ≡ Some p → In (Some p) (all_faults o) }
    ensures pass { (o : Outline) → fault_of o ≡ None → (f : Option Place) → In f (all_faults o) → f ≡ None }
{}

/// A hidden image that is linked rightly has a chain of 30 images or fewer: with 31 it is refused.
pub fn law_longest_chain()
    ensures most { (o : Outline) (r : Row) (u : List ℕ) (i : Link) → r.name ≡ Vhd u → r.hidden ≡ true → o.links (Vhd u) ≡ Some i → is_linked o i ≡ true → chain_length o (suc chain_limit) (Vhd u) ≡ chain_limit → is_tree_wrong o r ≡ false }
    ensures more { (o : Outline) (r : Row) (u : List ℕ) (i : Link) → r.name ≡ Vhd u → r.hidden ≡ true → o.links (Vhd u) ≡ Some i → is_linked o i ≡ true → chain_length o (suc chain_limit) (Vhd u) ≡ suc chain_limit → is_tree_wrong o r ≡ true }
{}

/// While an image is being enlarged no check fails that did not fail before, and each disk stands where it stood.
pub fn law_enlarging()
    ensures sound { (o : Outline) (t : VolumeTable) (u : List ℕ) (extents : ℕ) → IsEnlarging o t u extents → fault_of o ≡ None → fault_of (record o { table = t }) ≡ None }
    ensures stands { (o : Outline) (t : VolumeTable) (u v : List ℕ) (extents : ℕ) → IsEnlarging o t u extents → standing_volume t v ≡ standing_volume o.table v }
    ensures uuids { (o : Outline) (t : VolumeTable) (u : List ℕ) (extents : ℕ) → IsEnlarging o t u extents → uuids t ≡ uuids o.table }
{}

/// Where whatever speaks of none of some UUIDs is as it was, and each volume that speaks of one passes by itself, no check
/// fails.
pub fn law_beside()
    ensures { (a b : Outline) (us : List (List ℕ)) → IsBeside a b us → fault_of a ≡ None → fault_of b ≡ None }
{}
