//! Worked tables: where a UUID stands, and at which stage an entry is.

ghost use Rattle.std.specs.Prelude.{◌≡◌, ◌∷◌, [], None, Some, false, true};
ghost use Rattle.sm_base.specs.declared.names.Name.TheVariants.{Vhd, Raw, Old};
ghost use Rattle.sm_standing.specs.Entries.{is_at_stage};
ghost use Rattle.examples_standing.specs.SmallContents.{one, two, three, shown_row, hidden_row, new_row, sized_row, table_of};
ghost use Rattle.examples_standing.specs.SmallTables as at;
ghost use Rattle.sm_standing.specs.Standing.{standing_volume};

/// A raw image is a disk where it is visible and not new.
pub fn example_raw()
    ensures visible { standing_volume (table_of (shown_row (Raw one) ∷ [])) one ≡ Some (Raw one) }
    ensures other { standing_volume (table_of (shown_row (Raw one) ∷ [])) two ≡ None }
    ensures hidden { standing_volume (table_of (hidden_row (Raw one) ∷ [])) one ≡ None }
    ensures fresh { standing_volume (table_of (new_row (Raw one) ∷ [])) one ≡ None }
{}

/// Two disks over a hidden base: the base is none, nor is an image that is new.
pub fn example_pair()
    ensures disk { standing_volume at.pair one ≡ Some (Vhd one) }
    ensures twin { standing_volume at.pair two ≡ Some (Vhd two) }
    ensures base { standing_volume at.pair three ≡ None }
    ensures fresh { standing_volume (table_of (new_row (Vhd one) ∷ shown_row (Vhd two) ∷ hidden_row (Vhd three) ∷ [])) one ≡ None }
{}

/// Under the entry of a fork, before the disk's image is renamed: the disk stands in it.
pub fn example_fork_begun()
    ensures stage { is_at_stage at.fork_begun at.fork ≡ true }
    ensures disk { standing_volume at.fork_begun one ≡ Some (Vhd one) }
    ensures base { standing_volume at.fork_begun three ≡ None }
    ensures twin { standing_volume at.fork_begun two ≡ None }
    ensures fresh { is_at_stage (table_of (new_row (Vhd one) ∷ shown_row at.fork ∷ [])) at.fork ≡ false }
    ensures twice { is_at_stage (table_of (shown_row (Raw one) ∷ shown_row (Vhd one) ∷ shown_row at.fork ∷ [])) at.fork ≡ false }
{}

/// Once the image has the base's name the disk stands in it, and the base is none though it is visible.
pub fn example_fork_renamed()
    ensures stage { is_at_stage at.fork_renamed at.fork ≡ true }
    ensures disk { standing_volume at.fork_renamed one ≡ Some (Vhd three) }
    ensures base { standing_volume at.fork_renamed three ≡ None }
    ensures twin { standing_volume at.fork_renamed two ≡ None }
    ensures raw_twin { is_at_stage (table_of (shown_row (Raw two) ∷ hidden_row (Vhd three) ∷ shown_row at.fork ∷ [])) at.fork ≡ false }
    ensures visible_base { is_at_stage (table_of (new_row (Vhd one) ∷ shown_row (Vhd three) ∷ shown_row at.fork ∷ [])) at.fork ≡ false }
{}

/// The new images are filled: until the entry is gone the disk stands in the base, and the twin nowhere.
pub fn example_fork_made()
    ensures stage { is_at_stage at.fork_made at.fork ≡ true }
    ensures disk { standing_volume at.fork_made one ≡ Some (Raw three) }
    ensures base { standing_volume at.fork_made three ≡ None }
    ensures twin { standing_volume at.fork_made two ≡ None }
{}

/// The entry is gone: disk and twin stand in their own images.
pub fn example_fork_ended()
    ensures disk { standing_volume at.fork_ended one ≡ Some (Vhd one) }
    ensures base { standing_volume at.fork_ended three ≡ None }
    ensures twin { standing_volume at.fork_ended two ≡ Some (Vhd two) }
{}

/// A leaf that is folded into its parent, before the swap.
pub fn example_leaf_copied()
    ensures stage { is_at_stage at.leaf_copied at.leaf ≡ true }
    ensures leaf { standing_volume at.leaf_copied one ≡ Some (Vhd one) }
    ensures parent { standing_volume at.leaf_copied two ≡ None }
{}

/// The leaf was renamed: its disk stands in the hidden parent, and the old leaf is none.
pub fn example_leaf_renamed()
    ensures stage { is_at_stage at.leaf_renamed at.leaf ≡ true }
    ensures leaf { standing_volume at.leaf_renamed one ≡ Some (Vhd two) }
    ensures parent { standing_volume at.leaf_renamed two ≡ None }
    ensures without_entry { standing_volume (table_of (shown_row (Old one) ∷ hidden_row (Vhd two) ∷ [])) one ≡ None }
{}

/// The parent has the leaf's name: the disk stands in it though it is hidden.
pub fn example_leaf_swapped()
    ensures stage { is_at_stage at.leaf_swapped at.leaf ≡ true }
    ensures leaf { standing_volume at.leaf_swapped one ≡ Some (Vhd one) }
    ensures parent { standing_volume at.leaf_swapped two ≡ None }
    ensures without_entry { standing_volume (table_of (shown_row (Old one) ∷ hidden_row (Vhd one) ∷ [])) one ≡ None }
{}

/// The old leaf is gone. A hidden leaf without the old one is at no stage.
pub fn example_leaf_folded()
    ensures stage { is_at_stage at.leaf_folded at.leaf ≡ true }
    ensures leaf { standing_volume at.leaf_folded one ≡ Some (Vhd one) }
    ensures parent { standing_volume at.leaf_folded two ≡ None }
    ensures hidden { is_at_stage (table_of (hidden_row (Vhd one) ∷ shown_row at.leaf ∷ [])) at.leaf ≡ false }
    ensures both { is_at_stage (table_of (shown_row (Old one) ∷ shown_row (Vhd one) ∷ hidden_row (Vhd two) ∷ shown_row at.leaf ∷ [])) at.leaf ≡ false }
    ensures neither { is_at_stage (table_of (shown_row (Old one) ∷ shown_row at.leaf ∷ [])) at.leaf ≡ false }
{}

/// An image that is copied into its parent: the disk over it stands where it stood.
pub fn example_coalesce()
    ensures stage { is_at_stage at.copying at.coalesce ≡ true }
    ensures disk { standing_volume at.copying one ≡ Some (Vhd one) }
    ensures child { standing_volume at.copying two ≡ None }
    ensures parent { standing_volume at.copying three ≡ None }
    ensures visible { is_at_stage (table_of (shown_row (Vhd two) ∷ hidden_row (Vhd three) ∷ shown_row at.coalesce ∷ [])) at.coalesce ≡ false }
    ensures alone { is_at_stage (table_of (hidden_row (Vhd two) ∷ shown_row at.coalesce ∷ [])) at.coalesce ≡ false }
{}

/// An image that is left by its children: the disk over it stands where it stood.
pub fn example_relink()
    ensures stage { is_at_stage at.linking at.relink ≡ true }
    ensures disk { standing_volume at.linking one ≡ Some (Vhd one) }
    ensures child { standing_volume at.linking two ≡ None }
    ensures parent { standing_volume at.linking three ≡ None }
    ensures visible { is_at_stage (table_of (shown_row (Vhd two) ∷ hidden_row (Vhd three) ∷ shown_row at.relink ∷ [])) at.relink ≡ false }
    ensures alone { is_at_stage (table_of (hidden_row (Vhd two) ∷ shown_row at.relink ∷ [])) at.relink ≡ false }
{}

/// An image of three extents that had two. With one it is at no stage.
pub fn example_inflate()
    ensures stage { is_at_stage at.enlarging at.inflate ≡ true }
    ensures disk { standing_volume at.enlarging one ≡ Some (Vhd one) }
    ensures short { is_at_stage (table_of (sized_row false (Vhd one) (0 ∷ []) ∷ shown_row at.inflate ∷ [])) at.inflate ≡ false }
{}
