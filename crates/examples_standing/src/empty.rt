//! Contents that meet the hypotheses of the laws, so that none of them is empty.

ghost use Rattle.std.specs.Prelude.{◌≡◌, List, ℕ, [], length, None};
ghost use Rattle.sm_standing.specs.Checks.{first_fault};
ghost use Rattle.examples_standing.specs.SmallContents.{empty_content};
ghost use Rattle.sm_standing.specs.Keeping.{IsKept};
ghost use Rattle.sm_standing.specs.PlainSound.{PlainSound};
ghost use Rattle.sm_standing.specs.Standing.{disks};

/// An empty repository of extents of 16 KiB, with sixteen of them for the records, is sound and kept, and
/// has no disks.
pub fn example_empty()
    ensures sound { (extents : List ℕ) → length extents ≡ 16 → PlainSound (empty_content extents) }
    ensures kept { (extents : List ℕ) → length extents ≡ 16 → IsKept (empty_content extents) }
    ensures no_fault { (extents : List ℕ) → length extents ≡ 16 → first_fault (empty_content extents) ≡ None }
    ensures disks { (extents : List ℕ) → disks (empty_content extents) ≡ [] }
{}
