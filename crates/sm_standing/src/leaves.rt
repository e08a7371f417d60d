//! Laws of a repository in which the folding of a leaf into its parent was cut short, alone or beside a fork or an enlargement.

ghost use Rattle.std.specs.Prelude.{◌≡◌, ◌≢◌, ◌≤◌, true, ℕ, List, [], ◌∷◌, length, None};
ghost use Rattle.sm_base.specs.declared.names.Name.{Name};
ghost use Rattle.sm_base.specs.declared.names.Name.TheVariants.{Inflate};
ghost use Rattle.vg_meta.specs.Tables.{VolumeTable, IsTable};
ghost use Rattle.sm_standing.specs.Checks.{first_fault};
ghost use Rattle.sm_standing.specs.Contents.{Content};
ghost use Rattle.sm_standing.specs.Entries.{folding, is_leaf_renamed, making};
ghost use Rattle.sm_standing.specs.Images.{image_of};
ghost use Rattle.sm_standing.specs.Keeping.{HasNoEmptySlot, HoldsWell, IsKept};
ghost use Rattle.sm_standing.specs.Leaves.{IsCutShort, IsEnding, ended_content, image_ended};
ghost use Rattle.sm_standing.specs.Opened.{end_changes, ended, leaf_changes, opened};
ghost use Rattle.sm_standing.specs.Plain.{IsSimple};
ghost use Rattle.sm_standing.specs.Standing.{disks};
ghost use Rattle.sm_standing.specs.Undone.{AllPermit, IsSameArea};
ghost use Rattle.sm_standing.specs.Worlds.{with_table};

/// The folding of a leaf is ended by at most six commits, each of which is allowed in its turn. Whatever a stop leaves of them passes
/// all checks, is kept where the content held well, and shows the same disks. Behind them no such entry is left, and no old leaf;
/// each image is as it was, that of the parent under the leaf's name where it took that; what is being made is still being made, but
/// for an enlargement of the parent that takes the leaf's name; and an opening makes the same shape.
pub fn law_leaf()
    ensures changes { (c : Content) (leaf parent : List ℕ) → IsCutShort c leaf parent → end_changes c.table ≡ leaf_changes c.table leaf parent }
    ensures few { (t : VolumeTable) (leaf parent : List ℕ) → length (leaf_changes t leaf parent) ≤ 6 }
    ensures permits { (c : Content) (leaf parent : List ℕ) → IsCutShort c leaf parent → AllPermit c.count c.table (leaf_changes c.table leaf parent) }
    ensures tables { (c : Content) (leaf parent : List ℕ) → IsCutShort c leaf parent → (v : VolumeTable) → IsEnding c.table v → IsTable c.count v }
    ensures sound { (c : Content) (leaf parent : List ℕ) → IsCutShort c leaf parent → (v : VolumeTable) → IsEnding c.table v → first_fault (with_table c v c.area) ≡ None }
    ensures kept { (c : Content) (leaf parent : List ℕ) → IsCutShort c leaf parent → HoldsWell c
        → (v : VolumeTable) (area : ℕ → List ℕ) → IsEnding c.table v → IsSameArea c area → IsKept (with_table c v area) }
    ensures shown { (c : Content) (leaf parent : List ℕ) → IsCutShort c leaf parent
        → (v : VolumeTable) (area : ℕ → List ℕ) → IsEnding c.table v → IsSameArea c area → disks (with_table c v area) ≡ disks c }
    ensures ended { (c : Content) (leaf parent : List ℕ) → IsCutShort c leaf parent → first_fault (ended_content c) ≡ None }
    ensures quiet { (c : Content) (leaf parent : List ℕ) → IsCutShort c leaf parent → folding (ended c.table) ≡ [] }
    ensures simple { (c : Content) (leaf parent : List ℕ) → IsCutShort c leaf parent → IsSimple (ended c.table) }
    ensures making { (c : Content) (leaf parent : List ℕ) → IsCutShort c leaf parent
        → ((extents : ℕ) → is_leaf_renamed c.table leaf parent ≡ true → making c.table ≢ Inflate parent extents ∷ []) → making (ended c.table) ≡ making c.table }
    ensures parent { (c : Content) (leaf parent : List ℕ) (extents : ℕ) → IsCutShort c leaf parent
        → is_leaf_renamed c.table leaf parent ≡ true → making c.table ≡ Inflate parent extents ∷ [] → making (ended c.table) ≡ [] }
    ensures images { (c : Content) (leaf parent : List ℕ) → IsCutShort c leaf parent → (n : Name) → image_of (ended_content c) n ≡ image_ended c n }
    ensures holding { (c : Content) (leaf parent : List ℕ) → IsCutShort c leaf parent → HasNoEmptySlot c → HasNoEmptySlot (ended_content c) }
    ensures disks { (c : Content) (leaf parent : List ℕ) → IsCutShort c leaf parent → disks (ended_content c) ≡ disks c }
    ensures opened { (c : Content) (leaf parent : List ℕ) → IsCutShort c leaf parent → opened (ended_content c) ≡ opened c }
{}
