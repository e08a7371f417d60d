//! Laws of what a change of the area, or a commit that may have failed, leaves of each volume.

ghost use Rattle.std.specs.Prelude.{◌≡◌, ◌≢◌, ℕ, ◌*◌, ◌<◌, List};
ghost use Rattle.sm_base.specs.declared.names.Name.{Name};
ghost use Rattle.sm_disk.specs.Held.{Held, reads, May};
ghost use Rattle.vg_meta.specs.Tables.{VolumeTable, IsTable, extents_of, rows};
ghost use Rattle.vg_volumes.specs.Commits.{IsBefore, IsAfter};
ghost use Rattle.vg_volumes.specs.Volumes.{SameElsewhere, volume};
ghost use Rattle.sm_standing.specs.Contents.{Content, row, sectors_of, size_of};
ghost use Rattle.sm_standing.specs.Worlds.{IsWrittenIn, with_table};

/// Where only sectors of one volume differ, each other volume has the same sectors.
pub fn law_other_volumes()
    ensures { (a b : Content) (n m : Name) → IsTable a.count a.table → 0 < a.extent → IsWrittenIn a b n → m ≢ n
        → (p : ℕ) → p < size_of a m → sectors_of b m p ≡ sectors_of a m p }
{}

/// Where what is held differs in sectors of one volume alone, each other volume has the choices that it had.
pub fn law_other_choices()
    ensures floor { (extent count : ℕ) (t : VolumeTable) (old new : Held) (n m : Name) → IsTable count t → 0 < extent
        → SameElsewhere extent (extents_of (rows t n)) old new → m ≢ n
        → (p : ℕ) → (volume extent (extents_of (rows t m)) new).floor p ≡ (volume extent (extents_of (rows t m)) old).floor p }
    ensures pending { (extent count : ℕ) (t : VolumeTable) (old new : Held) (n m : Name) → IsTable count t → 0 < extent
        → SameElsewhere extent (extents_of (rows t n)) old new → m ≢ n
        → (p : ℕ) → (volume extent (extents_of (rows t m)) new).pending p ≡ (volume extent (extents_of (rows t m)) old).pending p }
{}

/// A commit leaves the old table, and of each volume a choice sector by sector; or the next table, and of each volume
/// what a read gave there.
pub fn law_commit()
    ensures before { (c : Content) (held : Held) (left : VolumeTable) (image : ℕ → List ℕ) → IsTable c.count c.table → 0 < c.extent
        → IsBefore (c.count * c.extent) c.table held left image → (m : Name) (p : ℕ) → p < size_of c m
        → May (volume c.extent (extents_of (row c m)) held) p (sectors_of (with_table c left image) m p) }
    ensures after { (c : Content) (held : Held) (next left : VolumeTable) (image : ℕ → List ℕ) → IsTable c.count next → 0 < c.extent
        → IsAfter (c.count * c.extent) next held left image → (m : Name) (p : ℕ) → p < size_of (with_table c next image) m
        → sectors_of (with_table c left image) m p ≡ sectors_of (with_table c next (reads held)) m p }
{}
