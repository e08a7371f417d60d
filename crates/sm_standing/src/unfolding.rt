//! Laws of a repository in which a copy of an image into its parent, or a link of an image's children to its parent, was cut short,
//! alone or beside a fork or an enlargement.

ghost use Rattle.std.specs.Prelude.{◌≡◌, ◌⊎◌, false, true, ℕ, List, [], ◌∷◌, None};
ghost use Rattle.sm_base.specs.Numbers.{IsGeometry};
ghost use Rattle.sm_base.specs.declared.names.Name.{Name};
ghost use Rattle.sm_base.specs.declared.names.Name.TheVariants.{Coalesce, Relink};
ghost use Rattle.vg_meta.specs.Changes.{Permits, applied};
ghost use Rattle.vg_meta.specs.Tables.{VolumeTable, IsTable, rows};
ghost use Rattle.vg_meta.specs.declared.changes.Change.TheVariants.{Remove};
ghost use Rattle.sm_standing.specs.Checks.{PassesButLeaf, IsSoundButLeaf};
ghost use Rattle.sm_standing.specs.Contents.{Content};
ghost use Rattle.sm_standing.specs.Entries.{folding, is_folding, making};
ghost use Rattle.sm_standing.specs.Images.{image_of};
ghost use Rattle.sm_standing.specs.Keeping.{HasNoEmptySlot, HoldsWell, IsKept};
ghost use Rattle.sm_standing.specs.Opened.{linked_up, opened, undo_changes, undone};
ghost use Rattle.sm_standing.specs.Outlines.{Outline};
ghost use Rattle.sm_standing.specs.Plain.{IsSimple};
ghost use Rattle.sm_standing.specs.Standing.{disks};
ghost use Rattle.sm_standing.specs.Undone.{AllPermit, IsSameArea, IsUndoing};
ghost use Rattle.sm_standing.specs.Unfolded.{IsLinking, unfolded, unfolded_content};
ghost use Rattle.sm_standing.specs.Worlds.{with_table};

/// The entry of a copy or of a link, of which there is at most one, is taken away by a commit that is allowed: where all checks
/// pass and no leaf is being folded, so it is behind it too, of a content as of any outline in which no entry has an image, and no
/// such entry is left. Each image and each disk is as it was, and each other volume. What an opening makes of it is what it makes
/// of the content without the entry, with the children of a link linked past the image. What a stop leaves before the commit, and
/// what it leaves behind it, is kept, and shows the same disks.
pub fn law_unfolded()
    ensures one { (c : Content) → IsSoundButLeaf c
        → (folding c.table ≡ []) ⊎ ((child parent : List ℕ) × ((folding c.table ≡ Coalesce child parent ∷ []) ⊎ (folding c.table ≡ Relink child parent ∷ []))) }
    ensures permits { (c : Content) (e : Name) → folding c.table ≡ e ∷ [] → Permits c.count c.table (Remove e) }
    ensures commit { (c : Content) (e : Name) → folding c.table ≡ e ∷ [] → unfolded c.table ≡ applied c.table (Remove e) }
    ensures none { (c : Content) → folding c.table ≡ [] → unfolded c.table ≡ c.table }
    ensures sound { (c : Content) → IsSoundButLeaf c → IsTable c.count c.table → IsSoundButLeaf (unfolded_content c) }
    ensures simple { (c : Content) → IsSoundButLeaf c → IsTable c.count c.table → IsSimple (unfolded c.table) }
    ensures quiet { (c : Content) → IsSoundButLeaf c → IsTable c.count c.table → folding (unfolded c.table) ≡ [] }
    ensures making { (c : Content) → IsSoundButLeaf c → making (unfolded c.table) ≡ making c.table }
    ensures rows { (c : Content) → IsSoundButLeaf c → (n : Name) → is_folding n ≡ false → rows (unfolded c.table) n ≡ rows c.table n }
    ensures table { (c : Content) → IsSoundButLeaf c → IsTable c.count c.table → IsTable c.count (unfolded c.table) }
    ensures images { (c : Content) → IsSoundButLeaf c → (n : Name) → image_of (unfolded_content c) n ≡ image_of c n }
    ensures disks { (c : Content) → IsSoundButLeaf c → IsTable c.count c.table → disks (unfolded_content c) ≡ disks c }
    ensures holding { (c : Content) → IsSoundButLeaf c → HasNoEmptySlot c → HasNoEmptySlot (unfolded_content c) }
    ensures opened { (c : Content) → IsSoundButLeaf c → IsTable c.count c.table → opened c ≡ linked_up c.table (opened (unfolded_content c)) }
    ensures kept { (c : Content) → IsSoundButLeaf c → IsTable c.count c.table → IsGeometry c.extent c.block c.entries → HasNoEmptySlot c
        → (area : ℕ → List ℕ) → IsSameArea c area → IsKept (with_table c (unfolded c.table) area) }
    ensures shown { (c : Content) → IsSoundButLeaf c → IsTable c.count c.table → IsGeometry c.extent c.block c.entries
        → (area : ℕ → List ℕ) → IsSameArea c area → disks (with_table c (unfolded c.table) area) ≡ disks c }
    ensures still { (c : Content) → IsSoundButLeaf c → IsTable c.count c.table → IsGeometry c.extent c.block c.entries → HoldsWell c
        → (area : ℕ → List ℕ) → IsSameArea c area → IsKept (with_table c c.table area) }
    ensures still_shown { (c : Content) → IsSoundButLeaf c → IsTable c.count c.table → IsGeometry c.extent c.block c.entries
        → (area : ℕ → List ℕ) → IsSameArea c area → disks (with_table c c.table area) ≡ disks c }
    ensures outlined { (count : ℕ) (o : Outline) → ((n : Name) → is_folding n ≡ true → o.links n ≡ None) → IsTable count o.table → PassesButLeaf o
        → PassesButLeaf (record o { table = unfolded o.table }) }
{}

/// Under the entry of a link: the image and its parent are hidden and of one size. The changes that undo an enlargement or a fork
/// are allowed in their turn while the entry stands, and it stays; whatever a stop leaves of them is kept, and shows the same disks.
/// Behind them nothing is being made, and once the entry goes the same table is left as where it went before.
pub fn law_linking()
    ensures linked { (c : Content) → IsSoundButLeaf c → (child parent : List ℕ) → folding c.table ≡ Relink child parent ∷ [] → IsLinking c child parent }
    ensures permits { (c : Content) → IsSoundButLeaf c → IsTable c.count c.table → IsGeometry c.extent c.block c.entries
        → (child parent : List ℕ) → folding c.table ≡ Relink child parent ∷ [] → AllPermit c.count c.table (undo_changes c.table) }
    ensures tables { (c : Content) → IsSoundButLeaf c → IsTable c.count c.table → IsGeometry c.extent c.block c.entries
        → (child parent : List ℕ) → folding c.table ≡ Relink child parent ∷ [] → (w : VolumeTable) → IsUndoing c.table w → IsTable c.count w }
    ensures entry { (c : Content) → IsSoundButLeaf c → IsTable c.count c.table → IsGeometry c.extent c.block c.entries
        → (child parent : List ℕ) → folding c.table ≡ Relink child parent ∷ [] → (w : VolumeTable) → IsUndoing c.table w → folding w ≡ Relink child parent ∷ [] }
    ensures sound { (c : Content) → IsSoundButLeaf c → IsTable c.count c.table → IsGeometry c.extent c.block c.entries → HasNoEmptySlot c
        → (child parent : List ℕ) → folding c.table ≡ Relink child parent ∷ [] → (w : VolumeTable) (area : ℕ → List ℕ) → IsUndoing c.table w → IsSameArea c area
        → IsSoundButLeaf (with_table c w area) }
    ensures kept { (c : Content) → IsSoundButLeaf c → IsTable c.count c.table → IsGeometry c.extent c.block c.entries → HoldsWell c
        → (child parent : List ℕ) → folding c.table ≡ Relink child parent ∷ [] → (w : VolumeTable) (area : ℕ → List ℕ) → IsUndoing c.table w → IsSameArea c area
        → IsKept (with_table c w area) }
    ensures shown { (c : Content) → IsSoundButLeaf c → IsTable c.count c.table → IsGeometry c.extent c.block c.entries
        → (child parent : List ℕ) → folding c.table ≡ Relink child parent ∷ [] → (w : VolumeTable) (area : ℕ → List ℕ) → IsUndoing c.table w → IsSameArea c area
        → disks (with_table c w area) ≡ disks c }
    ensures quiet { (c : Content) → IsSoundButLeaf c → IsTable c.count c.table → IsGeometry c.extent c.block c.entries
        → (child parent : List ℕ) → folding c.table ≡ Relink child parent ∷ [] → making (undone c.table) ≡ [] }
    ensures unfolded { (c : Content) → IsSoundButLeaf c → IsTable c.count c.table → IsGeometry c.extent c.block c.entries
        → (child parent : List ℕ) → folding c.table ≡ Relink child parent ∷ [] → unfolded (undone c.table) ≡ undone (unfolded c.table) }
{}
