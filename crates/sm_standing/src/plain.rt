//! Laws of a repository in which nothing is under way, and of one in which an image is being enlarged or a disk is being forked,
//! and what is left when that is undone. Its images are VHD and raw ones, visible and hidden, with parents and without.

ghost use Rattle.std.specs.Prelude.{◌≡◌, ◌≤◌, ℕ, List, [], ◌∷◌, length, None};
ghost use Rattle.sm_base.specs.Numbers.{IsGeometry};
ghost use Rattle.sm_base.specs.declared.names.Name.{Name};
ghost use Rattle.sm_base.specs.declared.names.Name.TheVariants.{Clone};
ghost use Rattle.vg_meta.specs.Tables.{VolumeTable, IsTable, rows};
ghost use Rattle.sm_standing.specs.Checks.{first_fault, IsSoundButLeaf};
ghost use Rattle.sm_standing.specs.Contents.{Content};
ghost use Rattle.sm_standing.specs.Entries.{folding, making};
ghost use Rattle.sm_standing.specs.Images.{image_of};
ghost use Rattle.sm_standing.specs.Keeping.{HasNoEmptySlot, HoldsWell, IsKept};
ghost use Rattle.sm_standing.specs.Opened.{opened, undo_changes, undone};
ghost use Rattle.sm_standing.specs.Plain.{IsKnown, IsSimple};
ghost use Rattle.sm_standing.specs.PlainSound.{PlainSound, SimpleSound};
ghost use Rattle.sm_standing.specs.Standing.{disks};
ghost use Rattle.sm_standing.specs.Undone.{AllPermit, IsSameArea, IsUndoing, image_back, row_back, undone_content};
ghost use Rattle.sm_standing.specs.Worlds.{with_table};

/// Where the facts hold that make such a repository sound, it is sound; and kept where no slot is empty.
pub fn law_plain_kept()
    ensures sound { (c : Content) → PlainSound c → first_fault c ≡ None }
    ensures kept { (c : Content) → PlainSound c → HasNoEmptySlot c → IsKept c }
{}

/// Where all checks pass and no leaf is being folded, no old leaf is there; where no entry of a copy or a link is there either,
/// at most one image is being enlarged or one disk is being forked; and where neither is, nothing is under way.
pub fn law_but_leaf()
    ensures known { (c : Content) → IsSoundButLeaf c → IsKnown c.table }
    ensures facts { (c : Content) → IsSoundButLeaf c → folding c.table ≡ [] → SimpleSound c }
    ensures kept { (c : Content) → IsSoundButLeaf c → HoldsWell c → IsKept c }
    ensures plain { (c : Content) → IsSoundButLeaf c → making c.table ≡ [] → folding c.table ≡ [] → PlainSound c }
    ensures back { (c : Content) → first_fault c ≡ None → IsKnown c.table → IsSoundButLeaf c }
    ensures well { (c : Content) → IsSimple c.table → HasNoEmptySlot c → HoldsWell c }
{}

/// Where no entry of a copy or a link is there: an enlargement or a fork that a stop has cut short is undone by at most five commits, each of which is allowed in its turn.
/// Where all checks pass and no leaf is being folded, nothing is under way without it, and all is sound; each image is as it was, that of a fork's
/// base under the disk's name again, and each disk too, and an opening makes the same shape. Whatever a stop leaves of the
/// commits is kept, where no slot is empty, and shows the same disks.
pub fn law_undone()
    ensures sound { (c : Content) → IsSoundButLeaf c → folding c.table ≡ [] → IsTable c.count c.table → IsGeometry c.extent c.block c.entries → PlainSound (undone_content c) }
    ensures images { (c : Content) → IsSoundButLeaf c → folding c.table ≡ [] → IsTable c.count c.table → IsGeometry c.extent c.block c.entries
        → (n : Name) → image_of (undone_content c) n ≡ image_back c n }
    ensures rows { (c : Content) → IsSoundButLeaf c → folding c.table ≡ [] → IsTable c.count c.table → IsGeometry c.extent c.block c.entries
        → (disk base twin : List ℕ) → making c.table ≡ Clone disk base twin ∷ [] → (n : Name) → rows (undone c.table) n ≡ row_back c.table n }
    ensures disks { (c : Content) → IsSoundButLeaf c → folding c.table ≡ [] → IsTable c.count c.table → IsGeometry c.extent c.block c.entries → disks (undone_content c) ≡ disks c }
    ensures opened { (c : Content) → IsSoundButLeaf c → folding c.table ≡ [] → IsTable c.count c.table → IsGeometry c.extent c.block c.entries → opened (undone_content c) ≡ opened c }
    ensures holding { (c : Content) → IsSoundButLeaf c → folding c.table ≡ [] → IsTable c.count c.table → IsGeometry c.extent c.block c.entries
        → HasNoEmptySlot c → HasNoEmptySlot (undone_content c) }
    ensures table { (c : Content) → IsSoundButLeaf c → folding c.table ≡ [] → IsTable c.count c.table → IsGeometry c.extent c.block c.entries → IsTable c.count (undone c.table) }
    ensures few { (t : VolumeTable) → length (undo_changes t) ≤ 5 }
    ensures permits { (c : Content) → IsSoundButLeaf c → folding c.table ≡ [] → IsTable c.count c.table → IsGeometry c.extent c.block c.entries
        → AllPermit c.count c.table (undo_changes c.table) }
    ensures tables { (c : Content) → IsSoundButLeaf c → folding c.table ≡ [] → IsTable c.count c.table → IsGeometry c.extent c.block c.entries
        → (v : VolumeTable) → IsUndoing c.table v → IsTable c.count v }
    ensures kept { (c : Content) → IsSoundButLeaf c → folding c.table ≡ [] → IsTable c.count c.table → IsGeometry c.extent c.block c.entries → HasNoEmptySlot c
        → (v : VolumeTable) (area : ℕ → List ℕ) → IsUndoing c.table v → IsSameArea c area → IsKept (with_table c v area) }
    ensures shown { (c : Content) → IsSoundButLeaf c → folding c.table ≡ [] → IsTable c.count c.table → IsGeometry c.extent c.block c.entries
        → (v : VolumeTable) (area : ℕ → List ℕ) → IsUndoing c.table v → IsSameArea c area → disks (with_table c v area) ≡ disks c }
{}
