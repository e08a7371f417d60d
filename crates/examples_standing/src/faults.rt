//! Worked faults: for each check of an opening from the sixth on, contents that fail it. Places are those that the answer
//! names. The premises say what images and records are read.

ghost use Rattle.std.specs.Prelude.{◌≡◌, ◌<◌, ◌≤◌, ◌∷◌, [], ℕ, List, length, None, Some, false, true, replicate};
ghost use Rattle.std.specs.List.{filter};
ghost use Rattle.sm_base.specs.declared.faults.Place.TheVariants as at;
ghost use Rattle.sm_base.specs.declared.names.Name.TheVariants.{Mgt, Vhd, Raw, Old, Clone, Inflate, Coalesce, Relink, Leaf};
ghost use Rattle.sm_disk.specs.Sectors.{zeros};
ghost use Rattle.sm_record.specs.declared.records.Record.{Record};
ghost use Rattle.sm_standing.specs.Checks.{record_volume_fault, too_many_fault, misnamed_fault, second_entry_fault, lost_entry_fault, old_leaf_fault, invalid_fault, tree_fault, entry_link_fault, is_damaged, record_fault, disk_fault};
ghost use Rattle.sm_standing.specs.Outlines.{outline};
ghost use Rattle.sm_standing.specs.Contents.{Content, record_count, reading_at, records, is_record_of};
ghost use Rattle.examples_standing.specs.SmallContents.{one, two, three, four, shown_row, hidden_row, sized_row, crowd, base_of, content_in, content_on, empty_content};
ghost use Rattle.examples_standing.specs.FaultyContents as content;
ghost use Rattle.examples_standing.specs.SmallTables as table;
ghost use Rattle.sm_standing.specs.Images.{Image, image_of};

/// The volume of records is not there, or has an extent too few or too many.
pub fn example_record_volume()
    ensures gone { (area : ℕ → List ℕ) → record_volume_fault (outline (content_on [] area)) ≡ Some at.Mgt }
    ensures few { (extents : List ℕ) → length extents ≡ 15 → record_volume_fault (outline (empty_content extents)) ≡ Some at.Mgt }
    ensures many { (extents : List ℕ) → length extents ≡ 17 → record_volume_fault (outline (empty_content extents)) ≡ Some at.Mgt }
    ensures right { (extents : List ℕ) → length extents ≡ 16 → record_volume_fault (outline (empty_content extents)) ≡ None }
{}

/// 500 images are the most.
pub fn example_too_many()
    ensures many { (area : ℕ → List ℕ) → too_many_fault (outline (content_on (crowd 501) area)) ≡ Some at.Images }
    ensures most { (area : ℕ → List ℕ) → too_many_fault (outline (content_on (crowd 500) area)) ≡ None }
{}

/// Two images have one UUID, or a base image the number that the next commit takes: the first by name is named.
pub fn example_misnamed()
    ensures twin { (area : ℕ → List ℕ) → misnamed_fault (outline (content_on (shown_row (Raw one) ∷ shown_row (Vhd one) ∷ []) area)) ≡ Some (at.Image (Raw one)) }
    ensures ahead { (area : ℕ → List ℕ) → misnamed_fault (outline (content_on (hidden_row (Vhd (base_of 6)) ∷ []) area)) ≡ Some (at.Image (Vhd (base_of 6))) }
    ensures past { (area : ℕ → List ℕ) → misnamed_fault (outline (content_on (hidden_row (Vhd (base_of 5)) ∷ []) area)) ≡ None }
{}

/// Two entries of one group: the second is named. One of each group may stand.
pub fn example_second_entry()
    ensures folding { (area : ℕ → List ℕ) → second_entry_fault (outline (content_on (shown_row (Coalesce one two) ∷ shown_row (Leaf three four) ∷ []) area)) ≡ Some (at.Journal (Leaf three four)) }
    ensures making { (area : ℕ → List ℕ) → second_entry_fault (outline (content_on (shown_row (Clone one two three) ∷ shown_row (Inflate four 1) ∷ []) area)) ≡ Some (at.Journal (Inflate four 1)) }
    ensures one_of_each { (area : ℕ → List ℕ) → second_entry_fault (outline (content_on (shown_row (Clone one two three) ∷ shown_row (Relink four one) ∷ []) area)) ≡ None }
{}

/// An entry stands at no stage, speaks of a base that is still to be made, or forks what another entry speaks of.
pub fn example_lost_entry()
    ensures alone { (area : ℕ → List ℕ) → lost_entry_fault (outline (content_on (shown_row (Relink one two) ∷ []) area)) ≡ Some (at.Journal (Relink one two)) }
    ensures ahead { (area : ℕ → List ℕ) → lost_entry_fault (outline (content_on (hidden_row (Vhd (base_of 6)) ∷ hidden_row (Vhd three) ∷ shown_row (Relink (base_of 6) three) ∷ []) area)) ≡ Some (at.Journal (Relink (base_of 6) three)) }
    ensures past { (area : ℕ → List ℕ) → lost_entry_fault (outline (content_on (hidden_row (Vhd (base_of 5)) ∷ hidden_row (Vhd three) ∷ shown_row (Relink (base_of 5) three) ∷ []) area)) ≡ None }
    ensures beside { (area : ℕ → List ℕ) → lost_entry_fault (outline (content_on (shown_row (Vhd one) ∷ hidden_row (Vhd two) ∷ shown_row (Clone one three four) ∷ shown_row (Leaf one two) ∷ []) area)) ≡ Some (at.Journal (Clone one three four)) }
    ensures apart { (area : ℕ → List ℕ) → lost_entry_fault (outline (content_in table.leaf_renamed area)) ≡ None }
    ensures old_leaf { (area : ℕ → List ℕ) → lost_entry_fault (outline (content_on (shown_row (Old one) ∷ shown_row (Clone one two three) ∷ []) area)) ≡ None }
{}

/// An old leaf of no swap that is under way. A fork that has begun takes it for the disk's image, so the leaf is named and
/// not the fork's entry.
pub fn example_old_leaf()
    ensures forked { (area : ℕ → List ℕ) → old_leaf_fault (outline (content_on (shown_row (Old one) ∷ shown_row (Clone one two three) ∷ []) area)) ≡ Some (at.Image (Old one)) }
    ensures alone { (area : ℕ → List ℕ) → old_leaf_fault (outline (content_on (shown_row (Old one) ∷ []) area)) ≡ Some (at.Image (Old one)) }
    ensures other { (area : ℕ → List ℕ) → old_leaf_fault (outline (content_on (shown_row (Old one) ∷ shown_row (Old three) ∷ hidden_row (Vhd two) ∷ shown_row (Leaf one two) ∷ []) area)) ≡ Some (at.Image (Old three)) }
    ensures copied { (area : ℕ → List ℕ) → old_leaf_fault (outline (content_on (shown_row (Old one) ∷ shown_row (Vhd one) ∷ hidden_row (Vhd two) ∷ shown_row (Leaf one two) ∷ []) area)) ≡ Some (at.Image (Old one)) }
    ensures renamed { (area : ℕ → List ℕ) → old_leaf_fault (outline (content_in table.leaf_renamed area)) ≡ None }
    ensures swapped { (area : ℕ → List ℕ) → old_leaf_fault (outline (content_in table.leaf_swapped area)) ≡ None }
{}

/// A raw image of a block more than a table has entries, unless it is new, and a volume that holds no valid image.
pub fn example_invalid()
    ensures oversize { (area : ℕ → List ℕ) → invalid_fault (outline (content_on (sized_row false (Raw one) (0 ∷ 1 ∷ 2 ∷ 3 ∷ 4 ∷ []) ∷ []) area)) ≡ Some (at.Image (Raw one)) }
    ensures largest { (area : ℕ → List ℕ) → invalid_fault (outline (content_on (sized_row false (Raw one) (0 ∷ 1 ∷ 2 ∷ 3 ∷ []) ∷ []) area)) ≡ None }
    ensures fresh { (area : ℕ → List ℕ) → invalid_fault (outline (content_on (sized_row true (Raw one) (0 ∷ 1 ∷ 2 ∷ 3 ∷ 4 ∷ []) ∷ []) area)) ≡ None }
    ensures unreadable { (area : ℕ → List ℕ) → image_of (content.lone_image area) (Vhd one) ≡ None → invalid_fault (outline (content.lone_image area)) ≡ Some (at.Image (Vhd one)) }
    ensures readable { (area : ℕ → List ℕ) → (i : Image) → image_of (content.lone_image area) (Vhd one) ≡ Some i → invalid_fault (outline (content.lone_image area)) ≡ None }
{}

/// A parent is not there, or is larger; a visible image has a child; a chain has no end.
pub fn example_tree()
    ensures parent_gone { (area : ℕ → List ℕ) → (i : Image) → image_of (content.lone_image area) (Vhd one) ≡ Some i → i.parent ≡ Some (Vhd two) → tree_fault (outline (content.lone_image area)) ≡ Some (at.Tree (Vhd one)) }
    ensures parent_larger { (area : ℕ → List ℕ) → (i j : Image) → image_of (content.child_and_parent area) (Vhd one) ≡ Some i → i.parent ≡ Some (Vhd two) → image_of (content.child_and_parent area) (Vhd two) ≡ Some j → i.size < j.size → tree_fault (outline (content.child_and_parent area)) ≡ Some (at.Tree (Vhd one)) }
    ensures visible_parent { (area : ℕ → List ℕ) → (j : Image) → (i : Image) → image_of (content.child_and_parent area) (Vhd one) ≡ Some i → image_of (content.child_and_parent area) (Vhd two) ≡ Some j → j.parent ≡ Some (Vhd one) → tree_fault (outline (content.child_and_parent area)) ≡ Some (at.Tree (Vhd one)) }
    ensures endless { (area : ℕ → List ℕ) → (i j : Image) → image_of (content.two_hidden area) (Vhd one) ≡ Some i → i.parent ≡ Some (Vhd two) → image_of (content.two_hidden area) (Vhd two) ≡ Some j → j.parent ≡ Some (Vhd one) → tree_fault (outline (content.two_hidden area)) ≡ Some (at.Tree (Vhd one)) }
    ensures right { (area : ℕ → List ℕ) (i j : Image) → image_of (content.child_and_parent area) (Vhd one) ≡ Some i → i.parent ≡ Some (Vhd two) → image_of (content.child_and_parent area) (Vhd two) ≡ Some j → j.parent ≡ None → j.size ≤ i.size → tree_fault (outline (content.child_and_parent area)) ≡ None }
{}

/// The entry of a copy whose image has no parent, or whose parent has another child.
pub fn example_entry_link()
    ensures orphan { (area : ℕ → List ℕ) → (i : Image) → image_of (content.copied_alone area) (Vhd two) ≡ Some i → i.parent ≡ None → entry_link_fault (outline (content.copied_alone area)) ≡ Some (at.Journal table.coalesce) }
    ensures other_child { (area : ℕ → List ℕ) → (i j : Image) → image_of (content.copied_beside area) (Vhd two) ≡ Some i → i.parent ≡ Some (Vhd three) → image_of (content.copied_beside area) (Vhd four) ≡ Some j → j.parent ≡ Some (Vhd three) → entry_link_fault (outline (content.copied_beside area)) ≡ Some (at.Journal table.coalesce) }
    ensures right { (area : ℕ → List ℕ) (i j : Image) → image_of (content.copied_alone area) (Vhd two) ≡ Some i → i.parent ≡ Some (Vhd three) → image_of (content.copied_alone area) (Vhd three) ≡ Some j → j.parent ≡ None → entry_link_fault (outline (content.copied_alone area)) ≡ None }
{}

/// The entry of a relink whose parent is smaller than the image.
pub fn example_relink_link()
    ensures { (area : ℕ → List ℕ) → (i j : Image) → image_of (content.left_alone area) (Vhd two) ≡ Some i → i.parent ≡ Some (Vhd three) → image_of (content.left_alone area) (Vhd three) ≡ Some j → j.size < i.size → entry_link_fault (outline (content.left_alone area)) ≡ Some (at.Journal table.relink) }
{}

/// The entry of a leaf whose parent has another child, at each stage that has a parent.
pub fn example_leaf_link()
    ensures copied { (area : ℕ → List ℕ) → (i j : Image) → image_of (content.leaf_beside area) (Vhd one) ≡ Some i → i.parent ≡ Some (Vhd two) → image_of (content.leaf_beside area) (Vhd three) ≡ Some j → j.parent ≡ Some (Vhd two) → entry_link_fault (outline (content.leaf_beside area)) ≡ Some (at.Journal table.leaf) }
    ensures orphan { (area : ℕ → List ℕ) → (i : Image) → image_of (content.leaf_beside area) (Vhd one) ≡ Some i → i.parent ≡ None → entry_link_fault (outline (content.leaf_beside area)) ≡ Some (at.Journal table.leaf) }
    ensures renamed { (area : ℕ → List ℕ) → (j : Image) → image_of (content.renamed_beside area) (Vhd three) ≡ Some j → j.parent ≡ Some (Vhd two) → entry_link_fault (outline (content.renamed_beside area)) ≡ Some (at.Journal table.leaf) }
    ensures swapped { (area : ℕ → List ℕ) → (j : Image) → image_of (content.swapped_beside area) (Vhd three) ≡ Some j → j.parent ≡ Some (Vhd one) → entry_link_fault (outline (content.swapped_beside area)) ≡ Some (at.Journal table.leaf) }
    ensures alone { (area : ℕ → List ℕ) (i : Image) → image_of (content.renamed_alone area) (Vhd two) ≡ Some i → i.parent ≡ None → entry_link_fault (outline (content.renamed_alone area)) ≡ None }
{}

/// The entry of a fork whose disk has a new image that is not over the base, or whose base has another child.
pub fn example_fork_link()
    ensures elsewhere { (area : ℕ → List ℕ) → (i : Image) → image_of (content.fork_filled area) (Vhd one) ≡ Some i → i.parent ≡ None → entry_link_fault (outline (content.fork_filled area)) ≡ Some (at.Journal table.fork) }
    ensures other_child { (area : ℕ → List ℕ) → (j : Image) → image_of (content.fork_beside area) (Vhd four) ≡ Some j → j.parent ≡ Some (Vhd three) → entry_link_fault (outline (content.fork_beside area)) ≡ Some (at.Journal table.fork) }
    ensures alone { (area : ℕ → List ℕ) (i : Image) → image_of (content.fork_alone area) (Vhd three) ≡ Some i → i.parent ≡ None → entry_link_fault (outline (content.fork_alone area)) ≡ None }
{}

/// The first record sector that is damaged.
pub fn example_record()
    ensures first { (c : Content) (k : ℕ) → k < record_count → is_damaged (reading_at c k) ≡ true → ((j : ℕ) → j < k → is_damaged (reading_at c j) ≡ false) → record_fault (outline c) ≡ Some (at.Record k) }
    ensures none { (c : Content) → ((j : ℕ) → j < record_count → is_damaged (reading_at c j) ≡ false) → record_fault (outline c) ≡ None }
    ensures all { record_fault (outline (content_on (sized_row false (Mgt) (0 ∷ []) ∷ []) (λ p. 1 ∷ replicate 511 0))) ≡ Some (at.Record 0) }
{}

/// A disk without a record of its UUID, or with two; the first by UUID is named.
pub fn example_disk()
    ensures none { (area : ℕ → List ℕ) → filter (is_record_of one) (records (content_on (shown_row (Raw one) ∷ []) area)) ≡ [] → disk_fault (outline (content_on (shown_row (Raw one) ∷ []) area)) ≡ Some (at.Disk one) }
    ensures two { (area : ℕ → List ℕ) → (r s : Record) → filter (is_record_of one) (records (content_on (shown_row (Raw one) ∷ []) area)) ≡ r ∷ s ∷ [] → disk_fault (outline (content_on (shown_row (Raw one) ∷ []) area)) ≡ Some (at.Disk one) }
    ensures once { (area : ℕ → List ℕ) → (r : Record) → filter (is_record_of one) (records (content_on (shown_row (Raw one) ∷ []) area)) ≡ r ∷ [] → disk_fault (outline (content_on (shown_row (Raw one) ∷ []) area)) ≡ None }
    ensures first { (area : ℕ → List ℕ) → filter (is_record_of one) (records (content_on (shown_row (Vhd two) ∷ shown_row (Raw one) ∷ []) area)) ≡ [] → disk_fault (outline (content_on (shown_row (Vhd two) ∷ shown_row (Raw one) ∷ []) area)) ≡ Some (at.Disk one) }
    ensures unrecorded { disk_fault (outline (content_on (shown_row (Raw one) ∷ []) (λ p. zeros))) ≡ Some (at.Disk one) }
{}
