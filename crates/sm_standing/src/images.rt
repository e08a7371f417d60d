//! Laws of images in a content: short chains, and what a change of one image does to reads and disks.

ghost use Rattle.std.specs.Prelude.{◌≡◌, ℕ, suc, ◌<◌, ◌≤◌, List, Some, None, true};
ghost use Rattle.sm_base.specs.declared.names.Name.{Name};
ghost use Rattle.sm_base.specs.declared.names.Name.TheVariants.{Old};
ghost use Rattle.sm_disk.specs.Sectors.{zeros};
ghost use Rattle.vg_meta.specs.Tables.{Row};
ghost use Rattle.sm_standing.specs.Changes.{turns_of, IsShortChain, IsCopied, IsRaised, IsMoved, IsRemoved, IsLinkedUp, renamed_parent};
ghost use Rattle.sm_standing.specs.Checks.{chain_length, depth};
ghost use Rattle.sm_standing.specs.Outlines.{Outline, Link, parent_in};
ghost use Rattle.sm_standing.specs.Contents.{Content, row};
ghost use Rattle.sm_standing.specs.Images.{Image, image_of, image_reads};
ghost use Rattle.sm_standing.specs.Standing.{disks, disk_at};
ghost use Rattle.sm_standing.specs.Answering.{Reads};

/// An old leaf holds no image, nor does a volume that is new.
pub fn law_no_image()
    ensures old { (c : Content) (u : List ℕ) → image_of c (Old u) ≡ None }
    ensures fresh { (c : Content) (n : Name) (r : Row) → row c n ≡ Some r → r.fresh ≡ true → image_of c n ≡ None }
{}

/// What is read of an image at a sector: what it holds; else what its parent reads, zeros without one; and
/// zeros past its own size.
pub fn law_read()
    ensures held { (c : Content) (n : Name) (i : Image) (s : ℕ) (bytes : List ℕ) → image_of c n ≡ Some i → s < i.size → i.own s ≡ Some bytes → image_reads c n s ≡ bytes }
    ensures parent { (c : Content) (n p : Name) (i : Image) (s : ℕ) → image_of c n ≡ Some i → s < i.size → i.own s ≡ None → i.parent ≡ Some p → IsShortChain c n → image_reads c n s ≡ image_reads c p s }
    ensures top { (c : Content) (n : Name) (i : Image) (s : ℕ) → image_of c n ≡ Some i → i.own s ≡ None → i.parent ≡ None → image_reads c n s ≡ zeros }
    ensures past { (c : Content) (n : Name) (i : Image) (s : ℕ) → image_of c n ≡ Some i → i.size ≤ s → image_reads c n s ≡ zeros }
{}

/// Where a chain has at most 30 images, the walk of 30 and the reading by turns without a bound agree.
pub fn law_short_chain()
    ensures some { (c : Content) (n : Name) (s : ℕ) → IsShortChain c n → Reads (turns_of c s) n (image_reads c n s) }
    ensures only { (c : Content) (n : Name) (s : ℕ) (bytes : List ℕ) → IsShortChain c n → Reads (turns_of c s) n bytes → bytes ≡ image_reads c n s }
{}

/// The number of images of a chain: none where there is no image, one where it has no parent, else one more than from the
/// parent up. A parent that is not there is not counted, though it is one of the names that `depth` counts.
pub fn law_chain_length()
    ensures none { (o : Outline) (k : ℕ) (n : Name) → o.links n ≡ None → chain_length o k n ≡ 0 }
    ensures one { (o : Outline) (k : ℕ) (n : Name) (i : Link) → o.links n ≡ Some i → i.parent ≡ None → chain_length o (suc k) n ≡ 1 }
    ensures more { (o : Outline) (k : ℕ) (n p : Name) (i : Link) → o.links n ≡ Some i → i.parent ≡ Some p → chain_length o (suc k) n ≡ suc (chain_length o k p) }
    ensures missing { (o : Outline) (k : ℕ) (n p : Name) (i : Link) → o.links n ≡ Some i → i.parent ≡ Some p → o.links p ≡ None → chain_length o (suc k) n ≡ 1 }
    ensures top { (o : Outline) (k : ℕ) (n : Name) → parent_in o n ≡ None → depth o (suc k) n ≡ 1 }
    ensures up { (o : Outline) (k : ℕ) (n p : Name) → parent_in o n ≡ Some p → depth o (suc k) n ≡ suc (depth o k p) }
{}

/// Under other names a chain is as long, and where images are linked past one to its parent it is no longer:
/// chains stay short.
pub fn law_chain_kept()
    ensures renamed { (rename : Name → Name) (a b : Outline) → ((n : Name) → parent_in b (rename n) ≡ renamed_parent rename (parent_in a n))
        → (k : ℕ) (n : Name) → depth b k (rename n) ≡ depth a k n }
    ensures relinked { (a b : Outline) → IsLinkedUp a b → (k : ℕ) (n : Name) → depth b k n ≤ depth a k n }
{}

/// Where a parent of the same size holds alike whatever its child holds, both read alike. An empty image over a
/// base is such a child, and so is an image that was copied into its parent.
pub fn law_copied()
    ensures { (c : Content) (n p : Name) (i q : Image) → IsCopied c n p i q → IsShortChain c n → (s : ℕ) → s < i.size → image_reads c n s ≡ image_reads c p s }
{}

/// An image grows that holds nothing past its old size, over a parent that is not larger: each image reads as before,
/// and the new sectors are zeros.
pub fn law_raised()
    ensures same { (a b : Content) (x : Name) (i j : Image) → IsRaised a b x i j → (n : Name) (s : ℕ) → image_reads b n s ≡ image_reads a n s }
    ensures zeros { (a b : Content) (x : Name) (i j : Image) → IsRaised a b x i j → (s : ℕ) → i.size ≤ s → image_reads b x s ≡ zeros }
{}

/// A disk that stands in another image of the same size that reads the same is the same disk.
///
/// Each commit that a fork or a swap makes is an instance, or leaves the standing volume as it is. A fork moves the
/// disk from its image to the base, which is that image under another name, and from the base to a new image that
/// holds nothing. A swap moves it from the leaf to the parent into which the leaf was copied, and from the parent to
/// the same image under the leaf's name. Undoing a fork moves it from the base to the same image under the disk's
/// name, and ending a swap does what the swap does.
pub fn law_moved()
    ensures { (a b : Content) (u : List ℕ) (n m : Name) (i j : Image) → IsMoved a b u n m i j → disk_at b u ≡ disk_at a u }
{}

/// A hidden image that is nobody's parent goes, while no entry is there: all disks are as before.
pub fn law_removed()
    ensures { (a b : Content) (x : Name) (was : Row) → IsRemoved a b x was → disks b ≡ disks a }
{}
