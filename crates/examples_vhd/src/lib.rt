//! Images that the definitions of `vhd_layout` accept and refuse: the first disk of 64 KiB of a repository with
//! extents of 16 KiB, blocks of 4 KiB and 64 entries, in five extents, which are 160 sectors; and for each rule
//! images that break it alone.
//!
//! Kept here: no code that runs, and nothing but more examples stands on this crate. Each example is the contract
//! of a function that does nothing. The images are in `specs/SmallImages`.
#![tactic(auto)]

ghost use Rattle.std.specs.Prelude.{◌≡◌, ◌≤◌, ◌*◌, ℕ, true, false, Some, None, [], ◌∷◌, ◌++◌, replicate};
ghost use Rattle.vhd_layout.specs.Contents.{size_at, parent_at, own, raw_content, content_at};
ghost use Rattle.examples_vhd.specs.SmallImages.{zeros, table_of, empty, volume, footer_sector, header_sector, fresh_image, written_slots, written_table, written_image, footer_of_kind, footer_of_size, with_footer, header_of, with_header, with_table};
ghost use Rattle.vhd_layout.specs.Images.{EachSlotHolds, IsValid, IsValidRaw};
ghost use Rattle.vhd_layout.specs.Layouts.{Sectors};
ghost use Rattle.vhd_layout.specs.Readings.{is_valid, image_at};

/// The image as it was made.
pub fn fresh()
    ensures valid { IsValid 8 64 160 fresh_image }
    ensures size { size_at 160 fresh_image ≡ 128 }
    ensures parent { parent_at fresh_image ≡ None }
{}

/// The image after sectors 7 and 8 were written: it holds these two and no other.
pub fn written()
    ensures valid { IsValid 8 64 160 written_image }
    ensures holds { EachSlotHolds 8 64 written_image }
    ensures before { own 8 128 written_image 6 ≡ None }
    ensures last_of_a_block { own 8 128 written_image 7 ≡ Some (replicate 512 171) }
    ensures first_of_a_block { own 8 128 written_image 8 ≡ Some (replicate 512 171) }
    ensures behind { own 8 128 written_image 9 ≡ None }
    ensures without_slot { own 8 128 written_image 16 ≡ None }
    ensures past_the_size { own 8 128 written_image 128 ≡ None }
{}

/// The copy in sector 0 serves where the last sector is no footer; where that is one, it alone counts.
pub fn copies()
    ensures served { IsValid 8 64 160 (volume footer_sector header_sector (table_of []) empty zeros) }
    ensures old { IsValid 8 64 160
        (volume (footer_of_size 32768) header_sector (table_of []) empty footer_sector) }
    ensures size { size_at 160
        (volume (footer_of_size 32768) header_sector (table_of []) empty footer_sector) ≡ 128 }
{}

/// No footer reads; the disk is a fixed one; its size is no whole number of blocks, or of more blocks than the
/// table has entries.
pub fn broken_footers()
    ensures none { ¬ IsValid 8 64 160 (with_footer zeros) }
    ensures fixed { ¬ IsValid 8 64 160 (with_footer (footer_of_kind 2)) }
    ensures part_of_a_block { ¬ IsValid 8 64 160 (with_footer (footer_of_size 66048)) }
    ensures too_many_blocks { ¬ IsValid 8 64 160 (with_footer (footer_of_size 266240)) }
{}

/// No header reads; the table begins elsewhere; the number of entries or the size of a block is not the
/// repository's; the disk is a differencing one and has no parent.
pub fn broken_headers()
    ensures none { ¬ IsValid 8 64 160 (with_header zeros) }
    ensures table_offset { ¬ IsValid 8 64 160 (with_header (header_of 2048 64 4096)) }
    ensures entries { ¬ IsValid 8 64 160 (with_header (header_of 1536 63 4096)) }
    ensures block { ¬ IsValid 8 64 160 (with_header (header_of 1536 64 8192)) }
    ensures parent { ¬ IsValid 8 64 160 (with_footer (footer_of_kind 4)) }
{}

/// An entry names a sector at which no slot begins; two entries name one slot; a block past the size has a
/// slot; a slot has no room in front of the footer; an entry past the last block is not blank.
pub fn broken_tables()
    ensures between_slots { ¬ IsValid 8 64 160 (with_table (0 ∷ 0 ∷ 0 ∷ 5 ∷ [])) }
    ensures twice { ¬ IsValid 8 64 160 (with_table (0 ∷ 0 ∷ 0 ∷ 4 ∷ 0 ∷ 0 ∷ 0 ∷ 4 ∷ [])) }
    ensures past_the_size { ¬ IsValid 8 64 160 (with_table (replicate 64 255 ++ 0 ∷ 0 ∷ 0 ∷ 4 ∷ [])) }
    ensures past_the_slots { ¬ IsValid 8 64 160 (with_table (0 ∷ 0 ∷ 0 ∷ 157 ∷ [])) }
    ensures past_the_entries { ¬ IsValid 8 64 160 (with_table (replicate 256 255 ++ 0 ∷ 0 ∷ 0 ∷ 0 ∷ [])) }
{}

/// Nothing has room behind the table, not even the footer.
pub fn no_room()
    ensures { (v : Sectors) → ¬ IsValid 8 64 4 v }
{}

/// A raw image of two extents holds each sector of its volume and no other, and has no parent.
pub fn raw()
    ensures valid { IsValidRaw 8 64 64 }
    ensures too_large { ¬ IsValidRaw 8 64 544 }
    ensures parent { (v : Sectors) → (raw_content 64 v).parent ≡ None }
    ensures last { (v : Sectors) → (raw_content 64 v).own 63 ≡ Some (v 63) }
    ensures behind { (v : Sectors) → (raw_content 64 v).own 64 ≡ None }
{}

/// The test of a volume, and what the written image says: 16 blocks, of which the first two have slots 0 and 1.
pub fn reading()
    ensures test { is_valid 8 64 160 written_image ≡ true }
    ensures broken { is_valid 8 64 160 (with_table (0 ∷ 0 ∷ 0 ∷ 5 ∷ [])) ≡ false }
    ensures slots { (content_at 8 64 160 written_image).slots ≡ Some 0 ∷ Some 1 ∷ replicate 62 None }
    ensures image { image_at 8 64 160 written_image ≡ Some (content_at 8 64 160 written_image) }
{}
