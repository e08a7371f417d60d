//! Laws of a table's text by its two grammars.

ghost use Rattle.std.specs.Prelude.{◌≡◌, ◌≤◌, ◌+◌, ◌*◌, ◌^◌, ◌∷◌, [], ℕ, List, length, sum, filter, not};
ghost use Rattle.sm_base.specs.Kinds.{is_image};
ghost use Rattle.vg_meta.specs.Reading.{SpellsBy};
ghost use Rattle.vg_meta.specs.Segments.{Segment, AreMaximal, segments, spread_all};
ghost use Rattle.vg_meta.specs.Tables.{VolumeTable, IsTable, new_table, used};
ghost use Rattle.vg_meta.specs.Text.{text_by};
ghost use Rattle.vg_meta.specs.declared.grammars.Grammar.{Grammar};
ghost use Rattle.vg_meta.specs.declared.grammars.Grammar.TheVariants.{Listed, Segmented};

/// By either grammar a table has one spelling, and bytes spell one table at most.
pub fn law_one_spelling()
    ensures bytes { (g : Grammar) (count : ℕ) (a b : List ℕ) (t : VolumeTable) → SpellsBy g count a t → SpellsBy g count b t → a ≡ b }
    ensures table { (g : Grammar) (count : ℕ) (bytes : List ℕ) (t u : VolumeTable) → count ≤ 2 ^ 32 → SpellsBy g count bytes t → SpellsBy g count bytes u → t ≡ u }
{}

/// Extents have one list of segments of which none is empty and none begins where the one before it ended, and it gives the
/// extents back. There are no more of them than extents.
pub fn law_segments()
    ensures back { (es : List ℕ) → spread_all (segments es) ≡ es }
    ensures maximal { (es : List ℕ) → AreMaximal (segments es) }
    ensures one { (ss : List Segment) → AreMaximal ss → segments (spread_all ss) ≡ ss }
    ensures few { (es : List ℕ) → length (segments es) ≤ length es }
{}

/// By segments a text has at most 4 bytes for each extent more than with its extents listed. By either grammar it has at most
/// 12 bytes, and 46 for each image, 122 for each other volume and 8 for each extent.
pub fn law_length()
    ensures against { (t : VolumeTable) → length (text_by Segmented t) ≤ length (text_by Listed t) + 4 * length (used t) }
    ensures most { (g : Grammar) (count : ℕ) (t : VolumeTable) → IsTable count t
        → length (text_by g t) ≤ 12 + 46 * length (filter (λ r. is_image r.name) t.volumes) + 122 * length (filter (λ r. not (is_image r.name)) t.volumes) + 8 * length (used t) }
{}

/// The table of a new group whose records have 16 extents has 29 bytes by segments, whose sum is 254.
pub fn example_new_table()
    ensures text { text_by Segmented (new_table 16) ≡ 0 ∷ 0 ∷ 0 ∷ 0 ∷ 0 ∷ 0 ∷ 0 ∷ 1 ∷ 0 ∷ 0 ∷ 0 ∷ 1 ∷ 3 ∷ 77 ∷ 71 ∷ 84 ∷ 0
        ∷ 0 ∷ 0 ∷ 0 ∷ 1 ∷ 0 ∷ 0 ∷ 0 ∷ 0 ∷ 0 ∷ 0 ∷ 0 ∷ 16 ∷ [] }
    ensures sum { sum (text_by Segmented (new_table 16)) ≡ 254 }
{}
