//! The laws of the places: where memory agreed with the store before a call, it agrees after it.

ghost use Rattle.std.specs.Prelude.{◌≡◌, ◌<◌, ℕ, List, Option, Some, None, map};
ghost use Rattle.std.specs.List.{slice_set};
ghost use Rattle.sm_disk.specs.Held.{Held, Wrote, reads};
ghost use Rattle.sm_disk.specs.Sectors.{zeros};
ghost use Rattle.sm_record.specs.declared.records.Record.{Record};
ghost use Rattle.sm_record.specs.Records.{IsRecord, record_sector};
ghost use Rattle.sm_mgt.specs.Places.{Agrees, HasRecordAt, WroteZeros, cleared, place_count, place_for, record_in};

/// The laws of the places. The call does nothing.
pub fn laws()
    // After a record was written at its place.
    ensures put { (places : List (Option Record)) (row : Record) (k : ℕ) (old new : Held) → IsRecord row → place_for places row.uuid ≡ Some k
        → Wrote k (record_sector row) old new → Agrees old places → Agrees new (slice_set places k (Some row)) }
    // It is then the record of its UUID.
    ensures put_found { (places : List (Option Record)) (row : Record) (k : ℕ) → place_for places row.uuid ≡ Some k
        → record_in (slice_set places k (Some row)) row.uuid ≡ Some row }
    // After one place was freed.
    ensures wipe { (places : List (Option Record)) (k : ℕ) (old new : Held) → k < place_count → Wrote k zeros old new
        → Agrees old places → Agrees new (slice_set places k None) }
    // After the places of a UUID were freed.
    ensures clear { (places : List (Option Record)) (u : List ℕ) (old new : Held) → WroteZeros (HasRecordAt places u) old new
        → Agrees old places → Agrees new (map (cleared u) places) }
    // Such a place reads as zeros.
    ensures clear_reads { (places : List (Option Record)) (u : List ℕ) (old new : Held) (p : ℕ) → WroteZeros (HasRecordAt places u) old new
        → HasRecordAt places u p → reads new p ≡ zeros }
    // No record of the UUID is left.
    ensures clear_none { (places : List (Option Record)) (u : List ℕ) → record_in (map (cleared u) places) u ≡ None }
{}
