//! The laws of the format: reading and writing are each other's inverse.

ghost use Rattle.std.specs.Prelude.{◌≡◌, ℕ, List, length, false};
ghost use Rattle.sm_record.specs.declared.records.Record.{Record};
ghost use Rattle.sm_record.specs.declared.records.Reading.TheVariants.{Free, Taken};
ghost use Rattle.sm_record.specs.Records.{IsSector, IsRecord, reading, record_sector, is_zeros, zeros};

/// What holds of every record and every sector. The call does nothing.
pub fn laws()
    // What is written of a record is read as that record.
    ensures again { (r : Record) → IsRecord r → reading (record_sector r) ≡ Taken r }
    // What is read as a record is the one sector that is written of it.
    ensures only { (s : List ℕ) (r : Record) → IsSector s → reading s ≡ Taken r → IsRecord r × (s ≡ record_sector r) }
    // Zeros are free, and nothing else is.
    ensures zeros_free { (n : ℕ) → reading (zeros n) ≡ Free }
    ensures only_zeros { (s : List ℕ) → reading s ≡ Free → s ≡ zeros (length s) }
    // A record's sector is 512 bytes, and not free.
    ensures sector { (r : Record) → IsRecord r → IsSector (record_sector r) }
    ensures not_free { (r : Record) → is_zeros (record_sector r) ≡ false }
{}
