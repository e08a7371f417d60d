//! Reading the logs is the check of them.

ghost use Rattle.std.specs.Prelude.{◌≡◌, ℕ, List, Some, None, Ok, Err};
ghost use Rattle.sm_base.specs.declared.faults.Place.TheVariants as at;
ghost use Rattle.sm_base.specs.declared.names.Name.TheVariants.{Cbt};
ghost use Rattle.vg_meta.specs.Tables.{IsTable};
ghost use Rattle.sm_standing.specs.Contents.{Content};
ghost use Rattle.sm_standing.specs.LogChecks.{log_fault};
ghost use Rattle.sm_standing.specs.Logs.{logs};
ghost use Rattle.sm_log_reading.specs.Checked.{AreDisksOf};
ghost use Rattle.sm_log_reading.specs.Right.{logs_read};
ghost use Rattle.sm_log_reading.specs.declared.logs.DiskPieces.{DiskPieces};

/// The logs of all disks that are there are read where an opening's check of logs passes, and are those of the content. Else the disk is
/// answered whose log the check names.
pub fn law_logs_read()
    ensures pass { (c : Content) (ds : List DiskPieces) → IsTable c.count c.table → AreDisksOf c ds → log_fault c ≡ None → logs_read c ds ≡ Ok (logs c) }
    ensures wrong { (c : Content) (ds : List DiskPieces) (u : List ℕ) → IsTable c.count c.table → AreDisksOf c ds → log_fault c ≡ Some (at.Log (Cbt u)) → logs_read c ds ≡ Err u }
{}
