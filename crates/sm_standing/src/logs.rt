//! The logs of tracked disks in a content, and the check of them.

ghost use Rattle.std.specs.Prelude.{◌≡◌, ℕ, List, Some, None, is_some, if◌then◌else◌};
ghost use Rattle.sm_base.specs.declared.faults.Place.{Place};
ghost use Rattle.sm_base.specs.declared.faults.Place.TheVariants as at;
ghost use Rattle.sm_base.specs.declared.names.Name.TheVariants.{Cbt};
ghost use Rattle.vg_meta.specs.Tables.{IsTable};
ghost use Rattle.sm_log.specs.Logs.{log_of};
ghost use Rattle.sm_standing.specs.Contents.{Content};
ghost use Rattle.sm_standing.specs.LogChecks.{AreLogsOfDisks, AreRightLogs, IsFirstWrong, log_fault};
ghost use Rattle.sm_standing.specs.Logs.{IsLogged, log_at, logs};
ghost use Rattle.sm_standing.specs.Standing.{standing_volume};

/// The logs of a content are those that a read of their volumes gives, of the disks that are there.
pub fn law_logs()
    ensures listed { (c : Content) (u : List ℕ) → log_of u (logs c) ≡ (if is_some (standing_volume c.table u) then log_at c u else None) }
    // So they are all where each log is that of a disk that is there, and the check of logs passes. A log that is new is none.
    ensures logged { (c : Content) → AreLogsOfDisks c → log_fault c ≡ None → IsLogged c (logs c) }
{}

/// Where the check of logs passes each is right, and else it names the first that is wrong.
pub fn law_log_fault()
    ensures right { (c : Content) → IsTable c.count c.table → log_fault c ≡ None → AreRightLogs c (logs c) }
    ensures named { (c : Content) (p : Place) → IsTable c.count c.table → log_fault c ≡ Some p → (u : List ℕ) × (p ≡ at.Log (Cbt u)) × IsFirstWrong c u }
    ensures wrong { (c : Content) (u : List ℕ) → IsTable c.count c.table → IsFirstWrong c u → log_fault c ≡ Some (at.Log (Cbt u)) }
{}
