//! Laws of the check of logs: what it looks at, and where it passes.

ghost use Rattle.std.specs.Prelude.{◌≡◌, ◌<◌, ◌≤◌, ℕ, true, false, List, length, Some, None, IsSome, is_some};
ghost use Rattle.common_laws.specs.Lists.{In};
ghost use Rattle.sm_base.specs.declared.names.Name.TheVariants.{Cbt};
ghost use Rattle.vg_meta.specs.Tables.{IsTable, Row};
ghost use Rattle.sm_log.specs.Logs.{Log, piece_count};
ghost use Rattle.sm_machine.specs.Disks.{Disk};
ghost use Rattle.sm_machine.specs.Shapes.{Shape};
ghost use Rattle.sm_machine.specs.Tracking.{AreGoodLogs};
ghost use Rattle.sm_machine.specs.WellFormed.{AreDisksOf, IsWellFormed};
ghost use Rattle.sm_standing.specs.Checks.{first_fault};
ghost use Rattle.sm_standing.specs.Contents.{Content};
ghost use Rattle.sm_standing.specs.LogChecks.{HasLogsOf, HasRightLog, HaveOneTag, IsLogLike, log_fault, standing_pieces};
ghost use Rattle.sm_standing.specs.Logs.{log_at, logs};
ghost use Rattle.sm_standing.specs.Standing.{disks, standing_volume};

/// A disk that shows has a volume in which it stands, and the check of logs takes its pieces for those of a disk of its sectors. Where no other
/// check fails each disk that stands shows.
pub fn law_pieces()
    ensures pieces { (c : Content) (d : Disk) → In d (disks c) → standing_pieces c d.uuid ≡ piece_count (length d.sectors) }
    ensures stands { (c : Content) (d : Disk) → In d (disks c) → is_some (standing_volume c.table d.uuid) ≡ true }
    ensures there { (c : Content) (u : List ℕ) → first_fault c ≡ None → is_some (standing_volume c.table u) ≡ true → (d : Disk) × In d (disks c) × (d.uuid ≡ u) }
{}

/// The check of logs passes exactly where each volume of a log that is not new and whose disk is there has a right log, and no two of those have one tag.
pub fn law_right_logs()
    ensures pass { (c : Content) → ((u : List ℕ) (r : Row) → In r c.table.volumes → r.name ≡ Cbt u → r.fresh ≡ false → is_some (standing_volume c.table u) ≡ true → HasRightLog c u (standing_pieces c u))
        → HaveOneTag c → log_fault c ≡ None }
    ensures disks { (c : Content) → first_fault c ≡ None
        → ((d : Disk) (r : Row) → In d (disks c) → In r c.table.volumes → r.name ≡ Cbt d.uuid → r.fresh ≡ false → HasRightLog c d.uuid (piece_count (length d.sectors)))
        → HaveOneTag c → log_fault c ≡ None }
    ensures right { (c : Content) → log_fault c ≡ None → (u : List ℕ) (r : Row) → In r c.table.volumes → r.name ≡ Cbt u → r.fresh ≡ false → is_some (standing_volume c.table u) ≡ true
        → HasRightLog c u (standing_pieces c u) }
    ensures one_tag { (c : Content) → IsTable c.count c.table → log_fault c ≡ None → HaveOneTag c }
{}

/// The check of logs passes on a content where each log is like one of a shape with good logs, but for its bits, and each disk that has one is as large as
/// a disk of that shape.
pub fn law_logs_pass()
    ensures { (c : Content) (s : Shape) (was : List Disk) → first_fault c ≡ None → IsWellFormed s → AreDisksOf was s → AreGoodLogs s → c.extent ≡ s.extent → s.sequence ≤ c.table.sequence
        → ((u : List ℕ) (r : Row) → In r c.table.volumes → r.name ≡ Cbt u → r.fresh ≡ false → IsSome (log_at c u))
        → ((u : List ℕ) (l : Log) → log_at c u ≡ Some l → (m : Log) × In m s.logs × IsLogLike m l × (l.since < c.table.sequence))
        → ((d : Disk) (l : Log) → In d (disks c) → log_at c d.uuid ≡ Some l → (e : Disk) × In e was × (e.uuid ≡ d.uuid) × (length e.sectors ≡ length d.sectors))
        → log_fault c ≡ None }
{}

/// Where the logs of one content stand in another with the same disks, the check of logs passes there too, and the logs are the same.
pub fn law_logs_stay()
    ensures { (was now : Content) → IsTable was.count was.table → IsTable now.count now.table → now.extent ≡ was.extent → HasLogsOf was now → disks now ≡ disks was
        → first_fault was ≡ None → first_fault now ≡ None → log_fault was ≡ None → (log_fault now ≡ None) × (logs now ≡ logs was) }
{}
