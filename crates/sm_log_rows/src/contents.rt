//! What stands in a repository where logs come, are marked or go: all but the logs.

ghost use Rattle.std.specs.Prelude.{◌≡◌, ℕ, List, None};
ghost use Rattle.sm_base.specs.Numbers.{IsGeometry};
ghost use Rattle.sm_base.specs.declared.names.Name.{Name};
ghost use Rattle.vg_meta.specs.Tables.{IsTable, VolumeTable};
ghost use Rattle.sm_standing.specs.Checks.{first_fault};
ghost use Rattle.sm_standing.specs.Contents.{Content};
ghost use Rattle.sm_standing.specs.Images.{image_of};
ghost use Rattle.sm_standing.specs.Keeping.{HoldsWell, IsKept};
ghost use Rattle.sm_standing.specs.LogChecks.{log_fault};
ghost use Rattle.sm_standing.specs.Logs.{logs};
ghost use Rattle.sm_standing.specs.Standing.{disks};
ghost use Rattle.sm_log_rows.specs.LogRows.{AreApartFromLogs, IsDropping, with_table};

/// Where each volume but a log is the same, and so are all sectors, the images are the same, and so are the disks; no check fails that did not fail, and
/// what is kept stays kept.
pub fn law_apart_content()
    ensures images { (c : Content) (u : VolumeTable) (n : Name) → AreApartFromLogs c.table u → image_of (with_table c u) n ≡ image_of c n }
    ensures disks { (c : Content) (u : VolumeTable) → AreApartFromLogs c.table u → disks (with_table c u) ≡ disks c }
    ensures sound { (c : Content) (u : VolumeTable) → AreApartFromLogs c.table u → first_fault c ≡ None → first_fault (with_table c u) ≡ None }
    ensures well { (c : Content) (u : VolumeTable) → AreApartFromLogs c.table u → HoldsWell c → HoldsWell (with_table c u) }
    ensures kept { (c : Content) (u : VolumeTable) → AreApartFromLogs c.table u → IsKept c → IsKept (with_table c u) }
{}

/// Where logs of no use go, others stay as they are: the logs whose disks are there are the same, and where the check of logs passed it passes.
pub fn law_dropping()
    ensures logs { (c : Content) (u : VolumeTable) → IsTable c.count c.table → IsTable c.count u → IsDropping c.table u → logs (with_table c u) ≡ logs c }
    ensures pass { (c : Content) (u : VolumeTable) → IsTable c.count c.table → IsTable c.count u → IsDropping c.table u → log_fault c ≡ None → log_fault (with_table c u) ≡ None }
{}
