//! Logs that are new, or whose disk is not there, go one after the other.

ghost use Rattle.std.specs.Prelude.{◌≡◌, ◌≤◌, ◌<◌, ◌^◌, ◌∷◌, [], not, ℕ, List, Some, None, filter, length, take};
ghost use Rattle.sm_base.specs.declared.names.Name.{Name};
ghost use Rattle.vg_meta.specs.Changes.{applied};
ghost use Rattle.vg_meta.specs.Tables.{IsTable, VolumeTable};
ghost use Rattle.vg_meta.specs.Text.{text};
ghost use Rattle.vg_meta.specs.declared.changes.Change.TheVariants.{Remove};
ghost use Rattle.sm_standing.specs.Checks.{fault_of};
ghost use Rattle.sm_standing.specs.Dropped.{drop_changes, dropped, first_useless, is_useless};
ghost use Rattle.sm_standing.specs.Opened.{applied_all};
ghost use Rattle.sm_standing.specs.Outlines.{Outline};
ghost use Rattle.sm_standing.specs.Standing.{standing_volume, uuids};
ghost use Rattle.sm_log_rows.specs.LogRows.{AreApartFromLogs, HasNoLogLink, IsDropping};

/// Tables in which each volume but a log is the same have the same disks, and where no check fails of the one, none fails of the other.
pub fn law_apart()
    ensures sound { (x : Outline) (b : VolumeTable) → AreApartFromLogs x.table b → HasNoLogLink x → fault_of x ≡ None → fault_of (record x { table = b }) ≡ None }
    ensures stands { (a b : VolumeTable) (u : List ℕ) → AreApartFromLogs a b → standing_volume b u ≡ standing_volume a u }
    ensures uuids { (a b : VolumeTable) → AreApartFromLogs a b → uuids b ≡ uuids a }
    ensures itself { (a : VolumeTable) → AreApartFromLogs a a }
    ensures then { (a b c : VolumeTable) → AreApartFromLogs a b → AreApartFromLogs b c → AreApartFromLogs a c }
{}

/// The first log that is new, or whose disk is not there, goes by one commit: those that are left then go by the others, and the table is shorter and has a
/// shorter text. Behind all of them none is left.
pub fn law_dropped()
    ensures first { (count : ℕ) (t : VolumeTable) (n : Name) → IsTable count t → first_useless t ≡ Some n → drop_changes t ≡ Remove n ∷ drop_changes (applied t (Remove n)) }
    ensures none { (t : VolumeTable) → first_useless t ≡ None → drop_changes t ≡ [] }
    ensures apart { (t : VolumeTable) (n : Name) → t.sequence < 2 ^ 48 → first_useless t ≡ Some n → AreApartFromLogs t (applied t (Remove n)) }
    ensures shorter { (t : VolumeTable) (n : Name) → first_useless t ≡ Some n → length (applied t (Remove n)).volumes < length t.volumes }
    ensures short { (t : VolumeTable) (n : Name) → length (text (applied t (Remove n))) ≤ length (text t) }
    ensures volumes { (count : ℕ) (t : VolumeTable) → IsTable count t → (dropped t).volumes ≡ filter (λ r. not (is_useless t r)) t.volumes }
    ensures all { (count : ℕ) (t : VolumeTable) → IsTable count t → AreApartFromLogs t (dropped t) }
    ensures some { (count k : ℕ) (t : VolumeTable) → IsTable count t → IsTable count (applied_all t (take k (drop_changes t))) × IsDropping t (applied_all t (take k (drop_changes t))) }
{}
