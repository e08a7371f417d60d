//! Laws of logs, and examples. Each function does nothing: its clause is the law, and the check proves it.

ghost use Rattle.std.specs.Prelude.{◌≡◌, ◌<◌, ◌/◌, ◌||◌, List, Bool, true, Some, None, ℕ, codes, length};
ghost use Rattle.common_laws.specs.Lists.{In};
ghost use Rattle.sm_log.specs.declared.heads.Head.{Head};
ghost use Rattle.sm_record.specs.Records.{IsSector};
ghost use Rattle.sm_log.specs.Heads.{IsHead, head_in, head_sector};
ghost use Rattle.sm_log.specs.Logs.{bit, either, marked, piece_sectors, pieces_touched};
ghost use Rattle.sm_log.specs.Told.{ChangedCovers, ChangedIsLong, TellsElsewhere, TellsMore, TellsWritten, TellsBegun, TellsTwin, TellsAnew, TellsTouched, TellsGuest, TellsSplit, IsWithin};
ghost use Rattle.sm_log.specs.Examples.{answer, disk, earlier, later, logs_earlier, logs_written, logs_later, logs_stopped, logs_unwritten};

/// Writing a head and reading one are each other's inverse.
pub fn law_heads()
    // What is written of a head is read as that head.
    ensures again { (h : Head) → IsHead h → head_in (head_sector h) ≡ Some h }
    // What is read as a head is the one sector that is written of it.
    ensures only { (s : List ℕ) (h : Head) → IsSector s → head_in s ≡ Some h → IsHead h × (s ≡ head_sector h) }
    // A head's sector is 512 bytes.
    ensures sector { (h : Head) → IsHead h → IsSector (head_sector h) }
{}

/// What marking pieces and adding bits does to each bit.
pub fn law_marks()
    // A bit that is set stays set.
    ensures keeps { (ks : List ℕ) (bits : List Bool) (k : ℕ) → bit bits k ≡ true → bit (marked ks bits) k ≡ true }
    // The bit of each of the pieces is set, where it is within the list.
    ensures sets { (ks : List ℕ) (bits : List Bool) (k : ℕ) → In k ks → k < length bits → bit (marked ks bits) k ≡ true }
    // No other bit is.
    ensures others { (ks : List ℕ) (bits : List Bool) (k : ℕ) → ¬ In k ks → bit (marked ks bits) k ≡ bit bits k }
    // There are as many bits.
    ensures same { (ks : List ℕ) (bits : List Bool) → length (marked ks bits) ≡ length bits }
    // A bit of two lists together is set where it is in one of them.
    ensures either { (xs ys : List Bool) (k : ℕ) → bit (either xs ys) k ≡ (bit xs k || bit ys k) }
    // Each sector that a write reaches lies in a piece that it touches.
    ensures touched { (sector count k : ℕ) → IsWithin sector count k → In (k / piece_sectors) (pieces_touched sector count) }
{}

/// What may be shown of disks, as a stop and what is in memory allow it: of a disk, by its UUID, a sector with these bytes.
pub trait Shows {
    /// Before something happens.
    ghost before: { List ℕ → ℕ → List ℕ → Type 0 };

    /// Behind it.
    ghost after: { List ℕ → ℕ → List ℕ → Type 0 };
}

/// Where the walk leads from one disk's log back to another's, each piece in which the two disks differ is in what it gives.
/// It has a bit for each piece, where each log has.
pub fn law_changed<S: Shows>()
    ensures covers { ChangedCovers S.after }
    ensures long { ChangedIsLong }
{}

/// No log is new, and disks that have a log show nothing new: the logs tell the truth still.
pub fn law_elsewhere<S: Shows>()
    ensures { TellsElsewhere S.before S.after }
{}

/// Bits are set before anything is written: the logs tell the truth still.
pub fn law_more<S: Shows>()
    ensures { TellsMore S.after }
{}

/// What is written lies in pieces whose bits are set: the logs tell the truth still.
pub fn law_written<S: Shows>()
    ensures { TellsWritten S.before S.after }
{}

/// Tracking begins: the logs tell the truth still.
pub fn law_begun<S: Shows>()
    ensures { TellsBegun S.after }
{}

/// A snapshot's log comes beside that of its disk: the logs tell the truth still.
pub fn law_twin<S: Shows>()
    ensures { TellsTwin S.after }
{}

/// The log of the snapshot's disk begins anew: the logs tell the truth still.
pub fn law_anew<S: Shows>()
    ensures { TellsAnew S.after }
{}

/// The pieces that sectors of a disk reach are marked in its log: the logs tell the truth still.
pub fn law_touched<S: Shows>()
    ensures { TellsTouched S.after }
{}

/// Sectors of a disk are written behind the marks in its log: the logs tell the truth still.
pub fn law_guest<S: Shows>()
    ensures { TellsGuest S.before S.after }
{}

/// A snapshot is taken of a disk, and its log is split: the logs tell the truth still.
pub fn law_split<S: Shows>()
    ensures { TellsSplit S.after }
{}

/// The second of two pieces was written between two snapshots.
pub fn example_later()
    ensures written { answer earlier later logs_later ≡ Some (codes "QA==") }
    ensures same { answer later later logs_later ≡ Some (codes "AA==") }
    ensures backwards { answer later earlier logs_later ≡ None }
    ensures now { answer later disk logs_later ≡ Some (codes "AA==") }
{}

/// A stop behind the making of the second snapshot's log answers as if there was none, and one before it has no answer.
pub fn example_stopped()
    ensures made { answer earlier later logs_stopped ≡ Some (codes "QA==") }
    ensures unmade { answer earlier later logs_written ≡ None }
{}

/// Nothing was written between the snapshots.
pub fn example_unwritten()
    ensures { answer earlier later logs_unwritten ≡ Some (codes "AA==") }
{}
