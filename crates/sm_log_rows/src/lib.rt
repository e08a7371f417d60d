//! A change of a log's row in the table: no check of an opening fails that did not fail before, and each disk stands where it stood.
//!
//! Kept here: nothing. This crate has laws on what `sm_standing` defines, for whoever makes a log's volume, marks it as filled, or removes it. Their functions
//! do nothing, and their clauses are the laws: of one such change (`law_log_row`), of tables and of contents in which each volume but a log is the same
//! (`law_apart`, `law_apart_content`), and of the logs that an opening removes first, one after the other (`law_dropped`, `law_dropping`).
//!
//! The definitions are in `specs/`: `LogRows` (which changes are of a log's row, and tables that are alike but for logs).
#![tactic(auto)]

mod contents;
mod dropping;

ghost use Rattle.std.specs.Prelude.{◌≡◌, ◌<◌, ◌^◌, ℕ, List, None};
ghost use Rattle.vg_meta.specs.Changes.{applied};
ghost use Rattle.vg_meta.specs.Tables.{VolumeTable};
ghost use Rattle.vg_meta.specs.declared.changes.Change.{Change};
ghost use Rattle.sm_standing.specs.Checks.{fault_of};
ghost use Rattle.sm_standing.specs.Contents.{Content};
ghost use Rattle.sm_standing.specs.Outlines.{Outline, outline};
ghost use Rattle.sm_standing.specs.Standing.{standing_volume, uuids};
ghost use Rattle.sm_log_rows.specs.LogRows.{IsOfLog, HasNoLogLink};

pub use contents::{law_apart_content, law_dropping};
pub use dropping::{law_apart, law_dropped};

/// A commit of a log's row keeps all checks and all disks.
pub fn law_log_row()
    // Where no check fails, none fails behind the change.
    ensures sound { (x : Outline) (c : Change) → IsOfLog c → HasNoLogLink x → x.table.sequence < 2 ^ 48 → fault_of x ≡ None → fault_of (record x { table = applied x.table c }) ≡ None }
    // Each disk stands in the volume in which it stood.
    ensures stands { (t : VolumeTable) (c : Change) (u : List ℕ) → IsOfLog c → t.sequence < 2 ^ 48 → standing_volume (applied t c) u ≡ standing_volume t u }
    // The UUIDs of disks are the same.
    ensures uuids { (t : VolumeTable) (c : Change) → IsOfLog c → t.sequence < 2 ^ 48 → uuids (applied t c) ≡ uuids t }
    // Of no content a log is an image, so that none has a link.
    ensures links { (c : Content) → HasNoLogLink (outline c) }
{}
