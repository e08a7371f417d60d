//! The logs of the disks that are there are read, which is the last check of an opening.

ghost use Rattle.std.specs.Prelude.{◌≡◌, ◌≢◌, ◌≤◌, Err, IfErr, IfOk, length};
ghost use Rattle.std.specs.Option.{option_copied};
ghost use Rattle.sm_base.specs.declared.faults.OpenFault.TheVariants as fault;
ghost use Rattle.sm_logs.specs.Held.{log_limit};
ghost use Rattle.sm_standing.specs.LogChecks.{log_fault};
ghost use Rattle.vg_meta.specs.Roomy.{table_alone};
ghost use Rattle.vg_volumes.specs.Stored.{OnlyReads};
ghost use Rattle.vhd_chain.specs.Trees.{tree_row};
ghost use Rattle.sm_ready.specs.Shown.{of_shown, of_visible};
ghost use Rattle.sm_ready.specs.Stores.{store_content};
ghost use Rattle.sm_checks.specs.Openable.{IsStoppedBy};
ghost use Rattle.sm_recover.specs.Tracked.{AreLogsRead, HasPiecesOf, disk_logged, disk_named, logged_disks, open_fault, tree_pieces};

use sm_base::{Name, NoMemory, OpenFault, Place};
use sm_checks::is_disk;
use sm_log_reading::{DiskPieces, LogFault, read_logs};
use sm_logs::Logs;
use std::alloc::Global;
use uuid::Uuid;
use vg_meta::{Table, Volume};
use vg_volumes::Store;
use vhd_chain::{Tree, TreeRow};

/// Reads the logs that are not new and whose disks are there, which are at most 500. The images in memory are those of the disks.
///
/// # Errors
/// `Damaged` with the first log, in order of name, that is not right; `Device` where a call of the store failed; `NoMemory`.
pub fn checked_logs<S: Store>(alloc: Global, store: &mut S, tree: &Tree) -> Result<Logs, OpenFault>
    requires few { length (logged_disks (table_alone (S.table store.old)) tree.now.rows) ≤ log_limit }
    requires pieces { S.told → HasPiecesOf (store_content S.Store store.old) tree.now.rows }
    ensures reads { OnlyReads S.Store store.old store.new }
    ensures read { IfOk result (AreLogsRead S.Store store.old tree.now.rows) }
    ensures calm { result ≢ Err fault.Device → S.faults store.new ≡ S.faults store.old }
    ensures cause { IfErr result (IsStoppedBy S.told (log_fault (store_content S.Store store.old)) (S.faults store.old) (S.faults store.new)) }
{
    let Ok(disks) = logged_disks(alloc, store.table(), tree) else {
        return Err(OpenFault::NoMemory);
    };
    match read_logs(alloc, store, &disks) {
        Ok(logs) => {
            let _rows = logs.rows();
            Ok(logs)
        }
        Err(fault) => Err(open_fault(fault)),
    }
}

/// Why an opening stops where the logs were not read.
fn open_fault(fault: LogFault) -> OpenFault
    ensures { result ≡ open_fault fault }
{
    match fault {
        LogFault::Log { disk } => OpenFault::Damaged {
            place: Place::Log {
                name: Name::Cbt(disk),
            },
        },
        LogFault::Device => OpenFault::Device,
        LogFault::NoMemory => OpenFault::NoMemory,
    }
}

/// The disks that are there and have a log that is not new, in order of name.
fn logged_disks(alloc: Global, table: &Table, tree: &Tree) -> Result<Vec<DiskPieces>, NoMemory>
    ensures { IfOk result (λ disks. disks.items ≡ logged_disks (table_alone table.now) tree.now.rows) }
{
    let mut disks = Vec::new(alloc);
    for volume in table.volumes() {
        let Some(disk) = disk_logged(volume, table, tree) else {
            continue;
        };
        let Ok(()) = disks.push(disk) else {
            return Err(NoMemory);
        };
    }
    Ok(disks)
}

/// The disk of a volume that is a log and not new, where the disk is there.
fn disk_logged(volume: &Volume, table: &Table, tree: &Tree) -> Option<DiskPieces>
    ensures { result ≡ disk_logged (table_alone table.now) tree.now.rows volume.now.row }
{
    if volume.is_fresh() {
        return None;
    }
    disk_named(&volume.name(), table, tree)
}

/// The disk of the log of this name, where the disk is there.
fn disk_named(name: &Name, table: &Table, tree: &Tree) -> Option<DiskPieces>
    ensures { result ≡ disk_named (table_alone table.now) tree.now.rows name.now }
{
    match *name {
        Name::Cbt(disk) if is_disk(table, &disk) => Some(DiskPieces {
            disk,
            pieces: pieces(tree, &disk),
        }),
        Name::Cbt(_)
        | Name::Mgt
        | Name::Vhd(_)
        | Name::Raw(_)
        | Name::Old(_)
        | Name::Clone { .. }
        | Name::Inflate { .. }
        | Name::Coalesce { .. }
        | Name::Relink { .. }
        | Name::Leaf { .. } => None,
    }
}

/// The pieces of the visible image of a UUID; none where there is none.
fn pieces(tree: &Tree, disk: &Uuid) -> u32
    ensures { result ≡ tree_pieces tree.now.rows disk.now }
{
    match shown(tree, disk) {
        Some(row) => row.image.sectors().div_ceil(128).min(u64::from(u32::MAX)) as u32,
        None => 0,
    }
}

/// The visible image of a UUID.
#[tactic(auto, unfolding(sm_ready::specs::Shown::of_shown))]
fn shown<'a>(tree: &'a Tree, disk: &Uuid) -> Option<&'a TreeRow>
    ensures { option_copied result ≡ of_shown (λ r. r) tree.now.rows disk.now }
{
    let vhd = visible(tree, &Name::Vhd(*disk));
    if vhd.is_some() {
        return vhd;
    }
    visible(tree, &Name::Raw(*disk))
}

/// The image of this name, where it is visible.
fn visible<'a>(tree: &'a Tree, name: &Name) -> Option<&'a TreeRow>
    ensures { option_copied result ≡ of_visible (λ r. r) (tree_row tree.now.rows name.now) }
{
    let row = tree.get(name)?;
    if row.hidden { None } else { Some(row) }
}
