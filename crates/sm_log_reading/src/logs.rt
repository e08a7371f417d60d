//! The logs of all tracked disks are read.

ghost use Rattle.std.specs.Prelude.{◌≡◌, ◌≢◌, ◌≤◌, Some, None, Ok, Err, false, IfOk, IfErr, IfNone, IfSome, length, ◌==◌};
ghost use Rattle.std.specs.List.{list_any};
ghost use Rattle.vg_meta.specs.Roomy.{table_alone};
ghost use Rattle.vg_volumes.specs.Stored.{OnlyReads, stored};
ghost use Rattle.sm_log.specs.Logs.{log_of};
ghost use Rattle.sm_log_reading.specs.Reading.{IsReadOf, content_of};
ghost use Rattle.sm_log_reading.specs.Right.{AreNumbered, AreReadOf, IsNotRead, is_tag_wrong, is_to_read, judged_log, logs_read, next_log};
ghost use Rattle.sm_log_reading.specs.declared.logs.LogFault.TheVariants as fault;

use crate::reading::{filled_extents, read_log};
use sm_base::CallFault;
use sm_logs::{Log, Logs};
use std::alloc::Global;
use uuid::Uuid;
use vg_meta::Table;
use vg_volumes::Store;

/// A disk, and how many pieces it has.
#[derive(Clone, Copy)]
pub struct DiskPieces {
    pub disk: Uuid,
    pub pieces: u32,
}

/// Why the logs were not read.
#[derive(Clone, Copy)]
pub enum LogFault {
    /// The log of this disk is wrong.
    Log { disk: Uuid },
    /// The device failed.
    Device,
    /// Memory ran out.
    NoMemory,
}

/// Whether one of some logs has a tag.
fn is_tag_of(logs: &[Log], tag: u64) -> bool
    ensures { result ≡ list_any (λ k. k.tag == tag) logs.now }
{
    logs.iter().any(|log| log.head().tag == tag)
}

/// Whether the tag of a log or its since is not below the sequence number, or an earlier log has the same tag other than 0.
fn is_tag_wrong(earlier: &[Log], log: &Log, sequence: u64) -> bool
    ensures { result ≡ is_tag_wrong sequence earlier.now log.now }
{
    let head = log.head();
    sequence <= head.tag || sequence <= head.since || head.tag != 0 && is_tag_of(earlier, head.tag)
}

/// Whether a disk has a log that is not new, and that is not among those read.
fn is_to_read(table: &Table, earlier: &Logs, disk: &DiskPieces) -> bool
    ensures { result ≡ is_to_read (table_alone table.now) earlier.now disk.now }
{
    filled_extents(table, &disk.disk).is_some() && earlier.get(&disk.disk).is_none()
}

/// The log of a disk whose volume is there and not new, behind earlier logs.
///
/// # Errors
/// `Log` where it is wrong, `Device` where a call of the store failed, and `NoMemory`.
fn read_right<S: Store>(
    alloc: Global,
    store: &mut S,
    earlier: &Logs,
    disk: &DiskPieces,
) -> Result<Log, LogFault>
    ensures only { OnlyReads S.Store store.old store.new }
    ensures calm { result ≢ Err fault.Device → S.faults store.new ≡ S.faults store.old }
    ensures own { IfOk result (IsReadOf (table_alone (S.table store.old)) (S.site store.old).geometry.extent disk.now.disk disk.now.pieces) }
    ensures numbered { IfOk result (λ log. is_tag_wrong (table_alone (S.table store.old)).sequence earlier.now log ≡ false) }
    ensures right { S.told → IfOk result (λ log. judged_log (content_of (stored S.Store store.old)) earlier.now disk.now ≡ Ok (Some log)) }
    ensures cause { IfErr result (IsNotRead S.Store (λ u. judged_log (content_of (stored S.Store store.old)) earlier.now disk.now ≡ Err u) store.old store.new) }
{
    let found = match read_log(alloc, store, &disk.disk, disk.pieces) {
        Ok(found) => found,
        Err(CallFault::Device) => return Err(LogFault::Device),
        Err(CallFault::NoMemory) => return Err(LogFault::NoMemory),
    };
    let Some(log) = found else {
        return Err(LogFault::Log { disk: disk.disk });
    };
    if is_tag_wrong(earlier.rows(), &log, store.table().seq()) {
        return Err(LogFault::Log { disk: disk.disk });
    }
    Ok(log)
}

/// The log of a disk, behind earlier ones, where it has one to read.
///
/// # Errors
/// `Log` where it is wrong, `Device` where a call of the store failed, and `NoMemory`.
fn read_next<S: Store>(
    alloc: Global,
    store: &mut S,
    earlier: &Logs,
    disk: &DiskPieces,
) -> Result<Option<Log>, LogFault>
    ensures only { OnlyReads S.Store store.old store.new }
    ensures calm { result ≢ Err fault.Device → S.faults store.new ≡ S.faults store.old }
    ensures absent { IfOk result (λ found. IfSome found (λ log. log_of log.disk earlier.now ≡ None)) }
    ensures own { IfOk result (λ found. IfSome found (IsReadOf (table_alone (S.table store.old)) (S.site store.old).geometry.extent disk.now.disk disk.now.pieces)) }
    ensures numbered { IfOk result (λ found. IfSome found (λ log. is_tag_wrong (table_alone (S.table store.old)).sequence earlier.now log ≡ false)) }
    ensures none { IfOk result (λ found. IfNone found (is_to_read (table_alone (S.table store.old)) earlier.now disk.now ≡ false)) }
    ensures next { S.told → IfOk result (λ found. next_log (content_of (stored S.Store store.old)) earlier.now disk.now ≡ Ok found) }
    ensures cause { IfErr result (IsNotRead S.Store (λ u. next_log (content_of (stored S.Store store.old)) earlier.now disk.now ≡ Err u) store.old store.new) }
{
    if !is_to_read(store.table(), earlier, disk) {
        return Ok(None);
    }
    match read_right(alloc, store, earlier, disk) {
        Ok(log) => Ok(Some(log)),
        Err(fault) => Err(fault),
    }
}

/// The logs of some disks, at most 500, in memory. A disk whose log's volume is not there or new has none.
///
/// # Errors
/// `Log` with the first of the disks whose log is wrong, `Device` where a call of the store failed, and `NoMemory`.
pub fn read_logs<S: Store>(
    alloc: Global,
    store: &mut S,
    disks: &[DiskPieces],
) -> Result<Logs, LogFault>
    requires few { length disks.now ≤ 500 }
    ensures only { OnlyReads S.Store store.old store.new }
    ensures calm { result ≢ Err fault.Device → S.faults store.new ≡ S.faults store.old }
    ensures read { IfOk result (AreReadOf (table_alone (S.table store.old)) (S.site store.old).geometry.extent disks.now) }
    ensures few { IfOk result (λ logs. length logs ≤ length disks.now) }
    ensures numbered { IfOk result (AreNumbered (table_alone (S.table store.old)).sequence) }
    ensures logs { S.told → IfOk result (λ logs. logs_read (content_of (stored S.Store store.old)) disks.now ≡ Ok logs) }
    ensures cause { IfErr result (IsNotRead S.Store (λ u. logs_read (content_of (stored S.Store store.old)) disks.now ≡ Err u) store.old store.new) }
{
    let Ok(mut logs) = Logs::new(alloc) else {
        return Err(LogFault::NoMemory);
    };
    for disk in disks {
        let found = match read_next(alloc, store, &logs, disk) {
            Ok(found) => found,
            Err(fault) => return Err(fault),
        };
        let Some(log) = found else {
            continue;
        };
        logs.insert(log);
    }
    Ok(logs)
}
