//! Calls of the logs, with what they ask tested first.

ghost use Rattle.std.specs.Prelude.{◌≡◌, ◌≤◌, ◌+◌, ◌*◌, true, length, IfSome};
ghost use Rattle.sm_log.specs.Logs.{log_of, piece_sectors};

use sm_logs::{LOG_LIMIT, Log, Logs};
use std::test::Fail;
use uuid::Uuid;

/// Puts in the log of a disk that has none.
pub fn put(logs: &mut Logs, log: Log) -> Result<(), Fail> {
    if logs.get(&log.disk()).is_some() || logs.rows().len() >= LOG_LIMIT {
        return Err(Fail::from("a disk without a log, and room"));
    }
    logs.insert(log);
    Ok(())
}

/// Whether a disk has no log, or one with the pieces that so many sectors from one on reach.
fn is_within(logs: &Logs, disk: &Uuid, sector: u64, count: u64) -> bool
    ensures { result ≡ true → IfSome (log_of disk.now logs.now) (λ l. sector + count ≤ piece_sectors * length l.bits) }
{
    match logs.get(disk) {
        Some(log) => {
            let sectors = 128 * u64::from(log.bits().pieces());
            count <= sectors && sector <= sectors - count
        }
        None => true,
    }
}

/// Marks pieces in memory.
pub fn mark(logs: &mut Logs, disk: &Uuid, sector: u64, count: u64) -> Result<(), Fail> {
    if count == 0 || !is_within(logs, disk, sector, count) {
        return Err(Fail::from("sectors of the disk"));
    }
    logs.touch(disk, sector, count);
    Ok(())
}
