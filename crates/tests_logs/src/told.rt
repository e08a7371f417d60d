//! Two snapshots of a tracked disk, and what is told between them.

use crate::held::{mark, put};
use sm_log::{Bits, spelled};
use sm_logs::{Log, Logs};
use std::alloc::Global;
use std::process::Abort;
use std::test::Fail;
use uuid::Uuid;

/// A snapshot's log comes beside that of its disk, which begins anew.
fn split(alloc: Global, logs: &mut Logs, disk: &Uuid, twin: Uuid, tag: u64) -> Result<(), Fail> {
    let Some(log) = logs.get(disk) else {
        return Err(Fail::from("a disk with a log"));
    };
    let log = log.twin(alloc, twin, tag)?;
    put(logs, log)?;
    logs.begin(disk, tag);
    Ok(())
}

/// From one disk to another, of two pieces each, this text is told, or nothing.
fn tells(
    rt: &impl Abort,
    alloc: Global,
    logs: &Logs,
    (earlier, later): (&Uuid, &Uuid),
    text: Option<&str>,
) -> Result<(), Fail> {
    match logs.changed(alloc, earlier, later, 2)? {
        Some(bits) => {
            let found = spelled(alloc, &bits)?;
            assert!(rt; Some(found.as_str()) == text);
        }
        None => assert!(rt; text.is_none()),
    }
    Ok(())
}

/// A disk of 131,072 bytes has two pieces. Its sector 128 is written between two snapshots.
#[test]
fn second_piece_is_told(rt: HostRuntime) -> Result<(), Fail> {
    let alloc = rt.alloc();
    let disk = Uuid::from_bytes([1; 16]);
    let earlier = Uuid::from_bytes([2; 16]);
    let later = Uuid::from_bytes([3; 16]);
    let mut logs = Logs::new(alloc)?;
    put(&mut logs, Log::new(disk, 1, 0, 0, Bits::new(alloc, 2)?))?;
    split(alloc, &mut logs, &disk, earlier, 8)?;
    mark(&mut logs, &disk, 128, 1)?;
    split(alloc, &mut logs, &disk, later, 18)?;
    tells(&rt, alloc, &logs, (&earlier, &later), Some("QA=="))?;
    tells(&rt, alloc, &logs, (&earlier, &disk), Some("QA=="))?;
    tells(&rt, alloc, &logs, (&later, &disk), Some("AA=="))?;
    tells(&rt, alloc, &logs, (&disk, &disk), Some("AA=="))?;
    tells(&rt, alloc, &logs, (&later, &earlier), None)?;
    assert!(rt; logs.remove(&earlier).is_some());
    tells(&rt, alloc, &logs, (&earlier, &later), None)
}
