//! The walk from a log back to one before it.

ghost use Rattle.std.specs.Prelude.{◌≡◌, ◌==◌, Some, IfOk, OnErr, IsSome, is_some};
ghost use Rattle.std.specs.List.{find};
ghost use Rattle.std.specs.Option.{option_copied};
ghost use Rattle.sm_log.specs.Logs.{before, walk};
ghost use Rattle.sm_logs.specs.Held.{bits_of};

use crate::rows::Log;
use sm_base::NoMemory;
use sm_log::Bits;
use std::alloc::Global;
use uuid::Uuid;

/// The first log with this tag.
fn tagged(logs: &[Log], tag: u64) -> Option<&Log>
    ensures { option_copied result ≡ find (λ l. l.tag == tag) logs.now }
{
    logs.iter().find(|log| log.head().tag == tag)
}

/// The log that was begun before another, whose tag is the other's since.
fn before<'a>(logs: &'a [Log], log: &Log) -> Option<&'a Log>
    ensures { option_copied result ≡ before log.now logs.now }
{
    let since = log.head().since;
    if since == 0 {
        return None;
    }
    tagged(logs, since)
}

/// Whether that of a disk is met from one log back, within so many logs.
pub(crate) fn leads(logs: &[Log], log: &Log, disk: &Uuid, most: usize) -> bool
    ensures { result ≡ is_some (walk most disk.now logs.now (Some log.now)) }
{
    if most == 0 {
        return false;
    }
    if log.is_of(disk) {
        return true;
    }
    match before(logs, log) {
        Some(earlier) => leads(logs, earlier, disk, most - 1),
        None => false,
    }
}

/// The bits, at least so many, that are set in one of the logs from one back to that of a disk, which is left out; `None` exactly
/// where that is not met within so many logs.
pub(crate) fn united(
    alloc: Global,
    logs: &[Log],
    log: &Log,
    disk: &Uuid,
    pieces: u32,
    most: usize,
) -> Result<Option<Bits>, NoMemory>
    ensures united { IfOk result (λ bits. bits ≡ bits_of pieces (walk most disk.now logs.now (Some log.now))) }
    ensures memory { OnErr result (IsSome (bits_of pieces (walk most disk.now logs.now (Some log.now)))) }
{
    if most == 0 {
        return Ok(None);
    }
    if log.is_of(disk) {
        let bits = Bits::new(alloc, pieces)?;
        return Ok(Some(bits));
    }
    let Some(earlier) = before(logs, log) else {
        return Ok(None);
    };
    let longest = pieces.max(log.bits().pieces());
    let Some(mut bits) = united(alloc, logs, earlier, disk, longest, most - 1)? else {
        return Ok(None);
    };
    bits.add(log.bits());
    Ok(Some(bits))
}
