//! What the split of a log needs is taken before the snapshot, as no memory may be wanting behind it.

ghost use Rattle.std.specs.Prelude.{◌≡◌, ◌<◌, ◌≤◌, ◌^◌, ◌++◌, ℕ, List, [], false, not, length, replicate, slice_index_or, take, IfOk, IfSome};
ghost use Rattle.std.specs.List.{filter, range_with_len};
ghost use Rattle.std.specs.Option.{is_some};
ghost use Rattle.std.specs.Vec.{vec_capacity};
ghost use Rattle.sm_base.specs.Names.{IsUuid};
ghost use Rattle.sm_log.specs.Logs.{log_of};
ghost use Rattle.vg_meta.specs.Roomy.{rows_alone, table_alone};
ghost use Rattle.vg_meta.specs.Tables.{extents_in, free};
ghost use Rattle.vg_meta.specs.Taken.{IsMarked};
ghost use Rattle.sm_tracking.specs.Rooms.{IsRoomFor};

use sm_base::NoMemory;
use sm_logs::{LOG_LIMIT, Log};
use sm_ready::Memory;
use std::alloc::Global;
use uuid::Uuid;
use vg_meta::{Table, Volume};

/// What the split of a disk's log takes: the snapshot's log, a mark for each extent of the group, and places for the extents of the log's volume.
#[derive(Drop)]
pub struct Room {
    /// The snapshot's log.
    pub log: Log,
    /// A mark for each extent.
    pub marks: Vec<bool>,
    /// Places for extents.
    pub extents: Vec<u32>,
}

/// Sixteen bytes are those of a UUID. The call does nothing.
pub(crate) fn law_uuid(bytes: &[u8])
    requires { length bytes.now ≡ 16 }
    ensures { IsUuid bytes.now }
{
    let _count = bytes.len();
}

/// Takes what the split of a disk's log needs, in a group of so many extents, for the snapshot's log with this tag: `None` exactly where the disk has
/// no log.
///
/// # Errors
/// Memory ran out; or there is no place in memory for one log more, or there is a log of the snapshot's UUID already: while each log is that of
/// a disk neither comes about.
pub fn prepare(
    alloc: Global,
    memory: &Memory,
    extents: u32,
    disk: &Uuid,
    twin: Uuid,
    tag: u64,
) -> Result<Option<Room>, NoMemory>
    ensures tracked { IfOk result (λ o. is_some o ≡ is_some (log_of disk.now memory.now.logs)) }
    ensures room { IfOk result (λ o. IfSome o (IsRoomFor extents memory.now.logs disk.now)) }
    ensures twin { IfOk result (λ o. IfSome o (λ r. (r.log.disk ≡ twin) × (r.log.tag ≡ tag))) }
{
    let Some(own) = memory.logs.get(disk) else {
        return Ok(None);
    };
    law_uuid(twin.as_bytes());
    if memory.logs.get(&twin).is_some() || memory.logs.rows().len() >= LOG_LIMIT {
        return Err(NoMemory);
    }
    let log = own.twin(alloc, twin, tag)?;
    let Ok(marks) = vec![in alloc; false; extents as usize] else {
        return Err(NoMemory);
    };
    let mut places = Vec::new(alloc);
    let Ok(()) = places.reserve(log.extents() as usize) else {
        return Err(NoMemory);
    };
    Ok(Some(Room {
        log,
        marks,
        extents: places,
    }))
}

/// Marks extents. Those past the marks are left out.
fn mark(marks: &mut [bool], extents: &[u32])
    ensures { (us : List ℕ) → IsMarked us marks.old → IsMarked (us ++ extents.now) marks.new }
{
    for extent in extents {
        let at = *extent as usize;
        if at >= marks.len() {
            continue;
        }
        marks[at] = true;
    }
}

/// Marks the extents of volumes.
fn mark_all(marks: &mut [bool], volumes: &[Volume])
    ensures { (us : List ℕ) → IsMarked us marks.old → IsMarked (us ++ extents_in (rows_alone volumes.now)) marks.new }
{
    for volume in volumes {
        mark(marks, volume.extents());
    }
}

/// The least extents without a mark, at most so many, for which there are places.
fn take_unmarked(marks: &[bool], found: &mut Vec<u32>, need: u32)
    requires few { length marks.now < 2 ^ 32 }
    requires none { found.old.items ≡ [] }
    requires places { need ≤ vec_capacity found.old }
    ensures { found.new.items ≡ take need (filter (λ e. not (slice_index_or marks.now e false)) (range_with_len 0 (length marks.now))) }
{
    for extent in 0..marks.len() as u32 {
        if found.len() == need as usize {
            return;
        }
        if marks[extent as usize] {
            continue;
        }
        let _ = found.push(extent);
    }
}

/// The least extents that no volume has, at most so many, for which there are places. The marks are those of all extents, none of them set.
pub(crate) fn find_least(table: &Table, marks: &mut Vec<bool>, found: &mut Vec<u32>, need: u32)
    requires few { length marks.old.items < 2 ^ 32 }
    requires clear { marks.old.items ≡ replicate (length marks.old.items) false }
    requires none { found.old.items ≡ [] }
    requires places { need ≤ vec_capacity found.old }
    ensures { found.new.items ≡ take need (free (length marks.old.items) (table_alone table.now)) }
{
    mark_all(marks, table.volumes());
    take_unmarked(marks, found, need);
}
