//! The log of a disk is split as a snapshot is taken of it: the snapshot gets a log with the bits so far, and the disk's begins anew.

ghost use Rattle.std.specs.Prelude.{◌≡◌, ◌≢◌, ◌≤◌, ◌<◌, None, false, length, IfSome, IsSome, OnErr, OnOk};
ghost use Rattle.sm_base.specs.declared.names.Name.TheVariants.{Cbt};
ghost use Rattle.vg_meta.specs.Roomy.{table_alone};
ghost use Rattle.vg_volumes.specs.Stored.{Counts, Leaves, WorksOn, held_in, sectors_in, stored};
ghost use Rattle.sm_log.specs.Heads.{IsHead};
ghost use Rattle.sm_log.specs.Logs.{begun_anew, log_of, log_sectors, on_log, split, twin_log};
ghost use Rattle.sm_logs.specs.Held.{log_limit};
ghost use Rattle.sm_cbt.specs.Making.{MayMake, head_of};
ghost use Rattle.sm_cbt.specs.Splitting.{FailsToSplit, IsInSplit, IsRenewed, IsRenewing, Splits};

use crate::volumes::{make, write_bits, write_head};
use sm_base::Failed;
use sm_logs::{Log, Logs};
use uuid::Uuid;
use vg_volumes::Store;

/// Writes a log over what its volume has: its head, which is made to last, and only then its bits.
fn renew<S: Store>(store: &mut S, log: &Log) -> Result<(), Failed>
    requires some { 1 ≤ length log.now.bits }
    requires room { log_sectors (length log.now.bits) ≤ sectors_in (stored S.Store store.old) (Cbt log.now.disk) }
    ensures proper { IsHead (head_of log.now) }
    ensures works { WorksOn S.Store (Cbt log.now.disk) store.old store.new }
    ensures cause { Counts S.Store result store.old store.new }
    ensures order { S.told → IsRenewing log.now (held_in (stored S.Store store.old) (Cbt log.now.disk)) (held_in (stored S.Store store.new) (Cbt log.now.disk)) }
    ensures lasts { OnOk result (IsRenewed S.Store log.now store.new) }
{
    write_head(store, log)?;
    store.sync()?;
    write_bits(store, log)?;
    store.sync()
}

/// Makes the volume of a snapshot's log, and then writes the disk's log over what its volume has.
fn split_volumes<S: Store>(
    store: &mut S,
    twin: &Log,
    log: &Log,
    extents: Vec<u32>,
) -> Result<(), Failed>
    requires apart { twin.now.disk ≢ log.now.disk }
    requires some { 1 ≤ length log.now.bits }
    requires room { log_sectors (length log.now.bits) ≤ sectors_in (stored S.Store store.old) (Cbt log.now.disk) }
    requires usable { S.failed store.old ≡ false }
    requires row { 0 < (S.table store.old).spare }
    requires may { MayMake (S.site store.old) (table_alone (S.table store.old)) twin.now extents.items }
    ensures cause { Counts S.Store result store.old store.new }
    ensures crash { Leaves S.Store store.new (IsInSplit (stored S.Store store.old) twin.now log.now extents.items) }
    ensures splits { OnOk result (Splits S.Store twin.now log.now extents.items store.old store.new) }
    ensures fails { OnErr result (FailsToSplit S.Store twin.now log.now extents.items store.old store.new) }
{
    make(store, twin, extents)?;
    let _table = store.table();
    renew(store, log)
}

/// Splits the log of a disk of which a snapshot was taken: the snapshot gets the log that was made for it, on these extents, and the disk's begins
/// anew since then. The disk's log loses no bit before the snapshot's log and the new head last. It takes no memory.
///
/// # Errors
/// A call of the store failed. In memory the disk's log has begun anew, and the snapshot has none: the logs are to be read anew.
pub fn split<S: Store>(
    store: &mut S,
    logs: &mut Logs,
    twin: Log,
    extents: Vec<u32>,
    disk: &Uuid,
) -> Result<(), Failed>
    requires tracked { IsSome (log_of disk.now logs.old) }
    requires twin { IfSome (log_of disk.now logs.old) (λ l. twin ≡ twin_log twin.disk twin.tag l) }
    requires absent { log_of twin.disk logs.old ≡ None }
    requires few { length logs.old < log_limit }
    requires room { log_sectors (length twin.bits) ≤ sectors_in (stored S.Store store.old) (Cbt disk.now) }
    requires usable { S.failed store.old ≡ false }
    requires row { 0 < (S.table store.old).spare }
    requires may { MayMake (S.site store.old) (table_alone (S.table store.old)) twin extents.items }
    ensures logs { OnOk result (logs.new ≡ split disk.now twin.disk twin.tag logs.old) }
    ensures ahead { OnErr result (logs.new ≡ on_log disk.now (begun_anew twin.tag) logs.old) }
    ensures cause { Counts S.Store result store.old store.new }
    ensures crash { IfSome (log_of disk.now logs.old) (λ l. Leaves S.Store store.new (IsInSplit (stored S.Store store.old) twin (begun_anew twin.tag l) extents.items)) }
    ensures splits { IfSome (log_of disk.now logs.old) (λ l. OnOk result (Splits S.Store twin (begun_anew twin.tag l) extents.items store.old store.new)) }
    ensures fails { IfSome (log_of disk.now logs.old) (λ l. OnErr result (FailsToSplit S.Store twin (begun_anew twin.tag l) extents.items store.old store.new)) }
{
    let tag = twin.head().tag;
    logs.begin(disk, tag);
    let Some(log) = logs.get(disk) else {
        unreachable!()
    };
    split_volumes(store, &twin, log, extents)?;
    logs.insert(twin);
    Ok(())
}
