//! The volume of a log is made: as new, then its head and its bits, and then it is new no longer.
//!
//! Each of the two commits makes last what was written before it. So a stop leaves no volume of the log, or one that is new, which an opening
//! removes, or the log whole.

ghost use Rattle.std.specs.Prelude.{◌≡◌, ◌≤◌, ◌<◌, false, length, OnOk, OnErr};
ghost use Rattle.sm_base.specs.declared.names.Name.TheVariants.{Cbt};
ghost use Rattle.sm_disk.specs.Held.{IsWhole, Torn, Wrote, reads};
ghost use Rattle.vg_meta.specs.Roomy.{table_alone};
ghost use Rattle.vg_volumes.specs.Stored.{CanCommit, Commits, Counts, FailsToCommit, IsEitherOf, Leaves, WorksOn, Writes, held_in, sectors_in, stored};
ghost use Rattle.sm_log.specs.Heads.{IsHead, head_sector};
ghost use Rattle.sm_log.specs.Logs.{log_sectors};
ghost use Rattle.sm_cbt.specs.Making.{AreOf, FailsToMake, IsMaking, Makes, MayMake, bits_bytes, creating, finishing, head_of};

use sm_base::{Failed, Name};
use sm_logs::Log;
use vg_meta::{Change, Extents, Tag};
use vg_volumes::Store;

/// Makes the volume of a log, as new, by one commit.
fn begin<S: Store>(store: &mut S, log: &Log, extents: Vec<u32>) -> Result<(), Failed>
    requires { CanCommit S.Store (creating log.now extents.items) store.old }
    ensures commits { OnOk result (Commits S.Store (creating log.now extents.items) store.old store.new) }
    ensures fails { OnErr result (FailsToCommit S.Store store.old store.new) }
    ensures crash { Leaves S.Store store.new (IsEitherOf (stored S.Store store.old) (creating log.now extents.items)) }
    ensures cause { Counts S.Store result store.old store.new }
{
    let name = Name::Cbt(log.disk());
    store.commit(Change::Create {
        name,
        fresh: true,
        extents: Extents::new(extents),
    })?;
    Ok(())
}

/// The volume of a log is new no longer, by one commit.
fn finish<S: Store>(store: &mut S, log: &Log) -> Result<(), Failed>
    requires { CanCommit S.Store (finishing log.now) store.old }
    ensures commits { OnOk result (Commits S.Store (finishing log.now) store.old store.new) }
    ensures fails { OnErr result (FailsToCommit S.Store store.old store.new) }
    ensures crash { Leaves S.Store store.new (IsEitherOf (stored S.Store store.old) (finishing log.now)) }
    ensures cause { Counts S.Store result store.old store.new }
{
    let name = Name::Cbt(log.disk());
    store.commit(Change::Mark {
        name,
        tag: Tag::Fresh,
        on: false,
    })?;
    Ok(())
}

/// Writes whole sectors of a volume from one on.
fn write_at<S: Store>(store: &mut S, volume: &Name, at: u64, from: &[u8]) -> Result<(), Failed>
    requires { IsWhole at (length from.now) (sectors_in (stored S.Store store.old) volume.now) }
    ensures writes { Writes S.Store volume.now (Torn at from.now) store.old store.new }
    ensures wrote { OnOk result (Writes S.Store volume.now (Wrote at from.now) store.old store.new) }
    ensures cause { Counts S.Store result store.old store.new }
{
    store.write(volume, at, from)
}

/// The first sector of a log.
fn head_sector_of(log: &Log) -> [u8; 512]
    ensures sector { result ≡ head_sector (head_of log.now) }
    ensures proper { IsHead (head_of log.now) }
{
    let head = log.head();
    head.to_sector()
}

/// Writes the head of a log into its volume.
pub(crate) fn write_head<S: Store>(store: &mut S, log: &Log) -> Result<(), Failed>
    requires { 1 ≤ sectors_in (stored S.Store store.old) (Cbt log.now.disk) }
    ensures proper { IsHead (head_of log.now) }
    ensures writes { Writes S.Store (Cbt log.now.disk) (Torn 0 (head_sector (head_of log.now))) store.old store.new }
    ensures wrote { OnOk result (Writes S.Store (Cbt log.now.disk) (Wrote 0 (head_sector (head_of log.now))) store.old store.new) }
    ensures cause { Counts S.Store result store.old store.new }
{
    let head = head_sector_of(log);
    write_at(store, &Name::Cbt(log.disk()), 0, &head)
}

/// Writes all bits of a log into its volume.
pub(crate) fn write_bits<S: Store>(store: &mut S, log: &Log) -> Result<(), Failed>
    requires some { 1 ≤ length log.now.bits }
    requires room { log_sectors (length log.now.bits) ≤ sectors_in (stored S.Store store.old) (Cbt log.now.disk) }
    ensures writes { Writes S.Store (Cbt log.now.disk) (Torn 1 (bits_bytes log.now)) store.old store.new }
    ensures wrote { OnOk result (Writes S.Store (Cbt log.now.disk) (Wrote 1 (bits_bytes log.now)) store.old store.new) }
    ensures cause { Counts S.Store result store.old store.new }
{
    let pieces = u64::from(log.bits().pieces());
    let count = (pieces + 4_095) / 4_096;
    let bits = log.bits().sectors(0, count as u32);
    write_at(store, &Name::Cbt(log.disk()), 1, bits)
}

/// Writes a log into its volume.
fn fill<S: Store>(store: &mut S, log: &Log) -> Result<(), Failed>
    requires some { 1 ≤ length log.now.bits }
    requires room { log_sectors (length log.now.bits) ≤ sectors_in (stored S.Store store.old) (Cbt log.now.disk) }
    ensures proper { IsHead (head_of log.now) }
    ensures works { WorksOn S.Store (Cbt log.now.disk) store.old store.new }
    ensures filled { OnOk result (S.told → AreOf log.now (reads (held_in (stored S.Store store.new) (Cbt log.now.disk)))) }
    ensures cause { Counts S.Store result store.old store.new }
{
    write_head(store, log)?;
    write_bits(store, log)
}

/// Makes the volume of a log on these extents, and writes the log into it. It takes no memory.
///
/// # Errors
/// A call of the store failed: no volume of the log is there, or one that is new.
pub(crate) fn make<S: Store>(store: &mut S, log: &Log, extents: Vec<u32>) -> Result<(), Failed>
    requires usable { S.failed store.old ≡ false }
    requires row { 0 < (S.table store.old).spare }
    requires may { MayMake (S.site store.old) (table_alone (S.table store.old)) log.now extents.items }
    ensures cause { Counts S.Store result store.old store.new }
    ensures crash { Leaves S.Store store.new (IsMaking (stored S.Store store.old) log.now extents.items) }
    ensures makes { OnOk result (Makes S.Store log.now extents.items store.old store.new) }
    ensures fails { OnErr result (FailsToMake S.Store log.now extents.items store.old store.new) }
{
    begin(store, log, extents)?;
    fill(store, log)?;
    finish(store, log)
}
