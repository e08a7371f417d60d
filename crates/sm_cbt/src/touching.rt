//! Pieces of a disk are marked in its log before they are written.

ghost use Rattle.std.specs.Prelude.{◌≡◌, ◌≤◌, ◌+◌, ◌*◌, ◌/◌, ◌-◌, true, false, length, IfSome, IsOk, OnOk};
ghost use Rattle.sm_base.specs.declared.names.Name.TheVariants.{Cbt};
ghost use Rattle.vg_volumes.specs.Stored.{Counts, WorksOn, sectors_in, stored};
ghost use Rattle.sm_log.specs.Logs.{log_of, log_sectors, on_log, touched};
ghost use Rattle.sm_logs.specs.Held.{is_touched};
ghost use Rattle.sm_cbt.specs.Marks.{IsWithinLog, Lasts, Marks};

use sm_base::{Failed, Name};
use sm_logs::{Log, Logs};
use uuid::Uuid;
use vg_volumes::Store;

/// The sectors of a disk whose bits stand in one sector of its log, which has 4,096 bits: one for each piece of 128 sectors.
const SPAN: u64 = 4_096 * 128;

/// Writes the bits of the pieces that so many sectors of a log's disk from one on reach, as memory has them, and makes them last.
fn put<S: Store>(store: &mut S, log: &Log, sector: u64, count: u64) -> Result<(), Failed>
    requires some { 1 ≤ count }
    requires within { IsWithinLog sector count log.now }
    requires room { log_sectors (length log.now.bits) ≤ sectors_in (stored S.Store store.old) (Cbt log.now.disk) }
    ensures works { WorksOn S.Store (Cbt log.now.disk) store.old store.new }
    ensures cause { Counts S.Store result store.old store.new }
    ensures marks { Marks S.Store log.now sector count store.old store.new }
    ensures lasts { OnOk result (Lasts S.Store log.now sector count store.new) }
{
    // No log has 2^32 pieces or more.
    let _pieces = log.bits().pieces();
    let first = sector / SPAN;
    let last = (sector + count - 1) / SPAN;
    let volume = Name::Cbt(log.disk());
    let bits = log.bits().sectors(first as u32, (last - first + 1) as u32);
    store.write(&volume, 1 + first, bits)?;
    store.sync()
}

/// Marks the pieces that so many sectors of a disk from one on reach in its log, where it has one: in memory, and on the store so that it lasts. Where
/// all of them were marked, and where the disk has no log, no call of the store is made; nor where the sectors do not all lie in pieces of the log, of
/// which memory marks those that do. Behind a call that failed memory has marks that the store may lack: the logs are to be read anew before anything is
/// written.
///
/// # Errors
/// A call of the store failed; memory has the marks, the store may have them or not.
pub fn touch<S: Store>(
    store: &mut S,
    logs: &mut Logs,
    disk: &Uuid,
    sector: u64,
    count: u64,
) -> Result<(), Failed>
    requires some { 1 ≤ count }
    requires room { IfSome (log_of disk.now logs.old) (λ l. log_sectors (length l.bits) ≤ sectors_in (stored S.Store store.old) (Cbt disk.now)) }
    ensures logs { logs.new ≡ on_log disk.now (touched sector count) logs.old }
    ensures works { WorksOn S.Store (Cbt disk.now) store.old store.new }
    ensures cause { Counts S.Store result store.old store.new }
    ensures marks { IfSome (log_of disk.now logs.new) (λ l. Marks S.Store l sector count store.old store.new) }
    ensures lasts { is_touched disk.now sector count logs.old ≡ false → IfSome (log_of disk.now logs.new) (λ l. IsWithinLog sector count l → OnOk result (Lasts S.Store l sector count store.new)) }
    ensures still { is_touched disk.now sector count logs.old ≡ true → IsOk result × (store.new ≡ store.old) }
{
    let marked = logs.is_touched(disk, sector, count);
    logs.touch(disk, sector, count);
    if marked {
        return Ok(());
    }
    let Some(log) = logs.get(disk) else {
        unreachable!()
    };
    if !log.bits().has(sector, count) {
        return Ok(());
    }
    put(store, log, sector, count)
}
