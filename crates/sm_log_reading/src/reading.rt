//! The log of one disk is read off its volume.

ghost use Rattle.std.specs.Prelude.{◌≡◌, ◌≢◌, ◌≤◌, ◌<◌, ◌⊎◌, length, map, Err, IfOk, IfErr, IfSome};
ghost use Rattle.sm_base.specs.Numbers.{div_up};
ghost use Rattle.sm_base.specs.declared.faults.CallFault.TheVariants as fault;
ghost use Rattle.common_laws.specs.Lists.{numbers};
ghost use Rattle.sm_disk.specs.Held.{reads};
ghost use Rattle.vg_meta.specs.Roomy.{table_alone};
ghost use Rattle.vg_volumes.specs.Stored.{Counts, Faults, OnlyReads, held_in, sectors_in, stored};
ghost use Rattle.sm_log.specs.Logs.{log_sectors, sector_bits};
ghost use Rattle.sm_standing.specs.Logs.{bit_in};
ghost use Rattle.sm_log_reading.specs.Reading.{IsReadOf, content_of, filled_extents, whole_log};

use sm_base::{CallFault, Failed, Name};
use sm_log::{Bits, Head};
use sm_logs::Log;
use std::alloc::Global;
use uuid::Uuid;
use vg_meta::Table;
use vg_volumes::Store;

/// The bits of a sector.
const SECTOR_BITS: u32 = 4096;

/// The extents of a disk's log, where its volume is there and not new.
pub(crate) fn filled_extents(table: &Table, disk: &Uuid) -> Option<usize>
    ensures { result ≡ filled_extents (table_alone table.now) disk.now }
{
    let volume = table.get(&Name::Cbt(*disk))?;
    if volume.is_fresh() {
        return None;
    }
    Some(volume.extents().len())
}

/// How many sectors have the bits of so many pieces.
#[tactic(auto, unfolding(sm_base::specs::Numbers::div_up))]
fn bit_sectors(pieces: u32) -> u32
    ensures { result ≡ div_up pieces sector_bits }
{
    pieces.div_ceil(SECTOR_BITS)
}

/// One sector of a volume.
fn sector_of<S: Store>(store: &mut S, volume: &Name, at: u64) -> Result<[u8; 512], Failed>
    requires { at < sectors_in (stored S.Store store.old) volume.now }
    ensures only { OnlyReads S.Store store.old store.new }
    ensures cause { Counts S.Store result store.old store.new }
    ensures gave { S.told → IfOk result (λ bytes. bytes ≡ reads (held_in (stored S.Store store.old) volume.now) at) }
{
    let mut bytes = [0; 512];
    store.read(volume, at, &mut bytes)?;
    Ok(bytes)
}

/// The bits of so many pieces, sector by sector from the second of a volume on.
fn read_bits<S: Store>(
    alloc: Global,
    store: &mut S,
    volume: &Name,
    pieces: u32,
) -> Result<Bits, CallFault>
    requires { log_sectors pieces ≤ sectors_in (stored S.Store store.old) volume.now }
    ensures only { OnlyReads S.Store store.old store.new }
    ensures calm { result ≢ Err fault.Device → S.faults store.new ≡ S.faults store.old }
    ensures cause { IfErr result (λ e. (e ≡ fault.NoMemory) ⊎ ((e ≡ fault.Device) × Faults S.Store store.old store.new)) }
    ensures long { IfOk result (λ bits. length bits ≡ pieces) }
    ensures bits { S.told → IfOk result (λ bits. bits ≡ map (bit_in (reads (held_in (stored S.Store store.old) volume.now))) (numbers 0 pieces)) }
{
    let Ok(mut bits) = Bits::new(alloc, pieces) else {
        return Err(CallFault::NoMemory);
    };
    for index in 0..bit_sectors(pieces) {
        let Ok(sector) = sector_of(store, volume, 1 + u64::from(index)) else {
            return Err(CallFault::Device);
        };
        bits.from_sector(index, &sector);
    }
    Ok(bits)
}

/// The log of a disk of so many pieces, off its volume. `None` exactly where the volume is not there or new, where its first sector is no head or that of
/// another number of pieces, and where it has too few sectors.
///
/// # Errors
/// `Device` where a call of the store failed, and `NoMemory`.
pub fn read_log<S: Store>(
    alloc: Global,
    store: &mut S,
    disk: &Uuid,
    pieces: u32,
) -> Result<Option<Log>, CallFault>
    ensures only { OnlyReads S.Store store.old store.new }
    ensures calm { result ≢ Err fault.Device → S.faults store.new ≡ S.faults store.old }
    ensures cause { IfErr result (λ e. (e ≡ fault.NoMemory) ⊎ ((e ≡ fault.Device) × Faults S.Store store.old store.new)) }
    ensures own { IfOk result (λ found. IfSome found (IsReadOf (table_alone (S.table store.old)) (S.site store.old).geometry.extent disk.now pieces)) }
    ensures log { S.told → IfOk result (λ found. found ≡ whole_log (content_of (stored S.Store store.old)) disk.now pieces) }
{
    let Some(extents) = filled_extents(store.table(), disk) else {
        return Ok(None);
    };
    // No volume has more extents than the group.
    let _most = store.extents();
    let size = extents as u64 * u64::from(store.geometry().extent);
    if size < 1 + u64::from(bit_sectors(pieces)) {
        return Ok(None);
    }
    let volume = Name::Cbt(*disk);
    let Ok(sector) = sector_of(store, &volume, 0) else {
        return Err(CallFault::Device);
    };
    let Some(head) = Head::read(&sector) else {
        return Ok(None);
    };
    if head.pieces != pieces {
        return Ok(None);
    }
    let bits = read_bits(alloc, store, &volume, pieces)?;
    let log = Log::new(*disk, extents as u32, head.tag, head.since, bits);
    Ok(Some(log))
}
