//! The word `export`.

ghost use Rattle.std.specs.Prelude.{◌≡◌, ◌≢◌, ◌≤◌, false};
ghost use Rattle.sm_disk.specs.Held.{HasSectors, Keeps, Rose};
ghost use Rattle.sm_ready.specs.Framing.{IsBetweenSteps};
ghost use Rattle.sm_ready.specs.Sessions.{IsReadyStore};
ghost use Rattle.sm_ready.specs.Stores.{store_content};
ghost use Rattle.vg_volumes.specs.Stored.{OnlyReads};
ghost use Rattle.lvhd_command.specs.declared.statuses.Status.TheVariants.{Device, Sink as SinkFailed, Source, TooLong, Words};
ghost use Rattle.lvhd_command.specs.Devices.{IsKeptDevice, IsOneTable, IsTruthfulDevice, StandsAlways};
ghost use Rattle.lvhd_command.specs.Exporting.{ContentSaid, ContentSent, ExportDid, export_sides, export_status};
ghost use Rattle.lvhd_command.specs.Sessions.{IsReadySession, content_read, site_of, table_of};

use crate::formatting::said;
use crate::opening::{into_disk, open};
use crate::running::refuse;
use crate::statuses::Status;
use crate::texts::print_unknown;
use crate::words::Wanted;
use sm_cache::Cache;
use sm_disk::{Disk, Sink};
use sm_ready::Memory;
use sm_session::Session;
use std::alloc::Global;
use uuid::Uuid;
use vg_store::Group;
use vg_volumes::Store;
use vhd_stream::{ExportFault, export, is_disk};

/// Opens the repository on a device and sends the disk that is wanted to a sink as a VHD file, or says that no disk has its UUID. `now` is
/// in seconds since 2000-01-01 00:00 UTC, the file's stamp. Behind the opening nothing is written.
pub fn run_export<D: Disk, K: Sink>(
    alloc: Global,
    wanted: &Wanted,
    now: u32,
    disk: D,
    sink: &mut K,
) -> (Status, D)
    ensures size { D.size result.1 ≡ D.size disk }
    ensures counts { D.faults disk ≤ D.faults result.1 }
    ensures sink_counts { K.faults sink.old ≤ K.faults sink.new }
    ensures few { (result.0 ≢ Words) × (result.0 ≢ Source) × (result.0 ≢ TooLong) }
    ensures device { result.0 ≡ Device → Rose (D.faults disk) (D.faults result.1) }
    ensures sink { result.0 ≡ SinkFailed → Rose (K.faults sink.old) (K.faults sink.new) }
    ensures calm { result.0 ≢ Device → D.faults result.1 ≡ D.faults disk }
    ensures sink_calm { result.0 ≢ SinkFailed → K.faults sink.new ≡ K.faults sink.old }
    ensures did { D.told → ExportDid (export_sides D.size D.held K.content disk result.1 sink.old sink.new) wanted.now.disk now result.0 }
    ensures truthful { D.told → IsKeptDevice (D.size disk) (D.held disk) → IsTruthfulDevice (D.size disk) (D.held disk) → IsTruthfulDevice (D.size disk) (D.held result.1) }
{
    match open(alloc, disk, now) {
        Ok(session) => send_disk(alloc, &wanted.disk, now, session, sink),
        Err((fault, disk)) => (refuse(&fault, sink), disk),
    }
}

/// Sends a disk of an open repository, or says that no disk has the UUID, and hands the device back.
fn send_disk<D: Disk, K: Sink>(
    alloc: Global,
    uuid: &Uuid,
    now: u32,
    session: Session<Cache<Group<D>>>,
    sink: &mut K,
) -> (Status, D)
    requires whole { session.broken ≡ false }
    ensures size { D.size result.1 ≡ D.size session.store.inner.disk }
    ensures counts { D.faults session.store.inner.disk ≤ D.faults result.1 }
    ensures sink_counts { K.faults sink.old ≤ K.faults sink.new }
    ensures device { result.0 ≡ Device → Rose (D.faults session.store.inner.disk) (D.faults result.1) }
    ensures sink { result.0 ≡ SinkFailed → Rose (K.faults sink.old) (K.faults sink.new) }
    ensures calm { result.0 ≢ Device → D.faults result.1 ≡ D.faults session.store.inner.disk }
    ensures sink_calm { result.0 ≢ SinkFailed → K.faults sink.new ≡ K.faults sink.old }
    ensures keeps { D.told → Keeps (D.held session.store.inner.disk) (D.held result.1) }
    ensures stands { D.told → StandsAlways (D.size result.1) (D.held result.1) (site_of session) }
    ensures sectors { D.told → HasSectors (D.size result.1) (D.held result.1) }
    ensures one { D.told → IsOneTable (D.size result.1) (site_of session) (D.held result.1) (table_of session) }
    ensures said { ContentSaid (K.content sink.old) (K.content sink.new) result.0 }
    ensures sent { D.told → IsReadySession session
        → ContentSent (content_read session) uuid.now now (K.content sink.old) (K.content sink.new) result.0 }
{
    let (store, memory) = session.into_parts();
    let mut cache = store;
    let status = send_or_refuse(alloc, uuid, now, &mut cache, &memory, sink);
    let disk = into_disk(cache);
    let _sectors = disk.sectors();
    (status, disk)
}

/// Sends a disk of a store between two steps, or says that no disk has the UUID.
fn send_or_refuse<S: Store, K: Sink>(
    alloc: Global,
    uuid: &Uuid,
    now: u32,
    store: &mut S,
    memory: &Memory,
    sink: &mut K,
) -> Status
    requires session { IsBetweenSteps S.Store store.old memory.now }
    ensures reads { OnlyReads S.Store store.old store.new }
    ensures sink_counts { K.faults sink.old ≤ K.faults sink.new }
    ensures device { result ≡ Device → Rose (S.faults store.old) (S.faults store.new) }
    ensures sink { result ≡ SinkFailed → Rose (K.faults sink.old) (K.faults sink.new) }
    ensures calm { result ≢ Device → S.faults store.new ≡ S.faults store.old }
    ensures sink_calm { result ≢ SinkFailed → K.faults sink.new ≡ K.faults sink.old }
    ensures said { ContentSaid (K.content sink.old) (K.content sink.new) result }
    ensures sent { S.told → IsReadyStore S.Store store.old memory.now
        → ContentSent (store_content S.Store store.old) uuid.now now (K.content sink.old) (K.content sink.new) result }
{
    if is_disk(memory, uuid) {
        status_of_export(export(alloc, store, memory, uuid, now, sink))
    } else {
        said(print_unknown(sink), Status::Denied)
    }
}

/// The status of an export.
fn status_of_export(sent: Result<(), ExportFault>) -> Status
    ensures { result ≡ export_status sent }
{
    match sent {
        Ok(()) => Status::Done,
        Err(ExportFault::Device) => Status::Device,
        Err(ExportFault::Sink) => Status::Sink,
        Err(ExportFault::NoMemory) => Status::Memory,
    }
}
