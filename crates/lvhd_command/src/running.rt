//! The word `run`.

ghost use Rattle.std.specs.Prelude.{◌≡◌, ◌≢◌, ◌≤◌, ◌⊎◌, false, Err};
ghost use Rattle.sm_base.specs.declared.faults.OpenFault.{OpenFault};
ghost use Rattle.sm_disk.specs.Held.{IsSettled, Keeps, Rose, reads};
ghost use Rattle.lvhd_command.specs.declared.statuses.Status.TheVariants.{Done, Device, Memory, Refused, Sink as SinkFailed, Source as SourceFailed, Words};
ghost use Rattle.lvhd_command.specs.Devices.{IsKeptDevice, IsOneTable, IsRefusedOn, IsTruthfulDevice, StandsAlways};
ghost use Rattle.lvhd_command.specs.Running.{RunDid, HasStayed, IsGivenBack, KeepsBeside, ShowsOnly, HasTold, sides, status_of};
ghost use Rattle.lvhd_command.specs.Sessions.{IsReadySession, site_of, state_of, table_of};

use crate::formatting::said;
use crate::opening::{into_disk, open};
use crate::statuses::Status;
use crate::texts::print_fault;
use sm_base::OpenFault;
use sm_cache::Cache;
use sm_disk::{Disk, Sink, Source};
use sm_run::{LineBuffer, RunFault, run};
use sm_session::Session;
use std::alloc::Global;
use vg_store::Group;

/// Opens the repository on a device and answers a script, line by line. `now` is in seconds since 2000-01-01 00:00 UTC.
/// The memory for the lines is taken before the device is opened, so no run ends for want of it once a device was written.
/// What stands on the device beside the repository is left as it is.
pub fn run_script<D: Disk, S: Source, K: Sink>(
    alloc: Global,
    now: u32,
    disk: D,
    source: &mut S,
    sink: &mut K,
) -> (Status, D)
    ensures size { D.size result.1 ≡ D.size disk }
    ensures counts { D.faults disk ≤ D.faults result.1 }
    ensures source_counts { S.faults source.old ≤ S.faults source.new }
    ensures sink_counts { K.faults sink.old ≤ K.faults sink.new }
    ensures words { result.0 ≢ Words }
    ensures device { result.0 ≡ Device → Rose (D.faults disk) (D.faults result.1) }
    ensures source { result.0 ≡ SourceFailed → Rose (S.faults source.old) (S.faults source.new) }
    ensures sink { result.0 ≡ SinkFailed → Rose (K.faults sink.old) (K.faults sink.new) }
    ensures calm { result.0 ≢ Device → D.faults result.1 ≡ D.faults disk }
    ensures source_calm { result.0 ≢ SourceFailed → S.faults source.new ≡ S.faults source.old }
    ensures sink_calm { result.0 ≢ SinkFailed → K.faults sink.new ≡ K.faults sink.old }
    ensures did { D.told → IsKeptDevice (D.size disk) (D.held disk)
        → RunDid (sides D.size D.held S.content K.content disk result.1 source.old source.new sink.old sink.new) result.0 }
    ensures truthful { D.told → IsKeptDevice (D.size disk) (D.held disk) → IsTruthfulDevice (D.size disk) (D.held disk) → IsTruthfulDevice (D.size disk) (D.held result.1) }
    ensures beside { D.told → KeepsBeside (D.size disk) (D.held disk) (D.held result.1) }
    ensures refused { D.told → (result.0 ≡ Refused) ⊎ (result.0 ≡ Memory)
        → HasStayed (sides D.size D.held S.content K.content disk result.1 source.old source.new sink.old sink.new) result.0 }
    ensures unsound { D.told → (e : OpenFault) → IsRefusedOn (D.size disk) (reads (D.held disk)) e
        → HasStayed (sides D.size D.held S.content K.content disk result.1 source.old source.new sink.old sink.new) result.0 }
{
    let Ok(mut line) = LineBuffer::new(alloc) else {
        return (Status::Memory, disk);
    };
    let mut session = match open(alloc, disk, now) {
        Ok(session) => session,
        Err((fault, disk)) => return (refuse(&fault, sink), disk),
    };
    match run(alloc, &mut session, &mut line, source, sink) {
        Ok(()) => close(session),
        Err(fault) => (status_of_fault(fault), leave(session)),
    }
}

/// Says why a repository is not opened, where there is a line for it.
pub(crate) fn refuse<K: Sink>(fault: &OpenFault, sink: &mut K) -> Status
    ensures { HasTold fault.now (K.content sink.old) (K.content sink.new) (K.faults sink.old) (K.faults sink.new) result }
{
    match fault {
        OpenFault::Device => Status::Device,
        OpenFault::NoMemory => Status::Memory,
        OpenFault::NotARepository | OpenFault::Unsupported { .. } | OpenFault::Damaged { .. } => {
            said(print_fault(sink, fault), Status::Refused)
        }
    }
}

/// The status of a run that ended early.
fn status_of_fault(fault: RunFault) -> Status
    ensures { result ≡ status_of (Err fault) }
{
    match fault {
        RunFault::Device => Status::Device,
        RunFault::Source => Status::Source,
        RunFault::Sink => Status::Sink,
        RunFault::TooLong => Status::TooLong,
    }
}

/// The device of a session, as it is. No call is made on it.
pub(crate) fn leave<D: Disk>(session: Session<Cache<Group<D>>>) -> D
    ensures disk { result ≡ session.store.inner.disk }
    ensures stands { D.told → StandsAlways (D.size session.store.inner.disk) (D.held session.store.inner.disk) (site_of session) }
    ensures one { D.told → session.broken ≡ false
        → IsOneTable (D.size session.store.inner.disk) (site_of session) (D.held session.store.inner.disk) (table_of session) }
{
    into_disk(session.into_store())
}

/// Makes all that was written last, and hands the device back.
pub(crate) fn close<D: Disk>(session: Session<Cache<Group<D>>>) -> (Status, D)
    ensures size { D.size result.1 ≡ D.size session.store.inner.disk }
    ensures counts { D.faults session.store.inner.disk ≤ D.faults result.1 }
    ensures status { ((result.0 ≡ Done) × (D.told → IsSettled (D.held result.1))) ⊎ (result.0 ≡ Device) }
    ensures device { result.0 ≡ Device → Rose (D.faults session.store.inner.disk) (D.faults result.1) }
    ensures calm { result.0 ≢ Device → D.faults result.1 ≡ D.faults session.store.inner.disk }
    ensures keeps { D.told → Keeps (D.held session.store.inner.disk) (D.held result.1) }
    ensures back { D.told → IsGivenBack (D.size session.store.inner.disk) (site_of session) (D.held session.store.inner.disk) (D.held result.1) }
    ensures one { D.told → session.broken ≡ false
        → IsOneTable (D.size session.store.inner.disk) (site_of session) (D.held result.1) (table_of session) }
    ensures shown { D.told → session.broken ≡ false → IsReadySession session → IsSettled (D.held result.1)
        → ShowsOnly (D.size session.store.inner.disk) (D.held result.1) (state_of session).disks }
{
    let mut disk = leave(session);
    match disk.sync() {
        Ok(()) => (Status::Done, disk),
        Err(_) => (Status::Device, disk),
    }
}
