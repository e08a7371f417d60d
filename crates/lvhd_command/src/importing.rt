//! The word `import`.

ghost use Rattle.std.specs.Prelude.{◌≡◌, ◌≢◌, ◌≤◌, ◌⊎◌, false, Some, ℕ, List};
ghost use Rattle.sm_base.specs.declared.refusals.Refusal.{Refusal};
ghost use Rattle.sm_disk.specs.Held.{IsSettled, Keeps, Rose};
ghost use Rattle.sm_ready.specs.Sessions.{IsAtEase};
ghost use Rattle.sm_ready.specs.Stores.{MayShow};
ghost use Rattle.sm_refusals.specs.Importing.{entry_refusal};
ghost use Rattle.sm_run.specs.Runs.{BeginsSettled};
ghost use Rattle.lvhd_command.specs.declared.statuses.Status.TheVariants.{Device, Done, Sink as SinkFailed, Source as SourceFailed, Words};
ghost use Rattle.lvhd_command.specs.Devices.{IsKeptDevice, IsTruthfulDevice, StandsAlways, beside_at};
ghost use Rattle.sm_session.specs.Truth.{AreTold};
ghost use Rattle.lvhd_command.specs.Importing.{CountedAs, HasAnswered, ImportDid, ImportLeft, ImportTold, IsRefusedAtOnce};
ghost use Rattle.lvhd_command.specs.Sessions.{IsReadySession, KeepsSession, session_leaves, site_of, state_of};
ghost use Rattle.lvhd_command.specs.Running.{sides};

use crate::formatting::said;
use crate::opening::{into_disk, open};
use crate::running::refuse;
use crate::statuses::Status;
use crate::words::Wanted;
use cmd_import::import;
use sm_cache::Cache;
use sm_disk::{Disk, Sink, Source};
use sm_script::write_refusal_line;
use sm_session::Session;
use std::alloc::Global;
use uuid::Uuid;
use vg_store::Group;
use vhd_import::ImportFault;

/// Opens the repository on a device and makes the disk that is wanted of the VHD file that a source gives, or says in one line why it is not
/// taken. `now` is in seconds since 2000-01-01 00:00 UTC.
pub fn run_import<D: Disk, S: Source, K: Sink>(
    alloc: Global,
    wanted: &Wanted,
    now: u32,
    disk: D,
    source: &mut S,
    sink: &mut K,
) -> (Status, D)
    ensures size { D.size result.1 ≡ D.size disk }
    ensures counts { D.faults disk ≤ D.faults result.1 }
    ensures source_counts { S.faults source.old ≤ S.faults source.new }
    ensures sink_counts { K.faults sink.old ≤ K.faults sink.new }
    ensures words { result.0 ≢ Words }
    ensures device { result.0 ≡ Device → Rose (D.faults disk) (D.faults result.1) }
    ensures source { result.0 ≡ SourceFailed → Rose (S.faults source.old) (S.faults source.new) }
    ensures sink { result.0 ≡ SinkFailed → Rose (K.faults sink.old) (K.faults sink.new) }
    ensures calm { result.0 ≢ Device → D.faults result.1 ≡ D.faults disk }
    ensures source_calm { result.0 ≢ SourceFailed → result.0 ≢ Device → S.faults source.new ≡ S.faults source.old }
    ensures sink_calm { result.0 ≢ SinkFailed → K.faults sink.new ≡ K.faults sink.old }
    ensures did { D.told → ImportDid (sides D.size D.held S.content K.content disk result.1 source.old source.new sink.old sink.new) wanted.now.disk result.0 }
    ensures truthful { D.told → IsKeptDevice (D.size disk) (D.held disk) → IsTruthfulDevice (D.size disk) (D.held disk) → IsTruthfulDevice (D.size disk) (D.held result.1) }
    ensures unread { D.told → IsKeptDevice (D.size disk) (D.held disk) → IsRefusedAtOnce
        (sides D.size D.held S.content K.content disk result.1 source.old source.new sink.old sink.new) wanted.now.disk → source.new ≡ source.old }
{
    match open(alloc, disk, now) {
        Ok(session) => make_disk(alloc, &wanted.disk, now, session, source, sink),
        Err((fault, disk)) => (refuse(&fault, sink), disk),
    }
}

/// Makes a disk of an open repository, makes it last, and hands the device back.
fn make_disk<D: Disk, S: Source, K: Sink>(
    alloc: Global,
    uuid: &Uuid,
    now: u32,
    session: Session<Cache<Group<D>>>,
    source: &mut S,
    sink: &mut K,
) -> (Status, D)
    requires whole { session.broken ≡ false }
    requires ease { IsAtEase session.memory }
    ensures size { D.size result.1 ≡ D.size session.store.inner.disk }
    ensures counted { CountedAs (S.faults source.old) (S.faults source.new) (D.faults session.store.inner.disk) (D.faults result.1)
        (K.faults sink.old) (K.faults sink.new) result.0 }
    ensures unread { (r : Refusal) → entry_refusal (state_of session).shape uuid.now ≡ Some r → source.new ≡ source.old }
    ensures beside { D.told → Keeps (beside_at (site_of session) (D.held session.store.inner.disk)) (beside_at (site_of session) (D.held result.1)) }
    ensures stands { D.told → StandsAlways (D.size result.1) (D.held result.1) (site_of session) }
    ensures kept { D.told → IsReadySession session → KeepsSession session → IsKeptDevice (D.size result.1) (D.held result.1) }
    ensures truthful { D.told → IsReadySession session → AreTold (site_of session) (session_leaves session) (state_of session).shape
        → IsTruthfulDevice (D.size result.1) (D.held result.1) }
    ensures told { ImportTold (state_of session).shape uuid.now (S.content source.old) (K.content sink.old) (K.content sink.new) result.0 }
    ensures left { D.told → IsReadySession session → BeginsSettled (state_of session) (MayShow (site_of session) (session_leaves session))
        → ImportLeft (state_of session) uuid.now (D.size session.store.inner.disk) (D.held result.1) (S.content source.old) (S.content source.new) result.0 }
{
    let (store, memory) = session.into_parts();
    let (answer, store, _memory) = import(alloc, uuid, now, store, memory, source);
    let status = say_answer(&answer, sink);
    let disk = into_disk(store);
    match answer {
        Ok(_) => settle(disk),
        Err(_) => (status, disk),
    }
}

/// Makes all that was written last.
fn settle<D: Disk>(disk: D) -> (Status, D)
    ensures size { D.size result.1 ≡ D.size disk }
    ensures counts { D.faults disk ≤ D.faults result.1 }
    ensures status { ((result.0 ≡ Done) × (D.told → IsSettled (D.held result.1))) ⊎ (result.0 ≡ Device) }
    ensures device { result.0 ≡ Device → Rose (D.faults disk) (D.faults result.1) }
    ensures calm { result.0 ≢ Device → D.faults result.1 ≡ D.faults disk }
    ensures keeps { D.told → Keeps (D.held disk) (D.held result.1) }
{
    let mut disk = disk;
    match disk.sync() {
        Ok(()) => (Status::Done, disk),
        Err(_) => (Status::Device, disk),
    }
}

/// The status of an import, of which a refusal is said in one line.
fn say_answer<K: Sink>(answer: &Result<u64, ImportFault>, sink: &mut K) -> Status
    ensures { HasAnswered answer.now (K.content sink.old) (K.content sink.new) (K.faults sink.old) (K.faults sink.new) result }
{
    match answer {
        Ok(_) => Status::Done,
        Err(ImportFault::Refused(refusal)) => {
            said(write_refusal_line(sink, b"error", refusal), Status::Denied)
        }
        Err(ImportFault::Long) => Status::TooLong,
        Err(ImportFault::Device) => Status::Device,
        Err(ImportFault::Source) => Status::Source,
        Err(ImportFault::NoMemory) => Status::Memory,
    }
}
