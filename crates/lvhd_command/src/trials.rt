//! The word `trial`.

ghost use Rattle.std.specs.Prelude.{◌≡◌, ◌≢◌, ◌≤◌, ◌<◌, ◌⊎◌, false};
ghost use Rattle.sm_disk.specs.Held.{Keeps, Rose};
ghost use Rattle.sm_base.specs.declared.faults.CallFault.TheVariants as fault;
ghost use Rattle.sm_script.specs.Pieces.{Writes};
ghost use Rattle.lvhd_command.specs.declared.statuses.Status.TheVariants.{Device, Done, Memory, Sink as SinkFailed, Source, Words};
ghost use Rattle.lvhd_command.specs.Devices.{IsKeptDevice, IsTruthfulDevice, beside_at, plate_at};
ghost use Rattle.lvhd_command.specs.Formatting.{KeepsBesideNew, format_sides};
ghost use Rattle.lvhd_command.specs.Sessions.{IsReadySession, KeepsSession, session_leaves, site_of, state_of};
ghost use Rattle.sm_session.specs.Truth.{AllTruthful, AreTold};
ghost use Rattle.lvhd_command.specs.Texts.{line_of};
ghost use Rattle.lvhd_command.specs.Trials.{HasPlate, IsLabelledForTrial, RestsAs, SaysTrial, SessionTried, TrialDid, summary_words, trial_asked, trial_least};

use crate::formatting::said;
use crate::opening::open;
use crate::running::{close, leave, refuse};
use crate::statuses::Status;
use crate::texts::{print_summary, print_too_small};
use sm_base::{CallFault, Geometry};
use sm_cache::Cache;
use sm_disk::{Disk, Sink};
use sm_session::Session;
use sm_trial::{Ending, Tally, count_all, try_lines};
use std::alloc::Global;
use uuid::Uuid;
use vg_store::{FormatFault, Group, format};

/// The bytes of an extent of a trial's repository.
const EXTENT: u64 = 16_384;

/// The bytes of a block.
const BLOCK: u64 = 4_096;

/// The entries of a block allocation table.
const ENTRIES: u64 = 64;

/// The repository's UUID.
const REPOSITORY: [u8; 16] = [0, 0, 0, 0, 0, 0, 0, 0, 0, 0, 0, 0, 0, 0, 0, 1];

/// Makes a new repository on a device, opens it, steps the 20,000 lines that a number draws, and prints one line of what was counted
/// once all lasts. `now` is in seconds since 2000-01-01 00:00 UTC. A line that is answered with want of memory ends the trial.
pub fn run_trial<D: Disk, K: Sink>(
    alloc: Global,
    number: u64,
    now: u32,
    disk: D,
    sink: &mut K,
) -> (Status, D)
    ensures size { D.size result.1 ≡ D.size disk }
    ensures counts { D.faults disk ≤ D.faults result.1 }
    ensures sink_counts { K.faults sink.old ≤ K.faults sink.new }
    ensures words { result.0 ≢ Words }
    ensures source { result.0 ≢ Source }
    ensures device { result.0 ≡ Device → Rose (D.faults disk) (D.faults result.1) }
    ensures sink { result.0 ≡ SinkFailed → Rose (K.faults sink.old) (K.faults sink.new) }
    ensures calm { result.0 ≢ Device → D.faults result.1 ≡ D.faults disk }
    ensures sink_calm { result.0 ≢ SinkFailed → K.faults sink.new ≡ K.faults sink.old }
    ensures did { D.told → TrialDid (format_sides D.size D.told D.held D.faults K.content K.faults disk result.1 sink.old sink.new) number result.0 }
    ensures label { D.told → result.0 ≡ Done → IsLabelledForTrial (D.size disk) (D.held result.1) }
    ensures small { D.size disk < trial_least → result.1 ≡ disk }
    ensures beside { D.told → KeepsBesideNew (D.size disk) trial_asked (D.held disk) (D.held result.1) }
{
    let mut disk = disk;
    let Some(geometry) = Geometry::of(EXTENT, BLOCK, ENTRIES) else {
        unreachable!()
    };
    match format(alloc, &mut disk, geometry, Uuid::from_bytes(REPOSITORY)) {
        Ok(_) => match open(alloc, disk, now) {
            Ok(session) => try_session(alloc, number, session, sink),
            Err((fault, disk)) => (refuse(&fault, sink), disk),
        },
        Err(FormatFault::TooSmall { sectors }) => {
            (said(print_too_small(sink, sectors), Status::Refused), disk)
        }
        Err(FormatFault::Device) => (Status::Device, disk),
        Err(FormatFault::NoMemory) => (Status::Memory, disk),
    }
}

/// Steps the lines of a trial on an open repository, makes all last, and says what was counted.
fn try_session<D: Disk, K: Sink>(
    alloc: Global,
    number: u64,
    session: Session<Cache<Group<D>>>,
    sink: &mut K,
) -> (Status, D)
    requires whole { session.broken ≡ false }
    ensures size { D.size result.1 ≡ D.size session.store.inner.disk }
    ensures counts { D.faults session.store.inner.disk ≤ D.faults result.1 }
    ensures sink_counts { K.faults sink.old ≤ K.faults sink.new }
    ensures few { (result.0 ≡ Done) ⊎ ((result.0 ≡ Device) ⊎ ((result.0 ≡ SinkFailed) ⊎ (result.0 ≡ Memory))) }
    ensures device { result.0 ≡ Device → Rose (D.faults session.store.inner.disk) (D.faults result.1) }
    ensures sink { result.0 ≡ SinkFailed → Rose (K.faults sink.old) (K.faults sink.new) }
    ensures calm { result.0 ≢ Device → D.faults result.1 ≡ D.faults session.store.inner.disk }
    ensures sink_calm { result.0 ≢ SinkFailed → K.faults sink.new ≡ K.faults sink.old }
    ensures tried { D.told → IsReadySession session → KeepsSession session → AreTold (site_of session) (session_leaves session) (state_of session).shape
        → SessionTried (D.size session.store.inner.disk) (D.held result.1) (K.content sink.old) (K.content sink.new) (state_of session) number result.0 }
    ensures label { D.told → result.0 ≡ Done → HasPlate (D.size session.store.inner.disk) (D.held result.1) (plate_at (site_of session)) }
    ensures beside { D.told → Keeps (beside_at (site_of session) (D.held session.store.inner.disk)) (beside_at (site_of session) (D.held result.1)) }
{
    let mut session = session;
    let tally = match try_lines(alloc, &mut session, number) {
        Ok(tally) => tally,
        Err(why) => return (status_of_call(why), leave(session)),
    };
    let ending = match count_all(alloc, &mut session) {
        Ok(ending) => ending,
        Err(why) => return (status_of_call(why), leave(session)),
    };
    say(session, number, &tally, &ending, sink)
}

/// The status after a call failed, or found no memory.
fn status_of_call(why: CallFault) -> Status
    ensures { ((why ≡ fault.Device) × (result ≡ Device)) ⊎ ((why ≡ fault.NoMemory) × (result ≡ Memory)) }
{
    match why {
        CallFault::Device => Status::Device,
        CallFault::NoMemory => Status::Memory,
    }
}

/// Makes all last, and then prints what was counted.
fn say<D: Disk, K: Sink>(
    session: Session<Cache<Group<D>>>,
    number: u64,
    tally: &Tally,
    ending: &Ending,
    sink: &mut K,
) -> (Status, D)
    requires whole { session.broken ≡ false }
    ensures size { D.size result.1 ≡ D.size session.store.inner.disk }
    ensures counts { D.faults session.store.inner.disk ≤ D.faults result.1 }
    ensures sink_counts { K.faults sink.old ≤ K.faults sink.new }
    ensures said { SaysTrial (line_of (summary_words number tally.now ending.now.disks ending.now.images ending.now.free))
        (K.content sink.old) (K.content sink.new) result.0 }
    ensures device { result.0 ≡ Device → Rose (D.faults session.store.inner.disk) (D.faults result.1) }
    ensures sink { result.0 ≡ SinkFailed → Rose (K.faults sink.old) (K.faults sink.new) }
    ensures calm { result.0 ≢ Device → D.faults result.1 ≡ D.faults session.store.inner.disk }
    ensures sink_calm { result.0 ≢ SinkFailed → K.faults sink.new ≡ K.faults sink.old }
    ensures label { D.told → HasPlate (D.size session.store.inner.disk) (D.held result.1) (plate_at (site_of session)) }
    ensures keeps { D.told → Keeps (D.held session.store.inner.disk) (D.held result.1) }
    ensures kept { D.told → KeepsSession session → IsKeptDevice (D.size session.store.inner.disk) (D.held result.1) }
    ensures truthful { D.told → AllTruthful (site_of session) (session_leaves session) → IsTruthfulDevice (D.size session.store.inner.disk) (D.held result.1) }
    ensures rests { D.told → IsReadySession session → KeepsSession session → AllTruthful (site_of session) (session_leaves session) → result.0 ≢ Device
        → RestsAs (D.size session.store.inner.disk) (D.held result.1) (state_of session) }
{
    let (status, disk) = close(session);
    match status {
        Status::Done => (
            said(print_summary(sink, number, tally, ending), Status::Done),
            disk,
        ),
        _ => (Status::Device, disk),
    }
}
