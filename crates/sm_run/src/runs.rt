//! The loop of a run.

ghost use Rattle.std.specs.Prelude.{◌≡◌, ◌≢◌, ◌≤◌, false, Err};
ghost use Rattle.sm_disk.specs.Held.{Keeps, Rose};
ghost use Rattle.sm_run.specs.Runs.{BeginsSettled, HasRun};
ghost use Rattle.sm_run.specs.declared.runs.RunFault.TheVariants as fault;

use crate::answers::answer;
use crate::buffers::LineBuffer;
use crate::reading::{Ending, read_line};
use crate::steps::Steps;
use sm_disk::{Sink, Source};
use std::alloc::Global;

/// The most bytes of a script.
const SCRIPT_LIMIT: u64 = 1 << 40;

/// Why a run ended early.
#[derive(Clone, Copy, Debug, PartialEq, Eq)]
pub enum RunFault {
    /// The device failed.
    Device,
    /// The source failed.
    Source,
    /// The sink failed.
    Sink,
    /// The source gave a byte past the first 2^40 of the script.
    TooLong,
}

/// Takes one step for each line of the source, and sends its whole reply before the next byte is read. Each line is
/// read into the buffer, whatever stood there; no other memory is taken here but that of the steps. Where what the logs of tracked disks tell was
/// true as the run began, whatever a stop leaves is truthful at its return.
pub fn run<M: Steps, S: Source, K: Sink>(
    alloc: Global,
    machine: &mut M,
    line: &mut LineBuffer,
    source: &mut S,
    sink: &mut K,
) -> Result<(), RunFault>
    ensures run { M.told → M.ready machine.old → M.kept machine.old
        → BeginsSettled (M.state machine.old) (M.leaves machine.old)
        → HasRun (M.state machine.old) (M.state machine.new) result
        (S.content source.old) (S.content source.new) (K.content sink.old) (K.content sink.new)
        (M.leaves machine.new) (M.ready machine.new) (M.kept machine.new) }
    ensures truthful { M.told → M.ready machine.old → M.telling machine.old → M.truthful machine.new }
    ensures device { M.broken machine.old ≡ false → result ≡ Err fault.Device
        → Rose (M.faults machine.old) (M.faults machine.new) }
    ensures source { result ≡ Err fault.Source → Rose (S.faults source.old) (S.faults source.new) }
    ensures sink { result ≡ Err fault.Sink → Rose (K.faults sink.old) (K.faults sink.new) }
    ensures calm { M.broken machine.old ≡ false → result ≢ Err fault.Device → M.faults machine.new ≡ M.faults machine.old }
    ensures source_calm { result ≢ Err fault.Source → S.faults source.new ≡ S.faults source.old }
    ensures sink_calm { result ≢ Err fault.Sink → K.faults sink.new ≡ K.faults sink.old }
    ensures going_on { M.broken machine.old ≡ false → result ≢ Err fault.Device → M.broken machine.new ≡ false }
    ensures site { M.site machine.new ≡ M.site machine.old }
    ensures beside { M.told → Keeps (M.beside machine.old) (M.beside machine.new) }
    ensures device_counts { M.faults machine.old ≤ M.faults machine.new }
    ensures source_counts { S.faults source.old ≤ S.faults source.new }
    ensures sink_counts { K.faults sink.old ≤ K.faults sink.new }
{
    let mut room = SCRIPT_LIMIT;
    'lines: loop {
        match read_line(source, &mut room, line) {
            Err(_) => return Err(RunFault::Source),
            Ok(Ending::PastLimit) => return Err(RunFault::TooLong),
            Ok(Ending::ScriptEnd) => {
                if line.bytes().is_empty() {
                    return Ok(());
                }
                return answer(alloc, machine, line, sink);
            }
            Ok(Ending::Newline) => answer(alloc, machine, line, sink)?,
        }
    }
}
