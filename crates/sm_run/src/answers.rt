//! Stepping a line, and sending its reply.

ghost use Rattle.std.specs.Prelude.{◌≡◌, ◌≢◌, ◌≤◌, ◌⊎◌, ℕ, List, true, false, map, Err, IfErr, OnOk, OnErr, option_copied};
ghost use Rattle.sm_disk.specs.Held.{IsCounted, Keeps, Rose};
ghost use Rattle.sm_machine.specs.Disks.{Disk};
ghost use Rattle.sm_machine.specs.Lines.{spelled};
ghost use Rattle.sm_machine.specs.Runs.{face};
ghost use Rattle.sm_run.specs.Parts.{front_of, HasStepped, HasAnswered};
ghost use Rattle.sm_run.specs.declared.runs.RunFault.TheVariants.{Device, Sink as SinkFault};

use crate::buffers::LineBuffer;
use crate::runs::RunFault;
use crate::steps::{StepFault, Steps};
use sm_base::Refusal;
use sm_disk::Sink;
use sm_script::{Command, Line, Print, Reply};
use std::alloc::Global;

/// Takes the step of the command that a line spells. A line that spells nothing is refused without one.
fn step<M: Steps>(
    alloc: Global,
    machine: &mut M,
    command: Option<&Command>,
) -> Result<Reply, StepFault>
    ensures stepped { M.told → M.ready machine.old → M.kept machine.old
        → ((ds : List Disk) → M.leaves machine.old ds → map face ds ≡ map face (M.state machine.old).disks)
        → (whole : List ℕ) → option_copied command.entry ≡ spelled whole
        → HasStepped (M.state machine.old) (M.state machine.new) whole result
        (M.leaves machine.old) (M.leaves machine.new) (M.ready machine.new) (M.kept machine.new) }
    ensures ready { M.told → M.ready machine.old → OnOk result (M.ready machine.new) }
    ensures truthful { M.told → M.ready machine.old → M.telling machine.old → M.truthful machine.new × OnOk result (M.telling machine.new) }
    ensures site { M.site machine.new ≡ M.site machine.old }
    ensures beside { M.told → Keeps (M.beside machine.old) (M.beside machine.new) }
    ensures counts { M.faults machine.old ≤ M.faults machine.new }
    ensures cause { M.broken machine.old ≡ false → IsCounted result (M.faults machine.old) (M.faults machine.new) }
    ensures going_on { M.broken machine.old ≡ false → OnOk result (M.broken machine.new ≡ false) }
{
    match command {
        Some(command) => machine.step(alloc, command),
        None => Ok(Reply::No(Refusal::BadLine)),
    }
}

/// Takes the step of one line, given by what the buffer keeps of it. The room of the buffer goes into what is read, and
/// comes back after the step.
pub fn take_step<M: Steps>(
    alloc: Global,
    machine: &mut M,
    line: &mut LineBuffer,
) -> Result<Reply, StepFault>
    ensures stepped { M.told → M.ready machine.old → M.kept machine.old
        → ((ds : List Disk) → M.leaves machine.old ds → map face ds ≡ map face (M.state machine.old).disks)
        → (whole : List ℕ) → line.old ≡ front_of whole
        → HasStepped (M.state machine.old) (M.state machine.new) whole result
        (M.leaves machine.old) (M.leaves machine.new) (M.ready machine.new) (M.kept machine.new) }
    ensures ready { M.told → M.ready machine.old → OnOk result (M.ready machine.new) }
    ensures truthful { M.told → M.ready machine.old → M.telling machine.old → M.truthful machine.new × OnOk result (M.telling machine.new) }
    ensures site { M.site machine.new ≡ M.site machine.old }
    ensures beside { M.told → Keeps (M.beside machine.old) (M.beside machine.new) }
    ensures counts { M.faults machine.old ≤ M.faults machine.new }
    ensures cause { M.broken machine.old ≡ false → IsCounted result (M.faults machine.old) (M.faults machine.new) }
    ensures going_on { M.broken machine.old ≡ false → OnOk result (M.broken machine.new ≡ false) }
{
    let Some(room) = line.room.take() else {
        unreachable!()
    };
    let reading = Line::read(&line.bytes, room);
    let result = step(alloc, machine, reading.command());
    line.room = Some(reading.into_room());
    result
}

/// Steps one line and sends its whole reply.
pub fn answer<M: Steps, K: Sink>(
    alloc: Global,
    machine: &mut M,
    line: &mut LineBuffer,
    sink: &mut K,
) -> Result<(), RunFault>
    ensures answered { M.told → M.ready machine.old → M.kept machine.old
        → ((ds : List Disk) → M.leaves machine.old ds → map face ds ≡ map face (M.state machine.old).disks)
        → (whole : List ℕ) → line.old ≡ front_of whole
        → HasAnswered (M.state machine.old) (M.state machine.new) whole result (K.content sink.old) (K.content sink.new)
        (M.leaves machine.old) (M.leaves machine.new) (M.ready machine.new) (M.kept machine.new) }
    ensures faults { IfErr result (λ fault. (fault ≡ Device) ⊎ (fault ≡ SinkFault)) }
    ensures ready { M.told → M.ready machine.old → OnOk result (M.ready machine.new) }
    ensures truthful { M.told → M.ready machine.old → M.telling machine.old → M.truthful machine.new × OnOk result (M.telling machine.new) }
    ensures site { M.site machine.new ≡ M.site machine.old }
    ensures beside { M.told → Keeps (M.beside machine.old) (M.beside machine.new) }
    ensures counts { M.faults machine.old ≤ M.faults machine.new }
    ensures sink_counts { K.faults sink.old ≤ K.faults sink.new }
    ensures device { M.broken machine.old ≡ false → result ≡ Err Device → Rose (M.faults machine.old) (M.faults machine.new) }
    ensures sink { result ≡ Err SinkFault → Rose (K.faults sink.old) (K.faults sink.new) }
    ensures calm { M.broken machine.old ≡ false → result ≢ Err Device → M.faults machine.new ≡ M.faults machine.old }
    ensures sink_calm { result ≢ Err SinkFault → K.faults sink.new ≡ K.faults sink.old }
    ensures going_on { M.broken machine.old ≡ false → result ≢ Err Device → M.broken machine.new ≡ false }
{
    let Ok(reply) = take_step(alloc, machine, line) else {
        return Err(RunFault::Device);
    };
    match reply.print(sink) {
        Ok(()) => Ok(()),
        Err(_) => Err(RunFault::Sink),
    }
}
