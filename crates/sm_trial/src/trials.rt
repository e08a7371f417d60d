//! The lines of a trial, stepped one by one.

ghost use Rattle.std.specs.Prelude.{◌≡◌, ◌≢◌, ◌≤◌, ◌+◌, ◌<◌, ℕ, List, true, false, IfOk, OnOk, OnErr, Err, option_copied};
ghost use Rattle.sm_base.specs.declared.faults.CallFault.TheVariants as fault;
ghost use Rattle.sm_base.specs.declared.refusals.Refusal.TheVariants as refusal;
ghost use Rattle.sm_disk.specs.Held.{IsCounted, Keeps, Rose};
ghost use Rattle.sm_machine.specs.Lines.{spelled};
ghost use Rattle.sm_machine.specs.Steps.{State};
ghost use Rattle.sm_machine.specs.declared.replies.Reply.TheVariants.{No};
ghost use Rattle.sm_trial.specs.Tallies.{Comes, Goes, HasTried, IsStepped, IsWithin, with_reply};
ghost use Rattle.sm_trial.specs.Counts.{reply_most};
ghost use Rattle.sm_script.specs.Trials.{line_drawn, state_drawn, trial_lines};

use crate::tallies::{Tally, is_accepted, reply_sum};
use sm_base::{CallFault, NoMemory, Refusal};
use sm_run::{StepFault, Steps};
use sm_script::{Command, Line, LineBytes, Reply, Trial};
use std::alloc::Global;

/// How many lines a trial has.
const LINES: u32 = 20_000;

/// Takes the step of the command that a line spells. A line that spells nothing is refused without one.
fn step<M: Steps>(
    alloc: Global,
    machine: &mut M,
    command: Option<&Command>,
) -> Result<Reply, StepFault>
    ensures stepped { M.told → M.ready machine.old → M.kept machine.old → (line : List ℕ) → option_copied command.entry ≡ spelled line
        → IsStepped (M.state machine.old) (M.state machine.new) line result (M.ready machine.new) (M.kept machine.new) }
    ensures truthful { M.told → M.ready machine.old → M.telling machine.old → M.truthful machine.new × OnOk result (M.telling machine.new) }
    ensures site { M.site machine.new ≡ M.site machine.old }
    ensures beside { M.told → Keeps (M.beside machine.old) (M.beside machine.new) }
    ensures counts { M.faults machine.old ≤ M.faults machine.new }
    ensures cause { M.broken machine.old ≡ false → IsCounted result (M.faults machine.old) (M.faults machine.new) }
    ensures going_on { M.broken machine.old ≡ false → OnOk result (M.broken machine.new ≡ false) }
{
    match command {
        Some(command) => machine.step(alloc, command),
        None => Ok(Reply::No(Refusal::BadLine)),
    }
}

/// Steps one line, with the room for the bytes that it may spell, and gives the room back.
fn step_line<M: Steps>(
    alloc: Global,
    machine: &mut M,
    line: &[u8],
    room: LineBytes,
) -> (Result<Reply, StepFault>, LineBytes)
    ensures stepped { M.told → M.ready machine.old → M.kept machine.old
        → IsStepped (M.state machine.old) (M.state machine.new) line.now result.0 (M.ready machine.new) (M.kept machine.new) }
    ensures truthful { M.told → M.ready machine.old → M.telling machine.old → M.truthful machine.new × OnOk result.0 (M.telling machine.new) }
    ensures site { M.site machine.new ≡ M.site machine.old }
    ensures beside { M.told → Keeps (M.beside machine.old) (M.beside machine.new) }
    ensures counts { M.faults machine.old ≤ M.faults machine.new }
    ensures cause { M.broken machine.old ≡ false → IsCounted result.0 (M.faults machine.old) (M.faults machine.new) }
    ensures going_on { M.broken machine.old ≡ false → OnOk result.0 (M.broken machine.new ≡ false) }
{
    let reading = Line::read(line, room);
    let result = step(alloc, machine, reading.command());
    (result, reading.into_room())
}

/// Counts one reply, and so many lines are left then.
///
/// # Errors
/// The reply says that memory is wanting, or none is left to count it.
#[tactic(auto, unfolding(crate::specs::Tallies::with_reply))]
fn count(alloc: Global, tally: &mut Tally, reply: &Reply, left: u32) -> Result<(), NoMemory>
    requires { IsWithin tally.old (left + 1) }
    ensures counted { OnOk result (tally.new ≡ with_reply reply.now tally.old) }
    ensures found { OnOk result (reply.now ≢ No refusal.NoMemory) }
    ensures within { OnOk result (IsWithin tally.new left) }
{
    if matches!(reply, Reply::No(Refusal::NoMemory)) {
        return Err(NoMemory);
    }
    let sum = reply_sum(alloc, reply)?;
    let accepts = is_accepted(reply);
    tally.accepted += u32::from(accepts);
    tally.refused += u32::from(!accepts);
    tally.sum += sum;
    Ok(())
}

/// Steps the next line of a trial, and counts its reply.
fn try_line<M: Steps>(
    alloc: Global,
    machine: &mut M,
    trial: &mut Trial,
    tally: &mut Tally,
    room: LineBytes,
    left: u32,
) -> Result<LineBytes, CallFault>
    requires { IsWithin tally.old (left + 1) }
    ensures goes { IfOk result (λ r. M.told → M.ready machine.old → M.kept machine.old
        → Goes (M.state machine.old) tally.old trial.old (M.state machine.new) tally.new trial.new (M.ready machine.new)) }
    ensures kept { M.told → M.ready machine.old → M.kept machine.old → M.kept machine.new }
    ensures truthful { M.told → M.ready machine.old → M.kept machine.old → M.telling machine.old → M.truthful machine.new × OnOk result (M.telling machine.new) }
    ensures within { OnOk result (IsWithin tally.new left) }
    ensures site { M.site machine.new ≡ M.site machine.old }
    ensures beside { M.told → Keeps (M.beside machine.old) (M.beside machine.new) }
    ensures counts { M.faults machine.old ≤ M.faults machine.new }
    ensures device { M.broken machine.old ≡ false → result ≡ Err fault.Device → Rose (M.faults machine.old) (M.faults machine.new) }
    ensures calm { M.broken machine.old ≡ false → result ≢ Err fault.Device → M.faults machine.new ≡ M.faults machine.old }
    ensures going_on { M.broken machine.old ≡ false → result ≢ Err fault.Device → M.broken machine.new ≡ false }
{
    let mut line = [0; 128];
    let length = trial.line(&mut line);
    let (stepped, room) = step_line(alloc, machine, &line[..length], room);
    let Ok(reply) = stepped else {
        return Err(CallFault::Device);
    };
    match count(alloc, tally, &reply, left) {
        Ok(()) => Ok(room),
        Err(_) => Err(CallFault::NoMemory),
    }
}

/// Steps all lines of the trial of a number, and counts the replies.
///
/// # Errors
/// The device failed; or a line was answered that memory is wanting, or none is left to count a reply.
pub fn try_lines<M: Steps>(alloc: Global, machine: &mut M, number: u64) -> Result<Tally, CallFault>
    ensures tried { IfOk result (λ tally. M.told → M.ready machine.old → M.kept machine.old
        → HasTried (M.state machine.old) (M.state machine.new) (trial_lines number) tally × M.ready machine.new) }
    ensures kept { M.told → M.ready machine.old → M.kept machine.old → M.kept machine.new }
    ensures truthful { M.told → M.ready machine.old → M.kept machine.old → M.telling machine.old → M.truthful machine.new × OnOk result (M.telling machine.new) }
    ensures site { M.site machine.new ≡ M.site machine.old }
    ensures beside { M.told → Keeps (M.beside machine.old) (M.beside machine.new) }
    ensures counts { M.faults machine.old ≤ M.faults machine.new }
    ensures device { M.broken machine.old ≡ false → result ≡ Err fault.Device → Rose (M.faults machine.old) (M.faults machine.new) }
    ensures calm { M.broken machine.old ≡ false → result ≢ Err fault.Device → M.faults machine.new ≡ M.faults machine.old }
    ensures going_on { M.broken machine.old ≡ false → result ≢ Err fault.Device → M.broken machine.new ≡ false }
{
    let Ok(mut room) = Line::room(alloc) else {
        return Err(CallFault::NoMemory);
    };
    let mut trial = Trial::new(number);
    let mut tally = Tally {
        accepted: 0,
        refused: 0,
        sum: 0,
    };
    let mut left = LINES;
    while left > 0 {
        left -= 1;
        room = try_line(alloc, machine, &mut trial, &mut tally, room, left)?;
    }
    Ok(tally)
}
