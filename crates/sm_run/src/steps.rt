//! The trait of what a run steps.

ghost use Rattle.std.specs.Prelude.{◌≡◌, ◌≢◌, ◌≤◌, ◌⊎◌, ℕ, List, Bool, true, false, Ok, Err, Some, map, IfOk, OnOk};
ghost use Rattle.sm_base.specs.declared.refusals.Refusal.{Refusal};
ghost use Rattle.sm_base.specs.declared.refusals.Refusal.TheVariants.{NoMemory};
ghost use Rattle.sm_disk.specs.Held.{Held, IsSettled, Keeps, SameHeld, Rose};
ghost use Rattle.sm_machine.specs.declared.replies.Reply.TheVariants.{No};
ghost use Rattle.sm_machine.specs.Disks.{Disk};
ghost use Rattle.sm_machine.specs.Refusals.{refusal};
ghost use Rattle.sm_machine.specs.Shapes.{Shape};
ghost use Rattle.sm_machine.specs.Steps.{State};
ghost use Rattle.sm_machine.specs.Tracking.{tracked_step};
ghost use Rattle.sm_machine.specs.Runs.{is_accepted, is_settling, face};
ghost use Rattle.sm_run.specs.Between.{IsBetween, IsSettledAs};
ghost use Rattle.sm_run.specs.Runs.{may_want_memory};
ghost use Rattle.sm_run.specs.declared.steps.StepFault.TheVariants.{Device, Broken};

use sm_script::{Command, Reply};
use std::alloc::Global;

/// Why a step gave no reply.
#[derive(Clone, Copy, Debug, PartialEq, Eq)]
pub enum StepFault {
    /// The device failed.
    Device,
    /// An earlier step answered `Device`; nothing was done.
    Broken,
}

/// What steps as the machine says, over a device. Clauses on content hold where the device tells its
/// content (`told`).
pub trait Steps {
    /// Whether what the device holds is told: a fact that holds, or one that never does.
    ghost told: { Type 0 };

    /// The machine's disks and shape.
    ghost state: { Self → State };

    /// The machine's shape, which is in memory, whatever the device holds.
    ghost shape: { Self → Shape };

    /// Between two steps: what is in memory agrees with the device.
    ghost ready: { Self → Type 0 };

    /// Whatever a stop leaves now opens again.
    ghost kept: { Self → Type 0 };

    /// What is held of the sectors that the machine keeps.
    ghost held: { Self → Held };

    /// What is held of the whole device.
    ghost device: { Self → Held };

    /// What is held of the device's places that are no part of the machine's store.
    ghost beside: { Self → Held };

    /// The disks that a stop may leave.
    ghost leaves: { Self → List Disk → Type 0 };

    /// Between two steps: what the logs of tracked disks tell is true of all disks that a stop may leave, whichever stop leaves each of them.
    ghost telling: { Self → Type 0 };

    /// Whatever a stop leaves now is truthful: its logs tell the truth of its disks.
    ghost truthful: { Self → Type 0 };

    /// A step answered `Device`.
    ghost broken: { Self → Bool };

    /// How many calls of the device have failed. It never falls.
    ghost faults: { Self → ℕ };

    /// What never changes: how large the device is, and what else is told of it.
    ghost Site: { Type 0 };

    ghost site: { Self → Site };

    /// One step. A command that a cause refuses is answered with the first of them, and any other is refused for want of memory
    /// alone: both by what is in memory, whatever the device holds. A refused command makes no write and no sync; only a
    /// command whose step takes memory is answered with want of it, and one of the collector only where it begins to fold an
    /// image. `Device` comes only where a call of the device failed, and any other answer only where none did. At `Broken`
    /// nothing is done, and no step touches what stands beside the machine's store. Where what the logs tell was true, whatever a stop
    /// leaves is truthful at every return, and where there is a reply what they tell is true again.
    fn step(&mut self, alloc: Global, command: &Command) -> Result<Reply, StepFault>
        ensures site { site self.new ≡ site self.old }
        ensures counts { faults self.old ≤ faults self.new }
        ensures device { result ≡ Err Device → Rose (faults self.old) (faults self.new) × (broken self.new ≡ true) }
        ensures calm { result ≢ Err Device → faults self.new ≡ faults self.old }
        ensures broken { (result ≡ Err Broken → broken self.old ≡ true) × (broken self.old ≡ true → result ≡ Err Broken) }
        ensures unchanged { result ≡ Err Broken → self.new ≡ self.old }
        ensures going_on { OnOk result (broken self.new ≡ false) }
        ensures beside { told → Keeps (beside self.old) (beside self.new) }
        ensures untouched { told → IfOk result (λ r. is_accepted r ≡ false → SameHeld (held self.old) (held self.new) × Keeps (device self.old) (device self.new)) }
        ensures causes { broken self.old ≡ false → (x : Refusal) → refusal (shape self.old) command.now ≡ Some x → result ≡ Ok (No x) }
        ensures causes_only { IfOk result (λ r. (x : Refusal) → r ≡ No x → (x ≡ NoMemory) ⊎ (refusal (shape self.old) command.now ≡ Some x)) }
        ensures reply { told → ready self.old → IfOk result (λ r.
            ((r ≡ No NoMemory) × (state self.new ≡ state self.old))
            ⊎ ((r ≡ (tracked_step (state self.old) command.now).reply) × (state self.new ≡ (tracked_step (state self.old) command.now).after))) }
        ensures spared { IfOk result (λ r. r ≡ No NoMemory → may_want_memory (shape self.old) command.now ≡ true) }
        ensures ready { told → ready self.old → OnOk result (ready self.new) }
        ensures kept { told → ready self.old → kept self.new }
        ensures truthful { told → ready self.old → telling self.old → truthful self.new × OnOk result (telling self.new) }
        ensures refused { IfOk result (λ r. is_accepted r ≡ false → (ds : List Disk) → leaves self.new ds → leaves self.old ds) }
        ensures crash { told → ready self.old → (ds : List Disk) → leaves self.new ds
            → IsBetween (leaves self.old) (state self.old).disks ((tracked_step (state self.old) command.now).after).disks ds }
        ensures faces { told → ready self.old → OnOk result ((ds : List Disk) → leaves self.new ds → map face ds ≡ map face (state self.new).disks) }
        ensures settled { told → ready self.old → IfOk result (λ r. is_accepted r ≡ true → is_settling command.now ≡ true
            → (ds : List Disk) → leaves self.new ds → IsSettledAs (state self.new).disks ds) }
        ensures lasting { told → ready self.old → IfOk result (λ r. is_accepted r ≡ true → is_settling command.now ≡ true → IsSettled (held self.new)) };

    /// The machine's shape is the one in memory.
    ghost is_shape: { (s : Self) → (state s).shape ≡ shape s };

    /// Where what the logs tell is true between two steps, whatever a stop leaves is truthful.
    ghost tells_now: { (s : Self) → told → ready s → telling s → truthful s };
}
