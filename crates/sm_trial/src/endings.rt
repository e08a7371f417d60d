//! What is counted of a machine where a trial has ended.

ghost use Rattle.std.specs.Prelude.{◌≡◌, ◌≢◌, ◌≤◌, false, length, IfOk, OnOk, Err};
ghost use Rattle.sm_base.specs.declared.faults.CallFault.TheVariants as fault;
ghost use Rattle.sm_disk.specs.Held.{Keeps, Rose};
ghost use Rattle.sm_machine.specs.declared.commands.Command.TheVariants.{List as Listing, Stat};
ghost use Rattle.sm_machine.specs.Shapes.{free};
ghost use Rattle.sm_machine.specs.Tracking.{tracked_step};
ghost use Rattle.sm_trial.specs.Endings.{HasCounted};

use sm_base::CallFault;
use sm_run::Steps;
use sm_script::{Command, Reply};
use std::alloc::Global;

/// How many disks, images and free extents there are.
#[derive(Clone, Copy)]
pub struct Ending {
    pub disks: u64,
    pub images: u64,
    pub free: u32,
}

/// How many disks a list has.
fn count_disks<M: Steps>(alloc: Global, machine: &mut M) -> Result<u64, CallFault>
    ensures counted { IfOk result (λ n. M.told → M.ready machine.old
        → (n ≡ length (M.state machine.old).disks) × (M.state machine.new ≡ (tracked_step (M.state machine.old) Listing).after) × M.ready machine.new) }
    ensures kept { M.told → M.ready machine.old → M.kept machine.new }
    ensures truthful { M.told → M.ready machine.old → M.telling machine.old → M.truthful machine.new × OnOk result (M.telling machine.new) }
    ensures site { M.site machine.new ≡ M.site machine.old }
    ensures beside { M.told → Keeps (M.beside machine.old) (M.beside machine.new) }
    ensures counts { M.faults machine.old ≤ M.faults machine.new }
    ensures device { M.broken machine.old ≡ false → result ≡ Err fault.Device → Rose (M.faults machine.old) (M.faults machine.new) }
    ensures calm { M.broken machine.old ≡ false → result ≢ Err fault.Device → M.faults machine.new ≡ M.faults machine.old }
    ensures going_on { M.broken machine.old ≡ false → result ≢ Err fault.Device → M.broken machine.new ≡ false }
{
    match machine.step(alloc, &Command::List) {
        Ok(Reply::List(rows)) => Ok(rows.rows.len() as u64),
        Ok(_) => Err(CallFault::NoMemory),
        Err(_) => Err(CallFault::Device),
    }
}

/// How many images and free extents a `stat` tells.
fn count_images<M: Steps>(alloc: Global, machine: &mut M) -> Result<(u64, u32), CallFault>
    ensures counted { IfOk result (λ n. M.told → M.ready machine.old
        → (n.0 ≡ length (M.state machine.old).shape.images) × (n.1 ≡ free (M.state machine.old).shape)
        × (M.state machine.new ≡ (tracked_step (M.state machine.old) Stat).after) × M.ready machine.new) }
    ensures kept { M.told → M.ready machine.old → M.kept machine.new }
    ensures truthful { M.told → M.ready machine.old → M.telling machine.old → M.truthful machine.new × OnOk result (M.telling machine.new) }
    ensures site { M.site machine.new ≡ M.site machine.old }
    ensures beside { M.told → Keeps (M.beside machine.old) (M.beside machine.new) }
    ensures counts { M.faults machine.old ≤ M.faults machine.new }
    ensures device { M.broken machine.old ≡ false → result ≡ Err fault.Device → Rose (M.faults machine.old) (M.faults machine.new) }
    ensures calm { M.broken machine.old ≡ false → result ≢ Err fault.Device → M.faults machine.new ≡ M.faults machine.old }
    ensures going_on { M.broken machine.old ≡ false → result ≢ Err fault.Device → M.broken machine.new ≡ false }
{
    match machine.step(alloc, &Command::Stat) {
        Ok(Reply::Stat(rows)) => Ok((rows.rows.len() as u64, rows.free)),
        Ok(_) => Err(CallFault::NoMemory),
        Err(_) => Err(CallFault::Device),
    }
}

/// Counts disks, images and free extents, by a `list` and a `stat`.
///
/// # Errors
/// The device failed, or memory is wanting.
pub fn count_all<M: Steps>(alloc: Global, machine: &mut M) -> Result<Ending, CallFault>
    ensures counted { IfOk result (λ e. M.told → M.ready machine.old → HasCounted (M.state machine.old) (M.state machine.new) e × M.ready machine.new) }
    ensures kept { M.told → M.ready machine.old → M.kept machine.old → M.kept machine.new }
    ensures truthful { M.told → M.ready machine.old → M.telling machine.old → M.truthful machine.new × OnOk result (M.telling machine.new) }
    ensures site { M.site machine.new ≡ M.site machine.old }
    ensures beside { M.told → Keeps (M.beside machine.old) (M.beside machine.new) }
    ensures counts { M.faults machine.old ≤ M.faults machine.new }
    ensures device { M.broken machine.old ≡ false → result ≡ Err fault.Device → Rose (M.faults machine.old) (M.faults machine.new) }
    ensures calm { M.broken machine.old ≡ false → result ≢ Err fault.Device → M.faults machine.new ≡ M.faults machine.old }
    ensures going_on { M.broken machine.old ≡ false → result ≢ Err fault.Device → M.broken machine.new ≡ false }
{
    let disks = count_disks(alloc, machine)?;
    let (images, free) = count_images(alloc, machine)?;
    Ok(Ending {
        disks,
        images,
        free,
    })
}
