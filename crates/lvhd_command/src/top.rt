//! The whole program, over any device, source and sink.

ghost use Rattle.std.specs.Prelude.{◌≡◌, ◌≢◌, ◌≤◌, ◌<◌, ◌⊎◌, ℕ, List, None, Some};
ghost use Rattle.common_laws.specs.Lists.{In};
ghost use Rattle.sm_base.specs.declared.faults.OpenFault.{OpenFault};
ghost use Rattle.sm_disk.specs.Held.{Rose, reads};
ghost use Rattle.sm_machine.specs.Disks.{Disk as DiskOf};
ghost use Rattle.sm_standing.specs.Devices.{Shows};
ghost use Rattle.lvhd_command.specs.declared.statuses.Status.TheVariants as status;
ghost use Rattle.lvhd_command.specs.declared.words.Form.TheVariants.{Format, Run, Trial, Export, Import};
ghost use Rattle.lvhd_command.specs.declared.words.Request.{Request};
ghost use Rattle.lvhd_command.specs.declared.words.Wanted.{Wanted};
ghost use Rattle.lvhd_command.specs.Devices.{IsKeptDevice, IsRefusedOn, IsTruthfulDevice};
ghost use Rattle.lvhd_command.specs.Exporting.{ExportDid, IsUnknown, export_sides};
ghost use Rattle.lvhd_command.specs.Importing.{ImportDid, IsImportable, IsRefusedAtOnce};
ghost use Rattle.lvhd_command.specs.Formatting.{FormatDid, CannotFormat, KeepsBesideNew, asked, format_sides};
ghost use Rattle.lvhd_command.specs.Running.{RunDid, HasStayed, KeepsBeside, sides};
ghost use Rattle.lvhd_command.specs.Trials.{IsLabelledForTrial, TrialDid, trial_asked, trial_least};
ghost use Rattle.lvhd_command.specs.Words.{Asks};

use crate::exporting::run_export;
use crate::formatting::run_format;
use crate::importing::run_import;
use crate::running::run_script;
use crate::statuses::Status;
use crate::trials::run_trial;
use crate::words::Form;
use sm_disk::{Disk, Sink, Source};
use std::alloc::Global;

/// Does what the words ask for, on a device: `format EXTENT BLOCK ENTRIES UUID` makes a repository of it, and `run` opens
/// the repository on it and answers the script that the source gives, one line of the sink for each line; `trial N` makes a
/// repository of it, steps the 20,000 lines that the number draws, and prints one line of what was counted; `export U` opens
/// the repository and sends the disk with this UUID to the sink as a dynamic VHD file, or says in one line that no disk has it; `import U`
/// opens the repository and makes a disk with this UUID of the VHD file that the source gives, or says in one line why it is not taken. The
/// device is handed back at every return. `now` is in seconds since 2000-01-01 00:00 UTC.
///
/// A device on which a check of an opening fails is not opened: one line says why, and nothing is written, whatever the
/// status. No word touches anything on the device beside the repository, and a format or a trial that is refused touches nothing
/// at all. Status 3 comes exactly where a call of the device failed, status 4 where one of the source did, and status 5
/// where one of the sink did: no run succeeds over a failed call, whether that is passed over or tried again. Only an import whose source
/// failed, and then the device, as the new volume was to be removed, has two failed calls and one status, which is 3.
pub fn lvhd<D: Disk, S: Source, K: Sink>(
    alloc: Global,
    words: &[&str],
    now: u32,
    disk: D,
    source: &mut S,
    sink: &mut K,
) -> (Status, D)
    ensures size { D.size result.1 ≡ D.size disk }
    ensures counts { D.faults disk ≤ D.faults result.1 }
    ensures source_counts { S.faults source.old ≤ S.faults source.new }
    ensures sink_counts { K.faults sink.old ≤ K.faults sink.new }
    // Whatever the words are, of a device that is kept: where what logs tell was true of each image that a stop might leave, it is so at every return.
    ensures truthful { D.told → IsKeptDevice (D.size disk) (D.held disk) → IsTruthfulDevice (D.size disk) (D.held disk) → IsTruthfulDevice (D.size disk) (D.held result.1) }
    ensures words { Asks words.now None → (result.0 ≡ status.Words) × (result.1 ≡ disk) × (source.new ≡ source.old) × (sink.new ≡ sink.old) }
    ensures words_only { result.0 ≡ status.Words → Asks words.now None }
    ensures device { result.0 ≡ status.Device → Rose (D.faults disk) (D.faults result.1) }
    ensures source { result.0 ≡ status.Source → Rose (S.faults source.old) (S.faults source.new) }
    ensures sink { result.0 ≡ status.Sink → Rose (K.faults sink.old) (K.faults sink.new) }
    ensures calm { result.0 ≢ status.Device → D.faults result.1 ≡ D.faults disk }
    ensures source_calm { ((wanted : Wanted) → Asks words.now (Some (Import wanted)) → result.0 ≢ status.Device)
        → result.0 ≢ status.Source → S.faults source.new ≡ S.faults source.old }
    ensures sink_calm { result.0 ≢ status.Sink → K.faults sink.new ≡ K.faults sink.old }
    ensures format { (request : Request) → Asks words.now (Some (Format request)) → (source.new ≡ source.old) × FormatDid
        (format_sides D.size D.told D.held D.faults K.content K.faults disk result.1 sink.old sink.new) (asked request) result.0 }
    ensures cannot_format { (request : Request) → Asks words.now (Some (Format request)) → CannotFormat (D.size disk) (asked request)
        → result.1 ≡ disk }
    ensures format_beside { (request : Request) → Asks words.now (Some (Format request)) → D.told
        → KeepsBesideNew (D.size disk) (asked request) (D.held disk) (D.held result.1) }
    ensures run { Asks words.now (Some Run) → D.told → IsKeptDevice (D.size disk) (D.held disk)
        → RunDid (sides D.size D.held S.content K.content disk result.1 source.old source.new sink.old sink.new) result.0 }
    ensures beside { Asks words.now (Some Run) → D.told → KeepsBeside (D.size disk) (D.held disk) (D.held result.1) }
    ensures refused { Asks words.now (Some Run) → D.told → (result.0 ≡ status.Refused) ⊎ (result.0 ≡ status.Memory)
        → HasStayed (sides D.size D.held S.content K.content disk result.1 source.old source.new sink.old sink.new) result.0 }
    ensures unsound { Asks words.now (Some Run) → D.told → (e : OpenFault) → IsRefusedOn (D.size disk) (reads (D.held disk)) e
        → HasStayed (sides D.size D.held S.content K.content disk result.1 source.old source.new sink.old sink.new) result.0 }
    ensures complete { Asks words.now (Some Run) → D.told → IsKeptDevice (D.size disk) (D.held disk)
        → (Rose (D.faults disk) (D.faults result.1) → ⊥) → (Rose (S.faults source.old) (S.faults source.new) → ⊥) → (Rose (K.faults sink.old) (K.faults sink.new) → ⊥)
        → (result.0 ≡ status.Done) ⊎ ((result.0 ≡ status.Memory) ⊎ (result.0 ≡ status.TooLong)) }
    ensures trial { (number : ℕ) → Asks words.now (Some (Trial number)) → (source.new ≡ source.old) × (D.told → TrialDid
        (format_sides D.size D.told D.held D.faults K.content K.faults disk result.1 sink.old sink.new) number result.0) }
    ensures trial_label { (number : ℕ) → Asks words.now (Some (Trial number)) → D.told → result.0 ≡ status.Done
        → IsLabelledForTrial (D.size disk) (D.held result.1) }
    ensures cannot_try { (number : ℕ) → Asks words.now (Some (Trial number)) → D.size disk < trial_least → result.1 ≡ disk }
    ensures trial_beside { (number : ℕ) → Asks words.now (Some (Trial number)) → D.told
        → KeepsBesideNew (D.size disk) trial_asked (D.held disk) (D.held result.1) }
    ensures complete_trial { (number : ℕ) → Asks words.now (Some (Trial number)) → D.told → trial_least ≤ D.size disk
        → (Rose (D.faults disk) (D.faults result.1) → ⊥) → (Rose (K.faults sink.old) (K.faults sink.new) → ⊥)
        → (result.0 ≡ status.Done) ⊎ (result.0 ≡ status.Memory) }
    ensures export { (wanted : Wanted) → Asks words.now (Some (Export wanted)) → (source.new ≡ source.old) × (D.told
        → ExportDid (export_sides D.size D.held K.content disk result.1 sink.old sink.new) wanted.disk now result.0) }
    ensures complete_export { (wanted : Wanted) (ds : List DiskOf) (d : DiskOf) → Asks words.now (Some (Export wanted)) → D.told → IsKeptDevice (D.size disk) (D.held disk)
        → Shows (D.size disk) (reads (D.held disk)) ds → In d ds → d.uuid ≡ wanted.disk
        → (Rose (D.faults disk) (D.faults result.1) → ⊥) → (Rose (K.faults sink.old) (K.faults sink.new) → ⊥)
        → (result.0 ≡ status.Done) ⊎ (result.0 ≡ status.Memory) }
    ensures complete_unknown { (wanted : Wanted) → Asks words.now (Some (Export wanted)) → D.told → IsKeptDevice (D.size disk) (D.held disk)
        → IsUnknown (export_sides D.size D.held K.content disk result.1 sink.old sink.new) wanted.disk
        → (Rose (D.faults disk) (D.faults result.1) → ⊥) → (Rose (K.faults sink.old) (K.faults sink.new) → ⊥)
        → (result.0 ≡ status.Denied) ⊎ (result.0 ≡ status.Memory) }
    ensures import { (wanted : Wanted) → Asks words.now (Some (Import wanted)) → D.told
        → ImportDid (sides D.size D.held S.content K.content disk result.1 source.old source.new sink.old sink.new) wanted.disk result.0 }
    ensures import_unread { (wanted : Wanted) → Asks words.now (Some (Import wanted)) → D.told → IsKeptDevice (D.size disk) (D.held disk) → IsRefusedAtOnce
        (sides D.size D.held S.content K.content disk result.1 source.old source.new sink.old sink.new) wanted.disk → source.new ≡ source.old }
    ensures complete_import { (wanted : Wanted) → Asks words.now (Some (Import wanted)) → D.told → IsKeptDevice (D.size disk) (D.held disk)
        → IsImportable (sides D.size D.held S.content K.content disk result.1 source.old source.new sink.old sink.new) wanted.disk
        → (Rose (D.faults disk) (D.faults result.1) → ⊥) → (Rose (S.faults source.old) (S.faults source.new) → ⊥) → (Rose (K.faults sink.old) (K.faults sink.new) → ⊥)
        → (result.0 ≡ status.Done) ⊎ (result.0 ≡ status.Memory) }
{
    match Form::read(words) {
        None => (Status::Words, disk),
        Some(Form::Format(request)) => {
            let mut disk = disk;
            let status = run_format(alloc, &mut disk, &request, sink);
            (status, disk)
        }
        Some(Form::Run) => run_script(alloc, now, disk, source, sink),
        Some(Form::Trial { number }) => run_trial(alloc, number, now, disk, sink),
        Some(Form::Export(wanted)) => run_export(alloc, &wanted, now, disk, sink),
        Some(Form::Import(wanted)) => run_import(alloc, &wanted, now, disk, source, sink),
    }
}
