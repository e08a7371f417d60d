//! A device that was formatted is kept, and a stop of it shows no disks. The answers of an opening exclude each other.

ghost use Rattle.std.specs.Prelude.{◌≡◌, ℕ, List, []};
ghost use Rattle.lvhd_command.specs.declared.statuses.Status.{Status};
ghost use Rattle.lvhd_command.specs.declared.statuses.Status.TheVariants.{Refused};
ghost use Rattle.lvhd_command.specs.Devices.{HasNoLogs, IsKeptDevice, IsTruthfulDevice, MayShowOn, IsSoundOn, IsRefusedOn};
ghost use Rattle.lvhd_command.specs.Running.{RunSides, RunDid};
ghost use Rattle.sm_base.specs.declared.faults.OpenFault.{OpenFault};
ghost use Rattle.sm_base.specs.declared.sizes.Geometry.{Geometry};
ghost use Rattle.sm_disk.specs.Held.{Held, IsSettled, reads};
ghost use Rattle.sm_machine.specs.Disks.{Disk};
ghost use Rattle.sm_standing.specs.Devices.{IsKeptOn, Shows};
ghost use Rattle.vg_store.specs.Formats.{IsFormatted};

/// What a finished format leaves is kept, and has no disks. Where nothing is pending on the device, so is whatever a
/// stop leaves of it, and the device is truthful.
pub fn law_formatted()
    ensures kept { (size : ℕ) (image : ℕ → List ℕ) (g : Geometry) (repository : List ℕ) → IsFormatted size image g repository → IsKeptOn size image }
    ensures empty { (size : ℕ) (image : ℕ → List ℕ) (g : Geometry) (repository : List ℕ) → IsFormatted size image g repository → Shows size image [] }
    ensures device { (size : ℕ) (h : Held) (g : Geometry) (repository : List ℕ) → IsFormatted size h.floor g repository → IsSettled h → IsKeptDevice size h }
    ensures device_empty { (size : ℕ) (h : Held) (g : Geometry) (repository : List ℕ) → IsFormatted size h.floor g repository → IsSettled h
        → (ds : List Disk) → MayShowOn size h ds → ds ≡ [] }
    ensures truthful { (size : ℕ) (h : Held) (g : Geometry) (repository : List ℕ) → IsFormatted size h.floor g repository → IsSettled h → IsTruthfulDevice size h }
{}

/// A device on which no disk is tracked is truthful.
pub fn law_untracked()
    ensures { (size : ℕ) (h : Held) → HasNoLogs size h → IsTruthfulDevice size h }
{}

/// A device on which all checks of an opening pass is never refused, and one that is refused passes not all of them: an
/// opening succeeds exactly where what stands there is sound, but for a fault of the device and want of memory. So a run
/// on such a device is not refused either. And a device is refused with one answer alone.
pub fn law_exact()
    ensures answers { (size : ℕ) (image : ℕ → List ℕ) (e : OpenFault) → IsSoundOn size image → IsRefusedOn size image e → ⊥ }
    ensures once { (size : ℕ) (image : ℕ → List ℕ) (e f : OpenFault) → IsRefusedOn size image e → IsRefusedOn size image f → e ≡ f }
    ensures runs { (s : RunSides) (status : Status) → RunDid s status → IsSoundOn s.size (reads s.old) → status ≡ Refused → ⊥ }
{}
