//! An import.

ghost use Rattle.std.specs.Prelude.{◌≡◌, ◌+◌, Some, Err, IfErr, IfOk, IfSome, OnOk};
ghost use Rattle.sm_disk.specs.Held.{Keeps};
ghost use Rattle.vg_meta.specs.Roomy.{table_alone};
ghost use Rattle.sm_ready.specs.Frames.{HasCommits};
ghost use Rattle.sm_ready.specs.Framing.{IsBetweenSteps};
ghost use Rattle.sm_ready.specs.Sessions.{IsAtEase, IsReadyStore, KeepsAll};
ghost use Rattle.sm_ready.specs.Stores.{StoreLeaves};
ghost use Rattle.sm_ready.specs.Does.{store_shape};
ghost use Rattle.sm_machine.specs.Tracking.{AreGoodLogs};
ghost use Rattle.sm_run.specs.Runs.{IsSpent};
ghost use Rattle.sm_base.specs.declared.names.Name.TheVariants.{Vhd};
ghost use Rattle.sm_base.specs.declared.refusals.Refusal.{Refusal as RefusalOf};
ghost use Rattle.sm_refusals.specs.Importing.{entry_refusal};
ghost use Rattle.vhd_import.specs.declared.faults.ImportFault.TheVariants.{Device, Refused};
ghost use Rattle.sm_importing.specs.Imports.{extents_of_volume};
ghost use Rattle.cmd_import.specs.Importing.{Answers, EndCounts, HasImported, HasNewImage, shape_of};

use crate::ending::{end_import, undo_import};
use sm_base::Name;
use sm_disk::Source;
use sm_importing::Importing;
use sm_ready::Memory;
use sm_refusals::refuse_import;
use std::alloc::Global;
use uuid::Uuid;
use vg_volumes::Store;
use vhd_filling::Filling;
use vhd_import::{ImportFault, read_file};

/// Makes a disk of the VHD file that a source gives, and answers its size in bytes. `now` is in seconds since 2000-01-01 00:00 UTC. The store and
/// what is in memory of it are handed back at every return.
///
/// # Errors
///
/// `Refused` and `Long` are the file's own or the repository's (`Answers`); the new volume is removed again. `Source`
/// where a call of the source failed, `NoMemory` where memory ran out: likewise. `Device` where a call of the store failed, also one that was to
/// remove the volume. A stop leaves the disks from before, and at the last commit of an import that succeeds these or one more.
pub fn import<S: Store, R: Source>(
    alloc: Global,
    uuid: &Uuid,
    now: u32,
    store: S,
    memory: Memory,
    source: &mut R,
) -> (Result<u64, ImportFault>, S, Memory)
    requires session { IsBetweenSteps S.Store store memory }
    requires ease { IsAtEase memory }
    ensures site { S.site result.1 ≡ S.site store }
    ensures beside { S.told → Keeps (S.beside store) (S.beside result.1) }
    // What refuses it whatever its file holds does so before the first read.
    ensures refused { (r : RefusalOf) → entry_refusal (shape_of S.Store store memory) uuid.now ≡ Some r
        → (result.0 ≡ Err (Refused r)) × (result.1 ≡ store) × (result.2 ≡ memory) × (source.new ≡ source.old) }
    ensures counted { EndCounts result.0 (R.faults source.old) (R.faults source.new) (S.faults store) (S.faults result.1) }
    ensures answered { IfSome (R.content source.old) (λ bytes. Answers (shape_of S.Store store memory) uuid.now bytes result.0) }
    ensures logs { result.2.logs ≡ memory.logs }
    ensures session_still { OnOk result.0 (IsBetweenSteps S.Store result.1 result.2) }
    ensures image { IfOk result.0 (λ size. HasNewImage (S.site store) (table_alone (S.table result.1)) uuid.now now size memory result.2) }
    // No more commits were made than the disk's volume has extents, and one at the end.
    ensures few { OnOk result.0 (HasCommits (extents_of_volume (table_alone (S.table result.1)) (Vhd uuid.now) + 1) (table_alone (S.table store)) (table_alone (S.table result.1))) }
    // Behind any fault but Device the new volume is gone: table and memory agree as before, and memory is what it was.
    ensures restored { IfErr result.0 (λ fault. (fault ≡ Device → ⊥) → IsBetweenSteps S.Store result.1 result.2 × (result.2 ≡ memory)) }
    ensures spent { OnOk result.0 (IsSpent (R.content source.new)) }
    // The check of logs passes on whatever a stop leaves, where it did before and the logs in memory are those of disks, as they should be.
    ensures kept { S.told → IsReadyStore S.Store store memory → ∥ AreGoodLogs (store_shape S.Store store memory) ∥₁ → KeepsAll (S.site store) (StoreLeaves S.Store store)
        → KeepsAll (S.site store) (StoreLeaves S.Store result.1) }
    ensures done { S.told → IsReadyStore S.Store store memory → HasImported S.Store uuid.now (R.content source.old) memory result.2 store result.1 result.0 }
{
    if let Some(refusal) = refuse_import(store.table(), &memory, uuid) {
        return (Err(ImportFault::Refused(refusal)), store, memory);
    }
    let geometry = store.geometry();
    let Ok(filling) = Filling::new(alloc, Name::Vhd(*uuid), geometry) else {
        return (Err(ImportFault::NoMemory), store, memory);
    };
    let mut disk = Importing::new(alloc, store, memory, *uuid, filling);
    match read_file(alloc, geometry.entries, geometry.block, source, &mut disk) {
        Ok(sectors) => end_import(disk, uuid, sectors, now),
        Err(fault) => undo_import(disk, uuid, fault),
    }
}
