//! The end of an import: the disk is completed, or its volume goes.

ghost use Rattle.std.specs.Prelude.{◌≡◌, ◌<◌, ◌≤◌, ◌*◌, ℕ, List, Option, true, false, IfOk, IfErr, OnOk, length};
ghost use Rattle.uuid.specs.Parts.{is_nil_bytes};
ghost use Rattle.sm_base.specs.Names.{IsUuid};
ghost use Rattle.sm_base.specs.declared.names.Name.TheVariants.{Vhd};
ghost use Rattle.sm_base.specs.Numbers.{div_up};
ghost use Rattle.sm_disk.specs.Held.{Keeps};
ghost use Rattle.sm_machine.specs.Disks.{sector_bytes};
ghost use Rattle.sm_ready.specs.Frames.{HasCommits};
ghost use Rattle.sm_ready.specs.Framing.{IsBetweenSteps};
ghost use Rattle.sm_record.specs.Records.{IsRecord};
ghost use Rattle.vg_meta.specs.Roomy.{table_alone};
ghost use Rattle.vg_volumes.specs.Stored.{Counts};
ghost use Rattle.vhd_filling.specs.Filled.{HasBlocksBelow};
ghost use Rattle.vhd_import.specs.declared.faults.ImportFault.TheVariants.{Device};
ghost use Rattle.sm_importing.specs.Disks.{Begin, IsFilled, IsSince};
ghost use Rattle.sm_importing.specs.Imports.{GoesNoLower, ImportsSince, extents_of_volume};
ghost use Rattle.cmd_import.specs.Ends.{EndsFrom, HasMadeIn, IsCut, UndoCounts, import_record};
ghost use Rattle.cmd_import.specs.Importing.{HasImported, HasNewImage, whole_blocks};

use sm_base::{Label, SECTOR, base_uuid};
use sm_importing::{Importing, complete, give_up};
use sm_ready::Memory;
use sm_record::Record;
use uuid::Uuid;
use vg_volumes::Store;
use vhd_filling::Filling;
use vhd_import::ImportFault;

/// Sixteen bytes are those of a UUID. The call does nothing.
fn law_uuid(bytes: &[u8])
    requires { length bytes.now ≡ 16 }
    ensures { IsUuid bytes.now }
{
    let _count = bytes.len();
}

/// The record of a disk that is imported.
fn record_of(disk: &Uuid) -> Record
    requires not_nil { is_nil_bytes disk.now ≡ false }
    ensures is { result ≡ import_record disk.now }
    ensures proper { IsRecord result }
{
    law_uuid(disk.as_bytes());
    let Some(label) = Label::of(b"import") else {
        unreachable!()
    };
    let _text = label.text();
    Record {
        uuid: *disk,
        label,
        origin: None,
        read_only: false,
    }
}

/// Ends the import of a disk of so many sectors, whose image is filled: the image is finished, with the sectors rounded up to whole blocks,
/// and the disk completed. It answers the disk's size in bytes.
fn complete_disk<S: Store>(
    store: &mut S,
    memory: &mut Memory,
    uuid: &Uuid,
    filling: Filling,
    sectors: u64,
    now: u32,
) -> Result<u64, ImportFault>
    requires filled { IsFilled S.Store store.old memory.old uuid.now filling }
    requires some { 0 < sectors }
    requires fits { div_up sectors filling.geometry.block ≤ filling.geometry.entries }
    requires blocks { HasBlocksBelow (div_up sectors filling.geometry.block) filling }
    ensures site { S.site store.new ≡ S.site store.old }
    ensures beside { S.told → Keeps (S.beside store.old) (S.beside store.new) }
    ensures cause { Counts S.Store result store.old store.new }
    ensures logs { memory.new.logs ≡ memory.old.logs }
    ensures counts { S.faults store.old ≤ S.faults store.new }
    ensures few { HasCommits 1 (table_alone (S.table store.old)) (table_alone (S.table store.new)) }
    ensures no_lower { GoesNoLower S.Store store.old store.new }
    ensures extents { OnOk result (extents_of_volume (table_alone (S.table store.new)) (Vhd uuid.now) ≡ extents_of_volume (table_alone (S.table store.old)) (Vhd uuid.now)) }
    ensures device { IfErr result (λ fault. fault ≡ Device) }
    ensures size { IfOk result (λ size. size ≡ sector_bytes * whole_blocks (S.site store.old).geometry.block sectors) }
    ensures session { OnOk result (IsBetweenSteps S.Store store.new memory.new) }
    ensures image { IfOk result (λ size. HasNewImage (S.site store.old) (table_alone (S.table store.new)) uuid.now now size memory.old memory.new) }
    ensures ends { (a : S) (bytes : Option (List ℕ)) → ImportsSince S.Store uuid.now memory.old a store.old → S.told
        → HasMadeIn S.Store filling store.old bytes sectors a memory.old → HasImported S.Store uuid.now bytes memory.old memory.new a store.new result }
{
    let geometry = store.geometry();
    let block = u64::from(geometry.block);
    let whole = sectors.div_ceil(block) * block;
    let uid = base_uuid(store.table().seq());
    let Ok(image) = filling.finish(store, uid, whole, now) else {
        return Err(ImportFault::Device);
    };
    let Ok(()) = complete(store, memory, record_of(uuid), image) else {
        return Err(ImportFault::Device);
    };
    Ok(SECTOR * whole)
}

/// Ends an import of which the file was read whole: its disk has so many sectors, and becomes one of the repository.
pub(crate) fn end_import<S: Store>(
    disk: Importing<S>,
    uuid: &Uuid,
    sectors: u64,
    now: u32,
) -> (Result<u64, ImportFault>, S, Memory)
    requires named { disk.disk ≡ uuid.now }
    requires going { disk.over ≡ false }
    requires begun { disk.begun ≡ true }
    requires some { 0 < sectors }
    requires fits { div_up sectors disk.filling.geometry.block ≤ disk.filling.geometry.entries }
    requires blocks { HasBlocksBelow (div_up sectors disk.filling.geometry.block) disk.filling }
    ensures site { S.site result.1 ≡ S.site disk.store }
    ensures beside { S.told → Keeps (S.beside disk.store) (S.beside result.1) }
    ensures cause { Counts S.Store result.0 disk.store result.1 }
    ensures logs { result.2.logs ≡ disk.memory.logs }
    ensures counts { S.faults disk.store ≤ S.faults result.1 }
    ensures few { HasCommits 1 (table_alone (S.table disk.store)) (table_alone (S.table result.1)) }
    ensures no_lower { GoesNoLower S.Store disk.store result.1 }
    ensures extents { OnOk result.0 (extents_of_volume (table_alone (S.table result.1)) (Vhd uuid.now) ≡ extents_of_volume (table_alone (S.table disk.store)) (Vhd uuid.now)) }
    ensures device { IfErr result.0 (λ fault. fault ≡ Device) }
    ensures size { IfOk result.0 (λ size. size ≡ sector_bytes * whole_blocks (S.site disk.store).geometry.block sectors) }
    ensures session { OnOk result.0 (IsBetweenSteps S.Store result.1 result.2) }
    ensures image { IfOk result.0 (λ size. HasNewImage (S.site disk.store) (table_alone (S.table result.1)) uuid.now now size disk.memory result.2) }
    ensures ends { (o : Begin S) (bytes : Option (List ℕ)) → IsSince S.Store o disk.store disk.memory disk.disk disk.begun disk.over
        → HasMadeIn S.Store disk.filling disk.store bytes sectors o.store o.memory → EndsFrom S.Store bytes result.2 o result.1 result.0 }
{
    let (mut store, mut memory, filling) = disk.into_parts();
    let result = complete_disk(&mut store, &mut memory, uuid, filling, sectors, now);
    (result, store, memory)
}

/// Ends an import that has a fault: where its volume stands, this is removed again. It answers the fault, or `Device` where a call of the store
/// failed: one before, or that which was to remove the volume.
pub(crate) fn undo_import<S: Store>(
    disk: Importing<S>,
    uuid: &Uuid,
    fault: ImportFault,
) -> (Result<u64, ImportFault>, S, Memory)
    requires named { disk.disk ≡ uuid.now }
    ensures site { S.site result.1 ≡ S.site disk.store }
    ensures beside { S.told → Keeps (S.beside disk.store) (S.beside result.1) }
    ensures answer { IfErr result.0 (UndoCounts S.Store (IsCut disk.begun disk.over) fault disk.store result.1) }
    ensures fails { OnOk result.0 ⊥ }
    ensures memory { result.2 ≡ disk.memory }
    ensures no_lower { GoesNoLower S.Store disk.store result.1 }
    // Where no call of the store failed, the volume is gone.
    ensures restored { IfErr result.0 (λ answer. (answer ≡ Device → ⊥) → IsBetweenSteps S.Store result.1 result.2) }
    ensures ends { (o : Begin S) (bytes : Option (List ℕ)) → IsSince S.Store o disk.store disk.memory disk.disk disk.begun disk.over
        → EndsFrom S.Store bytes result.2 o result.1 result.0 }
{
    let begun = disk.is_begun();
    let over = disk.is_over();
    let (mut store, memory, _filling) = disk.into_parts();
    if !begun {
        return (Err(fault), store, memory);
    }
    if over {
        return (Err(ImportFault::Device), store, memory);
    }
    match give_up(&mut store, &memory, uuid) {
        Ok(()) => (Err(fault), store, memory),
        Err(_) => (Err(ImportFault::Device), store, memory),
    }
}
