//! A device is formatted: a new group of version 2 stands on it, and all that stood there is gone. It is in the layout that
//! gives the device more extents, the narrow one where both give as many.
//!
//! The label is taken away first, and written last, each with a sync. So a device on which this stopped holds what it
//! held, no repository, or the new group, whole. What is no part of the new group is left as it is.

ghost use Rattle.std.specs.Prelude.{◌≡◌, ◌≤◌, ◌<◌, ◌+◌, ℕ, Err, IfOk, IfErr, OnOk, List, take, vec_len};
ghost use Rattle.sm_disk.specs.Held.{Allows, IsCounted, IsSettled, Keeps, Reaches, reads};
ghost use Rattle.std.proofs.Props.{props};
ghost use Rattle.vg_meta.specs.Text.{text};
ghost use Rattle.vg_layout.specs.Places.{area_place, new_extents, record_extents};
ghost use Rattle.vg_layout.specs.Fields.{layout_number, plate, pointer, slot_number};
ghost use Rattle.vg_store.specs.declared.formats.FormatFault.TheVariants.{TooSmall};
ghost use Rattle.vg_store.specs.Formats.{IsBehindLabel, IsBlank, StandsBehindLabel, IsFormatFault, IsFormatWrite, IsFormatted, IsLaidOut, IsLeftByFormat, IsLeftOf, beside_new, least_size, new_group};

use sm_base::{Failed, Geometry, NoMemory};
use sm_disk::{Disk, put, write_sector};
use std::alloc::Global;
use thiserror::Error;
use uuid::Uuid;
use vg_layout::{
    Frame, GroupLabel, LABEL, Layout, Slot, TableHeader, extents_on, record_extents, sum_of,
};
use vg_meta::Table;
use vg_volumes::CURRENT_VERSION;

/// The bytes of all records.
const RECORDS: usize = 512 * 512;

/// What a format answers. Both numbers count extents.
#[derive(Clone, Copy, Drop, PartialEq, Eq)]
pub struct Formatted {
    /// All of them.
    pub extents: u32,
    /// Those that no volume has.
    pub free: u32,
}

/// Why a device was not formatted.
#[derive(Clone, Copy, Debug, Drop, Error, PartialEq, Eq)]
pub enum FormatFault {
    /// The device has fewer sectors than are needed, which are so many. Nothing was written.
    #[error("the device has fewer than {sectors} sectors")]
    TooSmall { sectors: u64 },
    /// The device failed. It holds what it held, no repository, or the new group.
    #[error("the device failed")]
    Device,
    /// Memory ran out. Nothing was written.
    #[error("memory ran out")]
    NoMemory,
}

/// Makes a new group of the device, in the layout that gives it more extents: its table has the sequence number 1 and one
/// volume, that of the records, which has the first extents, and each record is free. All memory is taken before the
/// first write.
///
/// # Errors
///
/// `TooSmall` exactly where the device has fewer than 4,096 sectors and those of the records' extents, `NoMemory`
/// where memory ran out, and `Device` where a call of the device failed.
pub fn format<D: Disk>(
    alloc: Global,
    disk: &mut D,
    geometry: Geometry,
    repository: Uuid,
) -> Result<Formatted, FormatFault>
    ensures size { D.size disk.new ≡ D.size disk.old }
    ensures counts { D.faults disk.old ≤ D.faults disk.new }
    ensures calm { OnOk result (D.faults disk.new ≡ D.faults disk.old) }
    ensures small { D.size disk.old < least_size geometry.extent → result ≡ Err (TooSmall (least_size geometry.extent)) }
    ensures fault { IfErr result (IsFormatFault (D.size disk.old) (least_size geometry.extent) (disk.new ≡ disk.old) (D.faults disk.old) (D.faults disk.new)) }
    ensures extents { IfOk result (λ f. f.extents ≡ new_extents (D.size disk.old) geometry.extent) }
    ensures free { IfOk result (λ f. f.free + record_extents geometry.extent ≡ f.extents) }
    ensures beside { D.told → Keeps (beside_new (D.size disk.old) geometry.extent (D.held disk.old)) (beside_new (D.size disk.old) geometry.extent (D.held disk.new)) }
    ensures settled { OnOk result (D.told → IsSettled (D.held disk.new)) }
    ensures formatted { OnOk result (D.told → IsFormatted (D.size disk.old) (D.held disk.new).floor geometry repository) }
    ensures crash { D.told → (image : ℕ → List ℕ) → Allows (D.size disk.old) (D.held disk.new) image → IsLeftByFormat (D.size disk.old) (D.held disk.old) geometry repository image }
{
    let sectors = disk.sectors();
    let records = record_extents(&geometry);
    let least = Layout::Narrow.area() + u64::from(records) * u64::from(geometry.extent);
    if sectors < least {
        return Err(FormatFault::TooSmall { sectors: least });
    }
    let Ok(draft) = Draft::new(alloc, sectors, geometry, repository) else {
        return Err(FormatFault::NoMemory);
    };
    let Ok(()) = lay_out(disk, &draft) else {
        return Err(FormatFault::Device);
    };
    let extents = draft.label.extents;
    Ok(Formatted {
        extents,
        free: extents - records,
    })
}

/// What a format writes.
#[derive(Drop)]
struct Draft {
    label: GroupLabel,
    // It names slot 0.
    header: TableHeader,
    // The sector of the table's text, which is filled up with zeros.
    text: [u8; 512],
    // The sectors of the records.
    records: Vec<u8>,
    ghost first: { slot_number header.slot ≡ 0 },
    ghost long: { vec_len records ≡ 262144 },
    ghost blank: { IsBlank records.items } by { Prim.hlevel props },
}

impl Draft {
    // What is written on a device of so many sectors. All memory is taken here.
    fn new(
        alloc: Global,
        sectors: u64,
        geometry: Geometry,
        repository: Uuid,
    ) -> Result<Draft, NoMemory>
        ensures label { IfOk result (λ d. plate d.label ≡ (new_group sectors geometry repository).plate) }
        ensures header { IfOk result (λ d. pointer d.header ≡ (new_group sectors geometry repository).pointer) }
        ensures text { IfOk result (λ d. take d.header.length d.text ≡ text (new_group sectors geometry repository).table) }
    {
        let table = Table::formatted(alloc, record_extents(&geometry))?;
        let records = blank_bytes(alloc, RECORDS)?;
        let mut text = [0; 512];
        let length = table.encode(&mut text);
        let header = TableHeader {
            slot: Slot::Zero,
            length: length as u32,
            sum: sum_of(&text[..length]),
        };
        let layout = Layout::best(sectors, &geometry);
        let label = GroupLabel {
            geometry,
            extents: extents_on(sectors, layout, &geometry),
            layout,
            repository,
        };
        Ok(Draft {
            label,
            header,
            text,
            records,
        })
    }
}

// So many bytes of zeros.
fn blank_bytes(alloc: Global, bytes: usize) -> Result<Vec<u8>, NoMemory>
    ensures long { IfOk result (λ v. vec_len v ≡ bytes) }
    ensures blank { IfOk result (λ v. IsBlank v.items) }
{
    let Ok(blank) = vec![in alloc; 0; bytes] else {
        return Err(NoMemory);
    };
    Ok(blank)
}

// Takes the label away, fills the sectors behind it, and writes the new label, each with a sync.
fn lay_out<D: Disk>(disk: &mut D, draft: &Draft) -> Result<(), Failed>
    requires room { area_place (layout_number draft.now.label.layout) + 512 ≤ D.size disk.old }
    ensures size { D.size disk.new ≡ D.size disk.old }
    ensures counts { D.faults disk.old ≤ D.faults disk.new }
    ensures cause { IsCounted result (D.faults disk.old) (D.faults disk.new) }
    ensures reaches { D.told → Reaches (IsFormatWrite (layout_number draft.now.label.layout)) (D.held disk.old) (D.held disk.new) }
    ensures settled { OnOk result (D.told → IsSettled (D.held disk.new)) }
    ensures laid { OnOk result (D.told → IsLaidOut (plate draft.now.label) (pointer draft.now.header) draft.now.text (D.held disk.new).floor) }
    ensures crash { D.told → (image : ℕ → List ℕ) → Allows (D.size disk.old) (D.held disk.new) image → IsLeftOf (D.size disk.old) (D.held disk.old) (plate draft.now.label) (pointer draft.now.header) draft.now.text image }
{
    put(disk, LABEL, &[0; 512])?;
    fill(disk, draft)?;
    let mut sector = [0; 512];
    draft.label.write(CURRENT_VERSION, &mut sector);
    put(disk, LABEL, &sector)?;
    Ok(())
}

// Writes the records, the text into the slot of its header and the header, and syncs.
fn fill<D: Disk>(disk: &mut D, draft: &Draft) -> Result<(), Failed>
    requires room { area_place (layout_number draft.now.label.layout) + 512 ≤ D.size disk.old }
    ensures size { D.size disk.new ≡ D.size disk.old }
    ensures counts { D.faults disk.old ≤ D.faults disk.new }
    ensures cause { IsCounted result (D.faults disk.old) (D.faults disk.new) }
    ensures reaches { D.told → Reaches (IsBehindLabel (layout_number draft.now.label.layout)) (D.held disk.old) (D.held disk.new) }
    ensures settled { OnOk result (D.told → IsSettled (D.held disk.new)) }
    ensures filled { OnOk result (D.told → StandsBehindLabel (layout_number draft.now.label.layout) (pointer draft.now.header) draft.now.text (reads (D.held disk.new))) }
{
    let layout = draft.label.layout;
    let frame = Frame::of(CURRENT_VERSION, layout);
    disk.write(layout.area(), &draft.records)?;
    write_sector(disk, draft.header.slot.place(&frame), &draft.text)?;
    let mut sector = [0; 512];
    draft.header.write(&mut sector);
    put(disk, frame.header, &sector)?;
    Ok(())
}
