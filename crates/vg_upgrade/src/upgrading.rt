//! The upgrade: the new text and header, a sync, the new label, a sync.

ghost use Rattle.std.specs.Prelude.{ℕ, List, ◌≡◌, ◌≤◌, ◌<◌, ◌*◌, ◌⊎◌, length, take, IfOk, OnOk};
ghost use Rattle.sm_disk.specs.Held.{Gave, IsCounted, IsSettled, IsWhole, Puts, Reaches, reads};
ghost use Rattle.vg_meta.specs.Roomy.{table_alone};
ghost use Rattle.vg_meta.specs.Text.{HasText, text};
ghost use Rattle.vg_layout.specs.Fields.{plate, pointer};
ghost use Rattle.vg_layout.specs.Places.{narrow_frame, slot_bytes};
ghost use Rattle.vg_layout.specs.Sectors.{Pointer};
ghost use Rattle.vg_upgrade.specs.Upgrades.{IsTaken, IsTakenOver, IsUpgradeWrite, new_bytes, new_pointer, new_sectors};

use sm_base::Failed;
use sm_disk::{Disk, put, write_sector};
use vg_layout::{Frame, GroupLabel, LABEL, Layout, Slot, TableHeader, sum_of};
use vg_meta::{Grammar, Table};

/// The version that a repository is taken over to.
const VERSION: u32 = 2;

/// Writes the table's text by segments to the buffer's beginning, with zeros up to the end of its last sector, and answers its
/// header in slot 0.
fn new_text(table: &Table, buffer: &mut [u8]) -> TableHeader
    requires numbers { HasText (table_alone table.now) }
    requires fits { length (text (table_alone table.now)) ≤ slot_bytes narrow_frame }
    requires room { slot_bytes narrow_frame ≤ length buffer.old }
    ensures header { pointer result ≡ new_pointer (table_alone table.now) }
    ensures bytes { take (512 * new_sectors (table_alone table.now)) buffer.new ≡ new_bytes (table_alone table.now) }
    ensures long { length buffer.new ≡ length buffer.old }
{
    buffer.fill(0);
    let length = table.encode_by(Grammar::Segmented, buffer);
    let sum = sum_of(&buffer[..length]);
    TableHeader {
        slot: Slot::Zero,
        length: length as u32,
        sum,
    }
}

/// Writes a text's sectors from the place `at` on, and a sector in front of them, and syncs.
fn lay<D: Disk>(
    disk: &mut D,
    at: u64,
    text: &[u8],
    place: u64,
    sector: &[u8; 512],
) -> Result<(), Failed>
    requires whole { IsWhole at (length text.now) (D.size disk.old) }
    requires front { place < at }
    ensures size { D.size disk.new ≡ D.size disk.old }
    ensures counts { D.faults disk.old ≤ D.faults disk.new }
    ensures cause { IsCounted result (D.faults disk.old) (D.faults disk.new) }
    ensures reaches { D.told → Reaches (λ q v. Puts at text.now q v ⊎ Puts place sector.now q v) (D.held disk.old) (D.held disk.new) }
    ensures settled { OnOk result (D.told → IsSettled (D.held disk.new)) }
    ensures text { OnOk result (D.told → Gave at (D.held disk.new) text.now) }
    ensures sector { OnOk result (D.told → reads (D.held disk.new) place ≡ sector.now) }
{
    disk.write(at, text)?;
    write_sector(disk, place, sector)?;
    disk.sync()?;
    Ok(())
}

/// Takes a repository of version 1 over, whose label and table these are. The buffer has room for one narrow slot; what it holds
/// afterwards is open. At every return `IsTakenOver` goes on for the image on which the group stood. At `Ok` version 2 rests, with
/// the header that is answered.
///
/// # Errors
///
/// Only where the count of faults rose. It may be called again.
pub fn take_over<D: Disk>(
    disk: &mut D,
    label: &GroupLabel,
    table: &Table,
    buffer: &mut [u8],
) -> Result<TableHeader, Failed>
    requires room { 4096 ≤ D.size disk.old }
    requires numbers { HasText (table_alone table.now) }
    requires some { 0 < length (text (table_alone table.now)) }
    requires fits { length (text (table_alone table.now)) ≤ slot_bytes narrow_frame }
    requires buffer { slot_bytes narrow_frame ≤ length buffer.old }
    ensures size { D.size disk.new ≡ D.size disk.old }
    ensures long { length buffer.new ≡ length buffer.old }
    ensures counts { D.faults disk.old ≤ D.faults disk.new }
    ensures cause { IsCounted result (D.faults disk.old) (D.faults disk.new) }
    ensures writes { D.told → Reaches (IsUpgradeWrite (plate label.now) (table_alone table.now)) (D.held disk.old) (D.held disk.new) }
    ensures going { D.told → (size : ℕ) (was : ℕ → List ℕ) (at : Pointer) → IsTakenOver size was (D.held disk.old) (plate label.now) at (table_alone table.now)
        → IsTakenOver size was (D.held disk.new) (plate label.now) at (table_alone table.now) }
    ensures header { IfOk result (λ h. pointer h ≡ new_pointer (table_alone table.now)) }
    ensures taken { OnOk result (D.told → IsTaken (plate label.now) (table_alone table.now) (D.held disk.new)) }
{
    let frame = Frame::of(VERSION, Layout::Narrow);
    let header = new_text(table, buffer);
    let sectors = header.length.div_ceil(512) as usize;
    let (text, _) = buffer.split_at(512 * sectors);
    let mut sector = [0; 512];
    header.write(&mut sector);
    lay(disk, header.slot.place(&frame), text, frame.header, &sector)?;
    label.write(VERSION, &mut sector);
    put(disk, LABEL, &sector)?;
    Ok(header)
}
