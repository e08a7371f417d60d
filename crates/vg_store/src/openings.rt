//! The first five checks of an opening: the first that fails gives the answer.

ghost use Rattle.std.specs.Prelude.{◌≡◌, ◌≤◌, ◌*◌, Ok, Err, IfOk, IfErr, OnOk, length, take, vec_len};
ghost use Rattle.sm_disk.specs.Held.{IsCounted, SameHeld, reads};
ghost use Rattle.vg_meta.specs.Roomy.{table_alone};
ghost use Rattle.vg_meta.specs.Text.{text_by};
ghost use Rattle.vg_layout.specs.Fields.{layout_number, places_in, plate, pointer, slot_number};
ghost use Rattle.vg_layout.specs.Opening.{IsRefused, grammar_of, plate_of, pointer_by};
ghost use Rattle.vg_layout.specs.Places.{IsApart, frame_of, slot_bytes, slot_text};
ghost use Rattle.vg_volumes.specs.Commits.{current_version};
ghost use Rattle.vg_store.specs.Openings.{HasLabel, HasTextOf, IsAnswer, IsFoundOn, IsKnown, IsTextAnswer, ShowsLabel};

use sm_base::{Failed, NoMemory, OpenFault, Place};
use sm_disk::{Disk, read_sector};
use std::alloc::Global;
use vg_layout::{Frame, GroupLabel, LABEL, Layout, TableHeader, sum_of};
use vg_meta::{DecodeFault, Grammar, Table};
use vg_volumes::CURRENT_VERSION;

/// The label and its version, by the first three checks.
pub(crate) fn label_on<D: Disk>(disk: &mut D) -> Result<(GroupLabel, u32), OpenFault>
    ensures size { D.size disk.new ≡ D.size disk.old }
    ensures counts { D.faults disk.old ≤ D.faults disk.new }
    ensures calm { OnOk result (D.faults disk.new ≡ D.faults disk.old) }
    ensures same { D.told → SameHeld (D.held disk.old) (D.held disk.new) }
    ensures sizes { IfOk result (λ l. HasLabel (D.size disk.old) l.1 (plate l.0)) }
    ensures ok { IfOk result (λ l. D.told → ShowsLabel (D.size disk.old) (reads (D.held disk.old)) l.1 (plate l.0)) }
    ensures err { IfErr result (IsAnswer (λ e. D.told → plate_of (D.size disk.old) (reads (D.held disk.old)) ≡ Err e) (D.faults disk.old) (D.faults disk.new)) }
{
    let sectors = disk.sectors();
    if sectors < 2 {
        return Err(OpenFault::NotARepository);
    }
    let Ok(sector) = read_sector(disk, LABEL) else {
        return Err(OpenFault::Device);
    };
    match GroupLabel::read(sectors, &sector) {
        Ok(label) => Ok((label, GroupLabel::version(&sector))),
        Err(fault) => Err(fault),
    }
}

/// The table header of a frame, by the fourth check.
pub(crate) fn header_on<D: Disk>(disk: &mut D, frame: &Frame) -> Result<TableHeader, OpenFault>
    requires { IsApart (places_in frame.now) (D.size disk.old) }
    ensures size { D.size disk.new ≡ D.size disk.old }
    ensures counts { D.faults disk.old ≤ D.faults disk.new }
    ensures calm { OnOk result (D.faults disk.new ≡ D.faults disk.old) }
    ensures same { D.told → SameHeld (D.held disk.old) (D.held disk.new) }
    ensures short { IfOk result (λ h. h.length ≤ slot_bytes (places_in frame.now)) }
    ensures ok { IfOk result (λ h. D.told → pointer_by (places_in frame.now) (reads (D.held disk.old) frame.now.header) ≡ Ok (pointer h)) }
    ensures err { IfErr result (IsAnswer (λ e. D.told → pointer_by (places_in frame.now) (reads (D.held disk.old) frame.now.header) ≡ Err e) (D.faults disk.old) (D.faults disk.new)) }
{
    let Ok(sector) = read_sector(disk, frame.header) else {
        return Err(OpenFault::Device);
    };
    match TableHeader::read(frame, &sector) {
        Ok(header) => Ok(header),
        Err(fault) => Err(fault),
    }
}

/// Reads the sectors that the text of a header reaches in a frame. The buffer begins with the text afterwards.
fn read_text<D: Disk>(
    disk: &mut D,
    frame: &Frame,
    header: &TableHeader,
    buffer: &mut [u8],
) -> Result<(), Failed>
    requires apart { IsApart (places_in frame.now) (D.size disk.old) }
    requires buffer { slot_bytes (places_in frame.now) ≤ length buffer.old }
    requires fits { header.now.length ≤ slot_bytes (places_in frame.now) }
    ensures size { D.size disk.new ≡ D.size disk.old }
    ensures counts { D.faults disk.old ≤ D.faults disk.new }
    ensures cause { IsCounted result (D.faults disk.old) (D.faults disk.new) }
    ensures same { D.told → SameHeld (D.held disk.old) (D.held disk.new) }
    ensures long { length buffer.new ≡ length buffer.old }
    ensures text { OnOk result (D.told → take header.now.length buffer.new ≡ slot_text (places_in frame.now) (reads (D.held disk.old)) (slot_number header.now.slot) header.now.length) }
{
    if header.length == 0 {
        return Ok(());
    }
    let sectors = header.length.div_ceil(512) as usize;
    let (front, _) = buffer.split_at_mut(512 * sectors);
    disk.read(header.slot.place(frame), front)?;
    Ok(())
}

/// The table whose text by a grammar a header names in a frame, by the fifth check.
pub(crate) fn table_on<D: Disk>(
    alloc: Global,
    disk: &mut D,
    frame: &Frame,
    grammar: Grammar,
    extents: u32,
    header: &TableHeader,
    buffer: &mut [u8],
) -> Result<Table, OpenFault>
    requires apart { IsApart (places_in frame.now) (D.size disk.old) }
    requires buffer { slot_bytes (places_in frame.now) ≤ length buffer.old }
    requires few { slot_bytes (places_in frame.now) ≤ 8519680 }
    requires fits { header.now.length ≤ slot_bytes (places_in frame.now) }
    ensures size { D.size disk.new ≡ D.size disk.old }
    ensures counts { D.faults disk.old ≤ D.faults disk.new }
    ensures calm { OnOk result (D.faults disk.new ≡ D.faults disk.old) }
    ensures same { D.told → SameHeld (D.held disk.old) (D.held disk.new) }
    ensures long { length buffer.new ≡ length buffer.old }
    ensures table { IfOk result (λ t. HasTextOf grammar extents (pointer header.now) (table_alone t)) }
    ensures stands { IfOk result (λ t. D.told → slot_text (places_in frame.now) (reads (D.held disk.old)) (slot_number header.now.slot) header.now.length ≡ text_by grammar (table_alone t)) }
    ensures err { IfErr result (IsAnswer (λ e. D.told → IsTextAnswer grammar (places_in frame.now) extents (pointer header.now) (D.held disk.old) e) (D.faults disk.old) (D.faults disk.new)) }
{
    let Ok(()) = read_text(disk, frame, header, buffer) else {
        return Err(OpenFault::Device);
    };
    let text = &buffer[..header.length as usize];
    if sum_of(text) != header.sum {
        return Err(OpenFault::Damaged {
            place: Place::TableSum,
        });
    }
    match Table::decode_by(alloc, grammar, text, extents) {
        Ok(table) => Ok(table),
        Err(DecodeFault::Damaged { at }) => Err(OpenFault::Damaged {
            place: Place::Table { at },
        }),
        Err(DecodeFault::NoMemory) => Err(OpenFault::NoMemory),
    }
}

/// The grammar of a version's texts.
#[tactic(auto, unfolding(vg_layout::specs::Opening::grammar_of))]
fn grammar_of(version: u32) -> Grammar
    ensures { result ≡ grammar_of version }
{
    if version == 1 {
        Grammar::Listed
    } else {
        Grammar::Segmented
    }
}

/// A buffer for the texts of a layout: it has the bytes of a slot of the current version.
fn buffer_of(alloc: Global, layout: Layout) -> Result<Vec<u8>, NoMemory>
    ensures long { IfOk result (λ b. vec_len b ≡ slot_bytes (frame_of current_version (layout_number layout))) }
{
    let bytes = Frame::of(CURRENT_VERSION, layout).slot_bytes();
    let Ok(buffer) = vec![in alloc; 0u8; bytes as usize] else {
        return Err(NoMemory);
    };
    Ok(buffer)
}

/// What the checks of an opening learn, and the buffer that the table's text was read into.
pub(crate) struct Found {
    pub label: GroupLabel,
    pub version: u32,
    pub header: TableHeader,
    pub table: Table,
    pub buffer: Vec<u8>,
}

/// The label, the header and the table, by the five checks: the first that fails gives the answer. Header and text are read in the
/// frame, and by the grammar, of the version and layout that the label says. The buffer is taken once the label is right.
pub(crate) fn find<D: Disk>(alloc: Global, disk: &mut D) -> Result<Found, OpenFault>
    ensures size { D.size disk.new ≡ D.size disk.old }
    ensures counts { D.faults disk.old ≤ D.faults disk.new }
    ensures calm { OnOk result (D.faults disk.new ≡ D.faults disk.old) }
    ensures same { D.told → SameHeld (D.held disk.old) (D.held disk.new) }
    ensures buffer { IfOk result (λ f. vec_len f.buffer ≡ slot_bytes (frame_of current_version (layout_number f.label.layout))) }
    ensures known { IfOk result (λ f. IsKnown (D.size disk.old) f.version (plate f.label) (pointer f.header) (table_alone f.table)) }
    ensures found { IfOk result (λ f. D.told → IsFoundOn (D.size disk.old) (reads (D.held disk.old)) f.version (plate f.label) (pointer f.header) (table_alone f.table)) }
    ensures err { IfErr result (IsAnswer (λ e. D.told → IsRefused (D.size disk.old) (reads (D.held disk.old)) e) (D.faults disk.old) (D.faults disk.new)) }
{
    let (label, version) = match label_on(disk) {
        Ok(found) => found,
        Err(fault) => return Err(fault),
    };
    let Ok(mut buffer) = buffer_of(alloc, label.layout) else {
        return Err(OpenFault::NoMemory);
    };
    let frame = Frame::of(version, label.layout);
    let header = match header_on(disk, &frame) {
        Ok(header) => header,
        Err(fault) => return Err(fault),
    };
    let grammar = grammar_of(version);
    let table = match table_on(
        alloc,
        disk,
        &frame,
        grammar,
        label.extents,
        &header,
        &mut buffer,
    ) {
        Ok(table) => table,
        Err(fault) => return Err(fault),
    };
    Ok(Found {
        label,
        version,
        header,
        table,
        buffer,
    })
}
