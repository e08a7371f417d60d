//! What an opening of a volume group answers, read off all bytes of the device.

ghost use Rattle.std.specs.Prelude.{◌≡◌, ◌≤◌, ◌<◌, ◌/◌, ◌+◌, ◌*◌, ◌⊎◌, true, false, length, sum, IfSome, IfNone, IfOk};
ghost use Rattle.sm_disk.specs.Sectors.{sector as sector_of};
ghost use Rattle.tests_reader.specs.Answers.{IsFault, IsTextFault};
ghost use Rattle.tests_reader.specs.Frames.{places, slot_end};
ghost use Rattle.vg_layout.specs.Opening.{grammar_of as grammar_of_version, is_header_right as is_header_right_of};
ghost use Rattle.vg_layout.specs.Places.{slot_bytes, slot_text};
ghost use Rattle.vg_layout.specs.Sectors.{number_at};

use crate::bytes::{number, sum_between};
use crate::frames::{Frame, frame_of, slot_begin};
use crate::heads::{is_header_right, label_fault};
use crate::texts::text_damage;
use sm_base::{OpenFault, Place};
use std::alloc::{AllocError, Global};
use vg_meta::Grammar;

/// The text that a header names in a frame; `None` where the header is not right, or the device ends in the slot.
pub fn text_of<'a>(device: &'a [u8], frame: &Frame, header: &[u8; 512]) -> Option<&'a [u8]>
    ensures right { IfSome result (λ text. is_header_right_of (places frame.now) header.now ≡ true) }
    ensures text { IfSome result (λ text. text.now ≡ slot_text (places frame.now) (sector_of device.now) (number_at 8 header.now) (number_at 12 header.now)) }
    ensures few { IfSome result (λ text. length text.now ≤ slot_bytes (places frame.now)) }
    ensures none { IfNone result ((is_header_right_of (places frame.now) header.now ≡ false) ⊎ (length device.now < slot_end (places frame.now) (number_at 8 header.now))) }
{
    if !is_header_right(frame, header) {
        return None;
    }
    let begin = 512 * slot_begin(frame, number(header, 8)) as usize;
    if device.len() < begin + 512 * frame.room as usize {
        return None;
    }
    let end = begin + number(header, 12) as usize;
    Some(&device[begin..end])
}

/// Why a table is refused whose text has this sum by its header, where extents are counted up to `count`.
fn text_fault(
    alloc: Global,
    grammar: Grammar,
    text: &[u8],
    sum: u32,
    count: u32,
) -> Result<Option<OpenFault>, AllocError>
    requires { length text.now ≤ 8519680 }
    ensures { IfOk result (IsTextFault grammar count sum text.now) }
{
    if sum_between(text, 0, text.len()) != sum {
        return Ok(Some(OpenFault::Damaged {
            place: Place::TableSum,
        }));
    }
    let Some(at) = text_damage(alloc, grammar, text, count)? else {
        return Ok(None);
    };
    Ok(Some(OpenFault::Damaged {
        place: Place::Table { at: at as u32 },
    }))
}

/// The grammar of a version's text.
#[tactic(auto, unfolding(vg_layout::specs::Opening::grammar_of))]
fn grammar_of(version: u32) -> Grammar
    ensures { result ≡ grammar_of_version version }
{
    if version == 1 {
        Grammar::Listed
    } else {
        Grammar::Segmented
    }
}

/// A sector of a device.
#[tactic(auto, unfolding(sm_disk::specs::Sectors::sector))]
fn sector(device: &[u8], at: usize) -> [u8; 512]
    requires { 512 * at + 512 ≤ length device.now }
    ensures { result ≡ sector_of device.now at }
{
    let mut sector = [0; 512];
    sector.copy_from_slice(&device[512 * at..512 * at + 512]);
    sector
}

/// Why an opening refuses the device with these bytes, or `None` where a group stands on it.
pub fn opening_fault(alloc: Global, device: &[u8]) -> Result<Option<OpenFault>, AllocError>
    ensures { IfOk result (IsFault (length device.now / 512) (sector_of device.now)) }
{
    let sectors = (device.len() / 512) as u64;
    if sectors < 2 {
        return Ok(Some(OpenFault::NotARepository));
    }
    let label = sector(device, 0);
    if let Some(fault) = label_fault(sectors, &label) {
        return Ok(Some(fault));
    }
    let version = number(&label, 8);
    let frame = frame_of(version, number(&label, 44));
    let header = sector(device, frame.header as usize);
    let Some(text) = text_of(device, &frame, &header) else {
        return Ok(Some(OpenFault::Damaged {
            place: Place::Header,
        }));
    };
    let grammar = grammar_of(version);
    text_fault(
        alloc,
        grammar,
        text,
        number(&header, 16),
        number(&label, 40),
    )
}
