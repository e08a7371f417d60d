//! The label and the table header, tested field by field.

ghost use Rattle.std.specs.Prelude.{◌≡◌, ◌<◌, ◌≤◌, ◌-◌, ◌==◌, ◌&&◌, nat_le, nat_lt, IsTrue, length, take, drop, sum, Ok, Err, IfSome, IfNone};
ghost use Rattle.std.specs.List.{list_all};
ghost use Rattle.std.specs.Str.{bytes_eq};
ghost use Rattle.sm_disk.specs.Sectors.{IsSector};
ghost use Rattle.tests_reader.specs.Frames.{places};
ghost use Rattle.vg_layout.specs.Opening.{is_header_right as is_header_right_of, is_label_right as is_label_right_of, plate_of};
ghost use Rattle.vg_layout.specs.Places.{extents_on, record_extents, slot_bytes};
ghost use Rattle.vg_layout.specs.Sectors.{header_cookie, header_sector, is_geometry as is_geometry_of, label_cookie, label_sector, number_at, plate_in, pointer_in};

use crate::bytes::{are_zeros, number, sum_between};
use crate::frames::{Frame, area_of, most_of};
use sm_base::{OpenFault, Place};

/// Whether the three sizes are in their ranges.
#[tactic(auto, unfolding(vg_layout::specs::Sectors::is_geometry))]
fn is_geometry(extent: u32, block: u32, entries: u32) -> bool
    ensures exact { result ≡ is_geometry_of extent block entries }
    ensures least { IsTrue result → 32 ≤ extent }
{
    if !extent.is_power_of_two() || extent < 32 || 8192 < extent {
        return false;
    }
    if !block.is_power_of_two() || block < 8 || 4096 < block {
        return false;
    }
    block <= extent && 1 <= entries && entries <= 1_044_480
}

/// The most extents of a device of so many sectors in a layout: whole ones, and few.
#[tactic(auto, unfolding(vg_layout::specs::Places::extents_on))]
fn most_on(layout: u32, sectors: u64, extent: u32) -> u32
    requires { 0 < extent }
    ensures { result ≡ extents_on layout sectors extent }
{
    let whole = sectors.saturating_sub(area_of(layout)) / u64::from(extent);
    whole.min(most_of(layout)) as u32
}

/// The extents in which the records have room.
#[tactic(auto, unfolding(vg_layout::specs::Places::record_extents))]
fn least_for(extent: u32) -> u32
    requires { 0 < extent }
    ensures { result ≡ record_extents extent }
{
    512_u32.div_ceil(extent)
}

/// Whether so many extents are on a device of so many sectors in a layout, and the records have room in them.
fn are_on(layout: u32, sectors: u64, extent: u32, count: u32) -> bool
    requires { 0 < extent }
    ensures { result ≡ (nat_le count (extents_on layout sectors extent) && nat_le (record_extents extent) count) }
{
    let most = most_on(layout, sectors, extent);
    let least = least_for(extent);
    count <= most && least <= count
}

/// Whether the sum of the first 508 bytes stands behind them.
fn is_sealed(sector: &[u8; 512]) -> bool
    ensures { result ≡ (sum (take 508 (drop 0 sector.now)) == number_at 508 sector.now) }
{
    sum_between(sector, 0, 508) == number(sector, 508)
}

/// A sector has 512 bytes. The call does nothing.
fn law_sector(bytes: &[u8])
    requires { length bytes.now ≡ 512 }
    ensures { IsSector bytes.now }
{
    let _count = bytes.len();
}

/// Whether a sector has zeros from an offset on, and its sum behind them.
fn is_filled(sector: &[u8; 512], from: usize) -> bool
    requires { from ≤ 508 }
    ensures { result ≡ (list_all (λ b. b == 0) (take (508 - from) (drop from sector.now)) && (sum (take 508 (drop 0 sector.now)) == number_at 508 sector.now)) }
{
    are_zeros(sector, from, 508) && is_sealed(sector)
}

/// Whether a label is spelled right behind its letters.
fn is_label_spelled(label: &[u8; 512]) -> bool
    requires { take 8 label.now ≡ label_cookie }
    ensures { result ≡ bytes_eq label.now (label_sector (number_at 8 label.now) (plate_in label.now)) }
{
    law_sector(label);
    is_filled(label, 48)
}

/// Whether each field of a label is right behind its letters. Version 1 has layout 0, and version 2 has 0 or 1.
#[tactic(auto, unfolding(vg_layout::specs::Opening::is_label_right, vg_layout::specs::Sectors::plate_in))]
fn is_label_right(sectors: u64, label: &[u8; 512]) -> bool
    requires { take 8 label.now ≡ label_cookie }
    ensures { result ≡ is_label_right_of sectors label.now }
{
    let layout = number(label, 44);
    let extent = number(label, 28);
    if !is_label_spelled(label) || number(label, 8) <= layout {
        return false;
    }
    if !is_geometry(extent, number(label, 32), number(label, 36)) {
        return false;
    }
    are_on(layout, sectors, extent, number(label, 40))
}

/// Whether a sector begins with these letters.
fn begins_with(sector: &[u8; 512], letters: &[u8]) -> bool
    ensures { result ≡ bytes_eq (take 8 sector.now) letters.now }
{
    &sector[..8] == letters
}

/// Why the label of a device of so many sectors is refused.
#[tactic(auto, unfolding(vg_layout::specs::Opening::plate_of))]
pub fn label_fault(sectors: u64, label: &[u8; 512]) -> Option<OpenFault>
    ensures none { IfNone result (plate_of sectors (λ p. label.now) ≡ Ok (plate_in label.now)) }
    ensures some { IfSome result (λ e. plate_of sectors (λ p. label.now) ≡ Err e) }
{
    if sectors < 2 || !begins_with(label, b"LVHDREPO") {
        return Some(OpenFault::NotARepository);
    }
    let version = number(label, 8);
    if version < 1 || 2 < version {
        return Some(OpenFault::Unsupported { version });
    }
    if is_label_right(sectors, label) {
        return None;
    }
    Some(OpenFault::Damaged {
        place: Place::Label,
    })
}

/// Whether a header is spelled right.
fn is_header_spelled(header: &[u8; 512]) -> bool
    ensures { result ≡ bytes_eq header.now (header_sector (pointer_in header.now)) }
{
    law_sector(header);
    begins_with(header, b"LVHDTABL") && is_filled(header, 20)
}

/// Whether each field of a table header is right in a frame.
#[tactic(auto, unfolding(vg_layout::specs::Opening::is_header_right, vg_layout::specs::Sectors::pointer_in))]
pub fn is_header_right(frame: &Frame, header: &[u8; 512]) -> bool
    ensures exact { result ≡ is_header_right_of (places frame.now) header.now }
    ensures slot { IsTrue result → number_at 8 header.now ≤ 1 }
    ensures few { IsTrue result → number_at 12 header.now ≤ slot_bytes (places frame.now) }
{
    let most = 512 * u64::from(frame.room);
    is_header_spelled(header) && number(header, 8) <= 1 && u64::from(number(header, 12)) <= most
}
