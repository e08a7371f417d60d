//! A plain slow program that reads a VHD image by its definition: the bytes of a volume in, what the image holds out. It
//! shares no code with the layers that it is compared with, but for the fields of a footer.

ghost use Rattle.std.specs.Prelude.{◌≡◌, ◌+◌, ◌*◌, ◌/◌, ◌%◌, ◌<◌, ◌≤◌, length, take, drop, slice_index, ◌^◌};
ghost use Rattle.std.specs.Option.{option_copied};
ghost use Rattle.std.specs.Result.{result_ok};
ghost use Rattle.sm_disk.specs.Sectors.{sector};
ghost use Rattle.vhd_fields.specs.Footers.{footer_read};
ghost use Rattle.vhd_map.specs.Bitmaps.{is_set};
ghost use Rattle.vhd_map.specs.Places.{blank, word};
ghost use Rattle.vhd_layout.specs.Contents.{own, size_at, value};
ghost use Rattle.vhd_layout.specs.Layouts.{entry};

use vhd_fields::Footer;

/// The entry of a block that has no slot.
const BLANK: u32 = u32::MAX;

/// The bytes from this one on, none past their end.
fn rest_of(bytes: &[u8], from: usize) -> &[u8]
    ensures { result.now ≡ drop from bytes.now }
{
    let (_, rest) = bytes.split_at(from.min(bytes.len()));
    rest
}

/// The sector at a place of a volume, empty past the volume's end.
#[tactic(auto, unfolding(sm_disk::specs::Sectors::sector))]
fn sector_at(bytes: &[u8], place: u64) -> &[u8]
    requires { place < 2 ^ 34 }
    ensures { result.now ≡ sector bytes.now place }
{
    let rest = rest_of(bytes, 512 * place as usize);
    if rest.len() <= 512 {
        return rest;
    }
    let (front, _) = rest.split_at(512);
    front
}

/// The byte at an offset, 0 past the end.
fn byte_at(bytes: &[u8], at: usize) -> u8
    ensures { result ≡ slice_index bytes.now at }
{
    bytes.get(at).copied().unwrap_or(0)
}

/// The number in the four bytes of entry j of a sector of the table.
#[tactic(auto, unfolding(vhd_map::specs::Places::word))]
fn entry_in(sector: &[u8], j: u32) -> u32
    requires { j < 128 }
    ensures { result ≡ word sector.now j }
{
    let at = 4 * j as usize;
    u32::from_be_bytes([
        byte_at(sector, at),
        byte_at(sector, at + 1),
        byte_at(sector, at + 2),
        byte_at(sector, at + 3),
    ])
}

/// Whether the bit of sector i of a block is set in a bitmap.
#[tactic(auto, unfolding(vhd_map::specs::Bitmaps::is_set))]
fn bit_in(bitmap: &[u8], i: u32) -> bool
    requires { i < 4096 }
    ensures { result ≡ is_set bitmap.now i }
{
    byte_at(bitmap, (i / 8) as usize) >> (7 - i % 8) & 1 == 1
}

/// Sector i of block b, where the image holds it.
#[tactic(auto, unfolding(vhd_layout::specs::Contents::value))]
fn value_of(bytes: &[u8], b: u32, i: u32) -> Option<&[u8]>
    requires { i < 4096 }
    ensures { option_copied result ≡ value (sector bytes.now) b i }
{
    let table = sector_at(bytes, 3 + u64::from(b / 128));
    let entry = entry_in(table, b % 128);
    if entry == BLANK || !bit_in(sector_at(bytes, u64::from(entry)), i) {
        return None;
    }
    Some(sector_at(bytes, u64::from(entry) + (1 + u64::from(i))))
}

/// The footer at a place of a volume, where it reads.
fn footer_in(bytes: &[u8], place: u64) -> Option<Footer>
    requires within { 512 * place + 512 ≤ length bytes.now }
    requires few { place < 2 ^ 34 }
    ensures { result ≡ result_ok (footer_read (sector bytes.now place)) }
{
    let mut footer = [0; 512];
    footer.copy_from_slice(sector_at(bytes, place));
    Footer::read(&footer).ok()
}

/// The size of the disk whose image fills a volume, in sectors: by the last sector's footer, else by the first's, and 0
/// where neither reads.
#[tactic(auto, unfolding(vhd_layout::specs::Contents::size_at, vhd_layout::specs::Images::footer_at))]
pub fn size_of(bytes: &[u8]) -> u64
    requires some { 512 ≤ length bytes.now }
    requires few { length bytes.now ≤ 2 ^ 40 }
    ensures { result ≡ size_at (length bytes.now / 512) (sector bytes.now) }
{
    let last = bytes.len() as u64 / 512 - 1;
    let footer = footer_in(bytes, last).or(footer_in(bytes, 0));
    footer.map_or(0, |footer| footer.current / 512)
}

/// The sector of the disk whose image fills a volume, where the image holds it.
#[tactic(auto, unfolding(vhd_layout::specs::Contents::own))]
pub fn own_sector(bytes: &[u8], block: u32, at: u64) -> Option<&[u8]>
    requires some { 512 ≤ length bytes.now }
    requires few { length bytes.now ≤ 2 ^ 40 }
    requires block_least { 8 ≤ block }
    requires block_most { block ≤ 4096 }
    requires at { at < 2 ^ 32 }
    ensures { option_copied result ≡ own block (size_at (length bytes.now / 512) (sector bytes.now)) (sector bytes.now) at }
{
    if at >= size_of(bytes) {
        return None;
    }
    let [b, i] = [at / u64::from(block), at % u64::from(block)];
    value_of(bytes, b as u32, i as u32)
}
