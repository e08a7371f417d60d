//! Entries of the block allocation table, as numbers and as bytes.
ghost use Rattle.std.specs.Prelude.{◌≡◌, ◌≢◌, ℕ, ◌+◌, ◌*◌, ◌<◌, length, Some, MatchOption};
ghost use Rattle.sm_base.specs.Numbers.{first};
ghost use Rattle.vhd_map.specs.Places.{blank, code, word};

use sm_base::Geometry;

/// The entry of a block that has no slot.
pub(crate) const BLANK: u32 = u32::MAX;

/// The entries of one sector of the table.
pub(crate) const PER_SECTOR: u32 = 128;

/// The sector at which slot 0 begins.
fn first_sector(geometry: &Geometry) -> u32
    ensures { result ≡ first geometry.now.entries }
{
    geometry.first() as u32
}

/// The entry that names this slot.
pub(crate) fn entry_of(geometry: &Geometry, slot: u32) -> u32
    requires { slot < geometry.now.entries }
    ensures named { result ≡ code (first geometry.now.entries) geometry.now.block (Some slot) }
    ensures slot { result ≢ blank }
{
    first_sector(geometry) + slot * (1 + geometry.block)
}

/// The slot that this entry names, whether or not the volume has it.
pub(crate) fn slot_named(geometry: &Geometry, entry: u32) -> Option<u32>
    ensures { MatchOption result
        ((slot : ℕ) → entry ≢ code (first geometry.now.entries) geometry.now.block (Some slot))
        (λ slot. entry ≡ code (first geometry.now.entries) geometry.now.block (Some slot)) }
{
    let past_first = entry.checked_sub(first_sector(geometry))?;
    let stride = 1 + geometry.block;
    if past_first % stride == 0 {
        Some(past_first / stride)
    } else {
        None
    }
}

/// Entry j of a sector of the table.
pub(crate) fn entry_at(sector: &[u8; 512], j: u32) -> u32
    requires { j < 128 }
    ensures { result ≡ word sector.now j }
{
    let at = 4 * j as usize;
    u32::from_be_bytes([sector[at], sector[at + 1], sector[at + 2], sector[at + 3]])
}

/// Writes entry j of a sector of the table.
pub(crate) fn put_entry(sector: &mut [u8; 512], j: u32, entry: u32)
    requires { j < 128 }
    ensures put { word sector.new j ≡ entry }
    ensures others { (k : ℕ) → k ≢ j → word sector.new k ≡ word sector.old k }
{
    let at = 4 * j as usize;
    let [highest, high, low, lowest] = entry.to_be_bytes();
    sector[at] = highest;
    sector[at + 1] = high;
    sector[at + 2] = low;
    sector[at + 3] = lowest;
}
