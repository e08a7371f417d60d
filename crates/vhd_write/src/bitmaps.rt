//! Bits of a part of a block.

ghost use Rattle.std.specs.Prelude.{◌≡◌, ◌≢◌, ◌⊎◌, ℕ, ◌+◌, ◌<◌, ◌≤◌, true, false};
ghost use Rattle.std.specs.Bool.{OnTrue, OnFalse};
ghost use Rattle.vhd_map.specs.Bitmaps.{is_set};
ghost use Rattle.vhd_write.specs.Passes.{IsUnsetBeside};

use crate::spans::Part;
use vhd_map::{bit, set_bit};

/// Whether the bits of the part's sectors are all set.
pub(crate) fn has_bits(bitmap: &[u8; 512], part: &Part) -> bool
    requires { part.now.first + part.now.count ≤ 4096 }
    ensures all { OnTrue result ((i : ℕ) → part.now.first ≤ i → i < part.now.first + part.now.count →
        is_set bitmap.now i ≡ true) }
    ensures unset { OnFalse result ((i : ℕ) × (part.now.first ≤ i) ×
        (i < part.now.first + part.now.count) × (is_set bitmap.now i ≡ false)) }
{
    for i in part.first..part.first + part.count {
        if !bit(bitmap, i) {
            return false;
        }
    }
    true
}

/// Sets the bits of so many sectors of a block, from one of them on.
pub fn mark(bitmap: &mut [u8; 512], first: u32, count: u32)
    requires { first + count ≤ 4096 }
    ensures set { (i : ℕ) → first ≤ i → i < first + count → is_set bitmap.new i ≡ true }
    ensures others { (i : ℕ) → (i < first) ⊎ (first + count ≤ i) → is_set bitmap.new i ≡ is_set bitmap.old i }
{
    for i in first..first + count {
        set_bit(bitmap, i);
    }
}

/// Sets the bits of the part's sectors.
pub(crate) fn set_bits(bitmap: &mut [u8; 512], part: &Part)
    requires { part.now.first + part.now.count ≤ 4096 }
    ensures set { (i : ℕ) → part.now.first ≤ i → i < part.now.first + part.now.count → is_set bitmap.new
        i ≡ true }
    ensures others { (i : ℕ) → (i < part.now.first) ⊎ (part.now.first + part.now.count ≤ i) → is_set
        bitmap.new i ≡ is_set bitmap.old i }
{
    mark(bitmap, part.first, part.count);
}

/// A bitmap of the part's bits alone.
pub(crate) fn bitmap_of(part: &Part) -> [u8; 512]
    requires { part.now.first + part.now.count ≤ 4096 }
    ensures set { (i : ℕ) → part.now.first ≤ i → i < part.now.first + part.now.count → is_set result i ≡
        true }
    ensures others { IsUnsetBeside part.now.first part.now.count result }
{
    let mut bitmap = [0; 512];
    set_bits(&mut bitmap, part);
    bitmap
}
