//! Some sectors of a block, told by a bitmap: the marks.

ghost use Rattle.std.specs.Prelude.{◌≡◌, ◌⊎◌, ℕ, ◌+◌, ◌*◌, ◌/◌, ◌^◌, ◌<◌, ◌≤◌, not, length, true, OnOk, IfOk};
ghost use Rattle.std.specs.Bool.{OnTrue};
ghost use Rattle.sm_disk.specs.Held.{IsWhole, Reaches};
ghost use Rattle.vhd_map.specs.Bitmaps.{is_set};
ghost use Rattle.vg_volumes.specs.Stored.{stored, sectors_in, WorksOn, Counts};
ghost use Rattle.vhd_volumes.specs.Steps.{Does, Gives};
ghost use Rattle.vhd_write.specs.Marks.{HasMarked, PutsMarked};

use crate::calls::put;
use crate::payloads::part;
use sm_base::{Failed, Name};
use vg_volumes::Store;
use vhd_map::{bit, set_bit};

/// The bytes of a sector.
const SECTOR: usize = 512;

/// Whether the bit of each marked sector is set, of so many.
pub(crate) fn has_marks(bitmap: &[u8; 512], marks: &[u8; 512], count: u32) -> bool
    requires { count ≤ 4096 }
    ensures { OnTrue result ((i : ℕ) → i < count → is_set marks.now i ≡ true → is_set bitmap.now i ≡ true) }
{
    for i in 0..count {
        if bit(marks, i) && !bit(bitmap, i) {
            return false;
        }
    }
    true
}

/// Sets the bit of each marked sector, of so many.
pub(crate) fn add_marks(bitmap: &mut [u8; 512], marks: &[u8; 512], count: u32)
    requires { count ≤ 4096 }
    ensures set { (i : ℕ) → i < count → is_set marks.now i ≡ true → is_set bitmap.new i ≡ true }
    ensures others { (i : ℕ) → (is_set bitmap.new i ≡ is_set bitmap.old i)
        ⊎ ((is_set bitmap.new i ≡ true) × (i < count) × (is_set marks.now i ≡ true)) }
{
    for i in 0..count {
        if bit(marks, i) {
            set_bit(bitmap, i);
        }
    }
}

/// How many sectors from one on are marked alike, of at most so many.
pub fn alike(marks: &[u8; 512], part: u32, most: u32) -> u32
    requires some { 0 < most }
    requires within { part + most ≤ 4096 }
    ensures some { 1 ≤ result }
    ensures within { result ≤ most }
    ensures alike { (i : ℕ) → i < result → is_set marks.now (part + i) ≡ is_set marks.now part }
    ensures longest { result < most → is_set marks.now (part + result) ≡ not (is_set marks.now part) }
{
    let first = bit(marks, part);
    for count in 1..most {
        if bit(marks, part + count) != first {
            return count;
        }
    }
    most
}

/// Writes the sectors from one of the block on that are marked alike, where they are marked, and answers how many they are.
fn put_run<S: Store>(
    store: &mut S,
    volume: &Name,
    at: u64,
    marks: &[u8; 512],
    bytes: &[u8],
    begin: u32,
) -> Result<u32, Failed>
    requires whole { IsWhole at (length bytes.now) (sectors_in (stored S.Store store.old) volume.now) }
    requires low { at + length bytes.now / 512 < 2 ^ 64 }
    requires short { length bytes.now ≤ 512 * 4096 }
    requires inside { 512 * begin < length bytes.now }
    ensures works { WorksOn S.Store volume.now store.old store.new }
    ensures cause { Counts S.Store result store.old store.new }
    ensures inside { IfOk result (λ count. (0 < count) × (512 * (begin + count) ≤ length bytes.now)) }
    ensures reaches { Does S.Store volume.now
        (Reaches (PutsMarked (length bytes.now / 512) at marks.now bytes.now)) store.old store.new }
    ensures done { IfOk result (λ count. Gives S.Store volume.now
        (HasMarked at marks.now bytes.now begin (begin + count)) store.new) }
{
    let wide = (bytes.len() / SECTOR) as u32;
    let count = alike(marks, begin, wide - begin);
    if bit(marks, begin) {
        let run = part(bytes, begin as u64, count as u64);
        put(store, volume, at + begin as u64, run)?;
    }
    Ok(count)
}

/// Writes the marked ones of so many sectors to the volume, each to its place behind that of the first of all: those that follow one
/// another by one call of the store. At most 4,096 sectors are given.
///
/// # Errors
///
/// The store failed; any of the marked sectors may be written.
pub fn put_marked<S: Store>(
    store: &mut S,
    volume: &Name,
    at: u64,
    marks: &[u8; 512],
    bytes: &[u8],
) -> Result<(), Failed>
    requires whole { IsWhole at (length bytes.now) (sectors_in (stored S.Store store.old) volume.now) }
    requires low { at + length bytes.now / 512 < 2 ^ 64 }
    requires short { length bytes.now ≤ 512 * 4096 }
    ensures works { WorksOn S.Store volume.now store.old store.new }
    ensures cause { Counts S.Store result store.old store.new }
    ensures reaches { Does S.Store volume.now
        (Reaches (PutsMarked (length bytes.now / 512) at marks.now bytes.now)) store.old store.new }
    ensures done { OnOk result (Gives S.Store volume.now
        (HasMarked at marks.now bytes.now 0 (length bytes.now / 512)) store.new) }
{
    let wide = (bytes.len() / SECTOR) as u32;
    let mut done = 0;
    while done < wide {
        done += put_run(store, volume, at, marks, bytes, done)?;
    }
    Ok(())
}
