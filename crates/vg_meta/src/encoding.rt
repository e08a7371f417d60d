//! Writing the text of a table.

ghost use Rattle.std.specs.Prelude.{◌≡◌, ◌≤◌, ◌<◌, ◌+◌, ◌-◌, ◌*◌, ◌^◌, ◌++◌, min, length};
ghost use Rattle.std.specs.List.{flat_map, AllByRecursion};
ghost use Rattle.byteorder.specs.Endian.{big_bytes};
ghost use Rattle.vg_meta.specs.Roomy.{rows_alone};
ghost use Rattle.vg_meta.specs.Segments.{segments};
ghost use Rattle.vg_meta.specs.Text.{flags_of, listed_extents, extents_by, numbers_of, volume_by, volume_text};
ghost use Rattle.vg_meta.specs.Writing.{WritesText};
ghost use Rattle.vg_meta.specs.declared.grammars.Grammar.TheVariants.{Segmented};

use crate::entries::Entry;
use crate::grammars::Grammar;
use crate::segments::{Segment, count_segments, split_segment};
use crate::volumes::Volume;
use byteorder::{BigEndian, ByteOrder};

fn put_bytes(to: &mut [u8], at: usize, bytes: &[u8]) -> usize
    requires { at + length bytes.now ≤ length to.old }
    ensures { WritesText at bytes.now to.old to.new result }
{
    let end = at + bytes.len();
    to[at..end].copy_from_slice(bytes);
    end
}

/// Writes a number of 4 bytes at a place, and answers the place behind it.
pub fn put_number(to: &mut [u8], at: usize, number: u32) -> usize
    requires { at + 4 ≤ length to.old }
    ensures { WritesText at (big_bytes 4 number) to.old to.new result }
{
    let mut bytes = [0; 4];
    BigEndian::write_u32(&mut bytes, number);
    put_bytes(to, at, &bytes)
}

/// Writes a sequence number at a place, and answers the place behind it.
pub fn put_sequence(to: &mut [u8], at: usize, sequence: u64) -> usize
    requires { at + 8 ≤ length to.old }
    ensures { WritesText at (big_bytes 8 sequence) to.old to.new result }
{
    let mut bytes = [0; 8];
    BigEndian::write_u64(&mut bytes, sequence);
    put_bytes(to, at, &bytes)
}

fn flags(hidden: bool, fresh: bool) -> u8
    ensures { result ≡ flags_of hidden fresh }
{
    match (hidden, fresh) {
        (false, false) => 0,
        (true, false) => 1,
        (false, true) => 2,
        (true, true) => 3,
    }
}

// Writes numbers of 4 bytes each at a place, and answers the place behind them.
fn put_numbers(to: &mut [u8], at: usize, numbers: &[u32]) -> usize
    requires { at + length (flat_map (big_bytes 4) numbers.now) ≤ length to.old }
    ensures { WritesText at (flat_map (big_bytes 4) numbers.now) to.old to.new result }
{
    let mut end = at;
    for number in numbers {
        end = put_number(to, end, *number);
    }
    end
}

// Writes extents, which stand in two slices, at a place, listed, and answers the place behind them.
fn put_listed(to: &mut [u8], at: usize, extents: &[u32], more: &[u32]) -> usize
    requires few { length (extents.now ++ more.now) < 2 ^ 32 }
    requires room { at + length (listed_extents (extents.now ++ more.now)) ≤ length to.old }
    ensures { WritesText at (listed_extents (extents.now ++ more.now)) to.old to.new result }
{
    let count = extents.len() + more.len();
    let extents_at = put_number(to, at, count as u32);
    let more_at = put_numbers(to, extents_at, extents);
    put_numbers(to, more_at, more)
}

// Writes a segment at a place, and answers the place behind it.
fn put_segment(to: &mut [u8], at: usize, segment: Segment) -> usize
    requires { at + 8 ≤ length to.old }
    ensures { WritesText at (big_bytes 4 segment.first ++ big_bytes 4 segment.count) to.old to.new result }
{
    let count_at = put_number(to, at, segment.first);
    put_number(to, count_at, segment.count)
}

// Writes the segments of extents, which stand in two slices, at a place, and answers the place behind them.
fn put_segments(to: &mut [u8], at: usize, extents: &[u32], more: &[u32]) -> usize
    requires few { length (extents.now ++ more.now) < 2 ^ 32 }
    requires room { at + 8 * length (segments (extents.now ++ more.now)) ≤ length to.old }
    ensures { WritesText at (flat_map (big_bytes 4) (numbers_of (segments (extents.now ++ more.now)))) to.old to.new result }
{
    let mut end = at;
    let mut rest = (extents, more);
    while let Some((segment, extents, more)) = split_segment(rest.0, rest.1) {
        end = put_segment(to, end, segment);
        rest = (extents, more);
    }
    end
}

// Writes extents, which stand in two slices, at a place by segments, and answers the place behind them.
fn put_segmented(to: &mut [u8], at: usize, extents: &[u32], more: &[u32]) -> usize
    requires few { length (extents.now ++ more.now) < 2 ^ 32 }
    requires room { at + length (extents_by Segmented (extents.now ++ more.now)) ≤ length to.old }
    ensures { WritesText at (extents_by Segmented (extents.now ++ more.now)) to.old to.new result }
{
    let segments_at = put_number(to, at, count_segments(extents, more) as u32);
    put_segments(to, segments_at, extents, more)
}

// Writes extents, which stand in two slices, at a place by a grammar, and answers the place behind them.
fn put_extents(to: &mut [u8], at: usize, grammar: Grammar, extents: &[u32], more: &[u32]) -> usize
    requires few { length (extents.now ++ more.now) < 2 ^ 32 }
    requires room { at + length (extents_by grammar (extents.now ++ more.now)) ≤ length to.old }
    ensures { WritesText at (extents_by grammar (extents.now ++ more.now)) to.old to.new result }
{
    match grammar {
        Grammar::Listed => put_listed(to, at, extents, more),
        Grammar::Segmented => put_segmented(to, at, extents, more),
    }
}

/// Writes a volume at a place by a grammar, and answers the place behind it.
pub fn put_entry(to: &mut [u8], at: usize, grammar: Grammar, entry: &Entry) -> usize
    requires few { length entry.now.extents < 2 ^ 32 }
    requires room { at + length (volume_by grammar entry.now) ≤ length to.old }
    ensures { WritesText at (volume_by grammar entry.now) to.old to.new result }
{
    let mut name = [0; 128];
    let size = entry.name().spell(&mut name);
    let name_at = put_bytes(to, at, &[size as u8]);
    let flags_at = put_bytes(to, name_at, &name[..size]);
    let marks = flags(entry.is_hidden(), entry.is_fresh());
    let extents_at = put_bytes(to, flags_at, &[marks]);
    let (extents, more) = entry.extents();
    put_extents(to, extents_at, grammar, extents, more)
}

// Writes a volume that is there at a place, and answers the place behind it.
fn put_volume(to: &mut [u8], at: usize, grammar: Grammar, volume: &Volume) -> usize
    requires few { length volume.now.row.extents < 2 ^ 32 }
    requires room { at + length (volume_by grammar volume.now.row) ≤ length to.old }
    ensures { WritesText at (volume_by grammar volume.now.row) to.old to.new result }
{
    put_entry(to, at, grammar, &Entry::of(volume))
}

/// Writes volumes at a place by a grammar, and answers the place behind them.
pub fn put_volumes(to: &mut [u8], at: usize, grammar: Grammar, volumes: &[Volume]) -> usize
    requires few { AllByRecursion (λ v. length v.row.extents < 2 ^ 32) volumes.now }
    requires room { at + length (flat_map (volume_by grammar) (rows_alone volumes.now)) ≤ length to.old }
    ensures { WritesText at (flat_map (volume_by grammar) (rows_alone volumes.now)) to.old to.new result }
{
    let mut end = at;
    for volume in volumes {
        end = put_volume(to, end, grammar, volume);
    }
    end
}

/// The length of the volumes' texts in bytes, or the greatest `usize` where it passes that.
pub fn volumes_length(volumes: &[Volume]) -> usize
    ensures { result ≡ min (length (flat_map volume_text (rows_alone volumes.now))) (2 ^ 64 - 1) }
{
    let mut total: usize = 0;
    for volume in volumes {
        total = total.saturating_add(Entry::of(volume).text_length());
    }
    total
}
