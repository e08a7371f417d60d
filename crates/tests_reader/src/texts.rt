//! A table's text: where it is damaged first.

ghost use Rattle.std.specs.Prelude.{◌≡◌, ◌≢◌, ◌<◌, ◌≤◌, ◌+◌, ◌^◌, ◌++◌, ◌∷◌, [], ℕ, List, length, option_map, IsTrue, IfSome, IfNone, IfOk};
ghost use Rattle.sm_base.specs.Names.{spelling};
ghost use Rattle.tests_reader.specs.Answers.{IsDamage};
ghost use Rattle.tests_reader.specs.SoFar.{IsSoFar, row, rises as rises_of, seen};
ghost use Rattle.vg_meta.specs.Tables.{Row, AreVolumes};
ghost use Rattle.vg_meta.specs.Taken.{are_new as are_new_of};
ghost use Rattle.vg_meta.specs.Text.{volume_by};

use crate::volumes::{Volume, long_number_at, number_at, volume_at};
use std::alloc::{AllocError, Global};
use std::cmp::Ordering;
use vg_meta::Grammar;

/// The sequence numbers are below this.
const SEQUENCES: u64 = 281_474_976_710_656;

/// Whether the spelling of a name rises behind the one before.
fn rises(before: Option<&[u8]>, spelled: &[u8]) -> bool
    ensures { result ≡ rises_of (seen before.entry) spelled.now }
{
    match before {
        Some(before) => before.cmp(spelled) == Ordering::Less,
        None => true,
    }
}

/// Whether each extent is below the count and was not met before. All are met then.
fn are_new(met: &mut Vec<u32>, extents: &[u32], count: u32) -> Result<bool, AllocError>
    ensures new { IfOk result (λ new. new ≡ are_new_of count met.old.items extents.now) }
    ensures met { IfOk result (λ new. IsTrue new → met.new.items ≡ met.old.items ++ extents.now) }
{
    for extent in extents {
        if *extent >= count || met.contains(extent) {
            return Ok(false);
        }
        met.push(*extent)?;
    }
    Ok(true)
}

/// The volume that goes on with those in front, the spelling of its name, and the bytes behind it; `None` where none
/// stands there.
fn next_volume<'a>(
    alloc: Global,
    grammar: Grammar,
    before: Option<&'a [u8]>,
    met: &mut Vec<u32>,
    count: u32,
    bytes: &'a [u8],
) -> Result<Option<(Volume, &'a [u8], &'a [u8])>, AllocError>
    ensures text { IfOk result (λ found. IfSome found (λ x. bytes.now ≡ volume_by grammar (row x.0) ++ x.2.now)) }
    ensures next { IfOk result (λ found. IfSome found (λ x. (rs : List Row) → IsSoFar count rs (seen before.entry) met.old.items → IsSoFar count (rs ++ row x.0 ∷ []) (Some x.1.now) met.new.items)) }
    ensures none { IfOk result (λ found. IfNone found ((rs : List Row) → IsSoFar count rs (seen before.entry) met.old.items
        → (r : Row) (rest : List ℕ) → length r.extents < 2 ^ 32 → AreVolumes count (rs ++ r ∷ []) → bytes.now ≢ volume_by grammar r ++ rest)) }
{
    let Some((volume, spelled, rest)) = volume_at(alloc, grammar, bytes, count)? else {
        return Ok(None);
    };
    if rises(before, spelled) && are_new(met, &volume.extents, count)? {
        Ok(Some((volume, spelled, rest)))
    } else {
        Ok(None)
    }
}

/// The place at which a text is damaged first by a grammar, where extents are counted up to `count`, or `None` where it spells
/// a table.
pub fn text_damage(
    alloc: Global,
    grammar: Grammar,
    text: &[u8],
    count: u32,
) -> Result<Option<usize>, AllocError>
    ensures damage { IfOk result (IsDamage grammar count text.now) }
    ensures within { IfOk result (λ found. IfSome found (λ at. at ≤ 8 + length text.now)) }
{
    let Some((sequence, behind)) = long_number_at(text) else {
        return Ok(Some(0));
    };
    if sequence >= SEQUENCES {
        return Ok(Some(0));
    }
    let Some((volumes, mut rest)) = number_at(behind) else {
        return Ok(Some(8));
    };
    let mut before = None;
    let mut met = Vec::new(alloc);
    for _ in 0..volumes {
        let Some((_volume, spelled, after)) = next_volume(
            alloc, grammar, before, &mut met, count, rest,
        )?
        else {
            return Ok(Some(text.len() - rest.len()));
        };
        before = Some(spelled);
        rest = after;
    }
    if rest.is_empty() {
        return Ok(None);
    }
    Ok(Some(text.len() - rest.len()))
}
