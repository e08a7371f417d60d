//! Reading the text of a table from left to right. Each reader answers what it read and the bytes behind it.

ghost use Rattle.std.specs.Prelude.{◌≡◌, ◌≢◌, ◌<◌, ◌≤◌, ◌^◌, ◌++◌, ◌∷◌, ℕ, Bool, List, length, IfSome, IfNone, IfOk, IfErr};
ghost use Rattle.std.specs.List.{AllByRecursion};
ghost use Rattle.byteorder.specs.Endian.{big_bytes};
ghost use Rattle.sm_base.specs.declared.names.Name.{Name};
ghost use Rattle.sm_base.specs.Names.{IsName, spelling};
ghost use Rattle.vg_meta.specs.Segments.{AreFew};
ghost use Rattle.vg_meta.specs.Tables.{Row, IsVolume};
ghost use Rattle.vg_meta.specs.declared.grammars.Grammar.TheVariants.{Segmented};
ghost use Rattle.vg_meta.specs.Text.{flags_of, listed_extents, extents_by, volume_by};
ghost use Rattle.vg_meta.specs.Unread.{IsUnread};

use crate::allowed::suits_kind;
use crate::grammars::Grammar;
use crate::segments::{Segment, goes_on, push_all};
use crate::volumes::Volume;
use byteorder::{BigEndian, ByteOrder};
use sm_base::Name;
use std::alloc::Global;

/// A number of 4 bytes; `None` exactly where they are not there.
pub fn number_at(bytes: &[u8]) -> Option<(u32, &[u8])>
    ensures number { IfSome result (λ x. bytes.now ≡ big_bytes 4 x.0 ++ x.1.now) }
    ensures fits { IfSome result (λ x. x.0 < 2 ^ 32) }
    ensures none { IfNone result (length bytes.now < 4) }
{
    if bytes.len() < 4 {
        return None;
    }
    let (front, rest) = bytes.split_at(4);
    Some((BigEndian::read_u32(front), rest))
}

/// A number of 8 bytes; `None` exactly where they are not there.
pub fn long_number_at(bytes: &[u8]) -> Option<(u64, &[u8])>
    ensures number { IfSome result (λ x. bytes.now ≡ big_bytes 8 x.0 ++ x.1.now) }
    ensures fits { IfSome result (λ x. x.0 < 2 ^ 64) }
    ensures none { IfNone result (length bytes.now < 8) }
{
    if bytes.len() < 8 {
        return None;
    }
    let (front, rest) = bytes.split_at(8);
    Some((BigEndian::read_u64(front), rest))
}

// A name behind its length; `None` exactly where no name stands so.
fn name_at(bytes: &[u8]) -> Option<(Name, &[u8])>
    ensures proper { IfSome result (λ x. IsName x.0) }
    ensures name { IfSome result (λ x. bytes.now ≡ length (spelling x.0) ∷ spelling x.0 ++ x.1.now) }
    ensures none { IfNone result ((n : Name) (rest : List ℕ) → IsName n → bytes.now ≢ length (spelling n) ∷ spelling n ++ rest) }
{
    let [size, rest @ ..] = bytes else {
        return None;
    };
    let size = *size as usize;
    if rest.len() < size {
        return None;
    }
    let (spelled, rest) = rest.split_at(size);
    let name = Name::read(spelled)?;
    Some((name, rest))
}

// The two marks; `None` exactly where no flags stand so.
fn marks_at(bytes: &[u8]) -> Option<(bool, bool, &[u8])>
    ensures marks { IfSome result (λ x. bytes.now ≡ flags_of x.0 x.1 ∷ x.2.now) }
    ensures none { IfNone result ((hidden fresh : Bool) (rest : List ℕ) → bytes.now ≢ flags_of hidden fresh ∷ rest) }
{
    match bytes {
        [0, rest @ ..] => Some((false, false, rest)),
        [1, rest @ ..] => Some((true, false, rest)),
        [2, rest @ ..] => Some((false, true, rest)),
        [3, rest @ ..] => Some((true, true, rest)),
        _ => None,
    }
}

/// Why a part was not read.
#[derive(Clone, Copy, PartialEq, Eq)]
pub enum Unread {
    /// It does not stand there.
    Damaged,
    /// Memory ran out.
    NoMemory,
}

// Extents behind their number; damaged exactly where no extents stand so.
fn listed_at(alloc: Global, bytes: &[u8]) -> Result<(Vec<u32>, &[u8]), Unread>
    ensures few { IfOk result (λ x. length x.0.items < 2 ^ 32) }
    ensures fit { IfOk result (λ x. AllByRecursion (λ e. e < 2 ^ 32) x.0.items) }
    ensures extents { IfOk result (λ x. bytes.now ≡ listed_extents x.0.items ++ x.1.now) }
    ensures damaged { IfErr result (λ e. IsUnread e ((es rest : List ℕ) → length es < 2 ^ 32 → bytes.now ≢ listed_extents es ++ rest)) }
{
    let Some((count, mut rest)) = number_at(bytes) else {
        return Err(Unread::Damaged);
    };
    let mut extents = Vec::new(alloc);
    for _ in 0..count {
        let Some((extent, after)) = number_at(rest) else {
            return Err(Unread::Damaged);
        };
        if extents.push(extent).is_err() {
            return Err(Unread::NoMemory);
        }
        rest = after;
    }
    Ok((extents, rest))
}

// A segment: its first extent and how many it has; `None` exactly where the two numbers are not there.
fn segment_at(bytes: &[u8]) -> Option<(Segment, &[u8])>
    ensures segment { IfSome result (λ x. bytes.now ≡ big_bytes 4 x.0.first ++ (big_bytes 4 x.0.count ++ x.1.now)) }
    ensures fits { IfSome result (λ x. (x.0.first < 2 ^ 32) × (x.0.count < 2 ^ 32)) }
    ensures none { IfNone result (length bytes.now < 8) }
{
    if bytes.len() < 8 {
        return None;
    }
    let (first, behind) = number_at(bytes)?;
    let (count, rest) = number_at(behind)?;
    Some((Segment { first, count }, rest))
}

// Extents by segments behind the number of these, where extents are counted up to a count; damaged exactly where none
// stand so, or more than a volume may have. No more than these are taken.
fn segmented_at(
    alloc: Global,
    bytes: &[u8],
    count: u32,
    most: u32,
) -> Result<(Vec<u32>, &[u8]), Unread>
    requires { most ≤ count }
    ensures few { IfOk result (λ x. AreFew count most x.0.items) }
    ensures extents { IfOk result (λ x. bytes.now ≡ extents_by Segmented x.0.items ++ x.1.now) }
    ensures damaged { IfErr result (λ e. IsUnread e ((es rest : List ℕ) → AreFew count most es → bytes.now ≢ extents_by Segmented es ++ rest)) }
{
    let Some((number, mut rest)) = number_at(bytes) else {
        return Err(Unread::Damaged);
    };
    let mut extents = Vec::new(alloc);
    for _ in 0..number {
        let Some((segment, after)) = segment_at(rest) else {
            return Err(Unread::Damaged);
        };
        if !goes_on(&extents, segment, count, most) {
            return Err(Unread::Damaged);
        }
        if push_all(&mut extents, segment).is_err() {
            return Err(Unread::NoMemory);
        }
        rest = after;
    }
    Ok((extents, rest))
}

// Extents by a grammar, where they are counted up to a count; damaged exactly where none stand so, or more than a volume may have.
fn extents_at(
    alloc: Global,
    grammar: Grammar,
    bytes: &[u8],
    count: u32,
    most: u32,
) -> Result<(Vec<u32>, &[u8]), Unread>
    requires { most ≤ count }
    ensures few { IfOk result (λ x. length x.0.items < 2 ^ 32) }
    ensures fit { IfOk result (λ x. AllByRecursion (λ e. e < 2 ^ 32) x.0.items) }
    ensures extents { IfOk result (λ x. bytes.now ≡ extents_by grammar x.0.items ++ x.1.now) }
    ensures damaged { IfErr result (λ e. IsUnread e ((es rest : List ℕ) → AreFew count most es → bytes.now ≢ extents_by grammar es ++ rest)) }
{
    match grammar {
        Grammar::Listed => listed_at(alloc, bytes),
        Grammar::Segmented => segmented_at(alloc, bytes, count, most),
    }
}

/// A volume with what its kind has, where extents are counted up to a count; damaged exactly where no volume stands so that
/// has no more extents than it may.
pub fn volume_at(
    alloc: Global,
    grammar: Grammar,
    bytes: &[u8],
    count: u32,
    most: u32,
) -> Result<(Volume, &[u8]), Unread>
    requires { most ≤ count }
    ensures volume { IfOk result (λ x. IsVolume x.0.row) }
    ensures few { IfOk result (λ x. length x.0.row.extents < 2 ^ 32) }
    ensures fit { IfOk result (λ x. AllByRecursion (λ e. e < 2 ^ 32) x.0.row.extents) }
    ensures text { IfOk result (λ x. bytes.now ≡ volume_by grammar x.0.row ++ x.1.now) }
    ensures damaged { IfErr result (λ e. IsUnread e ((r : Row) (rest : List ℕ) → IsVolume r → AreFew count most r.extents → bytes.now ≢ volume_by grammar r ++ rest)) }
{
    let Some((name, behind)) = name_at(bytes) else {
        return Err(Unread::Damaged);
    };
    let Some((hidden, fresh, rest)) = marks_at(behind) else {
        return Err(Unread::Damaged);
    };
    let (extents, after) = match extents_at(alloc, grammar, rest, count, most) {
        Ok(read) => read,
        Err(unread) => return Err(unread),
    };
    if !suits_kind(&name, hidden, fresh, &extents) {
        return Err(Unread::Damaged);
    }
    Ok((Volume::new(name, hidden, fresh, extents), after))
}
