//! A volume of a table's text, read from its first byte on.

ghost use Rattle.std.specs.Prelude.{◌≡◌, ◌≢◌, ◌<◌, ◌+◌, ◌^◌, ◌++◌, ◌∷◌, ◌↔◌, ℕ, Bool, List, length, IsTrue, IfSome, IfNone, IfOk};
ghost use Rattle.std.specs.List.{AllByRecursion, range_with_len};
ghost use Rattle.byteorder.specs.Endian.{big_bytes};
ghost use Rattle.sm_base.specs.declared.names.Name.{Name};
ghost use Rattle.sm_base.specs.Names.{IsName, spelling};
ghost use Rattle.tests_reader.specs.SoFar.{row};
ghost use Rattle.vg_meta.specs.declared.grammars.Grammar.TheVariants.{Segmented};
ghost use Rattle.vg_meta.specs.Segments.{AreFew, GoesOn};
ghost use Rattle.vg_meta.specs.Tables.{Row, IsVolume, suits as suits_of};
ghost use Rattle.vg_meta.specs.Text.{extents_by, flags_of, listed_extents, volume_by};

use byteorder::{BigEndian, ByteOrder};
use sm_base::Name;
use std::alloc::{AllocError, Global};
use vg_meta::Grammar;

/// A volume of a text.
#[derive(Drop)]
pub struct Volume {
    pub name: Name,
    pub hidden: bool,
    pub fresh: bool,
    pub extents: Vec<u32>,
}

/// The first so many bytes, and those behind them; `None` where there are fewer.
fn cut(bytes: &[u8], count: usize) -> Option<(&[u8], &[u8])>
    ensures parts { IfSome result (λ x. bytes.now ≡ x.0.now ++ x.1.now) }
    ensures long { IfSome result (λ x. length x.0.now ≡ count) }
    ensures none { IfNone result (length bytes.now < count) }
{
    if bytes.len() < count {
        return None;
    }
    Some(bytes.split_at(count))
}

/// A number of four bytes, and the bytes behind it; `None` where they are not there.
pub fn number_at(bytes: &[u8]) -> Option<(u32, &[u8])>
    ensures number { IfSome result (λ x. bytes.now ≡ big_bytes 4 x.0 ++ x.1.now) }
    ensures fits { IfSome result (λ x. x.0 < 2 ^ 32) }
    ensures none { IfNone result (length bytes.now < 4) }
{
    let (number, rest) = cut(bytes, 4)?;
    Some((BigEndian::read_u32(number), rest))
}

/// A number of eight bytes, and the bytes behind it; `None` where they are not there.
pub fn long_number_at(bytes: &[u8]) -> Option<(u64, &[u8])>
    ensures number { IfSome result (λ x. bytes.now ≡ big_bytes 8 x.0 ++ x.1.now) }
    ensures fits { IfSome result (λ x. x.0 < 2 ^ 64) }
    ensures none { IfNone result (length bytes.now < 8) }
{
    if bytes.len() < 8 {
        return None;
    }
    let (number, rest) = bytes.split_at(8);
    Some((BigEndian::read_u64(number), rest))
}

/// A name behind its length, as it is spelled too, and the bytes behind it; `None` where none stands so.
fn name_at(bytes: &[u8]) -> Option<(Name, &[u8], &[u8])>
    ensures proper { IfSome result (λ x. IsName x.0) }
    ensures spelled { IfSome result (λ x. x.1.now ≡ spelling x.0) }
    ensures name { IfSome result (λ x. bytes.now ≡ length (spelling x.0) ∷ spelling x.0 ++ x.2.now) }
    ensures none { IfNone result ((n : Name) (rest : List ℕ) → IsName n → bytes.now ≢ length (spelling n) ∷ spelling n ++ rest) }
{
    let (size, rest) = bytes.split_first()?;
    let (spelled, rest) = cut(rest, usize::from(*size))?;
    let name = Name::read(spelled)?;
    Some((name, spelled, rest))
}

/// Whether a volume is hidden and whether it is new, by its flags, and the bytes behind them; `None` where none stand so.
fn flags_at(bytes: &[u8]) -> Option<(bool, bool, &[u8])>
    ensures flags { IfSome result (λ x. bytes.now ≡ flags_of x.0 x.1 ∷ x.2.now) }
    ensures none { IfNone result ((hidden fresh : Bool) (rest : List ℕ) → bytes.now ≢ flags_of hidden fresh ∷ rest) }
{
    let (flags, rest) = bytes.split_first()?;
    if *flags > 3 {
        return None;
    }
    Some((*flags == 1 || *flags == 3, *flags >= 2, rest))
}

/// Extents behind their number, one by one, and the bytes behind them; `None` where none stand so.
fn listed_at(alloc: Global, bytes: &[u8]) -> Result<Option<(Vec<u32>, &[u8])>, AllocError>
    ensures few { IfOk result (λ found. IfSome found (λ x. length x.0.items < 2 ^ 32)) }
    ensures fit { IfOk result (λ found. IfSome found (λ x. AllByRecursion (λ e. e < 2 ^ 32) x.0.items)) }
    ensures extents { IfOk result (λ found. IfSome found (λ x. bytes.now ≡ listed_extents x.0.items ++ x.1.now)) }
    ensures none { IfOk result (λ found. IfNone found ((es rest : List ℕ) → length es < 2 ^ 32 → bytes.now ≢ listed_extents es ++ rest)) }
{
    let Some((count, mut rest)) = number_at(bytes) else {
        return Ok(None);
    };
    let mut extents = Vec::new(alloc);
    for _ in 0..count {
        let Some((extent, after)) = number_at(rest) else {
            return Ok(None);
        };
        extents.push(extent)?;
        rest = after;
    }
    Ok(Some((extents, rest)))
}

/// Two numbers of four bytes, and the bytes behind them; `None` where they are not there.
fn pair_at(bytes: &[u8]) -> Option<(u32, u32, &[u8])>
    ensures numbers { IfSome result (λ x. bytes.now ≡ big_bytes 4 x.0 ++ (big_bytes 4 x.1 ++ x.2.now)) }
    ensures fit { IfSome result (λ x. (x.0 < 2 ^ 32) × (x.1 < 2 ^ 32)) }
    ensures none { IfNone result (length bytes.now < 8) }
{
    if bytes.len() < 8 {
        return None;
    }
    let (first, behind) = number_at(bytes)?;
    let (second, rest) = number_at(behind)?;
    Some((first, second, rest))
}

/// Whether a segment, its first extent and how many it has, may stand behind the extents that a volume has so far, where
/// extents are counted up to `count`.
fn goes_on(extents: &[u32], first: u32, many: u32, count: u32) -> bool
    requires { length extents.now < 2 ^ 32 }
    ensures { IsTrue result ↔ GoesOn count count extents.now first many }
{
    let begins_elsewhere = match extents.last() {
        Some(last) => u64::from(*last) + 1 != u64::from(first),
        None => true,
    };
    let end = u64::from(first) + u64::from(many);
    let all = extents.len() as u64 + u64::from(many);
    many > 0 && begins_elsewhere && end <= u64::from(count) && all <= u64::from(count)
}

/// Pushes so many extents that follow one another.
fn push_run(extents: &mut Vec<u32>, first: u32, many: u32) -> Result<(), AllocError>
    requires { first + many < 2 ^ 32 }
    ensures { IfOk result (λ done. extents.new.items ≡ extents.old.items ++ range_with_len first many) }
{
    for extent in first..first + many {
        extents.push(extent)?;
    }
    Ok(())
}

/// Extents by segments behind the number of these, and the bytes behind them, where extents are counted up to `count`; `None`
/// where none stand so.
fn segmented_at(
    alloc: Global,
    bytes: &[u8],
    count: u32,
) -> Result<Option<(Vec<u32>, &[u8])>, AllocError>
    ensures few { IfOk result (λ found. IfSome found (λ x. AreFew count count x.0.items)) }
    ensures extents { IfOk result (λ found. IfSome found (λ x. bytes.now ≡ extents_by Segmented x.0.items ++ x.1.now)) }
    ensures none { IfOk result (λ found. IfNone found ((es rest : List ℕ) → AreFew count count es → bytes.now ≢ extents_by Segmented es ++ rest)) }
{
    let Some((number, mut rest)) = number_at(bytes) else {
        return Ok(None);
    };
    let mut extents = Vec::new(alloc);
    for _ in 0..number {
        let Some((first, many, after)) = pair_at(rest) else {
            return Ok(None);
        };
        if !goes_on(&extents, first, many, count) {
            return Ok(None);
        }
        push_run(&mut extents, first, many)?;
        rest = after;
    }
    Ok(Some((extents, rest)))
}

/// Extents by a grammar, and the bytes behind them, where extents are counted up to `count`; `None` where none stand so.
fn extents_at(
    alloc: Global,
    grammar: Grammar,
    bytes: &[u8],
    count: u32,
) -> Result<Option<(Vec<u32>, &[u8])>, AllocError>
    ensures few { IfOk result (λ found. IfSome found (λ x. length x.0.items < 2 ^ 32)) }
    ensures fit { IfOk result (λ found. IfSome found (λ x. AllByRecursion (λ e. e < 2 ^ 32) x.0.items)) }
    ensures extents { IfOk result (λ found. IfSome found (λ x. bytes.now ≡ extents_by grammar x.0.items ++ x.1.now)) }
    ensures none { IfOk result (λ found. IfNone found ((es rest : List ℕ) → AreFew count count es → bytes.now ≢ extents_by grammar es ++ rest)) }
{
    match grammar {
        Grammar::Listed => listed_at(alloc, bytes),
        Grammar::Segmented => segmented_at(alloc, bytes, count),
    }
}

/// Whether marks and extents suit the kind of the name.
fn suits(volume: &Volume) -> bool
    ensures { result ≡ suits_of (row volume.now) }
{
    let no_extents = volume.extents.is_empty();
    let no_marks = !volume.hidden && !volume.fresh;
    match volume.name {
        Name::Mgt => no_marks,
        Name::Vhd(_) | Name::Raw(_) | Name::Old(_) => !no_extents,
        Name::Cbt(_) => !volume.hidden && !no_extents,
        Name::Clone { .. }
        | Name::Inflate { .. }
        | Name::Coalesce { .. }
        | Name::Relink { .. }
        | Name::Leaf { .. } => no_marks && no_extents,
    }
}

/// A volume with what its kind has, the spelling of its name, and the bytes behind it, where extents are counted up to
/// `count`; `None` where none stands so.
pub fn volume_at(
    alloc: Global,
    grammar: Grammar,
    bytes: &[u8],
    count: u32,
) -> Result<Option<(Volume, &[u8], &[u8])>, AllocError>
    ensures volume { IfOk result (λ found. IfSome found (λ x. IsVolume (row x.0))) }
    ensures few { IfOk result (λ found. IfSome found (λ x. length x.0.extents.items < 2 ^ 32)) }
    ensures fit { IfOk result (λ found. IfSome found (λ x. AllByRecursion (λ e. e < 2 ^ 32) x.0.extents.items)) }
    ensures spelled { IfOk result (λ found. IfSome found (λ x. x.1.now ≡ spelling x.0.name)) }
    ensures text { IfOk result (λ found. IfSome found (λ x. bytes.now ≡ volume_by grammar (row x.0) ++ x.2.now)) }
    ensures none { IfOk result (λ found. IfNone found ((r : Row) (rest : List ℕ) → IsVolume r → AreFew count count r.extents → bytes.now ≢ volume_by grammar r ++ rest)) }
{
    let Some((name, spelled, behind)) = name_at(bytes) else {
        return Ok(None);
    };
    let Some((hidden, fresh, behind)) = flags_at(behind) else {
        return Ok(None);
    };
    let Some((extents, behind)) = extents_at(alloc, grammar, behind, count)? else {
        return Ok(None);
    };
    let volume = Volume {
        name,
        hidden,
        fresh,
        extents,
    };
    if suits(&volume) {
        Ok(Some((volume, spelled, behind)))
    } else {
        Ok(None)
    }
}
