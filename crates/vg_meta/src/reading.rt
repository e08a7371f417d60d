//! Reading the volumes of a table: each is judged by those in front of it.

ghost use Rattle.std.specs.Prelude.{◌≡◌, ◌≢◌, ◌<◌, ◌≤◌, ◌+◌, ◌^◌, ◌++◌, ◌∷◌, ◌↔◌, [], ℕ, List, length, IsTrue, IfOk, IfErr};
ghost use Rattle.std.specs.List.{AllByRecursion, flat_map};
ghost use Rattle.std.specs.List.Sorted.{IsStrictlySortedBy};
ghost use Rattle.std.specs.declared.cmp.Ordering.TheVariants.{Less};
ghost use Rattle.sm_base.specs.Names.{name_cmp};
ghost use Rattle.vg_meta.specs.Tables.{Row, AreVolumes, names_of, extents_in};
ghost use Rattle.vg_meta.specs.Roomy.{rows_alone};
ghost use Rattle.vg_meta.specs.Text.{volume_by};
ghost use Rattle.vg_meta.specs.Taken.{IsMarked, are_new};
ghost use Rattle.vg_meta.specs.Unread.{IsUnread};
ghost use Rattle.vg_meta.specs.Stopped.{StopsReading};

use crate::decoding::{Unread, volume_at};
use crate::grammars::Grammar;
use crate::volumes::Volume;
use sm_base::Name;
use std::alloc::Global;

// Marks extents as met. False exactly where one is not below the number of marks, was met before, or
// stands twice; some are marked then.
fn meet(met: &mut [bool], extents: &[u32]) -> bool
    ensures new { (us : List ℕ) → IsMarked us met.old → result ≡ are_new (length met.old) us extents.now }
    ensures marked { (us : List ℕ) → IsMarked us met.old → IsTrue result → IsMarked (us ++ extents.now) met.new }
{
    for extent in extents {
        let at = *extent as usize;
        if at >= met.len() || met[at] {
            return false;
        }
        met[at] = true;
    }
    true
}

// Whether a name stands behind those of the volumes.
fn follows(volumes: &[Volume], name: &Name) -> bool
    requires { IsStrictlySortedBy name_cmp (names_of (rows_alone volumes.now)) }
    ensures { IsTrue result ↔ AllByRecursion (λ v. name_cmp v.row.name name.now ≡ Less) volumes.now }
{
    match volumes.last() {
        None => true,
        Some(last) => last.name().compare(name).is_lt(),
    }
}

// The next volume, whose extents are marked as met, where so many are left for it; damaged exactly where none stands there
// that goes on with the volumes so far.
fn next_volume<'a>(
    alloc: Global,
    grammar: Grammar,
    volumes: &[Volume],
    met: &mut [bool],
    left: u32,
    bytes: &'a [u8],
) -> Result<(Volume, &'a [u8]), Unread>
    requires so_far { AreVolumes (length met.old) (rows_alone volumes.now) }
    requires marked { IsMarked (extents_in (rows_alone volumes.now)) met.old }
    requires count { length met.old < 2 ^ 32 }
    requires left { length (extents_in (rows_alone volumes.now)) + left ≡ length met.old }
    ensures text { IfOk result (λ x. bytes.now ≡ volume_by grammar x.0.row ++ x.1.now) }
    ensures few { IfOk result (λ x. length x.0.row.extents ≤ left) }
    ensures volumes { IfOk result (λ x. AreVolumes (length met.old) (rows_alone volumes.now ++ x.0.row ∷ [])) }
    ensures marks { IfOk result (λ x. IsMarked (extents_in (rows_alone volumes.now) ++ x.0.row.extents) met.new) }
    ensures damaged { IfErr result (λ e. IsUnread e ((r : Row) (rest : List ℕ) → length r.extents < 2 ^ 32 → AreVolumes (length met.old) (rows_alone volumes.now ++ r ∷ []) → bytes.now ≢ volume_by grammar r ++ rest)) }
{
    let (volume, rest) = match volume_at(alloc, grammar, bytes, met.len() as u32, left) {
        Ok(read) => read,
        Err(unread) => return Err(unread),
    };
    if !follows(volumes, &volume.name()) {
        return Err(Unread::Damaged);
    }
    if !meet(met, volume.extents()) {
        return Err(Unread::Damaged);
    }
    Ok((volume, rest))
}

/// Why volumes were not read.
#[derive(Clone, Copy, PartialEq, Eq)]
pub enum Stopped {
    /// So many bytes before the end no volume stands that goes on with those in front of it.
    Damaged { left: usize },
    /// Memory ran out.
    NoMemory,
}

/// So many volumes, whose extents are below a count, and the bytes behind them.
pub fn volumes_at(
    alloc: Global,
    grammar: Grammar,
    bytes: &[u8],
    number: u32,
    count: u32,
) -> Result<(Vec<Volume>, &[u8]), Stopped>
    ensures text { IfOk result (λ x. bytes.now ≡ flat_map (volume_by grammar) (rows_alone x.0.items) ++ x.1.now) }
    ensures number { IfOk result (λ x. length x.0.items ≡ number) }
    ensures volumes { IfOk result (λ x. AreVolumes count (rows_alone x.0.items)) }
    ensures damaged { IfErr result (λ e. StopsReading grammar count number bytes.now e) }
{
    let Ok(mut met) = vec![in alloc; false; count as usize] else {
        return Err(Stopped::NoMemory);
    };
    let mut volumes = Vec::new(alloc);
    let mut rest = bytes;
    let mut left = count;
    for _ in 0..number {
        let (volume, after) = match next_volume(alloc, grammar, &volumes, &mut met, left, rest) {
            Ok(read) => read,
            Err(Unread::Damaged) => return Err(Stopped::Damaged { left: rest.len() }),
            Err(Unread::NoMemory) => return Err(Stopped::NoMemory),
        };
        left -= volume.extents().len() as u32;
        if volumes.push(volume).is_err() {
            return Err(Stopped::NoMemory);
        }
        rest = after;
    }
    Ok((volumes, rest))
}
