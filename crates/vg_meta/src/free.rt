//! Whether extents are free: below a count, distinct, and no volume has them.

ghost use Rattle.std.specs.Prelude.{◌≡◌, ◌↔◌, ◌<◌, IsTrue, length, nat_eq, nat_lt, not};
ghost use Rattle.std.specs.List.{list_all, IsDistinct};
ghost use Rattle.std.specs.List.Sorted.{IsStrictlyIncreasing};
ghost use Rattle.vg_meta.specs.Tables.{is_one_of};
ghost use Rattle.vg_meta.specs.Roomy.{rows_alone};
ghost use Rattle.vg_meta.specs.Changes.{AreFree};

use crate::volumes::Volume;

/// Whether the extents may be given to a volume. For rising extents the cost is one look-up for each extent
/// of the table, by halving; for others each is compared with all.
pub fn are_free(volumes: &[Volume], extents: &[u32], count: u32) -> bool
    ensures { IsTrue result ↔ AreFree count (rows_alone volumes.now) extents.now }
{
    let rising = is_rising(extents);
    are_below(extents, count)
        && is_distinct(extents, rising)
        && are_unused(volumes, extents, rising)
}

fn are_below(extents: &[u32], count: u32) -> bool
    ensures { result ≡ list_all (λ e. nat_lt e count) extents.now }
{
    extents.iter().all(|extent| *extent < count)
}

fn is_rising(extents: &[u32]) -> bool
    ensures { IsTrue result ↔ IsStrictlyIncreasing extents.now }
{
    for at in 1..extents.len() {
        if extents[at] <= extents[at - 1] {
            return false;
        }
    }
    true
}

fn is_distinct(extents: &[u32], rising: bool) -> bool
    requires { IsTrue rising → IsStrictlyIncreasing extents.now }
    ensures { IsTrue result ↔ IsDistinct nat_eq extents.now }
{
    if rising {
        return true;
    }
    for (at, extent) in extents.iter().enumerate() {
        let (_, behind) = extents.split_at(at + 1);
        if has(behind, false, *extent) {
            return false;
        }
    }
    true
}

// Whether an extent is among others.
fn has(extents: &[u32], rising: bool, extent: u32) -> bool
    requires { IsTrue rising → IsStrictlyIncreasing extents.now }
    ensures { result ≡ is_one_of extents.now extent }
{
    if rising {
        extents.binary_search(&extent).is_ok()
    } else {
        extents.contains(&extent)
    }
}

// Whether no extent of a volume is among others.
fn shares_none(volume: &Volume, extents: &[u32], rising: bool) -> bool
    requires { IsTrue rising → IsStrictlyIncreasing extents.now }
    ensures { result ≡ list_all (λ e. not (is_one_of extents.now e)) volume.now.row.extents }
{
    volume
        .extents()
        .iter()
        .all(|extent| !has(extents, rising, *extent))
}

// Whether no extent of any volume is among others.
fn are_unused(volumes: &[Volume], extents: &[u32], rising: bool) -> bool
    requires { IsTrue rising → IsStrictlyIncreasing extents.now }
    ensures { result ≡ list_all (λ v. list_all (λ e. not (is_one_of extents.now e)) v.row.extents) volumes.now }
{
    volumes
        .iter()
        .all(|volume| shares_none(volume, extents, rising))
}
