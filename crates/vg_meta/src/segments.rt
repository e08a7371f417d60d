//! Extents as segments: the first of them, how many there are, and which may stand behind extents that were read.

ghost use Rattle.std.specs.Prelude.{◌≡◌, ◌≢◌, ◌≤◌, ◌<◌, ◌+◌, ◌-◌, ◌^◌, ◌++◌, ◌∷◌, ◌↔◌, [], Some, length, min, slice_get, IsTrue, IfSome, IfNone, OnOk};
ghost use Rattle.std.specs.List.{range_with_len};
ghost use Rattle.vg_meta.specs.Segments.{CountsUp, GoesOn, follows, segments, beginnings};

use sm_base::NoMemory;

/// Extents that follow one another: the first of them, and how many they are.
#[derive(Clone, Copy)]
pub struct Segment {
    pub first: u32,
    pub count: u32,
}

// How many of the extents count up from a number one by one.
fn counted(from: u64, extents: &[u32]) -> usize
    requires { from + length extents.now < 2 ^ 64 }
    ensures { CountsUp from result extents.now }
{
    for (index, extent) in extents.iter().enumerate() {
        if u64::from(*extent) != from + index as u64 {
            return index;
        }
    }
    extents.len()
}

// The first of extents that stand in two slices, or `None` where there are none.
fn first_of(extents: &[u32], more: &[u32]) -> Option<u32>
    ensures first { IfSome result (λ e. slice_get (extents.now ++ more.now) 0 ≡ Some e) }
    ensures none { IfNone result (extents.now ++ more.now ≡ []) }
{
    match extents.first() {
        Some(first) => Some(*first),
        None => more.first().copied(),
    }
}

/// The first segment of extents that stand in two slices, and the slices behind it; `None` where there are no extents.
pub fn split_segment<'a>(
    extents: &'a [u32],
    more: &'a [u32],
) -> Option<(Segment, &'a [u32], &'a [u32])>
    requires { length (extents.now ++ more.now) < 2 ^ 32 }
    ensures split { IfSome result (λ x. segments (extents.now ++ more.now) ≡ record { first = x.0.first; count = x.0.count } ∷ segments (x.1.now ++ x.2.now)) }
    ensures none { IfNone result (segments (extents.now ++ more.now) ≡ []) }
{
    let Some(first) = first_of(extents, more) else {
        return None;
    };
    let here = counted(u64::from(first), extents);
    let (_, behind) = extents.split_at(here);
    if here < extents.len() {
        let count = here as u32;
        return Some((Segment { first, count }, behind, more));
    }
    let there = counted(u64::from(first) + here as u64, more);
    let (_, left) = more.split_at(there);
    let count = (here + there) as u32;
    Some((Segment { first, count }, behind, left))
}

// Whether an extent follows the one in front of it, where there is one.
fn follows(last: Option<u32>, extent: u32) -> bool
    ensures { result ≡ follows last extent }
{
    match last {
        Some(last) => u64::from(last) + 1 == u64::from(extent),
        None => false,
    }
}

// How many extents do not follow the one in front of them.
fn count_beginnings(last: Option<u32>, extents: &[u32]) -> usize
    ensures { result ≡ beginnings last extents.now }
{
    let mut last = last;
    let mut count = 0;
    for extent in extents {
        if !follows(last, *extent) {
            count += 1;
        }
        last = Some(*extent);
    }
    count
}

/// How many segments extents have that stand in two slices, or the greatest `usize` where there are more.
pub fn count_segments(extents: &[u32], more: &[u32]) -> usize
    ensures { result ≡ min (length (segments (extents.now ++ more.now))) (2 ^ 64 - 1) }
{
    let front = count_beginnings(None, extents);
    front.saturating_add(count_beginnings(extents.last().copied(), more))
}

/// Whether a segment may stand behind extents, where extents are counted up to `count` and the volume may have `most`.
pub fn goes_on(extents: &[u32], segment: Segment, count: u32, most: u32) -> bool
    requires { length extents.now < 2 ^ 32 }
    ensures { IsTrue result ↔ GoesOn count most extents.now segment.first segment.count }
{
    let begins_elsewhere = match extents.last() {
        Some(last) => u64::from(*last) + 1 != u64::from(segment.first),
        None => true,
    };
    begins_elsewhere
        && segment.count > 0
        && u64::from(segment.first) + u64::from(segment.count) <= u64::from(count)
        && extents.len() as u64 + u64::from(segment.count) <= u64::from(most)
}

/// The extents of a segment at the end of others.
pub fn push_all(extents: &mut Vec<u32>, segment: Segment) -> Result<(), NoMemory>
    requires { segment.first + segment.count < 2 ^ 32 }
    ensures { OnOk result (extents.new.items ≡ extents.old.items ++ range_with_len segment.first segment.count) }
{
    for extent in segment.first..segment.first + segment.count {
        if extents.push(extent).is_err() {
            return Err(NoMemory);
        }
    }
    Ok(())
}
