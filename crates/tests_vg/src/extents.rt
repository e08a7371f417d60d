//! Free extents, worked by hand.

use crate::large::large_text;
use std::alloc::Global;
use std::process::Abort;
use std::test::Fail;
use tests_support::holds;
use vg_extents::{FitFault, Runs, first_fit, free};
use vg_meta::Table;

/// Two volumes: the records on extents 0 and 1, and an image on 6 and 3.
const SMALL: &[u8] =
    b"\x00\x00\x00\x00\x00\x00\x00\x02\x00\x00\x00\x02\x03MGT\x00\x00\x00\x00\x01\x00\x00\x00\x00\x00\x00\x00\x02\x28VHD-11111111-1111-1111-1111-111111111111\x00\x00\x00\x00\x02\x00\x00\x00\x06\x00\x00\x00\x01\x00\x00\x00\x03\x00\x00\x00\x01";

/// So many of 8 extents are found.
fn finds(
    rt: &impl Abort,
    alloc: Global,
    table: &Table,
    need: u32,
    want: &[u32],
) -> Result<(), Fail> {
    let found = first_fit(alloc, table, 8, need)?;
    assert!(rt; found.as_slice() == want);
    Ok(())
}

/// So many extents of a count are free, and more are refused.
fn lacks(rt: &impl Abort, alloc: Global, table: &Table, count: u32, left: u32, need: u32) {
    assert!(rt; free(table, count) == left);
    let fault = FitFault::NoSpace { need, free: left };
    assert!(rt; first_fit(alloc, table, count, need).err() == Some(fault));
}

#[test]
fn the_least_extents_are_found(rt: HostRuntime) -> Result<(), Fail> {
    let table = Table::decode(rt.alloc(), SMALL, 8)?;
    for (need, want) in [(0, &[][..]), (1, &[2]), (3, &[2, 4, 5]), (4, &[2, 4, 5, 7])] {
        finds(&rt, rt.alloc(), &table, need, want)?;
    }
    for (count, left, need) in [(8, 4, 5), (5, 2, 3), (2, 0, 1)] {
        lacks(&rt, rt.alloc(), &table, count, left, need);
    }
    Ok(())
}

/// Runs give these free extents of a count, each number of them from the least on, and no more.
fn runs_give(alloc: Global, table: &Table, count: u32, want: &[u32]) -> Result<(), Fail> {
    let runs = Runs::of(alloc, table, count)?;
    let free = runs.free();
    holds(free as usize == want.len(), "as many as are free")?;
    for need in 0..free {
        let found = runs.first(alloc, need)?;
        let is_front = want.get(..need as usize) == Some(found.as_slice());
        holds(is_front, "the least")?;
    }
    holds(runs.first(alloc, free)?.as_slice() == want, "all")?;
    let need = free.saturating_add(1);
    let fault = FitFault::NoSpace { need, free };
    holds(runs.first(alloc, need).err() == Some(fault), "one more")
}

/// Runs of two and more, of one, at the end and none.
#[test]
fn free_extents_are_kept_as_runs(rt: HostRuntime) -> Result<(), Fail> {
    let table = Table::decode(rt.alloc(), SMALL, 8)?;
    let rows = [
        (12, &[2, 4, 5, 7, 8, 9, 10, 11][..]),
        (8, &[2, 4, 5, 7]),
        (6, &[2, 4, 5]),
        (4, &[2]),
        (2, &[]),
        (0, &[]),
    ];
    for (count, want) in rows {
        runs_give(rt.alloc(), &table, count, want)?;
    }
    Ok(())
}

/// The 8 extents behind the others are found, and no more.
fn finds_the_last(rt: &impl Abort, alloc: Global, table: &Table) -> Result<(), Fail> {
    let found = first_fit(alloc, table, 1_048_576, 8)?;
    assert!(rt; found.iter().copied().eq(1_048_568..1_048_576));
    lacks(rt, alloc, table, 1_048_576, 8, 9);
    Ok(())
}

#[test]
fn at_1048576_extents_and_500_volumes(rt: HostRuntime) -> Result<(), Fail> {
    let table = Table::decode(rt.alloc(), &large_text(rt.alloc())?, 1_048_576)?;
    finds_the_last(&rt, rt.alloc(), &table)
}
