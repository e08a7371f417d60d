//! Two devices as one, where they are too large for a case.

use sm_disk::{Disk, MemDisk};
use sm_span::Span;
use std::alloc::Global;
use std::process::Abort;
use std::test::Fail;

/// Two parts, by their sectors, and how many they have as one device; `None` where they have more than a device may.
#[derive(Clone, Copy)]
struct Row {
    first: u64,
    second: u64,
    both: Option<u64>,
}

/// Two parts are one device of as many sectors, or they are handed back as they are.
fn joins(rt: &impl Abort, alloc: Global, row: &Row) -> Result<(), Fail> {
    let first = MemDisk::new(alloc, row.first)?;
    let second = MemDisk::new(alloc, row.second)?;
    match Span::new(first, second) {
        Ok(span) => assert!(rt; Some(span.sectors()) == row.both),
        Err((first, second)) => {
            let sectors = (first.sectors(), second.sectors());
            assert!(rt; row.both.is_none() && sectors == (row.first, row.second));
        }
    }
    Ok(())
}

/// Parts about the most sectors that a device may have.
const ROWS: [Row; 7] = [
    Row {
        first: u64::MAX,
        second: 1,
        both: None,
    },
    Row {
        first: 1,
        second: u64::MAX,
        both: None,
    },
    Row {
        first: 1 << 63,
        second: 1 << 63,
        both: None,
    },
    Row {
        first: 1 << 63,
        second: (1 << 63) - 1,
        both: Some(u64::MAX),
    },
    Row {
        first: u64::MAX,
        second: 0,
        both: Some(u64::MAX),
    },
    Row {
        first: 0,
        second: u64::MAX,
        both: Some(u64::MAX),
    },
    Row {
        first: 0,
        second: 0,
        both: Some(0),
    },
];

#[test]
fn parts_have_fewer_than_two_to_the_64_sectors_together(rt: HostRuntime) -> Result<(), Fail> {
    for row in &ROWS {
        joins(&rt, rt.alloc(), row)?;
    }
    Ok(())
}
