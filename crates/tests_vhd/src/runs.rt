//! What the tests do to a group on a device, each in a group of its own.

ghost use Rattle.std.specs.Prelude.{◌≡◌, false};

use crate::chains::{make_chain, read_chain};
use crate::fixtures::{Untold, opened};
use crate::head_tests::{end_sooner, enlarge, link, lose_footers, use_raw};
use crate::making_tests::make_and_compare;
use crate::stop_tests::{compare, fill, put_sectors, write_and_compare};
use sm_disk::MemDisk;
use std::alloc::Global;
use std::test::Fail;
use vg_volumes::Store;

/// What is done to a group, in which an image is there for the four that write, put, compare or read.
#[derive(Clone, Copy)]
pub enum Work {
    Make,
    LoseFooters,
    Link,
    Enlarge,
    EndSooner,
    UseRaw,
    Fill,
    Write { goes_on: bool },
    Put { at: u64, sectors: usize },
    Compare,
    Chain,
    Read { at: u64, sectors: usize },
}

/// Does what ends well or not at all.
fn show<S: Store>(alloc: Global, store: &mut S, work: Work) -> Result<(), Fail>
    requires told { ¬ S.told }
    requires usable { S.failed store.old ≡ false }
{
    match work {
        Work::Make => make_and_compare(alloc, store),
        Work::LoseFooters => lose_footers(alloc, store),
        Work::Link => link(alloc, store),
        Work::Enlarge => enlarge(alloc, store),
        Work::EndSooner => end_sooner(alloc, store),
        Work::UseRaw => use_raw(alloc, store),
        Work::Fill => fill(alloc, store),
        Work::Chain => make_chain(alloc, store),
        Work::Read { at, sectors } => read_chain(alloc, store, at, sectors),
        _ => compare(alloc, store, false),
    }
}

/// Does it to a store, and answers whether the write was done, if it is one.
fn perform<S: Store>(alloc: Global, store: &mut S, work: Work) -> Result<bool, Fail>
    requires told { ¬ S.told }
    requires usable { S.failed store.old ≡ false }
{
    match work {
        Work::Write { goes_on } => write_and_compare(alloc, store, goes_on),
        Work::Put { at, sectors } => put_sectors(alloc, store, at, sectors, 0x44),
        _ => {
            show(alloc, store, work)?;
            Ok(true)
        }
    }
}

/// Does it in the group on a device, which is handed back.
pub fn run(alloc: Global, disk: MemDisk, work: Work) -> Result<(Untold, bool), Fail> {
    let mut group = opened(alloc, disk)?;
    let done = perform(alloc, &mut group, work);
    let untold = group.into_disk();
    Ok((untold, done?))
}
