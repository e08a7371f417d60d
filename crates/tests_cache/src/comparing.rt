//! Two repositories step the same lines, and all that they answer and leave is compared.

use crate::opening::{into_disk, open};
use sm_disk::{Disk, MemDisk, MemSink, read_sector};
use sm_run::Steps;
use sm_script::{Command, Line, Print, Reply, Trial};
use std::alloc::Global;
use thiserror::Error;

/// How many lines are stepped.
const LINES: u32 = 20_000;

/// The sectors of the smaller cache and of the larger.
const KEPT: (usize, usize) = (1, 1_024);

/// How many lines were accepted and how many refused.
#[derive(Clone, Copy)]
pub struct Counts {
    pub accepted: u32,
    pub refused: u32,
}

/// What differs, or why nothing could be compared.
#[derive(Clone, Copy, Debug, Drop, Error)]
pub enum Difference {
    #[error("no repository")]
    Opening,
    #[error("line {line} is not answered")]
    Fault { line: u32 },
    #[error("line {line} is answered in two ways")]
    Reply { line: u32 },
    #[error("sector {at} of the device has two contents")]
    Sector { at: u64 },
    #[error("the larger cache spares no read of the device")]
    Reads,
}

/// What two repositories answered to a line.
enum Answer {
    Accepted,
    Refused,
    Fault,
    Otherwise,
}

/// A reply's line.
fn printed(alloc: Global, reply: &Reply) -> Option<MemSink> {
    let Ok(mut text) = MemSink::new(alloc, None) else {
        return None;
    };
    match reply.print(&mut text) {
        Ok(()) => Some(text),
        Err(_) => None,
    }
}

/// Whether two replies have the same bytes, and which way the first goes.
fn held_together(alloc: Global, first: &Reply, second: &Reply) -> Answer {
    let (Some(one), Some(other)) = (printed(alloc, first), printed(alloc, second)) else {
        return Answer::Fault;
    };
    match first {
        _ if one.bytes() != other.bytes() => Answer::Otherwise,
        Reply::No(_) => Answer::Refused,
        _ => Answer::Accepted,
    }
}

/// Steps a command in both.
fn step_both<M: Steps>(alloc: Global, small: &mut M, large: &mut M, command: &Command) -> Answer {
    match (small.step(alloc, command), large.step(alloc, command)) {
        (Ok(first), Ok(second)) => held_together(alloc, &first, &second),
        _ => Answer::Fault,
    }
}

/// Steps the lines of a number in both.
fn step_lines<M: Steps>(
    alloc: Global,
    small: &mut M,
    large: &mut M,
    number: u64,
) -> Result<Counts, Difference> {
    let Ok(mut room) = Line::room(alloc) else {
        return Err(Difference::Opening);
    };
    let mut trial = Trial::new(number);
    let (mut accepted, mut refused) = (0_u32, 0_u32);
    for line in 0..LINES {
        let mut bytes = [0; 128];
        let length = trial.line(&mut bytes);
        let reading = Line::read(&bytes[..length], room);
        let said = match reading.command() {
            Some(command) => step_both(alloc, small, large, command),
            None => Answer::Refused,
        };
        room = reading.into_room();
        match said {
            Answer::Accepted => accepted = accepted.saturating_add(1),
            Answer::Refused => refused = refused.saturating_add(1),
            Answer::Fault => return Err(Difference::Fault { line }),
            Answer::Otherwise => return Err(Difference::Reply { line }),
        }
    }
    Ok(Counts { accepted, refused })
}

/// Each sector of both devices is the same.
fn compare_sectors(small: &mut MemDisk, large: &mut MemDisk) -> Result<(), Difference> {
    for at in 0..small.sectors() {
        if at >= small.sectors() || at >= large.sectors() {
            return Err(Difference::Sector { at });
        }
        match (read_sector(small, at), read_sector(large, at)) {
            (Ok(one), Ok(other)) if one == other => {}
            _ => return Err(Difference::Sector { at }),
        }
    }
    Ok(())
}

/// The devices behind the lines: the same bytes, with fewer reads over the larger cache.
fn compare_devices(mut small: MemDisk, mut large: MemDisk) -> Result<(), Difference> {
    if small.reads() <= large.reads() {
        return Err(Difference::Reads);
    }
    compare_sectors(&mut small, &mut large)
}

/// Steps the lines of a number over a small cache and over a large one.
pub fn compare(alloc: Global, number: u64) -> Result<Counts, Difference> {
    let (least, most) = KEPT;
    let mut small = open(alloc, least)?;
    let mut large = match open(alloc, most) {
        Ok(large) => large,
        Err(why) => {
            let _disk = into_disk(small);
            return Err(why);
        }
    };
    let counts = step_lines(alloc, &mut small, &mut large, number);
    let devices = compare_devices(into_disk(small), into_disk(large));
    let counts = counts?;
    devices?;
    Ok(counts)
}
