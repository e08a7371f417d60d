//! A source and a sink in memory, which fail after so many bytes.

ghost use Rattle.std.specs.Prelude.{◌≡◌, ◌≤◌, ◌<◌, ◌-◌, ◌||◌, [], Some, ◌++◌, min, false, length, take, drop, is_err, Ok, OnOk, OnErr, IfOk, IfSome};
ghost use Rattle.sm_disk.specs.Held.{IsCounted};
ghost use Rattle.sm_disk.specs.Streams.{Adds, Takes};
ghost use Rattle.sm_disk.specs.MemoryStreams.{Basin, Spring, after, at_most, given_by, is_over};

use crate::counts::answer;
use crate::streams::{Sink, Source, length_through};
use sm_base::{Failed, NoMemory};
use std::alloc::Global;
use std::marker::Model;

/// A source in memory.
#[derive(Drop)]
pub struct MemSource {
    bytes: Vec<u8>,
    given: usize,
    chunk: usize,
    until: Option<usize>,
    faults: u64,
}

impl Model for MemSource {
    ghost use Rattle.std.specs.Prelude.{◌≤◌, ◌<◌, length, drop};
    ghost use Rattle.sm_disk.specs.MemoryStreams.{Spring};

    ghost Value = { Spring };

    ghost view = { λ s. record { left = drop s.given s.bytes.items; chunk = s.chunk; until = s.until; faults = s.faults } };

    ghost invariant = { λ s. (s.given ≤ length s.bytes.items) × (0 < s.chunk) };
}

impl MemSource {
    /// A source of these bytes, which gives at most `chunk` of them in a call. Once `fail_after` bytes were
    /// given every call fails, and no other.
    pub fn new(
        alloc: Global,
        bytes: &[u8],
        chunk: usize,
        fail_after: Option<usize>,
    ) -> Result<MemSource, NoMemory>
        requires { 0 < chunk }
        ensures { IfOk result (λ s. s
            ≡ record { left = bytes.now; chunk = chunk; until = fail_after; faults = 0 }) }
    {
        let Ok(bytes) = Vec::from_slice(alloc, bytes) else {
            return Err(NoMemory);
        };
        Ok(MemSource {
            bytes,
            given: 0,
            chunk,
            until: fail_after,
            faults: 0,
        })
    }
}

/// A sink in memory.
#[derive(Drop)]
pub struct MemSink {
    bytes: Vec<u8>,
    until: Option<usize>,
    faults: u64,
    short: bool,
}

impl Model for MemSink {
    ghost use Rattle.sm_disk.specs.MemoryStreams.{Basin};

    ghost Value = { Basin };

    ghost view = { λ s. record { bytes = s.bytes.items; until = s.until; faults = s.faults; short = s.short } };
}

impl MemSink {
    /// A sink that takes `room` bytes, or any number. It takes the part that fits, and fails from there on.
    pub fn new(alloc: Global, room: Option<usize>) -> Result<MemSink, NoMemory>
        ensures { result ≡ Ok (record { bytes = []; until = room; faults = 0; short = false }) }
    {
        Ok(MemSink {
            bytes: Vec::new(alloc),
            until: room,
            faults: 0,
            short: false,
        })
    }

    /// What it holds.
    pub fn bytes(&self) -> &[u8]
        ensures { result.now ≡ self.now.bytes }
    {
        &self.bytes
    }
}

/// Whether the bytes are used up after which every call fails.
fn is_over(until: Option<usize>) -> bool
    ensures { result ≡ is_over until }
{
    match until {
        Some(left) => left == 0,
        None => false,
    }
}

/// So many bytes, or fewer where every call fails after fewer.
fn at_most(until: Option<usize>, n: usize) -> usize
    ensures number { result ≡ at_most until n }
    ensures within { result ≤ n }
{
    match until {
        Some(left) => left.min(n),
        None => n,
    }
}

/// After so many bytes.
fn after(until: Option<usize>, n: usize) -> Option<usize>
    ensures { result ≡ after until n }
{
    match until {
        Some(left) => Some(left.saturating_sub(n)),
        None => None,
    }
}

impl Source for MemSource {
    ghost content = { λ s. Some s.left };

    ghost faults = { λ s. s.faults };

    fn read(&mut self, to: &mut [u8]) -> Result<usize, Failed>
        ensures within { IfOk result (λ n. n ≤ length to.new) }
        ensures takes { IfOk result (λ n. Takes (Some self.old.left) (take n to.new) (Some self.new.left)) }
        ensures end { IfOk result (λ n. n ≡ 0 → 0 < length to.old → self.old.left ≡ []) }
        ensures unchanged { OnErr result (Some self.new.left ≡ Some self.old.left) }
        ensures counts { self.old.faults ≤ self.new.faults }
        ensures cause { IsCounted result self.old.faults self.new.faults }
        ensures exact { is_err result ≡ is_over self.old.until }
        ensures number { IfOk result (λ n. n ≡ given_by self.old (length to.old)) }
        ensures rest { IfOk result (λ n. self.new
            ≡ record self.old { left = drop n self.old.left; until = after self.old.until n }) }
    {
        answer(&mut self.faults, is_over(self.until))?;
        let n = at_most(
            self.until,
            to.len().min(self.chunk).min(self.bytes.len() - self.given),
        );
        to[..n].copy_from_slice(&self.bytes[self.given..self.given + n]);
        self.given += n;
        self.until = after(self.until, n);
        Ok(n)
    }

    fn read_until(&mut self, last: u8, to: &mut [u8]) -> Result<usize, Failed> {
        let most = to
            .len()
            .min(length_through(&self.bytes[self.given..], last));
        self.read(&mut to[..most])
    }
}

impl Sink for MemSink {
    ghost content = { λ s. Some s.bytes };

    ghost faults = { λ s. s.faults };

    fn write(&mut self, from: &[u8]) -> Result<usize, Failed>
        ensures within { IfOk result (λ n. n ≤ length from.now) }
        ensures some { IfOk result (λ n. 0 < length from.now → 0 < n) }
        ensures adds { IfOk result (λ n. Adds (Some self.old.bytes) (take n from.now) (Some self.new.bytes)) }
        ensures unchanged { OnErr result (Some self.new.bytes ≡ Some self.old.bytes) }
        ensures counts { self.old.faults ≤ self.new.faults }
        ensures cause { IsCounted result self.old.faults self.new.faults }
        ensures exact { is_err result ≡ (is_over self.old.until || self.new.short) }
        ensures number { IfOk result (λ n. n ≡ at_most self.old.until (length from.now)) }
        ensures until { IfOk result (λ n. self.new.until ≡ after self.old.until n) }
    {
        let over = is_over(self.until);
        let n = at_most(self.until, from.len());
        self.short = !over && self.bytes.extend_from_slice(&from[..n]).is_err();
        answer(&mut self.faults, over | self.short)?;
        self.until = after(self.until, n);
        Ok(n)
    }
}
