//! Which calls of a device in memory fail.

ghost use Rattle.std.specs.Prelude.{◌≡◌, ◌-◌, map, min, false, nat_le, OnOk, OnErr};
ghost use Rattle.std.specs.Option.{option_map, option_map_or};
ghost use Rattle.sm_disk.specs.Failing.{Orders, HasPassed, Names, Stops, fails, comes_late, no_orders, passed};

use sm_base::NoMemory;
use std::alloc::Global;
use std::marker::Model;

/// What a call is told to do.
#[derive(Clone, Copy)]
pub struct Told {
    /// It fails.
    pub fails: bool,
    /// It does nothing, since the device has stopped before.
    pub late: bool,
}

/// The calls to come that fail, counted from 0, the next call.
#[derive(Drop)]
pub struct Failing {
    /// These calls fail.
    named: Vec<u64>,
    /// This call and every later one fail.
    stop: Option<u64>,
    /// The call that a stop named has come.
    stopped: bool,
}

impl Model for Failing {
    ghost use Rattle.sm_disk.specs.Failing.{Orders};

    ghost Value = { Orders };

    ghost view = { λ f. record { named = f.named.items; stop = f.stop; stopped = f.stopped } };
}

impl Failing {
    /// No call fails.
    pub fn new(alloc: Global) -> Self
        ensures { result ≡ no_orders }
    {
        Failing {
            named: Vec::new(alloc),
            stop: None,
            stopped: false,
        }
    }

    /// These calls fail too.
    pub fn name(&mut self, calls: &[u64]) -> Result<(), NoMemory>
        ensures named { OnOk result (Names calls.now self.old self.new) }
        ensures unchanged { OnErr result (self.new ≡ self.old) }
    {
        match self.named.extend_from_slice(calls) {
            Ok(()) => Ok(()),
            Err(_) => Err(NoMemory),
        }
    }

    /// This call and every later one fail too.
    pub fn stop(&mut self, call: u64)
        ensures { Stops call self.old self.new }
    {
        self.stop = Some(sooner(self.stop, call));
    }

    /// What the next call is told. After it, the call behind it is the next.
    pub fn pass(&mut self) -> Told
        ensures failing { result.fails ≡ fails self.old 0 }
        ensures late { result.late ≡ comes_late self.old 0 }
        ensures passed { HasPassed self.old self.new }
    {
        let told = Told {
            fails: self.fails_now(),
            late: self.stopped,
        };
        self.stopped |= is_due(self.stop);
        self.stop = count_down(self.stop);
        pass_by(&mut self.named);
        told
    }

    /// Whether the next call fails.
    fn fails_now(&self) -> bool
        ensures { result ≡ fails self.now 0 }
    {
        self.stopped | is_due(self.stop) | self.named.contains(&0)
    }
}

/// The sooner of two calls.
fn sooner(stop: Option<u64>, call: u64) -> u64
    ensures { result ≡ option_map_or (λ s. min s call) stop call }
{
    match stop {
        Some(first) => first.min(call),
        None => call,
    }
}

/// Whether the call is the next.
fn is_due(stop: Option<u64>) -> bool
    ensures { result ≡ option_map_or (λ s. nat_le s 0) stop false }
{
    match stop {
        Some(call) => call <= 0,
        None => false,
    }
}

/// Its number once a call has gone by.
fn count_down(stop: Option<u64>) -> Option<u64>
    ensures { result ≡ option_map (λ s. s - 1) stop }
{
    match stop {
        Some(call) => Some(call.saturating_sub(1)),
        None => None,
    }
}

/// Leaves out the numbers that are 0, and takes 1 from each other one.
fn pass_by(named: &mut Vec<u64>)
    ensures { named.new.items ≡ passed named.old.items }
{
    named.retain(|call| *call > 0);
    lower(named);
}

/// Takes 1 from each number that is not 0.
fn lower(named: &mut [u64])
    ensures { named.new ≡ map (λ n. n - 1) named.old }
{
    for call in named.iter_mut() {
        *call = call.saturating_sub(1);
    }
}
