//! A device in memory, whose calls fail as they are told to.

ghost use Rattle.std.specs.Prelude.{◌≡◌, ◌≤◌, ◌+◌, ◌-◌, ◌^◌, ◌||◌, min, true, false, length, is_err, Ok, OnOk, OnErr, IfOk};
ghost use Rattle.sm_disk.specs.Held.{Allows, Gave, HasSectors, IsSettled, IsCounted, IsWhole, Keeps, SameHeld, Torn, Wrote};
ghost use Rattle.sm_disk.specs.Failing.{HasPassed, Names, Stops, comes_late, fails};
ghost use Rattle.sm_disk.specs.Memory.{IsCrashImage, Memory, held_by, new_memory};

use crate::counts::answer;
use crate::devices::Disk;
use crate::failing::Failing;
use crate::places::Places;
use sm_base::{Failed, NoMemory};
use std::alloc::Global;
use std::marker::Model;

/// A device in memory. It keeps only the sectors that were written, and tells what it holds.
#[derive(Drop)]
pub struct MemDisk {
    sectors: u64,
    places: Places,
    failing: Failing,
    faults: u64,
    read_calls: u64,
    short: bool,
}

impl Model for MemDisk {
    ghost use Rattle.sm_disk.specs.Memory.{Memory};

    ghost Value = { Memory };

    ghost view = { λ d. record {
      sectors = d.sectors;
      slots = d.places;
      orders = d.failing;
      faults = d.faults;
      read_calls = d.read_calls;
      short = d.short;
    } };

    ghost use Rattle.std.specs.Prelude.{◌≤◌, ◌-◌, ◌^◌};

    ghost invariant = { λ d. d.sectors ≤ 2 ^ 64 - 1 };
}

impl MemDisk {
    /// A device of so many sectors, all zeros, of which no call fails.
    pub fn new(alloc: Global, sectors: u64) -> Result<MemDisk, NoMemory>
        ensures { result ≡ Ok (new_memory sectors) }
    {
        Ok(MemDisk {
            sectors,
            places: Places::new(alloc),
            failing: Failing::new(alloc),
            faults: 0,
            read_calls: 0,
            short: false,
        })
    }

    /// The calls with these numbers fail, counted from 0, the next call, over `read`, `write` and `sync`.
    /// A write among them still leaves all its sectors pending.
    pub fn fail(&mut self, _alloc: Global, calls: &[u64]) -> Result<(), NoMemory>
        ensures named { OnOk result (Names calls.now self.old.orders self.new.orders) }
        ensures rest { self.new ≡ record self.old { orders = self.new.orders } }
        ensures unchanged { OnErr result (self.new ≡ self.old) }
    {
        self.failing.name(calls)?;
        Ok(())
    }

    /// This call and every later one fail. A write leaves all its sectors pending where it is this call,
    /// and none where it is a later one.
    pub fn stop(&mut self, call: u64)
        ensures stops { Stops call self.old.orders self.new.orders }
        ensures rest { self.new ≡ record self.old { orders = self.new.orders } }
    {
        self.failing.stop(call);
    }

    /// A crash image. The i-th place with pending values, in rising order, m values there, takes number
    /// `choice[i mod length] mod (m + 1)`: 0 is the floor, k the k-th value. An empty choice takes all
    /// floors. The result has nothing pending, and no call of it fails.
    pub fn left(&self, alloc: Global, choice: &[u32]) -> Result<MemDisk, NoMemory>
        ensures image { IfOk result (λ d. IsCrashImage choice.now self.now d) }
        ensures allowed { IfOk result (λ d. Allows self.now.sectors (held_by self.now.slots) (held_by d.slots).floor) }
    {
        Ok(MemDisk {
            sectors: self.sectors,
            places: self.places.left(alloc, choice)?,
            failing: Failing::new(alloc),
            faults: 0,
            read_calls: 0,
            short: false,
        })
    }

    /// How often `read` was called, up to 2^64 - 1.
    pub fn reads(&self) -> u64
        ensures { result ≡ self.now.read_calls }
    {
        self.read_calls
    }
}

impl Disk for MemDisk {
    ghost told = { Unit {0} };

    ghost held = { λ d. held_by d.slots };

    ghost size = { λ d. d.sectors };

    ghost faults = { λ d. d.faults };

    fn sectors(&self) -> u64 {
        let _places = self.places.len();
        self.sectors
    }

    fn read(&mut self, at: u64, to: &mut [u8]) -> Result<(), Failed>
        requires { IsWhole at (length to.old) self.old.sectors }
        ensures size { self.new.sectors ≡ self.old.sectors }
        ensures counts { self.old.faults ≤ self.new.faults }
        ensures cause { IsCounted result self.old.faults self.new.faults }
        ensures same { SameHeld (held_by self.old.slots) (held_by self.new.slots) }
        ensures gave { OnOk result (Gave at (held_by self.old.slots) to.new) }
        ensures exact { is_err result ≡ fails self.old.orders 0 }
        ensures passed { HasPassed self.old.orders self.new.orders }
        ensures read_calls { self.new.read_calls ≡ min (self.old.read_calls + 1) (2 ^ 64 - 1) }
    {
        let told = self.failing.pass();
        self.read_calls = self.read_calls.saturating_add(1);
        if !told.fails {
            self.places.copy(at, to);
        }
        answer(&mut self.faults, told.fails)
    }

    fn write(&mut self, at: u64, from: &[u8]) -> Result<(), Failed>
        requires { IsWhole at (length from.now) self.old.sectors }
        ensures size { self.new.sectors ≡ self.old.sectors }
        ensures counts { self.old.faults ≤ self.new.faults }
        ensures cause { IsCounted result self.old.faults self.new.faults }
        ensures torn { Torn at from.now (held_by self.old.slots) (held_by self.new.slots) }
        ensures wrote { OnOk result (Wrote at from.now (held_by self.old.slots) (held_by self.new.slots)) }
        ensures exact { is_err result ≡ (fails self.old.orders 0 || self.new.short) }
        ensures adds { comes_late self.old.orders 0 ≡ false → self.new.short ≡ false
            → Wrote at from.now (held_by self.old.slots) (held_by self.new.slots) }
        ensures late { comes_late self.old.orders 0 ≡ true → SameHeld (held_by self.old.slots) (held_by self.new.slots) }
        ensures passed { HasPassed self.old.orders self.new.orders }
        ensures read_calls { self.new.read_calls ≡ self.old.read_calls }
    {
        let told = self.failing.pass();
        self.short = self.places.write(told.late, at, from);
        answer(&mut self.faults, told.fails | self.short)
    }

    fn sync(&mut self) -> Result<(), Failed>
        ensures size { self.new.sectors ≡ self.old.sectors }
        ensures counts { self.old.faults ≤ self.new.faults }
        ensures cause { IsCounted result self.old.faults self.new.faults }
        ensures keeps { Keeps (held_by self.old.slots) (held_by self.new.slots) }
        ensures settled { OnOk result (IsSettled (held_by self.new.slots)) }
        ensures unchanged { OnErr result (SameHeld (held_by self.old.slots) (held_by self.new.slots)) }
        ensures exact { is_err result ≡ fails self.old.orders 0 }
        ensures passed { HasPassed self.old.orders self.new.orders }
        ensures read_calls { self.new.read_calls ≡ self.old.read_calls }
    {
        let told = self.failing.pass();
        self.places.sync(told.fails);
        answer(&mut self.faults, told.fails)
    }
}
