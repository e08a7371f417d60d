//! The places of a device in memory.

ghost use Rattle.std.specs.Prelude.{◌≡◌, ◌-◌, ◌^◌, true, false, [], length, OnOk, OnErr, IfOk};
ghost use Rattle.std.specs.BTreeMap.{insert_entry};
ghost use Rattle.std.specs.Ordering.{nat_cmp};
ghost use Rattle.sm_disk.specs.Sectors.{IsSector};
ghost use Rattle.sm_disk.specs.Held.{Gave, IsSettled, IsWhole, Keeps, Torn, Wrote, SameHeld, reads};
ghost use Rattle.sm_disk.specs.Memory.{held_by, AllSectors, IsLeft, all_settled, pick};

use crate::slots::Slot;
use sm_base::NoMemory;
use std::alloc::Global;
use std::collections::BTreeMap;
use std::marker::Model;

/// The places that were written, by number. A place that was not written holds zeros.
#[derive(Drop)]
pub struct Places {
    slots: BTreeMap<u64, Slot>,
    alloc: Global,
}

impl Model for Places {
    ghost use Rattle.sm_disk.specs.Memory.{WrittenPlaces, AllSectors};

    ghost Value = { WrittenPlaces };

    ghost view = { λ p. p.slots.entries };

    ghost invariant = { λ p. AllSectors p.slots.entries };
}

impl Places {
    /// No place was written.
    pub fn new(alloc: Global) -> Places
        ensures { result ≡ [] }
    {
        Places {
            slots: BTreeMap::new(alloc),
            alloc,
        }
    }

    /// How many places were written.
    pub fn len(&self) -> usize
        ensures len { result ≡ length self.now }
        ensures sectors { AllSectors self.now }
    {
        self.slots.len()
    }

    /// One more pending value at a place.
    pub fn add(&mut self, place: u64, value: &[u8]) -> Result<(), NoMemory>
        requires { IsSector value.now }
        ensures added { OnOk result (Wrote place value.now (held_by self.old) (held_by self.new)) }
        ensures unchanged { OnErr result (SameHeld (held_by self.old) (held_by self.new)) }
    {
        if let Some(slot) = self.slots.get_mut(&place) {
            return slot.add(value);
        }
        let slot = Slot::new(self.alloc, value)?;
        match self.slots.insert(place, slot) {
            Ok(_) => Ok(()),
            Err(_) => Err(NoMemory),
        }
    }

    /// A sync, which does nothing where it fails.
    pub fn sync(&mut self, fails: bool)
        ensures keeps { Keeps (held_by self.old) (held_by self.new) }
        ensures settled { fails ≡ false → IsSettled (held_by self.new) }
        ensures unchanged { fails ≡ true → SameHeld (held_by self.old) (held_by self.new) }
    {
        if !fails {
            self.settle();
        }
    }

    /// Makes what is pending last.
    fn settle(&mut self)
        ensures { self.new ≡ all_settled self.old }
    {
        let alloc = self.alloc;
        self.slots.retain(|_, slot| {
            slot.settle(alloc);
            true
        });
    }

    /// Pending values from the place `at` on, sector by sector. Where memory runs out, some of them may be
    /// pending.
    pub fn add_all(&mut self, at: u64, from: &[u8]) -> Result<(), NoMemory>
        requires { IsWhole at (length from.now) (2 ^ 64 - 1) }
        ensures torn { Torn at from.now (held_by self.old) (held_by self.new) }
        ensures wrote { OnOk result (Wrote at from.now (held_by self.old) (held_by self.new)) }
    {
        for i in 0..from.len() / 512 {
            self.add(at + i as u64, &from[512 * i..512 * i + 512])?;
        }
        Ok(())
    }

    /// A write, which does nothing where it comes late. Answers whether memory ran out.
    pub fn write(&mut self, late: bool, at: u64, from: &[u8]) -> bool
        requires { IsWhole at (length from.now) (2 ^ 64 - 1) }
        ensures torn { Torn at from.now (held_by self.old) (held_by self.new) }
        ensures adds { late ≡ false → result ≡ false → Wrote at from.now (held_by self.old) (held_by self.new) }
        ensures late { late ≡ true → (result ≡ false) × SameHeld (held_by self.old) (held_by self.new) }
    {
        if late {
            return false;
        }
        match self.add_all(at, from) {
            Ok(()) => false,
            Err(_) => true,
        }
    }

    /// What a read gives at a place.
    fn newest(&self, place: u64) -> [u8; 512]
        ensures { result ≡ reads (held_by self.now) place }
    {
        match self.slots.get(&place) {
            Some(slot) => *slot.newest(),
            None => [0; 512],
        }
    }

    /// What a read gives from the place `at` on.
    pub fn copy(&self, at: u64, to: &mut [u8])
        requires { IsWhole at (length to.old) (2 ^ 64 - 1) }
        ensures { Gave at (held_by self.now) to.new }
    {
        for i in 0..to.len() / 512 {
            let sector = self.newest(at + i as u64);
            to[512 * i..512 * i + 512].copy_from_slice(&sector);
        }
    }

    /// What a crash leaves: the i-th place with pending values, in rising order, takes the number
    /// `choice[i mod length]`. An empty choice takes all floors.
    pub fn left(&self, alloc: Global, choice: &[u32]) -> Result<Places, NoMemory>
        ensures { IfOk result (λ p. IsLeft choice.now (held_by self.now) (held_by p)) }
    {
        let mut slots = BTreeMap::new(alloc);
        let mut before = 0;
        for (place, slot) in &self.slots {
            let slot_left = Slot::at_rest(alloc, *slot.value(pick(choice, before)));
            before += slot.weight();
            put(&mut slots, *place, slot_left)?;
        }
        Ok(Places { slots, alloc })
    }
}

/// The map with one more slot.
fn put(slots: &mut BTreeMap<u64, Slot>, place: u64, slot: Slot) -> Result<(), NoMemory>
    ensures { OnOk result (slots.new.entries ≡ insert_entry nat_cmp slots.old.entries place slot) }
{
    match slots.insert(place, slot) {
        Ok(_) => Ok(()),
        Err(_) => Err(NoMemory),
    }
}

/// The number for the place that has so many others before it.
fn pick(choice: &[u32], before: usize) -> u32
    ensures { result ≡ pick choice.now before }
{
    if choice.is_empty() {
        return 0;
    }
    choice[before % choice.len()]
}
