//! The places of a device in memory that were written.

ghost use Rattle.std.specs.Prelude.{◌≡◌, [], ◌∷◌, ◌++◌, length, OnOk, OnErr, IfOk};
ghost use Rattle.sm_disk.specs.Sectors.{zeros};
ghost use Rattle.sm_disk.specs.Held.{newest};
ghost use Rattle.sm_disk.specs.Memory.{settled, value_of, weight};

use sm_base::NoMemory;
use std::alloc::Global;
use std::marker::Model;

/// One place: its floor, and the values that are pending there.
#[derive(Drop)]
pub struct Slot {
    floor: [u8; 512],
    pending: Vec<[u8; 512]>,
}

impl Model for Slot {
    ghost use Rattle.sm_disk.specs.Memory.{HeldPlace};

    ghost Value = { HeldPlace };

    ghost view = { λ s. record { floor = s.floor; pending = s.pending.items } };
}

impl Slot {
    /// A place that held zeros, and one value pending there.
    pub fn new(alloc: Global, value: &[u8]) -> Result<Slot, NoMemory>
        requires { length value.now ≡ 512 }
        ensures { IfOk result (λ s. s ≡ record { floor = zeros; pending = value.now ∷ [] }) }
    {
        let mut slot = Slot {
            floor: [0; 512],
            pending: Vec::new(alloc),
        };
        slot.add(value)?;
        Ok(slot)
    }

    /// A place that holds a value, and nothing pending.
    pub fn at_rest(alloc: Global, floor: [u8; 512]) -> Slot
        ensures { result ≡ record { floor = floor; pending = [] } }
    {
        Slot {
            floor,
            pending: Vec::new(alloc),
        }
    }

    /// One more pending value.
    pub fn add(&mut self, value: &[u8]) -> Result<(), NoMemory>
        requires { length value.now ≡ 512 }
        ensures added { OnOk result (self.new
            ≡ record { floor = self.old.floor; pending = self.old.pending ++ value.now ∷ [] }) }
        ensures unchanged { OnErr result (self.new ≡ self.old) }
    {
        let mut sector = [0; 512];
        sector.copy_from_slice(value);
        match self.pending.push(sector) {
            Ok(()) => Ok(()),
            Err(_) => Err(NoMemory),
        }
    }

    /// What a read gives.
    pub fn newest(&self) -> &[u8; 512]
        ensures { result.now ≡ newest self.now.floor self.now.pending }
    {
        match self.pending.last() {
            Some(value) => value,
            None => &self.floor,
        }
    }

    /// What a sync leaves.
    pub fn settle(&mut self, alloc: Global)
        ensures { self.new ≡ settled self.old }
    {
        self.floor = *self.newest();
        self.pending = Vec::new(alloc);
    }

    /// 1 where a value is pending, else 0.
    pub fn weight(&self) -> usize
        ensures { result ≡ weight self.now.pending }
    {
        self.pending.len().min(1)
    }

    /// The value with this number: 0 is the floor, k the k-th pending one, and so round.
    pub fn value(&self, number: u32) -> &[u8; 512]
        ensures { result.now ≡ value_of self.now number }
    {
        let values = self.pending.len() + 1;
        match number as usize % values {
            0 => &self.floor,
            k => &self.pending[k - 1],
        }
    }
}
