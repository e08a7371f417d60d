//! The map of an image: which slot keeps which block.
ghost use Rattle.std.specs.Prelude.{◌≡◌, ◌≢◌, ℕ, ◌+◌, ◌*◌, ◌/◌, ◌<◌, ◌≤◌, ◌↔◌, Some, None, false, length, replicate, slice_set, IfOk, IsTrue, MatchOption};
ghost use Rattle.std.specs.Bool.{OnTrue, OnFalse};
ghost use Rattle.sm_base.specs.Numbers.{first};
ghost use Rattle.vhd_map.specs.Slots.{slot_of, is_used, used_count, top_of, least_free_slot, next_block, union_size, IsMap};
ghost use Rattle.vhd_map.specs.Places.{blank, code, word, Named, NamesFree, IsReadable, NamesSlots};

use crate::entries::{BLANK, PER_SECTOR, entry_at, entry_of, put_entry, slot_named};
use crate::words::{first_with_room, is_marked_slot};
use sm_base::{Geometry, NoMemory};
use std::alloc::Global;
use std::marker::Model;

/// The slots of an image's blocks: a list of T entries, each a slot or none. Each slot is below T and no
/// slot stands twice. A map only gains slots.
#[derive(Drop)]
pub struct Map {
    entries: Vec<u32>,
    used: Vec<u64>,
    count: u32,
    top: u32,
    least: usize,
}

impl Model for Map {
    ghost use Rattle.std.specs.Prelude.{List, Option, ℕ};

    ghost Value = { List (Option ℕ) };

    ghost use Rattle.vhd_map.specs.Kept.{kept_map, AgreesWithEntries};

    ghost view = { λ a. kept_map a.entries.items };

    ghost invariant = { λ a. AgreesWithEntries a.entries.items a.used.items a.count a.top a.least };
}

impl Map {
    /// A map of so many entries, all none. All room that a map ever needs is taken here: 4 bytes an entry
    /// and one bit a slot.
    pub fn blank(alloc: Global, entries: u32) -> Result<Map, NoMemory>
        ensures blank { IfOk result (λ m. m ≡ replicate entries None) }
    {
        let words = (entries / 64 + 1) as usize;
        let Ok(kept) = vec![in alloc; BLANK; entries as usize] else {
            return Err(NoMemory);
        };
        let Ok(used) = vec![in alloc; 0; words] else {
            return Err(NoMemory);
        };
        Ok(Map {
            entries: kept,
            used,
            count: 0,
            top: 0,
            least: 0,
        })
    }

    /// T, the number of entries.
    pub fn entries(&self) -> u32
        ensures { result ≡ length self.now }
    {
        self.entries.len() as u32
    }

    /// The slot of a block; None exactly where it has none.
    pub fn slot(&self, block: u32) -> Option<u32>
        requires { block < length self.now }
        ensures slot { result ≡ slot_of self.now block }
        ensures map { IsMap self.now }
    {
        match self.entries[block as usize] {
            BLANK => None,
            slot => Some(slot),
        }
    }

    /// Gives a block that has no slot this free slot.
    pub fn put(&mut self, block: u32, slot: u32)
        requires block_in { block < length self.old }
        requires without { slot_of self.old block ≡ None }
        requires free { is_used self.old slot ≡ false }
        requires slot_in { slot < length self.old }
        ensures { self.new ≡ slice_set self.old block (Some slot) }
    {
        self.entries[block as usize] = slot;
        self.used[(slot / 64) as usize] |= 1 << (slot % 64);
        self.count += 1;
        self.top = self.top.max(slot + 1);
        self.least = first_with_room(&self.used, self.least);
    }

    /// The number of slots in use.
    pub fn count(&self) -> u32
        ensures { result ≡ used_count self.now }
    {
        self.count
    }

    /// One more than the highest slot in use, else 0.
    pub fn top(&self) -> u32
        ensures top { result ≡ top_of self.now }
        ensures within { result ≤ length self.now }
    {
        self.top
    }

    /// The least number that is no slot in use. It is T where all slots below T are in use.
    pub fn least_free(&self) -> u32
        ensures least { result ≡ least_free_slot self.now }
        ensures free { is_used self.now result ≡ false }
    {
        let word = self.used[self.least];
        self.least as u32 * 64 + word.trailing_ones()
    }

    /// The least block at or after `from` that has a slot; None exactly where there is none.
    pub fn next(&self, from: u32) -> Option<u32>
        ensures { result ≡ next_block self.now from }
    {
        for block in from..self.entries() {
            if self.slot(block).is_some() {
                return Some(block);
            }
        }
        None
    }

    /// The number of blocks that have a slot in this map or in the other.
    pub fn union_count(&self, other: &Map) -> u32
        requires { length self.now ≡ length other.now }
        ensures { result ≡ union_size self.now other.now }
    {
        let mut blocks = 0;
        for block in 0..self.entries() {
            let here = self.slot(block);
            let there = other.slot(block);
            if here.is_some() || there.is_some() {
                blocks += 1;
            }
        }
        blocks
    }

    /// The slot is in use.
    fn is_in_use(&self, slot: u32) -> bool
        requires { slot < length self.now }
        ensures { result ≡ is_used self.now slot }
    {
        is_marked_slot(&self.used, slot)
    }

    /// The table's entry of a block. Entries past T are blank.
    fn entry(&self, geometry: &Geometry, block: u32) -> u32
        requires { length self.now ≡ geometry.now.entries }
        ensures { result ≡ code (first geometry.now.entries) geometry.now.block (slot_of self.now block) }
    {
        if block >= self.entries() {
            return BLANK;
        }
        match self.slot(block) {
            Some(slot) => entry_of(geometry, slot),
            None => BLANK,
        }
    }

    /// Writes sector `index` of the image's block allocation table: 128 entries, those past T all ones.
    pub fn write_sector(&self, index: u32, geometry: &Geometry, to: &mut [u8; 512])
        requires entries { length self.now ≡ geometry.now.entries }
        requires within { 128 * index < length self.now }
        ensures { (j : ℕ) → j < 128
            → word to.new j
            ≡ code (first geometry.now.entries) geometry.now.block (slot_of self.now (128 * index + j)) }
    {
        for j in 0..PER_SECTOR {
            put_entry(to, j, self.entry(geometry, PER_SECTOR * index + j));
        }
    }

    /// The slot that this block's entry names, where the block is one of the image's `blocks` and the slot
    /// is free and below `slots`.
    fn free_slot_named(
        &self,
        geometry: &Geometry,
        block: u32,
        blocks: u32,
        slots: u32,
        entry: u32,
    ) -> Option<u32>
        requires { slots ≤ length self.now }
        ensures { MatchOption result
            (¬ ((block < blocks)
            × NamesFree (first geometry.now.entries) geometry.now.block slots self.now entry))
            (λ slot. (block < blocks)
            × Named (first geometry.now.entries) geometry.now.block slots self.now entry slot) }
    {
        let slot = slot_named(geometry, entry)?;
        if block < blocks && slot < slots && !self.is_in_use(slot) {
            Some(slot)
        } else {
            None
        }
    }

    /// The slots that a sector of the table names, for each of its entries one, or `BLANK` for none; None
    /// where the sector can't be read.
    fn sector_slots(
        &self,
        index: u32,
        geometry: &Geometry,
        blocks: u32,
        slots: u32,
        bytes: &[u8; 512],
    ) -> Option<[u32; 128]>
        requires within { 128 * index < length self.now }
        requires slots_in { slots ≤ length self.now }
        requires entries { length self.now ≡ geometry.now.entries }
        ensures { MatchOption result
            (¬ IsReadable (first geometry.now.entries) geometry.now.block blocks slots self.now index bytes.now)
            (λ found. NamesSlots (first geometry.now.entries) geometry.now.block blocks slots self.now index
            bytes.now found 128) }
    {
        let mut found = [BLANK; 128];
        for j in 0..PER_SECTOR {
            let entry = entry_at(bytes, j);
            if entry != BLANK {
                let slot = self.free_slot_named(
                    geometry,
                    PER_SECTOR * index + j,
                    blocks,
                    slots,
                    entry,
                )?;
                if found[..j as usize].contains(&slot) {
                    return None;
                }
                found[j as usize] = slot;
            }
        }
        Some(found)
    }

    /// Reads sector `index` of the block allocation table of an image of `blocks` blocks, whose volume has
    /// `slots` slots, into the map's entries of that sector, all none before. It answers false, and leaves
    /// the map, exactly where an entry is neither blank nor names a slot below `slots` that is free, also
    /// of the sector's other entries, or where an entry past `blocks` is not blank.
    pub fn read_sector(
        &mut self,
        index: u32,
        geometry: &Geometry,
        blocks: u32,
        slots: u32,
        bytes: &[u8; 512],
    ) -> bool
        requires entries { length self.old ≡ geometry.now.entries }
        requires within { 128 * index < length self.old }
        requires blank { (block : ℕ) → block / 128 ≡ index → slot_of self.old block ≡ None }
        requires blocks_in { blocks ≤ length self.old }
        requires slots_in { slots ≤ length self.old }
        ensures readable { IsTrue result
            ↔ IsReadable (first geometry.now.entries) geometry.now.block blocks slots self.old index bytes.now }
        ensures read { OnTrue result ((j : ℕ) → j < 128
            → word bytes.now j
            ≡ code (first geometry.now.entries) geometry.now.block (slot_of self.new (128 * index + j))) }
        ensures others { (block : ℕ) → block / 128 ≢ index → slot_of self.new block ≡ slot_of self.old block }
        ensures long { length self.new ≡ length self.old }
        ensures unread { OnFalse result (self.new ≡ self.old) }
    {
        let Some(found) = self.sector_slots(index, geometry, blocks, slots, bytes) else {
            return false;
        };
        for j in 0..PER_SECTOR {
            let slot = found[j as usize];
            if slot != BLANK {
                self.put(PER_SECTOR * index + j, slot);
            }
        }
        true
    }
}
