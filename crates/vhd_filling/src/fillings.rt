//! A new image while it is filled.

ghost use Rattle.std.specs.Prelude.{◌≡◌, ℕ, ◌+◌, ◌/◌, ◌<◌, Some, None, ◌↔◌, IsTrue, OnOk, OnErr, IfOk, replicate};
ghost use Rattle.sm_disk.specs.Sectors.{zeros};
ghost use Rattle.sm_disk.specs.Held.{reads};
ghost use Rattle.vhd_map.specs.Slots.{slot_of, used_count};
ghost use Rattle.vhd_layout.specs.Images.{EachSlotHolds};
ghost use Rattle.vhd_layout.specs.Layouts.{Sectors};
ghost use Rattle.vg_volumes.specs.Stored.{stored, sectors_in, held_in, SameBeside, WorksOn, Counts};
ghost use Rattle.vhd_volumes.specs.Steps.{Holds, Gives};
ghost use Rattle.vhd_volumes.specs.Truth.{HasRoomIn, layout_now};
ghost use Rattle.vhd_image.specs.Bodies.{StandsIn};
ghost use Rattle.vhd_image.specs.Made.{IsDiskSize, new_head};
ghost use Rattle.vhd_image.specs.Opened.{ReadsAsImage};
ghost use Rattle.vhd_image.specs.declared.images.Body.TheVariants.{Vhd};
ghost use Rattle.vhd_filling.specs.Filled.{GoesOn, Fills, HasBitmaps, HasBlocksBelow, HasSectors, TakesSlot, HoldsSame, IsPut, IsSound, held, held_now, is_block, slots_taken, with_slot};

use crate::calls::{get, put, slot_place};
use crate::pages::{clear, is_blank, page_of, put_sector};
use sm_base::{Failed, Geometry, Name, NoMemory};
use std::alloc::Global;
use uuid::Uuid;
use vg_volumes::Store;
use vhd_image::Image;
use vhd_map::Map;

/// A new image while it is filled: the map of the blocks that were begun, and the page of one of them. Slots are taken in rising order.
#[derive(Drop)]
pub struct Filling {
    volume: Name,
    geometry: Geometry,
    map: Map,
    block: Option<u32>,
    page: Vec<u8>,
}

impl Filling {
    /// An image in which no sector was put yet. All memory is taken here: 4 bytes an entry and one bit a slot, and one page.
    pub fn new(alloc: Global, volume: Name, geometry: Geometry) -> Result<Filling, NoMemory>
        ensures sound { IfOk result IsSound }
        ensures volume { IfOk result (λ f. f.volume ≡ volume) }
        ensures geometry { IfOk result (λ f. f.geometry ≡ geometry) }
        ensures map { IfOk result (λ f. f.map ≡ replicate geometry.entries None) }
        ensures slots { IfOk result (λ f. slots_taken f ≡ 0) }
        ensures blocks { IfOk result (λ f. (count : ℕ) → HasBlocksBelow count f) }
        ensures bitmaps { IfOk result (λ f. (v : Sectors) → HasBitmaps f v) }
        // Nothing was put: each sector is zeros.
        ensures held { IfOk result (λ f. (v : Sectors) (s : ℕ) → held f v s ≡ zeros) }
    {
        let map = Map::blank(alloc, geometry.entries)?;
        let page = page_of(alloc, geometry.block)?;
        Ok(Filling {
            volume,
            geometry,
            map,
            block: None,
            page,
        })
    }

    /// The number of slots that were taken.
    pub fn slots(&self) -> u32
        ensures { result ≡ slots_taken self.now }
    {
        self.map.count()
    }

    /// The block of a sector of the disk.
    fn block_of(&self, sector: u64) -> u32
        requires within { sector / self.now.geometry.block < self.now.geometry.entries }
        ensures { result ≡ sector / self.now.geometry.block }
    {
        (sector / u64::from(self.geometry.block)) as u32
    }

    /// A sector that is put with these bytes takes a slot: they are not all zeros, and the sector's block has no slot.
    pub fn takes_slot(&self, sector: u64, bytes: &[u8; 512]) -> bool
        requires sound { IsSound self.now }
        requires within { sector / self.now.geometry.block < self.now.geometry.entries }
        ensures { IsTrue result ↔ TakesSlot self.now sector bytes.now }
    {
        !is_blank(bytes) && self.map.slot(self.block_of(sector)).is_none()
    }

    /// A sector that is put with these bytes changes nothing: they are all zeros, and the sector's block has no slot.
    fn passes(&self, sector: u64, bytes: &[u8; 512]) -> bool
        requires sound { IsSound self.now }
        requires within { sector / self.now.geometry.block < self.now.geometry.entries }
        ensures { IsTrue result ↔ ((bytes.now ≡ zeros) × (slot_of self.now.map (sector / self.now.geometry.block) ≡ None)) }
    {
        is_blank(bytes) && self.map.slot(self.block_of(sector)).is_none()
    }

    /// The page is of this block.
    fn is_at(&self, block: u32) -> bool
        ensures { result ≡ is_block block self.now.block }
    {
        match self.block {
            Some(here) => here == block,
            None => false,
        }
    }

    /// Writes the page at its block's slot; it is of no block then.
    fn leave<S: Store>(&mut self, store: &mut S) -> Result<(), Failed>
        requires fills { Fills S.Store self.old store.old }
        requires room { HasRoomIn (stored S.Store store.old) self.old.volume (slots_taken self.old) }
        ensures works { WorksOn S.Store self.old.volume store.old store.new }
        ensures cause { Counts S.Store result store.old store.new }
        ensures beside { S.told → SameBeside self.old.volume (stored S.Store store.old) (stored S.Store store.new) }
        ensures fills { OnOk result (Fills S.Store self.new store.new) }
        ensures left { OnOk result (self.new.block ≡ None) }
        ensures goes_on { OnOk result (GoesOn self.old.map self.old self.new) }
        ensures held { OnOk result (S.told → HoldsSame (held_now S.Store self.old store.old) (held_now S.Store self.new store.new)) }
    {
        let Some(block) = self.block else {
            return Ok(());
        };
        let Some(slot) = self.map.slot(block) else {
            unreachable!()
        };
        put(
            store,
            &self.volume,
            slot_place(&self.geometry, slot),
            &self.page,
        )?;
        self.block = None;
        Ok(())
    }

    /// Reads the page of a block back from its slot.
    fn resume<S: Store>(&mut self, store: &mut S, block: u32, slot: u32) -> Result<(), Failed>
        requires fills { Fills S.Store self.old store.old }
        requires free { self.old.block ≡ None }
        requires slot { slot_of self.old.map block ≡ Some slot }
        requires room { HasRoomIn (stored S.Store store.old) self.old.volume (slots_taken self.old) }
        ensures works { WorksOn S.Store self.old.volume store.old store.new }
        ensures cause { Counts S.Store result store.old store.new }
        ensures beside { S.told → SameBeside self.old.volume (stored S.Store store.old) (stored S.Store store.new) }
        ensures fills { OnOk result (Fills S.Store self.new store.new) }
        ensures at { OnOk result (self.new.block ≡ Some block) }
        ensures goes_on { OnOk result (GoesOn self.old.map self.old self.new) }
        ensures held { OnOk result (S.told → HoldsSame (held_now S.Store self.old store.old) (held_now S.Store self.new store.new)) }
    {
        get(
            store,
            &self.volume,
            slot_place(&self.geometry, slot),
            &mut self.page,
        )?;
        self.block = Some(block);
        Ok(())
    }

    /// Begins the page of a block that has no slot: it gets the next one.
    fn begin(&mut self, block: u32)
        requires sound { IsSound self.old }
        requires free { self.old.block ≡ None }
        requires within { block < self.old.geometry.entries }
        requires without { slot_of self.old.map block ≡ None }
        ensures sound { IsSound self.new }
        ensures at { self.new.block ≡ Some block }
        ensures goes_on { GoesOn (with_slot block self.old.map) self.old self.new }
        ensures bitmaps { (v : Sectors) → HasBitmaps self.old v → HasBitmaps self.new v }
        ensures held { (v : Sectors) → HoldsSame (held self.old v) (held self.new v) }
    {
        let slot = self.map.count();
        self.map.put(block, slot);
        clear(&mut self.page);
        self.block = Some(block);
    }

    /// Makes the page that of a block: what it was of is written, and the block's sectors are read back, or begun as zeros.
    fn turn_to<S: Store>(&mut self, store: &mut S, block: u32) -> Result<(), Failed>
        requires fills { Fills S.Store self.old store.old }
        requires within { block < self.old.geometry.entries }
        requires room { HasRoomIn (stored S.Store store.old) self.old.volume (used_count (with_slot block self.old.map)) }
        ensures works { WorksOn S.Store self.old.volume store.old store.new }
        ensures cause { Counts S.Store result store.old store.new }
        ensures beside { S.told → SameBeside self.old.volume (stored S.Store store.old) (stored S.Store store.new) }
        ensures fills { OnOk result (Fills S.Store self.new store.new) }
        ensures at { OnOk result (self.new.block ≡ Some block) }
        ensures goes_on { OnOk result (GoesOn (with_slot block self.old.map) self.old self.new) }
        ensures held { OnOk result (S.told → HoldsSame (held_now S.Store self.old store.old) (held_now S.Store self.new store.new)) }
    {
        if self.is_at(block) {
            return Ok(());
        }
        self.leave(store)?;
        match self.map.slot(block) {
            Some(slot) => self.resume(store, block, slot),
            None => {
                self.begin(block);
                Ok(())
            }
        }
    }

    /// Puts a sector of the disk into its block, which gets a slot where it has none.
    fn put_held<S: Store>(
        &mut self,
        store: &mut S,
        sector: u64,
        bytes: &[u8; 512],
    ) -> Result<(), Failed>
        requires fills { Fills S.Store self.old store.old }
        requires within { sector / self.old.geometry.block < self.old.geometry.entries }
        requires room { HasRoomIn (stored S.Store store.old) self.old.volume
            (used_count (with_slot (sector / self.old.geometry.block) self.old.map)) }
        ensures works { WorksOn S.Store self.old.volume store.old store.new }
        ensures cause { Counts S.Store result store.old store.new }
        ensures beside { S.told → SameBeside self.old.volume (stored S.Store store.old) (stored S.Store store.new) }
        ensures fills { OnOk result (Fills S.Store self.new store.new) }
        ensures goes_on { OnOk result (GoesOn (with_slot (sector / self.old.geometry.block) self.old.map) self.old self.new) }
        ensures held { OnOk result (S.told
            → IsPut sector bytes.now (held_now S.Store self.old store.old) (held_now S.Store self.new store.new)) }
    {
        let block = self.block_of(sector);
        let part = (sector % u64::from(self.geometry.block)) as usize;
        self.turn_to(store, block)?;
        put_sector(&mut self.page, 1 + part, bytes);
        Ok(())
    }

    /// Puts a sector of the disk into its block, which gets a slot where it has none. Bytes that are all zeros do nothing in a block
    /// without a slot.
    ///
    /// # Errors
    ///
    /// The store failed; what the image holds then is open, and nothing more may be put.
    pub fn put<S: Store>(
        &mut self,
        store: &mut S,
        sector: u64,
        bytes: &[u8; 512],
    ) -> Result<(), Failed>
        requires fills { Fills S.Store self.old store.old }
        requires within { sector / self.old.geometry.block < self.old.geometry.entries }
        requires room { HasRoomIn (stored S.Store store.old) self.old.volume (slots_taken self.old) }
        requires room_more { TakesSlot self.old sector bytes.now
            → HasRoomIn (stored S.Store store.old) self.old.volume (slots_taken self.old + 1) }
        ensures works { WorksOn S.Store self.old.volume store.old store.new }
        ensures cause { Counts S.Store result store.old store.new }
        // Each other place of the store is as it was: so nothing is synced.
        ensures beside { S.told → SameBeside self.old.volume (stored S.Store store.old) (stored S.Store store.new) }
        ensures fills { OnOk result (Fills S.Store self.new store.new) }
        ensures volume { OnOk result (self.new.volume ≡ self.old.volume) }
        ensures geometry { OnOk result (self.new.geometry ≡ self.old.geometry) }
        ensures as_many { OnOk result ((TakesSlot self.old sector bytes.now → ⊥) → slots_taken self.new ≡ slots_taken self.old) }
        ensures one_more { OnOk result (TakesSlot self.old sector bytes.now → slots_taken self.new ≡ slots_taken self.old + 1) }
        // A block gets a slot where bytes that are not all zeros are put into it, and no other one does.
        ensures map { OnOk result ((TakesSlot self.old sector bytes.now → ⊥) → self.new.map ≡ self.old.map) }
        ensures map_more { OnOk result (TakesSlot self.old sector bytes.now
            → self.new.map ≡ with_slot (sector / self.old.geometry.block) self.old.map) }
        ensures blocks { OnOk result ((count : ℕ) → sector / self.old.geometry.block < count
            → HasBlocksBelow count self.old → HasBlocksBelow count self.new) }
        ensures held { OnOk result (S.told
            → IsPut sector bytes.now (held_now S.Store self.old store.old) (held_now S.Store self.new store.new)) }
    {
        if self.passes(sector, bytes) {
            return Ok(());
        }
        self.put_held(store, sector, bytes)
    }

    /// Writes the page, and head and table of an image without a parent with what was put: so many sectors, a whole number of
    /// blocks, made `now`, in seconds since the beginning of the year 2000. It makes no sync, which no clause says.
    ///
    /// # Errors
    ///
    /// The store failed; what the volume holds then is open.
    pub fn finish<S: Store>(
        mut self,
        store: &mut S,
        uid: Uuid,
        sectors: u64,
        now: u32,
    ) -> Result<Image, Failed>
        requires fills { Fills S.Store self store.old }
        requires room { HasRoomIn (stored S.Store store.old) self.volume (slots_taken self) }
        requires size { IsDiskSize (S.site store.old).geometry sectors }
        requires blocks { HasBlocksBelow (sectors / self.geometry.block) self }
        ensures works { WorksOn S.Store self.volume store.old store.new }
        ensures cause { Counts S.Store result store.old store.new }
        ensures fields { IfOk result (λ image. image ≡ Vhd
            (new_head (S.site store.old).geometry self.volume now sectors uid None) self.map) }
        ensures stands { IfOk result (StandsIn (S.site store.old).geometry (sectors_in (stored S.Store store.old) self.volume)) }
        // A read of the volume gives this image, with a sector in each slot.
        ensures image { OnOk result (Holds S.Store self.volume
            (λ h. ReadsAsImage (S.site store.old).geometry (sectors_in (stored S.Store store.old) self.volume) h
            (new_head (S.site store.old).geometry self.volume now sectors uid None) self.map) store.new) }
        ensures holding { OnOk result (Gives S.Store self.volume
            (EachSlotHolds (S.site store.old).geometry.block (S.site store.old).geometry.entries) store.new) }
        // And its sectors are those that were put.
        ensures held { OnOk result (S.told → HasSectors (layout_now (stored S.Store store.old)
            (new_head (S.site store.old).geometry self.volume now sectors uid None)) sectors (held_now S.Store self store.old)
            (reads (held_in (stored S.Store store.new) self.volume))) }
    {
        self.leave(store)?;
        let Filling { volume, map, .. } = self;
        Image::seal(store, &volume, map, uid, sectors, None, now)
    }
}
