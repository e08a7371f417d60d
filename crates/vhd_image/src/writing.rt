//! A guest's write, and a write of some sectors of one block.

ghost use Rattle.std.specs.Prelude.{◌≡◌, ◌+◌, ◌*◌, ◌≤◌, false, length, OnOk, OnErr};
ghost use Rattle.sm_disk.specs.Held.{IsWhole};
ghost use Rattle.vg_volumes.specs.Stored.{stored, sectors_in, WorksOn, Counts};
ghost use Rattle.vhd_volumes.specs.Steps.{Holds, Does};
ghost use Rattle.vhd_volumes.specs.Writes.{KeepsHeads};
ghost use Rattle.vhd_image.specs.Bodies.{StandsIn, TrueIn, sector_count, volume_name, ImageStands, ImageIsTrue, IfVhdDoes};
ghost use Rattle.vhd_image.specs.Written.{HasPut, HasRoomForBlock, HasRoomToWrite, IsPutting, IsWriting, BodyKeepsToPlaces, IsBodyWritten, MarksKeepToPlaces, MayHaveGrown, MayHaveSlot, with_slot, written};
ghost use Rattle.vhd_write.specs.Marks.{HasMark, PutsMarkedIn};

use crate::images::{Body, Image};
use sm_base::Failed;
use vg_volumes::Store;
use vhd_write::{Payload, put_marked, put_payload};

impl Image {
    /// Writes whole sectors of the disk into the image, at least one, from a sector of the disk on. A block that has no
    /// slot gets the map's least free one. It takes no memory, and puts nothing in the volume but what it has to. What
    /// it writes lasts once the store is synced.
    ///
    /// # Errors
    ///
    /// The store failed; in memory some of the blocks may have their new slots.
    pub fn write<S: Store>(
        &mut self,
        store: &mut S,
        sector: u64,
        from: &Payload<'_>,
    ) -> Result<(), Failed>
        requires usable { S.failed store.old ≡ false }
        requires stands { ImageStands (stored S.Store store.old) self.old }
        requires true_now { S.told → ImageIsTrue (stored S.Store store.old) self.old }
        requires whole { IsWhole sector (length from.now) (sector_count self.old) }
        requires room { HasRoomToWrite (S.site store.old).geometry
            (sectors_in (stored S.Store store.old) (volume_name self.old)) sector (length from.now) self.old }
        ensures works { WorksOn S.Store (volume_name self.old) store.old store.new }
        ensures cause { Counts S.Store result store.old store.new }
        ensures guarded { Does S.Store (volume_name self.old)
            (IsWriting (S.site store.old).geometry
            (sectors_in (stored S.Store store.old)
            (volume_name self.old)) self.old sector from.now) store.old store.new }
        // A raw image's sectors with their bytes; in a VHD image these, and bits and entries of their blocks.
        ensures places { Does S.Store (volume_name self.old)
            (BodyKeepsToPlaces (S.site store.old).geometry
            (sectors_in (stored S.Store store.old)
            (volume_name self.old)) self.old sector from.now) store.old store.new }
        // The copy of the footer, the header and the last sector stay.
        ensures heads { IfVhdDoes S.Store self.old (λ head m. KeepsHeads
            (sectors_in (stored S.Store store.old) head.volume)) store.old store.new }
        ensures grown { MayHaveGrown self.old self.new }
        ensures map { OnOk result (self.new ≡ written (S.site store.old).geometry.block sector (length from.now) self.old) }
        ensures stands_after { OnOk result (StandsIn (S.site store.old).geometry
            (sectors_in (stored S.Store store.old) (volume_name self.old)) self.new) }
        ensures true_after { OnOk result (Holds S.Store (volume_name self.old)
            (λ h. TrueIn (S.site store.old).geometry
            (sectors_in (stored S.Store store.old) (volume_name self.old)) h self.new) store.new) }
        ensures written { OnOk result (Does S.Store (volume_name self.old)
            (IsBodyWritten (S.site store.old).geometry
            (sectors_in (stored S.Store store.old)
            (volume_name self.old)) self.old sector from.now) store.old store.new) }
    {
        match &mut self.body {
            Body::Raw { volume, sectors } => {
                // A disk's sectors are counted by a u64.
                let _sectors = *sectors;
                put_payload(store, volume, sector, from)?;
                Ok(())
            }
            Body::Vhd { head, map } => {
                vhd_write::write(store, head, map, sector, from)?;
                Ok(())
            }
        }
    }

    /// Writes the marked sectors of one block of the disk, at least one; `bytes` are those of the whole block, of which only the
    /// marked ones are read. A block that has no slot gets the map's least free one. It takes no memory, makes one sync at most,
    /// and puts nothing in the volume but what it has to. What it writes lasts once the store is synced.
    ///
    /// # Errors
    ///
    /// The store failed; in memory the block may have its new slot.
    pub fn write_marked<S: Store>(
        &mut self,
        store: &mut S,
        block: u32,
        marks: &[u8; 512],
        bytes: &[u8],
    ) -> Result<(), Failed>
        requires usable { S.failed store.old ≡ false }
        requires stands { ImageStands (stored S.Store store.old) self.old }
        requires true_now { S.told → ImageIsTrue (stored S.Store store.old) self.old }
        requires within { block * (S.site store.old).geometry.block + (S.site store.old).geometry.block ≤ sector_count self.old }
        requires some { HasMark (S.site store.old).geometry.block marks.now }
        requires long { length bytes.now ≡ 512 * (S.site store.old).geometry.block }
        requires room { HasRoomForBlock (S.site store.old).geometry
            (sectors_in (stored S.Store store.old) (volume_name self.old)) block self.old }
        ensures works { WorksOn S.Store (volume_name self.old) store.old store.new }
        ensures cause { Counts S.Store result store.old store.new }
        ensures guarded { Does S.Store (volume_name self.old)
            (IsPutting (S.site store.old).geometry
            (sectors_in (stored S.Store store.old) (volume_name self.old)) self.old
            (PutsMarkedIn (S.site store.old).geometry.block block marks.now bytes.now)) store.old store.new }
        // A raw image's sectors with their bytes; in a VHD image these, their bits, and the block's entry.
        ensures places { Does S.Store (volume_name self.old)
            (MarksKeepToPlaces (S.site store.old).geometry
            (sectors_in (stored S.Store store.old) (volume_name self.old)) self.old block marks.now bytes.now)
            store.old store.new }
        ensures slot { MayHaveSlot block self.old self.new }
        ensures map { OnOk result (self.new ≡ with_slot block self.old) }
        ensures stands_after { OnOk result (StandsIn (S.site store.old).geometry
            (sectors_in (stored S.Store store.old) (volume_name self.old)) self.new) }
        ensures true_after { OnOk result (Holds S.Store (volume_name self.old)
            (λ h. TrueIn (S.site store.old).geometry
            (sectors_in (stored S.Store store.old) (volume_name self.old)) h self.new) store.new) }
        ensures written { OnOk result (Does S.Store (volume_name self.old)
            (HasPut (S.site store.old).geometry
            (sectors_in (stored S.Store store.old) (volume_name self.old)) self.old
            (PutsMarkedIn (S.site store.old).geometry.block block marks.now bytes.now)) store.old store.new) }
    {
        match &mut self.body {
            Body::Raw { volume, sectors } => {
                // A disk's sectors are counted by a u64.
                let _sectors = *sectors;
                let at = block as u64 * store.geometry().block as u64;
                put_marked(store, volume, at, marks, bytes)?;
                Ok(())
            }
            Body::Vhd { head, map } => {
                vhd_write::write_marked(store, head, map, block, marks, bytes)?;
                Ok(())
            }
        }
    }
}
