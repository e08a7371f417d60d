//! Changes of an image's head.

ghost use Rattle.std.specs.Prelude.{◌≡◌, ◌≢◌, ℕ, ◌*◌, ◌-◌, ◌≤◌, Ok, OnOk, OnErr};
ghost use Rattle.sm_disk.specs.Held.{reads};
ghost use Rattle.vhd_fields.specs.Footers.{IsFooter, footer_bytes, footer_read};
ghost use Rattle.vg_volumes.specs.Stored.{stored, sectors_in, WorksOn, Counts};
ghost use Rattle.vhd_volumes.specs.Steps.{Holds, Does, Gives};
ghost use Rattle.vhd_volumes.specs.Truth.{HasRoomFor, layout_now};
ghost use Rattle.vhd_volumes.specs.Writes.{KeepsBut};
ghost use Rattle.vhd_image.specs.Bodies.{IsVhd, StandsIn, TrueIn, sector_count, top_slot, volume_name, ImageStands, ImageIsTrue, IfVhdHolds, IfVhdDoes};
ghost use Rattle.vhd_image.specs.Calls.{IsEnd, IsEnds};
ghost use Rattle.vhd_image.specs.Changes.{ChangesBy, IsResized, resized, StaysTrueIn, EndsAt};
ghost use Rattle.vhd_image.specs.Made.{IsDiskSize};

use crate::images::{Body, Image};
use crate::making::put_footer;
use crate::sizes::sectors_in;
use sm_base::{Failed, Name};
use vg_volumes::Store;
use vhd_fields::Footer;

/// Writes a footer into the last sector of a volume, and then into the first.
fn put_footers<S: Store>(store: &mut S, volume: &Name, footer: &Footer) -> Result<(), Failed>
    requires { 2 ≤ sectors_in (stored S.Store store.old) volume.now }
    ensures works { WorksOn S.Store volume.now store.old store.new }
    ensures cause { Counts S.Store result store.old store.new }
    ensures ends { Does S.Store volume.now
        (IsEnds (sectors_in (stored S.Store store.old) volume.now) (footer_bytes footer.now)) store.old store.new }
    ensures others { Does S.Store volume.now (λ old new. (p : ℕ) → p ≢ 0 → p ≢ sectors_in
        (stored S.Store store.old) volume.now - 1 → reads new p ≡ reads old p) store.old store.new }
    ensures last { OnOk result (Gives S.Store volume.now
        (λ r. r (sectors_in (stored S.Store store.old) volume.now - 1) ≡ footer_bytes footer.now) store.new) }
    ensures copy { OnOk result (Gives S.Store volume.now (λ r. r 0 ≡ footer_bytes footer.now) store.new) }
    ensures reads_back { IsFooter footer.now → footer_read (footer_bytes footer.now) ≡ Ok footer.now }
{
    let last = sectors_in(store, volume) - 1;
    put_footer(store, volume, footer, last)?;
    put_footer(store, volume, footer, 0)?;
    Ok(())
}

impl Image {
    /// Makes the disk of a VHD image larger, or as large as it is: writes the footer with the new size into the
    /// volume's last sector, and then its copy into sector 0. The size is in sectors. Nothing is synced, and a stop at
    /// any moment leaves an image of the old size or of the new one, where none of the new sectors is held.
    ///
    /// # Errors
    ///
    /// The store failed; the image in memory has its old size. Before it is used again the store is synced and the image
    /// opened.
    pub fn set_size<S: Store>(&mut self, store: &mut S, sectors: u64) -> Result<(), Failed>
        requires vhd { IsVhd self.old }
        requires stands { ImageStands (stored S.Store store.old) self.old }
        requires true_now { S.told → ImageIsTrue (stored S.Store store.old) self.old }
        requires size { IsDiskSize (S.site store.old).geometry sectors }
        requires grows { sector_count self.old ≤ sectors }
        ensures works { WorksOn S.Store (volume_name self.old) store.old store.new }
        ensures cause { Counts S.Store result store.old store.new }
        ensures changes { IfVhdDoes S.Store self.old (λ head m. ChangesBy (layout_now (stored S.Store store.old) head)
            (IsResized (layout_now (stored S.Store store.old) head) sectors)) store.old store.new }
        // The sectors of the two footers alone are written.
        ensures others { Does S.Store (volume_name self.old)
            (KeepsBut (IsEnd (sectors_in (stored S.Store store.old) (volume_name self.old)))) store.old store.new }
        ensures new_size { OnOk result (self.new ≡ resized sectors self.old) }
        ensures unchanged { OnErr result (self.new ≡ self.old) }
        // Both footers are those of the image now, byte for byte.
        ensures last { OnOk result (IfVhdHolds S.Store self.new
            (λ head m h. reads h (sectors_in (stored S.Store store.old) head.volume - 1)
            ≡ footer_bytes head.footer) store.new) }
        ensures copy { OnOk result (IfVhdHolds S.Store self.new
            (λ head m h. reads h 0 ≡ footer_bytes head.footer) store.new) }
        ensures stands_after { OnOk result (StandsIn (S.site store.old).geometry
            (sectors_in (stored S.Store store.old) (volume_name self.old)) self.new) }
        ensures true_after { OnOk result (Holds S.Store (volume_name self.old)
            (λ h. TrueIn (S.site store.old).geometry
            (sectors_in (stored S.Store store.old) (volume_name self.old)) h self.new) store.new) }
    {
        let _geometry = store.geometry();
        match &mut self.body {
            Body::Raw { .. } => unreachable!(),
            Body::Vhd { head, .. } => {
                let mut footer = head.footer;
                footer.current = 512 * sectors;
                put_footers(store, &head.volume, &footer)?;
                head.footer = footer;
                Ok(())
            }
        }
    }

    /// Writes the footer of a VHD image into the last sector of the first so many extents of its volume, where the
    /// image is to end. Nothing is synced. Where the image lies, in more extents or in fewer, it says what it said,
    /// whatever a stop leaves.
    ///
    /// # Errors
    ///
    /// The store failed.
    pub fn end<S: Store>(&self, store: &mut S, extents: u32) -> Result<(), Failed>
        requires vhd { IsVhd self.now }
        requires within { extents * (S.site store.old).geometry.extent ≤ sectors_in (stored S.Store store.old)
            (volume_name self.now) }
        requires room { HasRoomFor (S.site store.old).geometry (top_slot self.now) (extents * (S.site store.old).geometry.extent) }
        ensures works { WorksOn S.Store (volume_name self.now) store.old store.new }
        ensures cause { Counts S.Store result store.old store.new }
        // One sector is written, the last of these extents.
        ensures others { Does S.Store (volume_name self.now)
            (KeepsBut (λ p. p ≡ extents * (S.site store.old).geometry.extent - 1)) store.old store.new }
        ensures put { OnOk result (IfVhdHolds S.Store self.now
            (λ head m h. reads h (extents * (S.site store.old).geometry.extent - 1)
            ≡ footer_bytes head.footer) store.new) }
        // In whichever first sectors of its volume the image is true.
        ensures stays { IfVhdDoes S.Store self.now (StaysTrueIn (S.site store.old).geometry) store.old store.new }
        ensures ends { OnOk result (IfVhdDoes S.Store self.now
            (EndsAt (S.site store.old).geometry (extents * (S.site store.old).geometry.extent)) store.old store.new) }
    {
        match &self.body {
            Body::Raw { .. } => unreachable!(),
            Body::Vhd { head, .. } => {
                let extent = store.geometry().extent as u64;
                let last = extents as u64 * extent - 1;
                put_footer(store, &head.volume, &head.footer, last)?;
                Ok(())
            }
        }
    }
}
