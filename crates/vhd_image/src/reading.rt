//! Sectors of the disk, read of the image alone: one, or a run of those that it holds alike.

ghost use Rattle.std.specs.Prelude.{◌≡◌, ℕ, ◌<◌, ◌≤◌, ◌*◌, ◌+◌, ◌/◌, not, length, Some, None, if◌then◌else◌, OnOk, OnErr, IfOk};
ghost use Rattle.std.specs.Bool.{OnTrue, OnFalse};
ghost use Rattle.sm_base.specs.Numbers.{first};
ghost use Rattle.sm_disk.specs.Held.{IsWhole};
ghost use Rattle.vhd_map.specs.Bitmaps.{is_set};
ghost use Rattle.vhd_map.specs.Places.{spot};
ghost use Rattle.vg_volumes.specs.Stored.{stored, OnlyReads, WorksOn, Counts};
ghost use Rattle.vhd_volumes.specs.Steps.{Gives};
ghost use Rattle.vhd_volumes.specs.Truth.{disk_sectors, layout_now, StandsNow, IsTrueNow};
ghost use Rattle.vhd_volumes.specs.Writes.{own_in};
ghost use Rattle.vhd_image.specs.Bodies.{volume_name, sector_count, ImageStands, ImageIsTrue, own_now};
ghost use Rattle.vhd_image.specs.Runs.{IsRunOf, in_block, most_in, AreInSlot, AreInRow, AreHeld, HoldsBytes};

use crate::images::{Body, Image};
use crate::steps::{get_sectors, sector_of};
use sm_base::{Failed, Geometry};
use vg_volumes::Store;
use vhd_map::{Map, bit};
use vhd_volumes::Head;
use vhd_write::alike;

/// Sectors of a disk from one on: an image holds each of them, or none.
#[derive(Clone, Copy)]
pub struct Run {
    /// Whether the image holds them.
    pub held: bool,
    /// How many they are.
    pub sectors: u32,
}

/// The sector of an image at which a slot begins.
pub(crate) fn slot_place(geometry: &Geometry, slot: u32) -> u64
    ensures place { result ≡ spot (first geometry.now.entries) geometry.now.block slot 0 }
{
    let stride = 1 + geometry.block as u64;
    geometry.first() + slot as u64 * stride
}

/// The run from a sector of a block on, by the block's bitmap.
fn marked_run(bits: &[u8; 512], part: u32, most: u32) -> Run
    requires some { 0 < most }
    requires within { part + most ≤ 4096 }
    ensures some { 1 ≤ result.sectors }
    ensures within { result.sectors ≤ most }
    ensures alike { (i : ℕ) → i < result.sectors → is_set bits.now (part + i) ≡ result.held }
    ensures longest { result.sectors < most → is_set bits.now (part + result.sectors) ≡ not result.held }
{
    Run {
        held: bit(bits, part),
        sectors: alike(bits, part, most),
    }
}

/// The run from a sector of the disk of a VHD image on.
fn own_run<S: Store>(
    head: &Head,
    map: &Map,
    store: &mut S,
    sector: u64,
    most: u32,
) -> Result<Run, Failed>
    requires stands { StandsNow (stored S.Store store.old) head.now map.now }
    requires true_now { S.told → IsTrueNow (stored S.Store store.old) head.now map.now }
    requires some { 0 < most }
    requires within { sector + most ≤ disk_sectors head.now.footer }
    ensures reads_only { OnlyReads S.Store store.old store.new }
    ensures cause { Counts S.Store result store.old store.new }
    ensures some { IfOk result (λ run. (1 ≤ run.sectors) × (run.sectors ≤ most)) }
    ensures run { Gives S.Store head.now.volume (λ r. IfOk result
        (IsRunOf (own_in (layout_now (stored S.Store store.old) head.now) r) sector
        (in_block (S.site store.old).geometry.block sector most))) store.old }
    ensures in_slot { IfOk result (λ run. OnTrue run.held
        (AreInSlot (S.site store.old).geometry.block sector run.sectors map.now)) }
{
    let geometry = store.geometry();
    let block = sector / geometry.block as u64;
    let part = (sector % geometry.block as u64) as u32;
    let within = most.min(geometry.block - part);
    let Some(slot) = map.slot(block as u32) else {
        return Ok(Run {
            held: false,
            sectors: within,
        });
    };
    let bits = sector_of(store, &head.volume, slot_place(&geometry, slot))?;
    Ok(marked_run(&bits, part, within))
}

/// Reads sectors of a block that a VHD image holds.
fn own_bytes<S: Store>(
    head: &Head,
    map: &Map,
    store: &mut S,
    sector: u64,
    to: &mut [u8],
) -> Result<(), Failed>
    requires stands { StandsNow (stored S.Store store.old) head.now map.now }
    requires true_now { S.told → IsTrueNow (stored S.Store store.old) head.now map.now }
    requires whole { IsWhole sector (length to.old) (disk_sectors head.now.footer) }
    requires in_slot { AreInSlot (S.site store.old).geometry.block sector (length to.old / 512) map.now }
    requires held { Gives S.Store head.now.volume
        (λ r. AreHeld (own_in (layout_now (stored S.Store store.old) head.now) r) sector (length to.old / 512)) store.old }
    ensures reads_only { OnlyReads S.Store store.old store.new }
    ensures cause { Counts S.Store result store.old store.new }
    ensures gave { OnOk result (Gives S.Store head.now.volume
        (λ r. HoldsBytes (own_in (layout_now (stored S.Store store.old) head.now) r) sector to.new) store.old) }
{
    let geometry = store.geometry();
    let block = sector / geometry.block as u64;
    let part = sector % geometry.block as u64;
    let Some(slot) = map.slot(block as u32) else {
        unreachable!()
    };
    let place = slot_place(&geometry, slot);
    get_sectors(store, &head.volume, place + 1 + part, to)?;
    Ok(())
}

impl Image {
    /// Reads a sector of the disk, where the image holds it: true with its bytes in `to`. False, with `to` as it
    /// was, where the image does not hold it. A raw image holds each of its sectors. Two sectors are read at most,
    /// and none is written.
    ///
    /// # Errors
    ///
    /// The store failed; what `to` has then is open.
    pub fn read_own<S: Store>(
        &self,
        store: &mut S,
        sector: u64,
        to: &mut [u8; 512],
    ) -> Result<bool, Failed>
        requires stands { ImageStands (stored S.Store store.old) self.now }
        requires true_now { S.told → ImageIsTrue (stored S.Store store.old) self.now }
        requires within { sector < sector_count self.now }
        ensures works { WorksOn S.Store (volume_name self.now) store.old store.new }
        ensures reads_only { OnlyReads S.Store store.old store.new }
        ensures cause { Counts S.Store result store.old store.new }
        ensures own { Gives S.Store (volume_name self.now)
            (λ r. IfOk result (λ found. own_now (stored S.Store store.old) self.now r sector ≡
            (if found then Some to.new else None))) store.old }
        ensures unchanged { IfOk result (λ found. OnFalse found (to.new ≡ to.old)) }
    {
        let run = self.run(store, sector, 1)?;
        if run.held {
            self.read_held(store, sector, to)?;
        }
        Ok(run.held)
    }

    /// How many sectors of the disk, from one on, the image holds alike: of at most so many, and in a VHD image of those
    /// of one block, as many as there are. A raw image holds each of its sectors. One sector is read at most, none where
    /// the block has no slot, and none is written.
    ///
    /// # Errors
    ///
    /// The store failed.
    pub fn run<S: Store>(&self, store: &mut S, sector: u64, most: u32) -> Result<Run, Failed>
        requires stands { ImageStands (stored S.Store store.old) self.now }
        requires true_now { S.told → ImageIsTrue (stored S.Store store.old) self.now }
        requires some { 0 < most }
        requires within { sector + most ≤ sector_count self.now }
        ensures works { WorksOn S.Store (volume_name self.now) store.old store.new }
        ensures reads_only { OnlyReads S.Store store.old store.new }
        ensures cause { Counts S.Store result store.old store.new }
        ensures some { IfOk result (λ run. (1 ≤ run.sectors) × (run.sectors ≤ most)) }
        ensures run { Gives S.Store (volume_name self.now) (λ r. IfOk result
            (IsRunOf (own_now (stored S.Store store.old) self.now r) sector
            (most_in (S.site store.old).geometry.block sector most self.now))) store.old }
        ensures in_row { IfOk result (λ run. OnTrue run.held
            (AreInRow (S.site store.old).geometry.block sector run.sectors self.now)) }
    {
        match &self.body {
            Body::Raw { .. } => Ok(Run {
                held: true,
                sectors: most,
            }),
            Body::Vhd { head, map } => {
                let run = own_run(head, map, store, sector, most)?;
                Ok(run)
            }
        }
    }

    /// Reads whole sectors of the disk that the image holds, at least one, from a sector of the disk on. They are of one
    /// run, so one call of the store reads them.
    ///
    /// # Errors
    ///
    /// The store failed; what `to` has then is open.
    pub fn read_held<S: Store>(
        &self,
        store: &mut S,
        sector: u64,
        to: &mut [u8],
    ) -> Result<(), Failed>
        requires stands { ImageStands (stored S.Store store.old) self.now }
        requires true_now { S.told → ImageIsTrue (stored S.Store store.old) self.now }
        requires whole { IsWhole sector (length to.old) (sector_count self.now) }
        requires in_row { AreInRow (S.site store.old).geometry.block sector (length to.old / 512) self.now }
        requires held { Gives S.Store (volume_name self.now)
            (λ r. AreHeld (own_now (stored S.Store store.old) self.now r) sector (length to.old / 512)) store.old }
        ensures works { WorksOn S.Store (volume_name self.now) store.old store.new }
        ensures reads_only { OnlyReads S.Store store.old store.new }
        ensures cause { Counts S.Store result store.old store.new }
        ensures gave { OnOk result (Gives S.Store (volume_name self.now)
            (λ r. HoldsBytes (own_now (stored S.Store store.old) self.now r) sector to.new) store.old) }
    {
        match &self.body {
            Body::Raw { volume, .. } => {
                get_sectors(store, volume, sector, to)?;
                Ok(())
            }
            Body::Vhd { head, map } => {
                own_bytes(head, map, store, sector, to)?;
                Ok(())
            }
        }
    }
}
