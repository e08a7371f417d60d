//! A header that names another parent.

ghost use Rattle.std.specs.Prelude.{◌≡◌, ◌≤◌, ◌<◌, ◌+◌, ◌*◌, ◌^◌, ℕ, Some, IsSome, OnOk, OnErr, length, take, sum};
ghost use Rattle.sm_disk.specs.Held.{HasSectors, reads};
ghost use Rattle.vhd_fields.specs.ParentNames.{parent_bytes};
ghost use Rattle.vg_volumes.specs.Stored.{stored, sectors_in, WorksOn, Counts};
ghost use Rattle.vhd_volumes.specs.Steps.{Holds, Does, Gives};
ghost use Rattle.vhd_volumes.specs.Truth.{layout_now};
ghost use Rattle.vhd_volumes.specs.Writes.{KeepsBut};
ghost use Rattle.vhd_image.specs.Bodies.{IsVhd, StandsIn, TrueIn, parent_name, volume_name, ImageStands, ImageIsTrue, IfVhdDoes};
ghost use Rattle.vhd_image.specs.Calls.{MayPut};
ghost use Rattle.vhd_image.specs.Changes.{ChangesBy, IsRelinked, relinked};
ghost use Rattle.vhd_image.specs.Links.{link_bytes};
ghost use Rattle.vhd_image.specs.Made.{IsParentImage};

use crate::bytes::put;
use crate::images::{Body, Image};
use crate::making::{linked, new_header};
use crate::steps::{put_sector, sector_of};
use sm_base::{Failed, Geometry, Name};
use vg_volumes::Store;

/// The sum of some bytes.
fn sum_of(bytes: &[u8]) -> u32
    requires { length bytes.now ≤ 1024 }
    ensures value { result ≡ sum bytes.now }
    ensures small { result ≤ 1024 * 255 }
{
    bytes.iter().map(|byte| u32::from(*byte)).sum()
}

/// What a volume holds is sectors.
fn see_sectors<S: Store>(store: &S, volume: &Name)
    ensures { Holds S.Store volume.now (HasSectors (sectors_in (stored S.Store store.now) volume.now)) store.now }
{
    let _geometry = store.geometry();
    let _extents = store.extents();
    let _table = store.table();
    let _volume = volume;
}

/// The front of the field that gives a parent's name. Behind it the field has zeros.
fn name_front(geometry: &Geometry, parent: &Image) -> [u8; 448]
    requires { IsParentImage parent.now }
    ensures { result ≡ take 448 (parent_bytes (Some (volume_name parent.now))) }
{
    let mut bytes = [0; 1024];
    let header = new_header(geometry, Some(parent));
    header.write(&mut bytes);
    let mut front = [0; 448];
    front.copy_from_slice(&bytes[64..512]);
    front
}

/// The first sector of a header, once the header names this parent.
fn link(geometry: &Geometry, front: &[u8; 512], back: &[u8; 512], parent: &Image) -> [u8; 512]
    requires { IsParentImage parent.now }
    ensures { result ≡ link_bytes front.now back.now parent.now }
{
    let header = new_header(geometry, Some(parent));
    let uid = header.parent_uid;
    let stamp = header.parent_stamp.to_be_bytes();
    let name = name_front(geometry, parent);
    let own = sum_of(uid.as_bytes()) + sum_of(&stamp) + sum_of(&front[60..64]) + sum_of(&name);
    let checksum = u32::MAX - (sum_of(&front[..36]) + (own + sum_of(back)));
    let mut bytes = [0; 512];
    let at = put(&mut bytes, 0, &front[..36]);
    let at = put(&mut bytes, at, &checksum.to_be_bytes());
    let at = put(&mut bytes, at, uid.as_bytes());
    let at = put(&mut bytes, at, &stamp);
    let at = put(&mut bytes, at, &front[60..64]);
    put(&mut bytes, at, &name);
    bytes
}

/// Writes the first sector of a header once it names this parent.
fn put_link<S: Store>(store: &mut S, volume: &Name, parent: &Image) -> Result<(), Failed>
    requires within { 3 ≤ sectors_in (stored S.Store store.old) volume.now }
    requires proper { IsParentImage parent.now }
    ensures works { WorksOn S.Store volume.now store.old store.new }
    ensures cause { Counts S.Store result store.old store.new }
    ensures sectors { Holds S.Store volume.now (HasSectors (sectors_in (stored S.Store store.old) volume.now)) store.old }
    ensures may_put { Does S.Store volume.now (λ old new. MayPut 1
        (link_bytes (reads old 1) (reads old 2) parent.now) old new) store.old store.new }
    ensures put { OnOk result (Does S.Store volume.now (λ old new. reads new 1 ≡ link_bytes (reads old 1)
        (reads old 2) parent.now) store.old store.new) }
{
    see_sectors(store, volume);
    let geometry = store.geometry();
    let front = sector_of(store, volume, 1)?;
    let back = sector_of(store, volume, 2)?;
    let bytes = link(&geometry, &front, &back, parent);
    put_sector(store, volume, 1, &bytes)?;
    Ok(())
}

impl Image {
    /// Gives a differencing image another parent: its unique id, its time stamp and the name of its volume in the
    /// header, zeros for id and stamp of a raw one. One sector is written, the header's first, and nothing is synced. A
    /// stop leaves an image with the name of the old parent or of this one. Sectors that were copied into this one last
    /// only once they are synced, which is the caller's, before the link; so is it that this one is not larger.
    ///
    /// # Errors
    ///
    /// The store failed; the image in memory has its old parent. Before it is used again the store is synced and the image
    /// opened.
    pub fn set_parent<S: Store>(&mut self, store: &mut S, parent: &Image) -> Result<(), Failed>
        requires vhd { IsVhd self.old }
        requires child { IsSome (parent_name self.old) }
        requires proper { IsParentImage parent.now }
        requires stands { ImageStands (stored S.Store store.old) self.old }
        requires true_now { S.told → ImageIsTrue (stored S.Store store.old) self.old }
        ensures works { WorksOn S.Store (volume_name self.old) store.old store.new }
        ensures cause { Counts S.Store result store.old store.new }
        ensures changes { IfVhdDoes S.Store self.old (λ head m. ChangesBy (layout_now (stored S.Store store.old) head)
            (IsRelinked (layout_now (stored S.Store store.old) head) (volume_name parent.now))) store.old store.new }
        // One sector is written, the header's first.
        ensures others { Does S.Store (volume_name self.old) (KeepsBut (λ p. p ≡ 1)) store.old store.new }
        // Of the header's first sector only the parent's fields and the sum change.
        ensures put { OnOk result (Does S.Store (volume_name self.old)
            (λ old new. reads new 1 ≡ link_bytes (reads old 1) (reads old 2) parent.now) store.old store.new) }
        ensures new_parent { OnOk result (self.new ≡ relinked parent.now self.old) }
        ensures unchanged { OnErr result (self.new ≡ self.old) }
        ensures stands_after { OnOk result (StandsIn (S.site store.old).geometry
            (sectors_in (stored S.Store store.old) (volume_name self.old)) self.new) }
        ensures true_after { OnOk result (Holds S.Store (volume_name self.old)
            (λ h. TrueIn (S.site store.old).geometry
            (sectors_in (stored S.Store store.old) (volume_name self.old)) h self.new) store.new) }
    {
        let _geometry = store.geometry();
        match &mut self.body {
            Body::Raw { .. } => unreachable!(),
            Body::Vhd { head, .. } => {
                let header = linked(&head.header, parent);
                put_link(store, &head.volume, parent)?;
                head.header = header;
                Ok(())
            }
        }
    }
}
