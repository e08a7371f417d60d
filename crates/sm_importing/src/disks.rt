//! A disk that is imported, while its file is read.

ghost use Rattle.std.specs.Prelude.{◌≡◌, ◌≢◌, ℕ, true, false, length};
ghost use Rattle.vg_meta.specs.Roomy.{table_alone};
ghost use Rattle.vg_meta.specs.Tables.{free as free_of};
ghost use Rattle.std.proofs.Props.{props};
ghost use Rattle.sm_ready.specs.Framing.{IsBetweenSteps};
ghost use Rattle.sm_ready.specs.Known.{known};
ghost use Rattle.sm_base.specs.declared.names.Name.TheVariants.{Vhd};
ghost use Rattle.sm_importing.specs.Imports.{MayImport};
ghost use Rattle.sm_importing.specs.Disks.{IsBlank, IsFilled, IsToBegin, room_for};
ghost use Rattle.sm_ready.specs.Proper.{IsBetweenSteps-prop};
ghost use Rattle.sm_importing.specs.Proper.{IsFilledTo-prop, IsToBegin-prop};

use crate::importing;
use crate::putting::{is_device, put_fault, put_sector};
use sm_base::Geometry;
use sm_ready::Memory;
use std::alloc::Global;
use uuid::Uuid;
use vg_extents::free;
use vg_volumes::Store;
use vhd_filling::Filling;
use vhd_import::{NewDisk, PutFault};

/// A disk that is imported, while its file is read: the store and what is in memory of it, the disk's UUID, the sizes of the repository
/// and the extents that were free at the begin, the image that is filled, whether the volume may be there, and whether the import is over,
/// since the volume was not made or a call of the store failed. Where it is over and no volume may be there, no call of the store failed.
pub struct Importing<S: Store> {
    alloc: Global,
    store: S,
    memory: Memory,
    disk: Uuid,
    sizes: Geometry,
    room: u32,
    filling: Filling,
    begun: bool,
    over: bool,
    // The disk may be imported and nothing was put yet, or its volume is there and its image is filled.
    ghost to_begin: { over ≡ false → begun ≡ false → IsToBegin S.Store store memory disk filling room } by { Prim.hlevel (props, IsToBegin-prop) },
    ghost filled: { over ≡ false → begun ≡ true → IsFilled S.Store store memory disk filling } by { Prim.hlevel (props, IsFilledTo-prop) },
    ghost room_is: { over ≡ false → begun ≡ true → room ≡ room_for S.Store store disk },
    ghost unmade: { over ≡ true → begun ≡ false → IsBetweenSteps S.Store store memory } by { Prim.hlevel (props, IsBetweenSteps-prop) },
    ghost sizes_are: { over ≡ false → sizes ≡ filling.geometry } by { Prim.hlevel props },
}

impl<S: Store> Importing<S> {
    /// A disk that is to be imported, of which nothing is written yet. The image is a new one, of the disk's volume.
    pub fn new(
        alloc: Global,
        store: S,
        memory: Memory,
        disk: Uuid,
        filling: Filling,
    ) -> Importing<S>
        requires session { IsBetweenSteps S.Store store memory }
        requires may { MayImport (known memory) disk }
        requires blank { IsBlank filling }
        requires volume { filling.volume ≡ Vhd disk }
        requires sizes { filling.geometry ≡ (S.site store).geometry }
        ensures store { result.store ≡ store }
        ensures memory { result.memory ≡ memory }
        ensures disk { result.disk ≡ disk }
        ensures begun { (result.begun ≡ false) × (result.over ≡ false) }
        ensures sizes { result.sizes ≡ (S.site store).geometry }
        ensures room { result.room ≡ length (free_of (S.site store).count (table_alone (S.table store))) }
    {
        let sizes = store.geometry();
        let room = free(store.table(), store.extents());
        Importing {
            alloc,
            store,
            memory,
            disk,
            sizes,
            room,
            filling,
            begun: false,
            over: false,
        }
    }

    /// Whether its volume was made, or may have been: a call of the store failed.
    pub fn is_begun(&self) -> bool
        ensures { result ≡ self.now.begun }
    {
        self.begun
    }

    /// Whether the import is over: the volume was not made, or a call of the store failed.
    pub fn is_over(&self) -> bool
        ensures { result ≡ self.now.over }
    {
        self.over
    }

    /// The store, what is in memory of it, and the image that is filled.
    pub fn into_parts(self) -> (S, Memory, Filling)
        ensures store { result.0 ≡ self.store }
        ensures memory { result.1 ≡ self.memory }
        ensures filling { result.2 ≡ self.filling }
        ensures filled { self.over ≡ false → self.begun ≡ true → IsFilled S.Store self.store self.memory self.disk self.filling }
        // Where no volume is there, the session is as between two steps.
        ensures session { self.begun ≡ false → IsBetweenSteps S.Store self.store self.memory }
    {
        let Importing {
            store,
            memory,
            filling,
            alloc: _,
            disk: _,
            sizes: _,
            room: _,
            begun: _,
            over: _,
        } = self;
        (store, memory, filling)
    }
}

impl<S: Store> NewDisk for Importing<S> {
    ghost use Rattle.sm_importing.specs.Disks.{Begin, HoldsPuts, IsSince, target_of};

    ghost target = { λ s. target_of s.sizes s.room };

    ghost holds = { λ s puts. (s.over ≡ false) × HoldsPuts S.Store s.filling s.store (target_of s.sizes s.room) puts };

    ghost begun = { λ s. s.begun };

    ghost faults = { λ s. S.faults s.store };

    ghost Origin = { Begin S };

    ghost since = { λ s o. IsSince S.Store o s.store s.memory s.disk s.begun s.over };

    fn begin(&mut self) -> Result<(), PutFault> {
        if self.over {
            return Err(PutFault::NoMemory);
        }
        let made = importing::begin(self.alloc, &mut self.store, &self.memory, &self.disk);
        match made {
            Ok(()) => {
                self.begun = true;
                Ok(())
            }
            Err(fault) => {
                let why = put_fault(fault);
                self.over = true;
                if is_device(why) {
                    self.begun = true;
                    return Err(why);
                }
                Err(why)
            }
        }
    }

    fn put(&mut self, sector: u64, bytes: &[u8; 512]) -> Result<(), PutFault> {
        if self.over {
            return Err(PutFault::NoMemory);
        }
        let done = put_sector(
            self.alloc,
            &mut self.store,
            &self.memory,
            &self.disk,
            &mut self.filling,
            sector,
            bytes,
        );
        match done {
            Ok(()) => Ok(()),
            Err(fault) => {
                if is_device(fault) {
                    self.over = true;
                    return Err(fault);
                }
                Err(fault)
            }
        }
    }
}
