//! The places of the records, and what is read and written of them.

ghost use Rattle.std.specs.Prelude.{◌≡◌, ◌≢◌, ◌≤◌, ◌<◌, ◌+◌, ◌*◌, ◌⊎◌, ◌++◌, ℕ, List, Option, Some, None, IsSome, Err, IfSome, length, map, take, drop, OnOk, OnErr, IfOk, IfErr, find, unwrap_or, count_by, position, is_none, is_some, slice_index_or};
ghost use Rattle.std.specs.Option.{option_copied};
ghost use Rattle.std.specs.List.{slice_get, slice_set};
ghost use Rattle.sm_base.specs.declared.faults.OpenFault.TheVariants.{NoMemory};
ghost use Rattle.sm_base.specs.declared.faults.OpenFault.TheVariants as fault;
ghost use Rattle.sm_base.specs.declared.faults.Place.TheVariants as at;
ghost use Rattle.sm_base.specs.declared.names.Name.TheVariants.{Mgt as mgt_name};
ghost use Rattle.sm_disk.specs.Held.{Gave, Torn, Wrote};
ghost use Rattle.sm_disk.specs.Sectors.{zeros, sector};
ghost use Rattle.sm_record.specs.Records.{IsRecord, record_sector, reading};
ghost use Rattle.sm_record.specs.declared.records.Reading.TheVariants.{Damaged};
ghost use Rattle.vg_volumes.specs.Stored.{OnlyReads, Writes, Counts, Faults};
ghost use Rattle.sm_mgt.specs.Places.{HasAllPlaces, records_of, ReadsAsPlaces, IsDamagedFirst, ArePlaces, IsProperPlace, as_reading, place_count, Agrees, IsFirstDamaged, is_of, place_for, record_in, HasRecordAt, cleared, TornZeros, WroteZeros};

use crate::counts::UuidCounts;
use sm_base::{Failed, Name, OpenFault, Place};
use sm_record::{Reading, Record};
use std::alloc::Global;
use std::marker::Model;
use uuid::Uuid;
use vg_volumes::Store;

/// The number of places.
const PLACES: usize = 512;

/// The records of all disks, by place. A contract sees the list of the 512 places, each a record or none.
#[derive(Drop)]
pub struct Mgt {
    places: Vec<Option<Record>>,
}

impl Model for Mgt {
    ghost use Rattle.std.specs.Prelude.{List, Option};
    ghost use Rattle.sm_record.specs.declared.records.Record.{Record};
    ghost use Rattle.sm_mgt.specs.Places.{ArePlaces};

    ghost Value = { List (Option Record) };

    ghost view = { λ m. m.places.items };

    ghost invariant = { λ m. ArePlaces m.places.items };
}

/// A sector of zeros.
#[tactic(auto, unfolding(sm_disk::specs::Sectors::zeros))]
fn zero_sector() -> [u8; 512]
    ensures zeros { result ≡ zeros }
    ensures long { length result ≡ 512 }
{
    [0; 512]
}

/// Whether a place has the record of this UUID.
fn is_record_of(place: &Option<Record>, uuid: &Uuid) -> bool
    ensures { result ≡ is_of uuid.now place.now }
{
    match place {
        Some(record) => record.uuid == *uuid,
        None => false,
    }
}

/// What the least place with this UUID has.
fn taken_place<'a>(places: &'a [Option<Record>], uuid: &Uuid) -> Option<&'a Option<Record>>
    ensures { option_copied result ≡ find (is_of uuid.now) places.now }
{
    places.iter().find(|place| is_record_of(place, uuid))
}

/// The least place with this UUID.
fn own_place(places: &[Option<Record>], uuid: &Uuid) -> Option<usize>
    ensures { result ≡ position (is_of uuid.now) places.now }
{
    places.iter().position(|place| is_record_of(place, uuid))
}

/// The least free place.
fn free_place(places: &[Option<Record>]) -> Option<usize>
    ensures { result ≡ position is_none places.now }
{
    places.iter().position(|place| place.is_none())
}

/// The place for a record of this UUID: that of the same UUID, else the least free one.
#[tactic(auto, unfolding(crate::specs::Places::place_for))]
fn place_of(places: &[Option<Record>], uuid: &Uuid) -> Option<usize>
    ensures place { result ≡ place_for places.now uuid.now }
    ensures within { IfSome result (λ k. k < length places.now) }
{
    own_place(places, uuid).or(free_place(places))
}

/// How many places have the UUID.
fn count_of(places: &[Option<Record>], uuid: &Uuid) -> usize
    ensures { result ≡ count_by (is_of uuid.now) places.now }
{
    places
        .iter()
        .filter(|place| is_record_of(place, uuid))
        .count()
}

/// The sector with this number in the bytes of several.
#[tactic(auto, unfolding(sm_disk::specs::Sectors::sector))]
fn sector_at(bytes: &[u8], index: usize) -> [u8; 512]
    requires { 512 * index + 512 ≤ length bytes.now }
    ensures { result ≡ sector bytes.now index }
{
    let (_, rest) = bytes.split_at(512 * index);
    let (front, _) = rest.split_at(512);
    let mut sector = [0; 512];
    sector.copy_from_slice(front);
    sector
}

/// What the sector with this number reads as, or `None` where it is damaged.
fn place_at(bytes: &[u8], index: usize) -> Option<Option<Record>>
    requires { 512 * index + 512 ≤ length bytes.now }
    ensures damaged { result ≡ None → reading (sector bytes.now index) ≡ Damaged }
    ensures right { IfSome result (λ place. reading (sector bytes.now index) ≡ as_reading place) }
    ensures proper { IfSome result IsProperPlace }
{
    match Record::read(&sector_at(bytes, index)) {
        Reading::Free => Some(None),
        Reading::Taken(record) => Some(Some(record)),
        Reading::Damaged => None,
    }
}

/// What the sectors read as, in order: the places, or the number of the first that is damaged.
fn places_in(alloc: Global, bytes: &[u8]) -> Result<Vec<Option<Record>>, OpenFault>
    requires { length bytes.now ≡ 512 * place_count }
    ensures ok { IfOk result (λ places. ReadsAsPlaces bytes.now place_count places.items) }
    ensures proper { IfOk result (λ places. ArePlaces places.items) }
    ensures damaged { IfErr result (λ e. (e ≡ NoMemory) ⊎ ((k : ℕ) × IsDamagedFirst bytes.now k × (e ≡ fault.Damaged (at.Record k)))) }
{
    let mut places = Vec::new(alloc);
    for index in 0..PLACES {
        let Some(place) = place_at(bytes, index) else {
            return Err(OpenFault::Damaged {
                place: Place::Record {
                    index: index as u32,
                },
            });
        };
        let Ok(()) = places.push(place) else {
            return Err(OpenFault::NoMemory);
        };
    }
    Ok(places)
}

/// The bytes of all record sectors.
fn read_records<S: Store>(alloc: Global, store: &mut S) -> Result<Vec<u8>, OpenFault>
    requires { HasAllPlaces S.Store store.old }
    ensures reads { OnlyReads S.Store store.old store.new }
    ensures calm { result ≢ Err fault.Device → S.faults store.new ≡ S.faults store.old }
    ensures long { IfOk result (λ bytes. length bytes.items ≡ 512 * place_count) }
    ensures gave { S.told → IfOk result (λ bytes. Gave 0 (records_of S.Store store.old) bytes.items) }
    ensures memory_or_device { IfErr result (λ e. (e ≡ NoMemory) ⊎ ((e ≡ fault.Device) × Faults S.Store store.old store.new)) }
{
    let Ok(mut bytes) = vec![in alloc; 0; 262144] else {
        return Err(OpenFault::NoMemory);
    };
    let Ok(()) = store.read(&Name::Mgt, 0, &mut bytes) else {
        return Err(OpenFault::Device);
    };
    Ok(bytes)
}

impl Mgt {
    /// Reads the records of a store. The first sector that is neither free nor a record is damaged.
    pub fn load<S: Store>(alloc: Global, store: &mut S) -> Result<Mgt, OpenFault>
        requires { HasAllPlaces S.Store store.old }
        ensures reads { OnlyReads S.Store store.old store.new }
        ensures calm { result ≢ Err fault.Device → S.faults store.new ≡ S.faults store.old }
        ensures ok { S.told → IfOk result (Agrees (records_of S.Store store.old)) }
        ensures cause { IfErr result (λ e. (e ≡ NoMemory)
            ⊎ ((e ≡ fault.Device) × Faults S.Store store.old store.new)
            ⊎ ((k : ℕ) × (e ≡ fault.Damaged (at.Record k))
            × (S.told → IsFirstDamaged (records_of S.Store store.old) k))) }
    {
        let bytes = read_records(alloc, store)?;
        let places = places_in(alloc, &bytes)?;
        Ok(Mgt { places })
    }

    /// How many places have the UUID.
    pub fn count(&self, uuid: &Uuid) -> usize
        ensures { result ≡ count_by (is_of uuid.now) self.now }
    {
        count_of(&self.places, uuid)
    }

    /// The records with their UUIDs in order, to count those of many UUIDs. It sorts 512 UUIDs in an array of
    /// its own, which is 9 KB of stack, and takes no memory.
    pub fn uuid_counts(&self) -> UuidCounts<'_>
        ensures { result ≡ self.now }
    {
        UuidCounts::of(&self.places)
    }

    /// The record in this place, where one is.
    pub fn at(&self, place: u32) -> Option<&Record>
        requires { place < place_count }
        ensures { slice_get self.now place ≡ Some (option_copied result) }
    {
        self.places[place as usize].as_ref()
    }

    /// Whether there is a place for a record of this UUID: one that has it, or a free one.
    pub fn has_room(&self, uuid: &Uuid) -> bool
        ensures { result ≡ is_some (place_for self.now uuid.now) }
    {
        place_of(&self.places, uuid).is_some()
    }

    /// Writes a record over the one of the same UUID, else into the least free place. One sector is written,
    /// and a sync is the caller's.
    pub fn put<S: Store>(&mut self, store: &mut S, row: Record) -> Result<(), Failed>
        requires size { HasAllPlaces S.Store store.old }
        requires room { IsSome (place_for self.old row.uuid) }
        requires proper { IsRecord row }
        ensures writes { Writes S.Store mgt_name (Torn (unwrap_or (place_for self.old row.uuid) 0) (record_sector row)) store.old store.new }
        ensures wrote { OnOk result (Writes S.Store mgt_name (Wrote (unwrap_or (place_for self.old row.uuid) 0) (record_sector row)) store.old store.new) }
        ensures cause { Counts S.Store result store.old store.new }
        ensures places { OnOk result (self.new ≡ slice_set self.old (unwrap_or (place_for self.old row.uuid) 0) (Some row)) }
        ensures unchanged { OnErr result (self.new ≡ self.old) }
    {
        let Some(place) = place_of(&self.places, &row.uuid) else {
            unreachable!()
        };
        let mut sector = [0; 512];
        row.write(&mut sector);
        store.write(&Name::Mgt, place as u64, &sector)?;
        self.places[place] = Some(row);
        Ok(())
    }

    /// The record of a disk: the one in the least place that has the UUID, and `None` where no place has it.
    pub fn find(&self, uuid: &Uuid) -> Option<&Record>
        ensures found { option_copied result ≡ record_in self.now uuid.now }
        ensures proper { IfSome (option_copied result) IsRecord }
    {
        taken_place(&self.places, uuid)?.as_ref()
    }

    /// Frees one place. One sector is written, and a sync is the caller's.
    pub fn wipe<S: Store>(&mut self, store: &mut S, place: u32) -> Result<(), Failed>
        requires size { HasAllPlaces S.Store store.old }
        requires within { place < place_count }
        ensures writes { Writes S.Store mgt_name (Torn place zeros) store.old store.new }
        ensures wrote { OnOk result (Writes S.Store mgt_name (Wrote place zeros) store.old store.new) }
        ensures cause { Counts S.Store result store.old store.new }
        ensures places { OnOk result (self.new ≡ slice_set self.old place None) }
        ensures unchanged { OnErr result (self.new ≡ self.old) }
    {
        store.write(&Name::Mgt, place as u64, &zero_sector())?;
        self.places[place as usize] = None;
        Ok(())
    }

    /// Whether this place has the record of this UUID.
    fn has(&self, place: u32, uuid: &Uuid) -> bool
        requires { place < place_count }
        ensures { result ≡ is_of uuid.now (slice_index_or self.now place None) }
    {
        is_record_of(&self.places[place as usize], uuid)
    }

    /// Frees this place, where it has the record of this UUID.
    fn clear_at<S: Store>(&mut self, store: &mut S, place: u32, uuid: &Uuid) -> Result<(), Failed>
        requires size { HasAllPlaces S.Store store.old }
        requires within { place < place_count }
        ensures writes { Writes S.Store mgt_name (TornZeros (λ p. (p ≡ place) × HasRecordAt self.old uuid.now place)) store.old store.new }
        ensures wrote { OnOk result (Writes S.Store mgt_name (WroteZeros (λ p. (p ≡ place) × HasRecordAt self.old uuid.now place)) store.old store.new) }
        ensures cause { Counts S.Store result store.old store.new }
        ensures places { OnOk result (self.new ≡ slice_set self.old place (cleared uuid.now (slice_index_or self.old place None))) }
        ensures unchanged { OnErr result (self.new ≡ self.old) }
    {
        if !self.has(place, uuid) {
            return Ok(());
        }
        self.wipe(store, place)?;
        Ok(())
    }

    /// Frees each place that has the record of this UUID, in order. Each is one sector that is written, and a sync
    /// is the caller's. Where it fails, the places of the first records may be free already.
    pub fn clear<S: Store>(&mut self, store: &mut S, uuid: &Uuid) -> Result<(), Failed>
        requires size { HasAllPlaces S.Store store.old }
        ensures writes { Writes S.Store mgt_name (TornZeros (HasRecordAt self.old uuid.now)) store.old store.new }
        ensures wrote { OnOk result (Writes S.Store mgt_name (WroteZeros (HasRecordAt self.old uuid.now)) store.old store.new) }
        ensures cause { Counts S.Store result store.old store.new }
        ensures places { OnOk result (self.new ≡ map (cleared uuid.now) self.old) }
        ensures front { OnErr result ((n : ℕ) × (self.new ≡ map (cleared uuid.now) (take n self.old) ++ drop n self.old)) }
    {
        for place in 0..self.places.len() {
            self.clear_at(store, place as u32, uuid)?;
        }
        Ok(())
    }
}
