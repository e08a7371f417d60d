//! How many places have the record of a UUID: the UUIDs are sorted once, and each is counted by halving.

ghost use Rattle.std.specs.Prelude.{◌≡◌, List, Option, length, map, count_by};
ghost use Rattle.std.specs.List.Sorted.{IsSorted};
ghost use Rattle.std.specs.Ordering.{is_le, is_lt};
ghost use Rattle.sm_record.specs.declared.records.Record.{Record};
ghost use Rattle.sm_mgt.specs.Counts.{uuid_in, uuid_order};
ghost use Rattle.sm_mgt.specs.Places.{is_of, place_count};

use sm_record::Record;
use std::marker::Model;
use uuid::Uuid;

/// The records of all disks and their UUIDs in order. The records are lent, so that none changes while they are counted. A
/// contract sees the list of the 512 places.
#[derive(Drop)]
pub struct UuidCounts<'a> {
    places: &'a [Option<Record>],
    uuids: [Option<Uuid>; 512],
}

impl<'a> Model for UuidCounts<'a> {
    ghost use Rattle.std.specs.Prelude.{List, Option};
    ghost use Rattle.sm_record.specs.declared.records.Record.{Record};
    ghost use Rattle.sm_mgt.specs.Counts.{AreUuidsOf};

    ghost Value = { List (Option Record) };

    ghost view = { λ c. c.places.now };

    ghost invariant = { λ c. AreUuidsOf c.places.now c.uuids };
}

impl<'a> UuidCounts<'a> {
    // The UUIDs of 512 places are sorted.
    pub(crate) fn of(places: &'a [Option<Record>]) -> UuidCounts<'a>
        requires { length places.now ≡ place_count }
        ensures { result ≡ places.now }
    {
        let mut uuids = uuids_of(places);
        uuids.sort_unstable();
        UuidCounts { places, uuids }
    }

    /// How many places have the UUID.
    pub fn count(&self, uuid: &Uuid) -> usize
        ensures { result ≡ count_by (is_of uuid.now) self.now }
    {
        let own = Some(*uuid);
        count_up_to(&self.uuids, &own) - count_before(&self.uuids, &own)
    }
}

/// The UUID of the record in a place, where one is.
fn uuid_in(place: &Option<Record>) -> Option<Uuid>
    ensures { result ≡ uuid_in place.now }
{
    match place {
        Some(record) => Some(record.uuid),
        None => None,
    }
}

/// The UUIDs of the places, in the places' order.
fn uuids_of(places: &[Option<Record>]) -> [Option<Uuid>; 512]
    requires { length places.now ≡ place_count }
    ensures { result ≡ map uuid_in places.now }
{
    let mut uuids = [None; 512];
    for place in 0..512 {
        uuids[place] = uuid_in(&places[place]);
    }
    uuids
}

/// How many of the UUIDs are before this one, by halving.
fn count_before(uuids: &[Option<Uuid>], uuid: &Option<Uuid>) -> usize
    requires sorted { IsSorted uuid_order uuids.now }
    ensures { result ≡ count_by (λ u. is_lt (uuid_order u uuid.now)) uuids.now }
{
    uuids.partition_point(|own| own.cmp(uuid).is_lt())
}

/// How many of the UUIDs are before this one or the same, by halving.
fn count_up_to(uuids: &[Option<Uuid>], uuid: &Option<Uuid>) -> usize
    requires sorted { IsSorted uuid_order uuids.now }
    ensures { result ≡ count_by (λ u. is_le (uuid_order u uuid.now)) uuids.now }
{
    uuids.partition_point(|own| own.cmp(uuid).is_le())
}
