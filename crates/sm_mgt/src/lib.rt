//! The records of the disks: 512 places in the volume `MGT`, one sector each.
//!
//! Kept here: all places in memory, each a record or free, as the sectors read. A place is a number from 0
//! to 511. A record is written in one sector, so a stop leaves the old sector or the new one at its place,
//! and every other place as it was. A record goes over the one of its UUID, else into the least free place;
//! to clear a UUID writes zeros over each of its records, one sector after the other. No call syncs: that is
//! the caller's.
//!
//! Where memory agrees with what a read of the store gives, it does so after each call that succeeded
//! (`laws`). Where a call fails, memory has what was written whole before it. No call changes what stands beside the
//! store, and `load` changes nothing of the whole device.
//!
//! `load` takes memory for the places, and reads the 512 sectors once. No other call takes memory; `put` looks
//! at each place at most twice, and the others once. Where the records of many UUIDs are counted, [`UuidCounts`] sorts
//! the UUIDs once and finds each by halving.
//!
//! The definitions are in `specs/`: `Places`, and `Counts` for the UUIDs in order.
#![tactic(auto)]

mod agreement;
mod counts;
mod management;

pub use agreement::laws;
pub use counts::UuidCounts;
pub use management::Mgt;
pub use sm_record::Record;
