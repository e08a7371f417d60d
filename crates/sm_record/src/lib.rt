//! The record of a disk, as it stands in one sector of the volume of records.
//!
//! Kept here: nothing. A sector of 512 bytes goes in and a reading comes out, or a record goes in and
//! its sector comes out; offsets and lengths are in bytes. A sector of zeros is free, a sector that is
//! a record byte for byte is taken, and any other is damaged. What is written is read again as the
//! same record, and what is read as a record is that record's one sector.
//!
//! A record is one sector, and a device writes a sector whole or not at all: a stop leaves the old
//! sector or the new one. No call takes memory, and each goes over the sector at most three times.
//!
//! The definitions are in `specs/`: `Records`.
#![tactic(auto)]

mod format;
mod records;

pub use format::laws;
pub use records::{Reading, Record};
