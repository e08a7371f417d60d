//! Names, numbers and answers that every crate of the repository speaks of.
//!
//! Kept here: nothing on a device. This crate has the plain types: the name of a volume, the fixed
//! geometry of a repository, the label of a disk, the running operation, places of damage, refusals and
//! faults. Sizes are in sectors of 512 bytes unless a line says bytes or extents. Nothing here is left by
//! a stop, and no call takes memory.
//!
//! What is promised: a name is read exactly where one is spelled, and names are ordered by their spelled
//! bytes; a geometry is made exactly where its sizes are in range, and the extents of an image are those
//! of the definitions; a label is made exactly from a label's text.
//!
//! The definitions are in `specs/`: `Names` (the spelling of each name, their order, and the UUIDs of base
//! images), `Kinds` (what a volume is, by its name), `Limits`, `Numbers` (the sectors and extents of an
//! image), `Labels`, `Refusals`, and two that only this crate needs, `LabelBytes` and `Texts`. What crates
//! above cite is in `proofs/`: `KindLaws` (a name is that of the records, of an image or of an entry),
//! `NameLemmas` (length and bytes of a spelling), `ReadLemmas` (a spelling is of one name), `OrderLemmas`,
//! `BaseLemmas`, `NumberLemmas`, and `TextLemmas` (a UUID's text).
#![tactic(auto)]

mod faults;
mod kinds;
mod labels;
mod limits;
mod names;
mod operations;
mod refusals;
mod sizes;
mod texts;

pub use faults::{CallFault, Failed, NoMemory, OpenFault, Place};
pub use kinds::Kind;
pub use labels::Label;
pub use limits::{CHAIN_LIMIT, IMAGE_LIMIT, LAST_SEQUENCE, RECORD_LIMIT, SECTOR, SPENT_SEQUENCE};
pub use names::{Name, base_uuid, is_base};
pub use operations::{Mode, Op, Plan};
pub use refusals::Refusal;
pub use sizes::Geometry;
