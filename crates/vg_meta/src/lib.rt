//! The table of a volume group: which volumes there are, and which extents each has.
//!
//! **What is kept here.** A [`Table`] has a sequence number and its [`Volume`]s in order of name. A volume has its
//! name, two flags (hidden, fresh) and its extents by number, in order. Nothing here reads or writes a device:
//! a table is changed in memory by a [`Change`], and its text goes to bytes and comes from bytes.
//!
//! **The model** (`specs/`). `Tables` says what a table is, `Changes` which changes are allowed and what table each
//! leaves, `Text` how a table is spelled, number by number, and `Reading` where a text that spells none goes
//! wrong first. Both go by a [`Grammar`]: extents are listed one by one, as version 1 of the format has them, or by `Segments`,
//! the fewest runs of consecutive ones, as version 2 has them and as a group writes them.
//! `Roomy` has beside the table the rows, and the extents of each volume, that may still be added
//! without memory.
//!
//! **What it promises.** A table is at all times a table: names rise, and no extent belongs to two volumes.
//! [`Table::allows`] answers exactly whether a change is allowed, [`Table::fits`] whether the text is then short
//! enough, and [`Table::apply`] leaves exactly the changed table, without memory where room was made before. [`Table::encode_changed`] writes the text of the table that a
//! change would leave, and leaves the table as it is. [`Table::decode`] reads exactly the texts that
//! [`Table::encode`] writes; of other bytes it says where the first part stands that does not fit. [`Table::encode_by`],
//! [`Table::encode_changed_by`] and [`Table::decode_by`] do the same by either grammar, of which [`law_one_spelling`],
//! [`law_segments`] and [`law_length`] say what they have in common. Lengths and
//! places are in bytes, extents are counted. Finding a volume costs a look-up by halving ([`Table::find`]), and none where it
//! stands at a place that the caller knows or behind it ([`Table::get_near`]); a change costs a pass over the names, reading a text one
//! over it, and writing it one over the extents, by segments two.
#![tactic(auto)]

mod allowed;
mod changes;
mod decoding;
mod edits;
mod encoding;
mod entries;
mod faults;
mod free;
mod grammars;
mod laws;
mod lengths;
mod names;
mod reading;
mod segments;
mod splices;
mod tables;
mod volumes;

pub use changes::{Change, Extents, Tag};
pub use faults::DecodeFault;
pub use grammars::Grammar;
pub use laws::{example_new_table, law_length, law_one_spelling, law_segments};
pub use tables::Table;
pub use volumes::Volume;
