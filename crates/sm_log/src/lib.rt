//! The log of a tracked disk: which of its pieces of 64 KiB were written since a snapshot, as bytes and in memory.
//!
//! Kept here: nothing on a device. [`Head`] goes into a log's first sector and comes out of it. [`Bits`] keeps in memory the bits of
//! a log, one for each piece, as the whole sectors that lie behind the head; contracts see them as a list of flags. Sectors and
//! pieces are counted from 0.
//!
//! The head is one sector, and a device writes a sector whole or not at all: a stop leaves the old head or the new one. Only
//! `Bits::new`, `spelled` and `spelled_first` take memory: a bit for each piece, in whole sectors, and four symbols for each three bytes.
//!
//! The definitions are in `specs/`: `Logs` (a log, and the walk over logs), `Told` (what logs tell of their disks), `Heads` (the first
//! sector), `Coded` (bits as bytes, and bytes in base64), `Kept` (bits in memory) and `Examples`.
#![tactic(auto)]

mod bits;
mod heads;
mod laws;

pub use bits::{Bits, spelled, spelled_first};
pub use heads::Head;
pub use laws::{
    Shows, example_later, example_stopped, example_unwritten, law_anew, law_begun, law_changed,
    law_elsewhere, law_guest, law_heads, law_marks, law_more, law_split, law_touched, law_twin,
    law_written,
};
