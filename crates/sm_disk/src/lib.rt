//! The outside: a device of sectors, a source and a sink of bytes, and fakes of them in memory.
//!
//! **What is kept here.** Nothing of the repository's own. A [`Disk`] is what the repository stands on: sectors of
//! 512 bytes, counted from 0. A [`Source`] gives the bytes of a script, a [`Sink`] takes those of the replies. An
//! adapter over a file implements these traits elsewhere, and tells no content. [`MemDisk`], [`MemSource`] and
//! [`MemSink`] tell theirs, fail where they are told to, and serve tests.
//!
//! **The model of a device** (`specs/Held.antt`). A device holds at each place a floor, the sector at the last sync,
//! and the values that were written there since, in order. A read gives the last of these, or the floor. A crash
//! leaves at each place the floor or any one of the values, and each place chooses by itself. So a write that
//! succeeded lasts only once a sync has, and a write that failed may have left any of its sectors.
//!
//! **Why functions of the place.** What a device holds is one record, `Held`, of two functions of the place. As a
//! list of sectors and a list of writes each fact about one place needs a cut of a list first, with its bounds, and
//! every caller pays for them again. As a function, another place is simply another argument: 'elsewhere as before'
//! is one line, a part of a device is the same record with its places moved, and a volume is a device again. One
//! record and not two ghost members, so that 'what this call may have done' is a relation of two values, which
//! compose: `Reaches` says it for any number of calls, whatever failed on the way. No clause speaks of a moment within
//! a call, since a stop is a device of which from some call on all fail.
//!
//! **What a stop may leave.** `Allows` says which images a crash may leave; `put`, a write and a sync, leaves at each
//! place what might have been left before, or what it wrote.
//!
//! **Failures.** A call answers [`Failed`] only where the count of faults of its object rose, or is spent (at
//! 2^64 - 1, where nothing can raise it), and where it succeeds the count is what it was (`IsCounted`). So no call above can
//! succeed over a failed one, whether that is passed over or tried again: Linux may take what it could not write for written,
//! and a second sync then comes back well. The content is as the clause on the call says, at every return.
//!
//! **Costs.** No call of this crate's traits takes memory that its caller sees. A `MemDisk` keeps 512 bytes and its
//! pending values for each sector that was written, finds a place in logarithmic time, and syncs in one pass.
//!
//! The laws for the crates above are in `proofs/`: `HeldLaws`, `ReachesLaws`, `WindowLaws`, `SectorLaws` and
//! `StreamLaws`.
#![tactic(auto)]

mod counts;
mod devices;
mod failing;
mod memory;
mod memory_streams;
mod places;
mod slots;
mod streams;

pub use devices::{Disk, put, read_sector, write_sector};
pub use memory::MemDisk;
pub use memory_streams::{MemSink, MemSource};
pub use sm_base::{Failed, NoMemory};
pub use streams::{Sink, Source, length_through, write_all};
