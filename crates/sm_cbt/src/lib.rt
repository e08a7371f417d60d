//! The logs of tracked disks on a store: tracking begins and ends, a log is split as a snapshot is taken of its disk, and the pieces that a guest is about
//! to write are marked first.
//!
//! **What is kept here.** Nothing: a call works on a store and on the logs in memory, which it changes with the store's.
//!
//! **What it promises.** Whatever a stop leaves in the middle, no volume but those of the logs that the call is for is written.
//!
//! - `start` leaves no volume of the log, or one that is new, which an opening removes, or the log whole. `stop` leaves the log or none.
//! - `split` leaves what `start` leaves of the snapshot's log, and then of the disk's log the old head or the new one, and all bits; and only behind
//!   the new head each sector of the bits as it was or cleared.
//! - `touch` sets bits in memory, writes them as they stand there, and makes them last before it comes back well. Where all of them were set already no
//!   call of the store is made. Each sector of the log's volume is one that a stop might have left before, or holds the bits of memory. Sectors of which
//!   one lies in none of the log's pieces are marked in memory as far as they lie in some, and nothing is written: of a good log that never is.
//!
//! Behind a call that succeeded nothing is pending but what was so before a `touch` that had nothing to do, and the store has the logs of memory. Behind one
//! that failed memory may be ahead of the store.
//!
//! **What it costs.** `start` makes two commits and two writes, and takes the memory for the bits and a row; `stop` makes one commit; `split` makes two
//! commits, four writes and two syncs, and takes no memory: the snapshot's log and the extents are the caller's, and so is the spare row of the table.
//! `touch` makes one write of the sectors that have the bits, a sector for 256 MiB of the disk, and one sync, which makes last whatever was written to
//! any volume before. Nothing is read. The extents of a new volume are the caller's choice.
//!
//! The definitions are in `specs/`: `Making` (how the volume of a log is made, and what is read as a log), `Splitting` (how a log is split) and `Marks` (what is
//! written into a log's volume where pieces are marked, and what lasts of it).
#![tactic(auto)]

mod splitting;
mod touching;
mod tracking;
mod volumes;

pub use splitting::split;
pub use touching::touch;
pub use tracking::{start, stop};
