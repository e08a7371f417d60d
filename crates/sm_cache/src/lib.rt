//! A store of volumes over a store of volumes, which keeps sectors that were read in memory.
//!
//! **What is kept here.** [`Cache`] has the store below and a number of entries, at most as many as it was made for, the one that was
//! used last first. An entry is one sector of 512 bytes, by the volume's name and the sector's place in the volume. Only a read of
//! exactly one sector makes an entry: in images these are mostly the tables' and the blocks' bitmaps, which are read again and again,
//! and not the data, which is read in longer runs.
//!
//! **What it promises.** It is a `Store`: whatever holds of the store below holds of it, what a stop may leave too, since it writes
//! through and never holds back a write. An entry has the bytes that a read of the store below gives. So a read of a sector that is
//! kept makes no call, and succeeds also where the store below would fail. A write that failed may have written any of its sectors: their
//! entries go. A change of the table that may move the sectors of a volume lets all entries go (`is_light` says which changes do not).
//! Each clause on the entries says them all, in their order.
//!
//! **What a stop may leave.** What the store below may leave: its `leaves` is this one's.
//!
//! **What it costs.** A read or a write of one sector takes at most two look-ups, a longer write one for each of its sectors; but where these are
//! more than the entries, the entries are gone over first, and there are look-ups only where one of them is among these sectors. There is no call beside the one of
//! the store below. `Cache::new` takes the room of the look-ups. A read that makes an entry takes some 600 bytes for it, and goes on without
//! where there are none; no other call takes memory beside what the store below takes.
#![tactic(auto)]

mod caches;
mod changes;
mod kept;
mod keys;
mod stores;

pub use caches::Cache;
pub use keys::Spot;
