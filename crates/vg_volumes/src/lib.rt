//! What a store of volumes promises to every layer above it.
//!
//! A store keeps one table of volumes and the sectors of all extents, the area. Places within a volume are
//! in sectors; room is counted in extents. A guest's bytes are written into volumes, and the table changes
//! by `commit` alone, one change at a time.
//!
//! What a stop may leave is one relation, `leaves`: a table with the sectors of the area. While no commit has
//! failed it is the store's table with, sector by sector, the last synced value or one written since. A commit
//! that failed may leave the earlier table with any such choice, or the changed table with what reads gave as
//! it began; nothing in between. So layers above never speak of places on a device.
//!
//! A store stands on a device, and may share it with what is no part of it: no call changes a place `beside` the
//! store, and a read and a sync change nothing of the whole `device`.
//!
//! Commits are made by the current version of the format alone (`CURRENT_VERSION`, which is 2). A store of an earlier version
//! answers its table and its sectors, and `upgrade` takes it over: the table and the extents stay, and what a stop leaves in between
//! might have been left before.
//!
//! Room for rows and extents is asked for before a change: at least so many are spare then. Asking again for what
//! is spare takes no memory, so a run of any length takes no more than its largest table wants.
//!
//! A call fails only where the store's count of faults rose, and where it succeeds no call of the device has failed (`Counts`):
//! it can't succeed over a failed one, whether that is passed over or tried again. `commit`, `read`, `write` and `sync`
//! never fail for want of memory.
#![tactic(auto)]

mod stores;

pub use stores::{CURRENT_VERSION, Store, text_limit};
