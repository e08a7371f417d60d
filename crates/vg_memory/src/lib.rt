//! A store of volumes in memory, for tests of every layer above a store.
//!
//! **What is kept here.** A [`MemoryStore`] keeps the table, and the sectors of all extents in a device in memory whose
//! sector p is that of the area. It has no label, no header, no text and no slots: a commit is a sync of the area and
//! then the change of the table. Places are in sectors, room is counted in extents.
//!
//! **The model** (`specs/Plain.antt`). `Leaves` says what a stop may leave: the table, and of the area any choice sector
//! by sector. Where a commit failed as it took effect, the area has been synced, and a stop may also leave the changed
//! table, beside the same choices of the area. No third table is ever left.
//!
//! **Failures.** A commit makes two calls, the sync of the area and the flip to the changed table. A read, a write and a
//! sync are one call each. A call fails where `fail` or `stop` named its number, and a write also where memory is short;
//! each failure is counted. A write that was told to fail leaves all its sectors pending, as a device in memory does: a
//! stop then leaves any of them.
//!
//! **Before a commit** `accepts` tests whether a change is taken: exactly what a commit would take.
//!
//! **Costs.** A read or a write finds the volume by a pass over the names, and each of its sectors in logarithmic time.
//! Only a write takes memory, for the values that are pending.
#![tactic(auto)]

mod accepting;
mod memory;
mod sectors;
mod stores;

pub use memory::MemoryStore;
pub use vg_volumes::Store;
