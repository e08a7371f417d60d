//! A guest's commands on an attached disk: sectors are read, written and filled, and all that was written is made last.
//!
//! **What is kept here.** Nothing: each call works on a store and on what a session has in memory. Of memory only the row of
//! the disk's own image changes: blocks of it may get slots.
//!
//! **What it promises.** Each call takes a command that the machine does not refuse, between two steps of a session (`IsBetweenSteps`
//! of `sm_ready`), and leaves the session there where it succeeds. Of a store that is ready it answers as the machine says. A write touches no
//! image but the disk's own, is never refused for space and never wants memory. At every stop, in the middle of a write and
//! after one that failed, each of its sectors holds what it might have held before or what is written, each other sector what
//! it might have held before, and the repository opens. What was written lasts once `flush` comes back well. A fill promises
//! what the write of all its sectors promises.
//!
//! **In which units.** Disks are in sectors of 512 bytes, and so are the blocks of the pool's buffers.
//!
//! **What it costs.** A write of a raw disk makes writes of the store alone. A write over sectors that a VHD image holds is one read of a
//! bitmap and one write for each block, and no sync; any other makes one sync, whatever its length (`vhd_write`). A read is one read of the store for
//! each run of sectors that one image holds, beside one of a bitmap for each VHD image that is asked. A flush is one sync.
//! A fill is one write of all its sectors, and costs what that costs: the bytes of a block are put by one call, from a buffer of the pool
//! that it borrows. Memory is taken for the answer of a read alone, before the store is called.
//!
//! The definitions are in `specs/`: `Taken` (what a call answers) and `Writing` (where a write puts anything).
#![tactic(auto)]

mod filling;
mod flushing;
mod marking;
mod reading;
mod writing;

pub use filling::fill;
pub use flushing::flush;
pub use reading::read;
pub use writing::write;
