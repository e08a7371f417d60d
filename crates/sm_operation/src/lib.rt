//! What the collector is doing, as a session keeps it in memory: the operation that runs, and of one that folds the leaf of an attached
//! disk the blocks that are dirty, those that the guest wrote to since they were copied.
//!
//! **What it is.** [`Operation`] stands for the machine's operation (`Operations` of `sm_machine`), with its dirty blocks in rising order;
//! [`Operation::told`] tells it with their number alone.
//!
//! **What it costs.** Room of a byte for each block that an image may have at most, 1,044,480, is taken once, as it is made, and nothing is
//! written there; nothing else takes memory. A byte is written for each block up to the last one that gets dirty, by the first `touch`
//! that reaches it, and `least_dirty` goes over these. Nothing here is on a device, and a stop leaves nothing.
//!
//! The definitions are in `specs/`: `Kept` (how an operation is kept, and which of its blocks are dirty).
#![tactic(auto)]

mod operations;

pub use operations::{BLOCK_LIMIT, Operation};
