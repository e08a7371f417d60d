//! Why a command is refused: the first cause, in the machine's order.
//!
//! **What is kept here.** Nothing. [`refuse`] looks at a repository's table and at what a session keeps in memory, takes no memory and
//! makes no call of a store.
//!
//! **What it promises.** The answer is the machine's first cause (`refusal`), told or not, whatever the sectors hold (`Answers` of
//! `sm_ready`): first the causes by names (reserved, unknown, taken), then those by the disk's state (in use, not attached, read only,
//! raw, tracked or not), then those by sizes and places, and at last those by room (chains, images, sequence numbers, extents). It is asked once,
//! before a command is taken. [`refuse_import`] answers the first cause for which a disk can't be imported whatever its file holds: of those
//! of a create its UUID, the images and the sequence number (`specs/Importing`).
//!
//! **What it costs.** A few look-ups among the images, the records, the logs and the attachments, one pass over the chain of a disk that another
//! is made of, and one over the extents of the table for the free ones. Sizes are in bytes where a command gives them, else in sectors
//! of 512 bytes; room is counted in extents.
#![tactic(auto)]

mod causes;
mod importing;
mod refusing;

pub use importing::refuse_import;
pub use refusing::refuse;
