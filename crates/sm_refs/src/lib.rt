//! Which disks are attached, and how many attached disks use each volume.
//!
//! Kept here: two maps in memory, of the attached disks with their modes in the order of attaching, and of the
//! volumes in use with their counts, which are above 0. No tree and no chain is kept: whoever attaches,
//! detaches, forks, relinks or swaps hands in the names. Counts are numbers of disks. Nothing here is on a device, so
//! a stop leaves nothing, and after opening nothing is attached.
//!
//! A contract sees an `Attachments` as both lists and a number, `room` (`specs/Attached.antt`): so many disks
//! fit, and so many volumes, for as long as the value lives. `new` takes the memory for them, and no later call
//! takes any. `count_of` reads the list of counts as a function of the volume's name, 0 where there is none.
//!
//! What the counts mean stands in `specs/FromScratch.antt`: the count of a volume is the number of attached disks
//! whose chain has it. The functions of [`laws`] state that this holds after any sequence of calls. To show that
//! volumes fit, cite `proofs/CallerLemmas.antt`.
//!
//! Cost: a look-up is one look-up of a hash map. Attaching is one step for each volume of the chain. A disk or a
//! volume that leaves costs one step for each entry of its map, for the reason that `removal` gives.
#![tactic(auto)]

mod attached;
pub mod laws;
mod removal;
mod tallies;

pub use attached::Attachments;
pub use sm_base::Mode;
