//! Tests of the volume group over a device in memory, and of what stands on any store.
//!
//! **What is kept here.** Nothing.
//!
//! The records of the disks and the journal's entries are kept over both stores, a volume group on a device in memory
//! and a store in memory, by the same calls. Calls of the store fail: the caller is told, and what stood before stands.
//! Each byte of a new group's label, header and text is changed, and of those of a group of version 1, with the sums left and
//! with the sums made right again, and an opening answers what the reference reader finds. A device of stale bytes is formatted; a commit on it stops at
//! each of its calls, and what is left has the earlier table or the next. The sectors of a volume stand in its extents.
//! Tables that are spelled right and make no sense are refused with the place of the first damage. Logs of tracked disks that are of no use go as a
//! store is opened, and one that is wrong is named.
//!
//! The bytes and places that are wanted are worked out by hand from the tables of offsets.
#![tactic(auto)]

#[cfg(test)]
mod check_tests;
#[cfg(test)]
mod damage_tests;
#[cfg(test)]
mod fixtures;
#[cfg(test)]
mod journal_tests;
#[cfg(test)]
mod log_tests;
#[cfg(test)]
mod place_tests;
#[cfg(test)]
mod record_tests;
#[cfg(test)]
mod stop_tests;
#[cfg(test)]
mod works;
