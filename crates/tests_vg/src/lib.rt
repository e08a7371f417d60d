//! Tests of the table of volumes, of its text by either grammar and of its free extents; of the sectors in front of a device's
//! extents, of both versions; of how a volume group is formatted and opened; of the store in memory; and of which sectors a
//! cache keeps.
//!
//! **What is kept here.** Nothing. Expected bytes are worked by hand from the tables of offsets. Tests stand in a crate of
//! their own, since a library with tests is proved once more for them.
#![tactic(auto)]

#[cfg(test)]
mod caches;
#[cfg(test)]
mod extents;
#[cfg(test)]
mod groups;
#[cfg(test)]
mod large;
#[cfg(test)]
mod layouts;
#[cfg(test)]
mod listed;
#[cfg(test)]
mod memory_stores;
#[cfg(test)]
mod sectors;
#[cfg(test)]
mod segments;
#[cfg(test)]
mod tables;
#[cfg(test)]
mod texts;
