//! Tests of the plain types, the outside and its fakes, pools, records, attachments and scripts.
//!
//! **What is kept here.** Nothing. Expected values are worked by hand from the formats, or come from outside. Tests stand
//! in a crate of their own, since a library with tests is proved once more for them.
#![tactic(auto)]

#[cfg(test)]
mod attachments;
#[cfg(test)]
mod base;
#[cfg(test)]
mod devices;
#[cfg(test)]
mod hosts;
#[cfg(test)]
mod pools;
#[cfg(test)]
mod records;
#[cfg(test)]
mod scripts;
#[cfg(test)]
mod spans;
#[cfg(test)]
mod trials;
