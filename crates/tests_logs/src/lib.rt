//! Tests of the logs of tracked disks: their heads, their bits as text, and what they tell of two disks.
//!
//! **What is kept here.** Nothing. Expected values are worked by hand from the formats, or come from outside.
#![tactic(auto)]

#[cfg(test)]
mod bytes;
#[cfg(test)]
mod held;
#[cfg(test)]
mod told;
