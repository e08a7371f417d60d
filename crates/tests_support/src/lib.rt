//! What tests of several crates share: devices, groups, what is asked before a commit, and the choices of a stop.
//!
//! **What is kept here.** Nothing. Only tests stand on this crate. Bytes that are worked by hand stand in the tests.
#![tactic(auto)]

mod changes;
mod devices;
mod groups;

pub use changes::prepare;
pub use devices::{
    CHOICES, DEVICE_SECTORS, OPENING_CALLS, REPOSITORY, STALE, formatted, geometry, holds,
    new_group, spoil, stale,
};
pub use groups::{opened, size};
