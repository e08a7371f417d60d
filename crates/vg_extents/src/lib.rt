//! Which extents of a volume group are given out: always the least free ones, in rising order.
//!
//! Kept here: nothing but [`Runs`], which is the rising list of the free extents of a table, as pairs of a first
//! extent and a count of which no two touch. A call goes over the table that it is handed, and what it answers does
//! not follow the table as it changes. Units are extents, counted from 0. A stop leaves nothing here, since nothing
//! is written. `free` takes no memory and costs one pass over the table's extents. `Runs::of` takes one mark for each
//! extent of the group while it works, and keeps 8 bytes for each run; it costs one pass over the table's extents and
//! one over the marks. `first_fit` does the same, but its second pass ends with the last extent that is needed.
//!
//! The definitions are in `specs/Fits`, in `specs/Runs`, and in `specs/Tables` of `vg_meta` (`free`).
#![tactic(auto)]

mod faults;
mod fits;
mod marks;
mod runs;

pub use faults::FitFault;
pub use fits::{first_fit, free};
pub use runs::Runs;
