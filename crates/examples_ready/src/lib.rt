//! Worked examples of the two invariants of a session: `IsOrderly`, of table and memory, and `IsReady`, of the sectors.
//!
//! Kept here: nothing; no call touches a device or takes memory, and nothing but more examples stands on this crate. Each
//! example is the contract of a function that does nothing. Six repositories, each with its table, its memory and its
//! sectors, meet both invariants and are tidy (`resting`, `working`); their shapes are written out by hand. For each field of
//! the invariants there is a content that fails it and no other field of the same invariant, a small change of one of the
//! six (`failing_tables`, `failing_memory`, `failing_sectors`), but for number, order and room of the logs: no table has a log
//! yet, and memory that has any fails `logs` too. docs/INVARIANTS.md has the fields in one table.
//!
//! The definitions are in `specs/`: `WorkedRows` (sizes, heads, maps and rows), `Repositories` (the six), and those of the
//! changed ones. Sizes are in sectors of 512 bytes, room in extents.
#![tactic(auto)]

mod failing_memory;
mod failing_sectors;
mod failing_tables;
mod resting;
mod working;

pub use failing_memory::{
    example_entryless, example_high_slot, example_short_places, example_stray, example_tight,
    example_tracked, example_uncounted, example_unrecorded, example_wide,
};
pub use failing_sectors::{
    example_forgotten, example_loose, example_relabelled, example_uncopied, example_unheld,
    example_unlasting, example_unmarked, example_unspelled, example_unsynced,
};
pub use failing_tables::{
    example_begun, example_crowded, example_hidden, example_shared_extents, example_short_records,
    example_twin,
};
pub use resting::{example_pair, example_plain};
pub use working::{example_copying, example_linking, example_living, example_writing};
