//! Calls of a store, made one after the other: commits, work on the sectors, and syncs.
//!
//! **What is kept here.** Nothing: each function makes calls of a store.
//!
//! **What it is.** A command that writes makes some calls of its store in a fixed order. Such a run is a list of calls (`Call`): a
//! commit has its change; work on the sectors has two relations of the whole area, what it did at any return, and what it did besides
//! where it succeeded; a sync has nothing. `CanRun` is what a run asks of a store: room for each change in its turn is included, also for
//! more extents of a volume that the run itself makes. `DoesRun` is what it did. It says more where all calls succeeded (`ok`): a
//! function promises it with what always holds as `ok` where it succeeds, and with what never holds where it fails.
//!
//! **What it promises.** What a command owes of its run is one fact, `GoesWell`: each moment is fine, and behind the last call the
//! store is as wanted. It computes to one fact a moment, which speaks of a table and of sectors alone. From it `law_run` has all that
//! a step promises of disks and stops (`HasDoneFrom` of `sm_ready`), where it succeeds and where any of its calls fails; `run_steps` has
//! what it promises of the store besides (`StepsOn`). What is fine is any predicate of what a stop leaves, so a commit or work that
//! changes the disks needs no law of its own. Runs are joined by `run_then`; one that was cut short is the front of a longer one
//! (`run_front`). Of commits alone what is held is kept, and where one failed the store makes no further one. Where the calls are those
//! of a loop, so that no list names them, `IsSoFar` is its invariant.
//!
//! **What it costs.** `commit` makes one commit, `commit_two` two and `commit_three` three; `sync` makes one sync. They take no memory.
//!
//! The definitions are in `specs/`: `Calls`. The laws are `CallLaws` (of lists of calls), `SpareLaws` (of room for changes), and
//! `StoreLaws` (of calls of a store).
#![tactic(auto)]

mod calls;
mod runs;

pub use calls::{commit, sync};
pub use runs::{commit_three, commit_two};
