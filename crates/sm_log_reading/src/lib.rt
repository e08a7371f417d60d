//! The logs of tracked disks are read off a store into memory, by whoever opens a repository.
//!
//! **What is kept here.** Nothing: a call reads a store, and answers what it read. A stop leaves nothing of it. Pieces and sectors are
//! counted from 0.
//!
//! **What it promises.** `read_log` answers the log of a disk that stands there by `sm_standing`, whole: its head is one, it has as many
//! pieces as its disk, and its volume has the sectors for them. Where there is none such, that is said exactly. `read_logs` answers the logs
//! of some disks, each in its place among the logs in memory, or the first of the disks whose log is wrong: it is not whole, or its tag or its
//! since is not below the table's sequence number, or the log of an earlier disk has the same tag other than 0. A disk whose log's
//! volume is not there or new has none, and each other one has a log in memory, with the extents of its volume and with numbers that were used, whatever
//! the content. The store is only read.
//!
//! **What it costs.** For each log one read of the head, a sector, and one of each sector of the bits, which has those of 256 MiB of the disk. It
//! takes the memory for the bits, a bit for each piece in whole sectors, and none where the head is not that of such a log; `read_logs`
//! takes the memory for 500 logs before it reads any. A log's volume is found by halving, and its tag is looked for among all logs
//! that were read.
//!
//! The definitions are in `specs/`: `Reading` (the log of a disk of so many pieces), `Right` (which logs are right, and the logs in memory) and
//! `Checked` (the disks whose logs are read). The law of `laws` says that reading the logs is an opening's check of them.
#![tactic(auto)]

mod laws;
mod logs;
mod reading;

pub use laws::law_logs_read;
pub use logs::{DiskPieces, LogFault, read_logs};
pub use reading::read_log;
