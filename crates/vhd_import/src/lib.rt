//! What an import answers to a VHD file.
//!
//! **What is kept here.** Nothing: a file is read once, from its begin, a sector at a time ([`read_sector`]), and of its table the
//! entries are kept that name a place ([`read_table`], [`sort_entries`]). A disk is made of it put by put, by whoever has one
//! ([`NewDisk`]); no call here knows a store. A file is read whole ([`read_file`]), fixed ([`read_fixed`]) or dynamic.
//!
//! **The model** (`specs/`). A file is a list of sectors of 512 bytes, as in `vhd_stream`. `Verdicts` says what an import answers to
//! bytes (`verdict_of`): the sectors of a disk, why the file is not taken, or that it is longer than is read. Each sector may
//! decide a denial (`denial_at`), and the end of the file may; the first one counts. `Heads` says what the first sectors say of a file,
//! `Tables` when its table is wrong, `Puts` what each sector puts on the disk, and `Room` how many extents a repository needs for it
//! (`used`). `Entries` says what is kept of a table. `Making` says what a disk holds behind some puts (`filled`) and how many slots they take
//! (`slots_of`), and `Progress` how far an import has come (`HasRead`) and what it answers (`HasImported`). `Dynamics` says how far the front of
//! a dynamic file was read, and `Blocks` how far its blocks were. The disk that is made is `imported`. Sizes are in sectors, in blocks of the
//! file or of the repository, and in extents.
//!
//! **What it promises.** Laws, and that a sector and a table are read as they came, in whatever pieces: the table is right exactly where
//! `sort_entries` says so. What the first sectors and the last one say is told as the definitions have it (`beginning_of`, `numbers_of`,
//! `is_footed`, `is_too_large`). What is made of bytes is what they hold as a VHD file, which is one disk (`law_made`). Each VHD file that the
//! repository has room for is taken, with the sectors that it holds, so also the file that a disk was exported as (`law_taken`). What a
//! sector decides depends on the sectors up to it alone (`law_front`), so that it may be answered before the next one is read. For who
//! reads a file there are the entries of its table (`law_table`), what each sector puts (`law_put`), and how many slots that takes
//! (`law_used`). The disk that is made is whole blocks (`law_imported`). `read_file` reads a file, fixed or dynamic, and answers what `verdict_of`
//! says of the bytes: the disk holds the sectors of the file and then zeros, or the refusal is the file's denial, or the file is longer than is
//! read. Where a disk is made, just what the file's sectors put was put on it, in their order, each within the disk; a file that its first
//! sector refuses begins no disk. A refusal comes where the bytes have it, and for want of extents exactly where the disk
//! has too few for its puts, but where memory is wanting first. A fault of the device
//! or of the source is told only where its count rose. A table is judged once all of it was read, or as much as the file has: a fault of the
//! source in it, or a want of memory, is told before its wrong entries are.
//!
//! **What it costs.** A sector is read by as many calls of the source as it comes in pieces. Memory is taken for the entries of a table that
//! name a place, eight bytes each; they are sorted in place.
#![tactic(auto)]

mod blocks;
mod disks;
mod dynamic;
mod faults;
mod files;
mod fixed;
mod heads;
mod laws;
mod reading;
mod sectors;
mod tables;

pub use disks::{NewDisk, PutFault};
pub use faults::ImportFault;
pub use files::read_file;
pub use fixed::read_fixed;
pub use heads::{Beginning, FileNumbers, beginning_of, is_footed, is_too_large, numbers_of};
pub use laws::{law_front, law_imported, law_made, law_put, law_table, law_taken, law_used};
pub use reading::{Part, read_sector};
pub use tables::{Entry, TableFault, TableRead, read_table, sort_entries};
