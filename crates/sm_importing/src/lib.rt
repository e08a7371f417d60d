//! A disk that is imported, as far as the store goes: its volume is made and marked new, grows while sectors come, and becomes the disk's,
//! or goes.
//!
//! **What is kept here.** [`Importing`] owns, while a file is read, the store, what a session has in memory of it, and the image that is
//! filled: `into_parts` gives the three back. [`begin`], [`grow`], [`give_up`] and [`complete`] keep nothing: each works on a store and on
//! memory.
//!
//! **What it is.** `IsImporting` holds from the begin to the end, between any two calls: one volume is new, the disk's, and else the
//! session is as between two steps. `ImportsSince` holds where what the store holds was as memory said at the begin: whatever a stop
//! leaves is kept and shows the disks from then, since a new volume counts for nothing, whatever it holds. So what is written into it
//! needs no order and no sync; that such writes keep both is `ImportLaws` (`importing_works`, `since_works`). `IsFilled` holds where sectors
//! may come: the disk is imported, and its volume has the extents of an image with just the slots that were taken.
//!
//! **What it promises.** [`begin`] makes the volume, marked new, with the extents of an image without slots: the least that are free.
//! [`grow`] gives it those that an image with one slot more needs. [`give_up`] removes it: the table is then as at the begin but for
//! its number. Each leaves the disks from before, wherever it stops and however it fails. [`complete`] puts the disk's record, makes all
//! last and takes the mark away: the disks are then those from before and one more, the one that is read in the volume. What it asks of the
//! image there is that it stands in the volume and is steady once all that was written lasts.
//!
//! **A disk that a file is read into.** [`Importing`] is a `NewDisk` of `vhd_import`. Its `begin` makes the volume, and its `put` puts a
//! sector into the image, behind a growth where that takes a slot: where its bytes are not all zeros and its block has none. Where the
//! image needs more extents than are free, `NoSpace` says how many of each, but where memory is wanting; those that are free are counted from the
//! extents that were free at `new`. Behind a put that fails by `NoSpace` or `NoMemory` the import goes on (`IsFilled`), and nothing was put, which no clause says. It is
//! over where the volume was not made or a call of the store failed: of the image nothing is known then, and each further call answers
//! `NoMemory` and does nothing, which no clause says either. Whatever stops it, the disks are those from before (`IsSince`). The sectors of
//! one block are only in memory until another block's come or the image is finished.
//!
//! **In which units.** Sectors have 512 bytes and are counted from 0, by the disk; room is counted in extents, and slots from 0.
//!
//! **What it costs.** `begin`, `give_up` and `complete` make one commit, `grow` one or none; `complete` writes one sector and syncs once.
//! A put makes at most one commit, none where the volume gets no extents, and syncs nothing else; it writes and reads one slot at most, where its
//! block is another than that of the put before.
//! `begin` and `grow` take memory for the list of the extents, for the runs of those in use and one mark for each extent of the repository, and
//! `grow` for the places of the extents in the table; a put that takes a slot takes what `grow` does, and `give_up` and `complete` take none.
//! Rows of the table and of the tree were there before (`HasRows`, `HasTreeRoom`), so that `begin` finds one.
//!
//! The definitions are in `specs/`: `Imports` (what stands from the begin to the end), `Endings` (its end), `Rooms` (why extents are
//! wanting), `Disks` (what stands while a file is read, and what was put) and `Proper` (that a disk may carry it). The laws are
//! `MomentLaws` and `EndLaws` (by site, table and sectors), `ImportLaws` and `CompleteLaws` (over a store), `BackLaws` (the table is as
//! before), `AddedLaws` (one image more keeps a shape well-formed), `RoomLaws` (the extents that no other volume has), `BlockLaws` (which
//! blocks have slots, and what a put asks for), `FillLaws`, `WriteLaws` and `PutLaws` (the image while its volume grows and is written
//! to), `SinceLaws` (what holds of the store of the begin), and `FaultLaws` and `AnswerLaws` (what an answer tells).
#![tactic(auto)]

mod completing;
mod disks;
mod faults;
mod importing;
mod putting;

pub use completing::complete;
pub use disks::Importing;
pub use faults::RoomFault;
pub use importing::{begin, give_up, grow};
