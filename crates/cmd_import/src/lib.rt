//! The import of a disk: a VHD file is made a disk of the repository.
//!
//! **What is kept here.** Nothing: [`import`] takes a store and what a session has in memory, and hands both back at every return.
//!
//! **What it does.** First it asks `refuse_import` of `sm_refusals` whether the disk can't be imported whatever its file holds; where that is
//! so nothing is read or written. Else the file is read once, from its begin, into an `Importing` of `sm_importing` (`read_file` of
//! `vhd_import`): the disk's volume is made, marked new, and grows while its image is filled (`vhd_filling`). At the end of the file the image is
//! sealed, with the disk's sectors rounded up to whole blocks, the disk's record is put, and the mark goes by the last commit. Behind a fault
//! the volume is removed again; a volume that can't be removed stays marked new, and the next opening removes it.
//!
//! **What it promises.** The answer is the one that the bytes of the file decide (`Answers`): the size of the disk, a denial of the file, or that
//! it is longer than is read; or a call failed, of the source or of the store, or memory was wanting, and the counts of faults say which
//! (`EndCounts`). Whatever a stop leaves, at any moment, is kept and shows the disks from before, or at the last commit these and the disk
//! that the file holds (`HasImported`). Where a size is answered, the session is between two steps again, and one image came into the tree: that of
//! the disk, made at the time that was given, with a unique id by the table's number (`HasNewImage`); which slots it has, its sectors say.
//! Behind any fault but `Device` the volume is gone, and the session is between two steps as well.
//!
//! **In which units.** Sizes of files and answers are in bytes; those of disks in sectors of 512 bytes, blocks and extents of the repository.
//!
//! **What it costs.** The image's map and one page of memory, and what `sm_importing` takes for the volume; two commits, one more for each slot
//! that needs further extents, and one to remove the volume. Where it succeeds there are no more of them than the volume has extents, and one.
//! A block that holds another byte than zero is written once, as a whole, and again each time that the file comes back to it.
//!
//! The definitions are in `specs/`: `Importing` (what is answered, and what was done to the store) and `Ends` (what the end does since the
//! begin). The laws are `EntryLaws` (what follows where nothing refuses), `AnswerLaws` (what is answered by what was read), `BlockLaws` and
//! `SizeLaws` (slots and whole blocks), `MadeLaws` (the image at the end, and the disk that is read in it), `EndLaws` (an import that ends with a
//! disk) and `StillLaws` (one that ends without).
#![tactic(auto)]

mod ending;
mod imports;

pub use imports::import;
