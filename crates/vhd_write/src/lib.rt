//! The guest's write into the own image of a disk.
//!
//! **What is kept here.** Nothing. [`write`], over any store of volumes, puts whole sectors of a disk into the VHD image
//! in a volume, whose head and map are in memory; [`put_payload`] puts them into a volume as they are. The bytes are a
//! [`Payload`]: given ones, or one byte over and over, of which only a piece is in memory. A contract sees the list of
//! them. [`write_marked`] puts into the image those sectors of one block that a bitmap marks, of the bytes of the whole block. Sectors of 512 bytes are counted from the disk's begin, and places from the volume's; blocks and slots are
//! counted from 0.
//!
//! **In which order.** A write that only replaces sectors that the image holds writes the bytes and is done. Any other
//! has three passes with a sync behind the first.
//!
//! 1. Block by block, in rising order: where the block has a slot the bytes go into it; where it has none they go into
//!    the map's least free slot, whose bitmap is put too, with the bits of just these sectors. No table names that slot
//!    yet, and no bitmap of a slot in use has a new bit.
//! 2. After the sync, the bits of the written sectors are set in the bitmaps of blocks that had a slot. Those of new slots are not read again.
//! 3. Where a block is new, the sectors of the block allocation table with the blocks' entries are written from the map
//!    in memory, and not read.
//!
//! **What it writes.** Only sectors of the volume that it has to: at every return, all that a stop may leave and a read
//! gives is what it was, but for the given sectors, with their bytes, in the slots of their blocks; the bitmaps of these
//! slots, with the bits of given sectors alone in a new slot, and with more of these in one that a block had; and the
//! sectors of the table with these blocks' entries, with entries of the map alone (`IsWritePlace`, in
//! `specs/WritePlaces`). So what lies in a new slot beside the given sectors stays as it was on the device. No bit names
//! it, so no read gives it. The bits of a bitmap behind those of the block's sectors are unset in a new slot, and stay in
//! one that a block had.
//!
//! **What a stop may leave.** At every return, whatever a stop may leave of the volume is a valid image, and follows one
//! that a stop could leave as the call began: each sector of the disk is as it was there, or held with the bytes of this
//! write (`IsGuarded` of `vhd_volumes`). The copy of the footer, the header and the last sector are not written, so a read
//! and a stop give of them what they gave (`KeepsHeads`). A write is not whole: of its sectors some may be new, and they last only once
//! the store is synced, which is the caller's. After an `Err` the map may have grown by some of the blocks, and what a read
//! gives of the written sectors is open.
//!
//! **What it costs.** No memory. Of the store: one write for each block touched, and one more for each of them that is
//! new; one read for each bitmap up to the first that lacks a bit; and then, only where a bit or a slot was missing, one
//! sync, one read for each block that had a slot, and one write for each bitmap that lacks a bit; and where a slot was missing, one write
//! for each sector of the table that has a touched block's entry. A new slot with a number below one that was in use before
//! costs a read too; a stop may leave a map with such a gap. So a write of any length makes one sync at most. It
//! writes no sector of a slot but the bitmap and those that are given. Of a byte that is repeated, a piece of less than a
//! block is written as often as the block takes it. `put_payload` is one write of given bytes, and of a byte that is
//! repeated one for each piece, without a sync.
//!
//! **Marked sectors.** `write_marked` has the same passes for one block: the runs of its marked sectors are put, one write of the store each, then
//! all is made last once, and then come the bitmap and the entry. So any number of runs costs one sync at most, and what a stop leaves, what is put
//! where and what a read gives is said by the same definitions: which sectors are given, and which bytes go where, are their parameters.
//!
//! What each pass puts where is in `specs/Passes`, the bytes of a write are in `specs/Payloads`, marked sectors in `specs/Marks`, a write's numbers in
//! `specs/Spans`, and in `specs/WriteSpans` those of a write into a disk. The proofs go over plain volumes: `FirstLaws` and `RestLaws` say what the passes leave of
//! an image, `HeadLaws` what they leave of its head, `PlaceLaws` that they put nothing elsewhere, and `ExitLaws` what a
//! write leaves at each of its returns; `BlockLaws` has it of marked sectors.
#![tactic(auto)]

mod bitmaps;
mod blocks;
mod calls;
mod finish;
mod marked;
mod marks;
mod payloads;
mod spans;
mod tables;
mod writes;

pub use bitmaps::mark;
pub use calls::put_payload;
pub use marked::write_marked;
pub use marks::{alike, put_marked};
pub use payloads::Payload;
pub use writes::write;
