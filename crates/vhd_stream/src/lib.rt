//! Disks as VHD files that stand by themselves.
//!
//! **What is kept here.** Nothing: [`export`] works on a store and on what a session has in memory, and writes to a sink. No call
//! reads a file.
//!
//! **The model** (`specs/`). A file is a list of sectors of 512 bytes, and its bytes are these sectors one after the
//! other. `Files` says when bytes are a VHD file that holds a disk, dynamic or fixed (`FileOf`); what else stands in a
//! dynamic file means nothing. `Exports` says which file a disk is exported as (`ExportOf`): footer, header, block
//! allocation table, the blocks that are there in rising order and without gaps, each with a bitmap of ones, and the
//! footer again. A block is there where an image of the disk's chain has a slot for it, or where a raw image of the chain
//! reaches it. Sizes are in sectors and in blocks. `Known` says the same of the images in memory, and `Sending` what a call sent.
//!
//! **What it promises.** `export` between two steps of a session, of a disk that is there: what the sink got is the file that
//! the disk is exported as by what a read of the store gives, or a front of it where a call of the store or of the sink failed, or
//! nothing where memory was wanting. The store is only read. `law_export`: read as the standard says, the file that a disk of a
//! sound image is exported as holds the sectors of that disk. It stands over the definitions alone (`Laws`).
//!
//! **What a stop may leave, and what it costs.** Nothing is written to the store. Memory is taken for one block and its bitmap,
//! before the first byte is sent. Each block is read by one read of the store for each run of its sectors that one image holds, beside one
//! of a bitmap for each VHD image that is asked, and sent by one write; the table by one write for each 128 blocks. Whether a block is
//! there is looked up twice among the images in memory, once for the table and once for the block.
#![tactic(auto)]

mod blocks;
mod exporting;
mod laws;
mod tables;

pub use exporting::{ExportFault, export, is_disk};
pub use laws::law_export;
