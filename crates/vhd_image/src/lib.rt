//! One image in a volume of a store: a VHD image, or a raw one, which is all sectors of its volume.
//!
//! **What is kept here.** [`Image`]: in memory the name of the volume, and of a VHD image its footer, its header and
//! its map. A contract sees it as that ([`Body`]), the map as the list of its entries. Nothing of the disk's sectors
//! is kept.
//!
//! **In which units.** Sectors are of 512 bytes, counted from the begin of the disk or of the volume; extents, blocks
//! and slots are counted from 0; the sizes in a footer are in bytes.
//!
//! **What a stop may leave.** `open`, `read_own`, `run` and `read_held` write nothing. `make`, and `seal` with slots that were filled before, write
//! an image that no one reads before it is synced: only once it has succeeded does a read give the image, and what the slots hold stays. `set_size`, `set_parent` and
//! `end` write the head of an image that is in use: at each of their returns, whatever a stop may leave is a valid
//! image with the map and the held sectors of one that a stop could leave before, and with its size or the new one,
//! with its parent or the new one, or in all the same (`specs/Changes`). At all sectors but those that they write a
//! read and a stop give what they gave (`KeepsBut` of `vhd_volumes`). None of them syncs; that is the caller's.
//! `write` leaves of a VHD image what the crate `vhd_write` says, and of a raw one any of the written sectors; it puts
//! nothing at any other place of the volume than it has to (`IsPlaceOfWrite`, in `specs/Written`). Every call leaves the
//! table of the store and all other volumes alone (`WorksOn` of `vg_volumes`).
//!
//! **What it costs.** `open` reads two footers at most, the header and each sector of the table once, and takes the
//! map's memory; no other call takes memory. `read_own` reads two sectors at most. `run` says how far an image holds
//! sectors alike, for one sector read at most, and `read_held` then reads so many in one call of the store. `make` and `seal`
//! write four sectors and those of the table; `set_size` writes two sectors; `set_parent` reads two and writes one;
//! `end` writes one. `write` is one write of a raw image's volume, or of a byte that is repeated one for each piece of it that is in
//! memory, and for a VHD image costs what `vhd_write` says: one sync at most, whatever its length. So does `write_marked`, which puts some sectors
//! of one block: one write for each run of them, and one sync at most.
//!
//! The definitions are in `specs/`: `Bodies` (an image as contracts see it), `Made` (the fields of a new image),
//! `Opened` (what reading a volume tells), `Runs` (sectors that an image holds alike), `Changes` and `Links` (what a
//! change of the head leaves), `Written` (what a write did, and where), `Calls` (what one call did to a store's sectors), and
//! `Steady` (an image that stays true whatever a stop may leave). Which calls keep an image steady is in
//! `proofs/SteadyStores`, one law a call.
#![tactic(auto)]

mod bytes;
mod changes;
mod images;
mod linking;
mod making;
mod opening;
mod reading;
mod sizes;
mod steps;
mod writing;

pub use images::{Body, Image};
pub use reading::Run;
