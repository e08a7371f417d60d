//! The sectors of a volume group that are no extents, and what an opening learns from them.
//!
//! **What is kept here.** Nothing: a sector of 512 bytes goes in and its fields come out, or fields go in and
//! their sector comes out. Offsets and lengths are in bytes, places in sectors. The [`GroupLabel`] in sector 0
//! says the sizes, the number of extents, their [`Layout`] and the repository's UUID. The [`TableHeader`] says in which
//! of two slots the text of the table stands, how long it is, and its sum. Header and slots have their places in a
//! [`Frame`], which version and layout say.
//!
//! **The model** (`specs/`). `Places` says where each part stands, `Sectors` spells the two sectors field by field,
//! and `Opening` has the first five checks of an opening as one relation: what stands on a device
//! (`StandsOn`), or which check fails first (`IsRefused`). `Fields` is what the structs here stand for.
//!
//! **What it promises.** A sector is right exactly where it is, byte for byte, the spelling of the fields at its
//! offsets, and these are in their ranges; so what is written is read again, and nothing else is. The first check
//! that fails gives the answer. A device writes one sector whole or not at all, so a stop leaves the old sector
//! or the new one. No call takes memory, and each goes over the sector a few times.
#![tactic(auto)]

mod bytes;
mod headers;
mod labels;
mod places;

pub use bytes::sum_of;
pub use headers::TableHeader;
pub use labels::GroupLabel;
pub use places::{Frame, LABEL, Layout, Slot, extents_on, record_extents};
