//! A repository of version 1 is taken over by version 2.
//!
//! **What is kept here.** Nothing: a device, the label and the table that stand on it, and a buffer go in. Places are in sectors.
//!
//! **The model** (`specs/Upgrades.antt`). `IsTakenOver` says what a device holds while a group of version 1 is taken over, of the image
//! on which it stood: what version 1 reads is as there but for the label, and where the label may be that of version 2 the new header and
//! text are there, whatever a stop leaves. `IsTaken` says what it holds at the end.
//!
//! **What it promises.** [`take_over`] writes the table's text by segments and its header where version 1 reads nothing and syncs, then
//! writes the label and syncs. At every return, of one that failed too, `IsTakenOver` goes on; so on each image that a stop leaves the
//! same table stands, by version 1 or by version 2 (`law_upgrade`), and of the extents what might have been left before. It may
//! be called again after it failed.
//!
//! **What it costs.** Three writes and two syncs, of as many sectors as the text reaches and two more. It takes no memory.
#![tactic(auto)]

mod laws;
mod upgrading;

pub use laws::law_upgrade;
pub use upgrading::take_over;
