//! A volume group on a device: where a change of the table takes effect by one sector.
//!
//! **What is kept here.** A [`Group`] keeps the device, the label and its version, the table header, the table, and a buffer for
//! the table's texts. Places are in sectors, lengths of a text in bytes.
//!
//! **The model** (`specs/Groups.antt`). A group is of version 1 or 2; commits are made by version 2. `Rests` says what a stop leaves
//! in front of the extents while a commit may be made: the label, of version 2, the header, and in the header's slot the text of the
//! table. While the version is 1, `IsBeingTaken` (of the crate vg_upgrade) says it: the group as it was found, or, where an upgrade has
//! failed, the same table by version 1 or by version 2. `LeavesGroup` says which table, with which sectors of the extents, a stop may
//! leave: those of one image that the device allows and on which a group stands. `GroupStands` says that on an image some group with
//! this label stands: also after a commit that failed, a stop leaves nothing else. `area_of` is the device seen from the first
//! extent on, `beside_of` what is held where neither the layout's frame of version 2 nor the extents are.
//!
//! A format ([`format`], `specs/Formats.antt`) makes a group of version 2, in the layout that gives the device more extents. It takes
//! the label away and syncs, writes free records and the new table and syncs, then writes the label and syncs. `IsFormatted` says what
//! stands afterwards, `IsLeftByFormat` what a stop leaves: what was there, no repository, or the new group, whole.
//!
//! **What it promises.** The opening (`groups.rt`) syncs, so that what it reads lasts, and then makes five checks
//! (`openings.rt`): they find the label, the header and the table that stand on the device, or answer the first
//! fault. The label says the version and the layout, and by these the header's place, the slots and the grammar of the text are found.
//! It writes nothing. A commit (`commits.rt`) changes the table by one flip. A flip to the next table
//! (`flips.rt`) writes the text into the slot that is not in use and syncs, then writes the header and syncs. At
//! every return a stop leaves the table that stood, with what might have been left of the extents before, or the
//! next table, with what reads gave; nothing in between (`LeavesEither`). After a flip that succeeded the group stands
//! with the next table and nothing is pending (`IsFlipped`). Bytes spell one table alone, so a stop never leaves a
//! third. Only at `Ok` does the table in memory change; after a commit that failed no further one is made.
//!
//! As a [`Store`] (`stores.rt`) it answers a volume's sectors by runs (`volumes.rt`): extents that stand one after the
//! other are one call of the device. At every return of a write only the volume's own sectors have changed, as one
//! write of these bytes may change them on a device; in front of the extents nothing has. A sync, failed or not,
//! leaves nothing that a stop could not leave before. Room for several changes adds up. An upgrade takes a group of version 1 over:
//! whatever a stop leaves of it, and of an upgrade that failed, it might have left before, as the same table with the same sectors
//! of the extents. It may be called again, and at `Ok` commits may be made. The layout and the number of extents stay.
//!
//! **What it costs.** An opening takes a buffer of the bytes of a slot, 1,047,040 in the narrow layout and 8,519,680 in the wide one,
//! once the label is right, and what the table takes. A flip is two writes and two syncs and writes only the sectors that the text
//! reaches. A commit writes the next text into the buffer and takes no memory. An upgrade is three writes and two syncs, of the
//! sectors that the text reaches and two more, and takes no memory. A read or a write finds the volume at the place of the call before
//! or behind it, else by halving, takes no memory, and is one call of the device for each run. A format is eight calls of the device, and takes 256 KiB and the
//! table before the first of them.
#![tactic(auto)]

mod commits;
mod flips;
mod formats;
mod groups;
mod openings;
mod stores;
mod volumes;

pub use formats::{FormatFault, Formatted, format};
pub use groups::Group;
pub use vg_volumes::Store;
