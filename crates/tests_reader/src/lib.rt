//! A reference reader of a volume group: what an opening answers, read off all bytes of a device, byte by byte.
//!
//! **What it is.** The same question as an opening's, answered in another way: the device is one slice of bytes and not
//! calls of a device, each field is tested by itself, and a text is read volume by volume with the names and extents
//! that were met so far. It is slow and shares no code with the volume group, so tests hold the one against the other.
//! It reads both versions: the label says which one, and the layout, and by these two go the places of header and slots, the
//! extents at most, and the grammar of the text.
//! Nothing is kept here, and nothing is written. Offsets and lengths are in bytes.
//!
//! **What is promised** (`specs/Answers.antt`). [`opening_fault`] answers by the definitions of an opening: the refusal of
//! the first of the five checks that fails, and none only where a group stands on the device. [`text_damage`] answers the
//! first place at which a text is damaged, and none only where it spells a table. Both take memory; what they answer
//! where it runs out is free. `specs/SoFar.antt` says what is known in the midst of a text.
//!
//! **Costs.** Each extent of a text is sought among all that were met, so a text costs the square of its extents.
#![tactic(auto)]

mod bytes;
mod frames;
mod heads;
mod openings;
mod texts;
mod volumes;

pub use bytes::{are_zeros, number, sum_between};
pub use frames::{Frame, frame_of};
pub use heads::{is_header_right, label_fault};
pub use openings::{opening_fault, text_of};
pub use texts::text_damage;
