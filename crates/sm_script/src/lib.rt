//! The script: reading its lines and printing the replies.
//!
//! Kept here: nothing on a device, and nothing is left by a stop. A line is read into a [`Command`] and a
//! [`Reply`] is printed as one line of text; both are the machine's types, whose definitions say how a line
//! spells a command and how a reply is printed. Lines, words and texts are in bytes, sizes in commands and
//! replies too.
//!
//! What is promised: [`Line::read`] answers exactly the command that the line spells, or none where it spells
//! none, so whatever the libraries take beyond the grammar is refused (a UUID in braces or without hyphens, a
//! number with a sign or a leading zero). [`Print::print`] writes the reply's text, or
//! fails where the sink's faults rose and has then written a front of it.
//!
//! What it costs: a line is cut in one pass over its bytes, which stops at a word too many, and each word is
//! read once. The bytes of a `write` are decoded into room for those of any line, 32,256 bytes ([`Line::room`]);
//! it goes into what is read, a [`Reading`], and comes back from it for the next line. So the room takes memory
//! once, and reading a line takes none. Printing takes none, and writes a word of at most 128 bytes at a time, but
//! the text of what changed as a whole.
//!
//! For other words than those of a script, as the program's own, there are [`number_in`] and [`uuid_in`], which
//! read one, and [`Word`] and [`write_line`], which print a line of them; [`write_refusal_line`] prints one of a refusal.
//!
//! A [`Trial`] draws the lines of a large script from a number, the same for the same number, and takes no memory.
//!
//! The definitions of the grammar and of the printed text are those of `sm_machine` (`Lines`, `Replies`). In
//! `specs/` here: `Cuts` (what stands behind a line's first word), `Pieces` (what a call did that was to write a
//! text), `Rooms` (where the room for the bytes of a line is), and `Trials` (the lines of a trial).
#![tactic(auto)]

mod cuts;
mod digits;
mod fields;
mod lines;
mod listings;
mod parts;
mod pieces;
mod printing;
mod readings;
mod refusals;
mod steps;
mod trials;
mod words;

pub use fields::{number_in, uuid_in};
pub use lines::Line;
pub use pieces::write_line;
pub use printing::Print;
pub use readings::Reading;
pub use refusals::write_refusal_line;
pub use sm_machine::{Bytes, Command, DiskRow, DiskRows, LineBytes, Reply, StatRow, StatRows};
pub use trials::Trial;
pub use words::Word;
