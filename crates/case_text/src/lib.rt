//! What a case file says: its cases, each line of them read once, and what each line of a script is to be answered.
//!
//! **What is kept here.** Nothing between two files. A [`File`] is the cases of a file whose short forms are written out; its lines at the
//! margin are acts ([`Act`]) and its scripts are steps ([`Step`]); all of these borrow the text. Lines are counted from 1.
//! docs/CASES.md is the manual of the language.
//!
//! **What is promised.** Nothing beyond safety: the reading never panics and always ends. That it reads rightly is tested: by
//! cases that are wrong in one place each, in which something has to be found.
#![tactic(auto)]

mod acts;
mod faults;
mod files;
mod pieces;
mod places;
mod scripts;

pub use acts::{Act, CHOICES, Commit, Cost, FIRST_VALUES, Left};
pub use faults::{Fault, Part, Trial, trial_of};
pub use files::{Entry, File, Head, Kind, read};
pub use pieces::piece;
pub use places::{At, Place, Site};
pub use scripts::{Script, Step, Units, compare, is_met, text_of};
