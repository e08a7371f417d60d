//! Two devices as one: the sectors of a first part, and then those of a second.
//!
//! **What is kept here.** The two parts, and nothing else. A [`Span`] is a device of as many sectors of 512 bytes as both
//! have together, at most 2^64 - 1; the border is the number of the first part's. A place below it is that place of the first
//! part, and a place from it on is a place of the second, counted from the border. Either part may have no sectors.
//!
//! **How a call goes.** A read or a write on both sides of the border is two calls, the first part's before the second's, and each
//! part is called for sectors of its own alone. A sync is one of the first part and one of the second. Where a call of a
//! part fails, no further one is made.
//!
//! **What a stop may leave.** An image that the first part allows, followed by one that the second allows, every two, and no
//! other ([`law_images`]). Content is told where both parts tell theirs.
//!
//! **Failures.** The count of faults is the sum of the two as a whole number, which no number of bits bounds, so it never wraps.
//! Where one part's count is spent, at 2^64 - 1, the sum is spent too ([`law_spent`]). Where a call failed, a call of exactly one part did, whose count rose or was spent.
//!
//! **Costs.** No memory, and at most one call of each part.
#![tactic(auto)]

mod laws;
mod pieces;
mod spans;

pub use laws::{law_images, law_spent};
pub use spans::Span;
