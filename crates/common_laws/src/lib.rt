//! Definitions and laws on booleans, options, lists and bytes that speak of nothing of this repository.
//!
//! Kept here: no code. The definitions are in `specs/`, the laws in `proofs/`, one page a subject: `Booleans`, `Options`,
//! `Lists` (elements, elements that do not repeat, order, finding and selecting, numbers in a row) and `Bytes`. What the
//! standard library has is not here; it has most laws of `&&`, `||` and `not`, in `lemmas/Bool`.
#![tactic(auto)]
