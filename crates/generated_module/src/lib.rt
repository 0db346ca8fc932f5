//! Modules of any size, which use a number, a composition, a path and a pair in turn.
//!
//! ```text
//! generated(alloc, 2)?
//! // module Gen where
//! // d0 : nat = zero
//! // d1 : nat = comp (<_> nat) (suc d0) []
//! ```
#![tactic(auto)]

mod lines;

pub use lines::generated;
