//! From texts to trees: what the names of a text stand for, what each form means, which definitions
//! a text holds, and where it has no meaning. Definitions, and what they use of programs.
//!
//! `specs/Texts` says which form each production of the grammar is, and `specs/Forms` what the form
//! means. A line, a motive and a side of `Glue` are read in a way of their own, so each expression
//! has a reading for each kind of place.
//!
//! ```text
//! \(x y : U) -> x                lam U (lam U (var 1))
//! (x : U) -> x -> x              pi U (pi (var 0) (var 1))
//! natrec (\(x : nat) -> P) a b n natrec P a b n, with P under x
//! ```
#![tactic(auto)]

mod built_in;
mod fault;
mod laws;
mod spans;

pub use built_in::BuiltIn;
pub use fault::{Cause, Refusal, ScopeFault, earlier};
pub use laws::laws_of_texts;
pub use spans::span_of;

#[cfg(test)]
mod tests;
