//! The judgements that resolved definitions spell, and what a code spells in their scope, as rows
//! of any maker.
//!
//! ```text
//! id (A : U) (x : A) : A = x
//!
//! [] >> pi U (pi (var 0) (var 1))
//! [] >> lam U (lam (var 0) (var 0)) : pi U (pi (var 0) (var 1))
//! ```
//!
//! A body is spelt once: where a definition is used, stands the row of its body, weakened to the
//! place.
#![tactic(auto)]

mod applied;
mod binding;
mod bodies;
mod definitions;
mod gluing;
mod kan;
mod numbers;
mod places;
mod sides;
mod systems;
mod terms;

pub use definitions::{claims_of, term_of};
