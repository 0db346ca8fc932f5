//! Whether rows mean the same: trees, substitutions, contexts and claims, compared without being
//! written out.
//!
//! A comparison keeps the list of the pairs of closures that it has to look at, each once. Two
//! closures are opened by one operator and their kids go on the list, so that trees that share
//! their parts are compared in the time of what is shared.
//!
//! ```text
//! let mut comparison = Comparison::new(alloc);
//! // `zero` and `x[zero for x]`, by the numbers of their rows
//! comparison.same(&rows, PartKind::Term, zero, instance)?      // true
//! comparison.same_claim(&rows, wanted, stated)?                // in the same memory
//! ```
#![tactic(auto)]

mod comparison;
mod entries;
mod kinds;
mod pairs;
mod readings;
mod walk;

pub use comparison::Comparison;
pub use pairs::{Pair, add_pair};
pub use walk::all_agree;
