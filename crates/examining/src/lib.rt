//! A checker of definitions: each is inferred, checked at a type, or taken as a type, by
//! bidirectional typing, where types and terms are compared by evaluation.
//!
//! Definitions are checked in order. Those before the first that is not direct are checked without
//! evaluation; from that one on, each question of evaluation has a budget of moves.
//!
//! ```text
//! match examine_definitions(alloc, &mut book, codes.as_slice(), 1_000_000)? {
//!     Examined::Typed(roots) => ..,            // of `two : nat = plus one one` the nodes
//!                                              // [] >> nat and [] >> plus one one : nat
//!     Examined::Refused(place, fault) => ..,   // what is wrong, and where
//!     Examined::Spent(place) => ..,            // no answer within the budget
//!     Examined::NotTaken(definition) => ..,
//! }
//! // in the scope of these, of `plus two two` the node [] >> plus two two : nat
//! examine_term(alloc, &mut book, codes.as_slice(), &nodes, &code, 1_000_000)?
//! ```
#![tactic(auto)]

mod checking;
mod examiner;
mod inferring;
mod steps;
mod terms;

pub use examiner::{Examined, Place, examine_definitions};
pub use examining_state::{CheckFault, Kind};
pub use terms::{ExaminedTerm, examine_term};
pub use typing_steps::Root;
