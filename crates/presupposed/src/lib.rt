//! What stands behind the nodes of a book: the context of a typing, the type of a term, the sides
//! of an equation, typed. No rule leads there; each is had from the derivation of the node, by the
//! entries of the rules that made it.
//!
//! ```text
//! // term : G >> app f a : B{a}, made by app of f : pi A B and a : A
//! let ty = type_of(alloc, book, term)?;
//! // G >> B{a}: the codomain of the type of f, under a
//! ```
#![tactic(auto)]

mod anchors;
mod earlier;
mod kids;
mod memory;
mod parts;
mod questions;
mod right_sides;
mod tasks;
mod terms;
mod walk;

pub use anchors::anchor;
pub use kids::{kid_of, kids_of};
pub use memory::Question;
pub use questions::{context_of, far_of, home_of, left_of, right_of, type_of};
pub use terms::{OpenedTerm, TermKids, fits_of, opened_term};
