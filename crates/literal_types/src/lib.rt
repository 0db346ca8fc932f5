//! What a type literally is, whatever instances and conversions spell it: found by following the
//! rules that made its node. Nothing is evaluated.
//!
//! ```text
//! // ty : H >> A, made by ty.sub of d : H to G and of the node of G >> pi B C
//! let found = literal(alloc, book, TypeAt { ty, sub })?;
//! // Literal::Pi, of the nodes of B and C, and of d after the substitution of the type
//! ```
#![tactic(auto)]

mod entries;
mod face_calls;
mod forms;
mod found;
mod joins;
mod openings;
mod past_face;
mod sources;
mod substitutions;
mod waiting;
mod ways;
mod with_face;

pub use forms::Literal;
pub use found::literal;
pub use joins::{joined, joined_two};
pub use openings::{first_two, number_at};
pub use waiting::{Waiting, looked_up};
