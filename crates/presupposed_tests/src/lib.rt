//! Derivations that grow, and derivations of forms; and what stands behind their last nodes.
//!
//! ```text
//! let term = successors(&mut book, 3)?;                // [] >> suc (suc (suc zero)) : nat
//! type_of_term(alloc, &mut book, term)?                // [] >> nat
//! ```
#![tactic(auto)]

mod asked;
mod conversions;
mod derived;
mod equal_numbers;
mod growth;
mod made_and_used;
mod pushed_entry;

pub use asked::{left_side, opened_form, type_of_term};
pub use derived::{converted, made, pushed, shared_equation, used};
pub use growth::{instances, successors};

#[cfg(test)]
mod tests;
