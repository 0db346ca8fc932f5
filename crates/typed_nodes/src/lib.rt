//! Terms and types by their nodes: a type stands at home in another context, under a substitution,
//! so that nothing is made again where it is used. Each function forms a context, a substitution, a
//! type or a term of typed parts, by one derived rule.
//!
//! ```text
//! let ctx = empty(book)?;                      // ctx []
//! let nought = zero(book, ctx)?;               // [] >> zero : nat
//! let one = successor(book, nought)?;          // [] >> suc zero : nat
//! let (small, numbers) = numbers_type(book, ctx)?;     // [] >> nat : U, and [] >> nat
//! ```
#![tactic(auto)]

mod calls;
mod forms;
mod instances;
mod node_rows;
mod substitutions;
mod terms;
mod types;

pub use calls::{derive, derive_two, derived};
pub use forms::{
    family_of_numbers, motive_step, numbers_type, path_in_universe, path_small, path_type,
    pi_small, pi_type, sigma_small, sigma_type, small_type, universe_type,
};
pub use instances::{term_instance, type_instance, variable};
pub use node_rows::{subject_row, substitution_row, type_row};
pub use substitutions::{
    composed, empty, identity, line_ends, motive_start, past_name, past_variable, pushed,
    under_name, under_variable, with_name, with_variable,
};
pub use terms::{
    applied, first, function, paired, path, path_at, recursion, second, successor, transported,
    zero,
};
pub use types::{Family, Line, TypeAt, Typed};
