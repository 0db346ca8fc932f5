//! Derivations over books that are written as files, and what the judge says of them.
//!
//! ```text
//! two_is_derived();
//! let numbers = given(&mut book, TWO, TWO_GIVES)?;     // [] >> nat; [] >> suc (suc zero) : nat
//! let roots = nodes_of(alloc, numbers.as_slice())?;
//! judged(alloc, &book, roots.as_slice())?              // Verdict::Yes { rows: 13, roots: 2 }
//! ```
#![tactic(auto)]

ghost use Rattle.recipes.specs.Derivations.{Derives};
ghost use Rattle.book_tests.specs.Stated.{two_statement, successor_statement, constant_statement};
ghost use Rattle.book_tests.specs.Stated.{twice_statement, variables_statement, earlier};

mod constant;
mod growth;
mod runs;
mod successor;
mod twice;
mod two;
mod variables;
mod verdicts;

pub use constant::{CONSTANT, CONSTANT_GIVES};
pub use growth::{applications, successors, write_number};
pub use runs::{doubled, given};
pub use successor::{SUCCESSOR, SUCCESSOR_GIVES};
pub use twice::{TWICE, TWICE_GIVES};
pub use two::{TWO, TWO_GIVES};
pub use variables::{VARIABLES, VARIABLES_GIVES};
pub use verdicts::{judged, nodes_of};

#[cfg(test)]
mod tests;

/// Two, and its type.
pub fn two_is_derived()
    ensures { Derives earlier two_statement TWO.now TWO_GIVES.now }
{}

/// The successor of numbers, and its value at zero.
pub fn successor_is_derived()
    ensures { Derives earlier successor_statement SUCCESSOR.now SUCCESSOR_GIVES.now }
{}

/// A substitution that takes a number to zero.
pub fn constant_is_derived()
    ensures { Derives earlier constant_statement CONSTANT.now CONSTANT_GIVES.now }
{}

/// A substitution of a context, done twice.
pub fn twice_is_derived()
    ensures { Derives earlier twice_statement TWICE.now TWICE_GIVES.now }
{}

/// A function and a number, which are variables.
pub fn variables_are_derived()
    ensures { Derives earlier variables_statement VARIABLES.now VARIABLES_GIVES.now }
{}
