//! The steps of the parser in definitions, teles, systems and formulas.
//!
//! ```text
//! // at the start of a module
//! heading(alloc, Heading::Nothing, past, stack, token)?.top     // of a token `module`:
//!                                                               // Top::Heading(Heading::Word)
//! heading(alloc, Heading::Nothing, past, stack, token)          // of any other token:
//!                                                               // Err(Stop::Unexpected)
//! ```
#![tactic(auto)]

mod binders;
mod defs;
mod formulas;
mod systems;

pub use binders::names;
pub use defs::{LIMIT, block, heading, items};
pub use formulas::{after_neg, finish_formula, finish_given, neg};
pub use systems::system;
