//! What nodes of a book conclude, compared exactly with what was asked: the judgements that
//! definitions spell, the typing of a term in their scope, and an equation of a term that stands
//! there.
//!
//! ```text
//! are_stated(alloc, &mut book, &roots, defs)?  // whether these conclude what definitions state
//! types_term(alloc, &mut book, root, defs, code)?  // whether it concludes [] >> t : A, t of code
//! other_side(alloc, &book, equal, root)?       // n, where equal concludes [] >> t = n : A
//! ```
#![tactic(auto)]

mod claims;
mod equations;
mod terms;

pub use claims::are_stated;
pub use equations::other_side;
pub use terms::types_term;
