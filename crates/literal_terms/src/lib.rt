//! What a term literally is, whatever instances and conversions spell it: found by following the
//! rules that made its node. The type that it was made at, and that of the node, are one or equal.
//!
//! ```text
//! // term : H >> f : T, made by tm.conv of tm.sub of d : H to G and of lam of G.A >> b : B, and of
//! // H >> (pi A B)[d] = T
//! let found = literal_term(alloc, book, term, identity)?;
//! // TermForm::Function, of the nodes of A and b; d; and the node of that equation
//! ```
#![tactic(auto)]

mod equation_instance;
mod equations;
mod equations_joined;
mod forms;
mod origins;
mod traces;
mod under;
mod ways;

pub use equations::{equation_under, joined_equations};
pub use forms::{Glued, LiteralTerm, Paired, TermForm};
pub use traces::literal_term;
pub use under::{function_under, pair_under, path_under};
