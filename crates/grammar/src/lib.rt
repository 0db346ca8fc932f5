//! The grammar of modules: the parser that reads the tokens of a text.
//!
//! `productions` has the grammar as a relation, and the states and steps of a parser that is exact
//! for it; here that parser runs.
//!
//! ```text
//! let spelt = tokens(alloc, b"U -> U")?;
//! read_exp(alloc, b"U -> U", &spelt)?          // Exp::Arrow, over Exp::Universe twice
//! let begun = tokens(alloc, b"a ->")?;
//! read_exp(alloc, b"a ->", &begun)             // Err(ReadFault::Unexpected(4)), at the end
//! ```
#![tactic(auto)]

mod reading;

pub use reading::{ReadFault, read, read_exp};
