//! The kernel of the checker. A book holds rows and nodes: a *node* is an instance of a rule, with
//! its parts, its premises and its conclusion. Every node in a book is right, and that is a fact of
//! the type: `conclude` asks for a proof, and tests nothing.
//!
//! ```text
//! let mut book = Book::new(alloc)?;
//! let empty = book.ctx_nil()?;
//! let ctx = book.conclude(&RuleUse { rule: ctx.nil, parts: [], premises: [] })?;
//! let zero = book.conclude(&RuleUse { rule: zero, parts: [empty], premises: [ctx] })?;
//! book.conclusion(zero)       // Claim::Tm(empty, .., ..), which says [] >> zero : nat
//! ```
#![tactic(auto)]

mod book_rows;
mod few;
mod kernel;
mod node_words;
mod questions;
mod trying;

pub use few::{Few, RuleUse};
pub use kernel::{Book, Mark, NodeId, NodeRow};
pub use trying::Fit;
