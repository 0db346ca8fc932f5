//! Books as derivation files.
//!
//! A row of a book is a row of the file, but for those of substitutions: a file has shifts and
//! pushed trees alone, so `first then second` is written out, a tree under `second` for each tree
//! that `first` pushes. Of the rows and nodes only those are written that serve an asked root.
//!
//! ```text
//! let empty = book.conclude(&RuleUse { rule: ctx.nil, parts: [], premises: [] })?;
//! write(&book, alloc, &[empty], &mut bytes)?       // 3 rows: `rules 1`, `n ctx.nil`, `r 1`
//! ```
#![tactic(auto)]

mod copies;
mod laws;
mod lines;
mod makes;
mod marks;
mod needed;
mod numbering;
mod writer;

pub use laws::laws_of_derivable;
pub use writer::write;
