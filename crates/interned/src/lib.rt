//! Rows of trees, substitutions and contexts that are kept once: equal rows have one number.
//!
//! A row is words of a region. How it is coded stays in `coding`; all others see views of rows.
//!
//! ```text
//! let mut rows = InternedRows::new(alloc)?;
//! rows.reserve(2)?;
//! let zero = rows.make(Op::Zero, &[])?;       // cannot be out of memory
//! let one = rows.make(Op::Suc, &[zero])?;     // nor this
//! rows.make(Op::Zero, &[])? == zero
//! let mark = rows.mark();
//! let two = rows.make(Op::Suc, &[one])?;
//! rows.term(TermId(two))                      // TermRow::Make(Op::Suc, &[one])
//! rows.release(mark);                         // two is gone
//! ```
#![tactic(auto)]

mod coding;
mod heads;
mod interned_rows;
mod words;

pub use interned_rows::InternedRows;
pub use words::Words;
