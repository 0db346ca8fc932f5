//! Rows that name earlier rows: views of them, what makes them, what reads them, and a store of
//! them in memory.
//!
//! A row is a tree, a substitution or a context. A *maker* makes rows and answers with their
//! numbers; a *reader* reads them; one ghost member, `means`, says what each row means. `RowStore`
//! is both:
//!
//! ```text
//! let mut rows = RowStore::new(alloc);
//! let zero = rows.make(Op::Zero, &[])?;
//! let one = rows.make(Op::Suc, &[zero])?;
//! let mark = rows.len();
//! let two = rows.make(Op::Suc, &[one])?;
//! // rows.term(TermId(two)) is TermRow::Make(Op::Suc, &[one])
//! rows.truncate(mark);                        // two is gone
//! ```
#![tactic(auto)]

mod alike;
mod fits;
mod held;
mod recent;
mod store;
mod traits;
mod views;

pub use held::{HeldSize, kept};
pub use store::RowStore;
pub use traits::{Maker, Reader, Rows};
pub use views::{CtxId, CtxRow, Row, SubId, SubRow, SubSize, TermId, TermRow};
