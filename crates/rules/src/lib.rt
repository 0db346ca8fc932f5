//! The rules: one table of what each wants and gives, and one machine that makes its judgements as
//! rows.
//!
//! The table itself, which a reader has to believe, is `specs/Table.antt`. The programs of this
//! crate make the rows of its judgements, and each is proved to say what the table says.
//!
//! Where rows 0, 1, 3 and 4 are `[]`, `nat`, `zero` and `suc zero`, the rule `suc` wants `zero :
//! nat` and gives `suc zero : nat`:
//!
//! ```text
//! wanted(maker, suc, &[0, 3], 0) == Ok(Claim::Tm(0, 3, 1))
//! concluded(maker, suc, &[0, 3]) == Ok(Claim::Tm(0, 4, 1))
//! ```
#![tactic(auto)]

mod as_rows;
mod derived;
mod instruction;
mod machine;
mod program;
mod stack;
mod table;

pub use as_rows::{concluded, side, wanted};
pub use conditions::SideTest;
