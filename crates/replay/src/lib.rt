//! The judge of derivation files: whether every row is right, and else which is the first that is
//! not.
//!
//! It shares with the checker the language of the theory, the rules, the rows of files, the
//! comparison of rows, the decision of side conditions and the form of what is weakened, and
//! nothing else.
//!
//! ```text
//! judge(alloc, b"rules 1\nc nil\nn ctx.nil\nr 2\n")?.verdict     // Yes { rows: 4, roots: 1 }
//! judge(alloc, b"rules 1\nc nil\nn ctx.nil\nr 1\n")?.verdict     // No { row: 3 }
//! ```
#![tactic(auto)]

mod filed;
mod filed_rows;
mod judged_rows;
mod judging;
mod known_rows;
mod named;
mod node;
mod row_judge;
mod row_maker;
mod thing;

pub use judged_rows::JudgedRows;
pub use judging::{Judged, Verdict, judge};
