//! What evaluation works on: terms under substitutions, ways from what was asked to what is at
//! hand, questions and replies.
//!
//! ```text
//! let goal = begin(&mut book, susp)?;           // t[d] = t[d] : A[d], and t[d] itself
//! let way = advance(&mut book, goal.way, equal, None)?;
//! ```
#![tactic(auto)]

mod answers;
mod goals;
mod questions;
mod substitutions;
mod susp;
mod ways;

pub use answers::{Answers, Kept};
pub use goals::{Goal, aligned, begin, equal_at_own, finished, rebuilt};
pub use questions::{Part, Question, Reply, Step, Trail, Unaligned};
pub use substitutions::{composed, identity, is_identity, past};
pub use susp::{Susp, suspend, term_under};
pub use ways::{Way, advance, fits_joined, fits_under, follow};
