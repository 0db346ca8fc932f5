//! What stands behind every node of a book: each question is asked of each node of which it may be
//! asked, and each answer is compared with the judgement that it should conclude.
//!
//! ```text
//! derive_whole(&mut book, Whole::Identity)?;
//! let tally = ask_every_node(alloc, &mut book, Asked::Type)?;
//! // tally.asked questions, and tally.wrong answers, of which there should be none
//! ```
#![tactic(auto)]

mod answers;
mod asking;
mod compositions;
mod forms;
mod glued;
mod glued_composition;
mod runs;
mod telescope;

pub use asking::{Asked, Tally, ask, ask_every_node, ask_numbered, every_node};
pub use runs::{Whole, derive_whole};
pub use telescope::{applied_to_all, function_of};

#[cfg(test)]
mod tests;
