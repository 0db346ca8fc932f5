//! The state of a checker of direct codes over a book, and what each task does to it: one derived
//! rule, or other tasks that stand for it.
//!
//! ```text
//! let mut state = CheckState::new(alloc, book)?;
//! let mut tasks = Tasks::new(alloc);
//! state.zero_inferred(book)?       // Next::Moved: [] >> zero : nat was inferred
//! state.project(book, &mut tasks, &[projection])?  // Next::NotDirect: nat is no type of pairs
//! ```
#![tactic(auto)]

mod atoms;
mod comparing;
mod definitions;
mod eliminations;
mod formulas;
mod functions;
mod lines;
mod pairs;
mod recursion;
mod state;

pub use definitions::block;
pub use functions::{lambda, under};
pub use lines::line;
pub use recursion::motive;
pub use state::{CheckState, Root};
