//! The loop: questions whose states ask one another, and a budget of moves.
//!
//! ```text
//! match answer(alloc, &mut book, Question::NormalOf(susp), 1_000_000)? {
//!     Outcome::Replied { reply: Reply::Normal(part), moves } => ..,
//!     Outcome::Spent { moves: 1_000_000 } => ..,
//! }
//! ```
#![tactic(auto)]

mod asking;
mod moves;
mod states;

pub use asking::{Reached, normalise};
pub use moves::{Outcome, answer};
