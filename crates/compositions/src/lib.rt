//! Compositions, by the heads of their lines: at functions, pairs, paths, glued types and the
//! universe they unfold; at the numbers they compute where the base and all sides are zero, or all
//! are successors.
//!
//! ```text
//! let question = ask_line(&mut book, goal)?;         // what the line is
//! match settle_line(&mut book, goal, line)? {        // line : its head
//!     Settled::Fired(next) => ..,                    // the right side of the unfolding
//!     Settled::Pushed(frame, main) => ..,            // numbers: the base is sought
//!     ..
//! }
//! ```
#![tactic(auto)]

mod lines;
mod numbers;
mod sides;
mod unfolding;

pub use lines::{ask_line, settle_line};
pub use numbers::{settle_number, settle_side};
