//! The checker of direct codes, over a book. It is a stack of tasks, each of which is done by one
//! derived rule, or stands for others: nothing recurses on the depth of a code.
//!
//! ```text
//! let mut book = Book::new(alloc)?;
//! match check_definitions(alloc, &mut book, defs)? {
//!     Checked::Direct(roots) => ..,            // of `one : nat = suc zero` the nodes [] >> nat
//!                                              // and [] >> suc zero : nat
//!     Checked::NotDirect(place) => ..,         // the first that is not direct, counted from 0
//! }
//! ```
#![tactic(auto)]

mod checker;
mod inferring;
mod steps;

pub use checker::{Checked, check_definitions};
pub use typing_steps::Root;
