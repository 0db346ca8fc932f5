//! The operators of trees that are rows under delayed substitutions, opened with their kids.
//!
//! A *frame* is an operator over the rows of its kids, under an environment. A walk over a tree
//! keeps a frame with the place of the next kid, so that nothing recurses on the depth of a tree.
//!
//! ```text
//! // the tree of the row is `suc x`
//! match open_tree(&rows, &mut environments, Closure::of_row(row), 0)? {
//!     Opened::Operator(frame) => kid_of(&rows, &environments, &frame, 0),   // the closure of x
//!     Opened::Variable(_) => ..
//! }
//! ```
#![tactic(auto)]

mod frames;

pub use frames::{Frame, Opened, kid_of, open_tree};
