//! Trails: the steps from two normal trees that differ to two of their parts which show it.
//!
//! A station is a context with two trees. A step leads from one to the next, whose trees are equal
//! to parts of those before: kids of one operator, both at a variable or a name, halves, what
//! stands under one conjunction of a face, or both unglued.
//!
//! ```text
//! // \(x : nat) -> suc (f x) and \(x : nat) -> suc (g x)
//! let links = [Link::Step(Step::Under), Link::Step(Step::Into(0)), Link::Step(Step::Into(0))];
//! is_trail(alloc, &mut book, ctx, [left, right], &links)?    // true: f and g are two variables
//! ```
#![tactic(auto)]

mod contexts;
mod ends;
mod entered;
mod eta;
mod follow;
mod glued;
mod kids;
mod open;
mod part;
mod station;
mod steps;

pub use follow::is_trail;
pub use steps::{Link, Step};
