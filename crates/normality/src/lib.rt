//! Whether trees are normal: nothing is left to compute in them, and they have one way to be
//! written. A tree is read by what stands in it alone.
//!
//! ```text
//! // over the row of `app (lam nat (var 0)) zero`, where no name is fixed
//! is_normal(alloc, &rows, &[], row)?      // false
//! ```
#![tactic(auto)]

mod normality;
mod openings;
mod places;
mod sides;
mod tests;

pub use normality::is_normal_where;
