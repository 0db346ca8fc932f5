//! Formulas of the interval as sums of products of literals, in a normal form that is the only one
//! with its values.
//!
//! The negation of `(i ∧ j) ∨ k` is `-i ∧ -k ∨ -j ∧ -k`, two products in order; its `at(k, false)`
//! is `-i ∨ -j`.
//!
//! A name may hold and fail at once, so the meet of a name and its negation is not 0. A form of
//! twelve names with all their 4,096 products of twelve literals takes about 1 MB, and 0.2 seconds
//! by twelve meets: almost all of it goes into tests of whether one product contains another, 8
//! million in the last meet.
//!
//! ```text
//! let (i, k) = (Form::name(alloc, 0)?, Form::name(alloc, 1)?);
//! let form = i.join(&k)?.neg()?;                                // -i ∧ -k
//! form.at(1, false)?.same(&i.neg()?)                            // true
//! ```
#![tactic(auto)]

pub mod forms;
pub mod literals;

pub use antichains::Lattice;
pub use forms::{Form, Product};
pub use literals::Literal;

#[cfg(test)]
mod tests;
