//! Formulas and faces of normal trees: sums of products of names, as they are written, and whether
//! they are in order.
#![tactic(auto)]

mod atoms;
mod order;
mod reading;

pub use atoms::{Atom, Sort};
pub use order::is_normal_sum;
pub use reading::{cover_of, product_of, sum_of};
