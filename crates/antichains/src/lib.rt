//! Sums of products in normal form, whatever their elements are: each product is a strictly sorted
//! list, and of the sorted products none contains another. Such a list is the only one with its
//! truth.
//!
//! The sum `ab + b + ca + bc` is `ac + b`: `b` is within two others. It joins with `a` to `a + b`
//! and meets it in `ab + ac`.
//!
//! What is made of such sums is a `Lattice`.
//!
//! ```text
//! let a = Product::single(alloc, A)?;                           // of elements A < B
//! let ab = a.merged(&Product::single(alloc, B)?)?;
//! let sum = Antichain::from_products(vec![in alloc; a, ab]?)?;
//! sum.products()                                                // a alone, which is within ab
//! ```
#![tactic(auto)]

pub mod elements;
pub mod lattice;
pub mod products;
mod sorted;
pub mod sums;

pub use elements::Element;
pub use lattice::Lattice;
pub use products::Product;
pub use sums::Antichain;

#[cfg(test)]
mod tests;
