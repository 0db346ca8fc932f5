//! What forms of a text make of their parts, as rows: over any maker, the row of the tree that a
//! form makes of trees whose rows are given.
//!
//! ```text
//! nested(maker, Op::Pi, &[a, b], body)?   // pi a (pi b body)
//! lifted(maker, row, 2)?                  // the tree of the row, weakened twice
//! system(maker, &[p, q], &[a, b])?        // sys p (join q f0) a (sys q f0 b empty)
//! ```
#![tactic(auto)]

mod fillings;
mod formulas;
mod lifting;
mod nesting;
mod systems;
mod terms;

pub use fillings::filling;
pub use formulas::{face, formula};
pub use lifting::lifted;
pub use nesting::{nested, tupled};
pub use systems::{all_lifted, cover, system};
pub use terms::{applied_inside, projected, under_names};
