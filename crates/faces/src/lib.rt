//! Faces of a cube: disjunctions of conjunctions of equations between a name and an end, in a
//! normal form.
//!
//! The face `(i = 0) ∧ ((j = 1) ∨ (k = 0))` is kept as `(i = 0)(j = 1) ∨ (i = 0)(k = 0)`. It holds
//! under `(i = 0)(k = 0)`, its `forall(j)` is `(i = 0)(k = 0)`, and its `restrict(i, true)` is true
//! nowhere.
//!
//! A name may be free, and then it is at neither end. So the join of its two ends does not hold
//! everywhere, and what is true at a point stays true where more names are at an end. That makes
//! implication easy to decide: a conjunction implies a face exactly where it has one of the face's
//! conjunctions within it.
//!
//! Whether a face holds under one to three faces of up to twelve conjunctions over twelve names
//! takes 0.2 to 4 microseconds where they share names. Merges that imply the face, contradict
//! themselves or have another one within them go at once; what stays can grow as the product of the
//! numbers of conjunctions.
//!
//! ```text
//! let i = Form::name(alloc, 0)?;
//! let start = Face::eq(alloc, &i, false)?;                      // (i = 0)
//! let ends = start.join(&Face::eq(alloc, &i, true)?)?;          // (i = 0) ∨ (i = 1)
//! ends.holds_under(&[start])?                                   // true
//! ends.holds_under(&[])?                                        // false, since i may be free
//! ```
#![tactic(auto)]

pub mod equations;
pub mod faces;

pub use antichains::Lattice;
pub use equations::Equation;
pub use faces::{Conj, Face};

#[cfg(test)]
mod tests;
