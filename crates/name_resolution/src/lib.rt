//! What the names of a text refer to: variables, definitions and built-in names where terms are
//! wanted, names of the interval in formulas and equations, and names as they are bound.
//!
//! ```text
//! let text = References { alloc, bytes: b"x i suc" };           // x, i and suc are the spans
//! text.bind_all(&mut place, &[x], Binding::Variable)?;
//! text.bind_all(&mut place, &[i], Binding::Interval)?;
//! text.name(&mut place, x)?            // Code::Bound { index: 1, .. }
//! text.name(&mut place, suc)?          // Code::Lambda: the successor as a function
//! text.name(&mut place, i)?            // refused: Cause::NameKind at 2
//! ```
#![tactic(auto)]

mod bound;
mod formulas;
mod names;

pub use names::References;
