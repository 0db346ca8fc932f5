//! Which trees are normal, and whether their formulas and faces are.
//!
//! ```text
//! // over the row of `max (min (var 1) (var 0)) (var 0)`, where no name is fixed
//! may_apply(alloc, &rows, &mut environments, &scopes, Scope::Open, Closure::of_row(row))? // false
//! ```
#![tactic(auto)]

mod covers;
mod formulas;
mod numbers;
mod written;

pub use covers::is_normal_face;
pub use formulas::may_apply;
pub use numbers::computes;
pub use written::{is_cover_written, written_conjunction};
