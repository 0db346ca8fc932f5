//! What a checker of definitions does with each form that holds no sides: one derived rule, a
//! question of evaluation, or other tasks that stand for it.
//!
//! ```text
//! // `\(x : A) -> t` against W: W is a type of functions, A is a type, that equals the domain, and
//! // then t is checked at the codomain
//! lambda(&mut state, &mut book, &mut tasks, binders, body, ty, start)?;
//! ```
#![tactic(auto)]

mod comparing;
mod definitions;
mod eliminations;
mod functions;
mod lambdas;
mod lines;
mod pairs;
mod paths;
mod recursion;

pub use comparing::{cannot_infer, compared, universe_at, universe_in_itself};
pub use definitions::defining;
pub use eliminations::eliminating;
pub use functions::binding;
pub use lines::lining;
pub use pairs::pairing;
pub use recursion::recurring;
