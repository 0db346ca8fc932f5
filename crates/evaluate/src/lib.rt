//! The evaluator: from a term under a substitution to the term that no rule of computation rewrites
//! by its outermost form, one move at a time.
//!
//! ```text
//! let mut state = HeadState::new(alloc, susp);
//! loop {
//!     match step_head(alloc, &mut book, state)? {
//!         HeadStep::Moved(next) => state = next,
//!         HeadStep::Asks(question, next) => ..,       // next.answer(reply), and on
//!         HeadStep::Done(reply) => return reply,
//!     }
//! }
//! ```
#![tactic(auto)]

mod absurd;
mod look;
mod open;
mod state;
mod step;
mod true_faces;

pub use eliminators::{Halves, Parts, halves_of, parts_of, type_at, type_under};
pub use look::located;
pub use open::peeled;
pub use state::{Focus, HeadState};
pub use step::{HeadStep, step_head};
