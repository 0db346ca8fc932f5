//! Normal forms of terms and of types, one move at a time.
//!
//! ```text
//! match step_normal(alloc, &mut book, NormalState::new(alloc, susp))? {
//!     NormalStep::Asks(Question::HeadOf(susp), state) => ..,
//! ```
#![tactic(auto)]

mod composing;
mod functions;
mod gluing;
mod kids;
mod pairs;
mod paths;
mod recursion;
mod state;
mod step;
mod systems;
mod types;

pub use normal_closings::{Within, enter, enter_name, halves_here};
pub use state::NormalState;
pub use step::{NormalStep, step_normal};
pub use types::{small_type, type_home};
