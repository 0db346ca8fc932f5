//! Whether two terms or two types are equal, head by head, one move at a time.
//!
//! ```text
//! match step_convert(alloc, &mut book, ConvertState::new(alloc, ctx, left, right))? {
//!     ConvertStep::Asks(Question::HeadOf(susp), state) => ..,     // state.answer(reply), and on
//!     ConvertStep::Done(Reply::Differ(trail)) => ..,
//! ```
#![tactic(auto)]

mod closings;
mod differing;
mod eta;
mod eta_pairs;
mod faced;
mod headed;
mod match_terms;
mod match_types;
mod matched_faced;
mod sides;
mod state;
mod step;

pub use equal_parts::Pair;
pub use faced::FacedFrame;
pub use state::{ConvertState, Focus, Frame, Unglued};
pub use step::{ConvertStep, step_convert};
