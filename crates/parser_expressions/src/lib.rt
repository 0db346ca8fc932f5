//! The steps of the parser in expressions.
//!
//! ```text
//! // at the start of an expression, of the room 512
//! exp(alloc, 512, past, stack, token)?.top     // of a token `x`: Top::Projected
//! exp(alloc, 512, past, stack, token)          // of a token `->`: Err(Stop::Unexpected)
//! ```
#![tactic(auto)]

mod brackets;
mod exps;
mod slots;
mod wholes;

pub use brackets::{maybe, opened};
pub use exps::{exp, exp1, given, projected, spined};
pub use slots::{applied, owned, placed, put_at};
pub use wholes::{close_block, deliver, finish_exp};
