//! What the parts of a text mean, as values of the program, how they stand where a line, a motive
//! or a pair is wanted, and codes that are made of several parts.
//!
//! ```text
//! line_text(&exp)                                      // of `(<i> a)`: LineText::Under, of `a`
//! arrow(alloc, span, nat, body)?                       // Code::Pi over one name: `pi nat body`
//! tuple(span, components)                              // of one component, that one
//! with_locals(alloc, span, Vec::new(alloc), body)?     // body
//! ```
#![tactic(auto)]

mod arguments;
mod bare;
mod forms;
mod nat;
mod opened;
mod opening;
mod teles;

pub use arguments::first_argument;
pub use forms::{arrow, projected, tuple, with_locals};
pub use opened::{LineText, MotiveText, PairText, line_text, motive_text, pair_text};
pub use opening::{line_under, motive_under, open_at};
pub use teles::binder;
