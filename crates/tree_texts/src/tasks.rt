//! What is left to write of a text.

use crate::words::{Phrase, Sort, Style};
use closures::Closure;
use tree_frames::Frame;

/// The sides of a system that stands in a context of so many variables and names. In `second` are
/// the second halves of pairs.
#[derive(Clone, Copy, Debug)]
pub struct Sides {
    pub style: Style,
    pub level: u64,
    pub body: Closure,
    pub second: Closure,
}

/// A part of a text that is not written yet.
#[derive(Clone, Copy, Debug)]
pub enum Task<'a> {
    /// The tree of a closure, in a context of so many variables and names.
    Write(Sort, u64, Closure),
    /// What stands after the kid at the place, and the kids after it.
    Rest(Frame<'a>),
    /// A system, from its beginning on.
    System(Sides),
    /// The sides of a system after one, and its end.
    Further(Sides),
    /// What stands between the face of a side and its term.
    Arrow(Style, u64),
    /// Words that stand by themselves.
    Say(Phrase),
}
