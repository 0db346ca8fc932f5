//! Modules as trees: a form for each production of the grammar, with the piece of the text that it
//! spells.
//!
//! ```text
//! // the text `U -> U`
//! let from = Exp::Universe { span: Span { start: 0, end: 1 } };
//! let to = Exp::Universe { span: Span { start: 5, end: 6 } };
//! Exp::arrow(alloc, Span { start: 0, end: 6 }, from, to)?       // Exp::Arrow
//! ```
#![tactic(auto)]

mod exp;
mod formula;

pub use exp::{Def, Defs, Element, Elements, Exp, Exps, Module, Side, Sides, Tele, Teles};
pub use formula::{End, Equation, Equations, Formula, Projection, Projections};
