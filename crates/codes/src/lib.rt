//! Resolved texts: names stand for variables and definitions, lines stand opened, and each part has
//! the piece of the text that it spells.
//!
//! `specs/Codes` says which tree a code means. A definition stays a number where it is used, so no
//! body is copied.
//!
//! ```text
//! // \(x : nat) -> suc x, where the binder has one name and the type Code::Nat
//! let x = Code::Bound { span, index: 0 };
//! let body = Code::suc(alloc, span, x)?;
//! Code::lambda(alloc, span, binders, body)?    // it means `lam nat (suc (var 0))`
//! ```
#![tactic(auto)]

mod code;
mod forms;
mod formula;

pub use code::{Binder, Code, CodeDef, Element, LineSide, Opened, PairSide, Side};
pub use formula::{Equation, Formula};
