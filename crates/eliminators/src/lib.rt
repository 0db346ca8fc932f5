//! What takes terms apart: applications, halves of pairs, paths at formulas, recursion, elements of
//! glued types, unglued, and types of terms of the universe. Each is settled once its main part is
//! a term that no rule of computation rewrites by its outermost form.
//!
//! ```text
//! // goal : app f a under d, and the head of f is a lambda
//! match settle_app(alloc, &mut book, Frame { form: Eliminator::App, goal }, head)? {
//!     Settled::Fired(next) => ..,               // the body, at the argument
//!     Settled::Closed(next) => ..,              // app of the head: no rule rewrites it
//!     Settled::Asks(question, waiting) => ..,   // whether two types are equal
//!     Settled::Pushed(frame, main) => ..,
//! }
//! ```
#![tactic(auto)]

mod asks;
mod ends;
mod frames;
mod functions;
mod gluing;
mod pairs;
mod paths;
mod recursion;
mod small;
mod under;
mod unglue;

pub use asks::ask_alignment;
pub use frames::{Eliminator, Frame, Known, OnFace, Pending, Settled, Sides, Waiting};
pub use functions::{resume_app, settle_app, type_at, type_under};
pub use gluing::{GlueParts, glue_parts};
pub use pairs::{Halves, halves_of, resume_first, resume_second, settle_first, settle_second};
pub use paths::{resume_path, settle_path};
pub use recursion::{Parts, parts_of, settle_natrec};
pub use small::{as_type, settle_small};
pub use under::{Within, add, at_formula, equation_under, into_face, within_face};
pub use unglue::{resume_unglue, settle_unglue};
