//! What a checker of definitions knows at a place, what it found, what is to be done, and why it
//! ends. It asks questions of evaluation, each within a budget of moves.
//!
//! A code is inferred, checked at a type, or taken as a type. What is to be done stands on a list
//! of tasks, so nothing recurses on the depth of a code. What was found stands on two more:
//! typings, and terms that were inferred, each with its type. All types are nodes of the book.
//!
//! ```text
//! tasks.plan(&[
//!     Task::Infer(code),                           // the first that is done
//!     Task::Comparing(Comparing::At(ty, start)),   // then: what was inferred has the type
//! ])?;
//! match state.shape(book, start, ty)?.head {       // a question, if the type is not literally one
//!     Head::Function(family) => ..,
//!     _ => return Err(state.wanted(book, start, Kind::Function, ty)),
//! }
//! ```
#![tactic(auto)]

mod faults;
mod places;
mod questions;
mod shapes;
mod spans;
mod state;
mod tasks;

pub use faults::{CheckFault, Kind, Refusal, Stop};
pub use questions::{Pair, Verdict};
pub use shapes::{Head, OpenHead, Shape};
pub use spans::start_of;
pub use state::{Examiner, Inferred};
pub use tasks::{
    Binding, Closing, Comparing, Composing, Defining, Eliminating, Former, Gluing, Inner, Lining,
    Pairing, Recurring, Sort, Task, Tasks,
};
