//! Heads whose parts are in normal form: the goal at the form of these, with the equation that
//! leads to it and its typing. Where all parts were in normal form, it is the goal as it stands.
//!
//! ```text
//! // goal : app f a, and f = g, a = b are parts
//! let goal = closed_application(alloc, &mut book, goal, function, argument)?;     // app g b
//! ```
#![tactic(auto)]

mod compositions;
mod faces_of_forms;
mod functions;
mod gluing;
mod pairs;
mod parts;
mod paths;
mod recursion;
mod types;
mod within;

pub use compositions::closed_comp;
pub use faces_of_forms::{Faces, faced, faces_of};
pub use functions::{Body, closed_application, closed_lambda};
pub use gluing::{closed_glue, closed_glue_type, closed_unglue};
pub use pairs::{closed_first, closed_pair, closed_second, halves_here};
pub use parts::{are_same, is_same};
pub use paths::{closed_path, closed_path_at, closed_path_type};
pub use recursion::{closed_recursion, closed_successor};
pub use types::{closed_former, closed_small};
pub use within::{Within, enter, enter_name};
