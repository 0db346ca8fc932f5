//! Recipes of normal forms where faces are true: a type or a term as the system of its sides, and
//! what a glued type, an element of one, and a composition are of parts that are in normal form.
//!
//! ```text
//! SIDE_TERM   of a on the join of two faces, what it equals on each: the system of both is a
//! COMP_NORMAL of what line, side and base equal: the two compositions are equal
//! ```
#![tactic(auto)]

mod comp_normal;
mod glue_normal;
mod glue_small_normal;
mod glue_type_normal;
mod nothing_term;
mod nothing_type;
mod side_line;
mod side_term;
mod side_type;
mod unglue_normal;

pub use comp_normal::{COMP_NORMAL, COMP_NORMAL_GIVES};
pub use glue_normal::{GLUE_NORMAL, GLUE_NORMAL_GIVES};
pub use glue_small_normal::{GLUE_SMALL_NORMAL, GLUE_SMALL_NORMAL_GIVES};
pub use glue_type_normal::{GLUE_TYPE_NORMAL, GLUE_TYPE_NORMAL_GIVES};
pub use nothing_term::{NOTHING_TERM, NOTHING_TERM_GIVES};
pub use nothing_type::{NOTHING_TYPE, NOTHING_TYPE_GIVES};
pub use side_line::{SIDE_LINE, SIDE_LINE_GIVES};
pub use side_term::{SIDE_TERM, SIDE_TERM_GIVES};
pub use side_type::{SIDE_TYPE, SIDE_TYPE_GIVES};
pub use unglue_normal::{UNGLUE_NORMAL, UNGLUE_NORMAL_GIVES};
