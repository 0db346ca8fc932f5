//! Recipes of comparison where faces are true: equations that hold on each of some faces hold on
//! their join, and what has equal parts under faces that are the same is equal.
//!
//! ```text
//! COVER_TERMS      of two terms on the join of two faces, equations on each: that on the join
//! GLUE_TYPE_EQUAL  of equations of the parts of two glued types: one of the types
//! ```
#![tactic(auto)]

mod at_face;
mod comp_equal;
mod cover_lines;
mod cover_terms;
mod cover_types;
mod glue_equal;
mod glue_small_equal;
mod glue_type_equal;
mod unglue_equal;

pub use at_face::{AT_FACE, AT_FACE_GIVES};
pub use comp_equal::{COMP_EQUAL, COMP_EQUAL_GIVES};
pub use cover_lines::{COVER_LINES, COVER_LINES_GIVES};
pub use cover_terms::{COVER_TERMS, COVER_TERMS_GIVES};
pub use cover_types::{COVER_TYPES, COVER_TYPES_GIVES};
pub use glue_equal::{GLUE_EQUAL, GLUE_EQUAL_GIVES};
pub use glue_small_equal::{GLUE_SMALL_EQUAL, GLUE_SMALL_EQUAL_GIVES};
pub use glue_type_equal::{GLUE_TYPE_EQUAL, GLUE_TYPE_EQUAL_GIVES};
pub use unglue_equal::{UNGLUE_EQUAL, UNGLUE_EQUAL_GIVES};
