//! Formulas and faces as normal trees, without names that the faces of their context fix; and what
//! stands under a face, as the system of its sides, one for each conjunction.
//!
//! ```text
//! // comp A p b a under d : H to G, and c a conjunction of p[d]
//! let susp = side_at(&mut book, faced, c)?;              // b under d in H.c.I
//! let system = one_more(alloc, &mut book, faced, side, rest)?;
//! ```
#![tactic(auto)]

mod settling;
mod sides;

pub use settling::{conjunctions_of, cover_of, face_under, is_same_tree, settled_formula};
pub use sides::{Faced, Reach, Side, There, no_sides, one_more, past_face, side_at, where_true};
