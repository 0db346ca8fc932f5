//! Equations of what has parts under faces: compositions, glued types, their elements, and these
//! unglued, of equations of their parts. What stands under a face is compared on each conjunction
//! of the face.
//!
//! ```text
//! let sides = begin_sides(&mut book, comp_sides(&mut book, both, lines)?)?; // H.c.I >> b = c : A
//! let equal = close_comp(&mut book, both, [lines, sides, bases])?; // H >> comp A p b a = ..
//! ```
#![tactic(auto)]

mod compositions;
mod elements;
mod faces_of_forms;
mod glued;
mod splits;
mod unglued;

pub use compositions::{Comps, close_comp, comp_bases, comp_lines, comp_sides};
pub use elements::{Elements, close_elements, element_sides, elements_of};
pub use faces_of_forms::{Faces, same_faces};
pub use glued::{Glues, close_glues, glue_bases, glue_maps, glue_types, glues_of};
pub use splits::{Sided, Sides, Split, after_side, begin_sides};
pub use unglued::{Bases, close_unglued, unglue_bases};
