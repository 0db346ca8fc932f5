//! Systems made of sides that agree, and what is formed with them: compositions, fillings, glued
//! types, elements of these, and elements unglued. Each use of a rule is tested.
//!
//! A side is typed where its face is true, and each equation of two sides where both faces are. A
//! system is made from its last side on; that it agrees with a term is shown in the same order.
//!
//! ```text
//! let levels = system(alloc, &mut book, home, &sides, &pairs)?;    // the body of all sides, and
//!                                                                  // of all but the first, ..
//! let base = agreement(&mut book, home, &levels, probe, &starts)?; // a = body where one is true
//! ```
#![tactic(auto)]

mod agreements;
mod conclusions;
mod equivalences;
mod gluing;
mod kan;
mod systems;
mod views;

pub use agreements::{Probe, agreement};
pub use conclusions::{
    absurd, as_types, conclude, fitted, followed, reflexive, same_trees, turned,
};
pub use equivalences::{equal_equivalences, equivalence_type};
pub use gluing::{
    Glued, glue, glued_by, glued_type, image, images, picked, small_glued_type, unglued,
};
pub use kan::{Composition, composed, filled};
pub use systems::{Home, Joins, Level, Side, TypeOn, system};
pub use views::{Reach, View, formula_at, into, where_all};
