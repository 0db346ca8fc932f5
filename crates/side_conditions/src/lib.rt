//! Side conditions of rules: trees read as formulas and faces, and what holds under the faces of a
//! context.
//!
//! ```text
//! // ctx is the row of `[].I.(i = 0)`, and face is that of `(i = 0) or (i = 1)`
//! let mut conditions = SideConditions::new(alloc);
//! conditions.decide(alloc, &rows, SideTest::Holds(ctx, face), mark)?      // true
//! // over the row of `[].I` it is false: a free name is at neither end
//! ```
#![tactic(auto)]

mod alike;
mod asked;
mod context_faces;
mod contexts;
mod deciding;
mod opening;
mod reading;
mod readings;
mod restriction;
mod shapes;
mod subtree;
mod tasks;
mod walk;

pub use context_faces::ContextFaces;
pub use deciding::SideConditions;
